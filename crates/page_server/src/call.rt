//! What a page is opened over, and where it is served.

ghost use Rattle.std.specs.Prelude.{◌≡◌, IfOk};

use grid_core::{Conn, Memory};
use std::alloc::Global;
use std::marker::Model;
use view_session::store::StatePath;

/// The name of a file. It is seen as the bytes of the name.
#[derive(Debug, Drop)]
pub struct FileName {
    name: String,
}

impl Model for FileName {
    ghost use Rattle.std.specs.Prelude.{ℕ, List, string_bytes};

    ghost Value = { List ℕ };

    ghost view = { λ m. string_bytes m.name };
}

impl FileName {
    /// This name.
    ///
    /// Errors: out of memory.
    pub fn new(alloc: Global, name: &str) -> Result<FileName, Memory>
        ensures { IfOk result (λ file. file ≡ name.now) }
    {
        let name = String::from_str(alloc, name)?;
        Ok(FileName { name })
    }

    /// The name.
    pub fn as_str(&self) -> &str
        ensures { result.now ≡ self.now }
    {
        self.name.as_str()
    }
}

/// What a page is opened over, and where it is served.
#[derive(Debug, Drop)]
pub struct PaintCall {
    /// The file of the mask.
    pub mask: FileName,
    /// The file that keeps its strokes.
    pub file: StatePath,
    /// Which pixels are neighbours.
    pub conn: Conn,
    /// The side of the tiles, 8 to 256.
    pub side: u32,
    /// The port: any free one where it is 0, and where none is said the one of the state file, or one near it.
    pub port: Option<u16>,
    /// The file that forwards to the page's address, where there is to be one.
    pub forward: Option<FileName>,
}
