//! What a run keeps in a state file, over what is found there.

ghost use Rattle.std.specs.Prelude.{◌≡◌, IfOk, IfErr};
ghost use Rattle.run_faults.specs.declared.run_error.RunError.TheVariants as errors;

use crate::kept::frames_for;
use crate::merging::merge_behind;
use crate::store::Keeps;
use grid_core::Conn;
use run_faults::RunError;
use spd_codec::{Print, write_frames};
use std::alloc::Global;
use stroke_lattice::State;

/// The strokes and tombstones that a run keeps, for a mask of so many columns and rows.
#[derive(Drop)]
pub struct Strokes {
    /// Which pixels are neighbours.
    pub conn: Conn,
    /// The fingerprint of the mask.
    pub print: Print,
    /// Its number of columns.
    pub width: u32,
    /// Its number of rows.
    pub height: u32,
    /// The strokes and tombstones.
    pub state: State,
}

impl Strokes {
    ghost use Rattle.view_session.specs.Joining.{IsJoinedOver, IsNotJoinedOver};

    // The bytes of a state file that keeps the join of what is found and of these strokes.
    fn joined_over(&self, alloc: Global, found: &[u8]) -> Result<Vec<u8>, RunError>
        ensures joined { IfOk result (λ made. IsJoinedOver self.now found.now made.items) }
        ensures refused { IfErr result (IsNotJoinedOver self.now found.now) }
        ensures no_store { IfErr result (λ e. e ≡ errors.StateFile → ⊥) }
    {
        let frames = frames_for(alloc, found, self.conn, &self.print)?;
        let joined = merge_behind(alloc, &frames, &self.state, self.width, self.height)?;
        let made = write_frames(alloc, self.conn, &self.print, &joined)?;
        Ok(made)
    }
}

impl Keeps for Strokes {
    ghost use Rattle.view_session.specs.Joining.{Makes, Refuses};

    ghost makes = { Makes };

    ghost refuses = { Refuses };

    fn keep_over(&mut self, alloc: Global, found: &[u8]) -> Result<Vec<u8>, RunError> {
        self.joined_over(alloc, found)
    }
}
