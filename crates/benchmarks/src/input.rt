//! The edits and the mask of an input, and cores on it.

use crate::outcome::{Fault, MEMORY, Outcome};
use crate::system::System;
use grid_core::Conn;
use pgm_codec::{Image, Source, read_all};
use reset_core::Core;
use std::alloc::Global;
use stroke_lattice::Delta;
use view_session::input::split;

/// An input: edit lines, and the image behind them.
#[derive(Drop)]
pub struct Input {
    /// The edits, in order.
    pub edits: Vec<Delta>,
    /// The mask.
    pub mask: Image,
    /// Which pixels are neighbours: the four, where nothing else is asked for.
    pub conn: Conn,
}

/// A core, and edits that are to be merged into it.
pub type Ready = (Core, Vec<Delta>);

/// Reads an input to its end.
///
/// Errors: no line `image`; a fault of the edit text or of the image file; a device that failed; out of memory.
pub fn read(rt: &impl System, source: &mut impl Source) -> Result<Input, Fault> {
    let alloc = rt.alloc();
    let bytes = read_all(alloc, source).or(Err(Fault("a device failed, or there is no memory")))?;
    let (text, file) = split(&bytes).ok_or(Fault("there is no line `image`"))?;
    match (edit_lang::parse(alloc, text), pgm_codec::read(alloc, file)) {
        (Ok(edits), Ok(mask)) => Ok(Input {
            edits,
            mask,
            conn: Conn::Four,
        }),
        (Err(why), _) => Err(Fault(why.code())),
        (Ok(_), Err(why)) => Err(Fault(why.code())),
    }
}

impl Input {
    /// A core on the mask with tiles of this side, into which all edits are merged. Where a count is given, so many of
    /// the last ones are left out and come with the core, which settles.
    ///
    /// Errors: a bad side; those of merging; out of memory.
    pub fn open(self, alloc: Global, side: u32, count: Option<u32>) -> Result<Ready, Fault> {
        let Input {
            mut edits,
            mask,
            conn,
        } = self;
        let first = edits.len().saturating_sub(count.unwrap_or(0) as usize);
        let last = edits.split_off(first).or(Err(MEMORY))?;
        match Core::over(alloc, mask.into_grid(), conn, side, 0) {
            Ok(mut core) => match merge_all(alloc, &mut core, &edits, count.is_some()) {
                Ok(()) => Ok((core, last)),
                Err(fault) => fault.dropping((core, last)),
            },
            Err(refused) => Fault(refused.why.code()).dropping((refused, last)),
        }
    }
}

// Merges the edits in order, and then lets the core settle where that is asked.
fn merge_all(alloc: Global, core: &mut Core, edits: &[Delta], settles: bool) -> Outcome {
    for edit in edits {
        merge(alloc, core, edit)?;
    }
    if settles {
        core.settle(alloc).or(Err(MEMORY))?;
    }
    Ok(())
}

/// Merges an edit, and says whether a stroke became live.
pub fn merge(alloc: Global, core: &mut Core, edit: &Delta) -> Result<bool, Fault> {
    match core.merge(alloc, edit) {
        Ok(change) => Ok(!change.born().is_empty()),
        Err(why) => Err(Fault(why.code())),
    }
}
