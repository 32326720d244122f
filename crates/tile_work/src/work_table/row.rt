//! The rows of the table of the work that is left at each tile.

ghost use Rattle.std.specs.Prelude.{◌≡◌, ◌+◌, ◌<◌, ◌≤◌, ◌↔◌, [], ◌∷◌, ◌++◌, length, remove, replicate, slice_get};
ghost use Rattle.std.specs.Prelude.{IfOk, IsTrue};
ghost use Rattle.border_queues.specs.TileWork.{fresh};
ghost use Rattle.tile_work.specs.Cutting.{AreOnlyMarked};
ghost use Rattle.tile_work.specs.WorkTable.{room_of, works_of};

use border_queues::{Hint, HintRuns};
use grid_core::Memory;
use std::alloc::Global;

/// The work that is left at one tile.
#[derive(Debug, Drop)]
pub(crate) struct TileRow {
    pub(crate) generation: u64,
    pub(crate) dirty: bool,
    pub(crate) out: Option<u64>,
    pub(crate) inbox: HintRuns,
}

impl TileRow {
    /// The hint at this place of the inbox, if there is one.
    pub(crate) fn hint(&self, place: usize) -> Option<Hint>
        ensures { result ≡ slice_get self.now.inbox.hints place }
    {
        self.inbox.get(place)
    }

    /// Takes the hint at this place out of the inbox, and says whether that was the last one there.
    pub(crate) fn remove_hint(&mut self, place: usize) -> bool
        requires { place < length self.old.inbox.hints }
        ensures row { self.new ≡ record self.old { inbox = self.new.inbox } }
        ensures hints { self.new.inbox.hints ≡ remove self.old.inbox.hints place }
        ensures empty { IsTrue result ↔ (self.new.inbox.hints ≡ []) }
    {
        self.inbox.remove(place);
        self.inbox.is_empty()
    }

    /// Puts a hint behind those that wait, where there is room for it.
    pub(crate) fn push_hint(&mut self, hint: Hint)
        requires { 0 < room_of self.old }
        ensures row { self.new ≡ record self.old { inbox = self.new.inbox } }
        ensures hints { self.new.inbox.hints ≡ self.old.inbox.hints ++ hint ∷ [] }
        ensures room { room_of self.old ≤ room_of self.new + 1 }
    {
        self.inbox.push(hint);
    }
}

/// So many rows of the generation `first`, with no work.
///
/// Errors: out of memory.
pub(crate) fn rows_from(alloc: Global, count: usize, first: u64) -> Result<Vec<TileRow>, Memory>
    ensures { IfOk result (λ rows. works_of rows.items ≡ replicate count (fresh first)) }
{
    let mut rows = Vec::with_capacity(alloc, count)?;
    for _tile in 0..count {
        rows.push(TileRow {
            generation: first,
            dirty: false,
            out: None,
            inbox: HintRuns::new(alloc),
        })?;
    }
    Ok(rows)
}

/// Rows of the same generations and marks, where no job is out and no hint waits.
///
/// Errors: out of memory.
pub(crate) fn marked_rows(alloc: Global, rows: &[TileRow]) -> Result<Vec<TileRow>, Memory>
    requires { AreOnlyMarked (works_of rows.now) 0 (length rows.now) }
    ensures { IfOk result (λ copies. works_of copies.items ≡ works_of rows.now) }
{
    let mut copies = Vec::with_capacity(alloc, rows.len())?;
    for row in rows {
        copies.push(TileRow {
            generation: row.generation,
            dirty: row.dirty,
            out: None,
            inbox: HintRuns::new(alloc),
        })?;
    }
    Ok(copies)
}
