//! The part of the table that belongs to a band of rows of tiles, cut out and put back.

ghost use Rattle.std.specs.Prelude.{◌≡◌, ◌+◌, ◌≤◌, length, slice_range, IfOk};
ghost use Rattle.tile_work.specs.Cutting.{with_part, AreOnlyMarked, HaveGenerationsOf};
ghost use Rattle.tile_work.specs.WorkTable.{dirty_bits, works_of};

use super::row::{TileRow, marked_rows};
use super::{WorkTable, empty_sets};
use crate::tile_set::TileSet;
use border_queues::Inbox;
use grid_core::Memory;
use std::alloc::Global;

impl WorkTable {
    /// The work of the tiles from `first` on and before `end`, as a table of its own. No job of theirs is out, and no
    /// hint waits there.
    ///
    /// Errors: out of memory.
    pub fn cut(&self, alloc: Global, first: usize, end: usize) -> Result<WorkTable, Memory>
        requires order { first ≤ end }
        requires within { end ≤ length self.now }
        requires marks { AreOnlyMarked self.now first end }
        ensures { IfOk result (λ table. table ≡ slice_range self.now first end) }
    {
        let rows = &self.rows[first..end];
        let copies = marked_rows(alloc, rows)?;
        let dirty = dirty_tiles(alloc, rows)?;
        let (out, waiting) = empty_sets(alloc, rows.len())?;
        Ok(WorkTable {
            rows: copies,
            dirty,
            out,
            waiting,
            told: Inbox::new(alloc),
        })
    }

    /// The tiles from `first` on are to be swept from now on where the band's tiles are, which were cut out there. No
    /// job of any of them is out, and no hint waits there. It takes no memory.
    pub fn put_dirty(&mut self, first: usize, band: &WorkTable)
        requires within { first + length band.now ≤ length self.old }
        requires marks { AreOnlyMarked self.old first (first + length band.now) }
        requires band { AreOnlyMarked band.now 0 (length band.now) }
        requires generations { HaveGenerationsOf self.old first band.now }
        ensures { self.new ≡ with_part first band.now self.old }
    {
        // For its clause alone: there are no more tiles than a `usize` counts.
        let _ = self.len();
        for place in 0..band.len() {
            let tile = first + place;
            if band.is_dirty(place) {
                self.mark_dirty(tile);
            } else {
                self.mark_clean(tile);
            }
        }
    }
}

// The set of the tiles that these rows say are dirty.
//
// Errors: out of memory.
fn dirty_tiles(alloc: Global, rows: &[TileRow]) -> Result<TileSet, Memory>
    ensures { IfOk result (λ set. set ≡ dirty_bits (works_of rows.now)) }
{
    let mut set = TileSet::empty(alloc, rows.len())?;
    for (tile, row) in rows.iter().enumerate() {
        if row.dirty {
            set.insert(tile);
        }
    }
    Ok(set)
}
