//! Where bands begin: the rows of tiles are shared out among them by how many tiles of each are dirty, and how many the
//! last round has swept.

ghost use Rattle.std.specs.Prelude.{◌^◌, ◌<◌};

use super::Core;
use super::bands::{Band, columns_of, rows_of};
use grid_core::Memory;
use std::alloc::Global;

// At least how many rows of tiles a band has that is cut beside few dirty tiles, where there are enough of them.
const LEAST_ROWS: u32 = 6;

// How many rows of tiles such a cut may lie from where it would share the tiles out.
const REACH: u32 = 1;

/// Where bands begin, and by what the rows of tiles are shared out among them.
#[derive(Drop)]
pub(super) struct Shares {
    /// The rows of tiles at which a new band begins. At one behind the last row none does.
    pub(super) cuts: Vec<u32>,
    /// How many tiles of each row are dirty.
    pub(super) dirty: Vec<u32>,
    /// How many tiles of each row the last round has swept.
    pub(super) swept: Vec<u32>,
}

impl Shares {
    /// So many cuts, behind the last one of the rows of tiles.
    ///
    /// Errors: out of memory.
    pub(super) fn new(alloc: Global, rows: u32, cuts: usize) -> Result<Shares, Memory> {
        Ok(Shares {
            cuts: vec![in alloc; rows; cuts]?,
            dirty: vec![in alloc; 0; rows as usize]?,
            swept: vec![in alloc; 0; rows as usize]?,
        })
    }

    /// Each cut moves to where the bands have about as many tiles each that are dirty or were swept.
    pub(super) fn share_out(&mut self) {
        for i in 0..self.cuts.len() {
            self.cuts[i] = self.fair_row(i);
        }
    }

    /// Each cut moves to near where it would share the tiles out, and there to where it runs along the fewest dirty
    /// ones. Each band gets six rows of tiles at least, or three, where there are not six for each. Where too few rows
    /// are left, a cut lies behind the last one.
    pub(super) fn share_out_beside_few(&mut self, rows: u32) {
        let is_tall = self.cuts.len() < (rows / LEAST_ROWS) as usize;
        let least = if is_tall { LEAST_ROWS } else { LEAST_ROWS / 2 };
        let mut above: u32 = 0;
        for i in 0..self.cuts.len() {
            above = row_beside_few(
                &self.dirty,
                self.fair_row(i),
                above.saturating_add(least),
                rows.saturating_sub(least),
            );
            self.cuts[i] = above;
        }
    }

    /// Each cut moves to the middle between itself and the next one, and the last one to the middle of the rows below
    /// it.
    pub(super) fn move_to_middles(&mut self, rows: u32) {
        let count = self.cuts.len();
        for i in 0..count {
            let next = if i + 1 < count {
                self.cuts[i + 1]
            } else {
                rows
            };
            self.cuts[i] += next.saturating_sub(self.cuts[i]) / 2;
        }
    }

    // Where the cut of this number would share the tiles out: the first row above which its share of them stands.
    fn fair_row(&self, number: usize) -> u32 {
        let bands = (self.cuts.len() as u64).saturating_add(1);
        let all = self.weight();
        let share = all.saturating_mul((number as u64).saturating_add(1)) / bands;
        self.row_behind(share)
    }

    // The first row above which tiles of so much weight stand, or how many rows there are.
    fn row_behind(&self, share: u64) -> u32 {
        let mut row: u32 = 0;
        let mut above: u64 = 0;
        for (dirty, swept) in self.dirty.iter().zip(&self.swept) {
            if share <= above {
                return row;
            }
            above = above.saturating_add(u64::from(*dirty) + u64::from(*swept));
            row = row.saturating_add(1);
        }
        row
    }

    // How many tiles are dirty, and how many were swept, together.
    fn weight(&self) -> u64 {
        let mut all: u64 = 0;
        for (dirty, swept) in self.dirty.iter().zip(&self.swept) {
            all = all.saturating_add(u64::from(*dirty) + u64::from(*swept));
        }
        all
    }
}

impl Core {
    /// Counts the dirty tiles of each row of tiles, and says how many there are in all.
    pub(super) fn count_by_rows(&self, dirty: &mut [u32]) -> u64 {
        let columns = columns_of(&self.tiling()) as usize;
        dirty.fill(0);
        let mut all: u64 = 0;
        let mut from = 0;
        for _ in 0..self.tiles() {
            let Some(tile) = self.next_dirty(from) else {
                return all;
            };
            add_to(dirty, tile / columns, 1);
            all = all.saturating_add(1);
            from = tile + 1;
        }
        all
    }
}

/// Counts for each row of tiles how many of them were swept in bands that stand one below another.
pub(super) fn count_swept(bands: &[Band], swept: &mut [u32]) {
    let mut above: u32 = 0;
    swept.fill(0);
    for band in bands {
        let columns = columns_of(&band.tiling) as usize;
        let mut from = 0;
        for _ in 0..band.tiling.count() {
            let Some(tile) = band.swept.first_from(from) else {
                break;
            };
            add_to(swept, (above as usize).saturating_add(tile / columns), 1);
            from = tile.saturating_add(1);
        }
        above = above.saturating_add(rows_of(&band.tiling));
    }
}

// Adds so many to the count of a row, where there is one.
fn add_to(counts: &mut [u32], row: usize, more: u32) {
    if let Some(count) = counts.get_mut(row) {
        *count = count.saturating_add(more);
    }
}

// The row near the middle along which the fewest tiles are dirty, of those from the first to the last one, or none of
// the image's where there are none.
fn row_beside_few(dirty: &[u32], middle: u32, first: u32, last: u32) -> u32 {
    let from = middle.saturating_sub(REACH).max(first);
    let to = middle.saturating_add(REACH).max(first).min(last);
    let mut best = u32::MAX;
    let mut fewest = u64::MAX;
    for row in from..=to {
        let cost = dirty_along(dirty, row as usize) + u64::from(row.abs_diff(middle));
        if cost < fewest {
            best = row;
            fewest = cost;
        }
    }
    best
}

// Four times as many as there are dirty tiles that touch the edge above a row.
fn dirty_along(dirty: &[u32], row: usize) -> u64
    ensures { result < 2 ^ 36 }
{
    let below = dirty.get(row).copied().unwrap_or(0);
    let above = dirty.get(row.saturating_sub(1)).copied().unwrap_or(0);
    4 * (u64::from(below) + u64::from(above))
}
