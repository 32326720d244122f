//! Tiles beside those of which a job is out.

ghost use Rattle.std.specs.Prelude.{◌≡◌, ◌<◌, ◌≤◌, ℕ, IfOk, length, slice_index};
ghost use Rattle.grid_core.specs.Tiles.{count_of};

use grid_core::{Memory, Tiling};
use std::alloc::Global;
use std::marker::Model;
use tile_work::{TileSet, WorkTable};

/// Which tiles touch one of which a job is out.
///
/// It serves to choose among tiles, and no contract rests on what it says: its value is how many tiles there are.
#[derive(Drop)]
pub(crate) struct BesideJobs {
    // Of how many tiles that touch each one a job is out.
    counts: Vec<u8>,
    // The tiles whose count is not 0.
    tiles: TileSet,
    // Whether it is to be counted, at first or since jobs were forgotten.
    is_stale: bool,
}

impl Model for BesideJobs {
    ghost use Rattle.std.specs.Prelude.{◌≡◌, ℕ, length, vec_len};

    ghost Value = { ℕ };

    ghost view = { λ b. vec_len b.counts };

    ghost invariant = { λ b. length b.tiles ≡ vec_len b.counts };
}

impl BesideJobs {
    /// So many tiles, which are to be counted.
    ///
    /// Errors: out of memory.
    pub(crate) fn none(alloc: Global, count: usize) -> Result<BesideJobs, Memory>
        ensures { IfOk result (λ beside. beside ≡ count) }
    {
        let tiles = TileSet::empty(alloc, count)?;
        Ok(BesideJobs {
            counts: vec![in alloc; 0; count]?,
            tiles,
            is_stale: true,
        })
    }

    /// The tiles.
    pub(crate) fn tiles(&self) -> &TileSet
        ensures { length result.now ≡ self.now }
    {
        &self.tiles
    }

    /// Jobs were forgotten: it is to be counted anew.
    pub(crate) fn forget(&mut self)
        ensures { self.new ≡ self.old }
    {
        self.is_stale = true;
    }

    /// Counts where that is to be done.
    pub(crate) fn renew(&mut self, tiling: &Tiling, work: &WorkTable)
        requires count { self.old ≡ count_of tiling.now }
        requires works { length work.now ≡ count_of tiling.now }
        ensures { self.new ≡ self.old }
    {
        if !self.is_stale {
            return;
        }
        self.counts.fill(0);
        self.tiles.clear();
        self.enter_all(tiling, work);
        self.is_stale = false;
    }

    /// A job of the tile goes out.
    pub(crate) fn enter(&mut self, tiling: &Tiling, tile: usize)
        requires count { self.old ≡ count_of tiling.now }
        requires tile { tile < count_of tiling.now }
        ensures { self.new ≡ self.old }
    {
        let touching = tiling.touching(tile);
        let tiles = touching.as_slice();
        for &other in tiles {
            self.enter_one(other);
        }
    }

    /// No job of the tile is out any more.
    pub(crate) fn leave(&mut self, tiling: &Tiling, tile: usize)
        requires count { self.old ≡ count_of tiling.now }
        requires tile { tile < count_of tiling.now }
        ensures { self.new ≡ self.old }
    {
        let touching = tiling.touching(tile);
        let tiles = touching.as_slice();
        for &other in tiles {
            self.leave_one(other);
        }
    }

    // A job goes out of each tile of which one is.
    fn enter_all(&mut self, tiling: &Tiling, work: &WorkTable)
        requires count { self.old ≡ count_of tiling.now }
        requires works { length work.now ≡ count_of tiling.now }
        ensures { self.new ≡ self.old }
    {
        // For its clause alone: the number of tiles can be counted.
        let _ = work.len();
        let mut from = 0;
        while let Some(tile) = work.next_out(from) {
            self.enter(tiling, tile);
            from = tile + 1;
        }
    }

    // One job more is out beside this tile.
    fn enter_one(&mut self, tile: usize)
        requires { tile < self.old }
        ensures { self.new ≡ self.old }
    {
        self.counts[tile] = self.counts[tile].saturating_add(1);
        self.tiles.insert(tile);
    }

    // One job less is out beside this tile.
    fn leave_one(&mut self, tile: usize)
        requires { tile < self.old }
        ensures { self.new ≡ self.old }
    {
        let count = self.counts[tile].saturating_sub(1);
        self.counts[tile] = count;
        if count == 0 {
            self.tiles.remove(tile);
        }
    }
}
