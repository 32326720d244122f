//! Work that a keeper does by itself, in threads, and whether that takes less time than turns.

ghost use Rattle.std.specs.Prelude.{◌≡◌, ◌<◌, ◌≤◌, ◌↔◌, IsTrue};
ghost use Rattle.tile_work.specs.Least.{IsLeastFrom};
ghost use Rattle.core_dispatch.specs.Books.{KeepsRest};
ghost use Rattle.tiled_image.specs.Settling.{IsSettledFor};
ghost use Rattle.studio.specs.Keeping.{core_of, books_of, owner_of, IsUntouched};
ghost use Rattle.studio.specs.Left.{HasAtLeast, IsLeft};

use super::Keeper;
use super::turning::both;
use grid_core::Memory;
use reset_core::Slice;
use std::marker::Sync;
use std::thread::Threads;
use tiled_core::TiledCore;

// From how many tiles on bands take less time than two hands or more do by turns.
const MANY_TILES: usize = 256;

impl Keeper {
    /// Settles the core for a slice, in bands of rows of tiles: each job that is out is abandoned and each hint handed
    /// over, and then no more than `jobs` tiles are swept, by up to so many threads, of which this is one. A report of
    /// a job that was out changes nothing when it comes. A core that is quiet stays as it is.
    ///
    /// Errors: out of memory, where there is work. Some of the work may be done then.
    pub fn settle_in_bands<R: Threads + Sync>(
        &mut self,
        rt: &R,
        threads: usize,
        jobs: u64,
    ) -> Result<Slice, Memory>
        ensures settled { IsSettledFor (core_of self.old) jobs result (core_of self.new) }
        ensures rest { KeepsRest (books_of self.old) (books_of self.new) }
        ensures owner { owner_of self.new ≡ owner_of self.old }
        ensures untouched { IsUntouched self.old self.new }
    {
        let is_quiet = self.core().is_quiet();
        self.has_image = both(self.has_image, is_quiet);
        self.dispatcher.settle_in_bands(rt, threads, jobs)
    }

    /// Whether it takes less time to settle in bands by so many threads than to take turns with a hand in each of them
    /// but one: where 256 tiles or more are left, which are dirty or have a job out, and of fewer threads than three,
    /// where any tile is. It takes a step for each of them, up to 256.
    pub fn is_for_bands(&self, threads: usize) -> bool
        ensures few { threads < 3 → IsTrue result ↔ HasAtLeast 1 (IsLeft (core_of self.now)) }
        ensures many { 3 ≤ threads → IsTrue result ↔ HasAtLeast 256 (IsLeft (core_of self.now)) }
    {
        let count = if threads < 3 { 1 } else { MANY_TILES };
        are_left(self.core(), count)
    }
}

// Whether so many tiles are left, or more.
fn are_left(core: &TiledCore, count: usize) -> bool
    ensures { IsTrue result ↔ HasAtLeast count (IsLeft core.now) }
{
    // For its clause alone: there are no more tiles than a `usize` counts.
    let _ = core.tiles();
    let mut from = 0;
    for _tile in 0..count {
        let Some(tile) = next_left(core, from) else {
            return false;
        };
        from = tile + 1;
    }
    true
}

// The least tile, from `from` on, that is left.
fn next_left(core: &TiledCore, from: usize) -> Option<usize>
    ensures { IsLeastFrom (IsLeft core.now) from result }
{
    match (core.next_dirty(from), core.next_out(from)) {
        (Some(dirty), Some(out)) => Some(dirty.min(out)),
        (next, None) | (None, next) => next,
    }
}
