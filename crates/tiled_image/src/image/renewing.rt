//! Images in tiles that a merge renews, or whose core settles.

ghost use Rattle.std.specs.Prelude.{◌≡◌, length};
ghost use Rattle.grid_core.specs.Tiles.{count_of};
ghost use Rattle.reset_core.specs.Bounding.{FollowResets};
ghost use Rattle.reset_core.specs.MergeSteps.{AreRenewed, CanRenew};
ghost use Rattle.reset_core.specs.Replica.{IsStored};
ghost use Rattle.tile_work.specs.TileSet.{Has};
ghost use Rattle.tiled_image.specs.{Rims.AreTaken, Rims.room_of, TileParts.AreLetGo};
ghost use Rattle.tiled_image.specs.Settling.{HasSettled, core_with, parts_with};

use super::TiledImage;
use crate::folding::write_all;
use crate::rims::Rims;
use crate::tile_parts::TileParts;
use grid_core::{Grid, Memory, Tiling};
use marker_tiles::Markers;
use reset_core::{CoreParts, Slice, renew};
use std::alloc::Global;
use std::marker::Sync;
use std::mem;
use std::thread::Threads;
use stroke_lattice::{Change, State};
use tile_work::{OpenBounds, TileSet, WorkTable};

// Rims of fewer tiles are not worth a second thread.
const SHARED_TILES: usize = 64;

impl TiledImage {
    /// Makes marker, image and work those of the strokes as they are now, as [`renew`](reset_core::renew) does, where
    /// the tiles that are reset are marked. No mark is left. It takes no memory.
    ///
    /// Each tile whose pixels change is dirty then. So the parts of the dirty tiles are let go, and no other.
    pub fn renew(
        &mut self,
        marks: &mut TileSet,
        markers: &mut Markers,
        work: &mut WorkTable,
        bounds: &mut OpenBounds,
        state: &State,
        change: &Change,
    )
        requires tiling { markers.old.tiling ≡ self.old.tiling }
        requires renew { CanRenew markers.old marks.old self.old.image work.old state.now change.now }
        requires bounds { length bounds.old ≡ count_of markers.old.tiling }
        ensures tiling { self.new.tiling ≡ self.old.tiling }
        ensures renewed { AreRenewed markers.old marks.old self.old.image work.old state.now change.now markers.new
            marks.new self.new.image work.new }
        ensures bounds { (conn : _) → FollowResets markers.old.tiling conn marks.old self.old.image self.new.image
            bounds.old bounds.new }
    {
        write_all(
            &self.tiling,
            &mut self.rows,
            &mut self.parts,
            &mut self.newer,
            &mut self.raised,
            &self.rims,
        );
        renew(marks, &mut self.rows, markers, work, bounds, state, change);
        work.add_dirty(marks);
        let_go(&mut self.parts, marks);
        self.copies.mark_all(marks);
        take_rims(&mut self.rims, &self.tiling, &self.rows, marks);
        marks.clear();
    }

    /// Settles the core of which this is the image in bands of rows of tiles, as
    /// [`Core::settle_in_bands`](reset_core::Core::settle_in_bands) does. The core comes and goes as what it stores,
    /// with any image in place of this one.
    ///
    /// The tiles whose pixels change were swept, or are dirty then. So the parts of these are let go, and no other.
    ///
    /// Errors: out of memory. Some of the work may be done then.
    pub fn settle_in_bands<R: Threads + Sync>(
        &mut self,
        rt: &R,
        alloc: Global,
        core: CoreParts,
        threads: usize,
        jobs: u64,
    ) -> (CoreParts, Result<Slice, Memory>)
        requires tiling { core.markers.tiling ≡ self.old.tiling }
        requires stored { IsStored (parts_with self.old.image core) }
        ensures tiling { self.new.tiling ≡ self.old.tiling }
        ensures stored { IsStored (parts_with self.new.image result.0) }
        ensures settled { HasSettled (core_with self.old.image core) jobs result.1
            (core_with self.new.image result.0) }
    {
        let mut changed = match TileSet::empty(alloc, self.tiling.count()) {
            Ok(none) => none,
            Err(why) => return (core, Err(why)),
        };
        write_all(
            &self.tiling,
            &mut self.rows,
            &mut self.parts,
            &mut self.newer,
            &mut self.raised,
            &self.rims,
        );
        let image = mem::replace(&mut self.rows, core.image);
        let mut settling = CoreParts { image, ..core }.into_core();
        let slice = settling.settle_in_bands(rt, alloc, &mut changed, threads, jobs);
        let mut settled = settling.into_stored();
        mem::swap(&mut self.rows, &mut settled.image);
        settled.work.add_dirty(&mut changed);
        let_go(&mut self.parts, &changed);
        self.copies.mark_all(&changed);
        let hands = hands_for(&changed, threads);
        self.rims
            .take_all(rt, hands, &self.tiling, &self.rows, &changed);
        (settled, slice)
    }
}

// How many threads are worth while for so many tiles: all of them, or one alone.
fn hands_for(tiles: &TileSet, threads: usize) -> usize {
    // For its clause alone: there are no more tiles than a `usize` counts.
    let _ = tiles.len();
    let mut next = 0;
    for _ in 0..SHARED_TILES {
        let Some(tile) = tiles.first_from(next) else {
            return 1;
        };
        next = tile + 1;
    }
    threads
}

// Lets the parts of these tiles go. It costs about these tiles.
fn let_go(parts: &mut TileParts, tiles: &TileSet)
    requires { length tiles.now ≡ length parts.old }
    ensures { AreLetGo (Has tiles.now) parts.old parts.new }
{
    // For its clause alone: there are no more tiles than a `usize` counts.
    let _ = tiles.len();
    let mut next = 0;
    while let Some(tile) = tiles.first_from(next) {
        parts.remove(tile);
        next = tile + 1;
    }
}

// Takes over the rims of these tiles from the image. It costs about these tiles.
fn take_rims(rims: &mut Rims, tiling: &Tiling, image: &Grid, tiles: &TileSet)
    requires count { length rims.old ≡ room_of tiling.now }
    requires tiles { length tiles.now ≡ count_of tiling.now }
    requires width { image.now.width ≡ tiling.now.width }
    requires height { image.now.height ≡ tiling.now.height }
    ensures { AreTaken (Has tiles.now) tiling.now image.now rims.old rims.new }
{
    // For their clauses alone: how the image is cut into tiles, and that there are no more than a `usize` counts.
    let _ = tiling.side();
    let _ = tiles.len();
    let mut next = 0;
    while let Some(tile) = tiles.first_from(next) {
        rims.take_whole(tiling, tile, image);
        next = tile + 1;
    }
}
