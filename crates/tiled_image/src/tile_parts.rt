//! The parts of an image in its tiles.

ghost use Rattle.std.specs.Prelude.{◌≡◌, ◌<◌, length, replicate, slice_index_or, slice_set, None, Some, IfOk, IfSome};
ghost use Rattle.std.specs.Prelude.{MatchBool, MatchOption};
ghost use Rattle.std.specs.Arc.{arc_value};
ghost use Rattle.grid_core.specs.Raster.{IsInside, with_value};
ghost use Rattle.tile_generations.specs.CutMasks.{cut_mask};
ghost use Rattle.tiled_image.specs.TileParts.{IsPartSet, IsSetAt};

use grid_core::{Grid, Memory, Pixel};
use std::alloc::Global;
use std::marker::Model;
use std::sync::Arc;

/// Of each tile of an image its part, where there is one: the tile's pixels as an image by itself, which may be shared.
#[derive(Drop)]
pub(crate) struct TileParts {
    tiles: Vec<Option<Arc<Grid>>>,
    // Parts that were let go, whose memory is given back one by one.
    gone: Vec<Arc<Grid>>,
}

impl Model for TileParts {
    ghost use Rattle.std.specs.Prelude.{List, Option, map};
    ghost use Rattle.grid_core.specs.Raster.{Raster};
    ghost use Rattle.tile_generations.specs.CutMasks.{cut_mask};

    ghost Value = { List (Option Raster) };

    ghost view = { λ p. map cut_mask p.tiles.items };
}

impl TileParts {
    /// So many tiles without a part.
    ///
    /// Errors: out of memory.
    pub(crate) fn none(alloc: Global, count: usize) -> Result<TileParts, Memory>
        ensures { IfOk result (λ parts. parts ≡ replicate count None) }
    {
        let mut tiles = Vec::with_capacity(alloc, count)?;
        for _tile in 0..count {
            tiles.push(None)?;
        }
        let gone = Vec::with_capacity(alloc, count)?;
        Ok(TileParts { tiles, gone })
    }

    /// The part of a tile, if there is one.
    pub(crate) fn part(&self, tile: usize) -> Option<&Grid>
        requires { tile < length self.now }
        ensures { MatchOption result (slice_index_or self.now tile None ≡ None)
            (λ part. slice_index_or self.now tile None ≡ Some part.now) }
    {
        match &self.tiles[tile] {
            Some(part) => Some(part),
            None => None,
        }
    }

    /// The part of a tile, if there is one, to be shared.
    ///
    /// Errors: out of memory.
    pub(crate) fn share(&self, tile: usize) -> Result<Option<Arc<Grid>>, Memory>
        requires { tile < length self.now }
        ensures { IfOk result (λ part. cut_mask part ≡ slice_index_or self.now tile None) }
    {
        let Some(part) = &self.tiles[tile] else {
            return Ok(None);
        };
        Ok(Some(Arc::try_clone(part)?))
    }

    /// Gives a tile this part. It takes no memory.
    pub(crate) fn put(&mut self, tile: usize, part: Arc<Grid>)
        requires { tile < length self.old }
        ensures { self.new ≡ slice_set self.old tile (Some (arc_value part)) }
    {
        self.tiles[tile] = Some(part);
    }

    /// Takes the part of a tile out, if there is one.
    pub(crate) fn take(&mut self, tile: usize) -> Option<Arc<Grid>>
        requires { tile < length self.old }
        ensures part { cut_mask result ≡ slice_index_or self.old tile None }
        ensures rest { self.new ≡ slice_set self.old tile None }
    {
        self.tiles[tile].take()
    }

    /// Lets the part of a tile go, if there is one. Its memory is given back later, by [`free_one`](TileParts::free_one),
    /// since that of thousands of tiles takes long. It takes no memory.
    pub(crate) fn remove(&mut self, tile: usize)
        requires { tile < length self.old }
        ensures { self.new ≡ slice_set self.old tile None }
    {
        let Some(part) = self.take(tile) else {
            return;
        };
        if self.gone.len() < self.gone.capacity() {
            let _ = self.gone.push(part);
        }
    }

    /// Gives back the memory of one part that was let go, if there is one.
    pub(crate) fn free_one(&mut self)
        ensures { self.new ≡ self.old }
    {
        let _part = self.gone.pop();
    }

    /// Gives a pixel of a tile's part another value, where there is a part and nobody else holds it. Says whether it
    /// did. The pixel is counted from the tile's upper left corner. It takes no memory.
    pub(crate) fn set_unshared(&mut self, tile: usize, p: Pixel, value: u16) -> bool
        requires tile { tile < length self.old }
        requires inside { IfSome (slice_index_or self.old tile None) (λ part. IsInside part.width part.height p) }
        ensures { MatchBool result (IsPartSet tile p value self.old self.new) (self.new ≡ self.old) }
    {
        set_in(&mut self.tiles[tile], p, value)
    }
}

// Gives a pixel of the part another value, where it is there and nobody else holds it. Says whether it did.
fn set_in(slot: &mut Option<Arc<Grid>>, p: Pixel, value: u16) -> bool
    requires { IfSome (cut_mask slot.old) (λ part. IsInside part.width part.height p) }
    ensures { MatchBool result (IsSetAt p value (cut_mask slot.old) (cut_mask slot.new))
        (cut_mask slot.new ≡ cut_mask slot.old) }
{
    match slot {
        Some(part) => set_own(part, p, value),
        None => false,
    }
}

// Gives a pixel of the part another value, where nobody else holds it. Says whether it did.
fn set_own(part: &mut Arc<Grid>, p: Pixel, value: u16) -> bool
    requires { IsInside (arc_value part.old).width (arc_value part.old).height p }
    ensures { MatchBool result (arc_value part.new ≡ with_value (arc_value part.old) p value)
        (arc_value part.new ≡ arc_value part.old) }
{
    match Arc::get_mut(part) {
        Some(own) => {
            own.set(p, value);
            true
        }
        None => false,
    }
}
