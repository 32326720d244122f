//! The masks of tiles, which their jobs share.

ghost use Rattle.std.specs.Prelude.{◌≡◌, ◌<◌, length, replicate, slice_index_or, None, Some, IfOk, MatchOption};
ghost use Rattle.std.specs.Arc.{arc_value};
ghost use Rattle.grid_core.specs.Rects.{IsPart};
ghost use Rattle.grid_core.specs.Tiles.{count_of, rect_of};
ghost use Rattle.tile_generations.specs.CutMasks.{AreTileMasks};

use grid_core::{Grid, Memory, Tiling};
use std::alloc::Global;
use std::marker::Model;
use std::sync::Arc;

/// Of each tile of an image the mask as an image by itself, once a job on the tile was made. All jobs on the tile share
/// it.
#[derive(Drop)]
pub struct TileMasks {
    tiles: Vec<Option<Arc<Grid>>>,
}

impl Model for TileMasks {
    ghost use Rattle.std.specs.Prelude.{List, Option, map};
    ghost use Rattle.grid_core.specs.Raster.{Raster};
    ghost use Rattle.tile_generations.specs.CutMasks.{cut_mask};

    ghost Value = { List (Option Raster) };

    ghost view = { λ m. map cut_mask m.tiles.items };
}

impl TileMasks {
    /// So many tiles, of none of which the mask was cut out.
    ///
    /// Errors: out of memory.
    pub fn none(alloc: Global, count: usize) -> Result<TileMasks, Memory>
        ensures { IfOk result (λ masks. masks ≡ replicate count None) }
    {
        let mut tiles = Vec::with_capacity(alloc, count)?;
        for _tile in 0..count {
            tiles.push(None)?;
        }
        Ok(TileMasks { tiles })
    }

    /// The mask of a tile, if it was cut out.
    pub fn get(&self, tile: usize) -> Option<&Grid>
        requires { tile < length self.now }
        ensures { MatchOption result (slice_index_or self.now tile None ≡ None)
            (λ mask. slice_index_or self.now tile None ≡ Some mask.now) }
    {
        match &self.tiles[tile] {
            Some(mask) => Some(mask),
            None => None,
        }
    }

    /// The mask of a tile, cut out of the whole mask where it was not yet.
    ///
    /// Errors: out of memory.
    pub fn share(
        &mut self,
        alloc: Global,
        whole: &Grid,
        tiling: &Tiling,
        tile: usize,
    ) -> Result<Arc<Grid>, Memory>
        requires masks { AreTileMasks whole.now tiling.now self.old }
        requires tile { tile < count_of tiling.now }
        ensures part { IfOk result (λ mask. IsPart (rect_of tiling.now tile) whole.now (arc_value mask)) }
        ensures masks { AreTileMasks whole.now tiling.now self.new }
    {
        if let Some(mask) = &self.tiles[tile] {
            return Ok(Arc::try_clone(mask)?);
        }
        let mask = Arc::new(alloc, whole.cut(alloc, tiling.rect(tile))?)?;
        self.tiles[tile] = Some(Arc::try_clone(&mask)?);
        Ok(mask)
    }
}
