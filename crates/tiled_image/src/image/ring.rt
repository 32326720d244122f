//! The pixels around a tile.

ghost use Rattle.std.specs.Prelude.{◌≡◌, ◌*◌, ◌<◌, ◌≤◌, length};
ghost use Rattle.grid_core.specs.Rects.{RectFits};
ghost use Rattle.grid_core.specs.Tiles.{count_of, rect_of};
ghost use Rattle.border_queues.specs.Around.{around_of};
ghost use Rattle.tiled_image.specs.Raising.{greater_of};
ghost use Rattle.tiled_image.specs.Ring.{HasRimmedRing, HasRing};
ghost use Rattle.tiled_image.specs.Sides.{HasSides, HasValues};

use super::TiledImage;
use crate::rims::fill_border;
use grid_core::{Rect, Tiling};
use tile_generations::Rim;

impl TiledImage {
    /// Fills cells in which a tile and the pixels around it, as far as the image goes, stand row by row, with the
    /// values of the pixels around it. What stands at the tile's own pixels does not matter then. It takes no memory.
    pub fn fill_ring(&self, tile: usize, cells: &mut [u16])
        requires tile { tile < count_of self.now.tiling }
        requires room { (around_of self.now.tiling tile).w * (around_of self.now.tiling tile).h ≤ length cells.old }
        ensures { HasRing self.now.tiling tile self.now.image cells.new }
    {
        self.rims.fill_ring(&self.tiling, tile, cells);
    }

    /// As [`fill_ring`](TiledImage::fill_ring), and the tile's own first and last row and column have the values of the
    /// image then, raised to a rim of the tile's size. It takes no memory.
    pub fn fill_raised_ring(&self, tile: usize, rim: &Rim, cells: &mut [u16])
        requires tile { tile < count_of self.now.tiling }
        requires rim { HasSides (rect_of self.now.tiling tile) rim.now }
        requires room { (around_of self.now.tiling tile).w * (around_of self.now.tiling tile).h ≤ length cells.old }
        ensures { (value : _) → HasValues (rect_of self.now.tiling tile) value rim.now
            → HasRimmedRing self.now.tiling tile self.now.image (greater_of self.now.image value) cells.new }
    {
        let tiling = self.tiling();
        self.fill_ring(tile, cells);
        fill_border(&tiling, tile, rim, cells);
        if !self.rims.bounds_over(&tiling, tile, rim).is_empty() {
            self.rims.raise_border(&tiling, tile, cells);
        }
    }
}

/// The rectangle of a tile and of the pixels around it, as far as the image goes.
pub fn around_of(tiling: &Tiling, tile: usize) -> Rect
    requires { tile < count_of tiling.now }
    ensures value { result ≡ around_of tiling.now tile }
    ensures fits { RectFits tiling.now.width tiling.now.height result }
{
    let width = tiling.width();
    let height = tiling.height();
    let rect = tiling.rect(tile);
    let x = rect.x.saturating_sub(1);
    let y = rect.y.saturating_sub(1);
    let right = (rect.x + rect.w + 1).min(width);
    let bottom = (rect.y + rect.h + 1).min(height);
    Rect {
        x,
        y,
        w: right - x,
        h: bottom - y,
    }
}
