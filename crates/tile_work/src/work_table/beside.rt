//! The tiles at and around one, and where a pixel's tile stands among them.

ghost use Rattle.std.specs.Prelude.{◌≡◌, ◌+◌, ◌<◌, ◌≤◌};
ghost use Rattle.grid_core.specs.Tiles.{count_of, tile_of};
ghost use Rattle.tile_work.specs.Beside.{IsBeside, IsPixelNear, place_among};

use grid_core::{Pixel, Rect, Tiling};

/// How many tiles stand at and around one at most, itself among them.
pub(super) const PLACES: usize = 9;

/// A tile, with what says without a division in which of the tiles at and around it a pixel lies.
#[derive(Clone, Copy, Debug)]
pub(super) struct TilesBeside {
    // For the clauses alone.
    pub(crate) tiling: Tiling,
    pub(crate) tile: usize,
    // How many tiles stand side by side.
    pub(crate) columns: usize,
    // The tile's rectangle.
    pub(crate) rect: Rect,
}

impl TilesBeside {
    /// The tiles at and around this one.
    pub(super) fn new(tiling: &Tiling, tile: usize) -> TilesBeside
        requires { tile < count_of tiling.now }
        ensures tiling { result.tiling ≡ tiling.now }
        ensures tile { result.tile ≡ tile }
        ensures beside { IsBeside result }
    {
        TilesBeside {
            tiling: *tiling,
            tile,
            columns: tiling.width().div_ceil(tiling.side()) as usize,
            rect: tiling.rect(tile),
        }
    }

    /// The tile that a pixel lies in.
    #[inline(always)]
    pub(super) fn tile_of(&self, p: Pixel) -> usize
        requires beside { IsBeside self.now }
        requires near { IsPixelNear self.now.tiling self.now.tile p }
        ensures value { result ≡ tile_of self.now.tiling p }
        ensures within { result < count_of self.now.tiling }
    {
        let row = side_of(p.y, self.rect.y, self.rect.h);
        let column = side_of(p.x, self.rect.x, self.rect.w);
        self.tile + row * self.columns + column - (self.columns + 1)
    }

    /// The place of a pixel's tile among the nine at and around this one, row by row.
    #[inline(always)]
    pub(super) fn place_of(&self, p: Pixel) -> usize
        requires beside { IsBeside self.now }
        requires near { IsPixelNear self.now.tiling self.now.tile p }
        ensures value { result ≡ place_among self.now.tiling self.now.tile (tile_of self.now.tiling p) }
        ensures within { result < PLACES }
    {
        let row = side_of(p.y, self.rect.y, self.rect.h);
        let column = side_of(p.x, self.rect.x, self.rect.w);
        3 * row + column
    }
}

// On which side of a stretch a coordinate lies: 0 before it, 1 in it, 2 behind it.
#[inline(always)]
fn side_of(at: u32, first: u32, len: u32) -> usize
    ensures before { at < first → result ≡ 0 }
    ensures within { first ≤ at → at < first + len → result ≡ 1 }
    ensures behind { first + len ≤ at → result ≡ 2 }
    ensures most { result ≤ 2 }
{
    if at < first {
        0
    } else if at - first < len {
        1
    } else {
        2
    }
}
