//! Images cut into square tiles.

ghost use Rattle.std.specs.Prelude.{◌≡◌, ◌+◌, ◌<◌, ◌≤◌, ◌↔◌, ◌⊎◌, ◌++◌, ◌∷◌, [], length, map, Contains};
ghost use Rattle.std.specs.Prelude.{IsTrue, IfOk, IsErrOf};
ghost use Rattle.std.specs.List.Sorted.{IsStrictlyIncreasing};
ghost use Rattle.grid_core.specs.declared.grid.GridError.TheVariants as errors;
ghost use Rattle.grid_core.specs.Raster.{IsInside, IsImageSize, index_of};
ghost use Rattle.grid_core.specs.Rects.{RectFits};
ghost use Rattle.grid_core.specs.Tiles.{IsTileSide, IsTiled, AreTouching, columns_of, rows_of, count_of};
ghost use Rattle.grid_core.specs.Tiles.{column_of, row_of, tile_of, rect_of};

use crate::conn::Conn;
use crate::grid::{GridError, check_size};
use crate::neighbourhood::neighbours;
use crate::pixel::Pixel;
use crate::rect::Rect;
use std::marker::Model;

/// The least side of a tile.
pub const MIN_TILE_SIDE: u32 = 8;

/// The greatest side of a tile.
pub const MAX_TILE_SIDE: u32 = 256;

/// The side of tiles where none is named.
pub const TILE_SIDE: u32 = 64;

/// Whether tiles may have this side: from [`MIN_TILE_SIDE`] to [`MAX_TILE_SIDE`].
pub fn is_tile_side(side: u32) -> bool
    ensures { IsTrue result ↔ IsTileSide side }
{
    (MIN_TILE_SIDE..=MAX_TILE_SIDE).contains(&side)
}

/// An image of `width * height` pixels cut into square tiles of one side, from [`MIN_TILE_SIDE`] to
/// [`MAX_TILE_SIDE`]. Tiles are numbered from 0, row by row from the top, each row from the left. Those at the
/// right and lower edges are cut.
#[derive(Clone, Copy, Debug, PartialEq, Eq)]
pub struct Tiling {
    width: u32,
    height: u32,
    side: u32,
}

impl Model for Tiling {
    ghost use Rattle.grid_core.specs.Tiles.{Tiles, IsTiled};

    ghost Value = { Tiles };

    ghost view = { λ t. record { width = t.width; height = t.height; side = t.side } };

    ghost invariant = { λ t. IsTiled (record { width = t.width; height = t.height; side = t.side }) };

    ghost inverse = { λ t. record { width = t.width; height = t.height; side = t.side } };
}

impl Tiling {
    /// The tiles of this side of an image of `width * height` pixels. It takes no memory.
    ///
    /// Errors: as those of [`Grid::new`](crate::Grid::new), without want of memory: G1 where a side of the image
    /// is 0, else G2 where one is above [`MAX_SIDE`](crate::MAX_SIDE) or there are more than
    /// [`MAX_PIXELS`](crate::MAX_PIXELS) pixels.
    pub fn new(width: u32, height: u32, side: u32) -> Result<Tiling, GridError>
        requires { IsTileSide side }
        ensures tiles { IfOk result (λ t. t ≡ record { width = width; height = height; side = side }) }
        ensures zero { IsErrOf result errors.ZeroSize ↔ ((width ≡ 0) ⊎ (height ≡ 0)) }
        ensures large { IsErrOf result errors.TooLarge ↔ ((0 < width) × (0 < height) × (IsImageSize width height → ⊥)) }
        ensures no_memory { IsErrOf result errors.Memory → ⊥ }
    {
        check_size(width, height)?;
        Ok(Tiling {
            width,
            height,
            side,
        })
    }

    /// The number of columns of the image.
    pub fn width(&self) -> u32
        ensures value { result ≡ self.now.width }
        ensures tiled { IsTiled self.now }
    {
        self.width
    }

    /// The number of rows of the image.
    pub fn height(&self) -> u32
        ensures value { result ≡ self.now.height }
        ensures tiled { IsTiled self.now }
    {
        self.height
    }

    /// The side of the tiles that are not cut, in pixels.
    pub fn side(&self) -> u32
        ensures value { result ≡ self.now.side }
        ensures tiled { IsTiled self.now }
    {
        self.side
    }

    /// The number of tiles.
    pub fn count(&self) -> usize
        ensures value { result ≡ count_of self.now }
        ensures some { 0 < result }
        ensures tiled { IsTiled self.now }
    {
        self.columns() as usize * self.rows() as usize
    }

    /// The tile that a pixel lies in.
    pub fn tile_of(&self, p: Pixel) -> usize
        requires { IsInside self.now.width self.now.height p }
        ensures value { result ≡ tile_of self.now p }
        ensures within { result < count_of self.now }
    {
        let column = p.x / self.side;
        let row = p.y / self.side;
        row as usize * self.columns() as usize + column as usize
    }

    /// The rectangle of a tile.
    pub fn rect(&self, tile: usize) -> Rect
        requires { tile < count_of self.now }
        ensures value { result ≡ rect_of self.now tile }
        ensures fits { RectFits self.now.width self.now.height result }
    {
        let x = self.column(tile) * self.side;
        let y = self.row(tile) * self.side;
        Rect {
            x,
            y,
            w: self.side.min(self.width - x),
            h: self.side.min(self.height - y),
        }
    }

    /// The tiles that share an edge or a corner with a tile, rising.
    pub fn touching(&self, tile: usize) -> Touching
        requires { tile < count_of self.now }
        ensures members { (other : _)
            → Contains result other ↔ (AreTouching self.now tile other × (other < count_of self.now)) }
        ensures rising { IsStrictlyIncreasing result }
    {
        let columns = self.columns();
        let place = Pixel {
            x: self.column(tile),
            y: self.row(tile),
        };
        let around = neighbours(columns, self.rows(), Conn::Eight, place);
        tiles_at(columns, around.as_slice())
    }

    // How many tiles stand side by side.
    fn columns(&self) -> u32
        ensures value { result ≡ columns_of self.now }
        ensures some { 0 < result }
        ensures tiled { IsTiled self.now }
    {
        self.width.div_ceil(self.side)
    }

    // How many tiles stand one below another.
    fn rows(&self) -> u32
        ensures value { result ≡ rows_of self.now }
        ensures some { 0 < result }
    {
        self.height.div_ceil(self.side)
    }

    // In which column of tiles a tile stands.
    fn column(&self, tile: usize) -> u32
        requires { tile < count_of self.now }
        ensures value { result ≡ column_of self.now tile }
        ensures within { result < columns_of self.now }
    {
        (tile % self.columns() as usize) as u32
    }

    // In which row of tiles a tile stands.
    fn row(&self, tile: usize) -> u32
        requires { tile < count_of self.now }
        ensures value { result ≡ row_of self.now tile }
        ensures within { result < rows_of self.now }
    {
        (tile / self.columns() as usize) as u32
    }
}

/// Up to eight tiles, rising.
#[derive(Debug, Drop)]
pub struct Touching {
    tiles: [usize; 8],
    len: usize,
}

impl Model for Touching {
    ghost use Rattle.std.specs.Prelude.{ℕ, ◌≤◌, List, take};

    ghost Value = { List ℕ };

    ghost view = { λ t. take t.len t.tiles };

    ghost invariant = { λ t. t.len ≤ 8 };
}

impl Touching {
    /// The tiles, rising.
    pub fn as_slice(&self) -> &[usize]
        ensures tiles { result.now ≡ self.now }
        ensures few { length self.now ≤ 8 }
    {
        &self.tiles[..self.len]
    }

    fn push(&mut self, tile: usize)
        requires { length self.old < 8 }
        ensures { self.new ≡ self.old ++ tile ∷ [] }
    {
        self.tiles[self.len] = tile;
        self.len += 1;
    }
}

// The tiles at these columns and rows of tiles.
fn tiles_at(columns: u32, places: &[Pixel]) -> Touching
    requires { length places.now ≤ 8 }
    ensures { result ≡ map (index_of columns) places.now }
{
    let mut found = Touching {
        tiles: [0; 8],
        len: 0,
    };
    for place in places {
        found.push(place.y as usize * columns as usize + place.x as usize);
    }
    found
}
