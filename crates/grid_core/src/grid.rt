//! Images of values, and their rows and parts.

ghost use Rattle.std.specs.Prelude.{◌≡◌, ◌*◌, ◌<◌, ◌⊎◌, ◌↔◌, length, replicate, IsTrue, IfOk, IsErrOf};
ghost use Rattle.std.specs.Borrow.{sem};
ghost use Rattle.grid_core.specs.Code.{code_of};
ghost use Rattle.grid_core.specs.declared.grid.GridError.TheVariants as errors;
ghost use Rattle.grid_core.specs.Lending.{LendsCells};
ghost use Rattle.grid_core.specs.Raster.{IsInside, IsImageSize, IsSized, IsBelow, index_of, value_at, with_value};
ghost use Rattle.grid_core.specs.Rects.{IsPart, IsRowOf, RectFits, part};

use crate::memory::Memory;
use crate::pixel::Pixel;
use crate::rect::Rect;
use std::alloc::{AllocError, AllocFailed, Global};
use std::marker::Model;
use thiserror::Error;

/// The greatest width and height of an image.
pub const MAX_SIDE: u32 = 16_384;

/// The greatest number of pixels of an image.
pub const MAX_PIXELS: u32 = 1 << 26;

/// The greatest level: the greatest value of a cell.
pub const MAX_LEVEL: u16 = u16::MAX;

/// Whether an image may have these sides: each from 1 to [`MAX_SIDE`], and at most [`MAX_PIXELS`] pixels.
pub fn is_image_size(w: u32, h: u32) -> bool
    ensures { IsTrue result ↔ IsImageSize w h }
{
    w > 0 && h > 0 && w <= MAX_SIDE && h <= MAX_SIDE && w * h <= MAX_PIXELS
}

/// Why a grid could not be made. The first that applies is answered, in this order.
#[derive(Clone, Copy, Debug, PartialEq, Eq, Error)]
pub enum GridError {
    /// G1: a side is 0.
    #[error("G1: a side is 0")]
    ZeroSize,
    /// G2: a side is above [`MAX_SIDE`], or there are more than [`MAX_PIXELS`] pixels.
    #[error("G2: the image is too large")]
    TooLarge,
    /// G3: out of memory.
    #[error("G3: out of memory")]
    Memory,
}

impl GridError {
    /// The code, as `G2`.
    pub fn code(self) -> &'static str
        ensures { result.now ≡ code_of self }
    {
        match self {
            GridError::ZeroSize => "G1",
            GridError::TooLarge => "G2",
            GridError::Memory => "G3",
        }
    }
}

impl From<AllocError> for GridError {
    ghost from_gives = { λ _ e. e ≡ errors.Memory };

    fn from(_e: AllocError) -> GridError {
        GridError::Memory
    }
}

impl<T: Drop> From<AllocFailed<T>> for GridError {
    ghost from_gives = { λ _ e. e ≡ errors.Memory };

    fn from(_e: AllocFailed<T>) -> GridError {
        GridError::Memory
    }
}

/// Whether an image may have these sides, as an error where it may not: G1 where a side is 0, else G2.
pub(crate) fn check_size(w: u32, h: u32) -> Result<(), GridError>
    ensures ok { IfOk result (λ _. IsImageSize w h) }
    ensures zero { IsErrOf result errors.ZeroSize ↔ ((w ≡ 0) ⊎ (h ≡ 0)) }
    ensures large { IsErrOf result errors.TooLarge ↔ ((0 < w) × (0 < h) × (IsImageSize w h → ⊥)) }
    ensures size_alone { IsErrOf result errors.Memory → ⊥ }
{
    if w == 0 || h == 0 {
        return Err(GridError::ZeroSize);
    }
    if !is_image_size(w, h) {
        return Err(GridError::TooLarge);
    }
    Ok(())
}

/// A level for each pixel of an image: `w * h` cells, each 0 to [`MAX_LEVEL`], row by row from the top, each row from
/// the left. Sides are 1 to [`MAX_SIDE`], with at most [`MAX_PIXELS`] pixels.
#[derive(Debug, Drop)]
pub struct Grid {
    w: u32,
    h: u32,
    cells: Vec<u16>,
}

impl Model for Grid {
    ghost use Rattle.grid_core.specs.Raster.{Raster, IsSized};

    ghost Value = { Raster };

    ghost view = { λ g. record { width = g.w; height = g.h; cells = g.cells.items } };

    ghost invariant = { λ g. IsSized (record { width = g.w; height = g.h; cells = g.cells.items }) };
}

impl Grid {
    /// A grid of `w * h` cells, each with the value `fill`.
    ///
    /// Errors: G1 where a side is 0, else G2 where one is above [`MAX_SIDE`] or there are more than
    /// [`MAX_PIXELS`] pixels, else G3 where memory is refused.
    pub fn new(alloc: Global, w: u32, h: u32, fill: u16) -> Result<Grid, GridError>
        ensures width { IfOk result (λ g. g.width ≡ w) }
        ensures height { IfOk result (λ g. g.height ≡ h) }
        ensures cells { IfOk result (λ g. g.cells ≡ replicate (w * h) fill) }
        ensures zero { IsErrOf result errors.ZeroSize ↔ ((w ≡ 0) ⊎ (h ≡ 0)) }
        ensures large { IsErrOf result errors.TooLarge ↔ ((0 < w) × (0 < h) × (IsImageSize w h → ⊥)) }
    {
        check_size(w, h)?;
        let cells = vec![in alloc; fill; w as usize * h as usize]?;
        Ok(Grid { w, h, cells })
    }

    /// The grid of these values, row by row from the top. It takes no memory.
    pub fn from_cells(w: u32, h: u32, cells: Vec<u16>) -> Grid
        requires { IsSized (record { width = w; height = h; cells = cells.items }) }
        ensures { result ≡ record { width = w; height = h; cells = cells.items } }
    {
        Grid { w, h, cells }
    }

    /// The number of columns.
    pub fn width(&self) -> u32
        ensures value { result ≡ self.now.width }
        ensures sized { IsSized self.now }
    {
        self.w
    }

    /// The number of rows.
    pub fn height(&self) -> u32
        ensures value { result ≡ self.now.height }
        ensures sized { IsSized self.now }
    {
        self.h
    }

    /// The values, row by row from the top.
    pub fn cells(&self) -> &[u16]
        ensures values { result.now ≡ self.now.cells }
        ensures sized { IsSized self.now }
    {
        &self.cells
    }

    /// The values, row by row from the top, to be changed in place.
    pub fn cells_mut(&mut self) -> &mut [u16]
        ensures* writes_back { sem 𝓛 (LendsCells self.entry result) }
        ensures values { result.now ≡ self.old.cells }
        ensures sized { IsSized self.old }
    {
        self.cells.as_mut_slice()
    }

    // Where the value of a pixel stands among the cells.
    fn index_of(&self, p: Pixel) -> usize
        requires { IsInside self.now.width self.now.height p }
        ensures value { result ≡ index_of self.now.width p }
        ensures within { result < length self.now.cells }
    {
        p.y as usize * self.w as usize + p.x as usize
    }

    /// The values, row by row from the top, without the grid. It takes no memory.
    pub fn into_cells(self) -> Vec<u16>
        ensures { result.items ≡ self.cells }
    {
        let Grid { cells, .. } = self;
        cells
    }

    /// Takes over the values of a grid of the same size. It takes no memory.
    pub fn assign(&mut self, other: &Grid)
        requires width { self.old.width ≡ other.now.width }
        requires height { self.old.height ≡ other.now.height }
        ensures { self.new ≡ other.now }
    {
        self.cells.copy_from_slice(&other.cells);
    }

    /// The value at a pixel.
    pub fn get(&self, p: Pixel) -> u16
        requires { IsInside self.now.width self.now.height p }
        ensures { result ≡ value_at self.now p }
    {
        self.cells[self.index_of(p)]
    }

    /// Gives a pixel another value.
    pub fn set(&mut self, p: Pixel, value: u16)
        requires { IsInside self.old.width self.old.height p }
        ensures { self.new ≡ with_value self.old p value }
    {
        let i = self.index_of(p);
        self.cells[i] = value;
    }

    /// The values of row `y` of a rectangle, counted from the rectangle's top, from the left.
    pub fn row_in(&self, rect: Rect, y: u32) -> &[u16]
        requires fits { RectFits self.now.width self.now.height rect }
        requires row { y < rect.h }
        ensures { IsRowOf rect.w (part rect (value_at self.now)) y result.now }
    {
        let width = self.width() as usize;
        let start = (rect.y + y) as usize * width + rect.x as usize;
        &self.cells()[start..start + rect.w as usize]
    }

    /// The part of the image in a rectangle, as an image of the rectangle's width and height.
    ///
    /// Errors: out of memory.
    pub fn cut(&self, alloc: Global, rect: Rect) -> Result<Grid, Memory>
        requires { RectFits self.now.width self.now.height rect }
        ensures { IfOk result (IsPart rect self.now) }
    {
        // The prover learns from the width that the image has a size.
        let _ = self.width();
        let mut cells = Vec::with_capacity(alloc, rect.w as usize * rect.h as usize)?;
        for y in 0..rect.h {
            cells.extend_from_slice(self.row_in(rect, y))?;
        }
        Ok(Grid::from_cells(rect.w, rect.h, cells))
    }

    /// Whether the sizes are equal and no cell is greater than the other's.
    pub fn is_below(&self, other: &Grid) -> bool
        ensures { IsTrue result ↔ IsBelow self.now other.now }
    {
        let same_size = self.w == other.w && self.h == other.h;
        same_size && self.cells.iter().zip(&other.cells).all(|(a, b)| a <= b)
    }

    /// Whether the sizes and all values are equal.
    pub fn is_same(&self, other: &Grid) -> bool
        ensures { IsTrue result ↔ (self.now ≡ other.now) }
    {
        self.w == other.w && self.h == other.h && self.cells() == other.cells()
    }

    /// A grid with the same size and values.
    ///
    /// Errors: out of memory.
    pub fn copy(&self, alloc: Global) -> Result<Grid, Memory>
        ensures { IfOk result (λ g. g ≡ self.now) }
    {
        let cells = Vec::from_slice(alloc, &self.cells)?;
        Ok(Grid {
            w: self.w,
            h: self.h,
            cells,
        })
    }
}
