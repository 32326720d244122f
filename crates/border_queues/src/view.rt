//! A look at the pixels of an image, whose cells may stand in any memory.

ghost use Rattle.std.specs.Prelude.{◌≡◌};
ghost use Rattle.grid_core.specs.Raster.{IsImageSize, IsInside, IsSized, value_at};

use grid_core::{Grid, Pixel};
use std::marker::Model;

/// The width, the height and the cells of an image, or of a part of one that is a rectangle.
#[derive(Drop)]
pub struct View<'a> {
    w: u32,
    h: u32,
    cells: &'a [u16],
}

impl<'a> Model for View<'a> {
    ghost use Rattle.grid_core.specs.Raster.{Raster, IsSized};

    ghost Value = { Raster };

    ghost view = { λ v. record { width = v.w; height = v.h; cells = v.cells.now } };

    ghost invariant = { λ v. IsSized (record { width = v.w; height = v.h; cells = v.cells.now }) };
}

impl<'a> View<'a> {
    /// A look at these cells, row by row from the top.
    pub fn over(w: u32, h: u32, cells: &'a [u16]) -> View<'a>
        requires { IsSized (record { width = w; height = h; cells = cells.now }) }
        ensures { result ≡ record { width = w; height = h; cells = cells.now } }
    {
        View { w, h, cells }
    }

    /// A look at a whole image.
    pub fn of(image: &'a Grid) -> View<'a>
        ensures { result ≡ image.now }
    {
        View {
            w: image.width(),
            h: image.height(),
            cells: image.cells(),
        }
    }

    /// The number of columns.
    pub fn width(&self) -> u32
        ensures value { result ≡ self.now.width }
        ensures sized { IsSized self.now }
    {
        self.w
    }

    /// The value at a pixel.
    #[inline(always)]
    pub fn get(&self, p: Pixel) -> u16
        requires { IsInside self.now.width self.now.height p }
        ensures { result ≡ value_at self.now p }
    {
        self.cells[p.y as usize * self.w as usize + p.x as usize]
    }
}
