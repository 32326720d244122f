//! Whole rows of cells, row by row from the top, each row from the left. Growing works on these, and not on a grid, so
//! that some of the rows can be given away to be grown by themselves.

ghost use Rattle.std.specs.Prelude.{◌≡◌, ◌<◌};
ghost use Rattle.grid_core.specs.Raster.{IsImageSize, IsSized, value_at};
ghost use Rattle.grid_core.specs.Rects.{IsRowOf, RectFits, part};
ghost use Rattle.raster_sweeps.specs.Growth.{rows_of};
ghost use Rattle.raster_sweeps.specs.RowPairs.{IsFirstOfRow};

use grid_core::{Grid, Rect};

/// How many columns some whole rows of cells have, and how many rows there are.
#[derive(Clone, Copy)]
pub struct Size {
    pub w: u32,
    pub h: u32,
}

impl Size {
    /// The columns and rows of an image.
    pub fn of(image: &Grid) -> Size
        ensures rows { rows_of result image.now.cells ≡ image.now }
        ensures sized { IsSized image.now }
    {
        Size {
            w: image.width(),
            h: image.height(),
        }
    }
}

/// The values of row `y` of a rectangle, counted from the rectangle's top, from the left.
pub fn row_in(cells: &[u16], size: Size, rect: Rect, y: u32) -> &[u16]
    requires sized { IsSized (rows_of size cells.now) }
    requires fits { RectFits size.w size.h rect }
    requires row { y < rect.h }
    ensures { IsRowOf rect.w (part rect (value_at (rows_of size cells.now))) y result.now }
{
    let start = (rect.y + y) as usize * size.w as usize + rect.x as usize;
    &cells[start..start + rect.w as usize]
}

/// The cell of the first pixel of the rectangle's row `y`.
pub fn first_cell(size: Size, rect: Rect, y: u32) -> u32
    requires size { IsImageSize size.w size.h }
    requires fits { RectFits size.w size.h rect }
    requires row { y < rect.h }
    ensures { IsFirstOfRow rect size.w y result }
{
    (rect.y + y) * size.w + rect.x
}
