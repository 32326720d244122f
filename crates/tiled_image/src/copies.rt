//! Strips of an image, copied from what shows one rectangle of it to what shows another.

ghost use Rattle.std.specs.Prelude.{◌≡◌, ◌*◌, ◌≤◌, length};
ghost use Rattle.grid_core.specs.Raster.{IsInside};
ghost use Rattle.grid_core.specs.Rects.{IsInRect};
ghost use Rattle.tiled_image.specs.Shown.{CanCopy, IsStripCopied, as_image, cell_in, place_in, value_in};

use grid_core::{Grid, Pixel, Rect};

/// Where a pixel stands in a rectangle, counted from the rectangle's upper left corner.
pub(crate) fn place_in(rect: Rect, p: Pixel) -> Pixel
    requires { IsInRect rect p }
    ensures value { result ≡ place_in rect p }
    ensures inside { IsInside rect.w rect.h result }
{
    Pixel {
        x: p.x - rect.x,
        y: p.y - rect.y,
    }
}

/// Copies a strip of an image from a source, which shows the rectangle `from` of the image, into cells that show the
/// rectangle `to` of it row by row.
pub(crate) fn copy_strip(strip: Rect, source: &Grid, from: Rect, cells: &mut [u16], to: Rect)
    requires { CanCopy strip source.now from to (length cells.old) }
    ensures { IsStripCopied strip (value_in from source.now) to cells.old cells.new }
{
    copy_cells(strip, source.cells(), from, cells, to);
}

/// Copies a strip of an image from cells that show the rectangle `from` of it row by row into cells that show the
/// rectangle `to` of it so.
pub(crate) fn copy_cells(strip: Rect, source: &[u16], from: Rect, cells: &mut [u16], to: Rect)
    requires strip { CanCopy strip (as_image from source.now) from to (length cells.old) }
    requires room { from.w * from.h ≤ length source.now }
    ensures { IsStripCopied strip (cell_in from source.now) to cells.old cells.new }
{
    let width = strip.w as usize;
    let left_from = strip.x - from.x;
    let top_from = strip.y - from.y;
    let left = strip.x - to.x;
    let top = strip.y - to.y;
    for y in 0..strip.h {
        let first = (top_from + y) as usize * from.w as usize + left_from as usize;
        let last = first + width;
        let start = (top + y) as usize * to.w as usize + left as usize;
        let end = start + width;
        copy_row(&mut cells[start..end], &source[first..last]);
    }
}

// Copies a row. One pixel, as in a column beside a tile, needs no call, and is not written where it has the value
// already: most pixels of a rim that is folded have.
fn copy_row(cells: &mut [u16], row: &[u16])
    requires { length cells.old ≡ length row.now }
    ensures { cells.new ≡ row.now }
{
    if row.len() == 1 {
        if cells[0] != row[0] {
            cells[0] = row[0];
        }
    } else {
        cells.copy_from_slice(row);
    }
}
