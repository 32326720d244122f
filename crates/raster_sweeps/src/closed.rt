//! Whether an image can grow no further: whether no pixel can raise a neighbour, as far as the mask lets it.

ghost use Rattle.std.specs.Prelude.{◌≡◌, ◌<◌, ◌↔◌, IsTrue};
ghost use Rattle.grid_core.specs.Path.{domain_of};
ghost use Rattle.grid_core.specs.Raster.{value_at};
ghost use Rattle.grid_core.specs.Reconstruction.{IsClosed};
ghost use Rattle.raster_sweeps.specs.Growth.{FitsBoth};
ghost use Rattle.raster_sweeps.specs.RowPairs.{IsRowClosedIn};

use grid_core::{Conn, Grid, Rect};
use row_scans::{is_closed_along, is_closed_to};

/// Whether no pixel of the image can raise a neighbour further, as far as the mask lets it. It takes no memory.
pub fn is_closed(mask: &Grid, image: &Grid, conn: Conn) -> bool
    requires width { mask.now.width ≡ image.now.width }
    requires height { mask.now.height ≡ image.now.height }
    ensures { IsTrue result ↔ IsClosed (domain_of mask.now conn) (value_at mask.now) (value_at image.now) }
{
    let whole = Rect {
        x: 0,
        y: 0,
        w: mask.width(),
        h: mask.height(),
    };
    for y in 0..whole.h {
        if !is_row_closed(mask, image, whole, y, conn) {
            return false;
        }
    }
    true
}

// Whether no pixel of the rectangle's row `y`, counted from its top, can raise a neighbour in it or in the row
// below, and none of the row below one in it.
fn is_row_closed(mask: &Grid, image: &Grid, rect: Rect, y: u32, conn: Conn) -> bool
    requires fits { FitsBoth rect mask.now image.now }
    requires row { y < rect.h }
    ensures { IsTrue result ↔ IsRowClosedIn conn rect mask.now image.now y }
{
    let mask_row = mask.row_in(rect, y);
    let row = image.row_in(rect, y);
    if !is_closed_along(row, mask_row) {
        return false;
    }
    if y + 1 == rect.h {
        return true;
    }
    let mask_below = mask.row_in(rect, y + 1);
    let below = image.row_in(rect, y + 1);
    is_closed_to(row, mask_below, below, conn) && is_closed_to(below, mask_row, row, conn)
}
