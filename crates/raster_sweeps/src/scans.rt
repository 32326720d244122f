//! The raster and the anti-raster scan of a rectangle (Vincent, "Morphological Grayscale Reconstruction in Image
//! Analysis", 1993).

ghost use Rattle.std.specs.Prelude.{◌≡◌, ◌<◌, ◌↔◌, [], IsTrue};
ghost use Rattle.grid_core.specs.Raster.{IsSized};
ghost use Rattle.grid_core.specs.Rects.{RectFits};
ghost use Rattle.raster_sweeps.specs.Growth.{IsGrown, CanClose, IsScannedInto, rows_of};
ghost use Rattle.raster_sweeps.specs.RowPairs.{CanGrowAcross, CanGrowRow, IsDark, IsFromTo, IsNotUp};
ghost use Rattle.raster_sweeps.specs.RowPairs.{IsRowGrown, NoneOpen, NoneOpenAlong, NoneOpenToLeft, NoneOpenToRight};

use crate::open_pairs::queue_downward;
use crate::size::{Size, row_in};
use grid_core::{Conn, Rect};
use row_scans::{
    Waiting, greatest, is_closed_along, is_closed_to, raise_cells_by, raise_from_left,
    raise_from_right,
};

// From a greater width on, rows are raised without a look whether they can rise.
const WIDE: u32 = 256;

/// The raster scan: row by row from the top, each pixel of the rectangle is raised by its neighbours in the row above,
/// and then along its row, as far as the mask lets it. A row that is 0 as is the one before it is passed over: nothing
/// rises there.
///
/// Vincent's scan runs along a row from the left alone. To run back from the right as well leaves less for later: of
/// the open pairs only those that lead up.
pub fn scan_down(mask: &[u16], image: &mut [u16], size: Size, rect: Rect, conn: Conn)
    requires { CanClose rect (rows_of size mask.now) (rows_of size image.old) }
    ensures grown { IsGrown conn rect (rows_of size mask.now) (rows_of size image.old) (rows_of size image.new) }
    ensures closed { NoneOpen conn rect (rows_of size mask.now) (rows_of size image.new) IsNotUp }
{
    raise_row_along(mask, image, size, rect, 0);
    let mut dark = is_dark(image, size, rect, 0);
    for y in 1..rect.h {
        if dark && is_dark(image, size, rect, y) {
            continue;
        }
        raise_row(mask, image, size, rect, y - 1, y, conn);
        dark = is_dark(image, size, rect, y);
    }
}

/// The anti-raster scan: row by row from the bottom, as [`scan_down`] from the top. After each row those of its pixels
/// that can still raise one in the row below are put into the queue. A row that is 0 as is the one below it is passed
/// over: nothing rises there.
///
/// It answers whether there was room for all of them. Where there was not, the rows above are raised and not checked.
pub fn scan_up(
    mask: &[u16],
    image: &mut [u16],
    size: Size,
    rect: Rect,
    conn: Conn,
    waiting: &mut Waiting,
) -> bool
    requires close { CanClose rect (rows_of size mask.now) (rows_of size image.old) }
    requires empty { waiting.old ≡ [] }
    ensures { IsScannedInto conn rect (rows_of size mask.now) (rows_of size image.old)
        (rows_of size image.new) result waiting.new }
{
    let last = rect.h - 1;
    raise_row_along(mask, image, size, rect, last);
    let mut all = true;
    let mut dark = is_dark(image, size, rect, last);
    for y in (0..last).rev() {
        if dark && is_dark(image, size, rect, y) {
            continue;
        }
        raise_row(mask, image, size, rect, y + 1, y, conn);
        dark = is_dark(image, size, rect, y);
        all = all && queue_downward(mask, image, size, rect, y, conn, waiting);
    }
    all
}

/// The anti-raster scan behind the raster scan, as [`scan_up`] by itself. A row that the one below it can not raise is
/// passed over: of its pairs none is left that leads along the row or down. In wide rectangles nearly each row rises,
/// so that it does not pay to look first.
///
/// It answers whether there was room for all pixels that can still raise one in the row below.
pub fn scan_back(
    mask: &[u16],
    image: &mut [u16],
    size: Size,
    rect: Rect,
    conn: Conn,
    waiting: &mut Waiting,
) -> bool
    requires close { CanClose rect (rows_of size mask.now) (rows_of size image.old) }
    requires scanned { NoneOpen conn rect (rows_of size mask.now) (rows_of size image.old) IsNotUp }
    requires empty { waiting.old ≡ [] }
    ensures { IsScannedInto conn rect (rows_of size mask.now) (rows_of size image.old)
        (rows_of size image.new) result waiting.new }
{
    if rect.w > WIDE {
        return scan_up(mask, image, size, rect, conn, waiting);
    }
    let mut all = true;
    for y in (0..rect.h - 1).rev() {
        if is_closed_from(mask, image, size, rect, y + 1, y, conn) {
            continue;
        }
        raise_row(mask, image, size, rect, y + 1, y, conn);
        all = all && queue_downward(mask, image, size, rect, y, conn, waiting);
    }
    all
}

// Whether no pixel of the rectangle's row `from` raises a neighbour in its row `to`, which touches it.
fn is_closed_from(
    mask: &[u16],
    image: &[u16],
    size: Size,
    rect: Rect,
    from: u32,
    to: u32,
    conn: Conn,
) -> bool
    requires { CanGrowAcross rect (rows_of size mask.now) (rows_of size image.now) from to }
    ensures { IsTrue result → NoneOpen conn rect (rows_of size mask.now) (rows_of size image.now) (IsFromTo from to) }
{
    let raising = row_in(image, size, rect, from);
    let limits = row_in(mask, size, rect, to);
    is_closed_to(raising, limits, row_in(image, size, rect, to), conn)
}

// Whether each pixel of the rectangle's row `y` is 0.
fn is_dark(image: &[u16], size: Size, rect: Rect, y: u32) -> bool
    requires sized { IsSized (rows_of size image.now) }
    requires fits { RectFits size.w size.h rect }
    requires row { y < rect.h }
    ensures { IsTrue result ↔ IsDark rect (rows_of size image.now) y }
{
    if greatest(row_in(image, size, rect, y)) > 0 {
        return false;
    }
    true
}

/// Raises the pixels of the rectangle's row `to` by their neighbours in the row `from`, which touches it, and then
/// along the row, so that none of the row `from` can raise one of them, nor any of them another.
pub fn raise_row(
    mask: &[u16],
    image: &mut [u16],
    size: Size,
    rect: Rect,
    from: u32,
    to: u32,
    conn: Conn,
)
    requires { CanGrowAcross rect (rows_of size mask.now) (rows_of size image.old) from to }
    ensures grown { IsRowGrown conn rect (rows_of size mask.now) to (rows_of size image.old)
        (rows_of size image.new) }
    ensures along { NoneOpenAlong conn rect (rows_of size mask.now) (rows_of size image.new) to }
    ensures across { NoneOpen conn rect (rows_of size mask.now) (rows_of size image.new) (IsFromTo from to) }
{
    raise_row_by(mask, image, size, rect, from, to, conn);
    raise_row_along(mask, image, size, rect, to);
}

// Raises the pixels of the rectangle's row `to` by their neighbours in the row `from`, which touches it, so that none
// of these can raise them further.
fn raise_row_by(
    mask: &[u16],
    image: &mut [u16],
    size: Size,
    rect: Rect,
    from: u32,
    to: u32,
    conn: Conn,
)
    requires { CanGrowAcross rect (rows_of size mask.now) (rows_of size image.old) from to }
    ensures grown { IsRowGrown conn rect (rows_of size mask.now) to (rows_of size image.old)
        (rows_of size image.new) }
    ensures closed { NoneOpen conn rect (rows_of size mask.now) (rows_of size image.new) (IsFromTo from to) }
{
    let limits = row_in(mask, size, rect, to);
    let width = size.w as usize;
    let source = (rect.y + from) as usize * width + rect.x as usize;
    let target = (rect.y + to) as usize * width + rect.x as usize;
    raise_cells_by(limits, image, source, target, conn);
}

/// Raises the pixels of the rectangle's row `y` along the row, from the left and then from the right, so that none of
/// them can raise another. A row where none can is looked at once, for both directions.
pub fn raise_row_along(mask: &[u16], image: &mut [u16], size: Size, rect: Rect, y: u32)
    requires { CanGrowRow rect (rows_of size mask.now) (rows_of size image.old) y }
    ensures grown { (conn : _) → IsRowGrown conn rect (rows_of size mask.now) y (rows_of size image.old)
        (rows_of size image.new) }
    ensures closed { (conn : _) → NoneOpenAlong conn rect (rows_of size mask.now) (rows_of size image.new) y }
{
    if is_row_closed_along(mask, image, size, rect, y) {
        return;
    }
    raise_row_from_left(mask, image, size, rect, y);
    raise_row_from_right(mask, image, size, rect, y);
}

// Whether no pixel of the rectangle's row `y` raises another in it.
fn is_row_closed_along(mask: &[u16], image: &[u16], size: Size, rect: Rect, y: u32) -> bool
    requires { CanGrowRow rect (rows_of size mask.now) (rows_of size image.now) y }
    ensures { (conn : _) → IsTrue result → NoneOpenAlong conn rect (rows_of size mask.now) (rows_of size image.now) y }
{
    is_closed_along(row_in(image, size, rect, y), row_in(mask, size, rect, y))
}

// Raises the pixels of the rectangle's row `y`, from the left, by those to their left.
fn raise_row_from_left(mask: &[u16], image: &mut [u16], size: Size, rect: Rect, y: u32)
    requires { CanGrowRow rect (rows_of size mask.now) (rows_of size image.old) y }
    ensures grown { (conn : _) → IsRowGrown conn rect (rows_of size mask.now) y (rows_of size image.old)
        (rows_of size image.new) }
    ensures closed { (conn : _) → NoneOpenToRight conn rect (rows_of size mask.now) (rows_of size image.new) y }
{
    let limits = row_in(mask, size, rect, y);
    let width = size.w as usize;
    let start = (rect.y + y) as usize * width + rect.x as usize;
    raise_from_left(limits, &mut image[start..start + rect.w as usize]);
}

// Raises the pixels of the rectangle's row `y`, from the right, by those to their right. Where none could raise the one
// to its right, none can after that.
fn raise_row_from_right(mask: &[u16], image: &mut [u16], size: Size, rect: Rect, y: u32)
    requires { CanGrowRow rect (rows_of size mask.now) (rows_of size image.old) y }
    ensures grown { (conn : _) → IsRowGrown conn rect (rows_of size mask.now) y (rows_of size image.old)
        (rows_of size image.new) }
    ensures closed { (conn : _) → NoneOpenToLeft conn rect (rows_of size mask.now) (rows_of size image.new) y }
    ensures kept { (conn : _) → NoneOpenToRight conn rect (rows_of size mask.now) (rows_of size image.old) y
        → NoneOpenToRight conn rect (rows_of size mask.now) (rows_of size image.new) y }
{
    let limits = row_in(mask, size, rect, y);
    let width = size.w as usize;
    let start = (rect.y + y) as usize * width + rect.x as usize;
    raise_from_right(limits, &mut image[start..start + rect.w as usize]);
}
