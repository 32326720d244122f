//! The check of rows for open pairs: neighbours of which the first can still raise the second, as far as the mask lets
//! it. The first pixels of such pairs are put into the queue.

ghost use Rattle.std.specs.Prelude.{◌+◌};
ghost use Rattle.grid_core.specs.Raster.{IsInside};
ghost use Rattle.raster_sweeps.specs.Growth.{CanClose, rows_of};
ghost use Rattle.raster_sweeps.specs.RowPairs.{AreJoined, CanGrowAcross, CanGrowRow, IsFromTo, IsOpenCell};
ghost use Rattle.raster_sweeps.specs.RowPairs.{IsScannedUp, IsUpper};
ghost use Rattle.row_scans.specs.Rows.{HaveJoined};

use crate::size::{Size, first_cell, row_in};
use grid_core::{Conn, Rect};
use row_scans::{Waiting, queue_aslant, queue_to, strip_of};

/// Puts the first pixel of each open pair of the rectangle into the queue. Each row is checked, 64 columns at once.
///
/// It answers whether there was room for all of them, and stops where there was not.
pub fn queue_open_pairs(
    mask: &[u16],
    image: &[u16],
    size: Size,
    rect: Rect,
    conn: Conn,
    waiting: &mut Waiting,
) -> bool
    requires { CanClose rect (rows_of size mask.now) (rows_of size image.now) }
    ensures { AreJoined conn rect (rows_of size mask.now) (rows_of size image.now) (IsInside rect.w rect.h)
        result waiting.old waiting.new }
{
    for y in 0..rect.h {
        if !queue_row(mask, image, size, rect, y, conn, waiting) {
            return false;
        }
    }
    true
}

/// Puts the first pixels of the open pairs whose upper pixel, or both, lie in the rectangle's row `y` into the queue.
///
/// It answers whether there was room for all of them.
pub fn queue_row(
    mask: &[u16],
    image: &[u16],
    size: Size,
    rect: Rect,
    y: u32,
    conn: Conn,
    waiting: &mut Waiting,
) -> bool
    requires { CanGrowRow rect (rows_of size mask.now) (rows_of size image.now) y }
    ensures { HaveJoined (IsOpenCell conn rect (rows_of size mask.now) (rows_of size image.now) (IsUpper y))
        result waiting.old waiting.new }
{
    if !queue_within(mask, image, size, rect, y, waiting) {
        return false;
    }
    if y + 1 == rect.h {
        return true;
    }
    queue_between(mask, image, size, rect, y, y + 1, conn, waiting)
        && queue_between(mask, image, size, rect, y + 1, y, conn, waiting)
}

/// Puts the first pixels of the open pairs whose upper pixel, or both, lie in the rectangle's row `y`, which the
/// anti-raster scan has just raised, into the queue: these pairs lead into the row below.
///
/// It answers whether there was room for all of them.
pub fn queue_downward(
    mask: &[u16],
    image: &[u16],
    size: Size,
    rect: Rect,
    y: u32,
    conn: Conn,
    waiting: &mut Waiting,
) -> bool
    requires grow { CanGrowRow rect (rows_of size mask.now) (rows_of size image.now) y }
    requires scanned { IsScannedUp conn rect (rows_of size mask.now) (rows_of size image.now) y }
    ensures { HaveJoined (IsOpenCell conn rect (rows_of size mask.now) (rows_of size image.now) (IsUpper y))
        result waiting.old waiting.new }
{
    if y + 1 == rect.h {
        return true;
    }
    queue_between(mask, image, size, rect, y, y + 1, conn, waiting)
}

// Puts the first pixels of the open pairs within a row into the queue. It answers whether there was room for all of
// them.
fn queue_within(
    mask: &[u16],
    image: &[u16],
    size: Size,
    rect: Rect,
    y: u32,
    waiting: &mut Waiting,
) -> bool
    requires { CanGrowRow rect (rows_of size mask.now) (rows_of size image.now) y }
    ensures { (conn : _) → HaveJoined (IsOpenCell conn rect (rows_of size mask.now) (rows_of size image.now)
        (IsFromTo y y)) result waiting.old waiting.new }
{
    let first = first_cell(size, rect, y);
    let row = row_in(image, size, rect, y);
    let limits = row_in(mask, size, rect, y);
    queue_aslant(row, limits, row, first, strip_of(y), waiting)
}

// Puts the first pixels of the open pairs from a row to another, which touches it, into the queue. It answers whether
// there was room for all of them.
fn queue_between(
    mask: &[u16],
    image: &[u16],
    size: Size,
    rect: Rect,
    from: u32,
    to: u32,
    conn: Conn,
    waiting: &mut Waiting,
) -> bool
    requires { CanGrowAcross rect (rows_of size mask.now) (rows_of size image.now) from to }
    ensures { HaveJoined (IsOpenCell conn rect (rows_of size mask.now) (rows_of size image.now) (IsFromTo from to))
        result waiting.old waiting.new }
{
    let first = first_cell(size, rect, from);
    let raising = row_in(image, size, rect, from);
    let limits = row_in(mask, size, rect, to);
    let raised = row_in(image, size, rect, to);
    queue_to(
        raising,
        limits,
        raised,
        first,
        strip_of(from),
        conn,
        waiting,
    )
}
