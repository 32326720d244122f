//! The check of single cells for open pairs, where only few can begin one, as those of a column of a border. These are
//! put on a trail.

ghost use Rattle.std.specs.Prelude.{◌≡◌, ℕ, ◌+◌, ◌<◌, ◌≤◌, ◌⊎◌, length, min, slice_index, IsTrue};
ghost use Rattle.grid_core.specs.Raster.{max_pixels};
ghost use Rattle.grid_core.specs.Rects.{RectFits};
ghost use Rattle.raster_sweeps.specs.Growth.{CanClose, IsCellIn, IsOpenIn, cell_of, rows_of};
ghost use Rattle.raster_sweeps.specs.OpenCells.{HaveOpenJoined};
ghost use Rattle.raster_sweeps.specs.Spans.{InSpan, IsAround, IsCell, IsOnCross};
ghost use Rattle.row_scans.specs.Rows.{IsAmong};

use crate::neighbourhood::{Cross, Neighbour, RowSpan, Spans, cross_around, spans_around};
use crate::raising::pixel_of;
use crate::size::{Size, first_cell};
use crate::trail::Trail;
use grid_core::{Conn, Rect};

/// Puts the cells of a part of the rectangle on the trail that can raise a neighbour in the rectangle.
///
/// It answers whether these are at most so many and there was room for them, and else stops.
pub fn queue_open_cells(
    mask: &[u16],
    image: &[u16],
    size: Size,
    rect: Rect,
    conn: Conn,
    part: Rect,
    most: u32,
    trail: &mut Trail,
) -> bool
    requires close { CanClose rect (rows_of size mask.now) (rows_of size image.now) }
    requires fits { RectFits size.w size.h part }
    requires width { trail.old.width ≡ size.w }
    requires within { (k : ℕ) → IsCellIn part size.w k → IsCellIn rect size.w k }
    ensures width { trail.new.width ≡ trail.old.width }
    ensures joined { HaveOpenJoined conn rect (rows_of size mask.now) (rows_of size image.now) (IsCellIn part size.w)
        result trail.old.cells trail.new.cells }
{
    let mut left = most;
    for y in 0..part.h {
        let first = first_cell(size, part, y);
        if !queue_open_run(
            mask, image, size, rect, conn, first, part.w, &mut left, trail,
        ) {
            return false;
        }
    }
    true
}

// The same for so many cells from `first` on. What was left of the most is then less by those that joined.
fn queue_open_run(
    mask: &[u16],
    image: &[u16],
    size: Size,
    rect: Rect,
    conn: Conn,
    first: u32,
    count: u32,
    left: &mut u32,
    trail: &mut Trail,
) -> bool
    requires close { CanClose rect (rows_of size mask.now) (rows_of size image.now) }
    requires width { trail.old.width ≡ size.w }
    requires few { first + count ≤ max_pixels }
    requires within { (k : ℕ) → IsAmong first (first + count) k → IsCellIn rect size.w k }
    ensures width { trail.new.width ≡ trail.old.width }
    ensures joined { HaveOpenJoined conn rect (rows_of size mask.now) (rows_of size image.now)
        (IsAmong first (first + count)) result trail.old.cells trail.new.cells }
{
    for cell in first..first + count {
        if !queue_if_open(mask, image, size, rect, conn, cell, left, trail) {
            return false;
        }
    }
    true
}

// The same for one cell.
#[inline(always)]
fn queue_if_open(
    mask: &[u16],
    image: &[u16],
    size: Size,
    rect: Rect,
    conn: Conn,
    cell: u32,
    left: &mut u32,
    trail: &mut Trail,
) -> bool
    requires close { CanClose rect (rows_of size mask.now) (rows_of size image.now) }
    requires width { trail.old.width ≡ size.w }
    requires inside { IsCellIn rect size.w cell }
    ensures width { trail.new.width ≡ trail.old.width }
    ensures joined { HaveOpenJoined conn rect (rows_of size mask.now) (rows_of size image.now) (λ k. k ≡ cell) result
        trail.old.cells trail.new.cells }
{
    if !can_raise(mask, image, size, rect, conn, cell) {
        return true;
    }
    if *left == 0 || !trail.has_room() {
        return false;
    }
    *left -= 1;
    trail.push_if(true, pixel_of(size.w, cell));
    true
}

// Whether a cell of the rectangle can raise a neighbour in it.
#[inline(always)]
fn can_raise(mask: &[u16], image: &[u16], size: Size, rect: Rect, conn: Conn, cell: u32) -> bool
    requires close { CanClose rect (rows_of size mask.now) (rows_of size image.now) }
    requires inside { IsCellIn rect size.w cell }
    ensures { (p q : _) → IsOpenIn conn rect (rows_of size mask.now) (rows_of size image.now) p q
        → cell_of rect size.w p ≡ cell → IsTrue result }
{
    let level = image[cell as usize];
    match conn {
        Conn::Four => can_raise_cross(mask, image, level, cross_around(size.w, rect, cell)),
        Conn::Eight => can_raise_around(mask, image, level, spans_around(size.w, rect, cell)),
    }
}

// Whether a cell of the cross can rise to the level, as far as the mask lets it.
#[inline(always)]
fn can_raise_cross(mask: &[u16], cells: &[u16], level: u16, cross: Cross) -> bool
    requires within { (k : _) → IsOnCross cross k → k < length cells.now }
    requires same { length mask.now ≡ length cells.now }
    ensures { (k : _) → IsOnCross cross k → slice_index cells.now k < min level (slice_index mask.now k)
        → IsTrue result }
{
    if can_rise(mask, cells, level, cross.above) {
        return true;
    }
    if can_rise(mask, cells, level, cross.left) {
        return true;
    }
    if can_rise(mask, cells, level, cross.right) {
        return true;
    }
    can_rise(mask, cells, level, cross.below)
}

// Whether there is a cell, and it can rise to the level.
#[inline(always)]
fn can_rise(mask: &[u16], cells: &[u16], level: u16, one: Option<Neighbour>) -> bool
    requires within { (k : _) → IsCell one k → k < length cells.now }
    requires same { length mask.now ≡ length cells.now }
    ensures { (k : _) → IsCell one k → slice_index cells.now k < min level (slice_index mask.now k) → IsTrue result }
{
    if let Some(place) = one {
        let at = place.cell as usize;
        if cells[at] < level.min(mask[at]) {
            return true;
        }
    }
    false
}

// Whether a cell of the spans can rise to the level, as far as the mask lets it.
#[inline(always)]
fn can_raise_around(mask: &[u16], cells: &[u16], level: u16, spans: Spans) -> bool
    requires within { (k : _) → IsAround spans k → k < length cells.now }
    requires same { length mask.now ≡ length cells.now }
    ensures { (k : _) → IsAround spans k → slice_index cells.now k < min level (slice_index mask.now k)
        → IsTrue result }
{
    if can_rise_in(mask, cells, level, spans.above) {
        return true;
    }
    if can_rise_in(mask, cells, level, spans.beside) {
        return true;
    }
    can_rise_in(mask, cells, level, spans.below)
}

// Whether a cell of the span can rise to the level.
#[inline(always)]
fn can_rise_in(mask: &[u16], cells: &[u16], level: u16, span: RowSpan) -> bool
    requires within { (k : _) → InSpan span k → k < length cells.now }
    requires same { length mask.now ≡ length cells.now }
    ensures { (k : _) → InSpan span k → slice_index cells.now k < min level (slice_index mask.now k)
        → IsTrue result }
{
    for cell in span.first..span.end {
        let at = cell as usize;
        if cells[at] < level.min(mask[at]) {
            return true;
        }
    }
    false
}
