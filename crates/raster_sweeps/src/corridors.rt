//! Corridors: a cell that can raise only the next one of its column hands its level on from cell to cell, without the
//! queue.

ghost use Rattle.std.specs.Prelude.{◌≡◌, ◌+◌, ◌-◌, ◌<◌, ◌≤◌, ◌↔◌, length, IfSome, IsTrue, MatchBool};
ghost use Rattle.grid_core.specs.Raster.{max_side};
ghost use Rattle.raster_sweeps.specs.Corridors.{CanRiseAlone, HasPassed, HasRisenAlone, IsBehind, IsFollowed};
ghost use Rattle.raster_sweeps.specs.Corridors.{IsWay, NoneRises};
ghost use Rattle.raster_sweeps.specs.Growth.{CanClose, IsCellIn, rows_of};

use crate::size::Size;
use grid_core::Rect;
use row_scans::Waiting;

/// Lets a cell raise the next one of its column, and each that rises so the next one, as long as no other of the eight
/// cells around it can be raised by it. It is tried where no other cell waits near by.
///
/// It answers the last cell of the way: what this one can still raise is left to be raised. Where there is no corridor
/// that is the cell itself.
#[inline(always)]
pub fn follow(
    mask: &[u16],
    image: &mut [u16],
    size: Size,
    rect: Rect,
    waiting: &Waiting,
    cell: u32,
) -> u32
    requires close { CanClose rect (rows_of size mask.now) (rows_of size image.old) }
    requires inside { IsCellIn rect size.w cell }
    ensures { (conn : _) → IsFollowed conn rect (rows_of size mask.now) (rows_of size image.old)
        (rows_of size image.new) cell result }
{
    if waiting.has_near() {
        return cell;
    }
    let width = size.w;
    let Some(rows) = rows_around(width, rect, cell) else {
        return cell;
    };
    let level = image[cell as usize];
    if !none_rises(mask, image, level, cell) {
        return cell;
    }
    if none_rises(mask, image, level, cell - width) {
        return follow_column(mask, image, size, rect, cell - width, cell, rows.below);
    }
    if none_rises(mask, image, level, cell + width) {
        return follow_column(mask, image, size, rect, cell + width, cell, rows.above);
    }
    cell
}

// How many rows of the rectangle lie above a cell, and how many below it.
#[derive(Clone, Copy)]
struct Rows {
    above: u32,
    below: u32,
}

// The rows above and below a cell of the rectangle, in an image of this width. Where the cell lies in the first or last
// row or column, there is no answer.
#[inline(always)]
fn rows_around(width: u32, rect: Rect, cell: u32) -> Option<Rows>
    requires inside { IsCellIn rect width cell }
    requires columns { rect.x + rect.w ≤ width }
    requires rows { rect.y + rect.h ≤ max_side }
    requires side { width ≤ max_side }
    ensures down { IfSome result (λ rows. IsWay rect width (cell - width) cell rows.below) }
    ensures up { IfSome result (λ rows. IsWay rect width (cell + width) cell rows.above) }
{
    let x = cell % width;
    let y = cell / width;
    let end = rect.y + rect.h;
    if x <= rect.x || x + 1 >= rect.x + rect.w || y <= rect.y || y + 1 >= end {
        return None;
    }
    Some(Rows {
        above: y - rect.y,
        below: end - 1 - y,
    })
}

// Whether the level can raise none of three cells side by side, of which this is the middle one.
#[inline(always)]
fn none_rises(mask: &[u16], cells: &[u16], level: u16, middle: u32) -> bool
    requires some { 0 < middle }
    requires within { middle + 1 < length cells.now }
    requires same { length mask.now ≡ length cells.now }
    ensures { IsTrue result ↔ NoneRises mask.now cells.now level middle }
{
    let at = middle as usize;
    level.min(mask[at]) <= cells[at]
        && level.min(mask[at - 1]) <= cells[at - 1]
        && level.min(mask[at + 1]) <= cells[at + 1]
}

// Goes on from a cell, away from the one behind it in the column, for at most so many cells, and answers the last.
fn follow_column(
    mask: &[u16],
    image: &mut [u16],
    size: Size,
    rect: Rect,
    behind: u32,
    cell: u32,
    count: u32,
) -> u32
    requires close { CanClose rect (rows_of size mask.now) (rows_of size image.old) }
    requires way { IsWay rect size.w behind cell count }
    requires behind { IsBehind (rows_of size mask.now) (rows_of size image.old) behind cell }
    ensures { (conn : _) → IsFollowed conn rect (rows_of size mask.now) (rows_of size image.old)
        (rows_of size image.new) cell result }
{
    let mut last = behind;
    let mut at = cell;
    for _ in 0..count {
        if !raise_next(mask, image, size, rect, last, at) {
            return at;
        }
        let next = at + at - last;
        last = at;
        at = next;
    }
    at
}

// Lets a cell raise the next one of the column, where it can and where the cells beside that one can not rise too.
//
// It answers whether the next cell rose.
#[inline(always)]
fn raise_next(
    mask: &[u16],
    image: &mut [u16],
    size: Size,
    rect: Rect,
    behind: u32,
    cell: u32,
) -> bool
    requires close { CanClose rect (rows_of size mask.now) (rows_of size image.old) }
    requires way { IsWay rect size.w behind cell 1 }
    requires behind { IsBehind (rows_of size mask.now) (rows_of size image.old) behind cell }
    ensures { MatchBool result (HasPassed rect (rows_of size mask.now) (rows_of size image.old)
        (rows_of size image.new) behind cell) (image.new ≡ image.old) }
{
    let level = image[cell as usize];
    raise_alone(mask, image, level, cell + cell - behind)
}

// Raises a cell to the level, as far as the mask lets it, where it rises and neither cell beside it would.
#[inline(always)]
fn raise_alone(mask: &[u16], cells: &mut [u16], level: u16, middle: u32) -> bool
    requires some { 0 < middle }
    requires within { middle + 1 < length cells.old }
    requires same { length mask.now ≡ length cells.old }
    ensures risen { MatchBool result (HasRisenAlone mask.now level cells.old cells.new middle) (cells.new ≡ cells.old) }
    ensures can { CanRiseAlone mask.now level cells.old middle → IsTrue result }
{
    let at = middle as usize;
    let raised = level.min(mask[at]);
    if cells[at] >= raised
        || level.min(mask[at - 1]) > cells[at - 1]
        || level.min(mask[at + 1]) > cells[at + 1]
    {
        return false;
    }
    cells[at] = raised;
    true
}
