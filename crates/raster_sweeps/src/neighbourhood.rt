//! The cells around a cell.

ghost use Rattle.std.specs.Prelude.{◌≡◌, ◌+◌, ◌*◌, ◌≤◌, ◌<◌};
ghost use Rattle.grid_core.specs.declared.conn.Conn.TheVariants as conns;
ghost use Rattle.grid_core.specs.Raster.{IsInside, max_pixels};
ghost use Rattle.raster_sweeps.specs.Growth.{IsCellIn, cell_of};
ghost use Rattle.raster_sweeps.specs.Spans.{AreAround, IsAround, IsOnCross};

use grid_core::Rect;

/// A cell beside another, and its row, counted from the rectangle's first.
#[derive(Clone, Copy)]
pub struct Neighbour {
    pub cell: u32,
    pub row: u32,
}

/// The four neighbours of a cell, as far as there are.
#[derive(Clone, Copy)]
pub struct Cross {
    pub above: Option<Neighbour>,
    pub left: Option<Neighbour>,
    pub right: Option<Neighbour>,
    pub below: Option<Neighbour>,
}

/// The cells from `first` to before `end`, all in one row, which is counted from the rectangle's first.
#[derive(Clone, Copy)]
pub struct RowSpan {
    pub first: u32,
    pub end: u32,
    pub row: u32,
}

/// The neighbours of a cell in the row above, those beside it and itself, and those in the row below.
#[derive(Clone, Copy)]
pub struct Spans {
    pub above: RowSpan,
    pub beside: RowSpan,
    pub below: RowSpan,
}

/// The four neighbours of a cell of the rectangle, in an image of this width.
#[inline(always)]
pub fn cross_around(width: u32, rect: Rect, cell: u32) -> Cross
    requires inside { IsCellIn rect width cell }
    requires columns { rect.x + rect.w ≤ width }
    requires rows { width * (rect.y + rect.h) ≤ max_pixels }
    ensures { (p : _) → IsInside rect.w rect.h p → cell_of rect width p ≡ cell
        → AreAround conns.Four rect width p (IsOnCross result) }
{
    let x = cell % width;
    let y = cell / width;
    let here = y - rect.y;
    let above = if y > rect.y {
        Some(Neighbour {
            cell: cell - width,
            row: here - 1,
        })
    } else {
        None
    };
    let left = if x > rect.x {
        Some(Neighbour {
            cell: cell - 1,
            row: here,
        })
    } else {
        None
    };
    let right = if x + 1 < rect.x + rect.w {
        Some(Neighbour {
            cell: cell + 1,
            row: here,
        })
    } else {
        None
    };
    let below = if y + 1 < rect.y + rect.h {
        Some(Neighbour {
            cell: cell + width,
            row: here + 1,
        })
    } else {
        None
    };
    Cross {
        above,
        left,
        right,
        below,
    }
}

/// The eight neighbours of a cell of the rectangle and the cell itself, in an image of this width.
#[inline(always)]
pub fn spans_around(width: u32, rect: Rect, cell: u32) -> Spans
    requires inside { IsCellIn rect width cell }
    requires columns { rect.x + rect.w ≤ width }
    requires rows { width * (rect.y + rect.h) ≤ max_pixels }
    ensures { (p : _) → IsInside rect.w rect.h p → cell_of rect width p ≡ cell
        → AreAround conns.Eight rect width p (IsAround result) }
{
    let x = cell % width;
    let y = cell / width;
    let row = cell - x;
    let left = x.max(rect.x + 1) - 1;
    let right = (x + 2).min(rect.x + rect.w);
    let here = y - rect.y;
    let above = if y > rect.y {
        RowSpan {
            first: row - width + left,
            end: row - width + right,
            row: here - 1,
        }
    } else {
        RowSpan {
            first: 0,
            end: 0,
            row: 0,
        }
    };
    let below = if y + 1 < rect.y + rect.h {
        RowSpan {
            first: row + width + left,
            end: row + width + right,
            row: here + 1,
        }
    } else {
        RowSpan {
            first: 0,
            end: 0,
            row: 0,
        }
    };
    let beside = RowSpan {
        first: row + left,
        end: row + right,
        row: here,
    };
    Spans {
        above,
        beside,
        below,
    }
}
