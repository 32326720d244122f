//! The rectangles of tiles that changed.

ghost use Rattle.std.specs.Prelude.{◌≡◌, ◌+◌, ◌^◌, ◌<◌, ◌↔◌, length, IsTrue, IfOk, OnOk};
ghost use Rattle.grid_core.specs.Rects.{RectFits};
ghost use Rattle.grid_core.specs.Tiles.{count_of};
ghost use Rattle.page_board.specs.Changes.{AllFit};
ghost use Rattle.page_board.specs.Strips.{AreStrips, IsAdded, IsContinued, joined};

use grid_core::{Memory, Rect, Tiling};
use std::alloc::Global;

/// The rectangles of the tiles whose step is after this one, from the top, each row from the left. Neighbouring tiles
/// of one row of tiles are one rectangle.
///
/// Errors: out of memory.
pub(crate) fn strips_since(
    alloc: Global,
    tiling: &Tiling,
    shown: &[u64],
    since: u64,
) -> Result<Vec<Rect>, Memory>
    requires { length shown.now ≡ count_of tiling.now }
    ensures { IfOk result (λ rects. AreStrips tiling.now shown.now since rects.items) }
{
    let mut rects = Vec::new(alloc);
    for tile in 0..shown.len() {
        if since < shown[tile] {
            add_rect(tiling, &mut rects, tiling.rect(tile))?;
        }
    }
    Ok(rects)
}

// Adds the rectangle of a tile: to the last one, where it continues it to the right.
fn add_rect(tiling: &Tiling, rects: &mut Vec<Rect>, tile: Rect) -> Result<(), Memory>
    requires fit { AllFit tiling.now.width tiling.now.height rects.old.items }
    requires tile { RectFits tiling.now.width tiling.now.height tile }
    ensures { OnOk result (IsAdded tiling.now rects.old.items tile rects.new.items) }
{
    // For its clause alone: the tiling is one, so its sides are small.
    let _ = tiling.width();
    match rects.pop() {
        None => rects.push(tile)?,
        Some(last) if is_continued(last, tile) => rects.push(widened(last, tile))?,
        Some(last) => {
            rects.push(last)?;
            rects.push(tile)?;
        }
    }
    Ok(())
}

// Whether the second rectangle stands right of the first, with the same rows.
fn is_continued(left: Rect, right: Rect) -> bool
    ensures { IsTrue result ↔ IsContinued left right }
{
    left.y == right.y && left.h == right.h && left.x <= right.x && right.x - left.x == left.w
}

// Both rectangles as one.
fn widened(left: Rect, right: Rect) -> Rect
    requires small { right.x + right.w < 2 ^ 32 }
    requires beside { IsContinued left right }
    ensures { result ≡ joined left right }
{
    Rect {
        x: left.x,
        y: left.y,
        w: left.w + right.w,
        h: left.h,
    }
}
