//! Spreading: a cell that waits raises the cells around it, and those that rise wait in turn.

ghost use Rattle.std.specs.Prelude.{◌≡◌, ◌<◌, ◌⊎◌, ◌∷◌, IsTrue, length, min, slice_index, true};
ghost use Rattle.grid_core.specs.declared.conn.Conn.TheVariants as conns;
ghost use Rattle.grid_core.specs.{Bounds.LieIn, Neighbours.AreNeighbours, Raster.index_of, Rects.IsInRect};
ghost use Rattle.raster_sweeps.specs.Beside.{AreSpreadOn, CanJoin, IsAbove, IsCellOf, IsInRow, IsInRowAbove};
ghost use Rattle.raster_sweeps.specs.Beside.{IsInRowBelow, IsLeft, IsNear, IsRight, IsUnder, StandsAt};
ghost use Rattle.raster_sweeps.specs.Growth.{AllWait, AreInside, CanClose};
ghost use Rattle.raster_sweeps.specs.Spans.{AreSpread, InSpan, IsAround, IsCell, IsOnCross};
ghost use Rattle.raster_sweeps.specs.Growth.{CellHasSpread, IsDrained, IsPixelOf, rows_of};
ghost use Rattle.raster_sweeps.specs.OpenBounds.{IsRaisedFrom};

use crate::corridors::follow;
use crate::neighbourhood::{Cross, Neighbour, RowSpan, Spans, cross_around, spans_around};
use crate::size::Size;
use crate::trail::Trail;
use grid_core::{Bounds, Conn, Pixel, Rect};
use row_scans::{Waiting, strip_of};

/// Lets the waiting cells spread until none waits, which it answers by `true`. A corridor is followed to its end.
///
/// Where the queue was full it stops with `false`.
pub fn drain(
    mask: &[u16],
    image: &mut [u16],
    size: Size,
    rect: Rect,
    conn: Conn,
    waiting: &mut Waiting,
) -> bool
    requires close { CanClose rect (rows_of size mask.now) (rows_of size image.old) }
    requires inside { AreInside rect size.w waiting.old }
    ensures { IsDrained conn rect (rows_of size mask.now) (rows_of size image.old)
        (rows_of size image.new) waiting.old result }
{
    while let Some(cell) = waiting.pop() {
        let last = follow(mask, image, size, rect, waiting, cell);
        if !spread(mask, image, size, rect, conn, waiting, last) {
            return false;
        }
    }
    true
}

/// Lets the pixels on the trail spread, where each open pair waits, and answers bounds within which these lie and every
/// pixel that rises. No corridor is followed.
///
/// Where the trail has no room it stops with none.
pub fn drain_within(
    mask: &[u16],
    image: &mut [u16],
    size: Size,
    rect: Rect,
    conn: Conn,
    trail: &mut Trail,
    bounds: Bounds,
) -> Option<Bounds>
    requires close { CanClose rect (rows_of size mask.now) (rows_of size image.old) }
    requires width { trail.old.width ≡ size.w }
    requires inside { AreInside rect size.w trail.old.cells }
    requires all { AllWait conn rect (rows_of size mask.now) (rows_of size image.old) trail.old.cells }
    requires lie { LieIn bounds rect }
    ensures { IsRaisedFrom conn rect (rows_of size mask.now) (rows_of size image.old)
        (rows_of size image.new) bounds result }
{
    let mut risen = bounds;
    while let Some(pixel) = trail.pop() {
        risen = risen.including(pixel);
        if !trail.has_room() {
            return None;
        }
        spread_on(mask, image, size, rect, conn, trail, pixel);
    }
    Some(risen)
}

// Raises the pixels around a pixel by it, as far as the mask lets them, and puts those that rise on the trail.
#[inline(always)]
fn spread_on(
    mask: &[u16],
    image: &mut [u16],
    size: Size,
    rect: Rect,
    conn: Conn,
    trail: &mut Trail,
    pixel: Pixel,
)
    requires close { CanClose rect (rows_of size mask.now) (rows_of size image.old) }
    requires width { trail.old.width ≡ size.w }
    requires room { 8 < trail.old.places }
    requires pixel { IsInRect rect pixel }
    requires inside { AreInside rect size.w trail.old.cells }
    ensures spread { CellHasSpread conn rect (rows_of size mask.now) (rows_of size image.old)
        (rows_of size image.new) (index_of size.w pixel) trail.old.cells trail.new.cells true }
    ensures width { trail.new.width ≡ trail.old.width }
{
    match conn {
        Conn::Four => raise_beside(mask, image, size.w, rect, trail, pixel),
        Conn::Eight => raise_near(mask, image, size.w, rect, trail, pixel),
    }
}

// The same where a pixel has four neighbours.
#[inline(always)]
fn raise_beside(
    mask: &[u16],
    image: &mut [u16],
    width: u32,
    rect: Rect,
    trail: &mut Trail,
    p: Pixel,
)
    requires width { trail.old.width ≡ width }
    requires at { StandsAt rect mask.now image.old trail.old (index_of width p) p 4 }
    ensures { AreSpreadOn (IsCellOf rect width (AreNeighbours conns.Four p)) mask.now
        (slice_index image.old (index_of width p)) image.old image.new trail.old trail.new 4 }
{
    let cell = p.y * width + p.x;
    let level = image[cell as usize];
    raise_above(mask, image, width, rect, trail, level, cell, p);
    raise_left(mask, image, rect, trail, level, cell, p);
    raise_right(mask, image, rect, trail, level, cell, p);
    raise_below(mask, image, width, rect, trail, level, cell, p);
}

// And where it has eight. The pixel itself does not rise.
#[inline(always)]
fn raise_near(mask: &[u16], image: &mut [u16], width: u32, rect: Rect, trail: &mut Trail, p: Pixel)
    requires width { trail.old.width ≡ width }
    requires at { StandsAt rect mask.now image.old trail.old (index_of width p) p 9 }
    ensures { AreSpreadOn (IsCellOf rect width (IsNear p)) mask.now (slice_index image.old (index_of width p))
        image.old image.new trail.old trail.new 9 }
{
    let cell = p.y * width + p.x;
    let level = image[cell as usize];
    raise_three_above(mask, image, width, rect, trail, level, cell, p);
    raise_three(mask, image, rect, trail, level, cell, p);
    raise_three_below(mask, image, width, rect, trail, level, cell, p);
}

// Raises the pixel above a pixel, which has this cell, and those beside that, if the rectangle has such a row.
#[inline(always)]
fn raise_three_above(
    mask: &[u16],
    image: &mut [u16],
    width: u32,
    rect: Rect,
    trail: &mut Trail,
    level: u16,
    cell: u32,
    p: Pixel,
)
    requires width { trail.old.width ≡ width }
    requires at { StandsAt rect mask.now image.old trail.old cell p 3 }
    ensures { AreSpreadOn (IsCellOf rect trail.old.width (IsInRowAbove p)) mask.now level image.old image.new
        trail.old trail.new 3 }
{
    if p.y > rect.y {
        let above = Pixel { x: p.x, y: p.y - 1 };
        raise_three(mask, image, rect, trail, level, cell - width, above);
    }
}

// And the pixel below it, and those beside that.
#[inline(always)]
fn raise_three_below(
    mask: &[u16],
    image: &mut [u16],
    width: u32,
    rect: Rect,
    trail: &mut Trail,
    level: u16,
    cell: u32,
    p: Pixel,
)
    requires width { trail.old.width ≡ width }
    requires at { StandsAt rect mask.now image.old trail.old cell p 3 }
    ensures { AreSpreadOn (IsCellOf rect trail.old.width (IsInRowBelow p)) mask.now level image.old image.new
        trail.old trail.new 3 }
{
    if p.y + 1 < rect.y + rect.h {
        let below = Pixel { x: p.x, y: p.y + 1 };
        raise_three(mask, image, rect, trail, level, cell + width, below);
    }
}

// Raises a pixel, which has this cell, and those beside it in its row.
#[inline(always)]
fn raise_three(
    mask: &[u16],
    image: &mut [u16],
    rect: Rect,
    trail: &mut Trail,
    level: u16,
    cell: u32,
    p: Pixel,
)
    requires { StandsAt rect mask.now image.old trail.old cell p 3 }
    ensures { AreSpreadOn (IsCellOf rect trail.old.width (IsInRow p)) mask.now level image.old image.new
        trail.old trail.new 3 }
{
    raise_left(mask, image, rect, trail, level, cell, p);
    raise_on(mask, image, trail, level, cell, p);
    raise_right(mask, image, rect, trail, level, cell, p);
}

// Raises the pixel above a pixel, which has this cell, if the rectangle has one there.
#[inline(always)]
fn raise_above(
    mask: &[u16],
    image: &mut [u16],
    width: u32,
    rect: Rect,
    trail: &mut Trail,
    level: u16,
    cell: u32,
    p: Pixel,
)
    requires width { trail.old.width ≡ width }
    requires at { StandsAt rect mask.now image.old trail.old cell p 1 }
    ensures { AreSpreadOn (IsCellOf rect trail.old.width (IsAbove p)) mask.now level image.old image.new
        trail.old trail.new 1 }
{
    if p.y > rect.y {
        let above = Pixel { x: p.x, y: p.y - 1 };
        raise_on(mask, image, trail, level, cell - width, above);
    }
}

// And the pixel below it.
#[inline(always)]
fn raise_below(
    mask: &[u16],
    image: &mut [u16],
    width: u32,
    rect: Rect,
    trail: &mut Trail,
    level: u16,
    cell: u32,
    p: Pixel,
)
    requires width { trail.old.width ≡ width }
    requires at { StandsAt rect mask.now image.old trail.old cell p 1 }
    ensures { AreSpreadOn (IsCellOf rect trail.old.width (IsUnder p)) mask.now level image.old image.new
        trail.old trail.new 1 }
{
    if p.y + 1 < rect.y + rect.h {
        let below = Pixel { x: p.x, y: p.y + 1 };
        raise_on(mask, image, trail, level, cell + width, below);
    }
}

// And the pixel left of it.
#[inline(always)]
fn raise_left(
    mask: &[u16],
    image: &mut [u16],
    rect: Rect,
    trail: &mut Trail,
    level: u16,
    cell: u32,
    p: Pixel,
)
    requires { StandsAt rect mask.now image.old trail.old cell p 1 }
    ensures { AreSpreadOn (IsCellOf rect trail.old.width (IsLeft p)) mask.now level image.old image.new
        trail.old trail.new 1 }
{
    if p.x > rect.x {
        let left = Pixel { x: p.x - 1, y: p.y };
        raise_on(mask, image, trail, level, cell - 1, left);
    }
}

// And the pixel right of it.
#[inline(always)]
fn raise_right(
    mask: &[u16],
    image: &mut [u16],
    rect: Rect,
    trail: &mut Trail,
    level: u16,
    cell: u32,
    p: Pixel,
)
    requires { StandsAt rect mask.now image.old trail.old cell p 1 }
    ensures { AreSpreadOn (IsCellOf rect trail.old.width (IsRight p)) mask.now level image.old image.new
        trail.old trail.new 1 }
{
    if p.x + 1 < rect.x + rect.w {
        let right = Pixel { x: p.x + 1, y: p.y };
        raise_on(mask, image, trail, level, cell + 1, right);
    }
}

// Raises a pixel, which has this cell, to the level, as far as the mask lets it, and puts it on the trail if it rises.
// It has no branch.
#[inline(always)]
fn raise_on(mask: &[u16], cells: &mut [u16], trail: &mut Trail, level: u16, cell: u32, pixel: Pixel)
    requires { CanJoin mask.now cells.old trail.old cell pixel }
    ensures { AreSpreadOn (λ k. k ≡ cell) mask.now level cells.old cells.new trail.old trail.new 1 }
{
    let at = cell as usize;
    let raised = level.min(mask[at]);
    let now = cells[at];
    cells[at] = now.max(raised);
    trail.push_if(now < raised, pixel);
}

/// The pixel of a cell, in an image of this width.
#[inline(always)]
pub fn pixel_of(width: u32, cell: u32) -> Pixel
    requires { 0 < width }
    ensures { IsPixelOf width cell result }
{
    Pixel {
        x: cell % width,
        y: cell / width,
    }
}

/// Raises the cells around a cell by it, as far as the mask lets them, and puts those that rise into the queue.
///
/// It answers whether there was room for all of them.
#[inline(always)]
pub fn spread(
    mask: &[u16],
    image: &mut [u16],
    size: Size,
    rect: Rect,
    conn: Conn,
    waiting: &mut Waiting,
    cell: u32,
) -> bool
    requires close { CanClose rect (rows_of size mask.now) (rows_of size image.old) }
    requires inside { AreInside rect size.w (cell ∷ waiting.old) }
    ensures { CellHasSpread conn rect (rows_of size mask.now) (rows_of size image.old)
        (rows_of size image.new) cell waiting.old waiting.new result }
{
    let level = image[cell as usize];
    match conn {
        Conn::Four => {
            let cross = cross_around(size.w, rect, cell);
            raise_cross(mask, image, waiting, level, cross)
        }
        Conn::Eight => {
            let spans = spans_around(size.w, rect, cell);
            raise_around(mask, image, waiting, level, spans)
        }
    }
}

// Raises the cells of the cross to the level, as far as the mask lets them, and puts those that rise into the queue.
// It answers whether there was room for all of them.
#[inline(always)]
fn raise_cross(
    mask: &[u16],
    cells: &mut [u16],
    waiting: &mut Waiting,
    level: u16,
    cross: Cross,
) -> bool
    requires within { (k : _) → IsOnCross cross k → k < length cells.old }
    requires same { length mask.now ≡ length cells.old }
    ensures { AreSpread (IsOnCross cross) mask.now level cells.old cells.new waiting.old waiting.new (IsTrue result) }
{
    let first = raise_two(mask, cells, waiting, level, cross.above, cross.left);
    let second = raise_two(mask, cells, waiting, level, cross.right, cross.below);
    first && second
}

// Raises one cell and another to the level, where there are any.
#[inline(always)]
fn raise_two(
    mask: &[u16],
    cells: &mut [u16],
    waiting: &mut Waiting,
    level: u16,
    one: Option<Neighbour>,
    other: Option<Neighbour>,
) -> bool
    requires within { (k : _) → IsCell one k ⊎ IsCell other k → k < length cells.old }
    requires same { length mask.now ≡ length cells.old }
    ensures { AreSpread (λ k. IsCell one k ⊎ IsCell other k) mask.now level cells.old cells.new
        waiting.old waiting.new (IsTrue result) }
{
    let first = raise_one(mask, cells, waiting, level, one);
    let second = raise_one(mask, cells, waiting, level, other);
    first && second
}

// Raises a cell to the level, where there is one, as far as the mask lets it, and puts it into the queue if it rises.
// It answers whether there was room for it.
#[inline(always)]
fn raise_one(
    mask: &[u16],
    cells: &mut [u16],
    waiting: &mut Waiting,
    level: u16,
    one: Option<Neighbour>,
) -> bool
    requires within { (k : _) → IsCell one k → k < length cells.old }
    requires same { length mask.now ≡ length cells.old }
    ensures { AreSpread (IsCell one) mask.now level cells.old cells.new waiting.old waiting.new (IsTrue result) }
{
    if let Some(place) = one {
        let at = place.cell as usize;
        let raised = level.min(mask[at]);
        if cells[at] < raised {
            cells[at] = raised;
            return waiting.push(strip_of(place.row), place.cell);
        }
    }
    true
}

// Raises the cells of the spans to the level, as far as the mask lets them, and puts those that rise into the queue.
// It answers whether there was room for all of them.
#[inline(always)]
fn raise_around(
    mask: &[u16],
    cells: &mut [u16],
    waiting: &mut Waiting,
    level: u16,
    spans: Spans,
) -> bool
    requires within { (k : _) → IsAround spans k → k < length cells.old }
    requires same { length mask.now ≡ length cells.old }
    ensures { AreSpread (IsAround spans) mask.now level cells.old cells.new waiting.old waiting.new (IsTrue result) }
{
    let above = raise(mask, cells, waiting, level, spans.above);
    let beside = raise(mask, cells, waiting, level, spans.beside);
    let below = raise(mask, cells, waiting, level, spans.below);
    above && beside && below
}

// Raises the cells of the span to the level, as far as the mask lets them, and puts those that rise into the queue.
// It answers whether there was room for all of them.
#[inline(always)]
fn raise(mask: &[u16], cells: &mut [u16], waiting: &mut Waiting, level: u16, span: RowSpan) -> bool
    requires within { (k : _) → InSpan span k → k < length cells.old }
    requires same { length mask.now ≡ length cells.old }
    ensures { AreSpread (InSpan span) mask.now level cells.old cells.new waiting.old waiting.new (IsTrue result) }
{
    let mut room = true;
    for cell in span.first..span.end {
        let at = cell as usize;
        let raised = level.min(mask[at]);
        if cells[at] < raised {
            cells[at] = raised;
            room = waiting.push(strip_of(span.row), cell) && room;
        }
    }
    room
}
