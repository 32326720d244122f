//! Parts of a whole image: those in a rectangle, and the pieces that are compared with them.

ghost use Rattle.std.specs.Prelude.{◌≡◌, ◌+◌, ◌<◌, ◌≤◌, ◌↔◌, length, max, slice_index, IsTrue, IfOk, EachIndex};
ghost use Rattle.grid_core.specs.Bounds.{LieIn};
ghost use Rattle.grid_core.specs.Raster.{value_at};
ghost use Rattle.grid_core.specs.Rects.{RectFits, IsRowOf, AreCellsChanged};
ghost use Rattle.core_rules.specs.Image.{IsPart, IsAtMostPart, IsJoinedWith};
ghost use Rattle.reset_core.specs.Bounding.{AreCountedFrom};
ghost use Rattle.reset_core.specs.Parts.{AreCellsIn, IsPieceFor, IsBelowPiece, IsRaisedPart, raised_from};
ghost use Rattle.reset_core.specs.Parts.{AreBoundsAbove, AreWidenedAbove, AreWidenedByRow};

use grid_core::laws::cells_given_back;
use grid_core::{Bounds, Grid, Memory, Pixel, Rect};
use std::alloc::Global;

// How many cells are compared before a comparison may leave.
const STRETCH: usize = 512;

/// Whether the piece is the part of the whole image in the rectangle.
pub fn is_part(whole: &Grid, rect: Rect, piece: &Grid) -> bool
    requires { RectFits whole.now.width whole.now.height rect }
    ensures { IsTrue result ↔ IsPart rect whole.now piece.now }
{
    if piece.width() != rect.w || piece.height() != rect.h {
        return false;
    }
    if rect.w == whole.width() {
        return is_equal_throughout(piece.cells(), full_rows(whole, rect));
    }
    for y in 0..rect.h {
        if !is_equal(row(piece, y), whole.row_in(rect, y)) {
            return false;
        }
    }
    true
}

/// Whether the piece is at most the part of the whole image in the rectangle.
pub fn is_at_most_part(whole: &Grid, rect: Rect, piece: &Grid) -> bool
    requires { RectFits whole.now.width whole.now.height rect }
    ensures { IsTrue result ↔ IsAtMostPart rect whole.now piece.now }
{
    if piece.width() != rect.w || piece.height() != rect.h {
        return false;
    }
    if rect.w == whole.width() {
        return is_at_most_throughout(piece.cells(), full_rows(whole, rect));
    }
    for y in 0..rect.h {
        if !is_at_most(row(piece, y), whole.row_in(rect, y)) {
            return false;
        }
    }
    true
}

/// Raises the part of the whole image in the rectangle to the piece. Where `is_above` says that the piece is nowhere
/// below that part, its rows are copied. It takes no memory.
pub(crate) fn raise_part(whole: &mut Grid, rect: Rect, piece: &Grid, is_above: bool)
    requires piece { IsPieceFor rect whole.old piece.now }
    requires above { IsTrue is_above → IsBelowPiece rect whole.old piece.now }
    ensures { IsJoinedWith rect piece.now whole.old whole.new }
{
    let width = whole.width() as usize;
    for y in 0..rect.h {
        let start = (rect.y + y) as usize * width + rect.x as usize;
        raise_cells(whole, start, row(piece, y), is_above);
    }
}

/// The part of the whole image in the rectangle, raised to the piece, as an image by itself.
///
/// Errors: out of memory.
pub fn raised_part(alloc: Global, whole: &Grid, rect: Rect, piece: &Grid) -> Result<Grid, Memory>
    requires { IsPieceFor rect whole.now piece.now }
    ensures { IfOk result (IsRaisedPart rect whole.now piece.now) }
{
    let mut part = whole.cut(alloc, rect)?;
    raise_cells(&mut part, 0, piece.cells(), false);
    Ok(part)
}

/// Bounds of the pixels of the rectangle where the whole image is above the piece. Where `is_above` says that the piece
/// is nowhere below it, there is none.
pub fn bounds_above(whole: &Grid, rect: Rect, piece: &Grid, is_above: bool) -> Bounds
    requires piece { IsPieceFor rect whole.now piece.now }
    requires above { IsTrue is_above → IsBelowPiece rect whole.now piece.now }
    ensures { AreBoundsAbove rect rect.h whole.now piece.now result }
{
    // For its clause alone: the sides of an image are bounded.
    let _ = whole.width();
    let mut bounds = Bounds::none();
    if is_above || is_seen_below(whole, rect, piece) {
        return bounds;
    }
    for y in 0..rect.h {
        bounds = widened_by_row(bounds, rect, y, whole.row_in(rect, y), row(piece, y));
    }
    bounds
}

/// The bounds, which lie in the rectangle, counted from its upper left corner.
pub fn counted_from(rect: Rect, bounds: Bounds) -> Bounds
    requires { LieIn bounds rect }
    ensures { AreCountedFrom rect bounds result }
{
    if bounds.is_empty() {
        return Bounds::none();
    }
    let right = bounds.right - rect.x;
    let bottom = bounds.bottom - rect.y;
    Bounds {
        left: bounds.left - rect.x,
        right,
        top: bounds.top - rect.y,
        bottom,
    }
}

// Whether the rectangle is as wide as the whole image, and one pass over its cells finds none above the piece.
fn is_seen_below(whole: &Grid, rect: Rect, piece: &Grid) -> bool
    requires { IsPieceFor rect whole.now piece.now }
    ensures { IsTrue result → IsBelowPiece rect whole.now piece.now }
{
    if rect.w != whole.width() {
        return false;
    }
    is_at_most_throughout(full_rows(whole, rect), piece.cells())
}

// The bounds, widened by the pixels of row `y` of the rectangle where the values are above the limits. Most rows have
// none, which is found like `is_equal`.
fn widened_by_row(before: Bounds, rect: Rect, y: u32, values: &[u16], limits: &[u16]) -> Bounds
    requires columns { rect.x + rect.w < 4294967296 }
    requires rows { rect.y + rect.h < 4294967296 }
    requires row { y < rect.h }
    requires values { length values.now ≡ rect.w }
    requires limits { length limits.now ≡ rect.w }
    ensures { AreWidenedByRow rect y values.now limits.now rect.w before result }
{
    if is_at_most(values, limits) {
        return before;
    }
    let mut bounds = before;
    for x in 0..rect.w {
        let p = Pixel {
            x: rect.x + x,
            y: rect.y + y,
        };
        bounds = widened_by_pixel(bounds, p, values[x as usize], limits[x as usize]);
    }
    bounds
}

// The bounds, widened by the pixel where the value is above the limit.
fn widened_by_pixel(bounds: Bounds, p: Pixel, value: u16, limit: u16) -> Bounds
    requires column { p.x + 1 < 4294967296 }
    requires row { p.y + 1 < 4294967296 }
    ensures { AreWidenedAbove bounds p value limit result }
{
    if value <= limit {
        return bounds;
    }
    bounds.including(p)
}

// Row `y` of the image.
fn row(image: &Grid, y: u32) -> &[u16]
    requires { y < image.now.height }
    ensures { IsRowOf image.now.width (value_at image.now) y result.now }
{
    let width = image.width() as usize;
    let start = y as usize * width;
    &image.cells()[start..start + width]
}

// The cells of the whole image in the rectangle, which is as wide as it: its rows lie one behind another.
fn full_rows(whole: &Grid, rect: Rect) -> &[u16]
    requires fits { RectFits whole.now.width whole.now.height rect }
    requires wide { rect.w ≡ whole.now.width }
    ensures { AreCellsIn rect whole.now result.now }
{
    let width = whole.width() as usize;
    let start = rect.y as usize * width;
    let count = rect.h as usize * width;
    &whole.cells()[start..start + count]
}

// Whether the cells are equal. It looks at a stretch of them after another, and leaves after one that differs.
fn is_equal_throughout(a: &[u16], b: &[u16]) -> bool
    requires { length a.now ≡ length b.now }
    ensures { IsTrue result ↔ EachIndex a.now (λ k. slice_index a.now k ≡ slice_index b.now k) }
{
    let mut start = 0;
    while start < a.len() {
        let end = start + STRETCH.min(a.len() - start);
        if !is_equal(&a[start..end], &b[start..end]) {
            return false;
        }
        start = end;
    }
    true
}

// Whether no cell of the first is above that of the second, found like `is_equal_throughout`.
fn is_at_most_throughout(a: &[u16], b: &[u16]) -> bool
    requires { length a.now ≡ length b.now }
    ensures { IsTrue result ↔ EachIndex a.now (λ k. slice_index a.now k ≤ slice_index b.now k) }
{
    let mut start = 0;
    while start < a.len() {
        let end = start + STRETCH.min(a.len() - start);
        if !is_at_most(&a[start..end], &b[start..end]) {
            return false;
        }
        start = end;
    }
    true
}

// Whether the cells of a row or of a stretch are equal. It looks at each, without leaving early, so that it becomes
// vector code.
fn is_equal(a: &[u16], b: &[u16]) -> bool
    requires { length a.now ≡ length b.now }
    ensures { IsTrue result ↔ EachIndex a.now (λ k. slice_index a.now k ≡ slice_index b.now k) }
{
    let mut differ = false;
    for i in 0..a.len() {
        differ |= a[i] != b[i];
    }
    !differ
}

/// Whether no cell of the first is above that of the second. It looks at each, without leaving early, so that it
/// becomes vector code.
pub fn is_at_most(a: &[u16], b: &[u16]) -> bool
    requires { length a.now ≡ length b.now }
    ensures { IsTrue result ↔ EachIndex a.now (λ k. slice_index a.now k ≤ slice_index b.now k) }
{
    let mut above = false;
    for i in 0..a.len() {
        above |= a[i] > b[i];
    }
    !above
}

// Raises the cells from a place on to these values. Where none is below its cell, as `is_above` says, they are copied.
fn raise_cells(image: &mut Grid, start: usize, values: &[u16], is_above: bool)
    requires within { start + length values.now ≤ length image.old.cells }
    requires above { IsTrue is_above → EachIndex values.now (λ k. slice_index image.old.cells (start + k)
        ≤ slice_index values.now k) }
    ensures { AreCellsChanged start (start + length values.now) (raised_from start values.now image.old.cells) image.old
        image.new }
{
    cells_given_back();
    let cells = image.cells_mut();
    raise_row(&mut cells[start..start + values.len()], values, is_above);
}

/// Raises each cell of the row to the value at its place. Where none is below its cell, as `is_above` says, they are
/// copied.
pub fn raise_row(row: &mut [u16], values: &[u16], is_above: bool)
    requires count { length values.now ≡ length row.old }
    requires above { IsTrue is_above → EachIndex values.now (λ k. slice_index row.old k ≤ slice_index values.now k) }
    ensures { EachIndex row.new (λ k. slice_index row.new k
        ≡ max (slice_index row.old k) (slice_index values.now k)) }
{
    if is_above {
        row.copy_from_slice(values);
        return;
    }
    for i in 0..row.len() {
        row[i] = row[i].max(values[i]);
    }
}
