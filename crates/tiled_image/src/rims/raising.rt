//! Rims of tiles beside copies of rims: raised to them, and compared with them.

ghost use Rattle.std.specs.Prelude.{◌≡◌, ◌+◌, ◌*◌, ◌<◌, ◌≤◌, ◌⊎◌, ⊤, IsTrue, length};
ghost use Rattle.grid_core.specs.Raster.{value_at};
ghost use Rattle.grid_core.specs.Rects.{IsInRect, RectFits};
ghost use Rattle.grid_core.specs.Tiles.{count_of, rect_of};
ghost use Rattle.reset_core.specs.Parts.{AreWidenedAbove};
ghost use Rattle.border_queues.specs.Around.{around_of};
ghost use Rattle.tiled_image.specs.Raising.{AreBoundsOver, AreWidenedAt, AreWidenedBy, IsPlaceOf, greater_of};
ghost use Rattle.tiled_image.specs.Raising.{raised_cell, raised_value};
ghost use Rattle.tiled_image.specs.Rims.{IsRimChanged, IsRimOf, IsStripChanged, rim_value, room_of, strip_of};
ghost use Rattle.tiled_image.specs.Ring.{IsBorderShown};
ghost use Rattle.tiled_image.specs.Shown.{CanCopy, IsStripCopied, as_image, cell_in, value_in};
ghost use Rattle.tiled_image.specs.Sides.{HasSides, HasValues, side_of};

use super::border::side_of;
use super::{Edge, Rims, start_of, strip_at};
use crate::image::around_of;
use grid_core::{Bounds, Grid, Pixel, Rect, Tiling};
use reset_core::parts::{is_at_most, raise_row};
use tile_generations::Rim;

impl Rims {
    /// Raises the rim of a tile to a copy of another one. It takes no memory.
    pub(crate) fn raise(&mut self, tiling: &Tiling, tile: usize, rim: &Rim)
        requires count { length self.old ≡ room_of tiling.now }
        requires tile { tile < count_of tiling.now }
        requires rim { HasSides (rect_of tiling.now tile) rim.now }
        ensures { (image value : _) → IsRimOf tiling.now image self.old tile
            → HasValues (rect_of tiling.now tile) value rim.now
            → IsRimChanged tiling.now tile (λ _. ⊤) (greater_of image value) self.old self.new }
    {
        raise_sides(&mut self.values, tiling, tile, rim);
    }

    /// Raises those of the cells, in which a tile and the pixels around it stand row by row, that stand for the tile's
    /// border, to the tile's rim. It takes no memory.
    pub(crate) fn raise_border(&self, tiling: &Tiling, tile: usize, cells: &mut [u16])
        requires count { length self.now ≡ room_of tiling.now }
        requires tile { tile < count_of tiling.now }
        requires room { (around_of tiling.now tile).w * (around_of tiling.now tile).h ≤ length cells.old }
        ensures { (image value : _) → IsRimOf tiling.now image self.now tile
            → IsBorderShown (rect_of tiling.now tile) value (around_of tiling.now tile) cells.old cells.old
            → IsBorderShown (rect_of tiling.now tile) (greater_of image value) (around_of tiling.now tile) cells.old
            cells.new }
    {
        // For its clause alone: how the image is cut into tiles.
        let _ = tiling.side();
        let values: &[u16] = &self.values;
        raise_border_at(values, tiling, tile, Edge::Top, cells);
        raise_border_at(values, tiling, tile, Edge::Bottom, cells);
        raise_border_at(values, tiling, tile, Edge::Left, cells);
        raise_border_at(values, tiling, tile, Edge::Right, cells);
    }

    /// Whether the rim of a tile is nowhere below the first and last row and column of a piece of the tile's size.
    pub(crate) fn is_nowhere_below(&self, tiling: &Tiling, tile: usize, piece: &Grid) -> bool
        requires count { length self.now ≡ room_of tiling.now }
        requires tile { tile < count_of tiling.now }
        requires width { piece.now.width ≡ (rect_of tiling.now tile).w }
        requires height { piece.now.height ≡ (rect_of tiling.now tile).h }
        ensures { (image edge p : _) → IsTrue result → IsRimOf tiling.now image self.now tile
            → IsInRect (strip_of tiling.now tile edge) p
            → value_in (rect_of tiling.now tile) piece.now p ≤ value_at image p }
    {
        let values: &[u16] = &self.values;
        is_above_at(values, tiling, tile, Edge::Top, piece)
            && is_above_at(values, tiling, tile, Edge::Bottom, piece)
            && is_above_at(values, tiling, tile, Edge::Left, piece)
            && is_above_at(values, tiling, tile, Edge::Right, piece)
    }

    /// Bounds of the pixels of a tile where its rim is above a copy of another one.
    pub(crate) fn bounds_over(&self, tiling: &Tiling, tile: usize, rim: &Rim) -> Bounds
        requires count { length self.now ≡ room_of tiling.now }
        requires tile { tile < count_of tiling.now }
        requires rim { HasSides (rect_of tiling.now tile) rim.now }
        ensures { (image value : _) → IsRimOf tiling.now image self.now tile
            → HasValues (rect_of tiling.now tile) value rim.now
            → AreBoundsOver (rect_of tiling.now tile) image value result }
    {
        // For its clause alone: how the image is cut into tiles.
        let _ = tiling.side();
        let values: &[u16] = &self.values;
        let top = widened_at(Bounds::none(), values, tiling, tile, Edge::Top, rim);
        let bottom = widened_at(top, values, tiling, tile, Edge::Bottom, rim);
        let left = widened_at(bottom, values, tiling, tile, Edge::Left, rim);
        widened_at(left, values, tiling, tile, Edge::Right, rim)
    }
}

// ---- raised

// Raises the four strips of a tile to those of a copy of a rim.
fn raise_sides(values: &mut [u16], tiling: &Tiling, tile: usize, rim: &Rim)
    requires count { length values.old ≡ room_of tiling.now }
    requires tile { tile < count_of tiling.now }
    requires rim { HasSides (rect_of tiling.now tile) rim.now }
    ensures { (image value : _) → IsRimOf tiling.now image values.old tile
        → HasValues (rect_of tiling.now tile) value rim.now
        → IsRimChanged tiling.now tile (λ _. ⊤) (greater_of image value) values.old values.new }
{
    // For its clause alone: how the image is cut into tiles.
    let _ = tiling.side();
    raise_side(values, tiling, tile, Edge::Top, rim);
    raise_side(values, tiling, tile, Edge::Bottom, rim);
    raise_side(values, tiling, tile, Edge::Left, rim);
    raise_side(values, tiling, tile, Edge::Right, rim);
}

// Raises a strip of a tile to that of a copy of a rim.
fn raise_side(values: &mut [u16], tiling: &Tiling, tile: usize, edge: Edge, rim: &Rim)
    requires count { length values.old ≡ room_of tiling.now }
    requires tile { tile < count_of tiling.now }
    requires rim { HasSides (rect_of tiling.now tile) rim.now }
    ensures { IsStripChanged tiling.now tile edge (λ _. ⊤)
        (raised_value tiling.now values.old tile edge (side_of edge rim.now)) values.old values.new }
{
    // For its clause alone: how the image is cut into tiles.
    let _ = tiling.side();
    let side = side_of(rim, edge);
    let start = start_of(tiling, tile, edge);
    let end = start + side.len();
    raise_row(&mut values[start..end], side, false);
}

// Raises the cells, which show a tile and the pixels around it, that stand for a strip of the tile to the strip.
fn raise_border_at(values: &[u16], tiling: &Tiling, tile: usize, edge: Edge, cells: &mut [u16])
    requires count { length values.now ≡ room_of tiling.now }
    requires tile { tile < count_of tiling.now }
    requires room { (around_of tiling.now tile).w * (around_of tiling.now tile).h ≤ length cells.old }
    ensures { IsStripCopied (strip_of tiling.now tile edge)
        (raised_cell (rim_value tiling.now values.now tile edge) (around_of tiling.now tile) cells.old)
        (around_of tiling.now tile) cells.old cells.new }
{
    let side = tiling.side() as usize;
    let around = around_of(tiling, tile);
    let strip = strip_at(edge, tiling.rect(tile));
    let start = start_of(tiling, tile, edge);
    let end = start + side;
    raise_cells(strip, &values[start..end], cells, around);
}

// Raises the cells, which show the rectangle `to` of an image, that stand for a strip of it to the strip's values.
fn raise_cells(strip: Rect, values: &[u16], cells: &mut [u16], to: Rect)
    requires strip { CanCopy strip (as_image strip values.now) strip to (length cells.old) }
    requires room { strip.w * strip.h ≤ length values.now }
    ensures { IsStripCopied strip (raised_cell (cell_in strip values.now) to cells.old) to cells.old cells.new }
{
    let width = strip.w as usize;
    let left = strip.x - to.x;
    let top = strip.y - to.y;
    for y in 0..strip.h {
        let first = y as usize * width;
        let last = first + width;
        let start = (top + y) as usize * to.w as usize + left as usize;
        let end = start + width;
        raise_row(&mut cells[start..end], &values[first..last], false);
    }
}

// ---- compared

// Whether a strip of a tile is nowhere below that of a piece.
fn is_above_at(values: &[u16], tiling: &Tiling, tile: usize, edge: Edge, piece: &Grid) -> bool
    requires count { length values.now ≡ room_of tiling.now }
    requires tile { tile < count_of tiling.now }
    requires width { piece.now.width ≡ (rect_of tiling.now tile).w }
    requires height { piece.now.height ≡ (rect_of tiling.now tile).h }
    ensures { (p : _) → IsTrue result → IsInRect (strip_of tiling.now tile edge) p
        → value_in (rect_of tiling.now tile) piece.now p ≤ rim_value tiling.now values.now tile edge p }
{
    let side = tiling.side() as usize;
    let whole = Rect {
        x: 0,
        y: 0,
        w: piece.width(),
        h: piece.height(),
    };
    let strip = strip_at(edge, whole);
    let start = start_of(tiling, tile, edge);
    let end = start + side;
    is_part_below(piece, strip, &values[start..end])
}

// Whether an image is in a rectangle nowhere above values that show it row by row.
fn is_part_below(image: &Grid, rect: Rect, values: &[u16]) -> bool
    requires fits { RectFits image.now.width image.now.height rect }
    requires room { rect.w * rect.h ≤ length values.now }
    ensures { (p : _) → IsTrue result → IsInRect rect p → value_at image.now p ≤ cell_in rect values.now p }
{
    let width = rect.w as usize;
    for y in 0..rect.h {
        let first = y as usize * width;
        let last = first + width;
        if !is_at_most(image.row_in(rect, y), &values[first..last]) {
            return false;
        }
    }
    true
}

// The bounds, widened by the pixels of a strip of a tile where it is above that of a copy of a rim.
fn widened_at(
    before: Bounds,
    values: &[u16],
    tiling: &Tiling,
    tile: usize,
    edge: Edge,
    rim: &Rim,
) -> Bounds
    requires count { length values.now ≡ room_of tiling.now }
    requires tile { tile < count_of tiling.now }
    requires rim { HasSides (rect_of tiling.now tile) rim.now }
    ensures { AreWidenedAt (rect_of tiling.now tile) (strip_of tiling.now tile edge)
        (rim_value tiling.now values.now tile edge)
        (cell_in (strip_of tiling.now tile edge) (side_of edge rim.now)) before result }
{
    // For its clause alone: how the image is cut into tiles.
    let _ = tiling.side();
    let strip = strip_at(edge, tiling.rect(tile));
    let side = side_of(rim, edge);
    let start = start_of(tiling, tile, edge);
    let end = start + side.len();
    widened_by_line(before, strip, &values[start..end], side)
}

// The bounds, widened by the pixels of a row or a column where its values are above the limits.
fn widened_by_line(before: Bounds, strip: Rect, values: &[u16], limits: &[u16]) -> Bounds
    requires line { (strip.w ≡ 1) ⊎ (strip.h ≡ 1) }
    requires columns { strip.x + strip.w < 4294967296 }
    requires rows { strip.y + strip.h < 4294967296 }
    requires values { length values.now ≡ strip.w * strip.h }
    requires limits { length limits.now ≡ strip.w * strip.h }
    ensures { AreWidenedBy strip values.now limits.now (length values.now) before result }
{
    if is_at_most(values, limits) {
        return before;
    }
    let mut bounds = before;
    for k in 0..values.len() {
        let p = pixel_at(strip, k as u32);
        bounds = widened_by_pixel(bounds, p, values[k], limits[k]);
    }
    bounds
}

// The bounds, widened by the pixel where the value is above the limit.
fn widened_by_pixel(bounds: Bounds, p: Pixel, value: u16, limit: u16) -> Bounds
    requires column { p.x + 1 < 4294967296 }
    requires row { p.y + 1 < 4294967296 }
    ensures { AreWidenedAbove bounds p value limit result }
{
    if value <= limit {
        return bounds;
    }
    bounds.including(p)
}

// The pixel of a row or a column at a place.
fn pixel_at(strip: Rect, place: u32) -> Pixel
    requires line { (strip.w ≡ 1) ⊎ (strip.h ≡ 1) }
    requires columns { strip.x + strip.w < 4294967296 }
    requires rows { strip.y + strip.h < 4294967296 }
    requires place { place < strip.w * strip.h }
    ensures { IsPlaceOf strip place result }
{
    if strip.h == 1 {
        Pixel {
            x: strip.x + place,
            y: strip.y,
        }
    } else {
        Pixel {
            x: strip.x,
            y: strip.y + place,
        }
    }
}
