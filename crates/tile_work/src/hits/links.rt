//! Which tiles are linked: they hold neighbouring pixels at both of which the image is above 0.

ghost use Rattle.std.specs.Prelude.{◌≡◌, ◌+◌, ◌<◌, ◌≤◌, ◌↔◌, IsTrue};
ghost use Rattle.grid_core.specs.declared.pixel.Pixel.{Pixel};
ghost use Rattle.grid_core.specs.Raster.{IsInside, max_side, value_at};
ghost use Rattle.grid_core.specs.Neighbours.{AreNeighbours};
ghost use Rattle.grid_core.specs.Rects.{IsInRect, IsRowOf};
ghost use Rattle.grid_core.specs.Tiles.{count_of};
ghost use Rattle.border_queues.specs.OpenEdges.{IsOnTiling};
ghost use Rattle.tile_work.specs.Marks.{Adds, EndsWithin, IsLight, IsLightBeside, IsLinkedInto, IsNear, SomeIn};
ghost use Rattle.tile_work.specs.Marks.{pixels_upto};
ghost use Rattle.tile_work.specs.Linking.{CanMark, IsLinkedBy};
ghost use Rattle.tile_work.specs.TileSet.{Has};

use crate::TileSet;
use crate::hits::marking::mark;
use grid_core::laws::{each_pixel_in_one_tile, neighbours_lie_in_touching_tiles};
use grid_core::{Conn, Grid, Pixel, Rect, Tiling};

/// An image in tiles, in which linked tiles are looked for.
#[derive(Clone, Copy)]
pub(super) struct Links<'a> {
    pub tiling: Tiling,
    pub conn: Conn,
    pub image: &'a Grid,
}

impl Links<'_> {
    /// Marks the tiles that are linked with a tile, and puts those into the queue that were not marked. The tile
    /// itself is marked.
    pub(super) fn mark_linked(&self, marks: &mut TileSet, queue: &mut TileSet, tile: usize)
        requires parts { CanMark self.now marks.old queue.old }
        requires tile { Has marks.old tile }
        ensures { Adds (IsLinkedBy self.now tile) marks.old queue.old marks.new queue.new }
    {
        each_pixel_in_one_tile();
        neighbours_lie_in_touching_tiles();
        // For its clause alone: the tiling is one of an image.
        let _ = self.tiling.side();
        let touching = self.tiling.touching(tile);
        for other in touching.as_slice() {
            self.mark_if_linked(marks, queue, tile, *other);
        }
    }

    // Marks a tile if it is linked with the first one.
    fn mark_if_linked(&self, marks: &mut TileSet, queue: &mut TileSet, tile: usize, other: usize)
        requires parts { CanMark self.now marks.old queue.old }
        requires tile { tile < count_of self.now.tiling }
        requires other { other < count_of self.now.tiling }
        ensures { Adds (λ t. (t ≡ other) × IsLinkedBy self.now tile t) marks.old queue.old marks.new queue.new }
    {
        if !marks.contains(other) && self.are_linked(tile, other) {
            mark(marks, queue, other);
        }
    }

    // Whether two tiles are linked.
    fn are_linked(&self, tile: usize, other: usize) -> bool
        requires on_tiling { IsOnTiling self.now.tiling self.now.image.now }
        requires tile { tile < count_of self.now.tiling }
        requires other { other < count_of self.now.tiling }
        ensures { IsTrue result ↔ IsLinkedBy self.now tile other }
    {
        each_pixel_in_one_tile();
        // For its clause alone: the tiling is one of an image.
        let _ = self.tiling.side();
        self.are_rects_linked(self.tiling.rect(tile), self.tiling.rect(other))
    }

    // Whether the image is above 0 at a pixel of one rectangle and at a neighbour of it in the other.
    fn are_rects_linked(&self, rect: Rect, other: Rect) -> bool
        requires rect { EndsWithin self.now.image.now.width self.now.image.now.height rect }
        requires other { EndsWithin self.now.image.now.width self.now.image.now.height other }
        ensures { IsTrue result ↔ SomeIn rect (IsLinkedInto self.now.image.now self.now.conn other) }
    {
        // For its clauses alone: the sides of an image are bounded.
        let _ = self.image.width();
        let opposite = part_near(other, rect);
        if !self.is_light(opposite) {
            return false;
        }
        let near = part_near(rect, other);
        for i in 0..near.h {
            if self.is_row_linked(near.x, near.y + i, near.w, other) {
                return true;
            }
        }
        false
    }

    // Whether the image is above 0 at some pixel of the rectangle.
    fn is_light(&self, rect: Rect) -> bool
        requires { EndsWithin self.now.image.now.width self.now.image.now.height rect }
        ensures { IsTrue result ↔ SomeIn rect (IsLight self.now.image.now) }
    {
        // For its clauses alone: the sides of an image are bounded.
        let _ = self.image.width();
        for i in 0..rect.h {
            if self.is_row_light(rect.x, rect.y + i, rect.w) {
                return true;
            }
        }
        false
    }

    // Whether the image is above 0 at one of `w` pixels from column `x` on of the row `y`.
    fn is_row_light(&self, x: u32, y: u32, w: u32) -> bool
        requires row { EndsWithin self.now.image.now.width self.now.image.now.height (pixels_upto x y w) }
        ensures { IsTrue result ↔ SomeIn (pixels_upto x y w) (IsLight self.now.image.now) }
    {
        let row = self.row(x, y, w);
        for value in row {
            if *value > 0 {
                return true;
            }
        }
        false
    }

    // The values of `w` pixels from column `x` on of the row `y`.
    fn row(&self, x: u32, y: u32, w: u32) -> &[u16]
        requires row { EndsWithin self.now.image.now.width self.now.image.now.height (pixels_upto x y w) }
        ensures { IsRowOf w (λ p. value_at self.now.image.now (record { x = x + p.x; y = p.y })) y result.now }
    {
        let width = self.image.width() as usize;
        let start = y as usize * width + x as usize;
        &self.image.cells()[start..start + w as usize]
    }

    // Whether the image is above 0 at one of `w` pixels from column `x` on of the row `y`, and at a neighbour of it
    // in the rectangle.
    fn is_row_linked(&self, x: u32, y: u32, w: u32, other: Rect) -> bool
        requires row { EndsWithin self.now.image.now.width self.now.image.now.height (pixels_upto x y w) }
        requires other { EndsWithin self.now.image.now.width self.now.image.now.height other }
        ensures { IsTrue result ↔ SomeIn (pixels_upto x y w) (IsLinkedInto self.now.image.now self.now.conn other) }
    {
        // For its clauses alone: the sides of an image are bounded.
        let _ = self.image.width();
        for i in 0..w {
            let p = Pixel { x: x + i, y };
            if self.image.get(p) > 0 && self.is_light_beside(p, other) {
                return true;
            }
        }
        false
    }

    // Whether the image is above 0 at a neighbour of the pixel in the rectangle.
    fn is_light_beside(&self, p: Pixel, rect: Rect) -> bool
        requires inside { IsInside self.now.image.now.width self.now.image.now.height p }
        requires rect { EndsWithin self.now.image.now.width self.now.image.now.height rect }
        ensures { IsTrue result ↔ SomeIn rect (IsLightBeside self.now.image.now self.now.conn p) }
    {
        // For its clauses alone: the sides of an image are bounded.
        let _ = self.image.width();
        let at = Rect {
            x: p.x,
            y: p.y,
            w: 1,
            h: 1,
        };
        let near = part_near(rect, at);
        for i in 0..near.h {
            if self.is_row_light_beside(p, near.x, near.y + i, near.w) {
                return true;
            }
        }
        false
    }

    // Whether the image is above 0 at a neighbour of the pixel among the `w` pixels from column `x` on of the row
    // `y`.
    fn is_row_light_beside(&self, p: Pixel, x: u32, y: u32, w: u32) -> bool
        requires inside { IsInside self.now.image.now.width self.now.image.now.height p }
        requires row { EndsWithin self.now.image.now.width self.now.image.now.height (pixels_upto x y w) }
        ensures { IsTrue result ↔ SomeIn (pixels_upto x y w) (IsLightBeside self.now.image.now self.now.conn p) }
    {
        // For its clauses alone: the sides of an image are bounded.
        let _ = self.image.width();
        for i in 0..w {
            let q = Pixel { x: x + i, y };
            if are_neighbours(self.conn, p, q) && self.image.get(q) > 0 {
                return true;
            }
        }
        false
    }
}

// Whether two pixels are neighbours.
fn are_neighbours(conn: Conn, p: Pixel, q: Pixel) -> bool
    requires p { IsInside max_side max_side p }
    requires q { IsInside max_side max_side q }
    ensures { IsTrue result ↔ AreNeighbours conn p q }
{
    let across = p.x.abs_diff(q.x);
    let down = p.y.abs_diff(q.y);
    match conn {
        Conn::Four => across + down == 1,
        Conn::Eight => across <= 1 && down <= 1 && across + down >= 1,
    }
}

// The pixels of a rectangle that are at most 1 from another.
fn part_near(rect: Rect, other: Rect) -> Rect
    requires rect { EndsWithin max_side max_side rect }
    requires other { EndsWithin max_side max_side other }
    ensures pixels { (p : Pixel) → IsInRect result p ↔ (IsInRect rect p × IsNear other p) }
    ensures columns { result.x + result.w ≤ rect.x + rect.w }
    ensures rows { result.y + result.h ≤ rect.y + rect.h }
{
    let right = (rect.x + rect.w).min(other.x + other.w + 1);
    let left = rect.x.max(other.x.saturating_sub(1)).min(right);
    let bottom = (rect.y + rect.h).min(other.y + other.h + 1);
    let top = rect.y.max(other.y.saturating_sub(1)).min(bottom);
    Rect {
        x: left,
        y: top,
        w: right - left,
        h: bottom - top,
    }
}
