//! The walk along a tile's border.

ghost use Rattle.std.specs.Prelude.{◌≡◌, ◌+◌, ◌*◌, ◌<◌, ◌≤◌, [], ◌∷◌, true};
ghost use Rattle.std.specs.Prelude.{IsTrue, ◌↔◌};
ghost use Rattle.grid_core.specs.declared.conn.Conn.TheVariants.{Eight, Four};
ghost use Rattle.grid_core.specs.Raster.{IsInside};
ghost use Rattle.grid_core.specs.Rects.{IsInRect};
ghost use Rattle.grid_core.specs.Rows.{pixel_if};
ghost use Rattle.border_queues.specs.Waiting.{Adds, AddsWithin};
ghost use Rattle.border_queues.specs.OpenEdges.{hints_from};
ghost use Rattle.border_queues.specs.Borders.{around, hints_of_all, hints_of_row, row_if, seen_from, sender_of};
ghost use Rattle.border_queues.specs.Borders.{told_to, CanTell, IsBorder, IsInView, IsNear};

use crate::hint::Hint;
use crate::inbox::Inbox;
use crate::view::View;
use grid_core::laws::neighbours_by_rows;
use grid_core::{Bounds, Conn, Pixel, Rect, Tiling};

/// A tile, and the images in which its open edges are looked for.
#[derive(Clone, Copy)]
pub struct Border<'a> {
    pub tiling: Tiling,
    pub conn: Conn,
    // Mask and image have the values beside the tile.
    pub mask: &'a View<'a>,
    pub image: &'a View<'a>,
    // The pixel of the whole image where both begin.
    pub origin: Pixel,
    // Has the tile's own values.
    pub inside: &'a View<'a>,
    // Where the tile's upper left pixel stands in `inside`.
    pub corner: Pixel,
    pub tile: usize,
    pub generation: u64,
    // The tile's rectangle.
    pub rect: Rect,
    // Parts of it, within which each open edge begins.
    pub bounds: Bounds,
}

impl Border<'_> {
    // The value of a pixel of the tile.
    #[inline(always)]
    fn value(&self, p: Pixel) -> u16
        requires border { IsBorder self.now }
        requires own { IsInRect self.now.rect p }
        ensures { result ≡ (sender_of self.now).image p }
    {
        self.inside.get(Pixel {
            x: self.corner.x + (p.x - self.rect.x),
            y: self.corner.y + (p.y - self.rect.y),
        })
    }

    // The value of a pixel of the whole image in a view that begins where mask and image do.
    #[inline(always)]
    fn seen(&self, view: &View<'_>, q: Pixel) -> u16
        requires { IsInView self.now.origin view.now q }
        ensures { result ≡ seen_from self.now.origin view.now q }
    {
        view.get(Pixel {
            x: q.x - self.origin.x,
            y: q.y - self.origin.y,
        })
    }

    // The value of a pixel beside the tile.
    #[inline(always)]
    fn outer_value(&self, q: Pixel) -> u16
        requires border { IsBorder self.now }
        requires inside { IsInside self.now.tiling.width self.now.tiling.height q }
        requires seen { IsInView self.now.origin self.now.image.now q }
        requires outer { ¬ (IsInRect self.now.rect q) }
        ensures { result ≡ (sender_of self.now).image q }
    {
        self.seen(self.image, q)
    }

    // Whether the pixel at `x` and `y` lies in the tile.
    #[inline(always)]
    fn is_own(&self, x: u32, y: u32) -> bool
        ensures { IsTrue result ↔ IsInRect self.now.rect (record { x = x; y = y }) }
    {
        self.rect.contains(Pixel { x, y })
    }

    // Tells a neighbour in another tile of a pixel of this value, if it can rise.
    #[inline(always)]
    fn push_outer(&self, value: u16, q: Pixel, out: &mut Inbox)
        requires ready { CanTell self.now out.old 1 }
        requires inside { IsInside self.now.tiling.width self.now.tiling.height q }
        requires seen { IsInView self.now.origin self.now.image.now q }
        requires limited { IsInView self.now.origin self.now.mask.now q }
        requires outer { ¬ (IsInRect self.now.rect q) }
        ensures { AddsWithin out.old out.new (told_to self.now value (q ∷ [])) 1 }
    {
        let beside = self.outer_value(q);
        if beside >= value {
            return;
        }
        let level = value.min(self.seen(self.mask, q));
        if beside < level {
            let _ = out.push(Hint {
                from: self.tile,
                from_generation: self.generation,
                to_pixel: q,
                value: level,
            });
        }
    }

    // Tells the pixel at `x` and `y`, where it is wanted, unless it is one of the tile's own.
    #[inline(always)]
    fn push_if(&self, wanted: bool, own: bool, value: u16, x: u32, y: u32, out: &mut Inbox)
        requires ready { CanTell self.now out.old 1 }
        requires at { IsTrue wanted → IsInside self.now.tiling.width self.now.tiling.height (record { x = x; y = y }) }
        requires near { IsNear self.now.rect (record { x = x; y = y }) }
        requires own { IsTrue wanted → (IsTrue own ↔ IsInRect self.now.rect (record { x = x; y = y })) }
        ensures { AddsWithin out.old out.new (told_to self.now value (pixel_if wanted x y)) 1 }
    {
        if wanted && !own {
            self.push_outer(value, Pixel { x, y }, out);
        }
    }

    // Tells the pixels at `x`, a column of the tile, to its left and to its right in row `y`, where the row is wanted.
    #[inline(always)]
    fn push_row(&self, wanted: bool, value: u16, x: u32, y: u32, out: &mut Inbox)
        requires ready { CanTell self.now out.old 3 }
        requires column { x < self.now.tiling.width }
        requires row { IsTrue wanted → y < self.now.tiling.height }
        requires own_column { (self.now.rect.x ≤ x) × (x < self.now.rect.x + self.now.rect.w) }
        requires near_row { (self.now.rect.y ≤ y + 1) × (y ≤ self.now.rect.y + self.now.rect.h) }
        ensures { AddsWithin out.old out.new (told_to self.now value (row_if self.now wanted x y)) 3 }
    {
        if !wanted {
            return;
        }
        let (left, right) = (x.saturating_sub(1), x + 1);
        let at_right = right < self.tiling.width();
        self.push_if(x > 0, self.is_own(left, y), value, left, y, out);
        self.push_if(true, self.is_own(x, y), value, x, y, out);
        self.push_if(at_right, self.is_own(right, y), value, right, y, out);
    }

    // Tells the neighbours of the pixel of the tile at `x` and `y`, of this value, if it has eight.
    fn push_eight(&self, value: u16, x: u32, y: u32, out: &mut Inbox)
        requires ready { CanTell self.now out.old 8 }
        requires own { IsInRect self.now.rect (record { x = x; y = y }) }
        ensures { AddsWithin out.old out.new (told_to self.now value (around self.now Eight x y)) 8 }
    {
        let own = self.rect;
        let right = x + 1 < self.tiling.width();
        let below = y + 1 < self.tiling.height();
        self.push_row(y > 0, value, x, y.saturating_sub(1), out);
        self.push_if(x > 0, x > own.x, value, x.saturating_sub(1), y, out);
        self.push_if(right, x + 1 < own.x + own.w, value, x + 1, y, out);
        self.push_row(below, value, x, y + 1, out);
    }

    // And if it has four. Each of those lies in the tile, unless the pixel lies at the edge towards it.
    #[inline(always)]
    fn push_four(&self, value: u16, x: u32, y: u32, out: &mut Inbox)
        requires ready { CanTell self.now out.old 8 }
        requires own { IsInRect self.now.rect (record { x = x; y = y }) }
        ensures { AddsWithin out.old out.new (told_to self.now value (around self.now Four x y)) 8 }
    {
        let own = self.rect;
        let right = x + 1 < self.tiling.width();
        let below = y + 1 < self.tiling.height();
        self.push_if(y > 0, y > own.y, value, x, y.saturating_sub(1), out);
        self.push_if(x > 0, x > own.x, value, x.saturating_sub(1), y, out);
        self.push_if(right, x + 1 < own.x + own.w, value, x + 1, y, out);
        self.push_if(below, y + 1 < own.y + own.h, value, x, y + 1, out);
    }

    // Tells the neighbours of the pixel of the tile at `x` and `y`.
    #[inline(always)]
    fn push_from(&self, x: u32, y: u32, out: &mut Inbox)
        requires ready { CanTell self.now out.old 8 }
        requires own { IsInRect self.now.rect (record { x = x; y = y }) }
        ensures { AddsWithin out.old out.new (hints_from (sender_of self.now) (record { x = x; y = y })) 8 }
    {
        let value = self.value(Pixel { x, y });
        if value == 0 {
            return;
        }
        match self.conn {
            Conn::Four => self.push_four(value, x, y, out),
            Conn::Eight => self.push_eight(value, x, y, out),
        }
    }

    // Tells the neighbours of the pixel of the tile at `x` and `y`, where its column lies within the bounds.
    #[inline(always)]
    fn push_within(&self, x: u32, y: u32, out: &mut Inbox)
        requires ready { CanTell self.now out.old 8 }
        requires own { IsInRect self.now.rect (record { x = x; y = y }) }
        ensures { AddsWithin out.old out.new (hints_from (sender_of self.now) (record { x = x; y = y })) 8 }
    {
        neighbours_by_rows();
        if self.bounds.left <= x && x < self.bounds.right {
            self.push_from(x, y, out);
        }
    }

    // Tells the neighbours of all pixels of a row of the tile. Those outside the bounds have none to tell.
    fn push_line(&self, y: u32, out: &mut Inbox)
        requires ready { CanTell self.now out.old (8 * self.now.rect.w) }
        requires row { (self.now.rect.y ≤ y) × (y < self.now.rect.y + self.now.rect.h) }
        ensures { AddsWithin out.old out.new (hints_of_row self.now y) (8 * self.now.rect.w) }
    {
        neighbours_by_rows();
        for x in self.bounds.left..self.bounds.right {
            self.push_from(x, y, out);
        }
    }

    // Tells the neighbours of the first and the last pixel of a row of the tile that is neither the first nor the
    // last: those of the others lie in the tile.
    fn push_ends(&self, y: u32, out: &mut Inbox)
        requires ready { CanTell self.now out.old 16 }
        requires between { (self.now.rect.y < y) × (y + 1 < self.now.rect.y + self.now.rect.h) }
        ensures { AddsWithin out.old out.new (hints_of_row self.now y) 16 }
    {
        neighbours_by_rows();
        let last = self.rect.w - 1;
        self.push_within(self.rect.x, y, out);
        if last > 0 {
            self.push_within(self.rect.x + last, y, out);
        }
    }

    // Tells the neighbours of all pixels of the tile. Rows outside the bounds have none to tell.
    pub fn push_all(&self, out: &mut Inbox)
        requires { CanTell self.now out.old (16 * self.now.rect.w + 16 * self.now.rect.h) }
        ensures { Adds out.old out.new (hints_of_all self.now) }
    {
        neighbours_by_rows();
        let last = self.rect.y + (self.rect.h - 1);
        for y in self.bounds.top..self.bounds.bottom {
            if y == self.rect.y || y == last {
                self.push_line(y, out);
            } else {
                self.push_ends(y, out);
            }
        }
    }
}
