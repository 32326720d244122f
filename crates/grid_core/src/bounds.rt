//! Bounding boxes of pixels.

ghost use Rattle.std.specs.Prelude.{◌≡◌, ◌+◌, ◌<◌, ◌≤◌, ◌↔◌, IsTrue};
ghost use Rattle.grid_core.specs.Bounds.{AreEmpty, IsInBounds, bounds_at, bounds_of, intersection, joined, no_bounds};
ghost use Rattle.grid_core.specs.Bounds.{rect_within, wider};

use crate::pixel::Pixel;
use crate::rect::Rect;

/// A bounding box of some pixels: columns `left` to before `right`, and rows `top` to before `bottom`.
#[derive(Clone, Copy, Debug, PartialEq, Eq)]
pub struct Bounds {
    pub left: u32,
    pub right: u32,
    pub top: u32,
    pub bottom: u32,
}

impl Bounds {
    /// The bounds of no pixel.
    pub fn none() -> Bounds
        ensures { result ≡ no_bounds }
    {
        Bounds {
            left: u32::MAX,
            right: 0,
            top: u32::MAX,
            bottom: 0,
        }
    }

    /// The bounds of the pixels of a rectangle.
    pub fn of(rect: Rect) -> Bounds
        requires columns { rect.x + rect.w < 4294967296 }
        requires rows { rect.y + rect.h < 4294967296 }
        ensures { result ≡ bounds_of rect }
    {
        Bounds {
            left: rect.x,
            right: rect.x + rect.w,
            top: rect.y,
            bottom: rect.y + rect.h,
        }
    }

    /// Whether no pixel lies within the bounds.
    pub fn is_empty(&self) -> bool
        ensures { IsTrue result ↔ AreEmpty self.now }
    {
        self.left >= self.right || self.top >= self.bottom
    }

    /// Whether a pixel lies within the bounds.
    pub fn contains(&self, p: Pixel) -> bool
        ensures { IsTrue result ↔ IsInBounds self.now p }
    {
        self.left <= p.x && p.x < self.right && self.top <= p.y && p.y < self.bottom
    }

    /// The least bounds within which lie these and those.
    pub fn joined(self, other: Bounds) -> Bounds
        ensures { result ≡ joined self other }
    {
        Bounds {
            left: self.left.min(other.left),
            right: self.right.max(other.right),
            top: self.top.min(other.top),
            bottom: self.bottom.max(other.bottom),
        }
    }

    /// The bounds within which lie the pixels that lie within both.
    pub fn intersection(self, other: Bounds) -> Bounds
        ensures { result ≡ intersection self other }
    {
        Bounds {
            left: self.left.max(other.left),
            right: self.right.min(other.right),
            top: self.top.max(other.top),
            bottom: self.bottom.min(other.bottom),
        }
    }

    /// The bounds with one more column and row on each side, but none left of the first or above it.
    pub fn wider(self) -> Bounds
        requires columns { self.right + 1 < 4294967296 }
        requires rows { self.bottom + 1 < 4294967296 }
        ensures { result ≡ wider self }
    {
        Bounds {
            left: self.left.saturating_sub(1),
            right: self.right + 1,
            top: self.top.saturating_sub(1),
            bottom: self.bottom + 1,
        }
    }

    /// The rectangle of the pixels within the bounds.
    pub fn rect(self) -> Rect
        requires columns { self.left ≤ self.right }
        requires rows { self.top ≤ self.bottom }
        ensures { result ≡ rect_within self }
    {
        Rect {
            x: self.left,
            y: self.top,
            w: self.right - self.left,
            h: self.bottom - self.top,
        }
    }

    /// The least bounds within which lie these and a pixel.
    #[inline(always)]
    pub fn including(self, p: Pixel) -> Bounds
        requires column { p.x + 1 < 4294967296 }
        requires row { p.y + 1 < 4294967296 }
        ensures { result ≡ joined self (bounds_at p) }
    {
        self.joined(Bounds {
            left: p.x,
            right: p.x + 1,
            top: p.y,
            bottom: p.y + 1,
        })
    }
}
