//! Rectangles of pixels.

ghost use Rattle.std.specs.Prelude.{◌↔◌, IsTrue};
ghost use Rattle.grid_core.specs.Rects.{IsInRect};

use crate::pixel::Pixel;

/// A rectangle of pixels: columns `x` to `x + w - 1` and rows `y` to `y + h - 1`.
#[derive(Clone, Copy, Debug, PartialEq, Eq)]
pub struct Rect {
    pub x: u32,
    pub y: u32,
    pub w: u32,
    pub h: u32,
}

impl Rect {
    /// Whether a pixel lies in the rectangle.
    pub fn contains(&self, p: Pixel) -> bool
        ensures { IsTrue result ↔ IsInRect self.now p }
    {
        self.x <= p.x && p.x - self.x < self.w && self.y <= p.y && p.y - self.y < self.h
    }
}
