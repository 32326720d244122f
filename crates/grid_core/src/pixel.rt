//! Pixels.

/// A pixel: its column `x` from the left and its row `y` from the top, both from 0.
#[derive(Clone, Copy, Debug, PartialEq, Eq)]
pub struct Pixel {
    pub x: u32,
    pub y: u32,
}
