//! Hints.

use grid_core::Pixel;

/// What a tile tells a pixel beyond its border: that it may rise to this value.
#[derive(Clone, Copy, Debug, PartialEq, Eq)]
pub struct Hint {
    /// The tile that tells.
    pub from: usize,
    /// That tile's generation when it told.
    pub from_generation: u64,
    /// The pixel of the image that may rise.
    pub to_pixel: Pixel,
    /// The level that it may rise to.
    pub value: u16,
}
