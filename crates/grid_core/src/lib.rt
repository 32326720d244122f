#![tactic(auto)]
//! Grids of grey values, the pixels beside a pixel, tiles, and what a reconstruction is.
//!
//! A [`Grid`] has a level of 16 bits for each pixel of an image, row by row from the top. Columns and rows are
//! counted from 0. [`neighbours`] lists the pixels beside a pixel, by an edge or also by a corner:
//!
//! ```text
//! let mut image = Grid::new(alloc, 3, 2, 7)?;   // 3 columns, 2 rows, 7 at each pixel
//! let corner = Pixel { x: 2, y: 0 };
//! image.set(corner, 9);                         // the cells are 7 7 9 7 7 7
//! let beside = neighbours(3, 2, Conn::Four, corner);
//! beside.as_slice();                            // (1, 0) and (2, 1)
//! ```
//!
//! A [`Tiling`] cuts an image into square tiles, numbered row by row, and says which tile a pixel lies in, where
//! a tile lies, as a [`Rect`], and which tiles touch it.
//!
//! A size that no image may have, and want of memory, are told as a [`GridError`], whose codes are G1 to G3.
//!
//! The reconstruction of a mask from a marker is that of Vincent, "Morphological Grayscale Reconstruction in
//! Image Analysis" (1993), by thresholds, with paths of neighbouring pixels. This crate says what it is and
//! makes none.
//!
//! Read on in `specs/Raster.antt`, which says what an image is and which sides it may have; in
//! `specs/Neighbours.antt`, `specs/Path.antt` and `specs/Reconstruction.antt`, in this order, for what a
//! reconstruction is, and in `specs/Owed.antt` for how much an image still lacks of it; in `specs/Rects.antt` and
//! `specs/Tiles.antt` for rectangles and tiles; and in [`laws`] for what growing methods rest on.

mod bounds;
mod conn;
mod grid;
pub mod laws;
mod memory;
mod neighbourhood;
mod pixel;
mod rect;
mod tiling;

pub use bounds::Bounds;
pub use conn::Conn;
pub use grid::{Grid, GridError, MAX_LEVEL, MAX_PIXELS, MAX_SIDE, is_image_size};
pub use memory::Memory;
pub use neighbourhood::{Neighbourhood, neighbours};
pub use pixel::Pixel;
pub use rect::Rect;
pub use tiling::{MAX_TILE_SIDE, MIN_TILE_SIDE, TILE_SIDE, Tiling, Touching, is_tile_side};
