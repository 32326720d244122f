#![tactic(auto)]
//! Images that are kept in tiles, which are lent and put in without a copy.
//!
//! Who keeps an image and has its tiles grown elsewhere gives away the pixels of a tile, and takes back what they grew
//! to. A [`TiledImage`] has, over its rows of values, the parts of tiles as images by themselves. They are shared:
//!
//! ```text
//! let tiling = Tiling::new(100, 80, 64)?;               // four tiles, of which three are cut
//! let rows = Grid::new(alloc, 100, 80, 7)?;
//! let mut image = TiledImage::new(alloc, tiling, rows)?;
//! let part = image.share(alloc, 1)?;                    // 36 columns and 64 rows, cut out once
//! image.put(1, grown, &rim);                            // an image of this size and its rim, taken over as it is
//! image.set(Pixel { x: 99, y: 0 }, 9);                  // on the rim of tile 1, and written there alone at first
//! image.rows();                                         // parts and rims, written into the rows
//! ```
//!
//! A tile is compared with a piece of its size ([`TiledImage::is_part`], [`TiledImage::bounds_above`]) and raised by it
//! ([`TiledImage::raised_part`]) where it stands, and a merge renews the image with all that a core keeps
//! ([`TiledImage::renew`]). The pixels around a tile are read from [`Rims`], the first and last rows and columns of the
//! tiles, which an image has of itself, and which can be had of another one too.
//!
//! The crate `tiled_core` keeps a replica over such an image.
//!
//! Read on in `specs/TiledImage.antt`, which says which image is kept; in `specs/RaisedTiles.antt` for pixels on the
//! rim of a tile, which are written there alone at first; in `specs/Shown.antt` for what shows a part of an image; and
//! in `specs/Ring.antt` for the pixels around a tile, which are read from the rims of `specs/Rims.antt`.

mod copies;
mod folding;
mod image;
mod keeping;
mod rims;
mod shared_copies;
mod tile_parts;
mod updating;

pub use image::{TiledImage, around_of};
pub use rims::{Edge, Rims};
