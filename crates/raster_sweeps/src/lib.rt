#![tactic(auto)]
//! Growing: the reconstruction by dilation of a mask from a marker (Vincent, "Morphological Grayscale
//! Reconstruction in Image Analysis", 1993).
//!
//! The marker has to be at most the mask, pixel by pixel. Its levels spread from neighbour to neighbour, as far
//! as the mask lets them. [`grow`] makes the reconstruction:
//!
//! ```text
//! let mask = Grid::from_cells(5, 1, [3, 5, 2, 5, 4].to_vec(alloc)?);
//! let marker = Grid::from_cells(5, 1, [0, 5, 0, 0, 0].to_vec(alloc)?);
//! let image = grow(alloc, &mask, &marker, Conn::Four)?;   // the cells are 3 5 2 2 2
//! is_closed(&mask, &image, Conn::Four);                   // true: no pixel can raise a neighbour further
//! ```
//!
//! It has the hybrid form of that paper: a raster scan raises each row by the one above it, an anti-raster scan by the
//! one below it, each then along the row both ways, and what can then still be raised goes through a queue, a list for
//! each strip of 32 rows. Where a list is full, it goes back to the scans. A corridor that leads up or down is followed
//! without the queue.
//!
//! [`grow_in_place`] does the same to an image that is there already, and [`grow_within`] inside a rectangle of one,
//! where it leaves every pixel outside as it was. That takes no memory: the caller lends it a [`Room`], and may use
//! that again. [`steps::grow_rows_from_bounds`] looks only within bounds, where no pixel outside of them can raise a
//! neighbour.
//!
//! A [`Grower`] is what grows a whole image for those above, who need not know how many threads it takes. It also makes
//! memory for images while something else is done ([`Blanks`]).
//!
//! [`steps`] has what these are made of, on whole rows of cells, which can be given away.
//!
//! [`slow`] floods one threshold after another, as the definition says it, and so takes time for each level. It is
//! there to compare with.
//!
//! Read on in `grid_core`: its `specs/Path.antt` says which levels a pixel reaches, its
//! `specs/Reconstruction.antt` what a reconstruction is, and its `specs/Rects.antt` what a rectangle is; and then at
//! [`grow_within`].

mod blanks;
mod closed;
mod corridors;
mod grower;
mod growth;
pub mod laws;
mod neighbourhood;
mod open_cells;
mod open_pairs;
mod raising;
mod scans;
mod size;
pub mod steps;
mod thresholds;
mod trail;

pub use blanks::Blanks;
pub use closed::is_closed;
pub use grower::{Grower, OneThread};
pub use growth::{Room, grow, grow_in_place, grow_within};
pub use thresholds::slow;
