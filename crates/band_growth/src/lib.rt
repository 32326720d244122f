#![tactic(auto)]
//! Growing by threads: the reconstruction by dilation of a mask from a marker, each band of rows by a thread of its own
//! (Vincent, "Morphological Grayscale Reconstruction in Image Analysis", 1993).
//!
//! The marker has to be at most the mask, pixel by pixel. [`grow_on`] gives the image that `grow` of `raster_sweeps`
//! gives, whatever the number of threads:
//!
//! ```text
//! let mask = Grid::from_cells(5, 1, [3, 5, 2, 5, 4].to_vec(alloc)?);
//! let marker = Grid::from_cells(5, 1, [0, 5, 0, 0, 0].to_vec(alloc)?);
//! let image = grow_on(&rt, alloc, &mask, &marker, Conn::Four, 4)?;   // the cells are 3 5 2 2 2
//! ```
//!
//! The rows are cut in two, and each half again, into 2, 4 or 8 bands and no more than there are threads. A band is
//! grown as an image by itself, by the two scans and the queue of that paper. What two halves give lies between the
//! marker and the reconstruction, so both have the same reconstruction, and what can still be raised lies across the
//! cut ([`laws`]): from there a queue spreads into both halves. Where much is open, the two scans run on from the cut
//! first. Bands that get brighter from row to row have the first scan by themselves, and the second one together.
//!
//! [`grow_in_place_on`] does the same to an image that is there already. All memory is taken before a cell rises. A
//! thread that cannot start is no error: its band is then grown by the thread that wanted to start it. [`ManyThreads`]
//! is a `Grower` that grows so, for those above, who need not know how many threads it takes.
//!
//! Read on in `raster_sweeps`, whose `steps` are used here, and then at [`laws`].

mod band;
mod bands;
mod grower;
mod growth;
pub mod laws;
mod limits;
mod seam;

pub use grower::{ManyThreads, Shared};
pub use growth::{grow_in_bands, grow_in_place_on, grow_on};
