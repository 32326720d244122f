#![tactic(auto)]
//! Jobs on tiles, and the generations by which late results are known.
//!
//! A [`Job`] is what a hand needs to sweep a tile of an image by itself: the tile's pixels, its mask and the
//! connectivity. [`Job::sweep`] raises the pixels to the reconstruction of the mask from them (Vincent, "Morphological
//! Grayscale Reconstruction in Image Analysis", 1993), and answers a [`Swept`]. Jobs and results own what they hold,
//! alone or with others, so that a tile can be swept elsewhere and given back late. The mask of a tile is cut out once,
//! and all jobs on the tile share it: [`TileMasks`]. Who keeps an image in tiles lends the pixels of one to its job
//! ([`Job::shared`]), and takes over those that a sweep gave ([`Swept::shared_pixels`]), without a copy. A [`Rim`] has
//! the values of the rows and columns at their border, for who reads no more of them ([`Swept::rim`]). Once a result was
//! given back, the memory that nobody looks at any more is a [`Block`], which another job may have for its sweep.
//!
//! Each carries a [`Ticket`]: the tile, its generation and a serial. [`Generations`] counts for each tile how often it
//! was reset, so that a result from before a reset is known by its generation.
//!
//! Read on in `specs/Jobs.antt`, which says what a swept tile is, in `specs/Rims.antt` and in `specs/Generations.antt`.

mod block;
mod generations;
mod job;
mod pixels;
mod rim;
mod swept;
mod ticket;
mod tile_masks;

pub use block::Block;
pub use generations::{Generations, GenerationsSpent, MAX_GENERATION};
pub use job::Job;
pub use rim::Rim;
pub use swept::Swept;
pub use ticket::Ticket;
pub use tile_masks::TileMasks;
