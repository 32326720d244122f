#![tactic(auto)]
//! Views of one greyscale image: what strokes show on it, its holes filled, its domes cut down, its regional maxima.
//!
//! - [`reconstruction`] is what grows on the image, the mask, from the marker of seed strokes (Vincent, "Morphological
//!   Grayscale Reconstruction in Image Analysis", 1993).
//! - [`fill`] raises each pixel to the least level at which it escapes to the border of the image: a dark spot that
//!   brighter pixels enclose is filled up to the lowest of the ways out (Soille, "Morphological Image Analysis").
//! - [`h_maxima`] is the reconstruction of the image from the image less `h`: each dome loses up to `h` at its top
//!   (Vincent 1993).
//! - [`regional_maxima`] is 1 on each plateau that strictly lower pixels surround, and 0 elsewhere (Vincent 1993).
//!
//! ```text
//! // 1 4 3 5 1, maxval 9
//! h_maxima(&OneThread, alloc, &image, 2, Conn::Four)?;        // 1 3 3 3 1, maxval 9
//! regional_maxima(&OneThread, alloc, &image, Conn::Four)?;    // 0 1 0 1 0, maxval 1
//! fill(&OneThread, alloc, &image, Conn::Four)?;               // 1 4 3 5 1: in one row each pixel lies on the border
//! ```
//!
//! Each grows by a [`Grower`](raster_sweeps::Grower), in one thread or in several. It takes the memory of at most one
//! grid beside the image that it gives back, and the room of growing. Want of memory is its one error.
//!
//! Read on: `specs/Shown.antt`, `specs/Holes.antt`, `specs/HMaxima.antt` and `specs/Plateaus.antt` say what the views
//! are. They are computed by growing (`raster_sweeps`), each in a way of its own that its module tells.

mod holes;
pub mod laws;
mod maxima;
mod plateaus;
mod shown;

pub use holes::{fill, into_filled};
pub use maxima::h_maxima;
pub use plateaus::regional_maxima;
pub use shown::{reconstruction, reconstruction_in};
