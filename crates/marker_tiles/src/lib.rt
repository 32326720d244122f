#![tactic(auto)]

//! Markers: what the live strokes of a state say about the pixels of a mask.
//!
//! The marker of a mask and a state is, at each pixel, the lesser of the mask and of the greatest level of a
//! live stroke that covers the pixel, and 0 where none does. A reconstruction grows from the marker under the
//! mask. [`Markers`] keeps it up to date while the state changes:
//!
//! ```text
//! let mask = Grid::new(alloc, 5, 5, 9)?;
//! let mut state = State::empty(alloc)?;
//! let mut markers = Markers::new(alloc, &mask, &Tiling::new(5, 5, 8)?)?;
//! let delta = State::placed(alloc, Tag(1), Stroke::disc(5, 2, 2, 2)?)?;
//! let change = state.merge(alloc, &delta)?;
//! markers.apply(&state, &change);              // 5 on the 13 pixels of the disc, 0 on the others
//! markers.at(Pixel { x: 2, y: 0 });            // 5
//! ```
//!
//! An [`apply`](Markers::apply) takes no memory, and looks at the pixels of the strokes that were born or died,
//! and, where one died, at each live stroke, once for each of at most 16 windows round the dead ones. Where 256 or
//! more were born at once, it cuts the image into blocks: what single discs cover whole it paints once. [`marker`]
//! makes the marker of a state anew. Want of memory is told as a [`MarkersError`], whose code is K1.
//!
//! Read on in `specs/Marker.antt`, which says what the marker is; in [`laws`]: there is exactly one, and it is at
//! most the mask; in `specs/Kept.antt` for what a kept marker is and what it may be told of; and then at
//! [`Markers`].

mod blocks;
mod brush;
mod error;
mod from_state;
pub mod laws;
mod many;
mod mask_and_marker;
mod paint;
mod renew;
mod strokes;
mod window;
mod windows;

pub use error::MarkersError;
pub use from_state::{marker, marker_over};
pub use mask_and_marker::Markers;
