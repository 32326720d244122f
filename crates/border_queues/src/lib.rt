#![tactic(auto)]
//! Hints: what a tile of an image tells the pixels beyond its border, and the inboxes where hints wait.
//!
//! An image J grows under a mask I tile by tile. An open edge of a tile is a pair of neighbouring pixels, p in the
//! tile and q in another, where q is lower than p can raise it: `J(q) < min(J(p), I(q))`. [`open_edges`] tells each
//! of them by a [`Hint`] to q of the value `min(J(p), I(q))`, into an [`Inbox`]:
//!
//! ```text
//! let tiling = Tiling::new(16, 8, 8)?;                  // two tiles side by side
//! let mask = Grid::new(alloc, 16, 8, 9)?;
//! let mut image = Grid::new(alloc, 16, 8, 0)?;
//! image.set(Pixel { x: 7, y: 0 }, 6);                   // at the right border of tile 0
//! let mut out = Inbox::new(alloc);
//! let bounds = Bounds::of(tiling.rect(0));              // within which each open edge of tile 0 begins
//! let (cells, limits) = (View::of(&image), View::of(&mask));
//! open_edges_in(&cells, &limits, &tiling, 0, 0, Conn::Four, bounds, &mut out)?;
//! out.as_slice();                                       // one hint: to (8, 0), of the value 6
//! ```
//!
//! Where there is no whole image, [`open_edges_around`] finds them by the pixels beside a tile and on its border.
//!
//! Want of memory is told as a [`QueueError`], whose code is Q1. An inbox with room takes no memory.
//!
//! [`HintRuns`] are the same list of hints in less memory: 8 bytes for each, and 32 for each run of one sender,
//! generation and border.
//!
//! Read on in `specs/OpenEdges.antt`, which says what an open edge is and which hints it makes; in
//! `specs/Around.antt` for the pixels beside a tile; in `specs/Waiting.antt` for inboxes; and in [`laws`]: the hints
//! are those of the open edges, in raster order.

mod border;
mod edges;
mod error;
mod hint;
mod inbox;
pub mod laws;
mod runs;
mod sides;
mod view;

pub use edges::{open_edges, open_edges_around, open_edges_in, room_for_edges};
pub use error::QueueError;
pub use hint::Hint;
pub use inbox::Inbox;
pub use runs::HintRuns;
pub use sides::{Side, Sides};
pub use view::View;
