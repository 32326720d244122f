#![tactic(auto)]
//! The work that is left at each tile of one replica's image: its generation, whether it is to be swept, the job of it
//! that is out, and the hints that wait; and what taking a delta does to it.
//!
//! [`WorkTable`] has a row a tile. [`TileSet`]s beside the rows say which tiles are dirty, which are out and where
//! hints wait, so that the next one is found without a walk over all tiles. [`OpenBounds`] has for each tile bounds
//! outside which no pixel can raise a neighbour.
//!
//! [`mark_hits`] finds the tiles that a withdrawal resets, before anything changes; [`is_one_spent`] says whether one
//! of them has no generation left. Once strokes and marker are the new ones, [`reset_marked`] resets the marked tiles,
//! and [`raise_to_marker`] raises the image at the others. Both widen the tiles' bounds by the pixels that may raise a
//! neighbour from then on. None of these four takes memory.

mod hits;
mod open_bounds;
mod renewing;
mod tile_set;
mod work_table;

pub use hits::{is_one_spent, mark_hits};
pub use open_bounds::OpenBounds;
pub use renewing::{raise_to_marker, reset_marked};
pub use tile_set::TileSet;
pub use work_table::WorkTable;
