//! What a merge does to the image and to the work at the tiles, once strokes and marker are the new ones.

mod cells;
mod raise;
mod reset;

pub use raise::raise_to_marker;
pub use reset::reset_marked;
