#![tactic(auto)]
//! Rows of pixels, as slices of equal length, and queues of cells: what the scans of growing do to one row after
//! another (Vincent, "Morphological Grayscale Reconstruction in Image Analysis", 1993).
//!
//! A row has a mask, above which none of its pixels rises. [`raise_cells_by`] raises a row by one that touches it,
//! [`raise_from_left`] and [`raise_from_right`] along itself. [`is_closed_to`] and [`is_closed_along`] say whether none
//! of its pixels can still raise another. [`queue_to`] and [`queue_aslant`] put those that can into a [`Waiting`], the
//! queue of the cells whose neighbours are still to be raised.
//!
//! A pass over a row with the row beside it becomes vector code, and so does one along the row itself, where there is a
//! cell to raise, a strip at a time.

mod lists;
mod row_queues;
mod row_raises;
mod rows;
mod waiting;

pub use row_queues::{queue_aslant, queue_to};
pub use row_raises::{raise_cells_by, raise_from_left, raise_from_right};
pub use rows::{greatest, is_closed_along, is_closed_to};
pub use waiting::{Waiting, strip_of};
