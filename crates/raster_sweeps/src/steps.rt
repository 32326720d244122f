//! The steps of which growing is made, on whole rows of cells, for a caller that grows some of the rows by themselves.

pub use crate::growth::{close, grow_rows_from_bounds};
pub use crate::open_pairs::{queue_downward, queue_row};
pub use crate::raising::drain;
pub use crate::scans::{raise_row, raise_row_along, scan_down, scan_up};
pub use crate::size::{Size, row_in};
pub use row_scans::{Waiting, is_closed_to};
