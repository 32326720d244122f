//! Edits that were not merged.

use core_rules::CoreError;
use stroke_lattice::Delta;

/// An edit that was taken of a pen and not merged.
#[derive(Drop)]
pub struct Refusal {
    /// Whose edit it is. Pens count from 0.
    pub pen: usize,
    /// Which of the pen's edits it is, from 0.
    pub number: u64,
    /// Why it was refused: C1 to C4.
    pub error: CoreError,
    /// The edit.
    pub delta: Delta,
}
