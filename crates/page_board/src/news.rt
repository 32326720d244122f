//! News of strokes.

use stroke_lattice::Change;

/// The tags that became live at a step, and those that ceased to be.
#[derive(Debug, Drop)]
pub struct News {
    /// The step.
    pub step: u64,
    /// The tags.
    pub change: Change,
}
