//! The steps of schedules.

use stroke_lattice::Delta;

/// One step of a schedule. Each take that gives a job is swept at once, and kept as the next result, counted from 0.
#[derive(Drop)]
pub enum Step {
    /// Merges the delta.
    Edit(Delta),
    /// Takes the tile.
    Take(usize),
    /// Gives back a copy of this result.
    Return(usize),
    /// Abandons the job of this result.
    Abandon(usize),
    /// Hands over the hint at this place of this tile's inbox.
    Hand(usize, usize),
}
