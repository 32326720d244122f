//! What the format tells apart.

/// A version of the format.
#[derive(Clone, Copy, PartialEq, Eq, Debug)]
pub enum Version {
    /// Strokes of runs alone: magic `SPD1`.
    First,
    /// Strokes of runs and discs, each with a byte that says which: magic `SPD2`.
    Second,
}

/// What a stroke is painted on.
#[derive(Clone, Copy, PartialEq, Eq, Debug)]
pub(crate) enum Kind {
    /// Runs of pixels: kind 0.
    Runs,
    /// A disc: kind 1.
    Disc,
}
