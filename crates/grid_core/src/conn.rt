//! Which pixels are neighbours.

/// Which pixels are neighbours.
#[derive(Clone, Copy, Debug, PartialEq, Eq)]
pub enum Conn {
    /// The four pixels that share an edge.
    Four,
    /// The eight pixels that share an edge or a corner.
    Eight,
}
