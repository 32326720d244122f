//! Tickets: which job on which tile.

/// Which job it is: the tile that is to be swept, the tile's generation, and the serial of the job.
#[derive(Clone, Copy, Debug, PartialEq, Eq)]
pub struct Ticket {
    /// The tile, counted row by row from 0.
    pub tile: usize,
    /// The generation of the tile when the job was taken, at most 2^48 - 1.
    pub generation: u64,
    /// The serial of the job.
    pub serial: u64,
}
