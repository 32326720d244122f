//! What came of a tick.

use crate::error::NodeError;

/// What came of a poll.
#[derive(Clone, Copy, Debug, PartialEq, Eq)]
pub enum Heard {
    /// There was no datagram.
    Nothing,
    /// The strokes and tombstones of the datagram were submitted.
    Submitted,
    /// The datagram is a frame for this image, and was dropped, since no place in the pen's ring was seen to be free.
    Full,
    /// The datagram was refused: D1, D2 or D4; or the link failed: D3.
    Refused(NodeError),
}

/// What was sent.
#[derive(Clone, Copy, Debug, PartialEq, Eq)]
pub enum Sent {
    /// Nothing: the look gave no glimpse, which is counted, or the state that was seen is empty.
    Nothing,
    /// The frame of the piece of this number, from 0.
    Piece(usize),
    /// Nothing: the link failed, D3, or there was no memory, D4. The same piece is sent next.
    Refused(NodeError),
}

/// What came of a tick.
#[derive(Clone, Copy, Debug, PartialEq, Eq)]
pub struct Ticked {
    /// What came of the poll.
    pub heard: Heard,
    /// What was sent then.
    pub sent: Sent,
}
