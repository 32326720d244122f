use stroke_lattice::Delta;

/// One event of a world. Replicas, packets and results are numbered over the whole world, from 0.
#[derive(Drop)]
pub enum Event {
    /// The delta is merged into the replica's core.
    Edit(usize, Delta),
    /// The frame of this piece of the replica's strokes is sent: it is the next packet.
    Send(usize, usize),
    /// This packet comes to the replica, and its delta is merged into the core.
    Deliver(usize, usize),
    /// The replica's tile is taken. A job that this gives is swept at once, and kept as the next result.
    Take(usize, usize),
    /// A copy of this result is given back to the replica.
    Return(usize, usize),
    /// The job of this result is abandoned at the replica.
    Abandon(usize, usize),
    /// At the replica, the hint at this place of this tile's inbox is handed over.
    Hand(usize, usize, usize),
}
