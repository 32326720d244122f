//! What hands report and answer.

use tile_generations::{Swept, Ticket};

/// What came of a job.
#[derive(Drop)]
pub enum Report {
    /// It was swept. The result carries the ticket, connectivity, base and mask of the job.
    Done(Swept),
    /// There was no memory to sweep the job of this ticket, and the job is gone.
    Failed(Ticket),
}

/// What a hand did in one turn.
#[derive(Clone, Copy, Debug, PartialEq, Eq)]
pub enum Turn {
    /// The job of this ticket was got and swept, and its report was sent. No report is held.
    Worked(Ticket),
    /// No job was got: none was there, or just then another hand got one. No report is held.
    Idle,
    /// A report is held at the end, since no place in the ring was seen to be free: the one that was held before, and
    /// then no job was got, or that of a job which was got in this turn. It never comes before the hand sent 64
    /// reports.
    RingFull,
    /// The job of this ticket was got, there was no memory to sweep it, and that was reported. No report is held.
    Failed(Ticket),
}
