//! Where hands pass on their way to a job.

use tile_generations::Ticket;

/// What a hand passes once it has got a job, before it sweeps that. A gate may hold a hand up for a while, but has to
/// let it go by itself. Hands may share one.
pub trait Gate {
    /// A hand passes with the job of this ticket.
    fn pass(&self, ticket: Ticket);
}

/// The gate that holds nobody.
pub struct Open;

impl Gate for Open {
    fn pass(&self, _ticket: Ticket) {}
}
