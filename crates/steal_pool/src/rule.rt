//! The rule of the deque.

ghost use Rattle.std.specs.Prelude.{◌≡◌, ◌++◌};
ghost use Rattle.steal_pool.specs.Deal.{IsDealt, Gets, HasPushed, newcomer, view_of};

use crossbeam_deque::protocol::{Join, Lesson, Outcome, Protocol};
use std::collections::LinkedList;
use tile_generations::Job;

/// What an end of the deque knows. No value of it is made.
pub struct EndView {
    /// The jobs that it pushed.
    pub pushed: LinkedList<Job>,
    /// The jobs that it got, each with its place among the pushed.
    pub got: LinkedList<(u64, Job)>,
}

/// Each pushed job goes to one end, in order.
pub struct Deal;

impl Protocol<Job, EndView> for Deal {
    ghost holds = { IsDealt };

    ghost first = { newcomer };

    ghost guest = { newcomer };
}

/// The owner pushed jobs.
pub struct Pushed;

impl Outcome<Job, EndView> for Pushed {
    ghost then = { λ v jobs w. w ≡ view_of (v.pushed ++ jobs) v.got };
}

/// An end got one job.
pub struct Got;

impl Outcome<Job, EndView> for Got {
    ghost then = { Gets };
}

/// The owner takes in what another end got.
pub struct TakenIn;

impl Join<EndView> for TakenIn {
    ghost both = { λ v w. view_of v.pushed (v.got ++ w.got) };

    ghost spent = { newcomer };
}

/// The owner pushed each job that it took in.
pub struct OwnJobs;

impl Lesson<Job, EndView> for OwnJobs {
    ghost fact = { λ v jobs. HasPushed v };
}
