#![tactic(auto)]
//! Hands that sweep tiles in threads of their own: each job goes to one hand at most, which reports it.
//!
//! [`Pool::open`] gives an [`Owner`] and some [`Hand`]s. The owner pushes jobs into a work stealing deque (Chase and
//! Lev, "Dynamic Circular Work-Stealing Deque", 2005), from which the hands steal them, one job a turn and the oldest
//! first. Each hand reports into a ring of its own, from which the owner collects:
//!
//! ```text
//! let Pool { mut owner, mut hands } = Pool::open(alloc, 2, 4096)?;
//! owner.push(job);             // Ok: the first 4096 pushes succeed
//! hands[0].turn(&Open);        // Worked, with the ticket of the job
//! owner.collect(0);            // Done, with the swept tile
//! ```
//!
//! The owner and each hand may stand in a thread of its own. [`Owner::push`], [`Owner::collect`] and [`Hand::turn`]
//! wait for nobody: where a hand sees no free place in its ring it holds the report, and sends it in a later turn.
//! [`Hand::run`] makes turns until it reads that a flag is set. A [`Gate`] is passed before each sweep, so that tests
//! can hold a hand up.
//!
//! What a report is good for is for the caller to judge: a result may come too late, and a job may have failed for want
//! of memory. Nothing is promised of when a job is got, by which hand, or that a report is collected.
//!
//! Read on in `specs/Views.antt`, which says what contracts see of owner and hands, and who belongs together; in
//! `specs/Deal.antt`, which says who got which job ([`pool_laws`] has what follows); and in `specs/Reports.antt`, which
//! says what is reported and what each answer of a turn means.

mod desk;
mod gate;
mod hand;
mod laws;
mod owner;
mod parcel;
mod pool;
mod report;
mod rule;

pub use gate::{Gate, Open};
pub use hand::Hand;
pub use laws::pool_laws;
pub use owner::Owner;
pub use pool::Pool;
pub use report::{Report, Turn};
