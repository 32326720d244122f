#![tactic(auto)]
//! A world of replicas: cores of one mask, which send each other what they know in packets, and whose tiles are swept
//! here or elsewhere, in any order.
//!
//! ```text
//! let mut world = World::open(alloc, &mask, Conn::Four, 2)?;
//! world.step(alloc, &Event::Edit(0, delta))?;      // a stroke is placed at replica 0
//! world.step(alloc, &Event::Send(0, 0))?;          // packet 0 is its first piece
//! world.step(alloc, &Event::Deliver(1, 0))?;       // replica 1 takes it
//! world.step(alloc, &Event::Take(1, 0))?;          // result 0 is tile 0 of replica 1, swept
//! world.step(alloc, &Event::Return(1, 0))?;        // and joined into its image
//! ```
//!
//! Replicas that took the same strokes and withdrawals, in any order, with repeats, and with any work between them,
//! hold equal strokes: the join of what they took. At every moment the image of each lies between the marker of its
//! strokes and the reconstruction of the mask from it (Vincent, "Morphological Grayscale Reconstruction in Image
//! Analysis", 1993); and where no work is left, it is that reconstruction. [`World::core`] and
//! [`World::replicas_agree`] have this as their contracts, and [`laws`] by itself. It holds of every world, so after
//! every list of events: packets may be lost, come late, twice or out of order, and results may come late, twice, or
//! to another replica.
//!
//! What a world is stands in `specs/World.antt`; what each event does and why one is refused in `specs/Events.antt`,
//! over the table of one core's events in the crate `core_rules`; lists of events in `specs/Runs.antt`; and what holds
//! of each replica in `specs/Headline.antt`.

mod error;
mod event;
pub mod laws;
mod packet;
mod replica;
mod world;

pub use error::WorldError;
pub use event::Event;
pub use world::{MAX_REPLICAS, World};
