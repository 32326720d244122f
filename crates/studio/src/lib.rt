#![tactic(auto)]
//! A core under running threads: pens bring edits, hands sweep tiles, eyes look, and one keeper owns the core.
//!
//! [`Studio::open`] takes a core, and gives a [`Keeper`] and, for each thread that takes part, a pen, a hand or an eye:
//!
//! ```text
//! let Studio { mut keeper, mut pens, mut hands, mut eyes } = Studio::open(&rt, alloc, core, 1, 2, 1)?;
//! pens[0].submit(delta)?;                // in the thread of who draws
//! hands[0].turn(&Open);                  // in the thread of a hand
//! keeper.take_in();                      // in the keeper's thread: edits, reports and hints
//! if keeper.is_for_bands(4) {            // where much is left, in threads beside the keeper's
//!     keeper.settle_in_bands(&rt, 4, 4096)?;
//! }
//! keeper.turn();                         // edits, reports, hints, and jobs for the hands
//! let told = keeper.show(&rt)?;          // a shot of the core as it is
//! eyes[0].learn(told);                   // in the thread of who looks
//! eyes[0].look()?.pixel(p);
//! let ends = ..;                         // of each pen, what `finish` left
//! let Closed { core, refusals } = keeper.close(&rt, ends)?;
//! ```
//!
//! The strokes of the core are at each moment those at opening, joined with each edit that was taken and not refused.
//! What turns do to it are events of the core, so its image always lies between the marker of the strokes and the
//! reconstruction, and is the reconstruction where no work is left. A shot is the core as it was at a show: no glimpse
//! goes back, and a quiet one is the reconstruction. Once a studio is closed, each edit of each pen was taken, once.
//!
//! [`Keeper::turn`], [`Keeper::take_in`], [`Keeper::recall`] and [`Keeper::abandon`] wait for nobody, and neither do
//! pens, hands and eyes. [`Keeper::settle_in_bands`] waits for the threads that it starts itself.
//! [`Studio::open`], [`Keeper::show`], [`Keeper::close`] and [`Keeper::end`] may wait for glimpses that are held.
//!
//! Shots, the publisher that shows them and the eyes that look at them stand in `shots`, and can be had without a core.
//! Read on in `specs/Keeping.antt`, which says what a keeper is and shows, in `specs/Opening.antt` and
//! `specs/Closing.antt`, and in `specs/Shots.antt` and `specs/Chains.antt`, which say what a shot and a chain are.

mod closed;
mod images;
mod keeper;
mod mirrored;
mod opening;
mod refused;
mod shots;

pub use closed::{Closed, NotClosed};
pub use keeper::Keeper;
pub use mirrored::{MirrorError, Mirrored};
pub use opening::Studio;
pub use refused::{NotOpened, OpenError};
pub use shots::{Eye, Glimpse, NoPlace, Publisher, Shot, Told, laws};
