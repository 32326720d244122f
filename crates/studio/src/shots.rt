//! Shots that one thread shows, and eyes in others that look at them without waiting.
//!
//! A [`Shot`] is what a core shows of itself at a moment: mask, connectivity, strokes and image, and whether it is
//! marked as quiet. A [`Publisher`] shows one after another, and an [`Eye`] looks at the last of them:
//!
//! ```text
//! let mut publisher = Publisher::open(&rt, alloc, shot, 2)?;   // for at most two eyes
//! let mut eye = publisher.eye()?;
//! let told = publisher.show(&rt, next)?;                       // the receipt of this show
//! eye.learn(told);                                             // in whichever thread
//! let glimpse = eye.look()?;                                   // next, or a later shot
//! glimpse.pixel(p);
//! let eye = glimpse.leave();
//! ```
//!
//! The shots that were shown are a chain: they have one mask and connectivity, strokes only join, each image is lawful
//! for the shot's own strokes, and a shot that is marked as quiet is the reconstruction. A glimpse is the last shot of
//! a chain that begins with all that its eye saw or learnt: no eye sees less than it saw, or than it was told of.
//!
//! [`Eye::look`], [`Eye::learn`], [`Glimpse::leave`], [`Publisher::eye`] and [`Told::again`] wait for nobody.
//! [`Publisher::show`] and [`Publisher::close`] may wait for glimpses that are held. Nothing is promised of when an eye
//! sees a shot that it was not told of.
//!
//! A [`Told`] may be learnt by eyes of its own studio alone, which callers show.
//!
//! Two structures of the kit carry this: `left_right`, in which a writer and its readers have two copies of what is
//! published, and `logbook`, whose history of shots costs nothing when it runs. Read on in `specs/Shots.antt` and
//! `specs/Chains.antt`, which say what a shot and a chain are; in `specs/Words.antt` for the words of contracts; and in
//! `specs/History.antt` and `specs/Publishing.antt` for the two rules.

mod eye;
mod history;
pub mod laws;
mod prefix;
mod publisher;
mod rule;
mod shot;
mod shown;
mod told;
mod writing;

pub use eye::{Eye, Glimpse, NoPlace};
pub use publisher::Publisher;
pub use shot::Shot;
pub use told::Told;
