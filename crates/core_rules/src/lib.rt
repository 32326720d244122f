#![tactic(auto)]
//! The rules of one replica's core: what a core is, what can happen to it, and the laws of that. No core is kept here:
//! whoever keeps one (the crate `reset_core`) has contracts that cite these definitions.
//!
//! What a core is stands in `specs/Work.antt`. What can happen to it, what each event answers and what the core is
//! then, is one table, in `specs/Events.antt`, over `specs/Merge.antt`, `specs/Sweeps.antt` and `specs/Hints.antt`;
//! which tiles a withdrawal resets stands in `specs/Hits.antt`. What every core keeps is `IsSound` in
//! `specs/Invariant.antt`: the image is supported by the strokes, the waiting hints are valid, and each pair of
//! neighbours that is still open has work. Lists of events, settling among them, stand in `specs/Runs.antt`, and
//! schedules in `specs/Schedule.antt`. How much work there is, and how much of it a run takes, stands in
//! `specs/Counting.antt`.
//!
//! [`laws`] says what follows: each event has one answer, and keeps a core sound; and where a sound core is quiet, its
//! image is the reconstruction (Vincent, "Morphological Grayscale Reconstruction in Image Analysis", 1993). A run
//! without merges takes no more jobs than there is work.
//!
//! In Rust there are the words in which events are told: steps of a schedule, answers, and refusals.

mod answers;
mod error;
pub mod laws;
mod step;

pub use answers::{Back, Handed};
pub use error::CoreError;
pub use step::Step;
