//! What is left of a studio.

use crate::keeper::Keeper;
use core_dispatch::{CloseError, PenEnd, Refusal};
use reset_core::Core;

/// What a closed studio leaves.
#[derive(Drop)]
pub struct Closed {
    /// The core, with each edit of each pen taken.
    pub core: Core,
    /// The edits that were taken and not merged, in the order in which they were taken.
    pub refusals: Vec<Refusal>,
}

/// A studio that was not closed. Nothing of it is lost: it can be closed later, or ended.
pub struct NotClosed {
    /// The keeper.
    pub keeper: Keeper,
    /// The ends of pens that were given.
    pub ends: Vec<PenEnd>,
    /// Why.
    pub why: CloseError,
}
