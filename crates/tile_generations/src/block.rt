//! Memory that one sweep after another writes into.

use crate::rim::Rim;
use grid_core::Grid;
use std::sync::Arc;

/// Pixels and a rim that nobody looks at any more. A sweep writes into them, and takes no memory for its own
/// ([`Job::with_block`](crate::Job::with_block)). Their values tell nothing.
#[derive(Debug, Drop)]
pub struct Block {
    pub(crate) pixels: Arc<Grid>,
    pub(crate) rim: Rim,
}

impl Block {
    /// The pixels, where nobody else holds them, and the rim.
    pub(crate) fn into_parts(self) -> (Option<Grid>, Option<Rim>) {
        let Block { pixels, rim } = self;
        (Arc::try_unwrap(pixels).ok(), Some(rim))
    }
}
