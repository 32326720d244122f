//! Want of memory for hints.

ghost use Rattle.std.specs.Prelude.{◌≡◌, codes};
ghost use Rattle.border_queues.specs.declared.error.QueueError.TheVariants as errors;

use std::alloc::{AllocError, AllocFailed};
use thiserror::Error;

/// Why a queue did not grow.
#[derive(Clone, Copy, Debug, PartialEq, Eq, Error)]
pub enum QueueError {
    /// Q1: out of memory.
    #[error("Q1: out of memory")]
    Memory,
}

impl QueueError {
    /// The code, as `Q1`.
    pub fn code(self) -> &'static str
        ensures { result.now ≡ codes "Q1" }
    {
        "Q1"
    }
}

impl From<AllocError> for QueueError {
    ghost from_gives = { λ _ e. e ≡ errors.Memory };

    fn from(_e: AllocError) -> QueueError {
        QueueError::Memory
    }
}

impl<T: Drop> From<AllocFailed<T>> for QueueError {
    ghost from_gives = { λ _ e. e ≡ errors.Memory };

    fn from(_e: AllocFailed<T>) -> QueueError {
        QueueError::Memory
    }
}
