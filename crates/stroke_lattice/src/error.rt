//! Why a state is not made or not changed.

ghost use Rattle.std.specs.Prelude.{◌≡◌};
ghost use Rattle.stroke_lattice.specs.declared.error.StateError.TheVariants as errors;
ghost use Rattle.stroke_lattice.specs.Code.{code_of};

use grid_core::Memory;
use std::alloc::{AllocError, AllocFailed};
use stroke_core::{Stroke, Tag};
use thiserror::Error;

/// Why a state is not made or not changed.
#[derive(Clone, Copy, Debug, PartialEq, Eq, Error)]
pub enum StateError {
    /// L1: the two states give this tag different strokes.
    #[error("L1: two strokes have one tag")]
    Conflict(Tag),
    /// L2: out of memory.
    #[error("L2: out of memory")]
    Memory,
}

impl StateError {
    /// The code: "L1" or "L2".
    pub fn code(self) -> &'static str
        ensures { result.now ≡ code_of self }
    {
        match self {
            StateError::Conflict(_) => "L1",
            StateError::Memory => "L2",
        }
    }
}

impl From<AllocError> for StateError {
    ghost from_gives = { λ _ e. e ≡ errors.Memory };

    fn from(_e: AllocError) -> StateError {
        StateError::Memory
    }
}

impl<T: Drop> From<AllocFailed<T>> for StateError {
    ghost from_gives = { λ _ e. e ≡ errors.Memory };

    fn from(_e: AllocFailed<T>) -> StateError {
        StateError::Memory
    }
}

impl From<Memory> for StateError {
    ghost from_gives = { λ _ e. e ≡ errors.Memory };

    fn from(_e: Memory) -> StateError {
        StateError::Memory
    }
}

/// A stroke that was not taken, handed back, with the reason.
#[derive(Debug, Drop, Error)]
#[error("{why}")]
pub struct RefusedStroke {
    /// L2.
    pub why: StateError,
    /// The stroke as it was given.
    pub stroke: Stroke,
}
