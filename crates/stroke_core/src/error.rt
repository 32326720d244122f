ghost use Rattle.std.specs.Prelude.{◌≡◌};
ghost use Rattle.stroke_core.specs.Code.{code_of};
ghost use Rattle.stroke_core.specs.declared.error.StrokeError.TheVariants as errors;

use crate::run::Run;
use std::alloc::{AllocError, AllocFailed};
use thiserror::Error;

/// Why a stroke, or the text of a tag, is refused.
#[derive(Clone, Copy, Debug, PartialEq, Eq, Error)]
pub enum StrokeError {
    /// S1: the level is not 1 to 65535.
    #[error("S1: the level is not 1 to 65535")]
    BadLevel,
    /// S2: there are no runs.
    #[error("S2: there are no runs")]
    NoRuns,
    /// S3: there are more than 160 runs.
    #[error("S3: there are more than 160 runs")]
    TooManyRuns,
    /// S4: a run ends before it starts, or is not in order with the run before it.
    #[error("S4: the runs are not in order")]
    RunOrder,
    /// S5: the text is no UUID.
    #[error("S5: the text is no UUID")]
    BadTag,
    /// S6: out of memory.
    #[error("S6: out of memory")]
    Memory,
    /// S7: the radius of a disc is above 255.
    #[error("S7: the radius is above 255")]
    BadRadius,
    /// S8: a kind that is neither runs nor a disc. No call of this crate answers it.
    #[error("S8: the kind is neither runs nor a disc")]
    BadKind,
}

impl StrokeError {
    /// The code, as `S4`.
    pub fn code(self) -> &'static str
        ensures { result.now ≡ code_of self }
    {
        match self {
            StrokeError::BadLevel => "S1",
            StrokeError::NoRuns => "S2",
            StrokeError::TooManyRuns => "S3",
            StrokeError::RunOrder => "S4",
            StrokeError::BadTag => "S5",
            StrokeError::Memory => "S6",
            StrokeError::BadRadius => "S7",
            StrokeError::BadKind => "S8",
        }
    }
}

impl From<AllocError> for StrokeError {
    ghost from_gives = { λ _ e. e ≡ errors.Memory };

    fn from(_e: AllocError) -> StrokeError {
        StrokeError::Memory
    }
}

impl<T: Drop> From<AllocFailed<T>> for StrokeError {
    ghost from_gives = { λ _ e. e ≡ errors.Memory };

    fn from(_e: AllocFailed<T>) -> StrokeError {
        StrokeError::Memory
    }
}

/// Runs that make no stroke, handed back, with the reason.
#[derive(Debug, Drop, Error)]
#[error("{why}")]
pub struct RefusedRuns {
    /// S1 to S4.
    pub why: StrokeError,
    /// The runs as they were given.
    pub runs: Vec<Run>,
}
