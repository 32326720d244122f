//! Why an edit text is refused.

ghost use Rattle.std.specs.Prelude.{◌≡◌};
ghost use Rattle.edit_lang.specs.Code.{code_of};
ghost use Rattle.edit_lang.specs.declared.error.EditError.TheVariants as errors;

use std::alloc::{AllocError, AllocFailed};
use stroke_core::StrokeError;
use thiserror::Error;

/// Why an edit text is refused. Lines are counted from 1.
#[derive(Clone, Copy, Debug, PartialEq, Eq, Error)]
pub enum EditError {
    /// E1: the line of this number is no line of the language.
    #[error("E1 {0}: no such edit")]
    BadLine(u64),
    /// E2: the tag on the line of this number is no UUID.
    #[error("E2 {0}: the tag is no UUID")]
    BadTag(u64),
    /// E3: the line of this number makes no stroke, for this reason: S1, S3, S4 or S7.
    #[error("E3 {0} {1}")]
    BadStroke(u64, StrokeError),
    /// E4: out of memory.
    #[error("E4: out of memory")]
    Memory,
}

impl EditError {
    /// The code, as `E3`, without the line's number and the reason.
    pub fn code(self) -> &'static str
        ensures { result.now ≡ code_of self }
    {
        match self {
            EditError::BadLine(_) => "E1",
            EditError::BadTag(_) => "E2",
            EditError::BadStroke(_, _) => "E3",
            EditError::Memory => "E4",
        }
    }
}

impl From<AllocError> for EditError {
    ghost from_gives = { λ _ e. e ≡ errors.Memory };

    fn from(_e: AllocError) -> EditError {
        EditError::Memory
    }
}

impl<T: Drop> From<AllocFailed<T>> for EditError {
    ghost from_gives = { λ _ e. e ≡ errors.Memory };

    fn from(_e: AllocFailed<T>) -> EditError {
        EditError::Memory
    }
}
