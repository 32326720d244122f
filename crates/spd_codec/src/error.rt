//! Why bytes are no frame, or a frame is not written.
ghost use Rattle.std.specs.Prelude.{◌≡◌};
ghost use Rattle.spd_codec.specs.Code.{code_of};
ghost use Rattle.spd_codec.specs.declared.error.SpdError.TheVariants as errors;

use grid_core::Memory;
use std::alloc::{AllocError, AllocFailed};
use stroke_core::StrokeError;
use thiserror::Error;

/// Why bytes are no frame, or why a frame is not written. Of bytes the first fault from the left is answered.
#[derive(Clone, Copy, Debug, PartialEq, Eq, Error)]
pub enum SpdError {
    /// M1: the bytes do not begin with a magic.
    #[error("M1: no frame")]
    BadMagic,
    /// M2: the connectivity is neither 4 nor 8.
    #[error("M2: bad connectivity")]
    BadConn,
    /// M3: the bytes end too early.
    #[error("M3: truncated")]
    Truncated,
    /// M4: a tag is not above the one before it.
    #[error("M4: the tags do not rise")]
    TagOrder,
    /// M5: a stroke is refused, for this reason: S1 to S4, S7 or S8.
    #[error("M5 {0}")]
    BadStroke(StrokeError),
    /// M6: the frame has more than [`MAX_BYTES`](crate::MAX_BYTES) bytes.
    #[error("M6: too long")]
    TooLong,
    /// M7: something follows the last tombstone.
    #[error("M7: more after the last tombstone")]
    Trailing,
    /// M8: out of memory.
    #[error("M8: out of memory")]
    Memory,
}

impl SpdError {
    /// The code, as `M5`, without the reason.
    pub fn code(self) -> &'static str
        ensures { result.now ≡ code_of self }
    {
        match self {
            SpdError::BadMagic => "M1",
            SpdError::BadConn => "M2",
            SpdError::Truncated => "M3",
            SpdError::TagOrder => "M4",
            SpdError::BadStroke(_) => "M5",
            SpdError::TooLong => "M6",
            SpdError::Trailing => "M7",
            SpdError::Memory => "M8",
        }
    }
}

impl From<AllocError> for SpdError {
    ghost from_gives = { λ _ e. e ≡ errors.Memory };

    fn from(_e: AllocError) -> SpdError {
        SpdError::Memory
    }
}

impl<T: Drop> From<AllocFailed<T>> for SpdError {
    ghost from_gives = { λ _ e. e ≡ errors.Memory };

    fn from(_e: AllocFailed<T>) -> SpdError {
        SpdError::Memory
    }
}

impl From<Memory> for SpdError {
    ghost from_gives = { λ _ e. e ≡ errors.Memory };

    fn from(_e: Memory) -> SpdError {
        SpdError::Memory
    }
}
