//! How a board follows a core, and why not.

ghost use Rattle.std.specs.Prelude.{◌≡◌};
ghost use Rattle.studio.specs.Codes.{mirror_code_of};
ghost use Rattle.studio.specs.declared.mirrored.MirrorError.TheVariants as errors;

use grid_core::Memory;
use thiserror::Error;

/// A board has the marker of the core's strokes.
#[derive(Clone, Copy, Debug, PartialEq, Eq)]
pub struct Mirrored {
    /// Whether a generation began for it: just where the marker before was not below it.
    pub advanced: bool,
}

/// Why a board was not brought the marker of the core's strokes. The first that applies is answered, in this order.
#[derive(Clone, Copy, Debug, PartialEq, Eq, Error)]
pub enum MirrorError {
    /// X4: the board is of another mask or connectivity.
    #[error("X4: the board is of another mask or connectivity")]
    OtherMask,
    /// X3: out of memory.
    #[error("X3: out of memory")]
    Memory,
    /// X5: a generation has to begin, and there is none after the present one.
    #[error("X5: there is no generation after the present one")]
    Spent,
}

impl MirrorError {
    /// The code: X3 to X5.
    pub fn code(self) -> &'static str
        ensures { result.now ≡ mirror_code_of self }
    {
        match self {
            MirrorError::OtherMask => "X4",
            MirrorError::Memory => "X3",
            MirrorError::Spent => "X5",
        }
    }
}

impl From<Memory> for MirrorError {
    ghost from_gives = { λ _ e. e ≡ errors.Memory };

    fn from(_e: Memory) -> MirrorError {
        MirrorError::Memory
    }
}
