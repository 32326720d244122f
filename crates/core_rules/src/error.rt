//! Why a core is not opened, or refuses a delta.

ghost use Rattle.std.specs.Prelude.{◌≡◌};
ghost use Rattle.core_rules.specs.declared.error.CoreError.TheVariants as errors;
ghost use Rattle.core_rules.specs.Codes.{code_of, refused_state};

use grid_core::Memory;
use marker_tiles::MarkersError;
use stroke_core::Tag;
use stroke_lattice::StateError;
use thiserror::Error;

/// Why a core is not opened, or does not take a delta.
#[derive(Clone, Copy, Debug, PartialEq, Eq, Error)]
pub enum CoreError {
    /// C1: the stroke of this tag does not fit the image. It is the least such tag of the delta.
    #[error("C1: a stroke does not fit the image")]
    OutOfImage(Tag),
    /// C2: the core and the delta have different strokes of this tag. It is the least such tag.
    #[error("C2: two strokes have one tag")]
    Conflict(Tag),
    /// C3: a tile that is to be reset has spent its generations.
    #[error("C3: a tile has spent its generations")]
    GenerationsSpent,
    /// C4: out of memory.
    #[error("C4: out of memory")]
    Memory,
    /// C5: the side of the tiles is less than 8 or more than 256.
    #[error("C5: tiles have no such side")]
    BadSide,
}

impl CoreError {
    /// The code: C1 to C5.
    pub fn code(self) -> &'static str
        ensures { result.now ≡ code_of self }
    {
        match self {
            CoreError::OutOfImage(_) => "C1",
            CoreError::Conflict(_) => "C2",
            CoreError::GenerationsSpent => "C3",
            CoreError::Memory => "C4",
            CoreError::BadSide => "C5",
        }
    }
}

impl From<Memory> for CoreError {
    ghost from_gives = { λ _ e. e ≡ errors.Memory };

    fn from(_e: Memory) -> CoreError {
        CoreError::Memory
    }
}

impl From<MarkersError> for CoreError {
    ghost from_gives = { λ _ e. e ≡ errors.Memory };

    fn from(_e: MarkersError) -> CoreError {
        CoreError::Memory
    }
}

impl From<StateError> for CoreError {
    ghost from_gives = { λ e f. f ≡ refused_state e };

    fn from(e: StateError) -> CoreError {
        match e {
            StateError::Conflict(tag) => CoreError::Conflict(tag),
            StateError::Memory => CoreError::Memory,
        }
    }
}
