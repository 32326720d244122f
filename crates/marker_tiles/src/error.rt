//! Want of memory for markers.

ghost use Rattle.std.specs.Prelude.{◌≡◌};
ghost use Rattle.marker_tiles.specs.declared.error.MarkersError.TheVariants as errors;
ghost use Rattle.marker_tiles.specs.Code.{code_of};

use grid_core::Memory;
use thiserror::Error;

/// Why a marker is not made, or no part of it.
#[derive(Clone, Copy, Debug, PartialEq, Eq, Error)]
pub enum MarkersError {
    /// K1: out of memory.
    #[error("K1: out of memory")]
    Memory,
}

impl MarkersError {
    /// The code: "K1".
    pub fn code(self) -> &'static str
        ensures { result.now ≡ code_of self }
    {
        match self {
            MarkersError::Memory => "K1",
        }
    }
}

impl From<Memory> for MarkersError {
    ghost from_gives = { λ _ e. e ≡ errors.Memory };

    fn from(_e: Memory) -> MarkersError {
        MarkersError::Memory
    }
}
