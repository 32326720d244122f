ghost use Rattle.std.specs.Prelude.{◌≡◌, ◌↔◌, IsTrue};
ghost use Rattle.core_rules.specs.declared.error.CoreError.TheVariants as core_errors;
ghost use Rattle.replica_world.specs.declared.error.WorldError.TheVariants as errors;
ghost use Rattle.replica_world.specs.Codes.{code_of};

use core_rules::CoreError;
use grid_core::Memory;
use thiserror::Error;

/// Why a world is not opened, or an event is refused.
#[derive(Clone, Copy, Debug, PartialEq, Eq, Error)]
pub enum WorldError {
    /// W1: a number names no replica, piece, packet, tile, result or hint, or a world has no such number of replicas.
    #[error("W1: a number names nothing")]
    NoSuch,
    /// W2: the core refused, or memory ran out.
    #[error("W2: the core refused")]
    Core(CoreError),
}

impl WorldError {
    /// The code: W1 or W2.
    pub fn code(self) -> &'static str
        ensures { result.now ≡ code_of self }
    {
        match self {
            WorldError::NoSuch => "W1",
            WorldError::Core(_) => "W2",
        }
    }

    // Whether memory ran out.
    pub(crate) fn is_memory(&self) -> bool
        ensures { IsTrue result ↔ (self.now ≡ errors.Core core_errors.Memory) }
    {
        match self {
            WorldError::Core(CoreError::Memory) => true,
            WorldError::NoSuch | WorldError::Core(_) => false,
        }
    }
}

impl From<CoreError> for WorldError {
    ghost from_gives = { λ e f. f ≡ errors.Core e };

    fn from(e: CoreError) -> WorldError {
        WorldError::Core(e)
    }
}

impl From<Memory> for WorldError {
    ghost from_gives = { λ _ f. f ≡ errors.Core core_errors.Memory };

    fn from(_e: Memory) -> WorldError {
        WorldError::Core(CoreError::Memory)
    }
}
