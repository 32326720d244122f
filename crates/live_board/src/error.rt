//! Refusals.

ghost use Rattle.std.specs.Prelude.{◌≡◌};
ghost use Rattle.live_board.specs.Codes.{code_of};
ghost use Rattle.live_board.specs.declared.error.BoardError.TheVariants as errors;

use grid_core::{Grid, Memory};
use thiserror::Error;

/// Why no board was opened. The first that applies is answered, in this order.
#[derive(Clone, Copy, Debug, PartialEq, Eq, Error)]
pub enum BoardError {
    /// X1: the image has more than [`MAX_BOARD`](crate::MAX_BOARD) pixels.
    #[error("X1: the image is too large for a board")]
    TooLarge,
    /// X2: there are not 1 to 16 hands and 1 to 16 peeks.
    #[error("X2: a board has 1 to 16 hands and 1 to 16 peeks")]
    BadCounts,
    /// X3: out of memory.
    #[error("X3: out of memory")]
    Memory,
}

impl BoardError {
    /// The code: X1 to X3.
    pub fn code(self) -> &'static str
        ensures { result.now ≡ code_of self }
    {
        match self {
            BoardError::TooLarge => "X1",
            BoardError::BadCounts => "X2",
            BoardError::Memory => "X3",
        }
    }
}

impl From<Memory> for BoardError {
    ghost from_gives = { λ _ e. e ≡ errors.Memory };

    fn from(_e: Memory) -> BoardError {
        BoardError::Memory
    }
}

/// There is no generation after this one. The marker comes back.
#[derive(Debug, Drop)]
pub struct Spent {
    /// The marker that was brought.
    pub marker: Grid,
}
