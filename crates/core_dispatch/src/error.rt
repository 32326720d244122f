//! Why a studio was not closed.

ghost use Rattle.std.specs.Prelude.{◌≡◌};
ghost use Rattle.core_dispatch.specs.Codes.{code_of};

use thiserror::Error;

/// Why not all that is left of pens was taken.
#[derive(Clone, Copy, Debug, PartialEq, Eq, Error)]
pub enum CloseError {
    /// B1: there is not one end of each pen. Nothing was taken.
    #[error("B1: there is not one end of each pen")]
    EndMissing,
    /// B2: a place in the list of refusals was refused. What was taken until then stays taken or listed.
    #[error("B2: out of memory")]
    Memory,
    /// B3: 2^64 - 1 edits of a pen were taken, and one is left. What was taken until then stays taken or listed.
    #[error("B3: a pen has submitted more edits than can be counted")]
    CountSpent,
}

impl CloseError {
    /// The code: B1 to B3.
    pub fn code(self) -> &'static str
        ensures { result.now ≡ code_of self }
    {
        match self {
            CloseError::EndMissing => "B1",
            CloseError::Memory => "B2",
            CloseError::CountSpent => "B3",
        }
    }
}
