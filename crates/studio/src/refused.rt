//! Why no studio was opened.

ghost use Rattle.std.specs.Prelude.{◌≡◌};
ghost use Rattle.studio.specs.Codes.{code_of};

use reset_core::Core;
use thiserror::Error;

/// Why no studio was opened.
#[derive(Clone, Copy, Debug, PartialEq, Eq, Error)]
pub enum OpenError {
    /// U1: there are not 1 to 16 pens, 1 to 16 hands and 1 to 16 eyes.
    #[error("U1: a studio has 1 to 16 pens, hands and eyes each")]
    BadCounts,
    /// U2: out of memory.
    #[error("U2: out of memory")]
    Memory,
    /// U3: a place for an eye was refused.
    #[error("U3: there is no place for an eye")]
    NoPlace,
}

impl OpenError {
    /// The code: U1 to U3.
    pub fn code(self) -> &'static str
        ensures { result.now ≡ code_of self }
    {
        match self {
            OpenError::BadCounts => "U1",
            OpenError::Memory => "U2",
            OpenError::NoPlace => "U3",
        }
    }
}

/// A core of which no studio was opened.
#[derive(Drop)]
pub struct NotOpened {
    /// The core, as it was.
    pub core: Core,
    /// Why.
    pub why: OpenError,
}
