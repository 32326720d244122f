//! What became of edits.

ghost use Rattle.std.specs.Prelude.{◌≡◌, ◌<◌, ◌+◌, ◌||◌};
ghost use Rattle.core_dispatch.specs.Taking.{is_memory};

use core_rules::CoreError;
use grid_core::Memory;

/// What became of a pen's next edit.
#[derive(Clone, Copy)]
pub(crate) enum Taken {
    /// None was seen, or as many were taken of the pen as can be counted, 2^64 - 1.
    Nothing,
    /// It was merged.
    Merged,
    /// It is listed with the refused edits, for this reason.
    Listed(CoreError),
}

/// What came of one round over the pens.
#[derive(Clone, Copy)]
pub(crate) struct Edits {
    /// How many edits were taken: merged or listed.
    pub edits: u64,
    /// Whether memory was wanting: for a place in the list of refusals, or within a merge.
    pub memory: bool,
}

impl Edits {
    ghost use Rattle.core_dispatch.specs.Taking.{edits_in, is_wanting};

    // These, and what came of one turn more.
    pub(crate) fn and(self, answer: Result<Taken, Memory>) -> Edits
        requires { self.edits < u64.MAX }
        ensures edits { result.edits ≡ self.edits + edits_in answer }
        ensures memory { result.memory ≡ (self.memory || is_wanting answer) }
    {
        match answer {
            Ok(Taken::Nothing) => self,
            Ok(Taken::Merged) => self.with_one(false),
            Ok(Taken::Listed(error)) => self.with_one(lacks_memory(error)),
            Err(_) => Edits {
                edits: self.edits,
                memory: true,
            },
        }
    }

    // These and one more, in which memory was wanting or not.
    fn with_one(self, memory: bool) -> Edits
        requires { self.edits < u64.MAX }
        ensures edits { result.edits ≡ self.edits + 1 }
        ensures memory { result.memory ≡ (self.memory || memory) }
    {
        Edits {
            edits: self.edits + 1,
            memory: self.memory || memory,
        }
    }
}

// Whether the reason is want of memory.
fn lacks_memory(error: CoreError) -> bool
    ensures { result ≡ is_memory error }
{
    match error {
        CoreError::Memory => true,
        CoreError::OutOfImage(_) => false,
        CoreError::Conflict(_) => false,
        CoreError::GenerationsSpent => false,
        CoreError::BadSide => false,
    }
}
