//! What is left of pens that have finished.

ghost use Rattle.std.specs.Prelude.{◌≡◌, ◌≢◌, ℕ, Ok, OnOk, IfErr};
ghost use lib.ListN.{get_elem?};
ghost use Rattle.core_dispatch.specs.Pens.{IsEndOf, IsSameEnd, HasAllOf, IsSpent, KeepsPens, end_number};
ghost use Rattle.core_dispatch.specs.Taking.{HaveTakenEdits, edits_in};
ghost use Rattle.core_dispatch.specs.Resting.{HasLeft, HasMoved};
ghost use Rattle.core_dispatch.specs.declared.error.CloseError.TheVariants.{CountSpent, EndMissing};
ghost use Rattle.core_dispatch.specs.declared.taken.Taken.TheVariants.{Nothing};

use super::Books;
use crate::error::CloseError;
use crate::pen::PenEnd;
use crate::taken::Taken;
use grid_core::Memory;
use std::alloc::Global;

impl Books {
    /// Takes all that is left of a pen that has finished: each edit is merged, or listed with the refused ones. It
    /// waits for nobody.
    ///
    /// Errors: B2 and B3. What was taken until then stays taken.
    pub(crate) fn take_rest(&mut self, alloc: Global, end: &mut PenEnd) -> Result<(), CloseError>
        requires { IsEndOf end.old self.old }
        ensures whole { OnOk result (HasAllOf self.new end.old) }
        ensures taken { (edits : ℕ) × HaveTakenEdits self.old edits self.new }
        ensures others { (pen : ℕ) → pen ≢ end_number end.old
            → get_elem? self.new.desks pen ≡ get_elem? self.old.desks pen }
        ensures spent { IfErr result (λ why. why ≡ CountSpent → IsSpent self.new end.old) }
        ensures why { IfErr result (λ why. why ≢ EndMissing) }
        ensures end { IsSameEnd end.old end.new }
        ensures kept { IsEndOf end.new self.new }
        ensures pens { KeepsPens self.old self.new }
    {
        let pen = end.number;
        let left = self.look(end);
        for _edit in 0..left {
            let answer = self.take_edit(alloc, pen);
            one_taken(answer)?;
        }
        Ok(())
    }

    // Looks what is left of a pen that has finished, and says how many edits.
    fn look(&mut self, end: &mut PenEnd) -> usize
        requires { IsEndOf end.old self.old }
        ensures left { HasLeft self.new end.old result }
        ensures moved { HasMoved (end_number end.old) self.old self.new }
        ensures end { IsSameEnd end.old end.new }
        ensures kept { IsEndOf end.new self.new }
    {
        self.desks[end.number].look(end)
    }
}

// Whether an edit was taken.
//
// Errors: B2 and B3.
fn one_taken(answer: Result<Taken, Memory>) -> Result<(), CloseError>
    ensures one { OnOk result (edits_in answer ≡ 1) }
    ensures spent { IfErr result (λ why. why ≡ CountSpent → answer ≡ Ok Nothing) }
    ensures why { IfErr result (λ why. why ≢ EndMissing) }
{
    match answer {
        Ok(Taken::Nothing) => Err(CloseError::CountSpent),
        Ok(Taken::Merged) => Ok(()),
        Ok(Taken::Listed(_)) => Ok(()),
        Err(_) => Err(CloseError::Memory),
    }
}
