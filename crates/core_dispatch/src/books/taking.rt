//! Edits that are taken of pens.

ghost use Rattle.std.specs.Prelude.{◌≡◌, ◌<◌, length, IfOk, OnErr};
ghost use Rattle.core_dispatch.specs.Pens.{KeepsPens};
ghost use Rattle.core_dispatch.specs.Taking.{HaveTakenEdits, IsEditTaken, IsRound};

use super::Books;
use crate::refusal::Refusal;
use crate::taken::{Edits, Taken};
use core_rules::CoreError;
use grid_core::Memory;
use std::alloc::Global;

impl Books {
    // Takes the next edit of a pen, if one is seen: it is merged, or listed with the refused ones. It waits for nobody.
    //
    // Errors: out of memory for a place in that list. Nothing was taken then.
    pub(super) fn take_edit(&mut self, alloc: Global, pen: usize) -> Result<Taken, Memory>
        requires { pen < length self.old.desks }
        ensures taken { IfOk result (λ taken. IsEditTaken pen self.old taken self.new) }
        ensures err { OnErr result (self.new ≡ self.old) }
    {
        self.refusals.reserve(1)?;
        let Some((number, delta)) = self.desks[pen].pop() else {
            return Ok(Taken::Nothing);
        };
        match self.core.merge(alloc, &delta) {
            Ok(_change) => Ok(Taken::Merged),
            Err(error) => {
                let why = copy_of(&error);
                self.refusals.push_reserved(Refusal {
                    pen,
                    number,
                    error,
                    delta,
                });
                Ok(Taken::Listed(why))
            }
        }
    }

    /// One round over the pens: of each, in order, at most one edit is taken, and merged or listed. It says how many
    /// were taken, and whether memory was wanting, for a place in the list of refusals or in a merge. It waits for
    /// nobody.
    pub(crate) fn take_edits(&mut self, alloc: Global) -> Edits
        ensures round { IsRound self.old result self.new }
        ensures taken { HaveTakenEdits self.old result.edits self.new }
        ensures pens { KeepsPens self.old self.new }
    {
        let mut edits = Edits {
            edits: 0,
            memory: false,
        };
        for pen in 0..self.pens() {
            let answer = self.take_edit(alloc, pen);
            edits = edits.and(answer);
        }
        edits
    }
}

// The same reason once more.
fn copy_of(error: &CoreError) -> CoreError
    ensures { result ≡ error.now }
{
    *error
}
