//! What is taken at the end.

ghost use Rattle.std.specs.Prelude.{◌≡◌, ◌≢◌, ◌↔◌, ◌<◌, ℕ, length, IsTrue, IfErr, OnOk, MatchOption};
ghost use Rattle.core_dispatch.specs.declared.error.CloseError.TheVariants as errors;
ghost use lib.ListN.{get_elem?};
ghost use Rattle.core_dispatch.specs.Dispatching.{books_by};
ghost use Rattle.core_dispatch.specs.Pens.{HasAllOf, IsEndOf, IsSameEnd, IsSpent, KeepsPens, end_number};
ghost use Rattle.core_dispatch.specs.Taking.{HaveTakenEdits};
ghost use Rattle.core_dispatch.specs.Closing.{AreEndsOf, AreKept, HasEndOf, HaveEach, IsOneOf, IsPlaceOf};
ghost use Rattle.core_dispatch.specs.Closing.{AreAllTaken, IsAllTaken, HasSpentCount, HasGoneOn};
ghost use Rattle.core_dispatch.specs.Closing.{HasTakenEdits, HasTakenReports, HasTakenAll, HasNotTakenAll};

use super::Dispatcher;
use crate::error::CloseError;
use crate::pen::PenEnd;
use border_queues::laws::edges_are_open;

/// How many reports of a hand wait at most.
const REPORTS: usize = 64;

impl Dispatcher {
    /// Takes what is left of each pen, pen by pen, and then at most 64 reports of each hand, as turns do. It waits for
    /// nobody.
    ///
    /// Errors: B1 where there is not one end of each pen; nothing was taken then. Else B2 and B3; what was taken until
    /// then stays taken or listed.
    pub fn take_rest(&mut self, ends: &mut Vec<PenEnd>) -> Result<(), CloseError>
        requires { AreEndsOf ends.old.items (books_by self.old) }
        ensures all { OnOk result (HasTakenAll self.old ends.old.items self.new) }
        ensures not_all { IfErr result (HasNotTakenAll self.old ends.old.items self.new) }
        ensures ends { AreKept ends.old.items ends.new.items (books_by self.new) }
    {
        if !has_one_of_each(self.pens(), ends) {
            return Err(CloseError::EndMissing);
        }
        self.take_edits_left(ends)?;
        self.take_reports_left();
        Ok(())
    }

    // Takes what is left of each pen, pen by pen.
    //
    // Errors: B2 and B3.
    fn take_edits_left(&mut self, ends: &mut Vec<PenEnd>) -> Result<(), CloseError>
        requires ends { AreEndsOf ends.old.items (books_by self.old) }
        requires each { HaveEach (length (books_by self.old).desks) ends.old.items }
        ensures whole { OnOk result (AreAllTaken (books_by self.new) ends.old.items) }
        ensures spent { IfErr result
            (λ why. why ≡ errors.CountSpent → HasSpentCount ends.old.items (books_by self.new)) }
        ensures why { IfErr result (λ why. why ≢ errors.EndMissing) }
        ensures ends { AreKept ends.old.items ends.new.items (books_by self.new) }
        ensures goes_on { HasGoneOn self.old self.new }
        ensures taken { HasTakenEdits self.old self.new }
    {
        for number in 0..self.pens() {
            self.take_edits_of(ends, number)?;
        }
        Ok(())
    }

    // Takes what is left of the pen of this number, whose end is there.
    //
    // Errors: B2 and B3.
    fn take_edits_of(&mut self, ends: &mut Vec<PenEnd>, number: usize) -> Result<(), CloseError>
        requires ends { AreEndsOf ends.old.items (books_by self.old) }
        requires found { HasEndOf ends.old.items number }
        ensures whole { OnOk result (IsAllTaken (books_by self.new) ends.old.items number) }
        ensures others { (n : ℕ) → n < number → IsAllTaken (books_by self.old) ends.old.items n
            → IsAllTaken (books_by self.new) ends.old.items n }
        ensures spent { IfErr result
            (λ why. why ≡ errors.CountSpent → HasSpentCount ends.old.items (books_by self.new)) }
        ensures why { IfErr result (λ why. why ≢ errors.EndMissing) }
        ensures ends { AreKept ends.old.items ends.new.items (books_by self.new) }
        ensures goes_on { HasGoneOn self.old self.new }
        ensures taken { HasTakenEdits self.old self.new }
    {
        match place_of(ends, number) {
            Some(place) => self.take_rest_of(&mut ends[place]),
            None => Ok(()),
        }
    }

    // Takes all that is left of a pen that has finished, as the books do.
    //
    // Errors: B2 and B3.
    fn take_rest_of(&mut self, end: &mut PenEnd) -> Result<(), CloseError>
        requires { IsEndOf end.old (books_by self.old) }
        ensures whole { OnOk result (HasAllOf (books_by self.new) end.old) }
        ensures taken { (edits : ℕ) × HaveTakenEdits (books_by self.old) edits (books_by self.new) }
        ensures others { (pen : ℕ) → pen ≢ end_number end.old
            → get_elem? (books_by self.new).desks pen ≡ get_elem? (books_by self.old).desks pen }
        ensures spent { IfErr result (λ why. why ≡ errors.CountSpent → IsSpent (books_by self.new) end.old) }
        ensures why { IfErr result (λ why. why ≢ errors.EndMissing) }
        ensures end { IsSameEnd end.old end.new }
        ensures kept { IsEndOf end.new (books_by self.new) }
        ensures pens { KeepsPens (books_by self.old) (books_by self.new) }
        ensures other { self.new ≡ record self.old { books = books_by self.new } }
    {
        // For their clauses alone: the core is sound, so that a job that is out stays its own.
        edges_are_open();
        self.books.core().is_sound();
        self.books.take_rest(self.alloc, end)
    }

    // Takes at most 64 reports of each hand.
    fn take_reports_left(&mut self)
        ensures desks { (books_by self.new).desks ≡ (books_by self.old).desks }
        ensures goes_on { HasGoneOn self.old self.new }
        ensures taken { HasTakenReports self.old self.new }
    {
        for _round in 0..REPORTS {
            let _results = self.take_reports();
        }
    }
}

// Whether there is one end of each of so many pens.
fn has_one_of_each(pens: usize, ends: &Vec<PenEnd>) -> bool
    ensures { IsTrue result ↔ IsOneOf pens ends.now.items }
{
    ends.len() == pens && have_each(pens, ends)
}

// Whether there is an end of each of so many pens.
fn have_each(pens: usize, ends: &Vec<PenEnd>) -> bool
    ensures { IsTrue result ↔ HaveEach pens ends.now.items }
{
    for number in 0..pens {
        if place_of(ends, number).is_none() {
            return false;
        }
    }
    true
}

// Where the first end of the pen of this number is, if there is one.
fn place_of(ends: &Vec<PenEnd>, number: usize) -> Option<usize>
    ensures { MatchOption result (HasEndOf ends.now.items number → ⊥) (IsPlaceOf ends.now.items number) }
{
    for place in 0..ends.len() {
        if ends[place].number() == number {
            return Some(place);
        }
    }
    None
}
