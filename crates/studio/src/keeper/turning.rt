//! Turns of a keeper.

ghost use Rattle.std.specs.Prelude.{◌≡◌, ◌+◌, ◌&&◌, IsTrue};
ghost use Rattle.core_dispatch.specs.Pens.{KeepsPens};
ghost use Rattle.core_dispatch.specs.Turns.{TakesIn, TakesTurn};
ghost use Rattle.studio.specs.Keeping.{dispatcher_of, books_of, IsUntouched};

use super::Keeper;
use core_dispatch::Turned;

impl Keeper {
    /// One turn: of each pen at most one edit is taken, and merged or listed; of each hand at most one report is taken,
    /// and given to the core; each hint that waits is handed over; and the job of each tile that is dirty and not out
    /// is taken and pushed, in rising order. A job that can't be pushed is abandoned, and so is one that failed, or
    /// whose result is none of the core's or met want of memory. Once 4,096 jobs were pushed, a tile is passed over
    /// while a job of one that touches it is out. It waits for nobody.
    ///
    /// Afterwards no hint waits. Where memory was not wanting each dirty tile is out, or its push was refused, or it
    /// was passed over. Until 4,096 jobs were pushed, each is out.
    pub fn turn(&mut self) -> Turned
        ensures turn { TakesTurn (dispatcher_of self.old) result (dispatcher_of self.new) }
        ensures pens { KeepsPens (books_of self.old) (books_of self.new) }
        ensures untouched { IsUntouched self.old self.new }
    {
        let refused = self.dispatcher.books().refusals().len();
        let turned = self.dispatcher.turn();
        let has_merged_none = is_sum(
            self.dispatcher.books().refusals().len(),
            refused,
            turned.edits,
        );
        self.has_state = both(self.has_state, has_merged_none);
        self.has_image = both(self.has_image, is_still(has_merged_none, &turned));
        turned
    }

    /// The part of a turn before its jobs: of each pen at most one edit is taken, and merged or listed; of each hand at
    /// most one report is taken, and given to the core; and each hint that waits is handed over. No job is pushed. So
    /// [`Keeper::is_for_bands`] can be asked behind it, and hands are not given what is swept in bands. It waits for
    /// nobody.
    ///
    /// Afterwards no hint waits.
    pub fn take_in(&mut self) -> Turned
        ensures taken { TakesIn (dispatcher_of self.old) result (dispatcher_of self.new) }
        ensures pens { KeepsPens (books_of self.old) (books_of self.new) }
        ensures untouched { IsUntouched self.old self.new }
    {
        let refused = self.dispatcher.books().refusals().len();
        let taken = self.dispatcher.take_in();
        let has_merged_none = is_sum(
            self.dispatcher.books().refusals().len(),
            refused,
            taken.edits,
        );
        self.has_state = both(self.has_state, has_merged_none);
        self.has_image = both(self.has_image, is_still(has_merged_none, &taken));
        taken
    }
}

/// Whether both hold.
pub(super) fn both(a: bool, b: bool) -> bool
    ensures { result ≡ (a && b) }
{
    a && b
}

// Whether the first number is the sum of the others.
fn is_sum(sum: usize, a: usize, b: u64) -> bool
    ensures { IsTrue result → sum ≡ a + b }
{
    a <= sum && (sum - a) as u64 == b
}

// Whether no edit was merged in the turn, no report came, and no hint waited.
fn is_still(has_merged_none: bool, turned: &Turned) -> bool
    ensures { IsTrue result → IsTrue has_merged_none × (turned.now.results ≡ 0) × (turned.now.hints ≡ 0) }
{
    has_merged_none && turned.results == 0 && turned.hints == 0
}
