//! The end of a studio.

ghost use Rattle.std.specs.Prelude.{◌≡◌, IfOk, IfErr, OnOk};
ghost use Rattle.core_dispatch.specs.Closing.{AreEndsOf, AreKept, HasTakenAll, HasNotTakenAll};
ghost use Rattle.studio.specs.Keeping.{dispatcher_of, core_of, books_of, IsUntouched};
ghost use Rattle.studio.specs.Closing.{IsClosed, IsNotClosed};

use super::Keeper;
use crate::closed::{Closed, NotClosed};
use core_dispatch::{Books, CloseError, PenEnd};
use reset_core::Core;
use std::sync::Wait;

impl Keeper {
    /// Takes what is left of each pen, and at most 64 reports of each hand, as turns do, and ends the studio. Each edit
    /// that a pen submitted was then taken, once and in order. It may wait for glimpses that are held. Work that is
    /// left stays with the core: it can be settled.
    ///
    /// Errors, with keeper and ends handed back: B1 where there is not one end of each pen, and nothing was taken; B2
    /// where a place in the list of refusals was refused; B3 where 2^64 - 1 edits of a pen were taken and one is left.
    /// What was taken until then stays taken or listed.
    pub fn close<R: Wait>(self, rt: &R, ends: Vec<PenEnd>) -> Result<Closed, NotClosed>
        requires { AreEndsOf ends.items (books_of self) }
        ensures closed { IfOk result (IsClosed self ends.items) }
        ensures not_closed { IfErr result (IsNotClosed self ends.items) }
    {
        let mut keeper = self;
        let mut ends = ends;
        match keeper.take_rest(&mut ends) {
            Ok(()) => {
                // For its clause alone: the books are faithful.
                let _core = keeper.core();
                let (core, refusals) = keeper.into_books(rt).into_parts();
                Ok(Closed { core, refusals })
            }
            Err(why) => Err(NotClosed { keeper, ends, why }),
        }
    }

    /// Ends the studio, and gives the core as it is. Nothing is taken of pens and hands. It may wait for glimpses that
    /// are held.
    pub fn end<R: Wait>(self, rt: &R) -> Core
        ensures { result ≡ core_of self }
    {
        self.into_books(rt).into_parts().0
    }

    // Takes what is left of each pen, and at most 64 reports of each hand.
    //
    // Errors: B1 to B3.
    fn take_rest(&mut self, ends: &mut Vec<PenEnd>) -> Result<(), CloseError>
        requires { AreEndsOf ends.old.items (books_of self.old) }
        ensures all { OnOk result (HasTakenAll (dispatcher_of self.old) ends.old.items (dispatcher_of self.new)) }
        ensures not_all { IfErr result
            (HasNotTakenAll (dispatcher_of self.old) ends.old.items (dispatcher_of self.new)) }
        ensures ends { AreKept ends.old.items ends.new.items (books_of self.new) }
        ensures untouched { IsUntouched self.old self.new }
    {
        let taken = self.dispatcher.take_rest(ends);
        self.has_state = false;
        self.has_image = false;
        taken
    }

    /// Ends the studio, and gives the books as they are. It may wait for glimpses that are held.
    pub(crate) fn into_books<R: Wait>(self, rt: &R) -> Books
        ensures { result ≡ books_of self }
    {
        let Keeper {
            alloc: _,
            dispatcher,
            publisher,
            mask: _,
            has_state: _,
            has_image: _,
        } = self;
        let _last = publisher.close(rt);
        dispatcher.into_books()
    }
}
