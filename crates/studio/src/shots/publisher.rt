//! Who shows.

ghost use Rattle.std.specs.Prelude.{◌≡◌, ◌↔◌, ◌<◌, ◌≤◌, ◌+◌, ◌^◌, length, IsTrue};
ghost use Rattle.std.specs.Coded.{Coded-set, coded_list};
ghost use Rattle.left_right.specs.Sides.{view};
ghost use Rattle.studio.specs.contracts.shots.shot.Shot as shot_row;
ghost use Rattle.studio.specs.History.{confirmed, head_of, whole};
ghost use Rattle.studio.specs.Publishing.{published, informed};

use crate::shots::eye::{Eye, NoPlace};
use crate::shots::history::{Announce, Confirm, Head};
use crate::shots::prefix::{Prefix, add, open_history};
use crate::shots::rule::Birth;
use crate::shots::shot::Shot;
use crate::shots::shown::Shown;
use crate::shots::told::Told;
use crate::shots::writing::{Writing, open_writing, show_next};
use core::mem::replace_with;
use grid_core::Memory;
use std::alloc::Global;
use std::sync::{Arc, Wait};

// So many entries a history may have, two for each shot.
const MOST_ENTRIES: u64 = 1 << 62;

// Whether a history of so many entries has room for a shot more.
fn has_room(count: u64) -> bool
    ensures { IsTrue result ↔ (count < 2 ^ 62) }
{
    count < MOST_ENTRIES
}

/// Who shows: the only writer of a chain of shots. It may stand in a thread of its own. End it by [`Publisher::close`].
pub struct Publisher {
    pub(crate) alloc: Global,
    pub(crate) writer: Writing,
    pub(crate) head: Head,
    pub(crate) prefix: Prefix,
    // The history up to the last show that succeeded. What a later one announced in vain is not in it.
    pub(crate) told: Prefix,
    ghost head_is: { head ≡ head_of prefix.reached.book },
    ghost informed: { view writer.desk.place ≡ informed (published writer.desk.shown.value) },
    ghost book: { writer.desk.shown.value.prefix.reached.book ≡ prefix.reached.book },
    ghost chain: { confirmed prefix.reached.log
        ≡ whole writer.desk.shown.value.prefix.reached.log } by { Coded-set (coded_list shot_row.the_row.coded) _ _ },
    ghost told_book: { told.reached.book ≡ prefix.reached.book },
    ghost told_chain: { confirmed told.reached.log
        ≡ confirmed prefix.reached.log } by { Coded-set (coded_list shot_row.the_row.coded) _ _ },
    ghost abreast: { length told.reached.log ≤ length writer.desk.shown.value.prefix.reached.log + 1 },
}

impl Publisher {
    ghost use Rattle.std.specs.Prelude.{◌≡◌, ◌<◌, ◌≤◌, [], ◌∷◌, ◌++◌, IfOk, MatchResult};
    ghost use Rattle.std.specs.Arc.{arc_value};
    ghost use Rattle.studio.specs.Shots.{IsSound};
    ghost use Rattle.studio.specs.Chains.{MayFollow};
    ghost use Rattle.studio.specs.Words.{shown_by, last_by, told_by, seen_by, learnt_by};
    ghost use Rattle.studio.specs.Words.{publisher_studio, told_studio, eye_studio, IsAbreast, ShowsTold};

    /// A studio whose chain is one shot, with places for so many eyes, 1 to 16.
    ///
    /// Errors: out of memory. Nothing is left open then.
    #[tactic(auto, using(crate::proofs::Telling::announced_next, crate::proofs::Telling::confirmed_next))]
    pub fn open<R: Wait>(
        rt: &R,
        alloc: Global,
        shot: Shot,
        eyes: usize,
    ) -> Result<Publisher, Memory>
        requires eyes { (0 < eyes) × (eyes ≤ 16) }
        requires sound { IsSound shot }
        ensures chain { IfOk result (λ p. shown_by p ≡ shot ∷ []) }
        ensures last { IfOk result (λ p. last_by p ≡ shot) }
    {
        let Ok(shot) = Arc::new(alloc, shot) else {
            return Err(Memory);
        };
        let (head, blank) = open_history();
        let prefix = add::<Shot, Announce, R>(rt, &head, &blank, &*shot);
        let writer = open_writing(rt, alloc, shot, &prefix, eyes)?;
        let prefix = add::<(), Confirm, R>(rt, &head, &prefix, &());
        let told = prefix.again();
        Ok(Publisher {
            alloc,
            writer,
            head,
            prefix,
            told,
        })
    }

    /// The last shot that was shown. It waits for nobody.
    pub fn last(&self) -> &Shot
        ensures { result.now ≡ last_by self.now }
    {
        &*self.writer.published().shot
    }

    /// Shows a shot: the chain is longer by it. Each glimpse of an eye that learns of the receipt is that shot or a
    /// later one. It may wait for glimpses that are held.
    ///
    /// Errors: out of memory, or 2^62 entries of the history are used up, two a shot. The chain is as it was then.
    #[tactic(auto, using(crate::proofs::Telling::one_shown))]
    pub fn show<R: Wait>(&mut self, rt: &R, shot: Shot) -> Result<Told, Memory>
        requires next { MayFollow (last_by self.old) shot }
        ensures chain { MatchResult result (λ _. shown_by self.new ≡ shown_by self.old ++ shot ∷ [])
            (λ _. shown_by self.new ≡ shown_by self.old) }
        ensures last { MatchResult result (λ _. last_by self.new ≡ shot) (λ _. last_by self.new ≡ last_by self.old) }
        ensures told { IfOk result (λ t. told_by t ≡ shown_by self.new) }
        ensures abreast { IfOk result (ShowsTold self.new) }
        ensures told_studio { IfOk result (λ t. told_studio t ≡ publisher_studio self.old) }
        ensures studio { publisher_studio self.new ≡ publisher_studio self.old }
    {
        if !has_room(self.prefix.count) {
            drop(shot);
            return Err(Memory);
        }
        let Ok(shot) = Arc::new(self.alloc, shot) else {
            return Err(Memory);
        };
        self.prefix = add::<Shot, Announce, R>(rt, &self.head, &self.prefix, &*shot);
        let next = Shown {
            shot,
            prefix: self.prefix.again(),
        };
        replace_with(&mut self.writer, (rt, next), show_next)?;
        self.prefix = add::<(), Confirm, R>(rt, &self.head, &self.prefix, &());
        self.told = self.prefix.again();
        Ok(Told {
            prefix: self.prefix.again(),
        })
    }

    /// An eye that has seen and learnt all that was shown. It waits for nobody.
    ///
    /// Errors: each place for an eye is in use, as it may also seem while eyes are dropped in other threads.
    pub fn eye(&mut self) -> Result<Eye, NoPlace>
        ensures seen { IfOk result (λ e. seen_by e ≡ shown_by self.old) }
        ensures learnt { IfOk result (λ e. learnt_by e ≡ shown_by self.old) }
        ensures abreast { IfOk result (IsAbreast self.old) }
        ensures eye_studio { IfOk result (λ e. eye_studio e ≡ publisher_studio self.old) }
        ensures chain { shown_by self.new ≡ shown_by self.old }
        ensures last { last_by self.new ≡ last_by self.old }
        ensures studio { publisher_studio self.new ≡ publisher_studio self.old }
    {
        let Ok(mut reader) = self.writer.factory().reader() else {
            return Err(NoPlace);
        };
        reader.learn::<Birth>(self.writer.tell::<Birth>());
        Ok(Eye {
            reader,
            seen: self.writer.published().prefix.again(),
            learnt: self.told.again(),
        })
    }

    /// Ends the studio, and gives the last shot. It waits for the glimpses that are held. Eyes that are left look in
    /// vain from then on.
    pub fn close<R: Wait>(self, rt: &R) -> Arc<Shot>
        ensures { arc_value result ≡ last_by self }
    {
        let Publisher {
            alloc: _,
            writer,
            head: _,
            prefix: _,
            told: _,
        } = self;
        Box::into_inner(writer.take(rt)).shot
    }
}
