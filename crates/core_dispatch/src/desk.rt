//! The keeper's end of a pen's ring.

ghost use Rattle.std.specs.Prelude.{◌≡◌, ◌<◌, [], ◌∷◌, ◌++◌, length, IfSome, IfNone};
ghost use Rattle.rtrb.specs.Ring.{received, known_items, SameConsumer, IsFinishedOf};

use crate::pen::PenEnd;
use rtrb::Consumer;
use stroke_lattice::Delta;

/// The keeper's end of a pen's ring, with the number of the edits that were taken.
#[derive(Drop)]
pub(crate) struct PenDesk {
    pub(crate) consumer: Consumer<Delta>,
    pub(crate) popped: u64,
    ghost counted: { popped ≡ length (received consumer) },
}

impl PenDesk {
    ghost use Rattle.core_dispatch.specs.Books.{edits_of};
    ghost use Rattle.core_dispatch.specs.Pens.{IsSameEnd, all_submitted};
    ghost use Rattle.core_dispatch.specs.Taking.{IsNext, HasNoneLeft, seen_at};

    /// The end of a ring of which nothing was popped.
    pub(crate) fn new(consumer: Consumer<Delta>) -> PenDesk
        requires { received consumer ≡ [] }
        ensures { result.consumer ≡ consumer }
    {
        PenDesk {
            consumer,
            popped: 0,
        }
    }

    /// Pops the oldest edit, and says its number. None where none was seen, or as many were popped as can be counted.
    pub(crate) fn pop(&mut self) -> Option<(u64, Delta)>
        ensures next { IfSome result (λ r. IsNext self.old r.1 self.new) }
        ensures number { IfSome result (λ r. r.0 ≡ length (edits_of self.old)) }
        ensures none { IfNone result (HasNoneLeft self.old self.new) }
        ensures ring { SameConsumer self.old.consumer self.new.consumer }
    {
        if self.popped == u64::MAX {
            return None;
        }
        match pop_oldest(&mut self.consumer) {
            Some(delta) => {
                let number = self.popped;
                self.popped += 1;
                Some((number, delta))
            }
            None => None,
        }
    }

    /// Looks into the ring of a pen that has finished, and says how many edits wait: those are all that are left of it.
    pub(crate) fn look(&mut self, end: &mut PenEnd) -> usize
        requires { IsFinishedOf end.old.finished self.old.consumer }
        ensures count { result ≡ length (seen_at self.new) }
        ensures whole { edits_of self.new ++ seen_at self.new ≡ all_submitted end.old }
        ensures edits { edits_of self.new ≡ edits_of self.old }
        ensures ring { SameConsumer self.old.consumer self.new.consumer }
        ensures finished { IsFinishedOf end.new.finished self.new.consumer }
        ensures end { IsSameEnd end.old end.new }
    {
        self.consumer.slots_after(&mut end.finished)
    }
}

// Pops the oldest edit, if one is seen.
fn pop_oldest(consumer: &mut Consumer<Delta>) -> Option<Delta>
    ensures some { IfSome result (λ delta. received consumer.new ≡ received consumer.old ++ delta ∷ []) }
    ensures first { IfSome result (λ delta.
        0 < length (known_items consumer.old) → known_items consumer.old ≡ delta ∷ known_items consumer.new) }
    ensures kept { IfNone result (received consumer.new ≡ received consumer.old) }
    ensures empty { IfNone result ((known_items consumer.old ≡ []) × (known_items consumer.new ≡ [])) }
    ensures ring { SameConsumer consumer.old consumer.new }
{
    if consumer.cached_slots() > 0 {
        return Some(consumer.pop_known());
    }
    match consumer.pop() {
        Ok(delta) => Some(delta),
        Err(_) => None,
    }
}
