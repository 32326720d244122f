//! The desk of a hand.

ghost use Rattle.std.specs.Prelude.{◌≡◌, ◌≤◌, ◌+◌, ◌<◌, ◌∷◌, ◌++◌, [], length, false};
ghost use Rattle.std.specs.Prelude.{Some, None, IfSome, MatchOption};
ghost use Rattle.rtrb.specs.Ring.{sent, known_free};
ghost use Rattle.crossbeam_deque.specs.Handles.{stealer_deque};
ghost use Rattle.steal_pool.specs.Parcels.{Follows, IsHeader, parcels_of};
ghost use Rattle.steal_pool.specs.Reports.{AreReported};
ghost use Rattle.steal_pool.specs.Working.{Adds, HasRoom, HasSent};
ghost use Rattle.steal_pool.specs.Views.{fresh, reports, ring_room, IsSameHand};
ghost use Rattle.steal_pool.specs.Names.{sent_into, stolen_from};

use crate::parcel::{Parcel, Reporting};
use crate::report::Report;
use crate::rule::{Deal, EndView, Got};
use crossbeam_deque::{Pass, Stealer};
use rtrb::{Producer, PushError};
use std::alloc::Global;
use std::marker::Model;
use std::mem;
use tile_generations::Job;

/// Where jobs come to a hand and its reports go out: its end of the deque, and its end of its ring. Contracts see of it
/// what they see of a hand.
///
/// A job that was got is seen in `got` for as long as the pass is kept by which it was got: here until it is reported,
/// and then in the parcel of its report. Nothing else of a hand has such a pass or parcel, and a method that let go of
/// one would break its own contract.
#[derive(Drop)]
pub(crate) struct Desk {
    stealer: Stealer<Job, Global, EndView, Deal>,
    // The next job is got by it, or one was that is not reported yet.
    pass: Pass<Job, EndView>,
    ring: Producer<Parcel, Global, Reporting>,
    held: Option<Parcel>,
}

impl Model for Desk {
    ghost use Rattle.std.specs.Prelude.{IfSome};
    ghost use Rattle.crossbeam_deque.specs.Handles.{view as pass_view, stealer_deque, IsPassOf};
    ghost use Rattle.rtrb.specs.Ring.{sent, known_free};
    ghost use Rattle.steal_pool.specs.Parcels.{IsHeaded, IsReportFrom, hand_at, jobs_in, parcels_of};
    ghost use Rattle.steal_pool.specs.Reports.{AreReported};
    ghost use Rattle.steal_pool.specs.Working.{HasRoom};
    ghost use Rattle.steal_pool.specs.Views.{HandView, reports};
    ghost use Rattle.steal_pool.specs.Names.{stolen_from};

    ghost Value = { HandView };

    ghost view = { λ d. hand_at (stolen_from d.stealer) d.ring d.held (pass_view d.pass).got };

    ghost invariant = { λ d.
        AreReported (jobs_in (parcels_of d.ring d.held))
        (reports (hand_at (stolen_from d.stealer) d.ring d.held (pass_view d.pass).got))
        × IsPassOf (stealer_deque d.stealer) d.pass
        × IsHeaded (stealer_deque d.stealer) (sent d.ring)
        × IfSome d.held (IsReportFrom (stealer_deque d.stealer))
        × HasRoom (known_free d.ring) (sent d.ring) };
}

// Sends a parcel, or gives it back where no place in the ring was seen to be free.
fn send(ring: &mut Producer<Parcel, Global, Reporting>, parcel: Parcel) -> Option<Parcel>
    requires follows { Follows (sent ring.old) parcel }
    requires room { HasRoom (known_free ring.old) (sent ring.old) }
    ensures all { parcels_of ring.new result ≡ sent ring.old ++ parcel ∷ [] }
    ensures room { HasRoom (known_free ring.new) (sent ring.new) }
    ensures same { IfSome result (λ kept. (parcel ≡ kept) × (sent ring.new ≡ sent ring.old)) }
    ensures full { IfSome result (λ _. ring_room < length (sent ring.new)) }
    ensures none_free { IfSome result (λ _. (known_free ring.old ≡ 0) × (known_free ring.new ≡ 0)) }
    ensures ring { sent_into ring.new ≡ sent_into ring.old }
{
    match ring.push(parcel) {
        Ok(()) => None,
        Err(PushError::Full(parcel)) => Some(parcel),
    }
}

// Sends the parcel that is held, if there is one, or gives it back where no place in the ring was seen to be free.
fn send_held(ring: &mut Producer<Parcel, Global, Reporting>, held: Option<Parcel>) -> Option<Parcel>
    requires follows { IfSome held (Follows (sent ring.old)) }
    requires room { HasRoom (known_free ring.old) (sent ring.old) }
    ensures all { parcels_of ring.new result ≡ parcels_of ring.old held }
    ensures room { HasRoom (known_free ring.new) (sent ring.new) }
    ensures same { IfSome result (λ kept. (held ≡ Some kept) × (sent ring.new ≡ sent ring.old)) }
    ensures full { IfSome result (λ _. ring_room < length (sent ring.new)) }
    ensures none_free { IfSome result (λ _. (known_free ring.old ≡ 0) × (known_free ring.new ≡ 0)) }
    ensures ring { sent_into ring.new ≡ sent_into ring.old }
{
    match held {
        Some(parcel) => send(ring, parcel),
        None => None,
    }
}

impl Desk {
    /// The desk of a hand that did nothing yet.
    #[tactic(auto, using(crate::proofs::Deals::admits))]
    pub(crate) fn new(
        stealer: Stealer<Job, Global, EndView, Deal>,
        ring: Producer<Parcel, Global, Reporting>,
    ) -> Desk
        requires sent { IsHeader (stealer_deque stealer) (sent ring) }
        requires room { known_free ring ≡ ring_room }
        ensures { result ≡ fresh (stolen_from stealer) (sent_into ring) }
    {
        let pass = stealer.pass();
        Desk {
            stealer,
            pass,
            ring,
            held: None,
        }
    }

    /// Gets the oldest job. It is None where there is none, and where another thread took a step at the same moment.
    #[tactic(auto, using(crate::proofs::Deals::gets))]
    pub(crate) fn steal(&mut self) -> Option<Job>
        ensures got { MatchOption result (self.new ≡ self.old) (Adds self.old self.new) }
        ensures few { self.new.free ≤ self.new.ring.0 }
    {
        self.stealer.steal_as::<Got>(&mut self.pass).success()
    }

    /// Reports the one job that is not reported yet: sends the report, or holds it where no place in the ring was seen
    /// to be free. It says whether the report was sent.
    #[tactic(auto, using(crate::proofs::Deals::admits))]
    pub(crate) fn report(&mut self, report: Report) -> bool
        requires none_held { self.old.held ≡ None }
        requires reported { AreReported self.old.got (reports self.old ++ report ∷ []) }
        ensures got { self.new.got ≡ self.old.got }
        ensures reports { reports self.new ≡ reports self.old ++ report ∷ [] }
        ensures sent { HasSent result self.new }
        ensures few { self.new.free ≤ self.new.ring.0 }
        ensures same { IsSameHand self.old self.new }
    {
        let next = self.stealer.pass();
        let pass = mem::replace(&mut self.pass, next);
        self.held = send(&mut self.ring, Parcel { report, pass });
        self.held.is_none()
    }

    /// Sends the report that is held, if there is one, and goes on holding it where no place in the ring was seen to be
    /// free. It says whether none is held any more.
    pub(crate) fn flush(&mut self) -> bool
        ensures got { self.new.got ≡ self.old.got }
        ensures reports { reports self.new ≡ reports self.old }
        ensures sent { HasSent result self.new }
        ensures kept { result ≡ false → self.new ≡ self.old }
        ensures few { self.new.free ≤ self.new.ring.0 }
        ensures same { IsSameHand self.old self.new }
    {
        self.held = send_held(&mut self.ring, self.held.take());
        self.held.is_none()
    }
}
