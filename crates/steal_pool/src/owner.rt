//! The owner of the jobs.

ghost use Rattle.std.specs.Prelude.{◌≡◌, ◌≤◌, ◌<◌, [], ◌∷◌, ◌++◌, length, OnOk, OnErr, IfErr, IfSome, IfNone, IsTrue};
ghost use Rattle.steal_pool.specs.Reports.{IsOfPushed};
ghost use Rattle.steal_pool.specs.Views.{FewWait, HasCollected, waiting_of};

use crate::parcel::{Parcel, Reporting};
use crate::report::Report;
use crate::rule::{Deal, EndView, OwnJobs, Pushed, TakenIn};
use crossbeam_deque::Worker;
use rtrb::Consumer;
use std::alloc::Global;
use std::marker::Model;
use tile_generations::Job;

/// Who pushes jobs for the hands, and collects their reports. Contracts see the jobs that it pushed, the capacity, the
/// reports that it collected of each hand and those that it has seen besides, and which deque and which rings it has.
#[derive(Drop)]
pub struct Owner {
    pub(crate) deque: Worker<Job, Global, EndView, Deal>,
    pub(crate) capacity: usize,
    // How many jobs it pushed, or 2^64 - 1 where there were more.
    pub(crate) pushes: usize,
    pub(crate) rings: Vec<Consumer<Parcel, Global, Reporting>>,
}

impl Model for Owner {
    ghost use Rattle.std.specs.Prelude.{◌≡◌, ◌≤◌, [], length, map};
    ghost use Rattle.crossbeam_deque.specs.Handles.{worker_deque, worker_view, worker_port, worker_flavor};
    ghost use Rattle.crossbeam_deque.specs.Handles.{worker_index, worker_capacity};
    ghost use Rattle.steal_pool.specs.Parcels.{AreHeaded, collected_from, waiting_in};
    ghost use Rattle.steal_pool.specs.Views.{OwnerView};
    ghost use Rattle.steal_pool.specs.Names.{deque_of, read_from};

    ghost Value = { OwnerView };

    ghost view = { λ o. record {
      pushed = (worker_view o.deque).pushed;
      capacity = o.capacity;
      collected = map collected_from o.rings.items;
      waiting = map waiting_in o.rings.items;
      deque = deque_of o.deque;
      rings = map read_from o.rings.items;
    } };

    ghost invariant = { λ o.
        (worker_port o.deque ≡ 0) × (worker_flavor o.deque ≡ 0)
        × (length (worker_view o.deque).pushed ≡ worker_index o.deque) × (o.capacity ≤ worker_capacity o.deque)
        × (o.pushes ≤ length (worker_view o.deque).pushed)
        × AreHeaded (worker_deque o.deque) o.rings.items
        × (o.pushes ≡ 0 → (worker_view o.deque).pushed ≡ []) };
}

impl Owner {
    /// How many hands there are.
    pub fn hands(&self) -> usize
        ensures { result ≡ length self.now.collected }
    {
        self.rings.len()
    }

    /// Pushes a job. The hands get the jobs in the order in which they were pushed. The first `capacity` pushes of the
    /// pool succeed; later ones mostly do so too, since the deque grows. It waits for nobody.
    ///
    /// Errors: the job, where there is no place for it. Nothing was pushed then.
    #[tactic(auto, using(crate::proofs::Deals::pushes))]
    pub fn push(&mut self, job: Job) -> Result<(), Job>
        ensures ok { OnOk result (self.new ≡ record self.old { pushed = self.old.pushed ++ job ∷ [] }) }
        ensures err { OnErr result (self.new ≡ self.old) }
        ensures returned { IfErr result (λ j. j ≡ job) }
        ensures refused { OnErr result (self.old.capacity ≤ length self.old.pushed) }
    {
        match self.deque.push_as::<Pushed>(job) {
            Ok(()) => {
                self.pushes = self.pushes.saturating_add(1);
                Ok(())
            }
            Err(job) => Err(job),
        }
    }

    /// Whether no job was pushed yet.
    pub fn has_pushed_none(&self) -> bool
        ensures { IsTrue result → self.now.pushed ≡ [] }
    {
        self.pushes == 0
    }

    /// Whether as many jobs were pushed as surely find a place.
    pub fn is_past_capacity(&self) -> bool
        ensures { IsTrue result → self.now.capacity ≤ length self.now.pushed }
    {
        self.pushes >= self.capacity
    }

    /// The next report in the ring of this hand: the oldest of those that were seen there and not collected yet, if any
    /// were, and never more of these than the ring has places. Hands count from 0. It waits for nobody.
    ///
    /// A report is of a job that the owner pushed.
    ///
    /// It is `None` where none is found, so that none is left that was seen, and where there is no such hand. Nothing
    /// has changed then.
    #[tactic(auto, using(crate::proofs::Rings::map_past))]
    pub fn collect(&mut self, hand: usize) -> Option<Report>
        ensures none { IfNone result (self.new ≡ self.old) }
        ensures empty { IfNone result (waiting_of self.new hand ≡ []) }
        ensures few { FewWait self.new hand }
        ensures some { IfSome result (λ report. hand < length self.old.collected) }
        ensures collected { IfSome result (λ report. HasCollected self.old hand report self.new) }
        ensures of_pushed { IfSome result (IsOfPushed self.old) }
    {
        if hand >= self.rings.len() {
            return None;
        }
        let Ok(parcel) = self.rings[hand].pop() else {
            return None;
        };
        let Parcel { report, pass } = parcel;
        self.deque.absorb::<TakenIn>(pass);
        let _ = self.deque.len_as::<OwnJobs>();
        Some(report)
    }
}
