//! What else happens to the core of the books.

ghost use Rattle.std.specs.Prelude.{◌≡◌, length, IfOk, IfErr, IsTrue, OnErr};
ghost use Rattle.core_rules.specs.Sweeps.{IsReady, IsTaken, IsGivenBack, IsAbandoned};
ghost use Rattle.core_rules.specs.Runs.{IsRun, NoneOut, abandoned, tickets_out};
ghost use Rattle.reset_core.specs.Answers.{IsJoinable};
ghost use Rattle.tiled_core.specs.Owning.{IsOwn};
ghost use Rattle.tiled_core.specs.Passing.{ArePassedUntil};
ghost use Rattle.tiled_image.specs.Settling.{IsSettledFor};
ghost use Rattle.core_dispatch.specs.Books.{KeepsRest};
ghost use Rattle.core_dispatch.specs.Growing.{ShowsSame};

use super::Books;
use core_rules::Back;
use grid_core::Memory;
use reset_core::Slice;
use std::alloc::Global;
use std::marker::Sync;
use std::thread::Threads;
use tile_generations::{Job, Swept, Ticket};
use tiled_core::TiledCore;

impl Books {
    /// The job of a tile that is dirty and not out, as [`TiledCore::take`] gives it.
    ///
    /// Errors: out of memory; nothing has changed then.
    pub(crate) fn take(&mut self, alloc: Global, tile: usize) -> Result<Option<Job>, Memory>
        ensures taken { IfOk result (λ job. IsTaken self.old.core tile job self.new.core) }
        ensures memory { OnErr result (IsReady self.old.core tile) }
        ensures err { OnErr result (self.new ≡ self.old) }
        ensures rest { KeepsRest self.old self.new }
    {
        self.core.take(alloc, tile)
    }

    /// Passes over the tiles that are dirty and not out, from `from` on, up to the least that no tile touches of which
    /// a job is out, and says which that is, as [`TiledCore::pass_over`] does.
    pub(crate) fn pass_over(&mut self, from: usize) -> Option<usize>
        ensures passed { ArePassedUntil from result self.old.core self.new.core }
        ensures rest { KeepsRest self.old self.new }
    {
        self.core.pass_over(from)
    }

    /// Gives back a swept tile, as [`TiledCore::give_back`] does, or [`TiledCore::give_back_own`] where it is known to be
    /// the core's own.
    ///
    /// Errors: out of memory, with the swept tile handed back; nothing has changed then.
    pub(crate) fn give_back(
        &mut self,
        alloc: Global,
        swept: Swept,
        is_own: bool,
    ) -> Result<Back, (Swept, Memory)>
        requires own { IsTrue is_own → IsOwn self.old.core swept.job }
        ensures given { IfOk result (λ back. IsGivenBack self.old.core swept back self.new.core) }
        ensures memory { OnErr result (IsJoinable self.old.core swept.job) }
        ensures err { OnErr result (self.new ≡ self.old) }
        ensures returned { IfErr result (λ e. e.0 ≡ swept) }
        ensures rest { KeepsRest self.old self.new }
    {
        give_back_to(&mut self.core, alloc, swept, is_own)
    }

    /// Abandons a job that is out: the tile is then not out, and dirty. It says whether the job was out. It takes no
    /// memory.
    #[tactic(auto, using(crate::proofs::Marking::abandoned_shows))]
    pub fn abandon(&mut self, ticket: Ticket) -> bool
        ensures abandoned { IsAbandoned self.old.core ticket result self.new.core }
        ensures rest { KeepsRest self.old self.new }
        ensures shows { ShowsSame self.old.core self.new.core }
    {
        self.core.abandon(ticket)
    }

    /// Abandons each job that is out, tile by tile, and says how many there were. It takes no memory, and waits for
    /// nobody. A report of such a job changes nothing when it comes.
    #[tactic(auto, using(crate::proofs::Marking::abandons_show))]
    pub fn recall(&mut self) -> u64
        ensures run { IsRun self.old.core (abandoned (tickets_out 0 self.old.core.tiles)) self.new.core }
        ensures count { result ≡ length (tickets_out 0 self.old.core.tiles) }
        ensures none_out { NoneOut self.new.core }
        ensures rest { KeepsRest self.old self.new }
        ensures shows { ShowsSame self.old.core self.new.core }
    {
        self.core.abandon_all()
    }

    /// Settles the core for a slice, by up to so many threads, as [`TiledCore::settle_in_bands`] does. Each job that
    /// was out is abandoned: a report of it changes nothing when it comes.
    ///
    /// Errors: out of memory, where there is work. Some of the work may be done then.
    pub fn settle_in_bands<R: Threads + Sync>(
        &mut self,
        rt: &R,
        alloc: Global,
        threads: usize,
        jobs: u64,
    ) -> Result<Slice, Memory>
        ensures settled { IsSettledFor self.old.core jobs result self.new.core }
        ensures rest { KeepsRest self.old self.new }
    {
        self.core.settle_in_bands(rt, alloc, threads, jobs)
    }
}

// Gives a swept tile back to a core, of which it may be known to be its own.
//
// Errors: out of memory, with the swept tile handed back; nothing has changed then.
fn give_back_to(
    core: &mut TiledCore,
    alloc: Global,
    swept: Swept,
    is_own: bool,
) -> Result<Back, (Swept, Memory)>
    requires own { IsTrue is_own → IsOwn core.old swept.job }
    ensures given { IfOk result (λ back. IsGivenBack core.old swept back core.new) }
    ensures memory { OnErr result (IsJoinable core.old swept.job) }
    ensures err { OnErr result (core.new ≡ core.old) }
    ensures returned { IfErr result (λ e. e.0 ≡ swept) }
{
    if is_own {
        core.give_back_own(alloc, swept)
    } else {
        core.give_back(alloc, swept)
    }
}
