//! Jobs that are pushed for hands.

ghost use Rattle.std.specs.Prelude.{◌≡◌};
ghost use Rattle.core_rules.specs.Sweeps.{IsReady, IsOut};
ghost use Rattle.core_dispatch.specs.Dispatching.{core_by};
ghost use Rattle.core_dispatch.specs.Jobs.{HavePushed, IsNextTile, IsPlaced, IsPushed, with_core};
ghost use Rattle.tiled_core.specs.Passing.{ArePassedUntil};

use super::Dispatcher;
use crate::books::Books;
use crate::turned::{Jobs, Pushing};
use steal_pool::Owner;
use tile_generations::Job;

impl Dispatcher {
    /// Takes the job of each tile that is dirty and not out, in rising order, and pushes it. A job that finds no place
    /// is abandoned. It waits for nobody.
    pub(crate) fn push_jobs(&mut self) -> Jobs
        ensures { HavePushed self.old result self.new }
    {
        // For its clause alone: the number of tiles can be counted.
        let _ = self.tiles();
        let mut pushed = Jobs {
            jobs: 0,
            memory: false,
        };
        let mut from = 0;
        while let Some(tile) = self.next_tile(from) {
            let pushing = self.push_job(tile);
            pushed = pushed.and(pushing);
            from = tile + 1;
        }
        pushed
    }

    // The next tile, from `from` on, that is dirty and not out. Once as many jobs were pushed as surely find a place, a
    // tile is passed over while a job of one that touches it is out: that one has hints for it soon.
    fn next_tile(&mut self, from: usize) -> Option<usize>
        ensures { IsNextTile from result self.old self.new }
    {
        if self.owner.is_past_capacity() {
            self.pass_over(from)
        } else {
            self.books.core().next_dirty(from)
        }
    }

    // Passes over tiles, as the books do.
    fn pass_over(&mut self, from: usize) -> Option<usize>
        ensures passed { ArePassedUntil from result (core_by self.old) (core_by self.new) }
        ensures other { self.new ≡ with_core self.old (core_by self.new) }
    {
        // For its clause alone: the core is sound, so that a job that is out stays its own.
        self.books.core().is_sound();
        self.books.pass_over(from)
    }

    // Takes the job of a tile that is dirty and not out, and pushes it.
    fn push_job(&mut self, tile: usize) -> Pushing
        requires { IsReady (core_by self.old) tile }
        ensures { IsPushed tile self.old result self.new }
    {
        // For its clause alone: the core is sound, so that a job that is out stays its own.
        self.books.core().is_sound();
        match self.books.take(self.alloc, tile) {
            Ok(Some(job)) => {
                self.serials = self.serials.and(job.ticket().serial);
                push(&mut self.books, &mut self.owner, job)
            }
            Ok(None) => Pushing::Wanting,
            Err(_) => Pushing::Wanting,
        }
    }
}

// Pushes a job that was just taken, or abandons it where there is no place.
fn push(books: &mut Books, owner: &mut Owner, job: Job) -> Pushing
    requires { IsOut books.old.core job.ticket }
    ensures { IsPlaced (record { books = books.old; owner = owner.old }) job result
        (record { books = books.new; owner = owner.new }) }
{
    match owner.push(job) {
        Ok(()) => Pushing::Pushed,
        Err(job) => {
            let _was_out = books.abandon(job.ticket());
            Pushing::Refused
        }
    }
}
