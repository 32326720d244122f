//! What a keeper does to the books beside turns.

ghost use Rattle.std.specs.Prelude.{◌≡◌, length, IfOk};
ghost use Rattle.std.specs.Arc.{arc_value};
ghost use Rattle.core_rules.specs.Sweeps.{IsAbandoned};
ghost use Rattle.core_rules.specs.Runs.{IsRun, NoneOut, abandoned, tickets_out};
ghost use Rattle.tiled_image.specs.Settling.{IsSettledFor};
ghost use Rattle.core_dispatch.specs.Books.{KeepsRest};
ghost use Rattle.core_dispatch.specs.Dispatching.{books_by, core_by, owner_by};
ghost use Rattle.core_dispatch.specs.Growing.{ShowsSame};

use super::Dispatcher;
use border_queues::laws::edges_are_open;
use grid_core::{Grid, Memory};
use reset_core::Slice;
use std::marker::Sync;
use std::sync::Arc;
use std::thread::Threads;
use stroke_lattice::State;
use tile_generations::Ticket;

impl Dispatcher {
    /// Abandons a job that is out, as [`Books::abandon`](crate::Books::abandon) does.
    pub fn abandon(&mut self, ticket: Ticket) -> bool
        ensures abandoned { IsAbandoned (core_by self.old) ticket result (core_by self.new) }
        ensures rest { KeepsRest (books_by self.old) (books_by self.new) }
        ensures owner { owner_by self.new ≡ owner_by self.old }
        ensures shows { ShowsSame (core_by self.old) (core_by self.new) }
    {
        // For their clauses alone: the core is sound, so that a job that is out stays its own.
        edges_are_open();
        self.books.core().is_sound();
        self.books.abandon(ticket)
    }

    /// Abandons each job that is out, as [`Books::recall`](crate::Books::recall) does.
    pub fn recall(&mut self) -> u64
        ensures run { IsRun (core_by self.old) (abandoned (tickets_out 0 (core_by self.old).tiles)) (core_by self.new) }
        ensures count { result ≡ length (tickets_out 0 (core_by self.old).tiles) }
        ensures none_out { NoneOut (core_by self.new) }
        ensures rest { KeepsRest (books_by self.old) (books_by self.new) }
        ensures owner { owner_by self.new ≡ owner_by self.old }
        ensures shows { ShowsSame (core_by self.old) (core_by self.new) }
    {
        self.books.recall()
    }

    /// Settles in bands, as [`Books::settle_in_bands`](crate::Books::settle_in_bands) does.
    ///
    /// Errors: out of memory, where there is work. Some of the work may be done then.
    pub fn settle_in_bands<R: Threads + Sync>(
        &mut self,
        rt: &R,
        threads: usize,
        jobs: u64,
    ) -> Result<Slice, Memory>
        ensures settled { IsSettledFor (core_by self.old) jobs result (core_by self.new) }
        ensures rest { KeepsRest (books_by self.old) (books_by self.new) }
        ensures owner { owner_by self.new ≡ owner_by self.old }
    {
        self.books.settle_in_bands(rt, self.alloc, threads, jobs)
    }

    /// A copy of the core's image, to be shared, as [`Books::shared_image`](crate::Books::shared_image) makes it.
    ///
    /// Errors: out of memory.
    pub fn shared_image(&mut self, spare: Option<Grid>) -> Result<Arc<Grid>, Memory>
        ensures image { IfOk result (λ copy. arc_value copy ≡ (core_by self.old).image) }
        ensures same { self.new ≡ self.old }
    {
        self.books.shared_image(self.alloc, spare)
    }

    /// A copy of the core's strokes, to be shared, as [`Books::shared_state`](crate::Books::shared_state) makes it.
    ///
    /// Errors: out of memory.
    pub fn shared_state(&mut self) -> Result<Arc<State>, Memory>
        ensures state { IfOk result (λ copy. arc_value copy ≡ (core_by self.old).state) }
        ensures same { self.new ≡ self.old }
    {
        self.books.shared_state(self.alloc)
    }
}
