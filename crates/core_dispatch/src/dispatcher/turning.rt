//! Turns.

ghost use Rattle.std.specs.Prelude.{◌≡◌, ℕ};
ghost use Rattle.core_rules.specs.Runs.{HasHints};
ghost use Rattle.core_dispatch.specs.Dispatching.{books_by, core_by};
ghost use Rattle.core_dispatch.specs.Handing.{HaveHanded};
ghost use Rattle.core_dispatch.specs.Jobs.{with_core};
ghost use Rattle.core_dispatch.specs.Pens.{KeepsPens};
ghost use Rattle.core_dispatch.specs.Taking.{HaveTakenEdits, IsRound};
ghost use Rattle.core_dispatch.specs.Turns.{TakesIn, TakesTurn};

use super::Dispatcher;
use crate::taken::Edits;
use crate::turned::Turned;
use border_queues::laws::edges_are_open;

impl Dispatcher {
    /// One turn: of each pen at most one edit is taken, and merged or listed; of each hand at most one report is taken,
    /// and given to the core; each hint that waits is handed over; and the job of each tile that is dirty and not out
    /// is taken and pushed, in rising order. A job that can't be pushed is abandoned, and so is one that failed, or
    /// whose result is none of the core's or met want of memory. Once as many jobs were pushed as the pool's capacity,
    /// a tile is passed over while a job of one that touches it is out. It waits for nobody.
    ///
    /// Afterwards no hint waits. Where memory was not wanting each dirty tile is out, or its push was refused, or it
    /// was passed over. Until as many jobs were pushed as the pool's capacity, each is out.
    pub fn turn(&mut self) -> Turned
        ensures { TakesTurn self.old result self.new }
    {
        let taken = self.take_in();
        let jobs = self.push_jobs();
        Turned {
            jobs: jobs.jobs,
            memory: taken.memory | jobs.memory,
            ..taken
        }
    }

    /// The part of a turn before its jobs: of each pen at most one edit is taken, and merged or listed; of each hand at
    /// most one report is taken, and given to the core; and each hint that waits is handed over. No job is pushed, so
    /// that hands are not given what is swept in bands. It waits for nobody.
    ///
    /// Afterwards no hint waits.
    pub fn take_in(&mut self) -> Turned
        ensures { TakesIn self.old result self.new }
    {
        let edits = self.take_edits();
        let results = self.take_reports();
        let hints = self.hand_all();
        Turned {
            edits: edits.edits,
            results: results.results,
            hints,
            jobs: 0,
            memory: edits.memory | results.memory,
        }
    }

    // One round over the pens, as the books take it.
    fn take_edits(&mut self) -> Edits
        ensures round { IsRound (books_by self.old) result (books_by self.new) }
        ensures taken { HaveTakenEdits (books_by self.old) result.edits (books_by self.new) }
        ensures pens { KeepsPens (books_by self.old) (books_by self.new) }
        ensures other { self.new ≡ record self.old { books = books_by self.new } }
    {
        // For their clauses alone: the core is sound, so that a job that is out stays its own.
        edges_are_open();
        self.books.core().is_sound();
        self.books.take_edits(self.alloc)
    }

    // Hands over each hint that waits, as the books do.
    fn hand_all(&mut self) -> u64
        ensures handed { HaveHanded (core_by self.old) result (core_by self.new) }
        ensures no_hints { (t : ℕ) → HasHints (core_by self.new) t → ⊥ }
        ensures other { self.new ≡ with_core self.old (core_by self.new) }
    {
        // For their clauses alone: the core is sound, so that a job that is out stays its own.
        edges_are_open();
        self.books.core().is_sound();
        self.books.hand_all()
    }
}
