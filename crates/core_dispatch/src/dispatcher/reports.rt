//! Reports that are taken of hands.

ghost use Rattle.std.specs.Prelude.{IsTrue};
ghost use Rattle.tiled_core.specs.Owning.{IsOwn};
ghost use Rattle.core_dispatch.specs.Genuine.{IsOwnReport};
ghost use Rattle.core_dispatch.specs.Reports.{HaveCollected, IsCollected, IsGivenOver, IsJudged};

use super::Dispatcher;
use crate::books::Books;
use crate::turned::Results;
use border_queues::laws::edges_are_open;
use core_rules::Back;
use std::alloc::Global;
use steal_pool::Report;
use tile_generations::Swept;

impl Dispatcher {
    /// Takes at most one report of each hand, and gives it to the core. It waits for nobody.
    pub(crate) fn take_reports(&mut self) -> Results
        ensures { HaveCollected self.old result self.new }
    {
        let mut taken = Results {
            results: 0,
            memory: false,
        };
        for hand in 0..self.hands() {
            let answer = self.take_report(hand);
            taken = taken.and(answer);
        }
        taken
    }

    // Takes a report of a hand, if one has come, gives it to the core, and says whether memory was wanting.
    fn take_report(&mut self, hand: usize) -> Option<bool>
        ensures { IsCollected hand self.old result self.new }
    {
        // For their clauses alone: the core is sound, so that a job that is out stays its own.
        edges_are_open();
        self.books.core().is_sound();
        let report = self.owner.collect(hand)?;
        let is_own = self.serials.rise;
        Some(judge(self.alloc, &mut self.books, report, is_own))
    }
}

// Gives a report to the core, and says whether memory was wanting. A job that failed is abandoned, and so is one whose
// result is none of the core's, or met want of memory. It may be known that what was swept is the core's own.
fn judge(alloc: Global, books: &mut Books, report: Report, is_own: bool) -> bool
    requires { IsTrue is_own → IsOwnReport books.old.core report }
    ensures { IsJudged books.old report result books.new }
{
    match report {
        Report::Failed(ticket) => {
            let _was_out = books.abandon(ticket);
            false
        }
        Report::Done(swept) => give_over(alloc, books, swept, is_own),
    }
}

// Gives a swept tile to the core, and says whether memory was wanting.
fn give_over(alloc: Global, books: &mut Books, swept: Swept, is_own: bool) -> bool
    requires { IsTrue is_own → IsOwn books.old.core swept.job }
    ensures { IsGivenOver books.old swept result books.new }
{
    // For its clause alone: each swept tile is the reconstruction of its job.
    let _ = swept.pixels();
    let ticket = swept.ticket();
    match books.give_back(alloc, swept, is_own) {
        Ok(Back::Stranger) => {
            let _was_out = books.abandon(ticket);
            false
        }
        Ok(Back::Joined) => false,
        Ok(Back::Again) => false,
        Ok(Back::Stale) => false,
        Err(_) => {
            let _was_out = books.abandon(ticket);
            true
        }
    }
}
