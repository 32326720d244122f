//! Growing, a slice at a time.

ghost use Rattle.std.specs.Prelude.{◌≡◌, ◌<◌, ◌↔◌, IsTrue, IfOk, OnOk, OnErr};
ghost use Rattle.core_rules.specs.Work.{IsQuiet};
ghost use Rattle.page_board.specs.Growing.{IsGrown, IsSettledFor, quiet_of};
ghost use Rattle.page_board.specs.Later.{IsLater};

use super::PageBoard;
use crate::marking::{note, step_after};
use grid_core::Memory;
use reset_core::Slice;
use std::alloc::Global;
use std::marker::Sync;
use std::thread::Threads;

impl PageBoard {
    /// Settles for at most so many jobs, by at most so many threads, and says whether no work is left. Where a tile was
    /// swept, or is still to be swept, it is a step more.
    ///
    /// Errors: out of memory, where a tile has still to be swept. The core is then as some events of settling left it.
    pub fn grow_in_bands<R: Threads + Sync>(
        &mut self,
        rt: &R,
        alloc: Global,
        threads: usize,
        jobs: u64,
    ) -> Result<bool, Memory>
        ensures grown { IsGrown self.old jobs self.new }
        ensures settled { OnOk result (IsSettledFor self.old.core jobs self.new.core) }
        ensures some_work { OnErr result ((IsQuiet self.old.core → ⊥) × (0 < jobs)) }
        ensures quiet { IfOk result (λ quiet. IsTrue quiet ↔ IsQuiet self.new.core) }
        ensures later { IsLater self.old self.new }
    {
        let slice = self
            .core
            .settle_in_bands(rt, alloc, &mut self.marks, threads, jobs);
        // For its clauses alone: there are as many tiles as before.
        let _ = self.core.tiling();
        self.core.add_dirty(&mut self.marks);
        self.step = step_after(self.step, &self.marks);
        note(&mut self.shown, &mut self.marks, self.step);
        quiet_of(slice)
    }
}

// Whether no work is left behind a slice.
fn quiet_of(slice: Result<Slice, Memory>) -> Result<bool, Memory>
    ensures { result ≡ quiet_of slice }
{
    match slice {
        Ok(slice) => Ok(slice.is_quiet),
        Err(why) => Err(why),
    }
}
