//! How much is settled at a time, and by how many threads.

ghost use Rattle.std.specs.Prelude.{◌≤◌};
ghost use Rattle.grid_core.specs.Tiles.{IsTileSide};
ghost use Rattle.page_server.specs.Slices.{AreFewThreads, IsSliceOf};

use std::thread::{Threads, available_parallelism};

/// How many pixels the jobs of one slice have for each thread, together. To sweep so many takes some 5 ms.
pub(crate) const SLICE: u64 = 64 * 64 * 64;

/// By how many threads a slice is settled at most. So it takes some 20 ms where one of them has to do all of it.
const MOST_THREADS: usize = 4;

/// By how many threads a slice is settled: as many as the system says that may run at once, and at most four. Where it
/// does not say that, by one.
pub(crate) fn threads_of<R: Threads>(rt: &R) -> usize
    ensures { AreFewThreads result }
{
    match available_parallelism(rt) {
        Ok(processors) => processors.get().min(MOST_THREADS),
        Err(_) => 1,
    }
}

/// How many jobs of tiles with this side make a slice for so many threads: as many as have no more pixels than a slice
/// has for so many, together.
pub(crate) fn jobs_of(side: u32, threads: usize) -> u64
    requires side { IsTileSide side }
    requires threads { AreFewThreads threads }
    ensures { IsSliceOf side threads result }
{
    SLICE * threads as u64 / (side as u64 * side as u64)
}
