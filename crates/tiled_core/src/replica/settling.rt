//! Settling in bands of rows of tiles.

ghost use Rattle.tiled_image.specs.Settling.{HasSettled, IsSettledFor};

use super::TiledCore;
use border_queues::laws::edges_are_open;
use core::mem::replace_with;
use grid_core::{Grid, Memory};
use reset_core::{CoreParts, Count, Slice};
use std::alloc::Global;
use std::marker::Sync;
use std::thread::Threads;

impl TiledCore {
    /// Settles for a slice, as [`Core::settle_in_bands`](reset_core::Core::settle_in_bands) does: each job that is out
    /// is abandoned and each hint handed over; then no more than `jobs` tiles are swept, by up to so many threads. What
    /// was put in since the last merge is written into rows first, so that it costs that too. A core that is quiet
    /// stays as it is.
    ///
    /// Errors: out of memory, where there is work. Some of the work may be done then.
    pub fn settle_in_bands<R: Threads + Sync>(
        &mut self,
        rt: &R,
        alloc: Global,
        threads: usize,
        jobs: u64,
    ) -> Result<Slice, Memory>
        ensures { IsSettledFor self.old jobs result self.new }
    {
        edges_are_open();
        // A look at a field opens the core, so that what each core keeps is known.
        let _conn = self.conn;
        if self.is_quiet() {
            return Ok(Slice {
                count: Count {
                    jobs: 0,
                    abandons: 0,
                },
                is_quiet: true,
            });
        }
        replace_with(
            self,
            (),
            |core: TiledCore, _nothing: ()| -> (TiledCore, Result<Slice, Memory>)
                ensures { HasSettled core jobs result.1 result.0 }
            { settled(core, rt, alloc, threads, jobs) },
        )
    }
}

// The core, settled for a slice by up to so many threads, in no more than so many jobs.
//
// Errors: out of memory. Some of the work may be done then.
fn settled<R: Threads + Sync>(
    core: TiledCore,
    rt: &R,
    alloc: Global,
    threads: usize,
    jobs: u64,
) -> (TiledCore, Result<Slice, Memory>)
    ensures { HasSettled core jobs result.1 result.0 }
{
    // It stands for the image meanwhile.
    let Ok(no_image) = Grid::new(alloc, 1, 1, 0) else {
        return (core, Err(Memory));
    };
    let parts = CoreParts {
        conn: core.conn,
        state: core.state,
        markers: core.markers,
        image: no_image,
        work: core.work,
        bounds: core.bounds,
        masks: core.masks,
        serial: core.serial,
        marks: core.marks,
        queue: core.queue,
    };
    let mut image = core.image;
    let mut beside = core.beside;
    let (parts, done) = image.settle_in_bands(rt, alloc, parts, threads, jobs);
    beside.forget();
    let settled = TiledCore {
        conn: parts.conn,
        state: parts.state,
        markers: parts.markers,
        image,
        work: parts.work,
        bounds: parts.bounds,
        masks: parts.masks,
        serial: parts.serial,
        marks: parts.marks,
        queue: parts.queue,
        beside,
        ..core
    };
    (settled, done)
}
