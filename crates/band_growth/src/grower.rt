//! Growing a whole image by as many threads as are worth while, for those who grow by a `Grower`.

ghost use Rattle.std.specs.Prelude.{◌≡◌, ◌<◌, replicate, IfOk};
ghost use Rattle.band_growth.specs.Sharing.{IsShared};

use crate::growth::grow_in_place_on;
use grid_core::{Conn, Grid, Memory};
use raster_sweeps::{Grower, OneThread};
use std::alloc::{AllocError, Global};
use std::marker::Sync;
use std::thread::{Threads, available_parallelism, join};

// With fewer pixels than these an image is not worth a second thread.
const SHARED_PIXELS: usize = 2_000_000;

/// What threads may share. Each `Sync` type is, so nobody else says it of a type.
///
/// It lets a struct keep for its methods what the bound `Sync` says where the struct is made.
pub trait Shared {
    /// A reference to any value says the same to every thread.
    ghost shared: { Type 0 };
}

impl<R: Sync> Shared for R {
    ghost shared = { IsShared R.row };
}

/// Growing in bands of whole rows, as [`grow_in_place_on`] does (Vincent 1993), by at most as many threads as the
/// system says that may run at once. An image of fewer than 2,000,000 pixels is grown in this thread alone, and so is
/// any image where the system does not say that. What comes of it is the same, and in how many threads is in no public
/// clause.
#[derive(Drop)]
pub struct ManyThreads<'a, R: Shared> {
    rt: &'a R,
    ghost may_share: { ∥ R.shared ∥₁ },
}

impl<'a, R: Threads + Sync> ManyThreads<'a, R> {
    /// Growing by the threads of this handle.
    pub fn new(rt: &'a R) -> Self {
        ManyThreads { rt }
    }
}

impl<'a, R: Threads + Sync> Grower for ManyThreads<'a, R> {
    fn grow(&self, alloc: Global, mask: &Grid, image: &mut Grid, conn: Conn) -> Result<(), Memory> {
        let threads = threads_for(self.rt, image.cells().len());
        grow_in_place_on(self.rt, alloc, mask, image, conn, threads)
    }

    fn zeros_beside<T, F: FnOnce() -> T>(
        &self,
        alloc: Global,
        count: usize,
        work: F,
    ) -> (T, Result<Vec<u16>, AllocError>) {
        if threads_for(self.rt, count) > 1 {
            zeros_in_thread(self.rt, alloc, count, work)
        } else {
            OneThread.zeros_beside(alloc, count, work)
        }
    }
}

// Does some work, and makes so many zeros in a thread of their own.
//
// Linux may put the first thread that a program starts on the processor of the one that starts it, where both share the
// time, and those behind it on idle ones. So the first does nothing.
fn zeros_in_thread<R: Threads, T, F: FnOnce() -> T>(
    rt: &R,
    alloc: Global,
    count: usize,
    work: F,
) -> (T, Result<Vec<u16>, AllocError>)
    requires { F.pre work }
    ensures done { F.post work result.0 }
    ensures zeros { IfOk result.1 (λ cells. cells.items ≡ replicate count 0) }
{
    let both = move || -> (Result<Vec<u16>, AllocError>, T)
        requires { F.pre work }
        ensures zeros { IfOk result.0 (λ cells. cells.items ≡ replicate count 0) }
        ensures done { F.post work result.1 }
    {
        let make = move || -> Result<Vec<u16>, AllocError>
            ensures { IfOk result (λ cells. cells.items ≡ replicate count 0) }
        { vec![in alloc; 0; count] };
        join(rt, make, work)
    };
    let ((), (zeros, done)) = join(rt, || {}, both);
    (done, zeros)
}

// The number of threads for so many pixels.
fn threads_for<R: Threads>(rt: &R, pixels: usize) -> usize
    ensures some { 0 < result }
    ensures few { pixels < 2_000_000 → result ≡ 1 }
{
    if pixels < SHARED_PIXELS {
        return 1;
    }
    match available_parallelism(rt) {
        Ok(processors) => processors.get(),
        Err(_) => 1,
    }
}
