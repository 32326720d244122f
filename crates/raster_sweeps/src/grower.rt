//! What grows a whole image: this thread alone, or some that share the work.

ghost use Rattle.std.specs.Prelude.{◌≡◌, replicate, IfOk, OnErr, OnOk};
ghost use Rattle.grid_core.specs.Raster.{IsBelow};
ghost use Rattle.raster_sweeps.specs.Regrowth.{IsRegrown};

use crate::growth::grow_in_place;
use grid_core::{Conn, Grid, Memory};
use std::alloc::{AllocError, Global};

/// What grows a whole image in place (Vincent 1993).
pub trait Grower {
    /// Raises an image until it is the reconstruction of `mask` from what it was. It must be at most the mask.
    ///
    /// Errors: out of memory; the image is then as it was.
    fn grow(&self, alloc: Global, mask: &Grid, image: &mut Grid, conn: Conn) -> Result<(), Memory>
        requires { IsBelow image.old mask.now }
        ensures grown { OnOk result (IsRegrown conn mask.now image.old image.new) }
        ensures untouched { OnErr result (image.new ≡ image.old) };

    /// Does some work, and makes so many zeros, the cells of an image that is to grow: one behind the other, or both at
    /// once.
    ///
    /// Errors: out of memory, in place of the zeros.
    fn zeros_beside<T, F: FnOnce() -> T>(
        &self,
        alloc: Global,
        count: usize,
        work: F,
    ) -> (T, Result<Vec<u16>, AllocError>)
        requires { F.pre work }
        ensures done { F.post work result.0 }
        ensures zeros { IfOk result.1 (λ cells. cells.items ≡ replicate count 0) };
}

/// Growing in this thread alone, as [`grow_in_place`] does.
#[derive(Clone, Copy)]
pub struct OneThread;

impl Grower for OneThread {
    fn grow(&self, alloc: Global, mask: &Grid, image: &mut Grid, conn: Conn) -> Result<(), Memory> {
        grow_in_place(alloc, mask, image, conn)
    }

    fn zeros_beside<T, F: FnOnce() -> T>(
        &self,
        alloc: Global,
        count: usize,
        work: F,
    ) -> (T, Result<Vec<u16>, AllocError>) {
        let done = work();
        (done, vec![in alloc; 0; count])
    }
}
