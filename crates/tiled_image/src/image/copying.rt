//! Images in tiles that are copied into rows.

ghost use Rattle.std.specs.Prelude.{◌≡◌, IfOk};
ghost use Rattle.std.specs.Arc.{arc_value};

use super::TiledImage;
use crate::folding::{fold_all, write_raised};
use crate::keeping::write_parts;
use crate::updating::copy_tiles;
use grid_core::{Grid, Memory};
use std::alloc::Global;
use std::sync::Arc;

impl TiledImage {
    /// A copy of the image, as rows.
    ///
    /// Errors: out of memory.
    pub fn copy(&self, alloc: Global) -> Result<Grid, Memory>
        ensures { IfOk result (λ g. g ≡ self.now.image) }
    {
        let mut image = self.rows.copy(alloc)?;
        write_parts(&self.tiling, &mut image, &self.parts, &self.newer);
        write_raised(&self.tiling, &self.raised, &self.rims, &mut image);
        Ok(image)
    }

    /// Copies the image into one of the same size. It takes no memory.
    pub fn copy_into(&self, image: &mut Grid)
        requires width { image.old.width ≡ self.now.image.width }
        requires height { image.old.height ≡ self.now.image.height }
        ensures { image.new ≡ self.now.image }
    {
        image.assign(&self.rows);
        write_parts(&self.tiling, image, &self.parts, &self.newer);
        write_raised(&self.tiling, &self.raised, &self.rims, image);
    }

    /// A copy of the image, as rows, to be shared. The last three of these copies are kept. Where nobody else holds the
    /// oldest of them any more, it is brought up to date: only the tiles that changed since it was made are copied.
    /// Else the whole image is copied, into the spare one where that is there and of the image's size.
    ///
    /// Errors: out of memory.
    pub fn shared_copy(&mut self, alloc: Global, spare: Option<Grid>) -> Result<Arc<Grid>, Memory>
        ensures copy { IfOk result (λ copy. arc_value copy ≡ self.old.image) }
        ensures same { self.new ≡ self.old }
    {
        let copy = Arc::new(alloc, self.next_copy(alloc, spare)?)?;
        self.copies.keep(Arc::try_clone(&copy)?);
        Ok(copy)
    }

    // A copy of the image: the oldest one of those that were given out, brought up to date, where nobody else holds it,
    // else the whole image.
    //
    // Errors: out of memory.
    fn next_copy(&mut self, alloc: Global, spare: Option<Grid>) -> Result<Grid, Memory>
        ensures copy { IfOk result (λ copy. copy ≡ self.old.image) }
        ensures same { self.new ≡ self.old }
    {
        let Some(oldest) = self.copies.take_oldest() else {
            return self.copy_over(alloc, spare);
        };
        fold_all(
            Some(alloc),
            &self.tiling,
            &mut self.rows,
            &mut self.parts,
            &mut self.newer,
            &mut self.raised,
            &self.rims,
        );
        let mut copy = oldest;
        let stale = self.copies.stale();
        copy_tiles(
            &self.tiling,
            &self.rows,
            &self.parts,
            &self.newer,
            stale,
            &mut copy,
        );
        Ok(copy)
    }

    // A copy of the image, in the spare one where that is there and of the image's size.
    //
    // Errors: out of memory.
    fn copy_over(&self, alloc: Global, spare: Option<Grid>) -> Result<Grid, Memory>
        ensures { IfOk result (λ copy. copy ≡ self.now.image) }
    {
        let Some(spare) = spare else {
            return self.copy(alloc);
        };
        if spare.width() != self.rows.width() || spare.height() != self.rows.height() {
            return self.copy(alloc);
        }
        let mut copy = spare;
        self.copy_into(&mut copy);
        Ok(copy)
    }
}
