//! Tiles that are cut out of mask and image before there is a job on them.

ghost use Rattle.std.specs.Prelude.{◌≡◌, IfErr, IfOk};
ghost use Rattle.core_rules.specs.Work.{IsTile};

use super::TiledCore;
use grid_core::Memory;
use reset_core::Core;
use std::alloc::Global;

impl TiledCore {
    /// The core, once each of its tiles is cut out, so that no job has to wait for that.
    ///
    /// Errors: out of memory, with the core put together again.
    pub(super) fn cut(self, alloc: Global) -> Result<TiledCore, (Core, Memory)>
        ensures value { IfOk result (λ tiled. tiled ≡ self) }
        ensures returned { IfErr result (λ e. e.0 ≡ self) }
    {
        let mut tiled = self;
        match tiled.cut_tiles(alloc) {
            Ok(()) => Ok(tiled),
            Err(why) => Err((tiled.into_core(), why)),
        }
    }

    // Cuts each tile out of mask and image.
    //
    // Errors: out of memory.
    fn cut_tiles(&mut self, alloc: Global) -> Result<(), Memory>
        ensures { self.new ≡ self.old }
    {
        for tile in 0..self.tiles() {
            self.cut_tile(alloc, tile)?;
        }
        Ok(())
    }

    // Cuts a tile out of mask and image, where that was not done yet.
    //
    // Errors: out of memory.
    fn cut_tile(&mut self, alloc: Global, tile: usize) -> Result<(), Memory>
        requires { IsTile self.old tile }
        ensures { self.new ≡ self.old }
    {
        let _mask = self.mask_of(alloc, tile)?;
        let _part = self.image.share(alloc, tile)?;
        Ok(())
    }
}
