//! What a hand floods with.

ghost use Rattle.std.specs.Prelude.{IfOk};
ghost use Rattle.live_board.specs.Floods.{IsDraftOf};

use crate::board::Board;
use crate::trail::Trail;
use grid_core::{Grid, Memory};
use raster_sweeps::Room;
use std::alloc::Global;

/// The memory of a hand's floods: an image of the board's size, and room for growing in it and beyond. Any draft of a
/// board serves any of its hands, for one flood after another.
#[derive(Drop)]
pub struct Draft {
    pub(crate) image: Grid,
    pub(crate) room: Room,
    pub(crate) trail: Trail,
}

impl Board {
    /// A draft for floods.
    ///
    /// Errors: out of memory.
    pub fn draft(&self, alloc: Global) -> Result<Draft, Memory>
        ensures { IfOk result (IsDraftOf self.now) }
    {
        let image = self.base.mask.grid().copy(alloc)?;
        let room = Room::new(alloc, image.width() * image.height())?;
        let trail = Trail::new(alloc)?;
        Ok(Draft { image, room, trail })
    }
}
