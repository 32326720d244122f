//! The hints of a tile's open edges, by the rims of the tiles beside it, into the inboxes of these.

ghost use Rattle.std.specs.Prelude.{◌≡◌, ℕ, ◌<◌, length, OnErr, OnOk};
ghost use Rattle.grid_core.specs.declared.conn.Conn.TheVariants.{Four};
ghost use Rattle.grid_core.specs.declared.pixel.Pixel.{Pixel};
ghost use Rattle.grid_core.specs.Raster.{Raster, value_at};
ghost use Rattle.grid_core.specs.Tiles.{count_of, rect_of};
ghost use Rattle.border_queues.specs.OpenEdges.{open_edges, sender_by};
ghost use Rattle.border_queues.specs.TileWork.{work_of};
ghost use Rattle.tile_work.specs.WorkTable.{AreReceived};
ghost use Rattle.tiled_image.specs.Beyond.{IsRaisedOnRim, IsSameBeyond};
ghost use Rattle.tiled_image.specs.Rims.{AreRimsOf, room_of};
ghost use Rattle.tiled_image.specs.Sides.{HasSides, HasValues};

use super::TiledImage;
use crate::rims::{Rims, sides_at};
use grid_core::Memory;
use tile_generations::Rim;
use tile_work::WorkTable;

impl TiledImage {
    /// Puts the hints of the open edges of a tile, with four neighbours, into the inboxes of the tiles beside it, as
    /// they are once the tile is raised to this rim. The mask has these rims.
    ///
    /// Errors: out of memory, where no inbox changes.
    pub fn tell_along(
        &self,
        limits: &Rims,
        tile: usize,
        rim: &Rim,
        work: &mut WorkTable,
    ) -> Result<(), Memory>
        requires tile { tile < count_of self.now.tiling }
        requires limits { length limits.now ≡ room_of self.now.tiling }
        requires rim { HasSides (rect_of self.now.tiling tile) rim.now }
        requires works { length work.old ≡ count_of self.now.tiling }
        ensures ok { (mask : Raster) (value image : Pixel → ℕ) → AreRimsOf self.now.tiling mask limits.now
            → HasValues (rect_of self.now.tiling tile) value rim.now
            → IsRaisedOnRim self.now.tiling tile self.now.image value image
            → IsSameBeyond self.now.tiling tile self.now.image image
            → OnOk result (AreReceived self.now.tiling (open_edges (sender_by self.now.tiling Four (value_at mask) image
            tile (work_of work.old tile).generation)) work.old work.new) }
        ensures err { OnErr result (work.new ≡ work.old) }
    {
        let tiling = self.tiling();
        let sides = sides_at(&self.rims, limits, &tiling, tile, rim);
        work.receive_along(&tiling, tile, &sides)
    }
}
