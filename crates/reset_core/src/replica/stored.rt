//! What a core stores, for a core that keeps its image in another way.

ghost use Rattle.std.specs.Prelude.{◌≡◌};
ghost use Rattle.reset_core.specs.Replica.{core_of, stored_as, IsStored};

use super::Core;
use grid_core::{Conn, Grid};
use marker_tiles::Markers;
use stroke_lattice::State;
use tile_generations::TileMasks;
use tile_work::{OpenBounds, TileSet, WorkTable};

/// What a core stores.
#[derive(Drop)]
pub struct CoreParts {
    /// Which pixels are neighbours.
    pub conn: Conn,
    /// The strokes and tombstones.
    pub state: State,
    /// The mask and the marker of the strokes.
    pub markers: Markers,
    /// The image.
    pub image: Grid,
    /// The work that is left at each tile.
    pub work: WorkTable,
    /// For each tile bounds: an open pair begins within those of its first pixel's tile, or a hint waits for it.
    pub bounds: OpenBounds,
    /// The masks that jobs share.
    pub masks: TileMasks,
    /// The serial of the next job.
    pub serial: u64,
    /// A set without tiles.
    pub marks: TileSet,
    /// Another one.
    pub queue: TileSet,
}

impl Core {
    /// What the core stores, without the core. It takes no memory.
    pub fn into_stored(self) -> CoreParts
        ensures stored { IsStored (stored_as result) }
        ensures core { core_of (stored_as result) ≡ self }
    {
        let Core {
            conn,
            state,
            markers,
            image,
            work,
            bounds,
            masks,
            serial,
            marks,
            queue,
        } = self;
        CoreParts {
            conn,
            state,
            markers,
            image,
            work,
            bounds,
            masks,
            serial,
            marks,
            queue,
        }
    }
}

impl CoreParts {
    /// The core that stores this. It takes no memory.
    pub fn into_core(self) -> Core
        requires { IsStored (stored_as self) }
        ensures { result ≡ core_of (stored_as self) }
    {
        let CoreParts {
            conn,
            state,
            markers,
            image,
            work,
            bounds,
            masks,
            serial,
            marks,
            queue,
        } = self;
        Core {
            conn,
            state,
            markers,
            image,
            work,
            bounds,
            masks,
            serial,
            marks,
            queue,
        }
    }
}
