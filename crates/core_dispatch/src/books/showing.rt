//! The image and the strokes, copied to be shown.

ghost use Rattle.std.specs.Prelude.{◌≡◌, IfOk};
ghost use Rattle.std.specs.Arc.{arc_value};

use super::Books;
use grid_core::{Grid, Memory};
use std::alloc::Global;
use std::sync::Arc;
use stroke_lattice::State;

impl Books {
    /// A copy of the core's image, to be shared, as [`TiledCore::shared_image`](tiled_core::TiledCore::shared_image)
    /// makes it.
    ///
    /// Errors: out of memory.
    pub fn shared_image(&mut self, alloc: Global, spare: Option<Grid>) -> Result<Arc<Grid>, Memory>
        ensures image { IfOk result (λ copy. arc_value copy ≡ self.old.core.image) }
        ensures same { self.new ≡ self.old }
    {
        self.core.shared_image(alloc, spare)
    }

    /// A copy of the core's strokes, to be shared, as [`TiledCore::shared_state`](tiled_core::TiledCore::shared_state)
    /// makes it.
    ///
    /// Errors: out of memory.
    pub fn shared_state(&mut self, alloc: Global) -> Result<Arc<State>, Memory>
        ensures state { IfOk result (λ copy. arc_value copy ≡ self.old.core.state) }
        ensures same { self.new ≡ self.old }
    {
        self.core.shared_state(alloc)
    }
}
