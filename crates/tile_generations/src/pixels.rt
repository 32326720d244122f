//! The pixels that a job begins with.

ghost use Rattle.std.specs.Prelude.{◌≡◌};
ghost use Rattle.tile_generations.specs.Bases.{raster_of};

use grid_core::Grid;
use std::sync::Arc;

/// The base of a job: pixels of its own, or pixels that are shared with others. Its model is the job's, since an enum
/// cannot have one.
#[derive(Debug, Drop)]
pub(crate) enum Base {
    Own(Grid),
    Shared(Arc<Grid>),
}

impl Base {
    /// The pixels, whoever owns them.
    pub(crate) fn grid(&self) -> &Grid
        ensures { result.now ≡ raster_of self.now }
    {
        match self {
            Base::Own(grid) => grid,
            Base::Shared(grid) => grid,
        }
    }
}
