//! The h-maxima: domes cut down (Vincent, "Morphological Grayscale Reconstruction in Image Analysis", 1993).

ghost use Rattle.std.specs.Prelude.{◌≡◌, ◌-◌, IfOk};
ghost use Rattle.grid_core.specs.Path.{domain_of};
ghost use Rattle.derived_views.specs.HMaxima.{IsHMaxima};
ghost use Rattle.derived_views.specs.Rasters.{mapped};
ghost use Rattle.derived_views.specs.Views.{IsView};

use grid_core::{Conn, Grid, Memory};
use pgm_codec::{Image, below_keeps_maxval};
use raster_sweeps::Grower;
use std::alloc::Global;

/// The h-maxima of an image under this connectivity: its reconstruction from the image less `h`, where no value falls
/// below 0 (Vincent 1993). `h` is 0 to 65535; with 0 the answer is the image. Width, height and maxval are the image's.
/// It grows by `grower`.
///
/// Errors: out of memory.
pub fn h_maxima<G: Grower>(
    grower: &G,
    alloc: Global,
    image: &Image,
    h: u16,
    conn: Conn,
) -> Result<Image, Memory>
    ensures { IfOk result (IsView image.now image.now.maxval (IsHMaxima (domain_of image.now.raster conn) h)) }
{
    let mut grown = lowered(alloc, image.grid(), h)?;
    grower.grow(alloc, image.grid(), &mut grown, conn)?;
    below_keeps_maxval();
    Ok(Image::over(grown, image.maxval()))
}

// Each value less h, and 0 where it is less than h.
pub(crate) fn lowered(alloc: Global, grid: &Grid, h: u16) -> Result<Grid, Memory>
    ensures { IfOk result (λ g. g ≡ mapped (λ v. v - h) grid.now) }
{
    let cells = grid
        .cells()
        .iter()
        .map(|v| v.saturating_sub(h))
        .collect(alloc)?;
    Ok(Grid::from_cells(grid.width(), grid.height(), cells))
}
