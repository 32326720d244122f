//! Regional maxima (Vincent, "Morphological Grayscale Reconstruction in Image Analysis", 1993).
//!
//! The image less 1 grows inside the image. There a pixel above 0 rises to its value again exactly where some pixel
//! beside its plateau is higher, so the regional maxima are the pixels that stay lower. A pixel of value 0 can not be
//! lowered: it lies on a regional maximum only where the whole image has that value.

ghost use Rattle.std.specs.Prelude.{◌≡◌, ◌<◌, ℕ, length, slice_index, false, IfOk, IsTrue, EachIndex};
ghost use Rattle.grid_core.specs.Path.{domain_of};
ghost use Rattle.derived_views.specs.Plateaus.{IsRegionalMaxima};
ghost use Rattle.derived_views.specs.Rasters.{AreWhereLower, IsWhereLower};
ghost use Rattle.derived_views.specs.Views.{IsView};

use crate::maxima::lowered;
use grid_core::{Conn, Grid, Memory};
use pgm_codec::Image;
use raster_sweeps::Grower;
use std::alloc::Global;

/// The regional maxima of an image under this connectivity: 1 at each pixel of a plateau that strictly lower pixels
/// surround, and 0 elsewhere (Vincent 1993). A plateau that is the whole image counts. Width and height are those of
/// the image, and maxval is 1. It grows by `grower`.
///
/// Errors: out of memory.
pub fn regional_maxima<G: Grower>(
    grower: &G,
    alloc: Global,
    image: &Image,
    conn: Conn,
) -> Result<Image, Memory>
    ensures { IfOk result (IsView image.now 1 (IsRegionalMaxima (domain_of image.now.raster conn))) }
{
    let mut grown = lowered(alloc, image.grid(), 1)?;
    grower.grow(alloc, image.grid(), &mut grown, conn)?;
    let all = is_black(image.samples());
    let maxima = where_lower(image.grid(), grown, all);
    Ok(Image::over(maxima, 1))
}

// Whether no value is above 0.
fn is_black(values: &[u16]) -> bool
    ensures black { IsTrue result → EachIndex values.now (λ k. slice_index values.now k ≡ 0) }
    ensures some { result ≡ false → (k : ℕ) × (k < length values.now) × (0 < slice_index values.now k) }
{
    for i in 0..values.len() {
        if values[i] > 0 {
            return false;
        }
    }
    true
}

// 1 where the second grid is lower than the first one, or where all are asked for, and 0 elsewhere. It is made in the
// memory of the second.
fn where_lower(image: &Grid, grown: Grid, all: bool) -> Grid
    requires width { grown.width ≡ image.now.width }
    requires height { grown.height ≡ image.now.height }
    ensures { IsWhereLower all image.now grown result }
{
    let w = grown.width();
    let h = grown.height();
    let mut cells = grown.into_cells();
    compare_with(image.cells(), &mut cells, all);
    Grid::from_cells(w, h, cells)
}

// Makes each value 1 where it is less than the other, or where all are asked for, and 0 elsewhere.
fn compare_with(others: &[u16], values: &mut [u16], all: bool)
    requires { length others.now ≡ length values.old }
    ensures { AreWhereLower all others.now values.old values.new }
{
    for i in 0..values.len() {
        values[i] = if all || values[i] < others[i] { 1 } else { 0 };
    }
}
