//! What strokes show on an image: the reconstruction by dilation from their marker (Vincent 1993).

ghost use Rattle.std.specs.Prelude.{IfOk};
ghost use Rattle.stroke_lattice.specs.State.{StateFits};
ghost use Rattle.marker_tiles.specs.UnderTags.{IsBlankOn};
ghost use Rattle.derived_views.specs.Shown.{IsShown};

use grid_core::{Conn, Grid, Memory};
use marker_tiles::marker_over;
use pgm_codec::{Image, below_keeps_maxval};
use raster_sweeps::{Blanks, Grower};
use std::alloc::Global;
use stroke_lattice::State;

/// The reconstruction by dilation of a mask from the marker of the live strokes of a state, under this connectivity
/// (Vincent 1993). Width, height and maxval are the mask's. Condition: each stroke of the state fits the mask
/// (`State::outside` tells). It grows by `grower`.
///
/// Errors: out of memory.
pub fn reconstruction<G: Grower>(
    grower: &G,
    alloc: Global,
    mask: &Image,
    state: &State,
    conn: Conn,
) -> Result<Image, Memory>
    requires { StateFits mask.now.raster.width mask.now.raster.height state.now }
    ensures { IfOk result (IsShown conn mask.now state.now) }
{
    reconstruction_in(grower, alloc, Blanks::none(alloc), mask, state, conn)
}

/// The reconstruction by dilation of a mask from the marker of a state, as [`reconstruction`] says, in memory of the
/// blanks where these have it for an image of the mask's size.
///
/// Errors: out of memory.
pub fn reconstruction_in<G: Grower>(
    grower: &G,
    alloc: Global,
    blanks: Blanks,
    mask: &Image,
    state: &State,
    conn: Conn,
) -> Result<Image, Memory>
    requires { StateFits mask.now.raster.width mask.now.raster.height state.now }
    ensures { IfOk result (IsShown conn mask.now state.now) }
{
    below_keeps_maxval();
    let blank = blank_in(alloc, blanks, mask.grid())?;
    let mut image = marker_over(blank, mask.grid(), state);
    grower.grow(alloc, mask.grid(), &mut image, conn)?;
    Ok(Image::over(image, mask.maxval()))
}

// An image of zeros of the mask's size, in memory of the blanks where these have it.
//
// Errors: out of memory.
fn blank_in(alloc: Global, blanks: Blanks, mask: &Grid) -> Result<Grid, Memory>
    ensures { IfOk result (IsBlankOn mask.now) }
{
    let mut blanks = blanks;
    if let Some(blank) = blanks.take(mask) {
        return Ok(blank);
    }
    let cells = vec![in alloc; 0; mask.cells().len()]?;
    Ok(Grid::from_cells(mask.width(), mask.height(), cells))
}
