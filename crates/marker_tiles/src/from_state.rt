//! The marker of a state, made anew.

ghost use Rattle.std.specs.Prelude.{IfOk};
ghost use Rattle.grid_core.specs.declared.conn.Conn.{Conn};
ghost use Rattle.grid_core.specs.Path.{domain_of};
ghost use Rattle.grid_core.specs.Raster.{IsBelow, IsSized, value_at};
ghost use Rattle.stroke_lattice.specs.State.{StateFits};
ghost use Rattle.marker_tiles.specs.Marker.{IsMarker};
ghost use Rattle.marker_tiles.specs.UnderTags.{IsBlankOn};

use crate::strokes::raise_by_live;
use crate::window::Window;
use grid_core::{Grid, Memory};
use std::alloc::Global;
use stroke_lattice::State;

/// The marker of a mask and a state, `w * h` cells as the mask: at each pixel the lesser of the mask and of the
/// greatest level of a live stroke that covers the pixel, 0 where none does.
///
/// Each stroke of the state, live or not, has to fit the mask.
///
/// Errors: out of memory.
pub fn marker(alloc: Global, mask: &Grid, state: &State) -> Result<Grid, Memory>
    requires { StateFits mask.now.width mask.now.height state.now }
    ensures below { IfOk result (λ m. IsBelow m mask.now) }
    ensures marks { IfOk result (λ m. (conn : Conn)
        → IsMarker (domain_of mask.now conn) (value_at mask.now) state.now (value_at m)) }
{
    let blank = blank(alloc, mask)?;
    Ok(marker_over(blank, mask, state))
}

/// The marker of a mask and a state, as [`marker`] says, in the memory of an image of zeros of the mask's size.
///
/// Each stroke of the state, live or not, has to fit the mask. It takes no memory.
pub fn marker_over(blank: Grid, mask: &Grid, state: &State) -> Grid
    requires fits { StateFits mask.now.width mask.now.height state.now }
    requires blank { IsBlankOn mask.now blank }
    ensures below { IsBelow result mask.now }
    ensures marks { (conn : Conn) → IsMarker (domain_of mask.now conn) (value_at mask.now) state.now (value_at result) }
{
    let mut marker = blank;
    raise_by_live(&mut marker, mask, state, &[Window::whole(mask)]);
    marker
}

/// An image of zeros, of the mask's size.
pub(crate) fn blank(alloc: Global, mask: &Grid) -> Result<Grid, Memory>
    ensures blank { IfOk result (IsBlankOn mask.now) }
    ensures sized { IsSized mask.now }
{
    let cells = vec![in alloc; 0; mask.cells().len()]?;
    Ok(Grid::from_cells(mask.width(), mask.height(), cells))
}
