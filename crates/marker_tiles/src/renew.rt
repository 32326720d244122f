//! The marker of a state after a change.

ghost use Rattle.marker_tiles.specs.Kept.{IsMarkerOf, HasGrown};
ghost use Rattle.grid_core.specs.Raster.{IsOfSize};

use crate::strokes::{clear_of, raise_by, raise_by_live, windows_round};
use grid_core::Grid;
use stroke_core::Tag;
use stroke_lattice::State;

/// Makes the marker of the state before a change that of the state after it.
///
/// The strokes that were born are painted. Those that died are cleared, and all live ones are painted again within
/// windows round the cleared pixels: elsewhere nothing of theirs was lost.
pub(crate) fn renew(marker: &mut Grid, mask: &Grid, state: &State, born: &[Tag], dead: &[Tag])
    requires size { IsOfSize mask.now marker.old }
    requires known { HasGrown mask.now marker.old state.now (record { born = born.now; dead = dead.now }) }
    ensures size { IsOfSize mask.now marker.new }
    ensures marks { IsMarkerOf mask.now state.now marker.new }
{
    raise_by(marker, mask, state, born);
    if !dead.is_empty() {
        clear_of(marker, mask, state, dead);
        let windows = windows_round(mask, state, dead);
        raise_by_live(marker, mask, state, windows.as_slice());
    }
}
