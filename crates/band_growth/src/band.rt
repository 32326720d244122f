//! One band of rows: how it is grown by itself, and when a part of that is left for later.

ghost use Rattle.std.specs.Prelude.{◌<◌};
ghost use Rattle.band_growth.specs.Steps.{HaveGrownSoFar, HaveGrownUp, MayGrow};

use crate::limits::{Limits, all_of};
use crate::seam::{count_straight, spread_waiting};
use raster_sweeps::steps::{Waiting, row_in, scan_down, scan_up};

/// Raises the rows of a band until no pair of neighbours is open, or, where the band gets brighter from row to row, by
/// the raster scan alone (Vincent 1993). It answers whether no pair is open.
///
/// What lights the last rows of such a band runs up through all of it, and what lights the bands below may do so again.
/// So an anti-raster scan of this band alone would be done twice.
pub fn grow_band(limits: &Limits<'_>, image: &mut [u16], waiting: &mut Waiting) -> bool
    requires { MayGrow limits.now image.old }
    ensures { HaveGrownSoFar limits.now image.old image.new result }
{
    let Limits { mask, size, conn } = *limits;
    scan_down(mask, image, size, all_of(size), conn);
    if is_rising(limits, image) {
        return false;
    }
    close_upwards(limits, image, waiting);
    true
}

/// Raises whole rows until no pair of neighbours is open, by the anti-raster scan and a queue. Where the queue is full,
/// it goes on with both scans (Vincent 1993).
pub fn close_upwards(limits: &Limits<'_>, image: &mut [u16], waiting: &mut Waiting)
    requires { MayGrow limits.now image.old }
    ensures { HaveGrownUp limits.now image.old image.new }
{
    let Limits { mask, size, conn } = *limits;
    waiting.clear();
    let room = scan_up(mask, image, size, all_of(size), conn, waiting);
    spread_waiting(limits, image, room, waiting);
}

// Whether the band gets brighter from row to row: whether its last row is brighter than its middle row, and that one
// than the row a quarter of the way down. This is a matter of speed alone.
fn is_rising(limits: &Limits<'_>, image: &[u16]) -> bool
    requires { MayGrow limits.now image.now }
{
    let rows = limits.size.h;
    is_brighter(limits, image, rows / 2, rows / 4) && is_brighter(limits, image, rows - 1, rows / 2)
}

// Whether in nearly all columns, some seven of eight, a row has a brighter pixel than another row, which the mask lets
// rise.
fn is_brighter(limits: &Limits<'_>, image: &[u16], row: u32, other: u32) -> bool
    requires grow { MayGrow limits.now image.now }
    requires row { row < limits.now.size.h }
    requires other { other < limits.now.size.h }
{
    let Limits { mask, size, .. } = *limits;
    let all = all_of(size);
    let source = row_in(image, size, all, row);
    let most = row_in(mask, size, all, other);
    let target = row_in(image, size, all, other);
    count_straight(source, most, target) > target.len() - target.len() / 8
}
