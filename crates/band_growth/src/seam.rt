//! Where rows that were grown in two halves meet: what is still open there spreads into both.

ghost use Rattle.std.specs.Prelude.{◌≡◌, ◌+◌, ◌<◌, ◌≤◌, [], length, IsTrue};
ghost use Rattle.row_scans.specs.Rows.{AreRows};
ghost use Rattle.band_growth.specs.Bands.{IsCut};
ghost use Rattle.band_growth.specs.Steps.{ClosedApart, HasRowGrownUp, HaveGrown, HaveGrownInto};
ghost use Rattle.band_growth.specs.Steps.{HaveGrownUp, MayGrow, MayRaise, NoneOpenBetween};

use crate::limits::{Limits, all_of};
use grid_core::Conn;
use raster_sweeps::steps::{
    Waiting, close, drain, is_closed_to, queue_downward, queue_row, raise_row, raise_row_along,
    row_in,
};

/// Raises whole rows until no pair of neighbours is open, where the rows above a cut and those below it are closed by
/// themselves.
///
/// Where many pixels are open there, both scans run on from the cut first. Then a queue spreads from what is still
/// open, and where it is full, it goes on with scans of all rows (Vincent 1993). It takes no memory.
pub fn close_seam(limits: &Limits<'_>, image: &mut [u16], cut: u32, waiting: &mut Waiting)
    requires close { MayGrow limits.now image.old }
    requires cut { IsCut limits.now.size cut }
    requires closed { ClosedApart limits.now image.old cut cut }
    ensures { HaveGrownUp limits.now image.old image.new }
{
    waiting.clear();
    let room = fill(limits, image, cut, waiting);
    spread_waiting(limits, image, room, waiting);
}

/// Raises whole rows until no pair of neighbours is open, where each open pair waits in the queue if there was room for
/// all of them. Where there was not, and where the queue gets full, it goes on with scans of all rows (Vincent 1993).
pub fn spread_waiting(limits: &Limits<'_>, image: &mut [u16], room: bool, waiting: &mut Waiting)
    requires close { MayGrow limits.now image.old }
    requires waits { HaveGrownInto limits.now image.old image.old room waiting.old }
    ensures { HaveGrownUp limits.now image.old image.new }
{
    let Limits { mask, size, conn } = *limits;
    let all = all_of(size);
    if room && drain(mask, image, size, all, conn, waiting) {
        return;
    }
    close(mask, image, size, all, conn, waiting);
}

// Fills the queue with the cells whose neighbours can be raised, and says whether there was room for all of them.
fn fill(limits: &Limits<'_>, image: &mut [u16], cut: u32, waiting: &mut Waiting) -> bool
    requires close { MayGrow limits.now image.old }
    requires cut { IsCut limits.now.size cut }
    requires closed { ClosedApart limits.now image.old cut cut }
    requires empty { waiting.old ≡ [] }
    ensures { HaveGrownInto limits.now image.old image.new result waiting.new }
{
    if is_wide_open(limits, image, cut) {
        let bottom = run_down(limits, image, cut);
        return run_up(limits, image, cut, bottom, waiting);
    }
    let Limits { mask, size, conn } = *limits;
    queue_row(mask, image, size, all_of(size), cut - 1, conn, waiting)
}

// Whether the open pairs across the cut are more than an eighth of a row's pixels. This is a matter of speed alone.
fn is_wide_open(limits: &Limits<'_>, image: &[u16], cut: u32) -> bool
    requires close { MayGrow limits.now image.now }
    requires cut { IsCut limits.now.size cut }
{
    let down = count_raised(limits, image, cut - 1, cut);
    let up = count_raised(limits, image, cut, cut - 1);
    down + up > limits.size.w as usize / 8
}

/// The raster scan (Vincent 1993), from the cut on, until a row is not raised by the one above it. It answers that row,
/// or the number of rows.
pub fn run_down(limits: &Limits<'_>, image: &mut [u16], cut: u32) -> u32
    requires close { MayGrow limits.now image.old }
    requires cut { IsCut limits.now.size cut }
    ensures grown { HaveGrown limits.now image.old image.new }
    ensures closed { ClosedApart limits.now image.old cut cut → ClosedApart limits.now image.new cut result }
    ensures row { result ≤ limits.now.size.h }
{
    let Limits { mask, size, conn } = *limits;
    let all = all_of(size);
    for y in cut..size.h {
        if is_row_closed(limits, image, y - 1, y) {
            return y;
        }
        raise_row(mask, image, size, all, y - 1, y, conn);
    }
    size.h
}

// The anti-raster scan, from the row before `bottom` back through the cut, until a row above it and the one below that
// cannot raise one another. After each row those of its pixels that can still raise one in the row below are put into
// the queue. It answers whether there was room for all of them.
fn run_up(
    limits: &Limits<'_>,
    image: &mut [u16],
    cut: u32,
    bottom: u32,
    waiting: &mut Waiting,
) -> bool
    requires close { MayGrow limits.now image.old }
    requires cut { IsCut limits.now.size cut }
    requires closed { ClosedApart limits.now image.old cut bottom }
    requires row { bottom ≤ limits.now.size.h }
    requires empty { waiting.old ≡ [] }
    ensures { HaveGrownInto limits.now image.old image.new result waiting.new }
{
    let Limits { mask, size, conn } = *limits;
    let all = all_of(size);
    let mut room = true;
    for y in (0..bottom).rev() {
        if y < cut && are_rows_closed(limits, image, y) {
            return room;
        }
        raise_upwards(limits, image, y);
        room = room && queue_downward(mask, image, size, all, y, conn, waiting);
    }
    room
}

// Raises the pixels of row `y` by those of the row below it, where there is one, and then along itself.
fn raise_upwards(limits: &Limits<'_>, image: &mut [u16], y: u32)
    requires row { y < limits.now.size.h }
    requires close { MayGrow limits.now image.old }
    ensures { HasRowGrownUp limits.now y image.old image.new }
{
    let Limits { mask, size, conn } = *limits;
    let all = all_of(size);
    if y + 1 == size.h {
        raise_row_along(mask, image, size, all, y);
        return;
    }
    raise_row(mask, image, size, all, y + 1, y, conn);
}

// Whether no pixel of row `y` can raise one of the row below it, and none of that one of row `y`.
fn are_rows_closed(limits: &Limits<'_>, image: &[u16], y: u32) -> bool
    requires row { y + 1 < limits.now.size.h }
    requires close { MayGrow limits.now image.now }
    ensures up { IsTrue result → NoneOpenBetween limits.now image.now (y + 1) y }
    ensures down { IsTrue result → NoneOpenBetween limits.now image.now y (y + 1) }
{
    is_row_closed(limits, image, y + 1, y) && is_row_closed(limits, image, y, y + 1)
}

// Whether no pixel of a row can raise one of another row, which touches it.
fn is_row_closed(limits: &Limits<'_>, image: &[u16], from: u32, to: u32) -> bool
    requires { MayRaise limits.now image.now from to }
    ensures { IsTrue result → NoneOpenBetween limits.now image.now from to }
{
    let Limits { mask, size, conn } = *limits;
    let all = all_of(size);
    let source = row_in(image, size, all, from);
    let most = row_in(mask, size, all, to);
    let target = row_in(image, size, all, to);
    is_closed_to(source, most, target, conn)
}

// How many pixels of a row can be raised by one that touches it, each counted for every pixel that can raise it.
fn count_raised(limits: &Limits<'_>, image: &[u16], from: u32, to: u32) -> usize
    requires { MayRaise limits.now image.now from to }
    ensures { result ≤ limits.now.size.w + limits.now.size.w + limits.now.size.w }
{
    let Limits { mask, size, conn } = *limits;
    let all = all_of(size);
    let source = row_in(image, size, all, from);
    let most = row_in(mask, size, all, to);
    let target = row_in(image, size, all, to);
    let straight = count_straight(source, most, target);
    match conn {
        Conn::Four => straight,
        Conn::Eight => straight + count_aslant(source, most, target),
    }
}

// How many pixels of a row can be raised by one of the other row in the next column, to the left or the right.
fn count_aslant(from: &[u16], mask: &[u16], to: &[u16]) -> usize
    requires some { 0 < length to.now }
    requires rows { AreRows from.now mask.now to.now }
    ensures { result ≤ length to.now + length to.now }
{
    let last = to.len() - 1;
    count_straight(&from[..last], &mask[1..], &to[1..])
        + count_straight(&from[1..], &mask[..last], &to[..last])
}

/// How many pixels of a row can be raised by the one of the other row in the same column.
pub fn count_straight(from: &[u16], mask: &[u16], to: &[u16]) -> usize
    requires { AreRows from.now mask.now to.now }
    ensures { result ≤ length to.now }
{
    let mut count = 0;
    for i in 0..to.len() {
        count += usize::from(to[i] < from[i].min(mask[i]));
    }
    count
}
