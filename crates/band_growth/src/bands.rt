//! Bands of whole rows, each grown by a thread of its own.

ghost use Rattle.std.specs.Prelude.{◌+◌, ◌<◌, ◌≤◌, length, IsTrue};
ghost use Rattle.band_growth.specs.Bands.{IsCut};
ghost use Rattle.band_growth.specs.Steps.{ClosedApart, HaveGrown, HaveGrownSoFar, HaveGrownUp, MayGrow};

use crate::band::{close_upwards, grow_band};
use crate::limits::{Limits, all_of};
use crate::seam::{close_seam, run_down};
use crossbeam_utils::CachePadded;
use raster_sweeps::steps::{Size, Waiting, close};
use std::marker::Sync;
use std::thread::{Threads, join_mut};

// Where rows are cut, the upper half has a multiple of so many, if it has so many at all.
const EVEN_ROWS: usize = 64;

/// Raises whole rows until no pair of neighbours is open: by as many bands as there are queues, or by one for each row
/// where there are fewer rows.
pub fn grow_rows<R: Threads + Sync>(
    rt: &R,
    limits: &Limits<'_>,
    image: &mut [u16],
    queues: &mut [CachePadded<Waiting>],
)
    requires close { MayGrow limits.now image.old }
    requires some { 0 < length queues.old }
    ensures { HaveGrownUp limits.now image.old image.new }
{
    let Limits { mask, size, conn } = *limits;
    let bands = queues.len();
    if bands == 1 || size.h == 1 {
        close(mask, image, size, all_of(size), conn, &mut queues[0]);
        return;
    }
    if !grow_bands(rt, limits, image, queues) {
        close_bands(limits, image, bands, &mut queues[0]);
    }
}

// Raises whole rows by so many bands until no pair of neighbours is open, or, where each band gets brighter from row to
// row, by the raster scan of each alone. It answers whether no pair is open.
//
// The rows are cut in two, and each half is grown so by itself, with half of the queues. Where both are closed then,
// what is open between them spreads into both. Where one is, the anti-raster scan runs over all these rows. Where
// neither is, that is left to the caller.
#[cycle(bands)]
fn grow_bands<R: Threads + Sync>(
    rt: &R,
    limits: &Limits<'_>,
    image: &mut [u16],
    queues: &mut [CachePadded<Waiting>],
) -> bool
    requires close { MayGrow limits.now image.old }
    requires some { 0 < length queues.old }
    ensures { HaveGrownSoFar limits.now image.old image.new result }
{
    let size = limits.size;
    let bands = queues.len();
    if bands == 1 || size.h == 1 {
        return grow_band(limits, image, &mut queues[0]);
    }
    let cut = cut_of(size.h, bands);
    let (upper, lower) = grow_halves(rt, limits, cut, image, queues);
    if upper && lower {
        close_seam(limits, image, cut, &mut queues[0]);
        return true;
    }
    if upper || lower {
        close_bands(limits, image, bands, &mut queues[0]);
        return true;
    }
    false
}

// Raises whole rows until no pair of neighbours is open, where some of so many bands have had no anti-raster scan: by
// the raster scan from each cut on, and then the anti-raster scan and a queue over all these rows.
fn close_bands(limits: &Limits<'_>, image: &mut [u16], bands: usize, waiting: &mut Waiting)
    requires close { MayGrow limits.now image.old }
    ensures { HaveGrownUp limits.now image.old image.new }
{
    run_down_cuts(limits, image, 0, limits.size.h, bands);
    close_upwards(limits, image, waiting);
}

// Runs the raster scan on from each cut between so many bands, until a row is not raised by the one above it. The bands
// have so many rows together, from the row `first` on.
fn run_down_cuts(limits: &Limits<'_>, image: &mut [u16], first: u32, rows: u32, bands: usize)
    requires close { MayGrow limits.now image.old }
    requires rows { first + rows ≤ limits.now.size.h }
    ensures { HaveGrown limits.now image.old image.new }
{
    if bands <= 1 || rows <= 1 {
        return;
    }
    let cut = cut_of(rows, bands);
    run_down_cuts(limits, image, first, cut, bands / 2);
    run_down(limits, image, first + cut);
    run_down_cuts(limits, image, first + cut, rows - cut, bands - bands / 2);
}

// Raises the rows above a cut, and those below it, by themselves, and answers of each whether no pair of neighbours
// there is open.
#[cycle(bands)]
fn grow_halves<R: Threads + Sync>(
    rt: &R,
    limits: &Limits<'_>,
    cut: u32,
    image: &mut [u16],
    queues: &mut [CachePadded<Waiting>],
) -> (bool, bool)
    requires close { MayGrow limits.now image.old }
    requires cut { IsCut limits.now.size cut }
    requires some { 1 < length queues.old }
    ensures grown { HaveGrown limits.now image.old image.new }
    ensures apart { IsTrue result.0 → IsTrue result.1 → ClosedApart limits.now image.new cut cut }
{
    let Limits { mask, size, conn } = *limits;
    let cells = cut as usize * size.w as usize;
    let (upper_mask, lower_mask) = mask.split_at(cells);
    let above = Limits {
        mask: upper_mask,
        size: Size { w: size.w, h: cut },
        conn,
    };
    let below = Limits {
        mask: lower_mask,
        size: Size {
            w: size.w,
            h: size.h - cut,
        },
        conn,
    };
    let (first, second) = queues.split_at_mut(queues.len() / 2);
    let (upper, lower) = image.split_at_mut(cells);
    grow_both(rt, &above, upper, first, &below, lower, second)
}

// Raises the rows of two images side by side, and answers of each whether no pair of neighbours there is open.
#[cycle(bands)]
fn grow_both<R: Threads + Sync>(
    rt: &R,
    above: &Limits<'_>,
    upper: &mut [u16],
    first: &mut [CachePadded<Waiting>],
    below: &Limits<'_>,
    lower: &mut [u16],
    second: &mut [CachePadded<Waiting>],
) -> (bool, bool)
    requires above { MayGrow above.now upper.old }
    requires below { MayGrow below.now lower.old }
    requires first { 0 < length first.old }
    requires second { 0 < length second.old }
    ensures above { HaveGrownSoFar above.now upper.old upper.new result.0 }
    ensures below { HaveGrownSoFar below.now lower.old lower.new result.1 }
{
    join_mut(
        rt,
        &mut || -> bool
            requires { MayGrow above.now upper.now × (0 < length first.now) }
            ensures { HaveGrownSoFar above.entry.now upper.entry.now upper.exit.now result }
        { grow_bands(rt, above, upper, first) },
        &mut || -> bool
            requires { MayGrow below.now lower.now × (0 < length second.now) }
            ensures { HaveGrownSoFar below.entry.now lower.entry.now lower.exit.now result }
        { grow_bands(rt, below, lower, second) },
    )
}

// The row at which so many rows are cut for so many bands: the first of the lower half.
fn cut_of(rows: u32, bands: usize) -> u32
    requires rows { 1 < rows }
    requires bands { 1 < bands }
    ensures above { 0 < result }
    ensures below { result < rows }
{
    let middle = (rows as usize).saturating_mul(bands / 2) / bands;
    let even = middle / EVEN_ROWS * EVEN_ROWS;
    let cut = if even > 0 { even } else { middle };
    (cut as u32).max(1).min(rows - 1)
}
