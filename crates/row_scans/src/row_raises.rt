//! How a scan raises a row: by another row that touches it, and along itself.

ghost use Rattle.std.specs.Prelude.{◌≡◌, ◌+◌, ◌<◌, ◌≤◌, length, IsTrue};
ghost use Rattle.row_scans.specs.Rows.{AreAside, AreBeside, AreRows, IsClosedTo};
ghost use Rattle.row_scans.specs.RowRaises.{AreApart, AreCellsRaised, IsRaisedBy, IsRaisedFromLeft};
ghost use Rattle.row_scans.specs.RowRaises.{IsRaisedFromRight, IsRaisedStraight};
ghost use Rattle.row_scans.specs.RowRaises.{IsLetIn, IsReachAt, IsTwiceFromLeft, IsTwiceFromRight};

use crate::rows::is_closed_straight;
use grid_core::Conn;

// How many pixels of a row are looked at together for one that is raised.
const BLOCK: usize = 64;

// How many pixels of such a block are raised together.
const STRIP: usize = 16;

// The pixels of such a strip: the level of each, raised by those so many pixels before it, and the cap up to which what
// comes from beyond them can still raise it.
#[derive(Clone, Copy)]
struct Reach {
    levels: [u16; STRIP],
    caps: [u16; STRIP],
}

/// Raises each pixel of a row by its neighbours in a row that touches it, as far as the mask lets it, so that none of
/// these can raise it further.
pub fn raise_by(mask: &[u16], by: &[u16], row: &mut [u16], conn: Conn)
    requires some { 0 < length row.old }
    requires rows { AreRows by.now mask.now row.old }
    ensures raised { IsRaisedBy (AreBeside conn) mask.now by.now row.old row.new }
    ensures closed { IsClosedTo (AreBeside conn) by.now mask.now row.new }
{
    raise_straight(mask, by, row);
    if conn == Conn::Eight {
        raise_aslant(mask, by, row);
    }
}

/// Raises the row of cells that begins at `target` by the row that begins at `source`, above or below it.
pub fn raise_cells_by(limits: &[u16], cells: &mut [u16], source: usize, target: usize, conn: Conn)
    requires { AreApart (length limits.now) source target (length cells.old) }
    ensures { AreCellsRaised conn limits.now source target cells.old cells.new }
{
    let size = limits.len();
    if source < target {
        let (above, below) = cells.split_at_mut(target);
        raise_by(
            limits,
            &above[source..source + size],
            &mut below[..size],
            conn,
        );
    } else {
        let (above, below) = cells.split_at_mut(source);
        raise_by(
            limits,
            &below[..size],
            &mut above[target..target + size],
            conn,
        );
    }
}

// Raises each pixel of a row by those of another in the columns to its left and right, as far as the mask lets it.
fn raise_aslant(mask: &[u16], by: &[u16], row: &mut [u16])
    requires some { 0 < length row.old }
    requires rows { AreRows by.now mask.now row.old }
    ensures raised { IsRaisedBy AreAside mask.now by.now row.old row.new }
    ensures closed { IsClosedTo AreAside by.now mask.now row.new }
{
    let last = row.len() - 1;
    raise_straight(&mask[1..], &by[..last], &mut row[1..]);
    raise_straight(&mask[..last], &by[1..], &mut row[..last]);
}

// Raises each pixel of a row by the one in the same column of another, as far as the mask lets it.
//
// Inside the loop over the rows it would not become vector code.
#[inline(never)]
fn raise_straight(mask: &[u16], by: &[u16], row: &mut [u16])
    requires { AreRows by.now mask.now row.old }
    ensures { IsRaisedStraight mask.now by.now row.old row.new }
{
    for i in 0..row.len() {
        row[i] = row[i].max(by[i].min(mask[i]));
    }
}

/// Raises each pixel of a row, from the left, by the one to its left, as far as the mask lets it.
pub fn raise_from_left(mask: &[u16], row: &mut [u16])
    requires { length mask.now ≡ length row.old }
    ensures { IsRaisedFromLeft mask.now row.old row.new }
{
    let mut end = 1;
    while end < row.len() {
        let start = end - 1;
        end = row.len().min(end + BLOCK);
        raise_block_from_left(&mask[start..end], &mut row[start..end]);
    }
}

// Raises each pixel of a block but the first, from the left, strip by strip, where there is one to be raised.
fn raise_block_from_left(mask: &[u16], block: &mut [u16])
    requires { (0 < length block.old) × (length mask.now ≡ length block.old) }
    ensures { IsRaisedFromLeft mask.now block.old block.new }
{
    if is_raised_from_left(mask, block) {
        return;
    }
    let mut end = 1;
    while end < block.len() {
        let start = end - 1;
        end = block.len().min(end + STRIP);
        raise_strip_from_left(&mask[start..end], &mut block[start..end]);
    }
}

// Raises each pixel of a strip but the first, from the left: a whole one by looking twice as far again and again, so
// that no pixel waits for the one before it.
fn raise_strip_from_left(mask: &[u16], strip: &mut [u16])
    requires { (0 < length strip.old) × (length mask.now ≡ length strip.old) }
    ensures { IsRaisedFromLeft mask.now strip.old strip.new }
{
    if strip.len() < STRIP || strip.len() > STRIP + 1 {
        run_from_left(mask, strip);
        return;
    }
    let start = strip.len() - STRIP;
    let level = strip[0];
    let two = twice_from_left(reach_at(mask, strip, start), 1);
    let four = twice_from_left(two, 2);
    let eight = twice_from_left(four, 4);
    let_in(strip, start, level, twice_from_left(eight, 8));
}

// The pixels of a row from `start` on, each by itself.
#[inline(always)]
fn reach_at(mask: &[u16], row: &[u16], start: usize) -> Reach
    requires within { start + 16 ≤ length row.now }
    requires same { length mask.now ≡ length row.now }
    ensures { IsReachAt start mask.now row.now result }
{
    let mut reach = Reach {
        levels: [0; STRIP],
        caps: [0; STRIP],
    };
    for i in 0..STRIP {
        reach.levels[i] = row[start + i];
        reach.caps[i] = mask[start + i];
    }
    reach
}

// Raises the pixels of a row from `start` on to what they reach, by a level that comes from beyond.
#[inline(always)]
fn let_in(row: &mut [u16], start: usize, level: u16, reach: Reach)
    requires { start + 16 ≤ length row.old }
    ensures { IsLetIn start level reach row.old row.new }
{
    for i in 0..STRIP {
        row[start + i] = reach.levels[i].max(level.min(reach.caps[i]));
    }
}

// Lets each pixel of a strip look on to the one so many before it, and so twice as far.
#[inline(always)]
fn twice_from_left(reach: Reach, by: usize) -> Reach
    ensures { IsTwiceFromLeft by reach result }
{
    let mut next = reach;
    for i in by..STRIP {
        next.levels[i] = reach.levels[i].max(reach.levels[i - by].min(reach.caps[i]));
        next.caps[i] = reach.caps[i].min(reach.caps[i - by]);
    }
    next
}

// Raises each pixel of a row, from the left, by the one to its left, as far as the mask lets it.
fn run_from_left(mask: &[u16], row: &mut [u16])
    requires { length mask.now ≡ length row.old }
    ensures { IsRaisedFromLeft mask.now row.old row.new }
{
    let mut level = 0;
    for i in 0..row.len() {
        level = row[i].max(level.min(mask[i]));
        row[i] = level;
    }
}

/// Raises each pixel of a row, from the right, by the one to its right, as far as the mask lets it.
pub fn raise_from_right(mask: &[u16], row: &mut [u16])
    requires { length mask.now ≡ length row.old }
    ensures { IsRaisedFromRight mask.now row.old row.new }
{
    let mut end = row.len();
    while end > 1 {
        let start = (end - 1).saturating_sub(BLOCK);
        raise_block_from_right(&mask[start..end], &mut row[start..end]);
        end = start + 1;
    }
}

// Raises each pixel of a block but the last, from the right, strip by strip, where there is one to be raised.
fn raise_block_from_right(mask: &[u16], block: &mut [u16])
    requires { (0 < length block.old) × (length mask.now ≡ length block.old) }
    ensures { IsRaisedFromRight mask.now block.old block.new }
{
    if is_raised_from_right(mask, block) {
        return;
    }
    let mut end = block.len();
    while end > 1 {
        let start = (end - 1).saturating_sub(STRIP);
        raise_strip_from_right(&mask[start..end], &mut block[start..end]);
        end = start + 1;
    }
}

// Raises each pixel of a strip but the last, from the right, as [`raise_strip_from_left`] from the left.
fn raise_strip_from_right(mask: &[u16], strip: &mut [u16])
    requires { (0 < length strip.old) × (length mask.now ≡ length strip.old) }
    ensures { IsRaisedFromRight mask.now strip.old strip.new }
{
    if strip.len() < STRIP || strip.len() > STRIP + 1 {
        run_from_right(mask, strip);
        return;
    }
    let level = strip[strip.len() - 1];
    let two = twice_from_right(reach_at(mask, strip, 0), 1);
    let four = twice_from_right(two, 2);
    let eight = twice_from_right(four, 4);
    let_in(strip, 0, level, twice_from_right(eight, 8));
}

// Lets each pixel of a strip look on to the one so many behind it, and so twice as far.
#[inline(always)]
fn twice_from_right(reach: Reach, by: usize) -> Reach
    requires { by ≤ 16 }
    ensures { IsTwiceFromRight by reach result }
{
    let mut next = reach;
    for i in 0..STRIP - by {
        next.levels[i] = reach.levels[i].max(reach.levels[i + by].min(reach.caps[i]));
        next.caps[i] = reach.caps[i].min(reach.caps[i + by]);
    }
    next
}

// Raises each pixel of a row, from the right, by the one to its right, as far as the mask lets it.
fn run_from_right(mask: &[u16], row: &mut [u16])
    requires { length mask.now ≡ length row.old }
    ensures { IsRaisedFromRight mask.now row.old row.new }
{
    let mut level = 0;
    for i in (0..row.len()).rev() {
        level = row[i].max(level.min(mask[i]));
        row[i] = level;
    }
}

// Whether no pixel of a row raises the one to its right.
fn is_raised_from_left(mask: &[u16], row: &[u16]) -> bool
    requires { (0 < length row.now) × (length mask.now ≡ length row.now) }
    ensures { IsTrue result → IsRaisedFromLeft mask.now row.now row.now }
{
    let last = row.len() - 1;
    is_closed_straight(&row[..last], &mask[1..], &row[1..])
}

// Whether no pixel of a row raises the one to its left.
fn is_raised_from_right(mask: &[u16], row: &[u16]) -> bool
    requires { (0 < length row.now) × (length mask.now ≡ length row.now) }
    ensures { IsTrue result → IsRaisedFromRight mask.now row.now row.now }
{
    let last = row.len() - 1;
    is_closed_straight(&row[1..], &mask[..last], &row[..last])
}
