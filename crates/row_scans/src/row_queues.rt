//! The check of rows for cells that can still raise a neighbour, as far as the mask lets it. These are put into the
//! queue.

ghost use Rattle.std.specs.Prelude.{◌<◌, length, min};
ghost use Rattle.row_scans.specs.Rows.{AreAside, AreBeside, AreRowsAt, HaveJoined};
ghost use Rattle.row_scans.specs.Rows.{RaisesStraight, RaisesTo};

use crate::rows::is_closed_straight;
use crate::waiting::Waiting;
use grid_core::Conn;

// How many columns are checked at once.
const STRIP: usize = 64;

/// Puts the cells of the row `from`, which begin at `first`, that raise a neighbour in the row `to`, which touches it,
/// into the queue. It answers whether there was room for all of them.
pub fn queue_to(
    from: &[u16],
    mask: &[u16],
    to: &[u16],
    first: u32,
    strip: usize,
    conn: Conn,
    waiting: &mut Waiting,
) -> bool
    requires some { 0 < length to.now }
    requires rows { AreRowsAt first from.now mask.now to.now }
    ensures { HaveJoined (RaisesTo (AreBeside conn) first from.now mask.now to.now) result waiting.old waiting.new }
{
    if !queue_straight(from, mask, to, first, strip, waiting) {
        return false;
    }
    match conn {
        Conn::Four => true,
        Conn::Eight => queue_aslant(from, mask, to, first, strip, waiting),
    }
}

/// Puts the cells of the row `from`, which begin at `first`, that raise one in the next column of the row `to`, to the
/// right or the left, into the queue. It answers whether there was room for all of them.
pub fn queue_aslant(
    from: &[u16],
    mask: &[u16],
    to: &[u16],
    first: u32,
    strip: usize,
    waiting: &mut Waiting,
) -> bool
    requires some { 0 < length to.now }
    requires rows { AreRowsAt first from.now mask.now to.now }
    ensures { HaveJoined (RaisesTo AreAside first from.now mask.now to.now) result waiting.old waiting.new }
{
    let last = to.len() - 1;
    queue_straight(&from[..last], &mask[1..], &to[1..], first, strip, waiting)
        && queue_straight(
            &from[1..],
            &mask[..last],
            &to[..last],
            first + 1,
            strip,
            waiting,
        )
}

// Puts the cells of the row `from`, which begin at `first`, that raise the one in the same column of the row `to` into
// the queue. It answers whether there was room for all of them.
fn queue_straight(
    from: &[u16],
    mask: &[u16],
    to: &[u16],
    first: u32,
    strip: usize,
    waiting: &mut Waiting,
) -> bool
    requires { AreRowsAt first from.now mask.now to.now }
    ensures { HaveJoined (RaisesStraight first from.now mask.now to.now) result waiting.old waiting.new }
{
    let mut start = 0;
    while start < to.len() {
        let end = (start + STRIP).min(to.len());
        let next = first + start as u32;
        if !queue_strip(
            &from[start..end],
            &mask[start..end],
            &to[start..end],
            next,
            strip,
            waiting,
        ) {
            return false;
        }
        start = end;
    }
    true
}

// The same for a few columns, which are looked at one by one only where a pair is open.
fn queue_strip(
    from: &[u16],
    mask: &[u16],
    to: &[u16],
    first: u32,
    strip: usize,
    waiting: &mut Waiting,
) -> bool
    requires { AreRowsAt first from.now mask.now to.now }
    ensures { HaveJoined (RaisesStraight first from.now mask.now to.now) result waiting.old waiting.new }
{
    if is_closed_straight(from, mask, to) {
        return true;
    }
    for i in 0..to.len() {
        if to[i] < from[i].min(mask[i]) && !waiting.push(strip, first + i as u32) {
            return false;
        }
    }
    true
}
