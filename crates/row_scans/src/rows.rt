//! What is asked of rows of pixels, as slices of equal length.

ghost use Rattle.std.specs.Prelude.{◌≡◌, ◌<◌, ◌↔◌, length, IsTrue};
ghost use Rattle.row_scans.specs.Rows.{AreAside, AreBeside, AreRows, IsClosedStraight, IsClosedTo, IsGreatest};

use grid_core::Conn;

// How many pixels of a row are looked at together for one that another pixel of the row raises.
const SECTION: usize = 256;

/// Whether no pixel of the row `from` raises the one in the same column of the row `to`.
pub fn is_closed_straight(from: &[u16], mask: &[u16], to: &[u16]) -> bool
    requires { AreRows from.now mask.now to.now }
    ensures { IsTrue result ↔ IsClosedStraight from.now mask.now to.now }
{
    let mut open = false;
    for i in 0..to.len() {
        open |= to[i] < from[i].min(mask[i]);
    }
    !open
}

// Whether no pixel of the row `from` raises one in the next column, to the right or the left, of the row `to`.
fn is_closed_aslant(from: &[u16], mask: &[u16], to: &[u16]) -> bool
    requires some { 0 < length to.now }
    requires rows { AreRows from.now mask.now to.now }
    ensures { IsTrue result ↔ IsClosedTo AreAside from.now mask.now to.now }
{
    let last = to.len() - 1;
    is_closed_straight(&from[..last], &mask[1..], &to[1..])
        && is_closed_straight(&from[1..], &mask[..last], &to[..last])
}

/// Whether no pixel of the row `from` raises a neighbour in the row `to`, which touches it.
pub fn is_closed_to(from: &[u16], mask: &[u16], to: &[u16], conn: Conn) -> bool
    requires some { 0 < length to.now }
    requires rows { AreRows from.now mask.now to.now }
    ensures { IsTrue result ↔ IsClosedTo (AreBeside conn) from.now mask.now to.now }
{
    is_closed_straight(from, mask, to) && (conn == Conn::Four || is_closed_aslant(from, mask, to))
}

/// Whether no pixel of a row raises the one to its right or to its left. The row is looked at section by section, each
/// beginning at the last pixel of the one before.
pub fn is_closed_along(row: &[u16], mask: &[u16]) -> bool
    requires { length mask.now ≡ length row.now }
    ensures { IsTrue result ↔ IsClosedTo AreAside row.now mask.now row.now }
{
    let mut end = 1;
    while end < row.len() {
        let start = end - 1;
        end = row.len().min(end + SECTION);
        if !is_section_closed(&row[start..end], &mask[start..end]) {
            return false;
        }
    }
    true
}

// Whether no pixel of a section raises the one to its right or to its left. Both are looked at in one pass.
//
// Inside the loop over the sections it would not become vector code.
#[inline(never)]
fn is_section_closed(row: &[u16], mask: &[u16]) -> bool
    requires some { 0 < length row.now }
    requires rows { AreRows row.now mask.now row.now }
    ensures { IsTrue result ↔ IsClosedTo AreAside row.now mask.now row.now }
{
    let last = row.len() - 1;
    let left = &row[..last];
    let right = &row[1..];
    let left_mask = &mask[..last];
    let right_mask = &mask[1..];
    let mut open = false;
    for i in 0..last {
        open |= right[i] < left[i].min(right_mask[i]);
        open |= left[i] < right[i].min(left_mask[i]);
    }
    !open
}

/// The greatest of these values, and 0 where there is none.
pub fn greatest(row: &[u16]) -> u16
    ensures { IsGreatest row.now result }
{
    let mut most = 0;
    for value in row {
        most = most.max(*value);
    }
    most
}
