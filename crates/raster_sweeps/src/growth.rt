//! Growing in place: until no pair of neighbours is open (Vincent, "Morphological Grayscale Reconstruction in Image
//! Analysis", 1993).

ghost use Rattle.std.specs.Prelude.{◌≡◌, ◌<◌, ◌⊎◌, [], IfOk, IsTrue, OnErr, OnOk, false};
ghost use Rattle.grid_core.specs.Raster.{IsBelow, headroom};
ghost use Rattle.grid_core.specs.Bounds.{LieIn};
ghost use Rattle.raster_sweeps.specs.Growth.{AreSomeOpen, CanClose, CanGrow, IsGrownUp, IsScannedInto, rows_of};
ghost use Rattle.raster_sweeps.specs.OpenBounds.{IsRaisedFrom, OpenPairsBeginIn, RiseWithin};
ghost use Rattle.raster_sweeps.specs.Regrowth.{IsRegrown, IsRegrownIn};

use crate::open_cells::queue_open_cells;
use crate::open_pairs::queue_open_pairs;
use crate::raising::{drain, drain_within, spread};
use crate::scans::{scan_back, scan_down};
use crate::size::Size;
use crate::trail::Trail;
use grid_core::laws::cells_given_back;
use grid_core::{Bounds, Conn, Grid, Memory, Rect};
use row_scans::Waiting;
use std::alloc::Global;

// From more pixels on, whole rows are looked at.
const MANY: u32 = 512;

// How many pixels may rise one by one, before the scans are faster.
const PLACES: usize = 4096;

/// The memory that growing needs: room for the cells whose neighbours are still to be raised.
///
/// It may be used for one rectangle after another. Any room serves any rectangle; where it is small, the growth goes
/// back to whole scans more often.
#[derive(Drop)]
pub struct Room {
    waiting: Waiting,
    trail: Trail,
}

impl Room {
    /// Room for growing in rectangles of about so many pixels: 16 KiB, and 4 bytes for each 64th pixel, but of these at
    /// least 4 KiB.
    ///
    /// Errors: out of memory.
    pub fn new(alloc: Global, pixels: u32) -> Result<Room, Memory> {
        let waiting = Waiting::new(alloc, 1, (pixels as usize / 64).max(1024))?;
        let trail = Trail::new(alloc, PLACES)?;
        Ok(Room { waiting, trail })
    }
}

/// Raises an image inside a rectangle until it is the reconstruction there: of the part of the mask in the rectangle,
/// as an image by itself, from what the image was. The image must be at most the mask, and the rectangle lie in it.
///
/// A raster scan, an anti-raster scan that fills a queue, and then the queue (Vincent 1993). It takes no memory.
pub fn grow_within(room: &mut Room, mask: &Grid, image: &mut Grid, rect: Rect, conn: Conn)
    requires { CanGrow rect mask.now image.old }
    ensures { IsRegrownIn conn rect mask.now image.old image.new }
{
    cells_given_back();
    let size = Size::of(image);
    close(
        mask.cells(),
        image.cells_mut(),
        size,
        rect,
        conn,
        &mut room.waiting,
    );
}

/// Raises an image inside a rectangle as [`grow_within`] does, on whole rows of cells, where only pixels within the
/// bounds can still raise a neighbour in it: where the image was grown there before, and since then pixels within the
/// bounds have risen. The image must be at most the mask, the rectangle lie in it, and the bounds in the rectangle.
///
/// It answers bounds within which these lie and every pixel that rises.
///
/// A queue of its own spreads from the pixels within the bounds that can raise a neighbour, and no others are looked at
/// first. Where it is full, and where more than a few such pixels or many pixels lie within the bounds, it goes on with
/// the scans. It takes no memory.
pub fn grow_rows_from_bounds(
    room: &mut Room,
    mask: &[u16],
    image: &mut [u16],
    size: Size,
    rect: Rect,
    conn: Conn,
    bounds: Bounds,
) -> Bounds
    requires close { CanClose rect (rows_of size mask.now) (rows_of size image.old) }
    requires bounds { OpenPairsBeginIn conn rect (rows_of size mask.now) (rows_of size image.old) bounds }
    requires lie { LieIn bounds rect }
    ensures regrown { IsRegrownIn conn rect (rows_of size mask.now) (rows_of size image.old)
        (rows_of size image.new) }
    ensures rises { RiseWithin rect (rows_of size image.old) (rows_of size image.new) bounds result }
    ensures lie { LieIn result rect }
{
    let risen = raise_from_bounds(mask, image, size, rect, conn, &mut room.trail, bounds);
    if let Some(risen) = risen {
        return risen;
    }
    close(mask, image, size, rect, conn, &mut room.waiting);
    Bounds::of(rect)
}

/// The reconstruction by dilation of `mask` from `marker`, `w * h` cells row by row.
///
/// A raster scan, an anti-raster scan that fills a queue, and then the queue (Vincent 1993).
///
/// Errors: out of memory.
pub fn grow(alloc: Global, mask: &Grid, marker: &Grid, conn: Conn) -> Result<Grid, Memory>
    requires { IsBelow marker.now mask.now }
    ensures { IfOk result (IsRegrown conn mask.now marker.now) }
{
    let mut image = marker.copy(alloc)?;
    grow_in_place(alloc, mask, &mut image, conn)?;
    Ok(image)
}

/// Raises an image until it is the reconstruction of `mask` from what it was. It must be at most the mask.
///
/// This is [`grow`] without a second image.
///
/// Errors: out of memory; the image is then as it was.
pub fn grow_in_place(alloc: Global, mask: &Grid, image: &mut Grid, conn: Conn) -> Result<(), Memory>
    requires { IsBelow image.old mask.now }
    ensures grown { OnOk result (IsRegrown conn mask.now image.old image.new) }
    ensures untouched { OnErr result (image.new ≡ image.old) }
{
    cells_given_back();
    let size = Size::of(image);
    let mut waiting = Waiting::for_rows(alloc, size.w, size.h)?;
    let whole = Rect {
        x: 0,
        y: 0,
        w: size.w,
        h: size.h,
    };
    close(
        mask.cells(),
        image.cells_mut(),
        size,
        whole,
        conn,
        &mut waiting,
    );
    Ok(())
}

// Lets the open pairs of a rectangle within the bounds spread until none is left, and answers the bounds within which
// pixels rose.
//
// It answers none where the bounds are those of the whole rectangle or have many pixels within them, where more than
// half the rectangle's width of these can raise a neighbour, and where the trail is full: scans are faster there.
fn raise_from_bounds(
    mask: &[u16],
    image: &mut [u16],
    size: Size,
    rect: Rect,
    conn: Conn,
    trail: &mut Trail,
    bounds: Bounds,
) -> Option<Bounds>
    requires close { CanClose rect (rows_of size mask.now) (rows_of size image.old) }
    requires bounds { OpenPairsBeginIn conn rect (rows_of size mask.now) (rows_of size image.old) bounds }
    requires lie { LieIn bounds rect }
    ensures { IsRaisedFrom conn rect (rows_of size mask.now) (rows_of size image.old)
        (rows_of size image.new) bounds result }
{
    if bounds.is_empty() {
        return Some(bounds);
    }
    if bounds == Bounds::of(rect) {
        return None;
    }
    let part = bounds.rect();
    if is_large(part) {
        return None;
    }
    trail.clear(size.w);
    if !queue_open_cells(mask, image, size, rect, conn, part, rect.w / 2, trail) {
        return None;
    }
    drain_within(mask, image, size, rect, conn, trail, bounds)
}

// Whether so many pixels lie in a part of a rectangle that the scans are faster than to look at them one by one.
fn is_large(part: Rect) -> bool {
    part.w.saturating_mul(part.h) > MANY
}

/// Raises the image inside a rectangle until no pair of neighbours there is open: by both scans and the queue.
pub fn close(
    mask: &[u16],
    image: &mut [u16],
    size: Size,
    rect: Rect,
    conn: Conn,
    waiting: &mut Waiting,
)
    requires { CanClose rect (rows_of size mask.now) (rows_of size image.old) }
    ensures { IsGrownUp conn rect (rows_of size mask.now) (rows_of size image.old) (rows_of size image.new) }
{
    'rounds: loop {
        let all = fill(mask, image, size, rect, conn, waiting);
        if all && drain(mask, image, size, rect, conn, waiting) {
            return;
        }
    }
}

// Fills the queue with the cells whose neighbours can be raised, by the raster and the anti-raster scan, and says
// whether there was room for all of them. Where there was not, the rows are checked.
fn fill(
    mask: &[u16],
    image: &mut [u16],
    size: Size,
    rect: Rect,
    conn: Conn,
    waiting: &mut Waiting,
) -> bool
    requires { CanClose rect (rows_of size mask.now) (rows_of size image.old) }
    ensures scanned { IsScannedInto conn rect (rows_of size mask.now) (rows_of size image.old)
        (rows_of size image.new) result waiting.new }
    ensures rose { IsTrue result ⊎ (headroom image.new < headroom image.old) }
{
    waiting.clear();
    scan_down(mask, image, size, rect, conn);
    if scan_back(mask, image, size, rect, conn, waiting) {
        return true;
    }
    waiting.clear();
    check(mask, image, size, rect, conn, waiting)
}

// Fills the queue by the check of each row, and says whether there was room for all open pairs. Where there was not,
// the first cell has spread.
fn check(
    mask: &[u16],
    image: &mut [u16],
    size: Size,
    rect: Rect,
    conn: Conn,
    waiting: &mut Waiting,
) -> bool
    requires close { CanClose rect (rows_of size mask.now) (rows_of size image.old) }
    requires empty { waiting.old ≡ [] }
    ensures scanned { IsScannedInto conn rect (rows_of size mask.now) (rows_of size image.old)
        (rows_of size image.new) result waiting.new }
    ensures rose { IsTrue result ⊎ (headroom image.new < headroom image.old) }
{
    if queue_open_pairs(mask, image, size, rect, conn, waiting) {
        return true;
    }
    spread_first(mask, image, size, rect, conn, waiting);
    false
}

// Lets the first of some cells that can raise a neighbour spread.
fn spread_first(
    mask: &[u16],
    image: &mut [u16],
    size: Size,
    rect: Rect,
    conn: Conn,
    waiting: &mut Waiting,
)
    requires close { CanClose rect (rows_of size mask.now) (rows_of size image.old) }
    requires open { AreSomeOpen conn rect (rows_of size mask.now) (rows_of size image.old) waiting.old }
    ensures scanned { IsScannedInto conn rect (rows_of size mask.now) (rows_of size image.old)
        (rows_of size image.new) false waiting.new }
    ensures rose { headroom image.new < headroom image.old }
{
    if let Some(cell) = waiting.pop() {
        let _room = spread(mask, image, size, rect, conn, waiting, cell);
    }
}
