//! Growing a whole image by bands of rows, each in a thread of its own (Vincent, "Morphological Grayscale
//! Reconstruction in Image Analysis", 1993).

ghost use Rattle.std.specs.Prelude.{◌≡◌, ◌/◌, ◌<◌, ◌≤◌, IfOk, OnErr, OnOk, max, min, vec_len};
ghost use Rattle.grid_core.specs.Raster.{IsBelow, IsImageSize};
ghost use Rattle.raster_sweeps.specs.Regrowth.{IsRegrown};

use crate::bands::grow_rows;
use crate::limits::Limits;
use crossbeam_utils::CachePadded;
use grid_core::laws::cells_given_back;
use grid_core::{Conn, Grid, Memory};
use raster_sweeps::steps::{Size, Waiting};
use std::alloc::{AllocError, Global};
use std::marker::Sync;
use std::thread::Threads;

// With fewer rows than these a band is not worth a thread.
const BAND_ROWS: u32 = 256;

/// The reconstruction by dilation of `mask` from `marker`, `w * h` cells row by row, by at most so many threads.
///
/// It is the image that `grow` of `raster_sweeps` gives. The rows are cut into 2, 4 or 8 bands of at least 256 rows,
/// or into none. A thread grows each by a raster scan, an anti-raster scan and a queue (Vincent 1993), and where two
/// have met, what is still open between them spreads into both. Bands that get brighter from row to row have their
/// anti-raster scan together. A thread that cannot start is no error: its band is then grown here.
///
/// Errors: out of memory.
pub fn grow_on<R: Threads + Sync>(
    rt: &R,
    alloc: Global,
    mask: &Grid,
    marker: &Grid,
    conn: Conn,
    threads: usize,
) -> Result<Grid, Memory>
    requires { IsBelow marker.now mask.now }
    ensures { IfOk result (IsRegrown conn mask.now marker.now) }
{
    let mut image = marker.copy(alloc)?;
    grow_in_place_on(rt, alloc, mask, &mut image, conn, threads)?;
    Ok(image)
}

/// Raises an image until it is the reconstruction of `mask` from what it was, by at most so many threads. It must be at
/// most the mask.
///
/// This is [`grow_on`] without a second image (Vincent 1993).
///
/// Errors: out of memory; the image is then as it was.
pub fn grow_in_place_on<R: Threads + Sync>(
    rt: &R,
    alloc: Global,
    mask: &Grid,
    image: &mut Grid,
    conn: Conn,
    threads: usize,
) -> Result<(), Memory>
    requires { IsBelow image.old mask.now }
    ensures grown { OnOk result (IsRegrown conn mask.now image.old image.new) }
    ensures untouched { OnErr result (image.new ≡ image.old) }
{
    let bands = bands_for(threads, image.height());
    grow_in_bands(rt, alloc, mask, image, conn, bands)
}

/// Raises an image as [`grow_in_place_on`] does, by at most so many bands, and at least one. A band has at least a row.
///
/// The bands are grown by the two scans and the queue of Vincent 1993. All memory is taken before a cell rises.
///
/// Errors: out of memory; the image is then as it was.
pub fn grow_in_bands<R: Threads + Sync>(
    rt: &R,
    alloc: Global,
    mask: &Grid,
    image: &mut Grid,
    conn: Conn,
    bands: usize,
) -> Result<(), Memory>
    requires { IsBelow image.old mask.now }
    ensures grown { OnOk result (IsRegrown conn mask.now image.old image.new) }
    ensures untouched { OnErr result (image.new ≡ image.old) }
{
    cells_given_back();
    let size = Size::of(image);
    let mut queues = queues_for(alloc, size, bands)?;
    let mask = mask.cells();
    let limits = Limits { mask, size, conn };
    grow_rows(rt, &limits, image.cells_mut(), &mut queues);
    Ok(())
}

// The number of bands for so many threads: the greatest power of two of at most 8 that leaves each band rows enough.
fn bands_for(threads: usize, rows: u32) -> usize
    ensures some { 0 < result }
    ensures threads { result ≤ max threads 1 }
    ensures rows { result ≤ max (rows / 256) 1 }
{
    match threads.min((rows / BAND_ROWS) as usize) {
        0..=1 => 1,
        2..=3 => 2,
        4..=7 => 4,
        _ => 8,
    }
}

// A queue for each band. The first serves all rows as well, and each other one no more than about half of them. No two
// lie on one line of a cache, as each is written to by another thread.
fn queues_for(
    alloc: Global,
    size: Size,
    bands: usize,
) -> Result<Vec<CachePadded<Waiting>>, AllocError>
    requires { IsImageSize size.w size.h }
    ensures { IfOk result (λ queues. vec_len queues ≡ max (min bands size.h) 1) }
{
    let count = bands.min(size.h as usize).max(1);
    let mut queues = Vec::with_capacity(alloc, count)?;
    for band in 0..count {
        let rows = if band == 0 {
            size.h
        } else {
            size.h.div_ceil(2)
        };
        let queue = Waiting::for_rows(alloc, size.w, rows)?;
        queues.push_reserved(CachePadded::new(queue));
    }
    Ok(queues)
}
