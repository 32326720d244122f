//! Growing whole images: a worked example, and all small images beside the slow program.

use crate::pictures::grid_of;
use grid_core::{Conn, Grid};
use raster_sweeps::{grow, is_closed, slow};
use std::alloc::Global;

// Whether the slow program floods the mask from the marker into these values.
fn floods_into(alloc: Global, mask: &Grid, marker: &Grid, conn: Conn, values: &[u16]) -> bool {
    if !marker.is_below(mask) {
        return false;
    }
    matches!(slow(alloc, mask, marker, conn), Ok(flood) if flood.cells() == values)
}

// Whether the mask grows from the marker as it is flooded.
fn grows(alloc: Global, mask: &Grid, marker: &Grid, conn: Conn) -> bool {
    if !marker.is_below(mask) {
        return false;
    }
    match grow(alloc, mask, marker, conn) {
        Ok(image) => floods_into(alloc, mask, marker, conn, image.cells()),
        Err(_) => false,
    }
}

// A bend, and what a pair of scans makes of a marker at its lower left end: that leaves it open.
const BEND: &[u16] = &[4, 4, 4, 4, 0, 4];

const SCANNED: &[u16] = &[4, 0, 0, 4, 0, 0];

// Whether the mask grows from the marker into these values, with four neighbours.
fn grows_into(alloc: Global, mask: &Grid, marker: &Grid, values: &[u16]) -> bool {
    grows(alloc, mask, marker, Conn::Four) && floods_into(alloc, mask, marker, Conn::Four, values)
}

// Whether the bend grows whole from its end, and from what the scans made, which is not closed as it is.
fn bend_grows(alloc: Global, bend: &Grid, end: &Grid, scanned: &Grid) -> bool {
    let is_sized = bend.width() == scanned.width() && bend.height() == scanned.height();
    is_sized
        && grows_into(alloc, bend, end, BEND)
        && grows_into(alloc, bend, scanned, BEND)
        && !is_closed(bend, scanned, Conn::Four)
        && is_closed(bend, bend, Conn::Four)
}

#[test]
fn a_bend_grows_beyond_a_pair_of_scans(rt: HostRuntime) {
    let alloc = rt.alloc();
    let bend = grid_of(alloc, 3, 2, BEND);
    let end = grid_of(alloc, 3, 2, &[0, 0, 0, 4, 0, 0]);
    let scanned = grid_of(alloc, 3, 2, SCANNED);
    let is_right = match (&bend, &end, &scanned) {
        (Some(bend), Some(end), Some(scanned)) => bend_grows(alloc, bend, end, scanned),
        _ => false,
    };
    assert!(rt; is_right);
}

// The next values from 0 to 2, the first changing the fastest.
fn advance(values: &mut [u16]) {
    for value in values.iter_mut() {
        if *value < 2 {
            *value += 1;
            return;
        }
        *value = 0;
    }
}

// Whether all pairs of masks and markers that follow on these grow as they are flooded.
fn all_grow(alloc: Global, mask: &mut Grid, marker: &mut Grid) -> bool {
    for number in 1..=729 * 729 {
        if marker.is_below(mask) {
            let is_right = grows(alloc, mask, marker, Conn::Four)
                && grows(alloc, mask, marker, Conn::Eight);
            if !is_right {
                return false;
            }
        }
        advance(marker.cells_mut());
        if number % 729 == 0 {
            advance(mask.cells_mut());
        }
    }
    true
}

// Whether all images of three by two pixels do.
fn all_small_images_grow(alloc: Global) -> bool {
    match (grid_of(alloc, 3, 2, &[0; 6]), grid_of(alloc, 3, 2, &[0; 6])) {
        (Some(mut mask), Some(mut marker)) => all_grow(alloc, &mut mask, &mut marker),
        _ => false,
    }
}

#[test]
fn all_small_images_grow_as_they_are_flooded(rt: HostRuntime) {
    assert!(rt; all_small_images_grow(rt.alloc()));
}
