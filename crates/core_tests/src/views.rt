//! The three views of an image: worked examples.

use crate::pictures::grid_of;
use derived_views::{fill, h_maxima, regional_maxima};
use grid_core::{Conn, Grid, Memory};
use pgm_codec::Image;
use raster_sweeps::OneThread;
use std::alloc::Global;

// A view of an image.
#[derive(Clone, Copy)]
enum View {
    Fill,
    // The domes are cut down by this height.
    Domes(u16),
    Maxima,
}

fn view_of(alloc: Global, image: &Image, view: View, conn: Conn) -> Result<Image, Memory> {
    match view {
        View::Fill => fill(&OneThread, alloc, image, conn),
        View::Domes(h) => h_maxima(&OneThread, alloc, image, h, conn),
        View::Maxima => regional_maxima(&OneThread, alloc, image, conn),
    }
}

// Whether the view of a grid has these values.
fn has_view(alloc: Global, grid: &Grid, conn: Conn, view: View, values: &[u16]) -> bool {
    let Ok(image) = Image::from_grid(alloc, grid, u16::MAX) else {
        return false;
    };
    matches!(view_of(alloc, &image, view, conn), Ok(seen) if seen.samples() == values)
}

const RING: &[u16] = &[
    0, 0, 0, 0, 0, 0, 6, 6, 6, 0, 0, 6, 1, 6, 0, 0, 6, 6, 6, 0, 0, 0, 0, 0, 0,
];

const RING_FILLED: &[u16] = &[
    0, 0, 0, 0, 0, 0, 6, 6, 6, 0, 0, 6, 6, 6, 0, 0, 6, 6, 6, 0, 0, 0, 0, 0, 0,
];

// The ring without its corners.
const OPEN: &[u16] = &[
    0, 0, 0, 0, 0, 0, 0, 6, 0, 0, 0, 6, 1, 6, 0, 0, 0, 6, 0, 0, 0, 0, 0, 0, 0,
];

const OPEN_FILLED: &[u16] = &[
    0, 0, 0, 0, 0, 0, 0, 6, 0, 0, 0, 6, 6, 6, 0, 0, 0, 6, 0, 0, 0, 0, 0, 0, 0,
];

// Width and height, values, who are neighbours, and the values of a view.
const EXAMPLES: &[(u32, u32, &[u16], Conn, View, &[u16])] = &[
    (2, 2, &[0; 4], Conn::Four, View::Maxima, &[1; 4]),
    (3, 1, &[0, 1, 0], Conn::Four, View::Maxima, &[0, 1, 0]),
    (
        5,
        1,
        &[1, 4, 3, 5, 1],
        Conn::Four,
        View::Domes(2),
        &[1, 3, 3, 3, 1],
    ),
    (5, 5, RING, Conn::Four, View::Fill, RING_FILLED),
    (5, 5, OPEN, Conn::Four, View::Fill, OPEN_FILLED),
    (5, 5, OPEN, Conn::Eight, View::Fill, OPEN),
];

#[test]
fn views_of_worked_examples(rt: HostRuntime) {
    for (width, height, values, conn, view, want) in EXAMPLES {
        let is_right = match grid_of(rt.alloc(), *width, *height, values) {
            Some(grid) => has_view(rt.alloc(), &grid, *conn, *view, want),
            None => false,
        };
        assert!(rt; is_right, "{want:?}");
    }
}
