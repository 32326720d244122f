//! Tiles of a row: the hints over the edge of one, its marker, and the generations of both.

ghost use Rattle.std.specs.Prelude.{IsTrue, ◌<◌};
ghost use Rattle.border_queues.specs.OpenEdges.{HasTileSize, IsOnTiling};
ghost use Rattle.grid_core.specs.Tiles.{count_of};

use crate::pictures::{FOURS, mask_of};
use border_queues::{Hint, Inbox, open_edges};
use grid_core::{Conn, Grid, Pixel, Tiling};
use marker_tiles::Markers;
use std::alloc::Global;
use tile_generations::Generations;

// What the left one of the two tiles, whose generation is 5, tells the right one.
const HINT: Hint = Hint {
    from: 0,
    from_generation: 5,
    to_pixel: Pixel { x: 64, y: 0 },
    value: 4,
};

/// Whether the image has the tiling's width and height.
pub fn is_on(image: &Grid, tiling: &Tiling) -> bool
    ensures { IsTrue result → IsOnTiling tiling.now image.now }
{
    image.width() == tiling.width() && image.height() == tiling.height()
}

// Whether these hints come of the open edges of the left tile, where that is 4, and the image beside it so.
fn tells(alloc: Global, mask: &Grid, tiling: &Tiling, beside: u16, hints: &[Hint]) -> bool {
    let (Some(mut image), Ok(left)) = (mask_of(alloc, &FOURS), Grid::new(alloc, 64, 1, 4)) else {
        return false;
    };
    if let Some(cell) = image.cells_mut().get_mut(64) {
        *cell = beside;
    }
    let mut out = Inbox::new(alloc);
    is_on(mask, tiling)
        && is_on(&image, tiling)
        && has_first(tiling, &left)
        && open_edges(&left, &image, mask, tiling, 0, 5, Conn::Four, &mut out).is_ok()
        && out.as_slice() == hints
}

// Whether the tiling has tiles, and the first has the size of this image.
fn has_first(tiling: &Tiling, left: &Grid) -> bool
    ensures count { IsTrue result → 0 < count_of tiling.now }
    ensures size { IsTrue result → HasTileSize tiling.now 0 left.now }
{
    if tiling.count() == 0 {
        return false;
    }
    let rect = tiling.rect(0);
    left.width() == rect.w && left.height() == rect.h
}

// Whether the marker without strokes is dark in the right tile.
fn is_dark(alloc: Global, mask: &Grid, tiling: &Tiling) -> bool {
    if tiling.count() < 2 || !is_on(mask, tiling) {
        return false;
    }
    let Ok(markers) = Markers::new(alloc, mask, tiling) else {
        return false;
    };
    matches!(markers.tile(alloc, 1), Ok(tile) if tile.cells() == [0; 64].as_slice())
}

// Whether the marked one of two tiles gets the next generation.
fn is_advanced(alloc: Global) -> bool {
    let Ok(mut made) = Generations::starting_at(alloc, 2, 5) else {
        return false;
    };
    let is_right = made.len() == 2 && made.advance(&[false, true]).is_ok();
    is_right && made.len() == 2 && made.current(0) == 5 && made.current(1) == 6
}

// Whether all that is so on the row of fours.
fn are_right(alloc: Global) -> bool {
    let (Some(mask), Ok(tiling)) = (mask_of(alloc, &FOURS), Tiling::new(128, 1, 64)) else {
        return false;
    };
    tells(alloc, &mask, &tiling, 4, &[])
        && tells(alloc, &mask, &tiling, 2, &[HINT])
        && is_dark(alloc, &mask, &tiling)
}

#[test]
fn tiles_have_hints_markers_and_generations(rt: HostRuntime) {
    assert!(rt; are_right(rt.alloc()));
    assert!(rt; is_advanced(rt.alloc()));
}
