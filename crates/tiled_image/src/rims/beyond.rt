//! The values along the edges of a tile and beyond them, where they stand in rims.

ghost use Rattle.std.specs.Prelude.{◌≡◌, ◌+◌, ◌<◌, ◌≤◌, MatchOption, length, slice_range};
ghost use Rattle.grid_core.specs.Raster.{value_at};
ghost use Rattle.grid_core.specs.Rects.{RectFits};
ghost use Rattle.grid_core.specs.Tiles.{count_of, rect_of};
ghost use Rattle.border_queues.specs.Sides.{AreSidesOf, HaveLengths};
ghost use Rattle.tiled_image.specs.Beyond.{GoesOn, HasLengthAt, IsAlongAt, IsFirstBeyond, IsRaisedOnRim, IsSameBeyond};
ghost use Rattle.tiled_image.specs.Beyond.{opposite};
ghost use Rattle.tiled_image.specs.Rims.{AreRimsOf, room_of};
ghost use Rattle.tiled_image.specs.Sides.{HasSides, HasValues};

use super::border::side_of;
use super::{Edge, Rims, start_of};
use border_queues::{Side, Sides};
use grid_core::{Pixel, Rect, Tiling};
use tile_generations::Rim;

/// The values along the edges of a tile that is raised to this rim, and beyond them: of an image by its rims, and of a
/// mask by its rims. None are given beyond where the image ends.
pub(crate) fn sides_at<'a>(
    rims: &'a Rims,
    limits: &'a Rims,
    tiling: &Tiling,
    tile: usize,
    rim: &'a Rim,
) -> Sides<'a>
    requires count { length rims.now ≡ room_of tiling.now }
    requires limits { length limits.now ≡ room_of tiling.now }
    requires tile { tile < count_of tiling.now }
    requires rim { HasSides (rect_of tiling.now tile) rim.now }
    ensures lengths { HaveLengths tiling.now (rect_of tiling.now tile) result }
    ensures values { (whole mask : _) (value image : _) → AreRimsOf tiling.now whole rims.now
        → AreRimsOf tiling.now mask limits.now → HasValues (rect_of tiling.now tile) value rim.now
        → IsRaisedOnRim tiling.now tile whole value image → IsSameBeyond tiling.now tile whole image
        → AreSidesOf tiling.now (rect_of tiling.now tile) image (value_at mask) result }
{
    Sides {
        above: side_at(rims, limits, tiling, tile, Edge::Top, rim),
        below: side_at(rims, limits, tiling, tile, Edge::Bottom, rim),
        left: side_at(rims, limits, tiling, tile, Edge::Left, rim),
        right: side_at(rims, limits, tiling, tile, Edge::Right, rim),
    }
}

// The values along an edge of a tile that is raised to this rim, and beyond it: of an image by its rims, and of a mask
// by its rims. None are given beyond where the image ends.
fn side_at<'a>(
    rims: &'a Rims,
    limits: &'a Rims,
    tiling: &Tiling,
    tile: usize,
    edge: Edge,
    rim: &'a Rim,
) -> Side<'a>
    requires count { length rims.now ≡ room_of tiling.now }
    requires limits { length limits.now ≡ room_of tiling.now }
    requires tile { tile < count_of tiling.now }
    requires rim { HasSides (rect_of tiling.now tile) rim.now }
    ensures lengths { HasLengthAt tiling.now tile edge result }
    ensures values { (whole mask : _) (value image : _) → AreRimsOf tiling.now whole rims.now
        → AreRimsOf tiling.now mask limits.now → HasValues (rect_of tiling.now tile) value rim.now
        → IsRaisedOnRim tiling.now tile whole value image → IsSameBeyond tiling.now tile whole image
        → IsAlongAt tiling.now tile edge image mask result }
{
    // For its clause alone: how the image is cut into tiles.
    let _ = tiling.side();
    let own = side_of(rim, edge);
    let rect = tiling.rect(tile);
    let Some(q) = pixel_beyond(tiling, rect, edge) else {
        return Side {
            own,
            risen: &[],
            beyond: &[],
            limits: &[],
        };
    };
    let other = tiling.tile_of(q);
    let first = start_of(tiling, tile, edge);
    let start = start_of(tiling, other, opposite(edge));
    let count = own.len();
    Side {
        own,
        risen: part(rims, first, count),
        beyond: part(rims, start, count),
        limits: part(limits, start, count),
    }
}

// The pixel beyond an edge of a rectangle, beside the first pixel of its strip there, if the image goes on.
fn pixel_beyond(tiling: &Tiling, rect: Rect, edge: Edge) -> Option<Pixel>
    requires { RectFits tiling.now.width tiling.now.height rect }
    ensures { MatchOption result (GoesOn tiling.now rect edge → ⊥) (IsFirstBeyond tiling.now rect edge) }
{
    let width = tiling.width();
    let height = tiling.height();
    match edge {
        Edge::Top if rect.y > 0 => Some(Pixel {
            x: rect.x,
            y: rect.y - 1,
        }),
        Edge::Bottom if rect.y + rect.h < height => Some(Pixel {
            x: rect.x,
            y: rect.y + rect.h,
        }),
        Edge::Left if rect.x > 0 => Some(Pixel {
            x: rect.x - 1,
            y: rect.y,
        }),
        Edge::Right if rect.x + rect.w < width => Some(Pixel {
            x: rect.x + rect.w,
            y: rect.y,
        }),
        _ => None,
    }
}

// The edge on the other side.
fn opposite(edge: Edge) -> Edge
    ensures { result ≡ opposite edge }
{
    match edge {
        Edge::Top => Edge::Bottom,
        Edge::Bottom => Edge::Top,
        Edge::Left => Edge::Right,
        Edge::Right => Edge::Left,
    }
}

// So many values from a place on.
fn part(rims: &Rims, start: usize, count: usize) -> &[u16]
    requires { start + count ≤ length rims.now }
    ensures { result.now ≡ slice_range rims.now start (start + count) }
{
    let values: &[u16] = &rims.values;
    &values[start..start + count]
}
