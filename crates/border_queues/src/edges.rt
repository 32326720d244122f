//! The hints of a tile's open edges.

ghost use Rattle.std.specs.Prelude.{◌≡◌, ℕ, ◌+◌, ◌<◌, ◌≤◌};
ghost use Rattle.grid_core.specs.declared.pixel.Pixel.{Pixel};
ghost use Rattle.grid_core.specs.Bounds.{LieIn};
ghost use Rattle.grid_core.specs.Raster.{value_at};
ghost use Rattle.grid_core.specs.Tiles.{count_of, rect_of};
ghost use Rattle.border_queues.specs.Waiting.{AddsOrFails};
ghost use Rattle.border_queues.specs.OpenEdges.{EdgesBeginIn, HasTileSize, HaveTile, open_edges};
ghost use Rattle.border_queues.specs.OpenEdges.{room_for_edges, sender_by, with_tile};
ghost use Rattle.border_queues.specs.Around.{HasAroundSize, IsRimmedRingOf, IsRingOf};
ghost use Rattle.border_queues.specs.Borders.{image_by, seen_from, sender_of, CoversAround, IsBorder};

use crate::border::Border;
use crate::error::QueueError;
use crate::inbox::Inbox;
use crate::laws::{edges_begin_in_tile, same_around_same_edges, same_image_same_edges};
use crate::view::View;
use grid_core::laws::each_pixel_in_one_tile;
use grid_core::{Bounds, Conn, Grid, Pixel, Tiling};

/// The room with which [`open_edges`] takes no memory: eight hints for each pixel of a whole tile's border.
pub fn room_for_edges(tiling: &Tiling) -> usize
    ensures { result ≡ room_for_edges tiling.now }
{
    32 * tiling.side() as usize
}

/// Puts the hints of a tile's open edges behind the hints of `out`: one for each pair of neighbouring pixels, p in
/// the tile and q in another, with `J(q) < min(J(p), I(q))`, to q, of the value `min(J(p), I(q))`, in raster order
/// of p and then of q. J is `inside` on the tile, whose upper left pixel is its pixel (0, 0), and `image`
/// elsewhere; I is the mask. It costs the tile's border alone.
///
/// Errors: Q1, where `out` keeps its hints. With a room of [`room_for_edges`] it takes no memory.
pub fn open_edges(
    inside: &Grid,
    image: &Grid,
    mask: &Grid,
    tiling: &Tiling,
    tile: usize,
    generation: u64,
    conn: Conn,
    out: &mut Inbox,
) -> Result<(), QueueError>
    requires parts { HaveTile tiling.now image.now mask.now tile }
    requires size { HasTileSize tiling.now tile inside.now }
    ensures { AddsOrFails out.old out.new (open_edges (sender_by tiling.now conn (value_at mask.now) (with_tile
        tiling.now tile (value_at inside.now) (value_at image.now)) tile generation)) (room_for_edges tiling.now)
        result }
{
    edges_begin_in_tile();
    // The side tells the prover that the tiling is one.
    let _ = tiling.side();
    let bounds = Bounds::of(tiling.rect(tile));
    let first = Pixel { x: 0, y: 0 };
    let (inside, image, mask) = (View::of(inside), View::of(image), View::of(mask));
    let border = border_of(
        &inside, first, &image, first, &mask, tiling, tile, generation, conn, bounds,
    );
    tell(&border, out)
}

/// As [`open_edges`] where J is the image itself, on the tile too. `patch` stands in place of the image, and `limits`
/// in place of the mask: each has the size of the tile's rectangle grown by one pixel on each side, as far as the image
/// goes, and beside the tile the values of that in whose place it stands. In the first and the last row and column of
/// the tile, the patch has the image's values, too. What both have elsewhere on the tile does not matter.
///
/// Errors: Q1, where `out` keeps its hints. With a room of [`room_for_edges`] it takes no memory.
pub fn open_edges_around(
    patch: &View<'_>,
    limits: &View<'_>,
    tiling: &Tiling,
    tile: usize,
    generation: u64,
    conn: Conn,
    out: &mut Inbox,
) -> Result<(), QueueError>
    requires tile { tile < count_of tiling.now }
    requires patch { HasAroundSize tiling.now tile patch.now }
    requires limits { HasAroundSize tiling.now tile limits.now }
    ensures { (image mask : Pixel → ℕ) → IsRimmedRingOf tiling.now tile image patch.now
        → IsRingOf tiling.now tile mask limits.now
        → AddsOrFails out.old out.new (open_edges (sender_by tiling.now conn mask image tile generation))
        (room_for_edges tiling.now) result }
{
    each_pixel_in_one_tile();
    edges_begin_in_tile();
    same_around_same_edges();
    // The side tells the prover that the tiling is one.
    let _ = tiling.side();
    let rect = tiling.rect(tile);
    let bounds = Bounds::of(rect);
    let origin = Pixel {
        x: rect.x.saturating_sub(1),
        y: rect.y.saturating_sub(1),
    };
    let corner = Pixel {
        x: rect.x - origin.x,
        y: rect.y - origin.y,
    };
    let border = border_of(
        patch, corner, patch, origin, limits, tiling, tile, generation, conn, bounds,
    );
    tell(&border, out)
}

/// As [`open_edges`] where J is the image itself, on the tile too, and each open edge begins within the bounds. Only
/// the tile's border within them is looked at.
///
/// Errors: Q1, where `out` keeps its hints. With a room of [`room_for_edges`] it takes no memory.
pub fn open_edges_in(
    image: &View<'_>,
    mask: &View<'_>,
    tiling: &Tiling,
    tile: usize,
    generation: u64,
    conn: Conn,
    bounds: Bounds,
    out: &mut Inbox,
) -> Result<(), QueueError>
    requires parts { HaveTile tiling.now image.now mask.now tile }
    requires lie { LieIn bounds (rect_of tiling.now tile) }
    requires bounds { EdgesBeginIn (sender_by tiling.now conn (value_at mask.now) (value_at image.now) tile generation)
        bounds }
    ensures { AddsOrFails out.old out.new (open_edges (sender_by tiling.now conn (value_at mask.now)
        (value_at image.now) tile generation)) (room_for_edges tiling.now) result }
{
    each_pixel_in_one_tile();
    same_image_same_edges();
    // The side tells the prover that the tiling is one.
    let _ = tiling.side();
    let rect = tiling.rect(tile);
    let corner = Pixel {
        x: rect.x,
        y: rect.y,
    };
    let first = Pixel { x: 0, y: 0 };
    let border = border_of(
        image, corner, image, first, mask, tiling, tile, generation, conn, bounds,
    );
    tell(&border, out)
}

// Makes room for the hints of the border's open edges, and tells them.
//
// Errors: Q1, where `out` keeps its hints. With a room of `room_for_edges` it takes no memory.
fn tell(border: &Border<'_>, out: &mut Inbox) -> Result<(), QueueError>
    requires { IsBorder border.now }
    ensures { AddsOrFails out.old out.new (open_edges (sender_of border.now)) (room_for_edges border.now.tiling)
        result }
{
    out.reserve(room_for_edges(&border.tiling))?;
    border.push_all(out);
    Ok(())
}

// The border of a tile whose upper left pixel stands at `corner` in `inside`, by views of image and mask that begin at
// the pixel `origin` of both.
fn border_of<'a>(
    inside: &'a View<'a>,
    corner: Pixel,
    image: &'a View<'a>,
    origin: Pixel,
    mask: &'a View<'a>,
    tiling: &Tiling,
    tile: usize,
    generation: u64,
    conn: Conn,
    bounds: Bounds,
) -> Border<'a>
    requires tile { tile < count_of tiling.now }
    requires image { CoversAround tiling.now (rect_of tiling.now tile) origin image.now }
    requires mask { CoversAround tiling.now (rect_of tiling.now tile) origin mask.now }
    requires lie { LieIn bounds (rect_of tiling.now tile) }
    requires bounds { EdgesBeginIn (sender_by tiling.now conn (seen_from origin mask.now)
        (image_by tiling.now tile inside.now corner image.now origin) tile generation) bounds }
    requires columns { corner.x + (rect_of tiling.now tile).w ≤ inside.now.width }
    requires rows { corner.y + (rect_of tiling.now tile).h ≤ inside.now.height }
    ensures border { IsBorder result }
    ensures sender { sender_of result ≡ sender_by tiling.now conn (seen_from origin mask.now)
        (image_by tiling.now tile inside.now corner image.now origin) tile generation }
{
    each_pixel_in_one_tile();
    // Side and width tell the prover that the tiling is one, and `inside` an image.
    let _ = (tiling.side(), inside.width());
    let rect = tiling.rect(tile);
    Border {
        tiling: *tiling,
        conn,
        mask,
        image,
        origin,
        inside,
        corner,
        tile,
        generation,
        rect,
        bounds,
    }
}
