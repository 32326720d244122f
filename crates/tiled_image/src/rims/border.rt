//! The border of a tile: its first and its last row and column, from a copy of its rim.

ghost use Rattle.std.specs.Prelude.{◌≡◌, ◌*◌, ◌<◌, ◌≤◌, length};
ghost use Rattle.grid_core.specs.Tiles.{count_of, rect_of};
ghost use Rattle.border_queues.specs.Around.{around_of};
ghost use Rattle.tiled_image.specs.Ring.{IsBorderShown};
ghost use Rattle.tiled_image.specs.Rims.{strip_of};
ghost use Rattle.tiled_image.specs.Shown.{IsStripCopied};
ghost use Rattle.tiled_image.specs.Sides.{HasSides, HasValues, side_of};

use super::{Edge, strip_at};
use crate::copies::copy_cells;
use crate::image::around_of;
use grid_core::Tiling;
use tile_generations::Rim;

/// Fills those of the cells, in which a tile and the pixels around it stand row by row, that stand for the tile's
/// border. It takes no memory.
pub(crate) fn fill_border(tiling: &Tiling, tile: usize, rim: &Rim, cells: &mut [u16])
    requires tile { tile < count_of tiling.now }
    requires rim { HasSides (rect_of tiling.now tile) rim.now }
    requires room { (around_of tiling.now tile).w * (around_of tiling.now tile).h ≤ length cells.old }
    ensures { (value : _) → HasValues (rect_of tiling.now tile) value rim.now
        → IsBorderShown (rect_of tiling.now tile) value (around_of tiling.now tile) cells.old cells.new }
{
    // For its clause alone: how the image is cut into tiles.
    let _ = tiling.side();
    fill_side(tiling, tile, Edge::Top, rim, cells);
    fill_side(tiling, tile, Edge::Bottom, rim, cells);
    fill_side(tiling, tile, Edge::Left, rim, cells);
    fill_side(tiling, tile, Edge::Right, rim, cells);
}

/// The values of a rim at one of its edges.
pub(super) fn side_of(rim: &Rim, edge: Edge) -> &[u16]
    ensures { result.now ≡ side_of edge rim.now }
{
    match edge {
        Edge::Top => rim.top(),
        Edge::Bottom => rim.bottom(),
        Edge::Left => rim.left(),
        Edge::Right => rim.right(),
    }
}

// Fills those of the cells that stand for the tile's strip at an edge.
fn fill_side(tiling: &Tiling, tile: usize, edge: Edge, rim: &Rim, cells: &mut [u16])
    requires tile { tile < count_of tiling.now }
    requires rim { HasSides (rect_of tiling.now tile) rim.now }
    requires room { (around_of tiling.now tile).w * (around_of tiling.now tile).h ≤ length cells.old }
    ensures { (value : _) → HasValues (rect_of tiling.now tile) value rim.now
        → IsStripCopied (strip_of tiling.now tile edge) value (around_of tiling.now tile) cells.old cells.new }
{
    // For its clause alone: how the image is cut into tiles.
    let _ = tiling.side();
    let around = around_of(tiling, tile);
    let strip = strip_at(edge, tiling.rect(tile));
    copy_cells(strip, side_of(rim, edge), strip, cells, around);
}
