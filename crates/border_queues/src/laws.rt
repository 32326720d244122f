//! Laws of open edges. Each is the contract of a function that does nothing.

ghost use Rattle.border_queues.specs.Laws.{EdgesAreOpen, EdgesBeginInTile, SameAroundSameEdges, SameImageSameEdges};

use grid_core::laws::{
    each_pixel_in_one_tile, neighbours_by_rows, rect_pixels_lie_in_rect, tiles_lie_inside,
};

/// Open edges rest on the values of an image at its pixels alone.
pub fn same_image_same_edges()
    ensures { SameImageSameEdges }
{
    each_pixel_in_one_tile();
    neighbours_by_rows();
    tiles_lie_inside();
}

/// Open edges of a tile rest on the values of an image on the tile's border and beside the tile, and on those of a mask
/// beside it, alone.
pub fn same_around_same_edges()
    ensures { SameAroundSameEdges }
{
    each_pixel_in_one_tile();
    neighbours_by_rows();
    tiles_lie_inside();
}

/// The open edges of a tile begin within the bounds of its pixels.
pub fn edges_begin_in_tile()
    ensures { EdgesBeginInTile }
{
    each_pixel_in_one_tile();
}

/// The hints of a tile are those of its open edges, in raster order of the inner and then of the outer pixel.
pub fn edges_are_open()
    ensures { EdgesAreOpen }
{
    each_pixel_in_one_tile();
    neighbours_by_rows();
    tiles_lie_inside();
}
