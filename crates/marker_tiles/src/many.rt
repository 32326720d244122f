//! Raising an image by many strokes, each of its blocks once where single strokes cover it whole.

ghost use Rattle.std.specs.Prelude.{◌≡◌, ◌<◌, ◌*◌, ◌≤◌, ◌/◌, ℕ};
ghost use Rattle.grid_core.specs.declared.pixel.Pixel.{Pixel};
ghost use Rattle.grid_core.specs.Raster.{IsOfSize};
ghost use Rattle.marker_tiles.specs.Blocks.{AreBlocksOf, HasBlock, IsRaisedWithin, HasLevel, HasLevelWhere};
ghost use Rattle.marker_tiles.specs.Blocks.{IsInRow, IsInBlock, level_in};
ghost use Rattle.stroke_core.specs.Seed.{covers};
ghost use Rattle.marker_tiles.specs.Painting.{WindowFits, IncludesOn, IsPaintedBy, in_window};
ghost use Rattle.marker_tiles.specs.UnderTags.{IsRaisedBy, level_at};

use crate::blocks::Blocks;
use crate::brush::{Brush, level_brush};
use crate::paint::{paint, paint_between};
use crate::window::Window;
use grid_core::Grid;
use stroke_core::{Stroke, Tag};
use stroke_lattice::State;

/// Raises the image by the strokes under these tags, as far as the mask lets it.
///
/// First each block is raised to the greatest level of a disc that covers all of it, and then each stroke is painted at
/// the blocks whose level is less than its own. So what it costs goes by the pixels of the image and by the blocks that
/// the strokes meet, where they are large, and not by the sum of their areas.
pub(crate) fn raise_by_many(image: &mut Grid, mask: &Grid, state: &State, tags: &[Tag])
    requires size { IsOfSize mask.now image.old }
    ensures { IsRaisedBy state.now tags.now mask.now image.old image.new }
{
    let mut blocks = Blocks::of(mask);
    blocks.note(state, tags);
    raise_blocks(image, mask, &blocks);
    for tag in tags {
        if let Some(stroke) = state.stroke(*tag) {
            raise_beyond(image, mask, stroke, &blocks);
        }
    }
}

// Raises each block to its level.
fn raise_blocks(image: &mut Grid, mask: &Grid, blocks: &Blocks)
    requires size { IsOfSize mask.now image.old }
    requires blocks { AreBlocksOf mask.now.width mask.now.height blocks.now.side }
    ensures raised { IsRaisedWithin (level_in blocks.now) mask.now image.old image.new }
    ensures reached { HasLevel (level_in blocks.now) mask.now image.new }
{
    for row in 0..mask.height().div_ceil(blocks.side) {
        raise_row_of_blocks(image, mask, blocks, row);
    }
}

// Raises each block of a row to its level.
fn raise_row_of_blocks(image: &mut Grid, mask: &Grid, blocks: &Blocks, row: u32)
    requires size { IsOfSize mask.now image.old }
    requires blocks { AreBlocksOf mask.now.width mask.now.height blocks.now.side }
    requires row { row * blocks.now.side < mask.now.height }
    ensures raised { IsRaisedWithin (level_in blocks.now) mask.now image.old image.new }
    ensures reached { HasLevelWhere (IsInRow blocks.now.side row) (level_in blocks.now) mask.now image.new }
{
    for column in 0..mask.width().div_ceil(blocks.side) {
        raise_block(image, mask, blocks, column, row);
    }
}

// Raises a block to its level.
fn raise_block(image: &mut Grid, mask: &Grid, blocks: &Blocks, column: u32, row: u32)
    requires size { IsOfSize mask.now image.old }
    requires block { HasBlock mask.now.width mask.now.height blocks.now.side column row }
    ensures raised { IsRaisedWithin (level_in blocks.now) mask.now image.old image.new }
    ensures reached { HasLevelWhere (IsInBlock blocks.now.side column row) (level_in blocks.now) mask.now image.new }
{
    let level = blocks.level(column, row);
    if level > 0 {
        fill(
            image,
            mask,
            blocks.window(mask, column, row),
            Brush::Raise(level),
        );
    }
}

// Leads the brush over each pixel of the window.
fn fill(image: &mut Grid, mask: &Grid, window: Window, brush: Brush)
    requires size { IsOfSize mask.now image.old }
    requires window { WindowFits mask.now.width mask.now.height window }
    ensures { IsPaintedBy (in_window window) brush mask.now image.old image.new }
{
    for y in window.top..window.bottom {
        paint_between(image, mask, y, window.left, window.right, brush);
    }
}

// Raises the image by a stroke where its blocks have not its level already.
fn raise_beyond(image: &mut Grid, mask: &Grid, stroke: &Stroke, blocks: &Blocks)
    requires size { IsOfSize mask.now image.old }
    requires blocks { AreBlocksOf mask.now.width mask.now.height blocks.now.side }
    requires reached { HasLevel (level_in blocks.now) mask.now image.old }
    ensures raised { IsRaisedWithin (level_at stroke.now) mask.now image.old image.new }
    ensures reached { HasLevel (level_at stroke.now) mask.now image.new }
{
    let around = Window::round(stroke).cut_to(mask);
    for row in around.top / blocks.side..around.bottom.div_ceil(blocks.side) {
        raise_beyond_in_row(image, mask, stroke, blocks, around, row);
    }
}

// Does so in one row of blocks. The window lies round the stroke.
fn raise_beyond_in_row(
    image: &mut Grid,
    mask: &Grid,
    stroke: &Stroke,
    blocks: &Blocks,
    around: Window,
    row: u32,
)
    requires size { IsOfSize mask.now image.old }
    requires blocks { AreBlocksOf mask.now.width mask.now.height blocks.now.side }
    requires reached { HasLevel (level_in blocks.now) mask.now image.old }
    requires around { IncludesOn mask.now (covers stroke.now) (in_window around) }
    requires fits { WindowFits mask.now.width mask.now.height around }
    requires row { row * blocks.now.side < mask.now.height }
    ensures raised { IsRaisedWithin (level_at stroke.now) mask.now image.old image.new }
    ensures reached { HasLevelWhere (IsInRow blocks.now.side row) (level_at stroke.now) mask.now image.new }
{
    for column in around.left / blocks.side..around.right.div_ceil(blocks.side) {
        raise_beyond_in_block(image, mask, stroke, blocks, column, row);
    }
}

// Does so in one block.
fn raise_beyond_in_block(
    image: &mut Grid,
    mask: &Grid,
    stroke: &Stroke,
    blocks: &Blocks,
    column: u32,
    row: u32,
)
    requires size { IsOfSize mask.now image.old }
    requires reached { HasLevel (level_in blocks.now) mask.now image.old }
    requires block { HasBlock mask.now.width mask.now.height blocks.now.side column row }
    ensures raised { IsRaisedWithin (level_at stroke.now) mask.now image.old image.new }
    ensures reached { HasLevelWhere (IsInBlock blocks.now.side column row) (level_at stroke.now) mask.now image.new }
{
    if blocks.level(column, row) < stroke.level() {
        paint(
            image,
            mask,
            stroke,
            blocks.window(mask, column, row),
            level_brush(stroke),
        );
    }
}
