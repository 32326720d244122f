//! The blocks of an image that single discs cover whole.

ghost use Rattle.std.specs.Prelude.{◌≡◌, ◌<◌, ◌≤◌, ◌*◌, IsTrue, slice_index};
ghost use Rattle.grid_core.specs.declared.pixel.Pixel.{Pixel};
ghost use Rattle.stroke_core.specs.Seed.{disc_covers};
ghost use Rattle.marker_tiles.specs.Blocks.{AreBlocksOf, HasBlock, IsBlockSide, IsInSquare, AreNoted};
ghost use Rattle.marker_tiles.specs.Blocks.{level_in, block_at, block_window, disc_level};
ghost use Rattle.marker_tiles.specs.Painting.{WindowFits};
ghost use Rattle.marker_tiles.specs.UnderTags.{level_at, level_of_some};

use crate::window::Window;
use grid_core::Grid;
use stroke_core::{Kind, Stroke, Tag};
use stroke_lattice::State;

// How many blocks stand side by side at most, and how many one below another.
const ACROSS: u32 = 64;

/// An image cut into square blocks, and for each the greatest level of those discs that were noted and cover all of it,
/// 0 where none does.
#[derive(Drop)]
pub(crate) struct Blocks {
    pub(crate) side: u32,
    levels: [u16; 4096],
}

impl Blocks {
    /// The blocks of an image. Nothing is noted.
    pub(crate) fn of(mask: &Grid) -> Blocks
        ensures cut { AreBlocksOf mask.now.width mask.now.height result.side }
        ensures nothing { (p : Pixel) → level_in result p ≡ 0 }
    {
        let longer = mask.width().max(mask.height());
        Blocks {
            side: longer.div_ceil(ACROSS),
            levels: [0; 4096],
        }
    }

    /// The part of the image in a block.
    pub(crate) fn window(&self, mask: &Grid, column: u32, row: u32) -> Window
        requires { HasBlock mask.now.width mask.now.height self.now.side column row }
        ensures value { result ≡ block_window self.now.side mask.now.width mask.now.height column row }
        ensures fits { WindowFits mask.now.width mask.now.height result }
    {
        let (left, top) = (column * self.side, row * self.side);
        Window {
            left,
            right: (left + self.side).min(mask.width()),
            top,
            bottom: (top + self.side).min(mask.height()),
        }
    }

    /// The level of a block.
    pub(crate) fn level(&self, column: u32, row: u32) -> u16
        requires { (column < 64) × (row < 64) }
        ensures { result ≡ slice_index self.now.levels (block_at column row) }
    {
        self.levels[(row * ACROSS + column) as usize]
    }

    /// Notes the strokes under these tags.
    pub(crate) fn note(&mut self, state: &State, tags: &[Tag])
        requires { IsBlockSide self.old.side }
        ensures { AreNoted (level_of_some state.now tags.now) self.old self.new }
    {
        for tag in tags {
            if let Some(stroke) = state.stroke(*tag) {
                self.note_stroke(stroke);
            }
        }
    }

    // Notes a stroke. Runs cover no block.
    fn note_stroke(&mut self, stroke: &Stroke)
        requires { IsBlockSide self.old.side }
        ensures { AreNoted (level_at stroke.now) self.old self.new }
    {
        if let Kind::Disc { x, y, r } = stroke.kind() {
            self.note_disc(u32::from(x), u32::from(y), u32::from(r), stroke.level());
        }
    }

    // Notes a disc.
    fn note_disc(&mut self, x: u32, y: u32, r: u32, level: u16)
        requires side { IsBlockSide self.old.side }
        requires small { (x < 65536) × (y < 65536) × (r < 256) }
        ensures { AreNoted (disc_level x y r level) self.old self.new }
    {
        let first = y.saturating_sub(r) / self.side;
        let end = ((y + r) / self.side + 1).min(ACROSS);
        for row in first..end {
            self.note_row(x, y, r, level, row);
        }
    }

    // Notes a disc at the blocks of one row.
    fn note_row(&mut self, x: u32, y: u32, r: u32, level: u16, row: u32)
        requires side { IsBlockSide self.old.side }
        requires small { (x < 65536) × (y < 65536) × (r < 256) }
        requires row { row < 64 }
        ensures { AreNoted (disc_level x y r level) self.old self.new }
    {
        let first = x.saturating_sub(r) / self.side;
        let end = ((x + r) / self.side + 1).min(ACROSS);
        for column in first..end {
            self.note_block(x, y, r, level, column, row);
        }
    }

    // Notes a disc at one block.
    fn note_block(&mut self, x: u32, y: u32, r: u32, level: u16, column: u32, row: u32)
        requires side { IsBlockSide self.old.side }
        requires small { (x < 65536) × (y < 65536) × (r < 256) }
        requires block { (column < 64) × (row < 64) }
        ensures { AreNoted (disc_level x y r level) self.old self.new }
    {
        if has_square(x, y, r, column * self.side, row * self.side, self.side) {
            let block = (row * ACROSS + column) as usize;
            self.levels[block] = self.levels[block].max(level);
        }
    }
}

// Whether the disc covers each pixel of a square: so it is where the farthest corner lies in it.
fn has_square(x: u32, y: u32, r: u32, left: u32, top: u32, side: u32) -> bool
    requires side { IsBlockSide side }
    requires small { (r < 256) × (left < 65536) × (top < 65536) }
    ensures { IsTrue result → (p : Pixel) → IsInSquare left top side p → IsTrue (disc_covers x y r p) }
{
    let dx = x.abs_diff(left).max(x.abs_diff(left + (side - 1)));
    let dy = y.abs_diff(top).max(y.abs_diff(top + (side - 1)));
    dx <= r && dy <= r && dx * dx + dy * dy <= r * r
}
