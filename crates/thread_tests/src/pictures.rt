//! Masks, cores, edits, and what grows from strokes.

use grid_core::{Conn, Grid, Pixel, TILE_SIDE};
use marker_tiles::marker;
use pgm_codec::Image;
use raster_sweeps::slow;
use reset_core::Core;
use std::alloc::Global;
use stroke_core::{Run, Stroke, Tag};
use stroke_lattice::{Delta, State};
use tiled_core::TiledCore;

/// The row, what grows in it from level 9 in the second column, from that and level 3 in the last one, and from the
/// latter alone, as worked out by hand.
pub const ROW: &[u16] = &[3, 5, 2, 5, 4];

pub const GROWN: &[u16] = &[3, 5, 2, 2, 2];

pub const BOTH: &[u16] = &[3, 5, 2, 3, 3];

pub const LEFT: &[u16] = &[2, 2, 2, 3, 3];

/// The first of these strokes before it grows.
pub const PLANTED: &[u16] = &[0, 5, 0, 0, 0];

/// The row without strokes.
pub const BARE: &[u16] = &[0, 0, 0, 0, 0];

/// What is painted over.
#[derive(Clone, Copy)]
pub enum Mask {
    Row,
    /// A row of 128 fours, which is two tiles.
    TwoTiles,
    /// 65 tiles, with one pixel of value 4 in each.
    ManyTiles,
    /// Stripes of 1 to 3, in nine tiles.
    Stripes,
    /// The same in 1,024 tiles.
    SmallTiles,
    /// 2^20 ones, as many as a board has at most.
    Largest,
}

impl Mask {
    pub fn grid(self, alloc: Global) -> Option<Grid> {
        match self {
            Mask::Row => row(alloc),
            Mask::TwoTiles => Grid::new(alloc, 128, 1, 4).ok(),
            Mask::ManyTiles => many_tiles(alloc),
            Mask::Stripes => stripes(alloc, 128),
            Mask::SmallTiles => stripes(alloc, 256),
            Mask::Largest => Grid::new(alloc, 1024, 1024, 1).ok(),
        }
    }

    /// The same with a maxval.
    pub fn image(self, alloc: Global) -> Option<Image> {
        let mask = self.grid(alloc)?;
        Image::from_grid(alloc, &mask, 9).ok()
    }

    pub fn core(self, alloc: Global, conn: Conn) -> Option<Core> {
        let mask = self.grid(alloc)?;
        let side = match self {
            Mask::Stripes => 48,
            Mask::SmallTiles => 8,
            _ => TILE_SIDE,
        };
        Core::over(alloc, mask, conn, side, 0).ok()
    }
}

fn row(alloc: Global) -> Option<Grid> {
    let mut row = Grid::new(alloc, 5, 1, 0).ok()?;
    for (cell, value) in row.cells_mut().iter_mut().zip(ROW) {
        *cell = *value;
    }
    Some(row)
}

// The first pixel of each tile of the first row of tiles, and that of the first tile below.
fn many_tiles(alloc: Global) -> Option<Grid> {
    let mut mask = Grid::new(alloc, 4096, 128, 0).ok()?;
    for (place, cell) in mask.cells_mut().iter_mut().enumerate() {
        if place == 4096 * 64 || (place < 4096 && place % 64 == 0) {
            *cell = 4;
        }
    }
    Some(mask)
}

fn stripes(alloc: Global, side: u32) -> Option<Grid> {
    let mut mask = Grid::new(alloc, side, side, 0).ok()?;
    for (place, cell) in mask.cells_mut().iter_mut().enumerate() {
        *cell = (place / 40 % 3 + 1) as u16;
    }
    Some(mask)
}

/// An edit.
#[derive(Clone, Copy)]
pub enum Edit {
    /// A stroke of this tag and level, on one pixel of the first row.
    Place(u128, u32, u16),
    /// A stroke of this tag and level: a disc of this centre and radius.
    Disc(u128, u32, (u16, u16), u32),
    /// The stroke of tag 1 and level 9 on the pixels of value 4 in many tiles.
    Spread,
    /// The stroke of this tag is withdrawn.
    Withdraw(u128),
}

impl Edit {
    pub fn delta(self, alloc: Global) -> Option<Delta> {
        match self {
            Edit::Place(tag, level, x) => {
                let runs = vec![in alloc; Run { y: 0, x0: x, x1: x }].ok()?;
                placed(alloc, tag, Stroke::new(level, runs).ok()?)
            }
            Edit::Disc(tag, level, (x, y), radius) => {
                placed(alloc, tag, Stroke::disc(level, x, y, radius).ok()?)
            }
            Edit::Spread => placed(alloc, 1, spread(alloc)?),
            Edit::Withdraw(tag) => State::withdrawn(alloc, Tag(tag)).ok(),
        }
    }
}

fn placed(alloc: Global, tag: u128, stroke: Stroke) -> Option<Delta> {
    State::placed(alloc, Tag(tag), stroke).ok()
}

fn spread(alloc: Global) -> Option<Stroke> {
    let mut runs = Vec::new(alloc);
    for tile in 0..65u16 {
        let (x, y) = if tile < 64 { (tile * 64, 0) } else { (0, 64) };
        runs.push(Run { y, x0: x, x1: x }).ok()?;
    }
    Stroke::new(9, runs).ok()
}

/// What grows in the mask from the strokes, by the slow program.
pub fn grown(alloc: Global, mask: &Grid, conn: Conn, state: &State) -> Option<Grid> {
    if state.outside(mask.width(), mask.height()).is_some() {
        return None;
    }
    let marker = marker(alloc, mask, state).ok()?;
    slow(alloc, mask, &marker, conn).ok()
}

/// Whether the image of a core is what grows from its strokes.
pub fn is_grown(alloc: Global, core: &Core) -> bool {
    let grown = grown(alloc, core.mask(), core.conn(), core.state());
    matches!(grown, Some(image) if image.cells() == core.image().cells())
}

/// Whether there is a core, and it settles on what grows from its strokes, which is this image, if one is given.
pub fn settles(alloc: Global, core: Option<Core>, image: Option<&[u16]>) -> bool {
    let Some(mut core) = core else {
        return false;
    };
    let is_grown = core.settle(alloc).is_ok() & is_grown(alloc, &core);
    let cells = core.image().cells();
    let is_image = cells == image.unwrap_or(cells);
    drop(core);
    is_grown & is_image
}

fn mixed(sum: u64, number: u64) -> u64 {
    (sum ^ number).wrapping_mul(0x0000_0100_0000_01b3)
}

fn mixed_cells(sum: u64, cells: &[u16]) -> u64 {
    let mut sum = sum;
    for cell in cells {
        sum = mixed(sum, u64::from(*cell));
    }
    sum
}

// The sum with what is to be done at each tile.
fn mixed_work(sum: u64, core: &Core) -> u64 {
    let mut sum = sum;
    for tile in 0..core.tiles() {
        sum = mixed(sum, core.generation(tile));
        sum = mixed(sum, u64::from(core.is_dirty(tile)));
        sum = mixed(sum, u64::from(core.is_out(tile)));
        sum = mixed(sum, core.waiting(tile) as u64);
    }
    sum
}

// The sum with the values of a core's image.
fn mixed_pixels(sum: u64, core: &TiledCore) -> u64 {
    let tiling = core.tiling();
    let mut sum = sum;
    for y in 0..tiling.height() {
        for x in 0..tiling.width() {
            sum = mixed(sum, u64::from(core.pixel(Pixel { x, y })));
        }
    }
    sum
}

/// Whether these are the values of a core's image, row by row from the top.
pub fn has_cells(core: &TiledCore, cells: &[u16]) -> bool {
    let tiling = core.tiling();
    let mut place: usize = 0;
    for y in 0..tiling.height() {
        for x in 0..tiling.width() {
            match cells.get(place) {
                Some(cell) if *cell == core.pixel(Pixel { x, y }) => place = place.wrapping_add(1),
                _ => return false,
            }
        }
    }
    place == cells.len()
}

/// A sum of what is there in a core: image, marker, strokes of tags 0 to 9, generations, marks, and hints that wait.
pub fn sum_of(core: &Core) -> u64 {
    let mut sum = mixed_cells(1, core.image().cells());
    sum = mixed_cells(sum, core.marker().marker().cells());
    for tag in 0..10u8 {
        let tag = Tag(u128::from(tag));
        sum = mixed(sum, u64::from(core.state().has_stroke(tag)));
        sum = mixed(sum, u64::from(core.state().has_tombstone(tag)));
    }
    mixed_work(sum, core)
}

/// The same sum, of a core whose image is in tiles.
pub fn sum_of_tiled(core: &TiledCore) -> u64 {
    let mut sum = mixed_pixels(1, core);
    sum = mixed_cells(sum, core.marker().marker().cells());
    for tag in 0..10u8 {
        let tag = Tag(u128::from(tag));
        sum = mixed(sum, u64::from(core.state().has_stroke(tag)));
        sum = mixed(sum, u64::from(core.state().has_tombstone(tag)));
    }
    for tile in 0..core.tiles() {
        sum = mixed(sum, core.generation(tile));
        sum = mixed(sum, u64::from(core.is_dirty(tile)));
        sum = mixed(sum, u64::from(core.is_out(tile)));
        sum = mixed(sum, core.waiting(tile) as u64);
    }
    sum
}
