//! Small images, and what is seen of them.

use grid_core::Grid;
use pgm_codec::Image;
use reset_core::Core;
use std::alloc::Global;

/// An image of this width and height, whose pixels are these values, each so often.
#[derive(Clone, Copy)]
pub struct Mask<'a>(pub u32, pub u32, pub &'a [(usize, u16)]);

/// A row of five pixels.
pub const HILLS: Mask<'static> = Mask(5, 1, &[(1, 3), (1, 5), (1, 2), (1, 5), (1, 4)]);

/// A row of fours, of two tiles of side 64.
pub const FOURS: Mask<'static> = Mask(128, 1, &[(128, 4)]);

/// A row of three tiles of side 64, dark but at its ends.
pub const ENDS: Mask<'static> = Mask(192, 1, &[(10, 4), (172, 0), (10, 4)]);

/// The grid of a mask, where there is memory.
pub fn mask_of(alloc: Global, mask: &Mask<'_>) -> Option<Grid> {
    let Mask(width, height, pixels) = mask;
    let mut grid = Grid::new(alloc, *width, *height, 0).ok()?;
    fill(grid.cells_mut(), pixels);
    Some(grid)
}

// Gives cells these values, each so often.
fn fill(cells: &mut [u16], spans: &[(usize, u16)]) {
    let mut start: usize = 0;
    for (count, value) in spans {
        let end = start.saturating_add(*count);
        if let Some(span) = cells.get_mut(start..end) {
            span.fill(*value);
        }
        start = end;
    }
}

/// The image of a mask, where there is memory.
pub fn image_of(alloc: Global, mask: &Mask<'_>) -> Option<Image> {
    let grid = mask_of(alloc, mask)?;
    Image::from_grid(alloc, &grid, 9).ok()
}

/// The grid of these values, where they are as many and there is memory.
pub fn grid_of(alloc: Global, width: u32, height: u32, values: &[u16]) -> Option<Grid> {
    let mut grid = Grid::new(alloc, width, height, 0).ok()?;
    let cells = grid.cells_mut();
    if cells.len() != values.len() {
        return None;
    }
    cells.copy_from_slice(values);
    Some(grid)
}

/// Whether the cells are these values, each so often.
pub fn are_cells(cells: &[u16], spans: &[(usize, u16)]) -> bool {
    let mut cells = cells.iter();
    for (count, value) in spans {
        for _ in 0..*count {
            if cells.next() != Some(value) {
                return false;
            }
        }
    }
    cells.next().is_none()
}

/// Whether exactly these tiles were reset, once, exactly these are to be swept, and none is out.
pub fn are_tiles(core: &Core, reset: &[usize], dirty: &[usize]) -> bool {
    for tile in 0..core.tiles() {
        let is_reset = core.generation(tile) == u64::from(reset.contains(&tile));
        if !is_reset || core.is_dirty(tile) != dirty.contains(&tile) || core.is_out(tile) {
            return false;
        }
    }
    true
}
