//! A caller's cells and connectivity, tested, and cells as a picture of their own.

ghost use Rattle.std.specs.Prelude.{◌≡◌, ◌≤◌, ◌⊎◌, ◌↔◌, length, slice_index, IsTrue, EachIndex, MatchOption};
ghost use Rattle.std.specs.Prelude.{MatchResult};
ghost use Rattle.grid_core.specs.Raster.{IsSized};
ghost use Rattle.seedpaint_c.specs.Cells.{IsSizeFault, Names, NamesNone, image_of, picture_of};

use crate::codes::{BAD_LENGTH, BAD_SIZE, NO_MEMORY};
use grid_core::{Conn, Grid, MAX_LEVEL, is_image_size};
use pgm_codec::Image;
use std::alloc::Global;

/// The connectivity that a number names, which is how many neighbours a pixel has: 4 or 8.
pub(crate) fn conn_of(number: u32) -> Option<Conn>
    ensures { MatchOption result (NamesNone number) (Names number) }
{
    match number {
        4 => Some(Conn::Four),
        8 => Some(Conn::Eight),
        _ => None,
    }
}

/// Tests whether an image may have these sides, and whether there is a cell for each of its pixels.
///
/// Errors: the code that says why not.
pub(crate) fn test_size(cells: &[u16], w: u32, h: u32) -> Result<(), u32>
    ensures { MatchResult result (λ _. IsSized (image_of w h cells.now)) (IsSizeFault w h cells.now) }
{
    if !is_image_size(w, h) {
        return Err(BAD_SIZE);
    }
    if cells.len() != w as usize * h as usize {
        return Err(BAD_LENGTH);
    }
    Ok(())
}

/// Whether no cell is greater than the one in the same place of others, of which there are as many.
pub(crate) fn are_below(cells: &[u16], limits: &[u16]) -> bool
    requires { length cells.now ≡ length limits.now }
    ensures { IsTrue result ↔ EachIndex cells.now (λ k. slice_index cells.now k ≤ slice_index limits.now k) }
{
    // Without a way out of it, the loop becomes vector code.
    let mut excess = 0;
    for i in 0..cells.len() {
        excess = excess.max(cells[i].saturating_sub(limits[i]));
    }
    excess == 0
}

/// The picture of these cells, of 16 bits.
///
/// Errors: the code that says why there is none.
pub(crate) fn picture(alloc: Global, cells: &[u16], w: u32, h: u32) -> Result<Image, u32>
    ensures { MatchResult result (λ image. image ≡ picture_of w h 65535 cells.now)
        (λ code. IsSizeFault w h cells.now code ⊎ (code ≡ 3)) }
{
    if let Err(code) = test_size(cells, w, h) {
        return Err(code);
    }
    let Ok(cells) = Vec::from_slice(alloc, cells) else {
        return Err(NO_MEMORY);
    };
    Ok(Image::over(Grid::from_cells(w, h, cells), MAX_LEVEL))
}
