//! Raw spellings.

ghost use Rattle.std.specs.Prelude.{◌≡◌, ◌++◌, ◌≤◌, All, IfOk, OnOk, string_bytes};
ghost use Rattle.std.specs.List.{flat_map};
ghost use Rattle.grid_core.specs.Rects.{RectFits};
ghost use Rattle.pgm_codec.specs.Graymap.{IsGraymap};
ghost use Rattle.pgm_codec.specs.Writing.{raw_header, raw_text, sample_bytes};
ghost use Rattle.page_board.specs.Changes.{AllFit};
ghost use Rattle.page_board.specs.Putting.{PutsPart, PutsSamples};

use grid_core::{Grid, Memory, Rect};
use pgm_codec::{put_samples, sample_len};
use std::alloc::Global;

/// The raw file of an image with these samples and this maxval. Memory of its exact length is taken.
///
/// Errors: out of memory.
#[tactic(auto, unfolding(pgm_codec::specs::Writing::raw_text))]
pub(crate) fn raw_of(alloc: Global, grid: &Grid, maxval: u16) -> Result<Vec<u8>, Memory>
    requires { IsGraymap (record { raster = grid.now; maxval = maxval }) }
    ensures { IfOk result (λ v. v.items ≡ raw_text (record { raster = grid.now; maxval = maxval })) }
{
    let header = header(alloc, grid, maxval)?;
    let samples = grid.cells();
    let length = header.len() + samples.len() * sample_len(maxval);
    let mut out = Vec::with_capacity(alloc, length)?;
    out.extend_from_slice(header.as_bytes())?;
    push_samples(&mut out, maxval, samples)?;
    Ok(out)
}

// The header of the raw file.
fn header(alloc: Global, grid: &Grid, maxval: u16) -> Result<String, Memory>
    ensures { IfOk result (λ t. string_bytes t ≡ raw_header (record { raster = grid.now; maxval = maxval })) }
{
    let (width, height) = (grid.width(), grid.height());
    Ok(format!(in alloc; "P5\n{width} {height}\n{maxval}\n")?)
}

/// Adds the bytes of samples, as they stand in a raw file.
///
/// Errors: out of memory.
pub(crate) fn push_samples(out: &mut Vec<u8>, maxval: u16, samples: &[u16]) -> Result<(), Memory>
    requires { All (λ s. s ≤ maxval) samples.now }
    ensures { OnOk result (out.new.items ≡ out.old.items ++ flat_map (sample_bytes maxval) samples.now) }
{
    let at = out.len();
    out.resize(at + samples.len() * sample_len(maxval), 0)?;
    put_samples(out, at, maxval, samples);
    Ok(())
}

/// Adds the samples of an image in rectangles, one after another, each row by row. It takes no memory but for `out`.
///
/// Errors: out of memory.
pub(crate) fn push_pixels(
    out: &mut Vec<u8>,
    image: &Grid,
    maxval: u16,
    rects: &[Rect],
) -> Result<(), Memory>
    requires graymap { IsGraymap (record { raster = image.now; maxval = maxval }) }
    requires fit { AllFit image.now.width image.now.height rects.now }
    ensures { OnOk result (PutsSamples (record { raster = image.now; maxval = maxval }) rects.now out.old.items
        out.new.items) }
{
    for rect in rects {
        push_part(out, image, maxval, *rect)?;
    }
    Ok(())
}

// Adds the samples of an image in a rectangle, row by row.
//
// Errors: out of memory.
fn push_part(out: &mut Vec<u8>, image: &Grid, maxval: u16, rect: Rect) -> Result<(), Memory>
    requires graymap { IsGraymap (record { raster = image.now; maxval = maxval }) }
    requires fits { RectFits image.now.width image.now.height rect }
    ensures { OnOk result (PutsPart (record { raster = image.now; maxval = maxval }) rect out.old.items
        out.new.items) }
{
    for y in 0..rect.h {
        push_samples(out, maxval, image.row_in(rect, y))?;
    }
    Ok(())
}

/// How many pixels rectangles have, or as many as can be counted where they have more.
pub(crate) fn pixel_count(rects: &[Rect]) -> usize {
    let mut count = 0usize;
    for rect in rects {
        count = count.saturating_add((rect.w as usize).saturating_mul(rect.h as usize));
    }
    count
}
