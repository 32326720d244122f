//! The reconstruction by dilation, one threshold after another: each level floods the pixels that reach it (Vincent,
//! "Morphological Grayscale Reconstruction in Image Analysis", 1993).

ghost use Rattle.std.specs.Prelude.{◌≡◌, ◌+◌, ◌-◌, ◌*◌, ◌<◌, ◌≤◌, [], ◌∷◌, ◌++◌};
ghost use Rattle.std.specs.Prelude.{length, OnOk, IfOk};
ghost use Rattle.grid_core.specs.Raster.{IsInside, IsBelow, max_side, index_of, with_value};
ghost use Rattle.raster_sweeps.specs.Flooding.{IsFlooded, Floods, seeds_of};
ghost use Rattle.raster_sweeps.specs.Flood.{missing};
ghost use Rattle.raster_sweeps.specs.Regrowth.{IsRegrown};

use grid_core::{Conn, Grid, Memory, Pixel, neighbours};
use row_scans::greatest;
use std::alloc::Global;

/// What is reconstructed: a mask and a marker of one size, and which pixels are neighbours.
#[derive(Clone, Copy)]
struct Reconstruction<'a> {
    mask: &'a Grid,
    marker: &'a Grid,
    conn: Conn,
}

/// The reconstruction by dilation of `mask` from `marker`, `w * h` cells row by row.
///
/// Each level from 1 to the greatest value of the marker is flooded in turn (Vincent 1993).
///
/// Errors: out of memory.
pub fn slow(alloc: Global, mask: &Grid, marker: &Grid, conn: Conn) -> Result<Grid, Memory>
    requires { IsBelow marker.now mask.now }
    ensures { IfOk result (IsRegrown conn mask.now marker.now) }
{
    let width = mask.width();
    let height = mask.height();
    let cells = vec![in alloc; 0; width as usize * height as usize]?;
    let mut image = Grid::from_cells(width, height, cells);
    let source = Reconstruction { mask, marker, conn };
    for done in 0..greatest(marker.cells()) {
        flood_level(alloc, &source, &mut image, done + 1)?;
    }
    Ok(image)
}

// Floods one level: each pixel that reaches it gets it as its value.
fn flood_level(
    alloc: Global,
    source: &Reconstruction<'_>,
    image: &mut Grid,
    level: u16,
) -> Result<(), Memory>
    requires positive { 0 < level }
    requires before { IsFlooded source.now (level - 1) image.old }
    ensures { OnOk result (IsFlooded source.now level image.new) }
{
    let mut waiting = Vec::new(alloc);
    seed_level(source, image, &mut waiting, level)?;
    while let Some(pixel) = waiting.pop() {
        spread(source, image, &mut waiting, level, pixel)?;
    }
    Ok(())
}

// Marks the pixels where the marker is at least the level.
fn seed_level(
    source: &Reconstruction<'_>,
    image: &mut Grid,
    waiting: &mut Vec<Pixel>,
    level: u16,
) -> Result<(), Memory>
    requires { Floods source.now level 0 image.old waiting.old.items }
    ensures { OnOk result (Floods source.now level (seeds_of source.now) image.new waiting.new.items) }
{
    let width = source.mask.width();
    for (i, value) in source.marker.cells().iter().enumerate() {
        if *value >= level {
            mark(image, waiting, level, pixel_at(i, width))?;
        }
    }
    Ok(())
}

// Marks the neighbours of a marked pixel where the mask is at least the level.
fn spread(
    source: &Reconstruction<'_>,
    image: &mut Grid,
    waiting: &mut Vec<Pixel>,
    level: u16,
    pixel: Pixel,
) -> Result<(), Memory>
    requires { Floods source.now level (seeds_of source.now) image.old (pixel ∷ waiting.old.items) }
    ensures flooding { OnOk result (Floods source.now level (seeds_of source.now) image.new waiting.new.items) }
    ensures effort { OnOk result (length waiting.new.items + missing level image.new.cells
        ≤ length waiting.old.items + missing level image.old.cells) }
{
    let near = neighbours(
        source.mask.width(),
        source.mask.height(),
        source.conn,
        pixel,
    );
    for beside in near.as_slice() {
        if source.mask.get(*beside) >= level && image.get(*beside) < level {
            mark(image, waiting, level, *beside)?;
        }
    }
    Ok(())
}

// Gives a pixel the level, and puts it on the list of those whose neighbours are still to be looked at.
fn mark(image: &mut Grid, waiting: &mut Vec<Pixel>, level: u16, pixel: Pixel) -> Result<(), Memory>
    requires { IsInside image.old.width image.old.height pixel }
    ensures image { image.new ≡ with_value image.old pixel level }
    ensures waiting { OnOk result (waiting.new.items ≡ waiting.old.items ++ pixel ∷ []) }
{
    image.set(pixel, level);
    waiting.push(pixel)?;
    Ok(())
}

// The pixel of the cell `i`, in an image of this width.
fn pixel_at(i: usize, width: u32) -> Pixel
    requires some_width { 0 < width }
    requires height_within { i < width * max_side }
    ensures column { result.x < width }
    ensures place { index_of width result ≡ i }
{
    let width = width as usize;
    Pixel {
        x: (i % width) as u32,
        y: (i / width) as u32,
    }
}
