//! Holes filled (Soille, "Morphological Image Analysis").
//!
//! Upside down, a hole is a dome that no path of high values joins to the border. So the image is turned upside down,
//! its border grows inwards, and what has grown is turned back.

ghost use Rattle.std.specs.Prelude.{◌≡◌, ◌+◌, ◌⊎◌, IfOk};
ghost use Rattle.grid_core.specs.Path.{domain_of};
ghost use Rattle.grid_core.specs.Raster.{IsInside, IsOnBorder};
ghost use Rattle.derived_views.specs.Holes.{IsFill};
ghost use Rattle.derived_views.specs.Rasters.{IsPartOfBorder, IsBorderOf, Copies};
ghost use Rattle.derived_views.specs.Rasters.{AreDifferences, IsDifference};
ghost use Rattle.derived_views.specs.Views.{IsView};

use grid_core::{Conn, Grid, Memory, Pixel};
use pgm_codec::Image;
use raster_sweeps::Grower;
use std::alloc::Global;

/// The image with its holes filled, under this connectivity: at each pixel the least level at which a path leads from
/// it to the border, with no value on the path above that level (Soille). Width, height and maxval are the image's. It
/// grows by `grower`.
///
/// Errors: out of memory.
pub fn fill<G: Grower>(
    grower: &G,
    alloc: Global,
    image: &Image,
    conn: Conn,
) -> Result<Image, Memory>
    ensures { IfOk result (IsView image.now image.now.maxval (IsFill (domain_of image.now.raster conn))) }
{
    let copy = image.grid().copy(alloc)?;
    into_filled(grower, alloc, Image::over(copy, image.maxval()), conn)
}

/// The image with its holes filled, as [`fill`] says, in the memory of the image and of one grid more.
///
/// Errors: out of memory.
pub fn into_filled<G: Grower>(
    grower: &G,
    alloc: Global,
    image: Image,
    conn: Conn,
) -> Result<Image, Memory>
    ensures { IfOk result (IsView image image.maxval (IsFill (domain_of image.raster conn))) }
{
    let top = image.maxval();
    let mask = complemented(image.into_grid(), top);
    let mut grown = border_of(alloc, &mask)?;
    grower.grow(alloc, &mask, &mut grown, conn)?;
    let filled = complemented(grown, top);
    Ok(Image::over(filled, top))
}

// How far each value lies below the top, in the same memory.
fn complemented(grid: Grid, top: u16) -> Grid
    ensures { IsDifference (λ _. top) grid result }
{
    let w = grid.width();
    let h = grid.height();
    let mut cells = grid.into_cells();
    subtract_from_top(&mut cells, top);
    Grid::from_cells(w, h, cells)
}

// Makes each value that by which the top is greater.
fn subtract_from_top(values: &mut [u16], top: u16)
    ensures { AreDifferences (λ _. top) values.old values.new }
{
    for i in 0..values.len() {
        values[i] = top.saturating_sub(values[i]);
    }
}

// The values of the grid on its border, and 0 within.
fn border_of(alloc: Global, grid: &Grid) -> Result<Grid, Memory>
    ensures { IfOk result (IsBorderOf grid.now) }
{
    let w = grid.width();
    let h = grid.height();
    let cells = vec![in alloc; 0; w as usize * h as usize]?;
    let mut border = Grid::from_cells(w, h, cells);
    copy_columns(grid, &mut border);
    copy_rows(grid, &mut border);
    Ok(border)
}

// Copies the first and the last column of the grid.
fn copy_columns(grid: &Grid, border: &mut Grid)
    requires { IsPartOfBorder grid.now border.old }
    ensures { Copies (λ p. (p.x ≡ 0) ⊎ (p.x + 1 ≡ grid.now.width)) grid.now border.old border.new }
{
    let last = grid.width() - 1;
    for y in 0..grid.height() {
        copy_pixel(grid, border, Pixel { x: 0, y });
        copy_pixel(grid, border, Pixel { x: last, y });
    }
}

// Copies the first and the last row of the grid.
fn copy_rows(grid: &Grid, border: &mut Grid)
    requires { IsPartOfBorder grid.now border.old }
    ensures { Copies (λ p. (p.y ≡ 0) ⊎ (p.y + 1 ≡ grid.now.height)) grid.now border.old border.new }
{
    let last = grid.height() - 1;
    for x in 0..grid.width() {
        copy_pixel(grid, border, Pixel { x, y: 0 });
        copy_pixel(grid, border, Pixel { x, y: last });
    }
}

// Copies the value of a pixel on the border.
fn copy_pixel(grid: &Grid, border: &mut Grid, p: Pixel)
    requires part { IsPartOfBorder grid.now border.old }
    requires inside { IsInside grid.now.width grid.now.height p }
    requires on_border { IsOnBorder grid.now.width grid.now.height p }
    ensures { Copies (λ q. q ≡ p) grid.now border.old border.new }
{
    border.set(p, grid.get(p));
}
