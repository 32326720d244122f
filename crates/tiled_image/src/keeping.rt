//! Rows, and over them parts of tiles, which together are one image. A tile is newer where its part has values that the
//! rows do not have yet.

ghost use Rattle.std.specs.Prelude.{◌≡◌, ◌<◌, ℕ, None, false, if◌then◌else◌, length, slice_index_or, IfOk};
ghost use Rattle.std.specs.Arc.{arc_value};
ghost use Rattle.grid_core.specs.Raster.{IsInside, with_value};
ghost use Rattle.grid_core.specs.Rects.{IsInRect, IsPart, IsPatch};
ghost use Rattle.grid_core.specs.Tiles.{count_of, rect_of};
ghost use Rattle.tile_work.specs.TileSet.{Has};
ghost use Rattle.reset_core.specs.Parts.{IsPieceFor};
ghost use Rattle.tiled_image.specs.TiledImage.{IsKept, IsKeptAs, IsTileWritten, image_of};

use crate::copies::{copy_strip, place_in};
use crate::tile_parts::TileParts;
use grid_core::laws::cells_given_back;
use grid_core::{Grid, Memory, Pixel, Rect, Tiling};
use std::alloc::Global;
use std::sync::Arc;
use tile_work::TileSet;

/// Gives a pixel of a tile that has this rectangle another value. It takes no memory.
pub(crate) fn set_value(
    tiling: &Tiling,
    rows: &mut Grid,
    parts: &mut TileParts,
    newer: &mut TileSet,
    tile: usize,
    rect: Rect,
    p: Pixel,
    value: u16,
)
    requires kept { IsKept tiling.now rows.old parts.old newer.old }
    requires tile { tile < count_of tiling.now }
    requires rect { rect ≡ rect_of tiling.now tile }
    requires inside { IsInRect rect p }
    ensures { IsKeptAs (with_value (image_of tiling.now rows.old parts.old newer.old) p value) tiling.now rows.new
        parts.new newer.new }
{
    let place = place_in(rect, p);
    if parts.set_unshared(tile, place, value) {
        set_in_rows(rows, newer, tile, p, value);
    } else {
        let_go(tiling, rows, parts, newer, tile);
        rows.set(p, value);
    }
}

/// The part of a tile, to be shared. It is cut out of the rows where it is not there yet.
///
/// Errors: out of memory.
pub(crate) fn share_part(
    alloc: Global,
    tiling: &Tiling,
    rows: &Grid,
    parts: &mut TileParts,
    newer: &TileSet,
    tile: usize,
) -> Result<Arc<Grid>, Memory>
    requires kept { IsKept tiling.now rows.now parts.old newer.now }
    requires tile { tile < count_of tiling.now }
    ensures part { IfOk result (λ part. IsPart (rect_of tiling.now tile)
        (image_of tiling.now rows.now parts.old newer.now) (arc_value part)) }
    ensures kept { IsKeptAs (image_of tiling.now rows.now parts.old newer.now) tiling.now rows.now parts.new newer.now }
{
    if let Some(part) = parts.share(tile)? {
        return Ok(part);
    }
    // The new part may have that memory.
    parts.free_one();
    let part = Arc::new(alloc, rows.cut(alloc, tiling.rect(tile))?)?;
    parts.put(tile, Arc::try_clone(&part)?);
    Ok(part)
}

/// Writes the part of each tile that is newer into the rows, after which none is.
pub(crate) fn write_newer(tiling: &Tiling, rows: &mut Grid, parts: &TileParts, newer: &mut TileSet)
    requires { IsKept tiling.now rows.old parts.now newer.old }
    ensures kept { IsKeptAs (image_of tiling.now rows.old parts.now newer.old) tiling.now rows.new parts.now
        newer.new }
    ensures rows { rows.new ≡ image_of tiling.now rows.old parts.now newer.old }
    ensures none { (t : ℕ) → Has newer.new t → ⊥ }
{
    write_parts(tiling, rows, parts, newer);
    newer.clear();
}

/// Writes the part of each tile that is newer into the rows, or into a copy of them, which are the image then.
pub(crate) fn write_parts(tiling: &Tiling, rows: &mut Grid, parts: &TileParts, newer: &TileSet)
    requires { IsKept tiling.now rows.old parts.now newer.now }
    ensures { rows.new ≡ image_of tiling.now rows.old parts.now newer.now }
{
    // For its clause alone: there are no more tiles than a `usize` counts.
    let _ = newer.len();
    let mut next = 0;
    while let Some(tile) = newer.first_from(next) {
        write_tile(tiling, rows, parts, newer, tile);
        next = tile + 1;
    }
}

// Gives a pixel of a tile another value in the rows, unless the tile is newer.
fn set_in_rows(rows: &mut Grid, newer: &TileSet, tile: usize, p: Pixel, value: u16)
    requires tile { tile < length newer.now }
    requires inside { IsInside rows.old.width rows.old.height p }
    ensures { rows.new ≡ (if slice_index_or newer.now tile false then rows.old else with_value rows.old p value) }
{
    if !newer.contains(tile) {
        rows.set(p, value);
    }
}

/// Lets the part of a tile go, written into the rows first where the tile is newer.
pub(crate) fn let_go(
    tiling: &Tiling,
    rows: &mut Grid,
    parts: &mut TileParts,
    newer: &mut TileSet,
    tile: usize,
)
    requires kept { IsKept tiling.now rows.old parts.old newer.old }
    requires tile { tile < count_of tiling.now }
    ensures kept { IsKeptAs (image_of tiling.now rows.old parts.old newer.old) tiling.now rows.new parts.new
        newer.new }
    ensures none { slice_index_or parts.new tile None ≡ None }
{
    write_tile(tiling, rows, parts, newer, tile);
    newer.remove(tile);
    parts.remove(tile);
}

// Writes the part of a tile into the rows where the tile is newer.
fn write_tile(tiling: &Tiling, rows: &mut Grid, parts: &TileParts, newer: &TileSet, tile: usize)
    requires kept { IsKept tiling.now rows.old parts.now newer.now }
    requires tile { tile < count_of tiling.now }
    ensures { IsTileWritten (image_of tiling.now rows.old parts.now newer.now) tiling.now tile parts.now newer.now
        rows.old rows.new }
{
    if !newer.contains(tile) {
        return;
    }
    match parts.part(tile) {
        Some(part) => write_part(rows, tiling.rect(tile), part),
        None => unreachable!(),
    }
}

/// Writes the part of an image in a rectangle into the image.
pub(crate) fn write_part(rows: &mut Grid, rect: Rect, part: &Grid)
    requires { IsPieceFor rect rows.old part.now }
    ensures part { IsPart rect rows.new part.now }
    ensures patch { IsPatch rect rows.old rows.new }
{
    cells_given_back();
    // For its clause alone: the part has a value for each pixel.
    let _ = part.cells();
    let whole = Rect {
        x: 0,
        y: 0,
        w: rows.width(),
        h: rows.height(),
    };
    copy_strip(rect, part, rect, rows.cells_mut(), whole);
}
