//! Copies of an image in tiles that are brought up to date, tile by tile.

ghost use Rattle.std.specs.Prelude.{◌≡◌, ◌<◌, length};
ghost use Rattle.grid_core.specs.Rects.{RectFits};
ghost use Rattle.grid_core.specs.Tiles.{count_of};
ghost use Rattle.tile_work.specs.TileSet.{Has};
ghost use Rattle.tiled_image.specs.TiledImage.{IsKept, IsOfTiling, image_of};
ghost use Rattle.tiled_image.specs.SharedCopies.{IsCopyBut, IsRectCopied, IsTileCopied};

use crate::copies::copy_strip;
use crate::keeping::write_part;
use crate::tile_parts::TileParts;
use grid_core::laws::cells_given_back;
use grid_core::{Grid, Rect, Tiling};
use tile_work::TileSet;

/// Copies these tiles of the image into a copy of it that has the image's values in the others. It costs about these
/// tiles, and takes no memory.
pub(crate) fn copy_tiles(
    tiling: &Tiling,
    rows: &Grid,
    parts: &TileParts,
    newer: &TileSet,
    tiles: &TileSet,
    copy: &mut Grid,
)
    requires kept { IsKept tiling.now rows.now parts.now newer.now }
    requires tiles { length tiles.now ≡ count_of tiling.now }
    requires copy { IsCopyBut (Has tiles.now) tiling.now (image_of tiling.now rows.now parts.now newer.now) copy.old }
    ensures { copy.new ≡ image_of tiling.now rows.now parts.now newer.now }
{
    // For its clause alone: there are no more tiles than a `usize` counts.
    let _ = tiles.len();
    let mut next = 0;
    while let Some(tile) = tiles.first_from(next) {
        copy_tile(tiling, rows, parts, newer, tile, copy);
        next = tile + 1;
    }
}

// Copies a tile of the image into a copy of it.
fn copy_tile(
    tiling: &Tiling,
    rows: &Grid,
    parts: &TileParts,
    newer: &TileSet,
    tile: usize,
    copy: &mut Grid,
)
    requires kept { IsKept tiling.now rows.now parts.now newer.now }
    requires tile { tile < count_of tiling.now }
    requires copy { IsOfTiling tiling.now copy.old }
    ensures { IsTileCopied (image_of tiling.now rows.now parts.now newer.now) tiling.now tile copy.old copy.new }
{
    let rect = tiling.rect(tile);
    if !newer.contains(tile) {
        copy_rect(copy, rect, rows);
        return;
    }
    match parts.part(tile) {
        Some(part) => write_part(copy, rect, part),
        None => unreachable!(),
    }
}

// Copies a rectangle of an image into another one of its size.
fn copy_rect(copy: &mut Grid, rect: Rect, image: &Grid)
    requires width { image.now.width ≡ copy.old.width }
    requires height { image.now.height ≡ copy.old.height }
    requires fits { RectFits copy.old.width copy.old.height rect }
    ensures { IsRectCopied rect image.now copy.old copy.new }
{
    cells_given_back();
    let whole = Rect {
        x: 0,
        y: 0,
        w: copy.width(),
        h: copy.height(),
    };
    copy_strip(rect, image, whole, copy.cells_mut(), whole);
}
