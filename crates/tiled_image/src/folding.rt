//! Rims of tiles that are written into the rows and parts over which they are laid. A tile is raised where its rim has
//! values that row and part do not have yet.

ghost use Rattle.std.specs.Prelude.{◌≡◌, ◌<◌, ℕ, length, replicate, slice_index_or, false, None, IfSome, MatchBool};
ghost use Rattle.std.specs.Arc.{arc_value};
ghost use Rattle.grid_core.specs.Tiles.{count_of, rect_of};
ghost use Rattle.tile_work.specs.TileSet.{Has};
ghost use Rattle.tiled_image.specs.RaisedTiles.{IsLaidIn, IsPartWritten, IsRimIn, IsShownBut, shown_of, whole_of};
ghost use Rattle.tiled_image.specs.Rims.{room_of};
ghost use Rattle.tiled_image.specs.SharedCopies.{IsTileCopied};
ghost use Rattle.tiled_image.specs.TiledImage.{IsKept, IsKeptAs, image_of};

use crate::keeping::{let_go, write_newer};
use crate::rims::Rims;
use crate::tile_parts::TileParts;
use grid_core::{Grid, Tiling};
use std::alloc::Global;
use std::sync::Arc;
use tile_work::TileSet;

/// Writes all that is laid over the rows into them. No tile is newer then, and none is raised. It takes no memory.
pub(crate) fn write_all(
    tiling: &Tiling,
    rows: &mut Grid,
    parts: &mut TileParts,
    newer: &mut TileSet,
    raised: &mut TileSet,
    rims: &Rims,
)
    requires kept { IsKept tiling.now rows.old parts.old newer.old }
    requires count { length raised.old ≡ count_of tiling.now }
    requires shown { IsShownBut (Has raised.old) (whole_of tiling.now rows.old parts.old newer.old rims.now) tiling.now
        (image_of tiling.now rows.old parts.old newer.old) rims.now }
    ensures kept { IsKeptAs (whole_of tiling.now rows.old parts.old newer.old rims.now) tiling.now rows.new parts.new
        newer.new }
    ensures rows { rows.new ≡ whole_of tiling.now rows.old parts.old newer.old rims.now }
    ensures none { (t : ℕ) → Has newer.new t → ⊥ }
    ensures count { length raised.new ≡ length raised.old }
    ensures raised { raised.new ≡ replicate (length raised.old) false }
{
    fold_all(None, tiling, rows, parts, newer, raised, rims);
    write_newer(tiling, rows, parts, newer);
}

/// Writes the rim of each raised tile into what the tile is kept in, after which none is. Where there is memory to
/// take, a part that others hold is copied first.
pub(crate) fn fold_all(
    alloc: Option<Global>,
    tiling: &Tiling,
    rows: &mut Grid,
    parts: &mut TileParts,
    newer: &mut TileSet,
    raised: &mut TileSet,
    rims: &Rims,
)
    requires kept { IsKept tiling.now rows.old parts.old newer.old }
    requires count { length raised.old ≡ count_of tiling.now }
    requires shown { IsShownBut (Has raised.old) (whole_of tiling.now rows.old parts.old newer.old rims.now) tiling.now
        (image_of tiling.now rows.old parts.old newer.old) rims.now }
    ensures kept { IsKeptAs (whole_of tiling.now rows.old parts.old newer.old rims.now) tiling.now rows.new parts.new
        newer.new }
    ensures raised { raised.new ≡ replicate (length raised.old) false }
{
    fold_each(alloc, tiling, rows, parts, newer, raised, rims);
    raised.clear();
}

/// Writes the rim of a tile into what the tile is kept in where it is raised, after which it is not. Where there is
/// memory to take, a part that others hold is copied first.
pub(crate) fn fold_one(
    alloc: Option<Global>,
    tiling: &Tiling,
    rows: &mut Grid,
    parts: &mut TileParts,
    newer: &mut TileSet,
    raised: &mut TileSet,
    rims: &Rims,
    tile: usize,
)
    requires kept { IsKept tiling.now rows.old parts.old newer.old }
    requires count { length raised.old ≡ count_of tiling.now }
    requires shown { IsShownBut (Has raised.old) (whole_of tiling.now rows.old parts.old newer.old rims.now) tiling.now
        (image_of tiling.now rows.old parts.old newer.old) rims.now }
    requires tile { tile < count_of tiling.now }
    ensures kept { IsKept tiling.now rows.new parts.new newer.new }
    ensures count { length raised.new ≡ length raised.old }
    ensures shown { IsShownBut (Has raised.new) (whole_of tiling.now rows.old parts.old newer.old rims.now) tiling.now
        (image_of tiling.now rows.new parts.new newer.new) rims.now }
    ensures settled { Has raised.new tile → ⊥ }
{
    if !raised.contains(tile) {
        return;
    }
    fold_tile(alloc, tiling, rows, parts, newer, rims, tile);
    raised.remove(tile);
}

/// Writes the rim of each raised tile into an image that is the one below, which is the whole image then. It takes no
/// memory.
pub(crate) fn write_raised(tiling: &Tiling, raised: &TileSet, rims: &Rims, image: &mut Grid)
    requires count { length raised.now ≡ count_of tiling.now }
    requires shown { IsShownBut (Has raised.now) (shown_of tiling.now image.old rims.now) tiling.now image.old
        rims.now }
    ensures { image.new ≡ shown_of tiling.now image.old rims.now }
{
    // For its clause alone: there are no more tiles than a `usize` counts.
    let _ = raised.len();
    let mut next = 0;
    while let Some(tile) = raised.first_from(next) {
        rims.write_whole(tiling, tile, image);
        next = tile + 1;
    }
}

// Writes the rim of each raised tile into what the tile is kept in.
fn fold_each(
    alloc: Option<Global>,
    tiling: &Tiling,
    rows: &mut Grid,
    parts: &mut TileParts,
    newer: &mut TileSet,
    raised: &TileSet,
    rims: &Rims,
)
    requires kept { IsKept tiling.now rows.old parts.old newer.old }
    requires count { length raised.now ≡ count_of tiling.now }
    requires shown { IsShownBut (Has raised.now) (whole_of tiling.now rows.old parts.old newer.old rims.now) tiling.now
        (image_of tiling.now rows.old parts.old newer.old) rims.now }
    ensures { IsKeptAs (whole_of tiling.now rows.old parts.old newer.old rims.now) tiling.now rows.new parts.new
        newer.new }
{
    // For its clause alone: there are no more tiles than a `usize` counts.
    let _ = raised.len();
    let mut next = 0;
    while let Some(tile) = raised.first_from(next) {
        fold_tile(alloc, tiling, rows, parts, newer, rims, tile);
        next = tile + 1;
    }
}

// Writes the rim of a tile into what the tile is kept in: into its part if nobody else holds that, which is newer then,
// or into a copy of it. Else the part is let go, and the rim is written into the rows.
fn fold_tile(
    alloc: Option<Global>,
    tiling: &Tiling,
    rows: &mut Grid,
    parts: &mut TileParts,
    newer: &mut TileSet,
    rims: &Rims,
    tile: usize,
)
    requires kept { IsKept tiling.now rows.old parts.old newer.old }
    requires tile { tile < count_of tiling.now }
    requires laid { IsLaidIn tile (whole_of tiling.now rows.old parts.old newer.old rims.now) tiling.now
        (image_of tiling.now rows.old parts.old newer.old) rims.now }
    ensures kept { IsKept tiling.now rows.new parts.new newer.new }
    ensures folded { IsTileCopied (whole_of tiling.now rows.old parts.old newer.old rims.now) tiling.now tile
        (image_of tiling.now rows.old parts.old newer.old) (image_of tiling.now rows.new parts.new newer.new) }
{
    if write_into_part(alloc, tiling, parts, rims, tile) {
        newer.insert(tile);
    } else {
        let_go(tiling, rows, parts, newer, tile);
        rims.write_whole(tiling, tile, rows);
    }
}

// Writes the rim of a tile into its part, where there is a part and nobody else holds it or it can be copied. Says
// whether it did.
fn write_into_part(
    alloc: Option<Global>,
    tiling: &Tiling,
    parts: &mut TileParts,
    rims: &Rims,
    tile: usize,
) -> bool
    requires count { length rims.now ≡ room_of tiling.now }
    requires tile { tile < count_of tiling.now }
    requires within { tile < length parts.old }
    requires width { IfSome (slice_index_or parts.old tile None) (λ part. part.width ≡ (rect_of tiling.now tile).w) }
    requires height { IfSome (slice_index_or parts.old tile None) (λ part. part.height ≡ (rect_of tiling.now tile).h) }
    ensures { MatchBool result (IsPartWritten tiling.now tile rims.now parts.old parts.new) (parts.new ≡ parts.old) }
{
    let Some(mut part) = parts.take(tile) else {
        return false;
    };
    let is_written = write_own(alloc, tiling, rims, tile, &mut part);
    parts.put(tile, part);
    is_written
}

// Writes the rim of a tile into its part, where nobody else holds it or it can be copied. Says whether it did.
fn write_own(
    alloc: Option<Global>,
    tiling: &Tiling,
    rims: &Rims,
    tile: usize,
    part: &mut Arc<Grid>,
) -> bool
    requires count { length rims.now ≡ room_of tiling.now }
    requires tile { tile < count_of tiling.now }
    requires width { (arc_value part.old).width ≡ (rect_of tiling.now tile).w }
    requires height { (arc_value part.old).height ≡ (rect_of tiling.now tile).h }
    ensures { MatchBool result (IsRimIn tiling.now tile rims.now (arc_value part.old) (arc_value part.new))
        (arc_value part.new ≡ arc_value part.old) }
{
    let rect = tiling.rect(tile);
    unshare(alloc, part);
    match Arc::get_mut(part) {
        Some(own) => {
            rims.write(tiling, tile, own, rect);
            true
        }
        None => false,
    }
}

// Puts a copy in place of a part that others hold, where there is memory to take and it lasts.
fn unshare(alloc: Option<Global>, part: &mut Arc<Grid>)
    ensures { arc_value part.new ≡ arc_value part.old }
{
    let Some(alloc) = alloc else {
        return;
    };
    if is_unshared(part) {
        return;
    }
    let Ok(copy) = part.copy(alloc) else {
        return;
    };
    if let Ok(own) = Arc::new(alloc, copy) {
        *part = own;
    }
}

// Whether nobody else holds the part.
fn is_unshared(part: &mut Arc<Grid>) -> bool
    ensures { arc_value part.new ≡ arc_value part.old }
{
    match Arc::get_mut(part) {
        Some(_own) => true,
        None => false,
    }
}
