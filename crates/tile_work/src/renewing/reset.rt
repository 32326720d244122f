//! Tiles that are reset to the marker.

ghost use Rattle.std.specs.Prelude.{◌≡◌, ◌<◌, ℕ, false, length, replicate, slice_index, Contains};
ghost use Rattle.grid_core.specs.Rects.{RectFits};
ghost use Rattle.grid_core.specs.Tiles.{IsTiled, count_of};
ghost use Rattle.tile_generations.specs.Generations.{max_generation};
ghost use Rattle.core_rules.specs.Image.{IsOfSize};
ghost use Rattle.tile_work.specs.TileSet.{Has};
ghost use Rattle.border_queues.specs.OpenEdges.{IsOnTiling};
ghost use Rattle.tile_work.specs.Renewing.{AreCopiedIn, AreCutAlike, AreMarkedReset, IsOneReset, IsRun};
ghost use Rattle.tile_work.specs.Renewing.{AreResetsWithin, AreDirtyWhere, AreWidenedNear, IsCopiedIn};
ghost use Rattle.border_queues.specs.TileWork.{work_of};

use crate::renewing::cells::copy_cells;
use crate::{OpenBounds, TileSet, WorkTable};
use grid_core::laws::{each_pixel_in_one_tile, neighbours_lie_in_touching_tiles};
use grid_core::{Bounds, Grid, Rect, Tiling};

/// Resets each marked tile: its image becomes the marker, its work that of a reset tile, and each tile that touches
/// it is dirty. Its pixels, and those beside it, lie within the bounds of their tiles. No mark is left.
///
/// It costs about the pixels of the marked tiles.
pub fn reset_marked(
    marks: &mut TileSet,
    image: &mut Grid,
    marker: &Grid,
    tiling: &Tiling,
    work: &mut WorkTable,
    bounds: &mut OpenBounds,
)
    requires parts { AreCutAlike tiling.now marker.now image.old work.old }
    requires marks { length marks.old ≡ count_of tiling.now }
    requires unspent { (t : ℕ) → Has marks.old t → (work_of work.old t).generation < max_generation }
    requires bounds { length bounds.old ≡ count_of tiling.now }
    ensures marks { marks.new ≡ replicate (length marks.old) false }
    ensures reset { AreMarkedReset tiling.now marks.old marker.now image.old image.new work.old work.new }
    ensures bounds { AreResetsWithin tiling.now (Has marks.old) bounds.old bounds.new }
{
    prove!(marks.len() == tiling.count());
    prove!(image.width() == marker.width());
    copy_marked(image, marker, tiling, marks);
    let mut from = 0;
    while let Some(tile) = marks.first_from(from) {
        reset_tile(tiling, work, bounds, tile);
        from = tile + 1;
    }
    marks.clear();
}

// Copies the marker's values in each marked tile over the image's, and those of tiles that stand side by side at once.
fn copy_marked(image: &mut Grid, marker: &Grid, tiling: &Tiling, marks: &TileSet)
    requires size { IsOfSize marker.now image.old }
    requires marker { IsOnTiling tiling.now marker.now }
    requires tiled { IsTiled tiling.now }
    requires marks { length marks.now ≡ count_of tiling.now }
    ensures { AreCopiedIn tiling.now (Has marks.now) marker.now image.old image.new }
{
    prove!(marks.len() == tiling.count());
    prove!(image.width() == marker.width());
    let mut from = 0;
    while let Some(tile) = marks.first_from(from) {
        let (rect, end) = run_from(tiling, marks, tile);
        copy_rect(image, marker, rect);
        from = end;
    }
}

// The tiles of the set that stand side by side from this one on: their rectangle, and the tile behind the last one.
fn run_from(tiling: &Tiling, set: &TileSet, first: usize) -> (Rect, usize)
    requires tiled { IsTiled tiling.now }
    requires count { length set.now ≡ count_of tiling.now }
    requires first { Has set.now first }
    ensures { IsRun tiling.now set.now first result.0 result.1 }
{
    each_pixel_in_one_tile();
    let mut rect = tiling.rect(first);
    let mut end = first + 1;
    for tile in first + 1..set.len() {
        if !set.contains(tile) {
            break;
        }
        let next = tiling.rect(tile);
        if next.x != rect.x + rect.w || next.y != rect.y || next.h != rect.h {
            break;
        }
        rect.w += next.w;
        end = tile + 1;
    }
    (rect, end)
}

// Resets the work of one tile. Each tile that touches it is dirty, and widened by its pixels beside the tile.
fn reset_tile(tiling: &Tiling, work: &mut WorkTable, bounds: &mut OpenBounds, tile: usize)
    requires count { length work.old ≡ count_of tiling.now }
    requires tiled { IsTiled tiling.now }
    requires tile { tile < count_of tiling.now }
    requires unspent { (work_of work.old tile).generation < max_generation }
    requires bounds { length bounds.old ≡ count_of tiling.now }
    ensures reset { IsOneReset tiling.now work.old work.new tile }
    ensures bounds { AreResetsWithin tiling.now (λ t. t ≡ tile) bounds.old bounds.new }
{
    each_pixel_in_one_tile();
    neighbours_lie_in_touching_tiles();
    let rect = tiling.rect(tile);
    work.reset(tile);
    let around = tiling.touching(tile);
    mark_all_dirty(work, around.as_slice());
    let area = Bounds::of(rect);
    bounds.widen(tile, area);
    widen_near(bounds, tiling, around.as_slice(), area.wider());
}

// Makes these tiles dirty.
fn mark_all_dirty(work: &mut WorkTable, tiles: &[usize])
    requires { (k : ℕ) → k < length tiles.now → slice_index tiles.now k < length work.old }
    ensures { AreDirtyWhere (Contains tiles.now) work.old work.new }
{
    for tile in tiles {
        work.mark_dirty(*tile);
    }
}

// Widens these tiles by their pixels within the bounds `near`.
fn widen_near(bounds: &mut OpenBounds, tiling: &Tiling, tiles: &[usize], near: Bounds)
    requires tiled { IsTiled tiling.now }
    requires count { length bounds.old ≡ count_of tiling.now }
    requires tiles { (k : ℕ) → k < length tiles.now → slice_index tiles.now k < count_of tiling.now }
    ensures { AreWidenedNear tiling.now near (Contains tiles.now) bounds.old bounds.new }
{
    for tile in tiles {
        bounds.widen(*tile, Bounds::of(tiling.rect(*tile)).intersection(near));
    }
}

// Copies the marker's values in a rectangle over the image's.
fn copy_rect(image: &mut Grid, marker: &Grid, rect: Rect)
    requires size { IsOfSize marker.now image.old }
    requires fits { RectFits marker.now.width marker.now.height rect }
    ensures { IsCopiedIn rect marker.now image.old image.new }
{
    let width = marker.width() as usize;
    for y in rect.y..rect.y + rect.h {
        let start = y as usize * width + rect.x as usize;
        copy_cells(image, marker, start, start + rect.w as usize);
    }
}
