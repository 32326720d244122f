//! The rims of the tiles of an image: of each tile its first and its last row, and its first and its last column. They
//! stand apart from the image, each in one piece, so that the pixels around a tile are a few short copies.

ghost use Rattle.std.specs.Prelude.{◌≡◌, ◌≢◌, ℕ, ◌+◌, ◌*◌, ◌<◌, ◌≤◌, ⊤, length, IfOk, IsTrue, MatchBool};
ghost use Rattle.std.specs.Prelude.{MatchOption};
ghost use Rattle.grid_core.specs.Bounds.{LieIn, bounds_of};
ghost use Rattle.grid_core.specs.Raster.{IsOfSize, value_at};
ghost use Rattle.grid_core.specs.Rects.{IsInRect};
ghost use Rattle.grid_core.specs.Tiles.{count_of, rect_of};
ghost use Rattle.border_queues.specs.Around.{around_of};
ghost use Rattle.tiled_image.specs.Ring.{HasRing, IsShownWhere};
ghost use Rattle.tiled_image.specs.Rims.{AreRimsOf, IsEdgeBeside, IsRimChanged, IsStripChanged, StandApart};
ghost use Rattle.tiled_image.specs.Rims.{place_of, rank_of, rim_value, room_of, start_of, strip_at, strip_of};
ghost use Rattle.tiled_image.specs.RaisedTiles.{IsEdgeAt, IsInner, IsLaidIn, IsRimWritten, IsStripWritten, LiesOnOne};
ghost use Rattle.tiled_image.specs.SharedCopies.{IsTileCopied};
ghost use Rattle.tiled_image.specs.Shown.{cell_in, value_in};
ghost use Rattle.tiled_image.specs.Sides.{HasSides, HasValues};

use crate::copies::copy_cells;
use crate::image::around_of;
use grid_core::laws::cells_given_back;
use grid_core::{Bounds, Grid, Memory, Pixel, Rect, Tiling};
use std::alloc::Global;
use std::marker::Model;
use tile_generations::Rim;

mod beyond;
mod border;
mod raising;
mod taking;

pub(crate) use beyond::sides_at;
pub(crate) use border::fill_border;
use border::side_of;

/// A row or a column of a rectangle: its first or its last one.
#[derive(Clone, Copy)]
pub enum Edge {
    /// The first row.
    Top,
    /// The last row.
    Bottom,
    /// The first column.
    Left,
    /// The last column.
    Right,
}

/// The values of the rims of all tiles. Each strip of a tile has room for a side of values, of which as many are used
/// as the tile is wide or high.
#[derive(Drop)]
pub struct Rims {
    values: Vec<u16>,
}

impl Model for Rims {
    ghost use Rattle.std.specs.Prelude.{ℕ, List};

    ghost Value = { List ℕ };

    ghost view = { λ r. r.values.items };
}

impl Rims {
    /// The rims of the tiles of an image.
    ///
    /// Errors: out of memory.
    pub fn of(alloc: Global, tiling: &Tiling, image: &Grid) -> Result<Rims, Memory>
        requires width { image.now.width ≡ tiling.now.width }
        requires height { image.now.height ≡ tiling.now.height }
        ensures { IfOk result (AreRimsOf tiling.now image.now) }
    {
        let mut rims = Rims::none(alloc, tiling)?;
        for tile in 0..tiling.count() {
            rims.take_whole(tiling, tile, image);
        }
        Ok(rims)
    }

    /// Takes over the rim of a tile from a source, which shows a rectangle of the image. It takes no memory.
    pub(crate) fn take(&mut self, tiling: &Tiling, tile: usize, source: &Grid, shown: Rect)
        requires count { length self.old ≡ room_of tiling.now }
        requires tile { tile < count_of tiling.now }
        requires width { source.now.width ≡ shown.w }
        requires height { source.now.height ≡ shown.h }
        requires lies { LieIn (bounds_of (rect_of tiling.now tile)) shown }
        ensures { IsRimChanged tiling.now tile (λ _. ⊤) (value_in shown source.now) self.old self.new }
    {
        take_strips(&mut self.values, tiling, tile, source, shown);
    }

    /// Takes over the rim of a tile from a copy of it. It takes no memory.
    pub(crate) fn take_rim(&mut self, tiling: &Tiling, tile: usize, rim: &Rim)
        requires count { length self.old ≡ room_of tiling.now }
        requires tile { tile < count_of tiling.now }
        requires rim { HasSides (rect_of tiling.now tile) rim.now }
        ensures { (value : _) → HasValues (rect_of tiling.now tile) value rim.now
            → IsRimChanged tiling.now tile (λ _. ⊤) value self.old self.new }
    {
        take_sides(&mut self.values, tiling, tile, rim);
    }

    /// Takes over the rim of a tile from the whole image. It takes no memory.
    pub(crate) fn take_whole(&mut self, tiling: &Tiling, tile: usize, image: &Grid)
        requires count { length self.old ≡ room_of tiling.now }
        requires tile { tile < count_of tiling.now }
        requires width { image.now.width ≡ tiling.now.width }
        requires height { image.now.height ≡ tiling.now.height }
        ensures { IsRimChanged tiling.now tile (λ _. ⊤) (value_at image.now) self.old self.new }
    {
        // For its clause alone: the tiles lie in the image.
        let _ = tiling.rect(tile);
        let whole = Rect {
            x: 0,
            y: 0,
            w: image.width(),
            h: image.height(),
        };
        self.take(tiling, tile, image, whole);
    }

    /// A pixel of the image gets another value: where it lies on the rim of this tile, which has this rectangle. It
    /// takes no memory.
    pub(crate) fn set(&mut self, tiling: &Tiling, tile: usize, rect: Rect, p: Pixel, value: u16)
        requires count { length self.old ≡ room_of tiling.now }
        requires tile { tile < count_of tiling.now }
        requires rect { rect ≡ rect_of tiling.now tile }
        ensures { IsRimChanged tiling.now tile (λ q. q ≡ p) (λ _. value) self.old self.new }
    {
        set_rim(&mut self.values, tiling, tile, rect, p, value);
    }

    /// The value at a pixel of a tile that has this rectangle, where the pixel lies on the tile's rim.
    pub(crate) fn get(&self, tiling: &Tiling, tile: usize, rect: Rect, p: Pixel) -> Option<u16>
        requires count { length self.now ≡ room_of tiling.now }
        requires tile { tile < count_of tiling.now }
        requires rect { rect ≡ rect_of tiling.now tile }
        requires inside { IsInRect rect p }
        ensures { (whole : _) → AreRimsOf tiling.now whole self.now
            → MatchOption result (IsInner rect p) (λ value. value ≡ value_at whole p) }
    {
        let Some(edge) = edge_at(rect, p) else {
            return None;
        };
        Some(self.values[place_of(tiling, tile, rect, edge, p)])
    }

    /// Raises a pixel on this edge of a tile, which has this rectangle, to a value, on each edge of the tile on which
    /// it lies, and says whether it was below it. It takes no memory.
    pub(crate) fn raise_at(
        &mut self,
        tiling: &Tiling,
        tile: usize,
        rect: Rect,
        edge: Edge,
        p: Pixel,
        value: u16,
    ) -> bool
        requires count { length self.old ≡ room_of tiling.now }
        requires tile { tile < count_of tiling.now }
        requires rect { rect ≡ rect_of tiling.now tile }
        requires inside { IsInRect rect p }
        requires at { IsInRect (strip_at edge rect) p }
        ensures was { MatchBool result (rim_value tiling.now self.old tile edge p < value)
            (value ≤ rim_value tiling.now self.old tile edge p) }
        ensures changed { MatchBool result (IsRimChanged tiling.now tile (λ q. q ≡ p) (λ _. value) self.old self.new)
            (self.new ≡ self.old) }
    {
        // For its clause alone: how the image is cut into tiles.
        let _ = tiling.side();
        let place = place_of(tiling, tile, rect, edge, p);
        if self.values[place] >= value {
            return false;
        }
        if lies_on_one(rect, edge, p) {
            self.values[place] = value;
            return true;
        }
        set_rim(&mut self.values, tiling, tile, rect, p, value);
        true
    }

    /// Writes the rim of a tile into an image that shows a rectangle of the whole one. It takes no memory.
    pub(crate) fn write(&self, tiling: &Tiling, tile: usize, image: &mut Grid, shown: Rect)
        requires count { length self.now ≡ room_of tiling.now }
        requires tile { tile < count_of tiling.now }
        requires width { image.old.width ≡ shown.w }
        requires height { image.old.height ≡ shown.h }
        requires lies { LieIn (bounds_of (rect_of tiling.now tile)) shown }
        ensures size { IsOfSize image.old image.new }
        ensures written { (whole : _) → AreRimsOf tiling.now whole self.now
            → IsRimWritten tiling.now tile whole shown image.old image.new }
    {
        write_rim(&self.values, tiling, tile, image, shown);
    }

    /// Writes the rim of a tile into an image of the whole one's size. It takes no memory.
    pub(crate) fn write_whole(&self, tiling: &Tiling, tile: usize, image: &mut Grid)
        requires count { length self.now ≡ room_of tiling.now }
        requires tile { tile < count_of tiling.now }
        requires width { image.old.width ≡ tiling.now.width }
        requires height { image.old.height ≡ tiling.now.height }
        ensures size { IsOfSize image.old image.new }
        ensures copied { (whole : _) → IsLaidIn tile whole tiling.now image.old self.now
            → IsTileCopied whole tiling.now tile image.old image.new }
    {
        // For its clause alone: the tiles lie in the image.
        let _ = tiling.rect(tile);
        let whole = Rect {
            x: 0,
            y: 0,
            w: image.width(),
            h: image.height(),
        };
        self.write(tiling, tile, image, whole);
    }

    /// Fills cells in which a tile and the pixels around it, as far as the image goes, stand row by row, with the
    /// values of the pixels around it. What stands at the tile's own pixels does not matter then. It takes no memory.
    pub fn fill_ring(&self, tiling: &Tiling, tile: usize, cells: &mut [u16])
        requires count { length self.now ≡ room_of tiling.now }
        requires tile { tile < count_of tiling.now }
        requires room { (around_of tiling.now tile).w * (around_of tiling.now tile).h ≤ length cells.old }
        ensures { (image : _) → AreRimsOf tiling.now image self.now → HasRing tiling.now tile image cells.new }
    {
        // For its clause alone: how the image is cut into tiles.
        let _ = tiling.side();
        let around = around_of(tiling, tile);
        let touching = tiling.touching(tile);
        let tiles = touching.as_slice();
        for &other in tiles {
            fill_from(&self.values, tiling, tile, other, around, cells);
        }
    }

    // Rims with no values yet.
    //
    // Errors: out of memory.
    fn none(alloc: Global, tiling: &Tiling) -> Result<Rims, Memory>
        ensures { IfOk result (λ rims. length rims ≡ room_of tiling.now) }
    {
        let count = tiling.count();
        let side = tiling.side() as usize;
        let values = vec![in alloc; 0; count * 4 * side]?;
        Ok(Rims { values })
    }
}

// ---- one tile

// Takes over the four strips of a tile from a source.
fn take_strips(values: &mut [u16], tiling: &Tiling, tile: usize, source: &Grid, shown: Rect)
    requires count { length values.old ≡ room_of tiling.now }
    requires tile { tile < count_of tiling.now }
    requires width { source.now.width ≡ shown.w }
    requires height { source.now.height ≡ shown.h }
    requires lies { LieIn (bounds_of (rect_of tiling.now tile)) shown }
    ensures { IsRimChanged tiling.now tile (λ _. ⊤) (value_in shown source.now) values.old values.new }
{
    // For its clause alone: how the image is cut into tiles.
    let _ = tiling.side();
    take_strip(values, tiling, tile, Edge::Top, source, shown);
    take_strip(values, tiling, tile, Edge::Bottom, source, shown);
    take_strip(values, tiling, tile, Edge::Left, source, shown);
    take_strip(values, tiling, tile, Edge::Right, source, shown);
}

// Takes over the four strips of a tile from a copy of its rim.
fn take_sides(values: &mut [u16], tiling: &Tiling, tile: usize, rim: &Rim)
    requires count { length values.old ≡ room_of tiling.now }
    requires tile { tile < count_of tiling.now }
    requires rim { HasSides (rect_of tiling.now tile) rim.now }
    ensures { (value : _) → HasValues (rect_of tiling.now tile) value rim.now
        → IsRimChanged tiling.now tile (λ _. ⊤) value values.old values.new }
{
    // For its clause alone: how the image is cut into tiles.
    let _ = tiling.side();
    take_side(values, tiling, tile, Edge::Top, rim);
    take_side(values, tiling, tile, Edge::Bottom, rim);
    take_side(values, tiling, tile, Edge::Left, rim);
    take_side(values, tiling, tile, Edge::Right, rim);
}

// A pixel gets another value in each strip of a tile in which it lies.
fn set_rim(values: &mut [u16], tiling: &Tiling, tile: usize, rect: Rect, p: Pixel, value: u16)
    requires count { length values.old ≡ room_of tiling.now }
    requires tile { tile < count_of tiling.now }
    requires rect { rect ≡ rect_of tiling.now tile }
    ensures { IsRimChanged tiling.now tile (λ q. q ≡ p) (λ _. value) values.old values.new }
{
    // For its clause alone: how the image is cut into tiles.
    let _ = tiling.side();
    set_in_strip(values, tiling, tile, rect, Edge::Top, p, value);
    set_in_strip(values, tiling, tile, rect, Edge::Bottom, p, value);
    set_in_strip(values, tiling, tile, rect, Edge::Left, p, value);
    set_in_strip(values, tiling, tile, rect, Edge::Right, p, value);
}

// Writes the four strips of a tile into an image that shows a rectangle of the whole one.
fn write_rim(values: &[u16], tiling: &Tiling, tile: usize, image: &mut Grid, shown: Rect)
    requires count { length values.now ≡ room_of tiling.now }
    requires tile { tile < count_of tiling.now }
    requires width { image.old.width ≡ shown.w }
    requires height { image.old.height ≡ shown.h }
    requires lies { LieIn (bounds_of (rect_of tiling.now tile)) shown }
    ensures size { IsOfSize image.old image.new }
    ensures written { (whole : _) → AreRimsOf tiling.now whole values.now
        → IsRimWritten tiling.now tile whole shown image.old image.new }
{
    // For its clause alone: how the image is cut into tiles.
    let _ = tiling.side();
    write_strip(values, tiling, tile, Edge::Top, image, shown);
    write_strip(values, tiling, tile, Edge::Bottom, image, shown);
    write_strip(values, tiling, tile, Edge::Left, image, shown);
    write_strip(values, tiling, tile, Edge::Right, image, shown);
}

// Fills those of the cells, which show a tile and the pixels around it, that stand for pixels of another tile.
fn fill_from(
    values: &[u16],
    tiling: &Tiling,
    tile: usize,
    other: usize,
    around: Rect,
    cells: &mut [u16],
)
    requires count { length values.now ≡ room_of tiling.now }
    requires tile { tile < count_of tiling.now }
    requires other { other < count_of tiling.now }
    requires differ { tile ≢ other }
    requires around { around ≡ around_of tiling.now tile }
    requires room { around.w * around.h ≤ length cells.old }
    ensures { (image : _) → AreRimsOf tiling.now image values.now
        → IsShownWhere (rect_of tiling.now other) image around cells.old cells.new }
{
    let side = tiling.side() as usize;
    let rect = tiling.rect(other);
    let edge = edge_beside(rect, tiling.rect(tile));
    let strip = strip_at(edge, rect);
    let bounds = Bounds::of(strip);
    let common = bounds.intersection(Bounds::of(around));
    if common.is_empty() {
        return;
    }
    let start = start_of(tiling, other, edge);
    let end = start + side;
    copy_cells(common.rect(), &values[start..end], strip, cells, around);
}

// ---- one strip

// Takes over a strip of a tile from a source.
fn take_strip(
    values: &mut [u16],
    tiling: &Tiling,
    tile: usize,
    edge: Edge,
    source: &Grid,
    shown: Rect,
)
    requires count { length values.old ≡ room_of tiling.now }
    requires tile { tile < count_of tiling.now }
    requires width { source.now.width ≡ shown.w }
    requires height { source.now.height ≡ shown.h }
    requires lies { LieIn (bounds_of (rect_of tiling.now tile)) shown }
    ensures { IsStripChanged tiling.now tile edge (λ _. ⊤) (value_in shown source.now) values.old values.new }
{
    // For its clause alone: how the image is cut into tiles.
    let _ = tiling.side();
    take_cells(values, tiling, tile, edge, source.cells(), shown);
}

// Takes over a strip of a tile from a copy of its rim.
fn take_side(values: &mut [u16], tiling: &Tiling, tile: usize, edge: Edge, rim: &Rim)
    requires count { length values.old ≡ room_of tiling.now }
    requires tile { tile < count_of tiling.now }
    requires rim { HasSides (rect_of tiling.now tile) rim.now }
    ensures { (value : _) → HasValues (rect_of tiling.now tile) value rim.now
        → IsStripChanged tiling.now tile edge (λ _. ⊤) value values.old values.new }
{
    // For its clause alone: how the image is cut into tiles.
    let _ = tiling.side();
    let strip = strip_at(edge, tiling.rect(tile));
    take_cells(values, tiling, tile, edge, side_of(rim, edge), strip);
}

// Takes over a strip of a tile from cells, which show a rectangle of the image row by row.
fn take_cells(
    values: &mut [u16],
    tiling: &Tiling,
    tile: usize,
    edge: Edge,
    source: &[u16],
    shown: Rect,
)
    requires count { length values.old ≡ room_of tiling.now }
    requires tile { tile < count_of tiling.now }
    requires lies { LieIn (bounds_of (strip_of tiling.now tile edge)) shown }
    requires room { shown.w * shown.h ≤ length source.now }
    ensures { IsStripChanged tiling.now tile edge (λ _. ⊤) (cell_in shown source.now) values.old values.new }
{
    let side = tiling.side() as usize;
    let rect = tiling.rect(tile);
    let strip = strip_at(edge, rect);
    let start = start_of(tiling, tile, edge);
    let end = start + side;
    copy_cells(strip, source, shown, &mut values[start..end], strip);
}

// Writes a strip of a tile into an image that shows a rectangle of the whole one.
fn write_strip(
    values: &[u16],
    tiling: &Tiling,
    tile: usize,
    edge: Edge,
    image: &mut Grid,
    shown: Rect,
)
    requires count { length values.now ≡ room_of tiling.now }
    requires tile { tile < count_of tiling.now }
    requires width { image.old.width ≡ shown.w }
    requires height { image.old.height ≡ shown.h }
    requires lies { LieIn (bounds_of (rect_of tiling.now tile)) shown }
    ensures size { IsOfSize image.old image.new }
    ensures written { (whole : _) → AreRimsOf tiling.now whole values.now
        → IsStripWritten (strip_of tiling.now tile edge) whole shown image.old image.new }
{
    cells_given_back();
    let side = tiling.side() as usize;
    let strip = strip_at(edge, tiling.rect(tile));
    let start = start_of(tiling, tile, edge);
    let end = start + side;
    copy_cells(strip, &values[start..end], strip, image.cells_mut(), shown);
}

// A pixel gets another value where it lies in a strip of a tile.
fn set_in_strip(
    values: &mut [u16],
    tiling: &Tiling,
    tile: usize,
    rect: Rect,
    edge: Edge,
    p: Pixel,
    value: u16,
)
    requires count { length values.old ≡ room_of tiling.now }
    requires tile { tile < count_of tiling.now }
    requires rect { rect ≡ rect_of tiling.now tile }
    ensures { IsStripChanged tiling.now tile edge (λ q. q ≡ p) (λ _. value) values.old values.new }
{
    // For its clause alone: how the image is cut into tiles.
    let _ = tiling.side();
    let strip = strip_at(edge, rect);
    if strip.contains(p) {
        values[place_of(tiling, tile, rect, edge, p)] = value;
    }
}

/// The edge of a rectangle at which a pixel of it lies, if it lies at one.
pub(crate) fn edge_at(rect: Rect, p: Pixel) -> Option<Edge>
    requires { IsInRect rect p }
    ensures { IsEdgeAt rect p result }
{
    let right = p.x - rect.x;
    let down = p.y - rect.y;
    if down == 0 {
        return Some(Edge::Top);
    }
    if down + 1 == rect.h {
        return Some(Edge::Bottom);
    }
    if right == 0 {
        return Some(Edge::Left);
    }
    if right + 1 == rect.w {
        return Some(Edge::Right);
    }
    None
}

// Whether a pixel that lies on this edge of a rectangle lies on no other one.
fn lies_on_one(rect: Rect, edge: Edge, p: Pixel) -> bool
    requires inside { IsInRect rect p }
    requires at { IsInRect (strip_at edge rect) p }
    ensures { IsTrue result → LiesOnOne rect edge p }
{
    let right = p.x - rect.x;
    let down = p.y - rect.y;
    match edge {
        Edge::Top | Edge::Bottom => right > 0 && right + 1 < rect.w && rect.h > 1,
        Edge::Left | Edge::Right => down > 0 && down + 1 < rect.h && rect.w > 1,
    }
}

// The place among the values at which the value of a pixel on this edge of a tile stands.
fn place_of(tiling: &Tiling, tile: usize, rect: Rect, edge: Edge, p: Pixel) -> usize
    requires tile { tile < count_of tiling.now }
    requires rect { rect ≡ rect_of tiling.now tile }
    requires at { IsInRect (strip_at edge rect) p }
    ensures value { result ≡ place_of tiling.now tile edge p }
    ensures room { result < room_of tiling.now }
{
    // For its clause alone: how the image is cut into tiles.
    let _ = tiling.side();
    let strip = strip_at(edge, rect);
    let place = (p.x - strip.x) as usize + (p.y - strip.y) as usize;
    start_of(tiling, tile, edge) + place
}

// The row or the column of a rectangle at one of its edges.
fn strip_at(edge: Edge, rect: Rect) -> Rect
    requires some_width { 0 < rect.w }
    requires some_height { 0 < rect.h }
    requires columns { rect.x + rect.w < 4294967296 }
    requires rows { rect.y + rect.h < 4294967296 }
    ensures { result ≡ strip_at edge rect }
{
    match edge {
        Edge::Top => Rect { h: 1, ..rect },
        Edge::Bottom => Rect {
            y: rect.y + rect.h - 1,
            h: 1,
            ..rect
        },
        Edge::Left => Rect { w: 1, ..rect },
        Edge::Right => Rect {
            x: rect.x + rect.w - 1,
            w: 1,
            ..rect
        },
    }
}

// Where the values of a strip of a tile begin.
fn start_of(tiling: &Tiling, tile: usize, edge: Edge) -> usize
    requires { tile < count_of tiling.now }
    ensures { result ≡ start_of tiling.now tile edge }
{
    let side = tiling.side() as usize;
    (tile * 4 + rank_of(edge)) * side
}

// In which order the strips of a tile stand.
fn rank_of(edge: Edge) -> usize
    ensures { result ≡ rank_of edge }
{
    match edge {
        Edge::Top => 0,
        Edge::Bottom => 1,
        Edge::Left => 2,
        Edge::Right => 3,
    }
}

// The edge of a tile at which the pixels stand that lie around another one.
fn edge_beside(rect: Rect, own: Rect) -> Edge
    requires { StandApart rect own }
    ensures { IsEdgeBeside rect own result }
{
    if rect.y < own.y {
        return Edge::Bottom;
    }
    if own.y < rect.y {
        return Edge::Top;
    }
    if rect.x < own.x {
        return Edge::Right;
    }
    Edge::Left
}
