//! Hints that are told along the sides of a tile, by the values there.

ghost use Rattle.std.specs.Prelude.{◌≡◌, ℕ, ◌<◌, ◌≤◌, ◌↔◌, [], ◌++◌, length, IsTrue, OnOk, OnErr};
ghost use Rattle.grid_core.specs.declared.conn.Conn.TheVariants.{Four};
ghost use Rattle.grid_core.specs.declared.pixel.Pixel.{Pixel};
ghost use Rattle.grid_core.specs.Raster.{IsInside};
ghost use Rattle.grid_core.specs.Tiles.{IsTiled, count_of, max_tile_side, rect_of};
ghost use Rattle.border_queues.specs.OpenEdges.{Sender, open_edges, sender_by};
ghost use Rattle.border_queues.specs.Sides.{AreSidesOf, HasLength, HaveLengths, hints_along};
ghost use Rattle.border_queues.specs.TileWork.{work_of};
ghost use Rattle.tile_work.specs.Along.{AreApart, AreBeyond, AreTold, AreWithin, CanAllTell, CanTell, HasRoomBeyond};
ghost use Rattle.tile_work.specs.Along.{HaveGrown, HaveRoomBeyond, IsTelling, IsTold, LeadsTo};
ghost use Rattle.tile_work.specs.WorkTable.{AreReceived, waiting_bits, works_of};

use super::WorkTable;
use super::row::TileRow;
use crate::tile_set::TileSet;
use border_queues::{Side, Sides};
use grid_core::{Memory, Pixel, Rect, Tiling};

/// What lies beyond a side of a tile.
#[derive(Clone, Copy, Debug)]
pub(super) struct Beyond {
    // The tile there.
    pub(crate) tile: usize,
    // The first pixel there. The others are below it in its column, or right of it in its row.
    pub(crate) first: Pixel,
    pub(crate) is_column: bool,
    // How many pixels are told: all, or none where none can rise or the image ends.
    pub(crate) count: u16,
}

/// What lies beyond the four sides of a tile.
#[derive(Clone, Copy, Debug)]
pub(super) struct BeyondSides {
    pub(crate) above: Beyond,
    pub(crate) left: Beyond,
    pub(crate) right: Beyond,
    pub(crate) below: Beyond,
}

impl WorkTable {
    /// Puts the hints of the open edges of a tile, with four neighbours, into the inboxes of the tiles that their
    /// pixels lie in, behind those that wait there, by the values along the tile's sides.
    ///
    /// Errors: out of memory, where nothing changes.
    pub fn receive_along(
        &mut self,
        tiling: &Tiling,
        from: usize,
        sides: &Sides<'_>,
    ) -> Result<(), Memory>
        requires tiles { length self.old ≡ count_of tiling.now }
        requires from { from < count_of tiling.now }
        requires sides { HaveLengths tiling.now (rect_of tiling.now from) sides.now }
        ensures ok { (image mask : Pixel → ℕ) → AreSidesOf tiling.now (rect_of tiling.now from) image mask sides.now
            → OnOk result (AreReceived tiling.now (open_edges (sender_by tiling.now Four mask image from (work_of
            self.old from).generation)) self.old self.new) }
        ensures err { OnErr result (self.new ≡ self.old) }
    {
        let generation = self.generation(from);
        let beyond = beyond_sides(tiling, from, sides);
        make_room_beyond(&mut self.rows, &beyond)?;
        deliver_beyond(
            &mut self.rows,
            &mut self.waiting,
            from,
            generation,
            sides,
            &beyond,
        );
        Ok(())
    }
}

// What lies beyond the sides of a tile.
fn beyond_sides(tiling: &Tiling, from: usize, sides: &Sides<'_>) -> BeyondSides
    requires from { from < count_of tiling.now }
    requires sides { HaveLengths tiling.now (rect_of tiling.now from) sides.now }
    ensures tiled { IsTiled tiling.now }
    ensures beyond { AreBeyond tiling.now (rect_of tiling.now from) sides.now result }
{
    let (width, height) = (tiling.width(), tiling.height());
    let Rect { x, y, w, h } = tiling.rect(from);
    let (before_x, before_y) = (x.saturating_sub(1), y.saturating_sub(1));
    let above = Pixel { x, y: before_y };
    let left = Pixel { x: before_x, y };
    let right = Pixel { x: x + w, y };
    let below = Pixel { x, y: y + h };
    let goes_right = right.x < width;
    let goes_down = below.y < height;
    BeyondSides {
        above: look_beyond(tiling, from, y > 0, above, false, w, &sides.above),
        left: look_beyond(tiling, from, x > 0, left, true, h, &sides.left),
        right: look_beyond(tiling, from, goes_right, right, true, h, &sides.right),
        below: look_beyond(tiling, from, goes_down, below, false, w, &sides.below),
    }
}

// What lies beyond a side of so many pixels of the tile `from`, if the image goes on there: the tile of the pixel
// `first`, and the pixels below or right of it.
fn look_beyond(
    tiling: &Tiling,
    from: usize,
    goes_on: bool,
    first: Pixel,
    is_column: bool,
    count: u32,
    side: &Side<'_>,
) -> Beyond
    requires from { from < count_of tiling.now }
    requires first { IsTrue goes_on → IsInside tiling.now.width tiling.now.height first }
    requires count { count ≤ max_tile_side }
    requires lengths { IsTrue goes_on → HasLength count side.now }
    ensures { LeadsTo tiling.now goes_on first is_column count side.now result }
{
    if !goes_on {
        return Beyond {
            tile: from,
            first,
            is_column,
            count: 0,
        };
    }
    let told = if side.is_open(count as usize) {
        count as u16
    } else {
        0
    };
    Beyond {
        tile: tiling.tile_of(first),
        first,
        is_column,
        count: told,
    }
}

// Makes room for the hints of each side at the tile beyond it.
//
// Errors: out of memory.
fn make_room_beyond(rows: &mut [TileRow], beyond: &BeyondSides) -> Result<(), Memory>
    requires { AreWithin (length rows.old) beyond.now }
    ensures works { works_of rows.new ≡ works_of rows.old }
    ensures room { OnOk result (HaveRoomBeyond rows.new beyond.now) }
{
    make_room_at(rows, beyond.above)?;
    make_room_at(rows, beyond.left)?;
    make_room_at(rows, beyond.right)?;
    make_room_at(rows, beyond.below)
}

// Makes room for the hints of one side at the tile beyond it.
//
// Errors: out of memory.
fn make_room_at(rows: &mut [TileRow], beyond: Beyond) -> Result<(), Memory>
    requires { beyond.tile < length rows.old }
    ensures works { works_of rows.new ≡ works_of rows.old }
    ensures room { OnOk result (HasRoomBeyond rows.new beyond) }
    ensures grown { HaveGrown rows.old rows.new }
{
    if beyond.count == 0 {
        return Ok(());
    }
    if rows[beyond.tile]
        .inbox
        .reserve(beyond.count as usize, 1)
        .is_err()
    {
        return Err(Memory);
    }
    Ok(())
}

// Puts the hints of each side into the inbox of the tile beyond it, where there is room for them.
fn deliver_beyond(
    rows: &mut [TileRow],
    waiting: &mut TileSet,
    from: usize,
    generation: u64,
    sides: &Sides<'_>,
    beyond: &BeyondSides,
)
    requires within { AreWithin (length rows.old) beyond.now }
    requires sides { CanAllTell sides.now beyond.now }
    requires apart { AreApart beyond.now }
    requires room { HaveRoomBeyond rows.old beyond.now }
    requires waiting { waiting.old ≡ waiting_bits (works_of rows.old) }
    ensures { AreTold from generation sides.now beyond.now (works_of rows.old) (works_of rows.new) waiting.new }
{
    tell(rows, waiting, from, generation, &sides.above, beyond.above);
    tell(rows, waiting, from, generation, &sides.left, beyond.left);
    tell(rows, waiting, from, generation, &sides.right, beyond.right);
    tell(rows, waiting, from, generation, &sides.below, beyond.below);
}

// Puts the hints of one side into the inbox of the tile beyond it, where there is room for them.
fn tell(
    rows: &mut [TileRow],
    waiting: &mut TileSet,
    from: usize,
    generation: u64,
    side: &Side<'_>,
    beyond: Beyond,
)
    requires within { beyond.tile < length rows.old }
    requires side { CanTell side.now beyond }
    requires room { HasRoomBeyond rows.old beyond }
    requires waiting { waiting.old ≡ waiting_bits (works_of rows.old) }
    ensures { IsTold from generation side.now beyond rows.old rows.new waiting.new }
{
    if beyond.count == 0 {
        return;
    }
    // Whatever came, the set says whether a hint waits there.
    if rows[beyond.tile].push_along(from, generation, side, beyond) {
        waiting.remove(beyond.tile);
    } else {
        waiting.insert(beyond.tile);
    }
}

impl TileRow {
    // Puts the hints of a side behind those that wait here, beyond it, where there is room for them. It says whether
    // none waits then.
    fn push_along(&mut self, from: usize, generation: u64, side: &Side<'_>, beyond: Beyond) -> bool
        requires side { CanTell side.now beyond }
        requires hints { beyond.count ≤ self.old.inbox.room }
        requires runs { 0 < self.old.inbox.runs }
        ensures row { self.new ≡ record self.old { inbox = self.new.inbox } }
        ensures came { (s : Sender) (inner outer : ℕ → Pixel) → IsTelling s from generation side.now beyond inner outer
            → self.new.inbox.hints ≡ self.old.inbox.hints ++ hints_along s beyond.count inner outer }
        ensures empty { IsTrue result ↔ (self.new.inbox.hints ≡ []) }
    {
        self.inbox.push_along(
            from,
            generation,
            beyond.first,
            beyond.is_column,
            side,
            beyond.count,
        );
        self.inbox.is_empty()
    }
}
