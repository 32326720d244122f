//! The one step of settling: a dirty tile is swept in place, and its hints are handed over at once.

ghost use Rattle.std.specs.Prelude.{◌≡◌, ◌*◌, ◌<◌, ◌≤◌, ◌↔◌, [], ◌∷◌, Contains, length, IfOk};
ghost use Rattle.std.specs.List.{flat_map};
ghost use Rattle.grid_core.specs.Raster.{IsBelow, IsFilled, IsInside, index_of};
ghost use Rattle.grid_core.specs.Rects.{IsInRect};
ghost use Rattle.grid_core.specs.Bounds.{LieIn};
ghost use Rattle.grid_core.specs.Tiles.{count_of, rect_of, tile_of};
ghost use Rattle.border_queues.specs.OpenEdges.{EdgesBeginIn, room_for_edges, open_edges};
ghost use Rattle.border_queues.specs.Waiting.{places};
ghost use Rattle.core_rules.specs.Work.{tiling};
ghost use Rattle.core_rules.specs.Events.{Take};
ghost use Rattle.core_rules.specs.Runs.{IsNext};
ghost use Rattle.reset_core.specs.Settling.{IsOneWorkedOff};
ghost use Rattle.reset_core.specs.Telling.{both_on, hints_in, image_on, AreOfTiles, AreToInside, AreTold, HaveWorkAt};
ghost use Rattle.reset_core.specs.Telling.{IsHandOver, LieWithin};
ghost use Rattle.reset_core.specs.Bounding.{AreBounded};
ghost use Rattle.reset_core.specs.InPlace.{BoundsFollow, IsSweptHere, core_on, sender_on};
ghost use Rattle.tile_work.specs.WorkTable.{IsToInside};

use crate::replica::Core;
use border_queues::laws::edges_are_open;
use border_queues::{Hint, Inbox, View, open_edges_in, room_for_edges};
use grid_core::laws::{each_pixel_in_one_tile, neighbours_lie_in_touching_tiles};
use grid_core::{Bounds, Conn, Memory, Pixel, Rect, Tiling};
use raster_sweeps::Room;
use raster_sweeps::steps::{Size, grow_rows_from_bounds};
use std::alloc::Global;
use tile_work::{OpenBounds, WorkTable};

impl Core {
    /// Sweeps the next tile in place, and hands over the hints that this makes. It takes no memory.
    ///
    /// `told` needs room for the hints of one tile; what it holds is dropped.
    pub(crate) fn work_off(&mut self, tile: usize, room: &mut Room, told: &mut Inbox)
        requires next { IsNext self.old (Take tile) }
        requires enough { room_for_edges (tiling self.old) ≤ places told.old }
        ensures worked { IsOneWorkedOff self.old tile self.new × (tiling self.new ≡ tiling self.old) }
        ensures enough { places told.old ≤ places told.new }
    {
        edges_are_open();
        let tiling = self.markers.tiling();
        let image = self.image.cells_mut();
        let mask = self.markers.mask().cells();
        self.serial = self.serial.wrapping_add(1);
        sweep_one(
            mask,
            image,
            &mut self.work,
            &mut self.bounds,
            &tiling,
            tile,
            self.conn,
            room,
            told,
        );
    }
}

/// An inbox with room for the hints of one tile.
///
/// Errors: out of memory.
pub(crate) fn inbox_for(alloc: Global, tiling: &Tiling) -> Result<Inbox, Memory>
    ensures { IfOk result (λ told. room_for_edges tiling.now ≤ places told) }
{
    let mut told = Inbox::new(alloc);
    match told.reserve(room_for_edges(tiling)) {
        Ok(()) => Ok(told),
        Err(_) => {
            drop(told);
            Err(Memory)
        }
    }
}

/// Sweeps a tile in place, in whole rows of cells, and hands over the hints that this makes. It takes no memory.
///
/// `told` needs room for the hints of one tile; what it holds is dropped.
pub(crate) fn sweep_one(
    mask: &[u16],
    image: &mut [u16],
    work: &mut WorkTable,
    bounds: &mut OpenBounds,
    tiling: &Tiling,
    tile: usize,
    conn: Conn,
    room: &mut Room,
    told: &mut Inbox,
)
    requires tile { HaveWorkAt tiling.now image.old work.old tile }
    requires mask { IsFilled (image_on tiling.now mask.now) }
    requires below { IsBelow (image_on tiling.now image.old) (image_on tiling.now mask.now) }
    requires bounded { AreBounded (core_on tiling.now conn mask.now image.old work.old) bounds.old }
    requires enough { room_for_edges tiling.now ≤ places told.old }
    ensures swept { IsSweptHere (core_on tiling.now conn mask.now image.old work.old) bounds.old tile
        (both_on tiling.now image.new work.new) bounds.new }
    ensures enough { places told.old ≤ places told.new }
{
    let size = Size {
        w: tiling.width(),
        h: tiling.height(),
    };
    work.mark_clean(tile);
    let area = grow_rows_from_bounds(
        room,
        mask,
        image,
        size,
        tiling.rect(tile),
        conn,
        bounds.get(tile),
    );
    bounds.set(tile, Bounds::none());
    tell(image, work, bounds, mask, tiling, tile, conn, area, told);
}

// Tells the hints of the tile's open edges, which begin within the bounds `area`, and hands them over, tile by tile.
fn tell(
    image: &mut [u16],
    work: &mut WorkTable,
    bounds: &mut OpenBounds,
    mask: &[u16],
    tiling: &Tiling,
    tile: usize,
    conn: Conn,
    area: Bounds,
    told: &mut Inbox,
)
    requires tile { HaveWorkAt tiling.now image.old work.old tile }
    requires mask { IsFilled (image_on tiling.now mask.now) }
    requires area { EdgesBeginIn (sender_on tiling.now conn mask.now image.old tile work.old) area }
    requires lie { LieIn area (rect_of tiling.now tile) }
    requires bounds { length bounds.old ≡ count_of tiling.now }
    requires enough { room_for_edges tiling.now ≤ places told.old }
    ensures hints { AreTold tiling.now (open_edges (sender_on tiling.now conn mask.now image.old tile work.old))
        (both_on tiling.now image.old work.old) (both_on tiling.now image.new work.new) }
    ensures bounds { BoundsFollow tiling.now image.old image.new bounds.old bounds.new }
    ensures enough { places told.old ≤ places told.new }
{
    edges_are_open();
    neighbours_lie_in_touching_tiles();
    each_pixel_in_one_tile();
    told.clear();
    let generation = work.generation(tile);
    let (w, h) = (tiling.width(), tiling.height());
    let (before, limits) = (View::over(w, h, image), View::over(w, h, mask));
    // There is room for all of them, so it does not fail.
    let _ = open_edges_in(&before, &limits, tiling, tile, generation, conn, area, told);
    if told.is_empty() {
        return;
    }
    let touching = tiling.touching(tile);
    hand_over_all(
        image,
        work,
        bounds,
        tiling,
        touching.as_slice(),
        told.as_slice(),
    );
}

// Hands over a hint, if its pixel lies in the tile, whose rectangle is `rect`.
fn hand_over(
    image: &mut [u16],
    work: &mut WorkTable,
    bounds: &mut OpenBounds,
    tiling: &Tiling,
    tile: usize,
    rect: Rect,
    hint: Hint,
)
    requires tile { HaveWorkAt tiling.now image.old work.old tile }
    requires rect { IsInRect rect hint.to_pixel ↔ (tile_of tiling.now hint.to_pixel ≡ tile) }
    requires inside { IsToInside tiling.now hint }
    requires bounds { length bounds.old ≡ count_of tiling.now }
    ensures handed { IsHandOver tiling.now (hints_in tiling.now (hint ∷ []) tile)
        image.old work.old image.new work.new }
    ensures bounds { BoundsFollow tiling.now image.old image.new bounds.old bounds.new }
{
    if !rect.contains(hint.to_pixel) {
        return;
    }
    let cell = cell_of(tiling, hint.to_pixel);
    if image[cell] < hint.value {
        image[cell] = hint.value;
        work.mark_dirty(tile);
        bounds.widen(tile, Bounds::none().including(hint.to_pixel));
    }
}

// Where the value of a pixel stands among the cells.
fn cell_of(tiling: &Tiling, p: Pixel) -> usize
    requires { IsInside tiling.now.width tiling.now.height p }
    ensures value { result ≡ index_of tiling.now.width p }
    ensures within { result < tiling.now.width * tiling.now.height }
{
    p.y as usize * tiling.width() as usize + p.x as usize
}

// Bounds within which lie the pixels of the hints.
fn bounds_around(tiling: &Tiling, hints: &[Hint]) -> Bounds
    requires { AreToInside tiling.now hints.now }
    ensures { LieWithin result hints.now }
{
    // The side tells the prover that the tiling is one.
    let _ = tiling.side();
    let mut near = Bounds::none();
    for hint in hints {
        near = near.including(hint.to_pixel);
    }
    near
}

// Hands over the hints for the pixels of a tile, in their order. All of them lie within `near`; where these bounds do
// not meet the tile, the hints are not looked at.
fn hand_over_in(
    image: &mut [u16],
    work: &mut WorkTable,
    bounds: &mut OpenBounds,
    tiling: &Tiling,
    tile: usize,
    hints: &[Hint],
    near: Bounds,
)
    requires tile { HaveWorkAt tiling.now image.old work.old tile }
    requires inside { AreToInside tiling.now hints.now }
    requires near { LieWithin near hints.now }
    requires bounds { length bounds.old ≡ count_of tiling.now }
    ensures handed { IsHandOver tiling.now (hints_in tiling.now hints.now tile) image.old work.old image.new work.new }
    ensures bounds { BoundsFollow tiling.now image.old image.new bounds.old bounds.new }
{
    each_pixel_in_one_tile();
    let rect = tiling.rect(tile);
    if Bounds::of(rect).intersection(near).is_empty() {
        return;
    }
    for hint in hints {
        hand_over(image, work, bounds, tiling, tile, rect, *hint);
    }
}

// Hands over the hints for the pixels of these tiles, tile by tile.
fn hand_over_all(
    image: &mut [u16],
    work: &mut WorkTable,
    bounds: &mut OpenBounds,
    tiling: &Tiling,
    tiles: &[usize],
    hints: &[Hint],
)
    requires parts { AreOfTiles tiling.now image.old work.old }
    requires tiles { (tile : _) → Contains tiles.now tile → tile < length work.old }
    requires inside { AreToInside tiling.now hints.now }
    requires bounds { length bounds.old ≡ count_of tiling.now }
    ensures handed { IsHandOver tiling.now (flat_map (hints_in tiling.now hints.now) tiles.now)
        image.old work.old image.new work.new }
    ensures bounds { BoundsFollow tiling.now image.old image.new bounds.old bounds.new }
{
    let near = bounds_around(tiling, hints);
    for tile in tiles {
        hand_over_in(image, work, bounds, tiling, *tile, hints, near);
    }
}
