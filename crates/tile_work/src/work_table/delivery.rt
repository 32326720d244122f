//! Hints that are put into the inboxes of their tiles.

ghost use Rattle.std.specs.Prelude.{◌≡◌, ◌<◌, ◌≤◌, length, slice_index, All, OnOk};
ghost use Rattle.grid_core.specs.Tiles.{count_of};
ghost use Rattle.tile_work.specs.Beside.{AreCounted, IsBeside};
ghost use Rattle.tile_work.specs.WorkTable.{works_of, rooms_of, waiting_bits, IsToTouching};
ghost use Rattle.tile_work.specs.WorkTable.{AreReceived, HaveRoomFor, HaveRooms, IsDelivered};

use super::beside::{PLACES, TilesBeside};
use super::row::TileRow;
use crate::tile_set::TileSet;
use border_queues::Hint;
use grid_core::Memory;

/// How many hints come to each of the tiles at and around one.
#[derive(Clone, Copy, Debug)]
pub(super) struct Coming {
    // The tile at a place, once a hint comes to it.
    pub(crate) tiles: [usize; PLACES],
    pub(crate) counts: [usize; PLACES],
}

/// Counts the hints that come to each of the tiles at and around one.
pub(super) fn count_hints(beside: &TilesBeside, hints: &[Hint]) -> Coming
    requires beside { IsBeside beside.now }
    requires touching { All (IsToTouching beside.now.tiling beside.now.tile) hints.now }
    ensures { AreCounted beside.now.tiling hints.now result }
{
    let mut tiles = [beside.tile; PLACES];
    let mut counts = [0; PLACES];
    for hint in hints {
        let place = beside.place_of(hint.to_pixel);
        tiles[place] = beside.tile_of(hint.to_pixel);
        counts[place] += 1;
    }
    Coming { tiles, counts }
}

/// Makes room for so many more hints at each of these tiles.
///
/// Errors: out of memory.
pub(super) fn make_room(
    rows: &mut [TileRow],
    tiles: &[usize],
    counts: &[usize],
) -> Result<(), Memory>
    requires few { length tiles.now ≤ length counts.now }
    requires tiles { All (λ t. t < length rows.old) tiles.now }
    ensures works { works_of rows.new ≡ works_of rows.old }
    ensures room { OnOk result (HaveRooms tiles.now counts.now rows.new) }
{
    for (place, tile) in tiles.iter().enumerate() {
        let count = counts[place];
        if rows[*tile].inbox.reserve(count, count).is_err() {
            return Err(Memory);
        }
    }
    Ok(())
}

/// Puts each hint into the inbox of its tile, where there is room for all of them.
pub(super) fn deliver(
    rows: &mut [TileRow],
    waiting: &mut TileSet,
    beside: &TilesBeside,
    hints: &[Hint],
)
    requires tiles { length rows.old ≡ count_of beside.now.tiling }
    requires beside { IsBeside beside.now }
    requires touching { All (IsToTouching beside.now.tiling beside.now.tile) hints.now }
    requires room { HaveRoomFor beside.now.tiling hints.now rows.old }
    requires waiting { waiting.old ≡ waiting_bits (works_of rows.old) }
    ensures works { AreReceived beside.now.tiling hints.now (works_of rows.old) (works_of rows.new) }
    ensures waiting { waiting.new ≡ waiting_bits (works_of rows.new) }
{
    for hint in hints {
        deliver_one(rows, waiting, beside.tile_of(hint.to_pixel), *hint);
    }
}

// Puts a hint into the inbox of its tile, where there is room for it.
fn deliver_one(rows: &mut [TileRow], waiting: &mut TileSet, tile: usize, hint: Hint)
    requires tile { tile < length rows.old }
    requires room { 0 < slice_index (rooms_of rows.old) tile }
    requires waiting { waiting.old ≡ waiting_bits (works_of rows.old) }
    ensures { IsDelivered tile hint rows.old rows.new waiting.new }
{
    rows[tile].push_hint(hint);
    if !waiting.contains(tile) {
        waiting.insert(tile);
    }
}
