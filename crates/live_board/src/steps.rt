//! The steps of seats: each is one operation on one word.

ghost use Rattle.std.specs.Prelude.{◌+◌, ◌<◌, ℕ, ◌≡◌, ◌≤◌};
ghost use Rattle.grid_core.specs.Raster.{value_at};
ghost use Rattle.live_board.specs.Seats.{ground_of, table_of};
ghost use Rattle.live_board.specs.Steps.{IsBare, IsHighest, MayLift};
ghost use Rattle.live_board.specs.Words.{IsOn, begun, fact_of, max_generation, place_of, taught, with_fact};

use crate::board::Board;
use crate::fact::LEVELS;
use crate::rule::{Advance, At, Brings, Learn, Lift, Read, Rise, SeatView};
use atomic_table::Seat;
use grid_core::{Grid, Pixel};

// Makes the word of a pixel at least the number, and returns it as it was.
pub(crate) fn lift<J: At>(
    board: &Board,
    seat: &mut Seat<u8, SeatView>,
    pixel: Pixel,
    asked: u64,
) -> u64
    requires at { J.pixel ≡ pixel }
    requires seat { IsBare (table_of board.now) seat.old }
    requires pixel { IsOn (ground_of board.now) pixel }
    requires asked { MayLift (ground_of board.now) seat.old.id seat.old.me.0 pixel asked }
    ensures seat { IsBare (table_of board.now) seat.new }
    ensures id { seat.new.id ≡ seat.old.id }
    ensures view { seat.new.me.0
        ≡ with_fact seat.old.me.0 (place_of (ground_of board.now) pixel) result (fact_of pixel asked) }
{
    let word = board.place(pixel);
    board.table.shared.fetch_max::<Lift<J>>(seat, word, asked)
}

// Loads the word of a pixel.
pub(crate) fn load<J: At>(board: &Board, seat: &mut Seat<u8, SeatView>, pixel: Pixel) -> u64
    requires at { J.pixel ≡ pixel }
    requires seat { IsBare (table_of board.now) seat.old }
    requires pixel { IsOn (ground_of board.now) pixel }
    ensures seat { IsBare (table_of board.now) seat.new }
    ensures id { seat.new.id ≡ seat.old.id }
    ensures view { seat.new.me.0
        ≡ with_fact seat.old.me.0 (place_of (ground_of board.now) pixel) result (fact_of pixel result) }
    ensures highest { IsHighest seat.old.me.0.facts pixel result }
{
    let word = board.place(pixel);
    board.table.shared.load::<Read<J>>(seat, word)
}

// Loads word 0, and returns the generation.
pub(crate) fn learn(board: &Board, seat: &mut Seat<u8, SeatView>) -> u64
    requires seat { IsBare (table_of board.now) seat.old }
    ensures seat { IsBare (table_of board.now) seat.new }
    ensures id { seat.new.id ≡ seat.old.id }
    ensures view { (found : ℕ) × (seat.new.me.0 ≡ taught seat.old.me.0 found) × (result ≡ seat.new.me.0.generation) }
    ensures bounded { result ≤ max_generation }
{
    board.table.shared.load::<Learn>(seat, 0) / LEVELS
}

// Begins the next generation, with this marker.
pub(crate) fn begin<J: Brings>(board: &Board, seat: &mut Seat<u8, SeatView>, marker: &Grid)
    requires brings { J.marker ≡ marker.now }
    requires seat { IsBare (table_of board.now) seat.old }
    requires keeper { seat.old.id ≡ 0 }
    requires room { seat.old.me.0.generation < max_generation }
    ensures seat { IsBare (table_of board.now) seat.new }
    ensures id { seat.new.id ≡ seat.old.id }
    ensures view { (found : ℕ)
        × (seat.new.me.0 ≡ begun seat.old.me.0 found (seat.old.me.0.generation + 1) marker.now) }
{
    // The proof of the call names the marker.
    let _ = marker;
    board.table.shared.fetch_add::<Advance<J>>(seat, 0, LEVELS);
}

// Brings a marker that is nowhere below the present one, in the same generation.
pub(crate) fn rise<J: Brings>(board: &Board, seat: &mut Seat<u8, SeatView>, marker: &Grid)
    requires brings { J.marker ≡ marker.now }
    requires seat { IsBare (table_of board.now) seat.old }
    requires keeper { seat.old.id ≡ 0 }
    requires above { (p : _) → IsOn (ground_of board.now) p
        → value_at seat.old.me.0.marker p ≤ value_at marker.now p }
    ensures seat { IsBare (table_of board.now) seat.new }
    ensures id { seat.new.id ≡ seat.old.id }
    ensures view { (found : ℕ) × (seat.new.me.0 ≡ begun seat.old.me.0 found seat.old.me.0.generation marker.now) }
{
    // The proof of the call names the marker.
    let _ = marker;
    board.table.shared.fetch_add::<Rise<J>>(seat, 0, 0);
}
