//! The steps of hands on the words of cells. The cell of a pixel is its place in raster order.

ghost use Rattle.std.specs.Prelude.{◌≡◌};
ghost use Rattle.grid_core.specs.Raster.{index_of};
ghost use Rattle.live_board.specs.Seats.{ground_of, table_of};
ghost use Rattle.live_board.specs.Steps.{IsBare, MayLift};
ghost use Rattle.live_board.specs.Words.{IsOn, fact_of, mask_of, place_of, with_fact};

use crate::board::Board;
use crate::rule::{At, Lift, Read, SeatView};
use atomic_table::Seat;

// Makes the word of the picked pixel, which has this cell, at least the number, and returns it as it was.
pub(crate) fn lift_cell<J: At>(
    board: &Board,
    seat: &mut Seat<u8, SeatView>,
    cell: usize,
    asked: u64,
) -> u64
    requires cell { index_of (mask_of (ground_of board.now)).width J.pixel ≡ cell }
    requires seat { IsBare (table_of board.now) seat.old }
    requires pixel { IsOn (ground_of board.now) J.pixel }
    requires asked { MayLift (ground_of board.now) seat.old.id seat.old.me.0 J.pixel asked }
    ensures seat { IsBare (table_of board.now) seat.new }
    ensures id { seat.new.id ≡ seat.old.id }
    ensures view { seat.new.me.0
        ≡ with_fact seat.old.me.0 (place_of (ground_of board.now) J.pixel) result (fact_of J.pixel asked) }
{
    board
        .table
        .shared
        .fetch_max::<Lift<J>>(seat, cell + 1, asked)
}

// Loads the word of the picked pixel, which has this cell.
pub(crate) fn load_cell<J: At>(board: &Board, seat: &mut Seat<u8, SeatView>, cell: usize) -> u64
    requires cell { index_of (mask_of (ground_of board.now)).width J.pixel ≡ cell }
    requires seat { IsBare (table_of board.now) seat.old }
    requires pixel { IsOn (ground_of board.now) J.pixel }
    ensures seat { IsBare (table_of board.now) seat.new }
    ensures id { seat.new.id ≡ seat.old.id }
    ensures view { seat.new.me.0
        ≡ with_fact seat.old.me.0 (place_of (ground_of board.now) J.pixel) result (fact_of J.pixel result) }
{
    board.table.shared.load::<Read<J>>(seat, cell + 1)
}
