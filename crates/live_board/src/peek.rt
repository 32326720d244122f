//! A peek's seat.

ghost use Rattle.std.specs.Prelude.{[], ◌≡◌};

use crate::board::Board;
use crate::fact::Peek;
use crate::rule::SeatView;
use crate::steps::{learn, load};
use atomic_table::Seat;
use grid_core::Pixel;
use std::marker::Brand;

/// The seat of who looks at single pixels, from any thread.
#[derive(Drop)]
pub struct PeekSeat {
    pub(crate) seat: Seat<u8, SeatView>,
    ghost bare: { seat.me.1 ≡ [] },
}

impl PeekSeat {
    ghost use Rattle.std.specs.Prelude.{[], ◌≡◌};
    ghost use Rattle.live_board.specs.Seats.{HasPeeked, IsPeekOf, ground_of, peek_view};
    ghost use Rattle.live_board.specs.Words.{IsOn};

    /// Loads the pixel, and then the generation. The value is live where the two are of one generation: at the second
    /// load the pixel reached it from the keeper's marker.
    pub fn peek(&mut self, board: &Board, pixel: Pixel) -> Peek
        requires peek { IsPeekOf board.now self.old }
        requires pixel { IsOn (ground_of board.now) pixel }
        ensures peek { IsPeekOf board.now self.new }
        ensures peeked { HasPeeked (ground_of board.now) pixel result (peek_view self.old) (peek_view self.new) }
    {
        let word = load::<Brand>(board, &mut self.seat, pixel);
        let generation = learn(board, &mut self.seat);
        Peek::of(pixel, word, generation)
    }
}
