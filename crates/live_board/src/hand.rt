//! A hand's seat.

ghost use Rattle.std.specs.Prelude.{[], ◌≡◌, ◌≤◌};
ghost use Rattle.live_board.specs.Words.{max_generation};

use crate::board::Board;
use crate::fact::{Fact, LEVELS, Seen};
use crate::rule::SeatView;
use crate::steps::{learn, lift, load};
use atomic_table::Seat;
use grid_core::Pixel;
use std::marker::Brand;

/// The seat of a hand, which spreads values from pixel to pixel. It mostly goes to a thread of its own.
#[derive(Drop)]
pub struct HandSeat {
    pub(crate) seat: Seat<u8, SeatView>,
    pub(crate) generation: u64,
    ghost same: { seat.me.0.generation ≡ generation },
    ghost bare: { seat.me.1 ≡ [] },
    ghost bound: { generation ≤ max_generation },
}

impl HandSeat {
    ghost use Rattle.std.specs.Prelude.{[], ◌≡◌, ◌≤◌};
    ghost use Rattle.live_board.specs.Seats.{HasRaised, HasRead, HasStarted, IsBeside, IsFactOf, IsHandOf, ground_of};
    ghost use Rattle.live_board.specs.Seats.{hand_view};
    ghost use Rattle.live_board.specs.Words.{IsOn, max_generation};

    /// Learns the generation.
    pub fn start(&mut self, board: &Board)
        requires hand { IsHandOf board.now self.old }
        ensures hand { IsHandOf board.now self.new }
        ensures started { HasStarted (hand_view self.old) (hand_view self.new) }
    {
        self.generation = learn(board, &mut self.seat);
    }

    /// Reads a pixel.
    pub fn read(&mut self, board: &Board, pixel: Pixel) -> Seen
        requires hand { IsHandOf board.now self.old }
        requires pixel { IsOn (ground_of board.now) pixel }
        ensures hand { IsHandOf board.now self.new }
        ensures read { HasRead (ground_of board.now) pixel result (hand_view self.old) (hand_view self.new) }
    {
        let word = load::<Brand>(board, &mut self.seat, pixel);
        Seen::of(pixel, word, self.generation)
    }

    /// Raises a neighbour of a fact's pixel to the fact's value, as far as the mask lets it, and says whether it rose.
    /// The fact is one that this hand read or left in its present generation.
    pub fn raise(&mut self, board: &Board, from: &Fact, pixel: Pixel) -> bool
        requires hand { IsHandOf board.now self.old }
        requires fact { IsFactOf (hand_view self.old) from.now }
        requires pixel { IsBeside (ground_of board.now) from.now.pixel pixel }
        ensures hand { IsHandOf board.now self.new }
        ensures raised { HasRaised (ground_of board.now) from.now pixel result
            (hand_view self.old) (hand_view self.new) }
    {
        let value = from.value.min(board.mask_at(pixel));
        let asked = from.generation * LEVELS + u64::from(value);
        lift::<Brand>(board, &mut self.seat, pixel, asked) < asked
    }
}
