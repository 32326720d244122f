//! Rounds of a hand.

ghost use Rattle.std.specs.Prelude.{◌-◌, ◌<◌, ◌≡◌, ◌≤◌};
ghost use Rattle.live_board.specs.Rounds.{nth};

use crate::board::Board;
use crate::fact::{Fact, Seen};
use crate::hand::HandSeat;
use grid_core::Pixel;

impl HandSeat {
    ghost use Rattle.std.specs.Prelude.{◌*◌, ◌-◌, Contains, false, true, ◌≡◌, ◌≤◌};
    ghost use Rattle.grid_core.specs.Rows.{pixel_if, row_around};
    ghost use Rattle.live_board.specs.Rounds.{GoesOver, GoesThrough, IsRound, IsRoundOver, Raises, Spreads, Visits};
    ghost use Rattle.live_board.specs.Rounds.{in_row, nth};
    ghost use Rattle.live_board.specs.Seats.{IsBeside, IsFactOf, IsHandOf, ground_of, hand_view};
    ghost use Rattle.live_board.specs.Words.{IsOn, mask_of};
    ghost use Rattle.live_board.specs.declared.fact.Seen.TheVariants.{Value};

    /// A round: learns the generation, reads each pixel, row by row, and raises the neighbours of each that has a value
    /// of that generation. It answers how many of these raises found less than they left.
    pub fn round(&mut self, board: &Board) -> u64
        requires hand { IsHandOf board.now self.old }
        ensures hand { IsHandOf board.now self.new }
        ensures round { IsRound (ground_of board.now) result (hand_view self.old) (hand_view self.new) }
    {
        self.start(board);
        self.go_through(board, 0, board.height(), false)
    }

    /// The same from the last pixel to the first: each row from the right, from the last row up.
    pub fn round_back(&mut self, board: &Board) -> u64
        requires hand { IsHandOf board.now self.old }
        ensures hand { IsHandOf board.now self.new }
        ensures round { IsRoundOver (ground_of board.now) 0 (mask_of (ground_of board.now)).height true result
            (hand_view self.old) (hand_view self.new) }
    {
        self.start(board);
        self.go_through(board, 0, board.height(), true)
    }

    /// The same over the rows from `first` to before `end`, forth or `back`. Neighbours beyond them are raised, too.
    pub fn round_rows(&mut self, board: &Board, first: u32, end: u32, back: bool) -> u64
        requires hand { IsHandOf board.now self.old }
        requires rows { end ≤ (mask_of (ground_of board.now)).height }
        ensures hand { IsHandOf board.now self.new }
        ensures round { IsRoundOver (ground_of board.now) first end back result
            (hand_view self.old) (hand_view self.new) }
    {
        self.start(board);
        self.go_through(board, first, end, back)
    }

    // Visits the pixels of the rows from `first` to before `end`, forth or `back`. It answers how many raises rose.
    fn go_through(&mut self, board: &Board, first: u32, end: u32, back: bool) -> u64
        requires hand { IsHandOf board.now self.old }
        requires rows { end ≤ (mask_of (ground_of board.now)).height }
        ensures hand { IsHandOf board.now self.new }
        ensures goes { GoesThrough (ground_of board.now) (nth first end back) back (end - first) result
            (hand_view self.old) (hand_view self.new) }
    {
        // For its clause alone: there are no more rows than an image may have.
        let _ = board.height();
        let mut rose = 0;
        for row in 0..end.saturating_sub(first) {
            rose += self.go_along(board, nth(first, end, back, row), back);
        }
        rose
    }

    // Visits the pixels of a row, from the left or, `back`, from the right. It answers how many raises rose.
    fn go_along(&mut self, board: &Board, y: u32, back: bool) -> u64
        requires hand { IsHandOf board.now self.old }
        requires row { y < (mask_of (ground_of board.now)).height }
        ensures hand { IsHandOf board.now self.new }
        ensures goes { GoesOver (ground_of board.now) (in_row (ground_of board.now) y back)
            (mask_of (ground_of board.now)).width result (hand_view self.old) (hand_view self.new) }
        ensures few { result ≤ 147456 }
    {
        let width = board.width();
        let mut rose = 0;
        for column in 0..width {
            let x = nth(0, width, back, column);
            rose += self.visit(board, Pixel { x, y });
        }
        rose
    }

    // Reads a pixel, and raises its neighbours where it has a value. It answers how many rose.
    fn visit(&mut self, board: &Board, pixel: Pixel) -> u64
        requires hand { IsHandOf board.now self.old }
        requires pixel { IsOn (ground_of board.now) pixel }
        ensures hand { IsHandOf board.now self.new }
        ensures visits { Visits (ground_of board.now) pixel result (hand_view self.old) (hand_view self.new) }
        ensures few { result ≤ 9 }
    {
        match self.read(board, pixel) {
            Seen::Value(from) => self.spread(board, from),
            Seen::Older | Seen::Newer => 0,
        }
    }

    // Raises each neighbour of a fact's pixel. It answers how many rose.
    pub(crate) fn spread(&mut self, board: &Board, from: Fact) -> u64
        requires hand { IsHandOf board.now self.old }
        requires fact { IsFactOf (hand_view self.old) from }
        requires pixel { IsOn (ground_of board.now) from.pixel }
        ensures hand { IsHandOf board.now self.new }
        ensures spreads { Spreads (ground_of board.now) (Value from) result
            (hand_view self.old) (hand_view self.new) }
        ensures few { result ≤ 9 }
    {
        let y = from.pixel.y;
        let aslant = board.has_diagonals();
        let has_above = y > 0;
        let has_below = y + 1 < board.height();
        let above = self.raise_row(
            board,
            from,
            y.saturating_sub(1),
            aslant & has_above,
            has_above,
        );
        let own = self.raise_row(board, from, y, true, false);
        let below = self.raise_row(board, from, y + 1, aslant & has_below, has_below);
        above + own + below
    }

    // Raises the pixels of a row beside the fact's column if `sides`, and the one in it if `middle`, all of them beside
    // the fact's pixel. It answers how many rose.
    fn raise_row(&mut self, board: &Board, from: Fact, y: u32, sides: bool, middle: bool) -> u64
        requires hand { IsHandOf board.now self.old }
        requires fact { IsFactOf (hand_view self.old) from }
        requires pixel { IsOn (ground_of board.now) from.pixel }
        requires beside { (q : _)
            → Contains (row_around (mask_of (ground_of board.now)).width from.pixel.x y sides middle) q
            → IsBeside (ground_of board.now) from.pixel q }
        ensures hand { IsHandOf board.now self.new }
        ensures fact { IsFactOf (hand_view self.new) from }
        ensures raises { Raises (ground_of board.now) from
            (row_around (mask_of (ground_of board.now)).width from.pixel.x y sides middle) result
            (hand_view self.old) (hand_view self.new) }
        ensures few { result ≤ 3 }
    {
        let x = from.pixel.x;
        let has_left = x > 0;
        let has_right = x + 1 < board.width();
        let left = self.raise_if(board, from, sides & has_left, x.saturating_sub(1), y);
        let here = self.raise_if(board, from, middle, x, y);
        let right = self.raise_if(board, from, sides & has_right, x + 1, y);
        left + here + right
    }

    // Raises the pixel in this place, which lies beside the fact's, if there is one. It answers how many rose.
    fn raise_if(&mut self, board: &Board, from: Fact, is_there: bool, x: u32, y: u32) -> u64
        requires hand { IsHandOf board.now self.old }
        requires fact { IsFactOf (hand_view self.old) from }
        requires beside { (q : _) → Contains (pixel_if is_there x y) q
            → IsBeside (ground_of board.now) from.pixel q }
        ensures hand { IsHandOf board.now self.new }
        ensures fact { IsFactOf (hand_view self.new) from }
        ensures raises { Raises (ground_of board.now) from (pixel_if is_there x y) result
            (hand_view self.old) (hand_view self.new) }
        ensures few { result ≤ 1 }
    {
        if !is_there {
            return 0;
        }
        if self.raise(board, &from, Pixel { x, y }) {
            1
        } else {
            0
        }
    }
}

// The number that comes after `n` others, of those from `first` to before `end`, upwards or `back`.
fn nth(first: u32, end: u32, back: bool, n: u32) -> u32
    requires { n < end - first }
    ensures value { result ≡ nth first end back n }
    ensures within { result < end }
{
    if back { end - 1 - n } else { first + n }
}
