//! How a hand follows what it raises.

use crate::board::Board;
use crate::draft::Draft;
use crate::fact::{Fact, Seen};
use crate::flood::Reach;
use crate::hand::HandSeat;
use crate::trail::Trail;
use grid_core::Pixel;

// How many facts are spread at most, one after another.
const MOST: u64 = 20_000;

impl HandSeat {
    ghost use Rattle.std.specs.Prelude.{◌*◌, ◌<◌, All, Contains, ◌≤◌};
    ghost use Rattle.grid_core.specs.Rows.{pixel_if, row_around};
    ghost use Rattle.live_board.specs.Following.{GrowsOn, HasTrailed, IsGrowing, IsReadIn, IsTrailOf, Trails};
    ghost use Rattle.live_board.specs.Floods.{HasGrownFrom, IsDraftOf};
    ghost use Rattle.live_board.specs.Seats.{IsBeside, IsFactOf, IsHandOf, ground_of, hand_view};
    ghost use Rattle.live_board.specs.Words.{IsOn, mask_of};

    // Raises the pixel in this place, which lies beside the fact's, if there is one, and leaves it in the trail if it
    // rose. It answers how many did.
    fn trail_if(
        &mut self,
        board: &Board,
        from: Fact,
        is_there: bool,
        x: u32,
        y: u32,
        trail: &mut Trail,
    ) -> u64
        requires hand { IsHandOf board.now self.old }
        requires fact { IsFactOf (hand_view self.old) from }
        requires trail { IsTrailOf (ground_of board.now) (hand_view self.old) trail.old }
        requires beside { (q : _) → Contains (pixel_if is_there x y) q
            → IsBeside (ground_of board.now) from.pixel q }
        ensures hand { IsHandOf board.now self.new }
        ensures fact { IsFactOf (hand_view self.new) from }
        ensures trail { IsTrailOf (ground_of board.now) (hand_view self.new) trail.new }
        ensures trails { Trails (ground_of board.now) from (pixel_if is_there x y) result
            (hand_view self.old) (hand_view self.new) trail.old trail.new }
        ensures few { result ≤ 1 }
    {
        // For its clause alone: there are no more rows than an image may have.
        let _ = board.height();
        if !is_there {
            return 0;
        }
        let pixel = Pixel { x, y };
        if !self.raise(board, &from, pixel) {
            return 0;
        }
        let value = from.value.min(board.mask_at(pixel));
        trail.note(Fact {
            pixel,
            generation: from.generation,
            value,
        });
        1
    }

    // The same with the pixels of a row beside the fact's column if `sides`, and the one in it if `middle`, all of them
    // beside the fact's pixel.
    pub(crate) fn trail_row(
        &mut self,
        board: &Board,
        from: Fact,
        y: u32,
        sides: bool,
        middle: bool,
        trail: &mut Trail,
    ) -> u64
        requires hand { IsHandOf board.now self.old }
        requires fact { IsFactOf (hand_view self.old) from }
        requires pixel { IsOn (ground_of board.now) from.pixel }
        requires trail { IsTrailOf (ground_of board.now) (hand_view self.old) trail.old }
        requires beside { (q : _)
            → Contains (row_around (mask_of (ground_of board.now)).width from.pixel.x y sides middle) q
            → IsBeside (ground_of board.now) from.pixel q }
        ensures hand { IsHandOf board.now self.new }
        ensures fact { IsFactOf (hand_view self.new) from }
        ensures trail { IsTrailOf (ground_of board.now) (hand_view self.new) trail.new }
        ensures trails { Trails (ground_of board.now) from
            (row_around (mask_of (ground_of board.now)).width from.pixel.x y sides middle) result
            (hand_view self.old) (hand_view self.new) trail.old trail.new }
        ensures few { result ≤ 3 }
    {
        let x = from.pixel.x;
        let has_left = x > 0;
        let has_right = x + 1 < board.width();
        let left = self.trail_if(board, from, sides & has_left, x.saturating_sub(1), y, trail);
        let here = self.trail_if(board, from, middle, x, y, trail);
        let right = self.trail_if(board, from, sides & has_right, x + 1, y, trail);
        left + here + right
    }

    // The same with each neighbour of the fact's pixel.
    fn trail_all(&mut self, board: &Board, from: Fact, trail: &mut Trail) -> u64
        requires hand { IsHandOf board.now self.old }
        requires fact { IsFactOf (hand_view self.old) from }
        requires pixel { IsOn (ground_of board.now) from.pixel }
        requires trail { IsTrailOf (ground_of board.now) (hand_view self.old) trail.old }
        ensures hand { IsHandOf board.now self.new }
        ensures trail { IsTrailOf (ground_of board.now) (hand_view self.new) trail.new }
        ensures trails { HasTrailed (ground_of board.now) from result
            (hand_view self.old) (hand_view self.new) trail.old trail.new }
        ensures few { result ≤ 9 }
    {
        let y = from.pixel.y;
        let aslant = board.has_diagonals();
        let has_above = y > 0;
        let has_below = y + 1 < board.height();
        let above = self.trail_row(
            board,
            from,
            y.saturating_sub(1),
            aslant & has_above,
            has_above,
            trail,
        );
        let own = self.trail_row(board, from, y, true, false, trail);
        let below = self.trail_row(board, from, y + 1, aslant & has_below, has_below, trail);
        above + own + below
    }

    // Spreads what waits, and what rises by it, the last first, until nothing waits or it has done so many. It answers
    // how many rose.
    pub(crate) fn serve(&mut self, board: &Board, trail: &mut Trail) -> u64
        requires hand { IsHandOf board.now self.old }
        requires trail { IsTrailOf (ground_of board.now) (hand_view self.old) trail.old }
        ensures hand { IsHandOf board.now self.new }
        ensures trail { IsTrailOf (ground_of board.now) (hand_view self.new) trail.new }
        ensures grows { GrowsOn (ground_of board.now) result
            (hand_view self.old) (hand_view self.new) trail.old trail.new }
        ensures few { result ≤ 9 * 20000 }
    {
        let mut rose = 0;
        for turn in 0..MOST {
            match trail.next() {
                Some(fact) => rose += self.trail_all(board, fact, trail),
                None => break,
            }
        }
        rose
    }

    /// Grows from pixels: learns the generation, reads each of them, and raises the neighbours of each that has a value
    /// of it, then those of each that rose, the last first, and so on, as far as there is room and not for too long. It
    /// answers how many of these raises found less than they left, and the rows of what has not spread: none where all
    /// has, from which no hand needs to go on then.
    pub fn grow_from(&mut self, board: &Board, pixels: &[Pixel], draft: &mut Draft) -> Reach
        requires hand { IsHandOf board.now self.old }
        requires draft { IsDraftOf board.now draft.old }
        requires pixels { All (IsOn (ground_of board.now)) pixels.now }
        ensures hand { IsHandOf board.now self.new }
        ensures draft { IsDraftOf board.now draft.new }
        ensures grown { HasGrownFrom (ground_of board.now) pixels.now result
            (hand_view self.old) (hand_view self.new) }
    {
        self.start(board);
        draft.trail.clear();
        self.read_all(board, pixels, &mut draft.trail);
        let rose = self.serve(board, &mut draft.trail);
        draft.trail.name_all(board.height());
        Reach {
            rose,
            first: draft.trail.first,
            end: draft.trail.end,
        }
    }

    // Reads pixels, and lets what they have wait.
    fn read_all(&mut self, board: &Board, pixels: &[Pixel], trail: &mut Trail)
        requires hand { IsHandOf board.now self.old }
        requires pixels { All (IsOn (ground_of board.now)) pixels.now }
        requires trail { IsTrailOf (ground_of board.now) (hand_view self.old) trail.old }
        ensures hand { IsHandOf board.now self.new }
        ensures trail { IsTrailOf (ground_of board.now) (hand_view self.new) trail.new }
        ensures growing { IsGrowing (ground_of board.now) pixels.now 0
            (hand_view self.old) (hand_view self.new) trail.new }
    {
        for place in 0..pixels.len() {
            self.read_in(board, pixels[place], trail);
        }
    }

    // Reads a pixel, and lets what it has wait.
    fn read_in(&mut self, board: &Board, pixel: Pixel, trail: &mut Trail)
        requires hand { IsHandOf board.now self.old }
        requires pixel { IsOn (ground_of board.now) pixel }
        requires trail { IsTrailOf (ground_of board.now) (hand_view self.old) trail.old }
        ensures hand { IsHandOf board.now self.new }
        ensures trail { IsTrailOf (ground_of board.now) (hand_view self.new) trail.new }
        ensures read { IsReadIn (ground_of board.now) pixel
            (hand_view self.old) (hand_view self.new) trail.old trail.new }
    {
        // For its clause alone: there are no more rows than an image may have.
        let _ = board.height();
        match self.read(board, pixel) {
            Seen::Value(fact) => trail.note(fact),
            Seen::Older => {}
            Seen::Newer => {}
        }
    }
}
