//! Floods of a hand.

ghost use Rattle.std.specs.Prelude.{◌+◌, ◌<◌, ◌≡◌, ◌≤◌};
ghost use Rattle.live_board.specs.{Flooding.IsReachOf, Words.max_board};

use crate::board::Board;
use crate::cells::{lift_cell, load_cell};
use crate::closing::value_in;
use crate::draft::Draft;
use crate::fact::{Fact, LEVELS};
use crate::hand::HandSeat;
use grid_core::laws::cells_given_back;
use grid_core::{Grid, Pixel, Rect};
use raster_sweeps::grow_within;
use std::marker::Brand;

/// What a flood came to.
#[derive(Clone, Copy, Debug, PartialEq, Eq)]
pub struct Reach {
    /// How many raises found less than they left.
    pub rose: u64,
    /// The first of the rows beyond which all that was raised has spread.
    pub first: u32,
    /// The row after the last of them.
    pub end: u32,
}

impl HandSeat {
    ghost use Rattle.std.specs.Prelude.{◌<◌, length, ◌≡◌, ◌≤◌};
    ghost use Rattle.grid_core.specs.Raster.{IsBelow, IsFilled};
    ghost use Rattle.live_board.specs.Flooding.{AreFounded, AreLow, HasGivenOut, HasLevel, HasLifted, HasPassedOn};
    ghost use Rattle.live_board.specs.Flooding.{HasTakenIn, IsFounded, IsRowKnown};
    ghost use Rattle.live_board.specs.Floods.{HasFlooded, HasFollowed, IsDraftOf};
    ghost use Rattle.live_board.specs.Rounds.{pixel_after};
    ghost use Rattle.live_board.specs.Seats.{IsHandOf, ground_of, hand_view};
    ghost use Rattle.live_board.specs.Words.{mask_of, max_board, size_of};

    /// Floods the rows from `first` to before `end`: learns the generation, reads their pixels, grows in the draft what
    /// these have of that generation, raises each pixel of the rows to what it has grown to there, and then the pixels
    /// beside the rows by them. It answers how many of these raises found less than they left.
    ///
    /// So what it read or left in the rows has spread to each neighbour, whoever else raised them in the meantime.
    /// Where hands have flooded all rows, and nobody has raised a pixel since its row was flooded, no pixel can raise
    /// another ([`flooded_is_grown`](crate::flooded_is_grown)).
    pub fn flood(&mut self, board: &Board, first: u32, end: u32, draft: &mut Draft) -> u64
        requires hand { IsHandOf board.now self.old }
        requires draft { IsDraftOf board.now draft.old }
        requires rows { (first < end) × (end ≤ (mask_of (ground_of board.now)).height) }
        ensures hand { IsHandOf board.now self.new }
        ensures draft { IsDraftOf board.now draft.new }
        ensures flooded { HasFlooded (ground_of board.now) first end result
            (hand_view self.old) (hand_view self.new) }
    {
        self.flood_on(board, first, end, draft).rose
    }

    /// The same, and it answers beyond which rows nothing is left to do: a pixel that it raised there has spread, too.
    /// These are the rows themselves, and more only where a pixel rose beyond them.
    ///
    /// So who floods those of its rows that were not flooded here, and goes on so until none is named, leaves nothing
    /// that this hand raised to be spread by others.
    pub fn flood_on(&mut self, board: &Board, first: u32, end: u32, draft: &mut Draft) -> Reach
        requires hand { IsHandOf board.now self.old }
        requires draft { IsDraftOf board.now draft.old }
        requires rows { (first < end) × (end ≤ (mask_of (ground_of board.now)).height) }
        ensures hand { IsHandOf board.now self.new }
        ensures draft { IsDraftOf board.now draft.new }
        ensures followed { HasFollowed (ground_of board.now) first end result
            (hand_view self.old) (hand_view self.new) }
    {
        self.start(board);
        let width = board.width();
        let (from, to) = (
            width as usize * first as usize,
            width as usize * end as usize,
        );
        self.draw(board, from, to, &mut draft.image);
        let rect = Rect {
            x: 0,
            y: first,
            w: width,
            h: end - first,
        };
        let mask = board.base.mask.grid();
        grow_within(
            &mut draft.room,
            mask,
            &mut draft.image,
            rect,
            board.base.conn,
        );
        let rose = self.give_out(board, from, to, draft.image.cells());
        let above = self.pass_on(board, first, &draft.image);
        let below = self.pass_on(board, end - 1, &draft.image);
        told(first, end, board.height(), (rose, above, below))
    }

    // Reads the cells from `from` to before `to` into the image.
    pub(crate) fn draw(&mut self, board: &Board, from: usize, to: usize, image: &mut Grid)
        requires hand { IsHandOf board.now self.old }
        requires image { IsBelow image.old (mask_of (ground_of board.now)) }
        requires cells { (from ≤ to) × (to ≤ size_of (ground_of board.now)) }
        ensures hand { IsHandOf board.now self.new }
        ensures image { IsBelow image.new (mask_of (ground_of board.now)) }
        ensures filled { IsFilled image.new }
        ensures taken { HasTakenIn (ground_of board.now) from to image.new.cells
            (hand_view self.old) (hand_view self.new) }
    {
        // For its clause alone: the mask has a value for each pixel.
        let _ = board.width();
        cells_given_back();
        self.take_in(board, from, to, image.cells_mut());
    }

    // Reads the cells from `from` to before `to`, as far as the mask lets them.
    fn take_in(&mut self, board: &Board, from: usize, to: usize, cells: &mut [u16])
        requires hand { IsHandOf board.now self.old }
        requires low { AreLow (ground_of board.now) cells.old }
        requires cells { (from ≤ to) × (to ≤ size_of (ground_of board.now)) }
        ensures hand { IsHandOf board.now self.new }
        ensures low { AreLow (ground_of board.now) cells.new }
        ensures taken { HasTakenIn (ground_of board.now) from to cells.new
            (hand_view self.old) (hand_view self.new) }
    {
        let mask = board.base.mask.samples();
        for cell in from..to {
            let level = self.level(board, cell);
            cells[cell] = level.min(mask[cell]);
        }
    }

    // Reads the pixel of a cell: its value in the hand's generation, or 0 where it has none.
    pub(crate) fn level(&mut self, board: &Board, cell: usize) -> u16
        requires hand { IsHandOf board.now self.old }
        requires cell { cell < size_of (ground_of board.now) }
        ensures hand { IsHandOf board.now self.new }
        ensures level { HasLevel (ground_of board.now) (pixel_after (ground_of board.now) cell) result
            (hand_view self.old) (hand_view self.new) }
    {
        // For its clause alone: the mask has a value for each cell.
        let _ = board.width();
        let word = load_cell::<Brand>(board, &mut self.seat, cell);
        value_in(word, self.generation)
    }

    // Raises the pixels of the cells from `from` to before `to` to what these have. It answers how many rose.
    pub(crate) fn give_out(&mut self, board: &Board, from: usize, to: usize, cells: &[u16]) -> u64
        requires hand { IsHandOf board.now self.old }
        requires cells { (from ≤ to) × (to ≤ length cells.now) }
        requires long { length cells.now ≡ size_of (ground_of board.now) }
        requires founded { AreFounded (ground_of board.now) (hand_view self.old) from to cells.now }
        ensures hand { IsHandOf board.now self.new }
        ensures given { HasGivenOut (ground_of board.now) from to cells.now result
            (hand_view self.old) (hand_view self.new) }
        ensures few { result ≤ max_board }
    {
        let mut rose = 0;
        for cell in from..to {
            if self.lift_to(board, cell, cells[cell]) {
                rose += 1;
            }
        }
        rose
    }

    // Raises the pixel of a cell to a value, and says whether it rose.
    fn lift_to(&mut self, board: &Board, cell: usize, value: u16) -> bool
        requires hand { IsHandOf board.now self.old }
        requires cell { cell < size_of (ground_of board.now) }
        requires founded { IsFounded (ground_of board.now) (hand_view self.old)
            (pixel_after (ground_of board.now) cell) value }
        ensures hand { IsHandOf board.now self.new }
        ensures lifted { HasLifted (ground_of board.now) (pixel_after (ground_of board.now) cell) value result
            (hand_view self.old) (hand_view self.new) }
    {
        // For its clause alone: the mask has a value for each cell.
        let _ = board.width();
        let asked = self.generation * LEVELS + u64::from(value);
        lift_cell::<Brand>(board, &mut self.seat, cell, asked) < asked
    }

    // Raises the neighbours of each pixel of a row by what the image has there, which this hand knows. It answers how
    // many rose.
    fn pass_on(&mut self, board: &Board, y: u32, image: &Grid) -> u64
        requires hand { IsHandOf board.now self.old }
        requires row { y < (mask_of (ground_of board.now)).height }
        requires image { IsBelow image.now (mask_of (ground_of board.now)) }
        requires known { IsRowKnown (ground_of board.now) y image.now (hand_view self.old) }
        ensures hand { IsHandOf board.now self.new }
        ensures passed { HasPassedOn (ground_of board.now) y (mask_of (ground_of board.now)).width image.now result
            (hand_view self.old) (hand_view self.new) }
        ensures few { result ≤ 147456 }
    {
        let mut rose = 0;
        for x in 0..board.width() {
            let pixel = Pixel { x, y };
            let from = Fact {
                pixel,
                generation: self.generation,
                value: image.get(pixel),
            };
            rose += self.spread(board, from);
        }
        rose
    }
}

// What a flood of the rows from `first` to before `end` came to, by how many raises rose in them, by its first row, and
// by its last.
fn told(first: u32, end: u32, height: u32, rose: (u64, u64, u64)) -> Reach
    requires rows { (first < end) × (end ≤ height) }
    requires few { (rose.0 ≤ max_board) × (rose.1 ≤ 147456) × (rose.2 ≤ 147456) }
    ensures rose { result.rose ≡ rose.0 + rose.1 + rose.2 }
    ensures reach { IsReachOf first end height rose.1 rose.2 result }
{
    let is_one = end - first == 1;
    let is_above = rose.1 > 0 || is_one && rose.2 > 0;
    let is_below = rose.2 > 0 || is_one && rose.1 > 0;
    Reach {
        rose: rose.0 + rose.1 + rose.2,
        first: if is_above {
            first.saturating_sub(1)
        } else {
            first
        },
        end: if is_below && end < height {
            end + 1
        } else {
            end
        },
    }
}
