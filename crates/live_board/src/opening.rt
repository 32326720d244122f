//! Boards that are opened.

ghost use Rattle.std.specs.Prelude.{◌*◌, ◌+◌, All, IfOk, IsErrOf, IsTrue, length, replicate, slice_set, ◌↔◌, ◌≡◌, ◌≤◌};
ghost use Rattle.live_board.specs.Opening.{AreCounts, IsNewHand, IsNewPeek, IsOpened, IsTooLarge, new_ground};
ghost use Rattle.live_board.specs.Seats.{IsKeeperOf, ground_of, keeper_view};
ghost use Rattle.live_board.specs.Words.{beginner, blank, max_board, max_generation, size_of};
ghost use Rattle.live_board.specs.declared.error.BoardError.TheVariants as errors;

use crate::board::{Board, MAX_BOARD};
use crate::error::BoardError;
use crate::fact::LEVELS;
use crate::hand::HandSeat;
use crate::keeper::KeeperSeat;
use crate::peek::PeekSeat;
use crate::rule::{Ground, Learn};
use atomic_table::Table;
use grid_core::{Conn, Grid, Memory};
use pgm_codec::Image;
use std::alloc::Global;

/// How many hands or peeks a board has at most.
const MOST: usize = 16;

/// A board with its seats, which go their own ways.
#[derive(Drop)]
pub struct Opened {
    /// The board.
    pub board: Board,
    /// The seat of the keeper.
    pub keeper: KeeperSeat,
    /// The seats of the hands.
    pub hands: Vec<HandSeat>,
    /// The seats of the peeks.
    pub peeks: Vec<PeekSeat>,
}

impl Board {
    /// A board of this image as its mask, in generation 0, with so many hands and peeks, 1 to 16 each. Each word is 0,
    /// and so is the marker.
    ///
    /// Errors: X1 where there are more than [`MAX_BOARD`] pixels, else X2 where a count is none of 1 to 16, else X3.
    pub fn open(
        alloc: Global,
        mask: &Image,
        conn: Conn,
        hands: usize,
        peeks: usize,
    ) -> Result<Opened, BoardError>
        ensures opened { IfOk result (IsOpened (new_ground mask.now conn 0) hands peeks) }
        ensures large { IsErrOf result errors.TooLarge ↔ IsTooLarge mask.now }
        ensures counts { IsErrOf result errors.BadCounts ↔ ((IsTooLarge mask.now → ⊥) × (AreCounts hands peeks → ⊥)) }
    {
        Board::open_at(alloc, mask, conn, hands, peeks, 0)
    }

    /// The same, in the generation `first`. In a later one than 0 no pixel has a value at first.
    ///
    /// Errors: those of [`Board::open`].
    pub fn open_at(
        alloc: Global,
        mask: &Image,
        conn: Conn,
        hands: usize,
        peeks: usize,
        first: u64,
    ) -> Result<Opened, BoardError>
        requires { first ≤ max_generation }
        ensures opened { IfOk result (IsOpened (new_ground mask.now conn first) hands peeks) }
        ensures large { IsErrOf result errors.TooLarge ↔ IsTooLarge mask.now }
        ensures counts { IsErrOf result errors.BadCounts ↔ ((IsTooLarge mask.now → ⊥) × (AreCounts hands peeks → ⊥)) }
    {
        if mask.width() * mask.height() > MAX_BOARD {
            return Err(BoardError::TooLarge);
        }
        if !are_counts(hands, peeks) {
            return Err(BoardError::BadCounts);
        }
        let base = ground_on(alloc, mask, conn, first)?;
        let (board, keeper) = lay(alloc, base)?;
        Ok(seated(alloc, board, keeper, hands, peeks)?)
    }

    // A seat of a hand, which knows the generation.
    fn hand(&self) -> HandSeat
        ensures { IsNewHand self.now result }
    {
        let (word, seat) = self.table.shared.load_new_seat::<Learn>(0);
        HandSeat {
            seat,
            generation: word / LEVELS,
        }
    }

    // A seat of a peek.
    fn peek(&self) -> PeekSeat
        ensures { IsNewPeek self.now result }
    {
        let (_, seat) = self.table.shared.load_new_seat::<Learn>(0);
        PeekSeat { seat }
    }
}

// Whether each count is one of 1 to 16.
fn are_counts(hands: usize, peeks: usize) -> bool
    ensures { IsTrue result ↔ AreCounts hands peeks }
{
    1 <= hands && hands <= MOST && 1 <= peeks && peeks <= MOST
}

// A copy of the mask, with the connectivity and the first generation. Errors: out of memory.
fn ground_on(alloc: Global, mask: &Image, conn: Conn, first: u64) -> Result<Ground, Memory>
    ensures { IfOk result (λ made. made ≡ new_ground mask.now conn first) }
{
    let grid = mask.grid().copy(alloc)?;
    Ok(Ground {
        mask: Image::over(grid, mask.maxval()),
        conn,
        first,
    })
}

// An image of the mask's size with 0 at each pixel. Errors: out of memory.
fn blank_of(alloc: Global, mask: &Image) -> Result<Grid, Memory>
    ensures { IfOk result (λ marker. marker ≡ blank mask.now.raster) }
{
    match Grid::new(alloc, mask.width(), mask.height(), 0) {
        Ok(marker) => Ok(marker),
        Err(_) => Err(Memory),
    }
}

// The words at the beginning: the generation, and 0 for each pixel. Errors: out of memory.
fn words_of(alloc: Global, pixels: usize, first: u64) -> Result<Vec<u64>, Memory>
    requires few { pixels ≤ max_board }
    requires first { first ≤ max_generation }
    ensures { IfOk result (λ words. words.items ≡ slice_set (replicate (pixels + 1) 0) 0 (first * 65536)) }
{
    let mut words = vec![in alloc; 0u64; pixels + 1]?;
    words[0] = first * LEVELS;
    Ok(words)
}

// A board on this ground, with the keeper's seat. Errors: out of memory.
fn lay(alloc: Global, base: Ground) -> Result<(Board, KeeperSeat), Memory>
    requires few { size_of base ≤ max_board }
    requires first { base.first ≤ max_generation }
    ensures base { IfOk result (λ laid. ground_of laid.0 ≡ base) }
    ensures keeper { IfOk result (λ laid. IsKeeperOf laid.0 laid.1) }
    ensures knows { IfOk result (λ laid. keeper_view laid.1 ≡ beginner base) }
{
    let marker = blank_of(alloc, &base.mask)?;
    let words = words_of(alloc, base.mask.samples().len(), base.first)?;
    let generation = base.first;
    let (table, seat) = Table::of_words(alloc, &words, &base)?;
    let keeper = KeeperSeat {
        seat,
        generation,
        marker,
        is_planted: false,
    };
    Ok((Board { table, base }, keeper))
}

// So many seats of hands. Errors: out of memory.
fn hands_of(alloc: Global, board: &Board, count: usize) -> Result<Vec<HandSeat>, Memory>
    ensures { IfOk result (λ hands. (length hands.items ≡ count) × All (IsNewHand board.now) hands.items) }
{
    let mut hands = Vec::with_capacity(alloc, count)?;
    for _hand in 0..count {
        hands.push(board.hand())?;
    }
    Ok(hands)
}

// So many seats of peeks. Errors: out of memory.
fn peeks_of(alloc: Global, board: &Board, count: usize) -> Result<Vec<PeekSeat>, Memory>
    ensures { IfOk result (λ peeks. (length peeks.items ≡ count) × All (IsNewPeek board.now) peeks.items) }
{
    let mut peeks = Vec::with_capacity(alloc, count)?;
    for _peek in 0..count {
        peeks.push(board.peek())?;
    }
    Ok(peeks)
}

// The board and the keeper's seat, with so many seats of hands and peeks. Errors: out of memory.
fn seated(
    alloc: Global,
    board: Board,
    keeper: KeeperSeat,
    hands: usize,
    peeks: usize,
) -> Result<Opened, Memory>
    requires keeper { IsKeeperOf board keeper }
    requires knows { keeper_view keeper ≡ beginner (ground_of board) }
    ensures { IfOk result (IsOpened (ground_of board) hands peeks) }
{
    let hands = hands_of(alloc, &board, hands)?;
    let peeks = peeks_of(alloc, &board, peeks)?;
    Ok(Opened {
        board,
        keeper,
        hands,
        peeks,
    })
}
