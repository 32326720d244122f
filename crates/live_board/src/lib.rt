#![tactic(auto)]
//! A board of words that hands raise while others peek at it: pixels now, without a copy of the image and without
//! waiting. What a peek tells as live, the pixel reaches from the keeper's marker as the peek ends.
//!
//! [`Board::open`] takes a mask, and gives the board with a seat for each thread that takes part:
//!
//! ```text
//! let Opened { board, mut keeper, mut hands, mut peeks } = Board::open(alloc, &mask, Conn::Four, 2, 1)?;
//! keeper.advance(&board, marker)?;       // in the keeper's thread: a generation begins, with a new marker
//! keeper.plant(&board, p);               // the pixel has the marker's value
//! hands[0].round(&board);                // in the thread of a hand: values spread to neighbours
//! peeks[0].peek(&board, p);              // in the thread of who looks: Live(5), or Moved
//! let (image, closed) = board.close(alloc, keeper)?;
//! ```
//!
//! A word is a generation and a value, as `generation * 65536 + value`. Word 0 has the present generation and value 0,
//! and each pixel has a word. A word of an older generation says nothing of the present marker. Each step is one
//! operation on one word: a load, an addition to word 0, or the greater of the word and a number. So a word never
//! falls, and one of an older generation never hides one of a newer.
//!
//! No word of the present generation is more than its pixel reaches from the keeper's marker: that is the rule of the
//! board, and it holds between any two steps of any threads. No call waits, and those of seats take no memory.
//!
//! A round looks at each pixel once. A hand grows faster by floods ([`HandSeat::flood`]): it reads some rows, grows
//! them in a [`Draft`] of its own, and raises the board to what it has grown. Several hands share a board by [`Strips`]
//! of rows that wait for whoever comes next ([`HandSeat::flood_strips`]).
//!
//! Read on in `specs/Rule.antt`, which has the rule, in `specs/Seats.antt`, which says what each seat's call does, and
//! in `specs/Floods.antt` for floods.

mod band;
mod blocks;
mod board;
mod cells;
mod closing;
mod draft;
mod error;
mod fact;
mod flood;
mod follow;
mod hand;
mod keeper;
mod laws;
mod opening;
mod peek;
mod round;
mod rule;
mod steps;
mod strips;
mod trail;

pub use board::{Board, MAX_BOARD};
pub use draft::Draft;
pub use error::{BoardError, Spent};
pub use fact::{Fact, Peek, Seen};
pub use flood::Reach;
pub use hand::HandSeat;
pub use keeper::KeeperSeat;
pub use laws::{board_laws, flooded_is_grown, spread_is_grown};
pub use opening::Opened;
pub use peek::PeekSeat;
pub use strips::Strips;
