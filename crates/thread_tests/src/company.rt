//! Who takes part in a studio, and who looks at a board. They stand outside the tests, since definitions speak of them.

use core_dispatch::Pen;
use live_board::{Draft, HandSeat, KeeperSeat, PeekSeat};
use steal_pool::Hand;
use studio::{Eye, Keeper};

/// A studio with one pen and one eye.
pub struct Scene {
    pub keeper: Keeper,
    pub pen: Pen,
    pub eye: Eye,
    pub hands: Vec<Hand>,
}

/// The seats of a board, one of each kind.
#[derive(Drop)]
pub struct Seats {
    pub keeper: KeeperSeat,
    pub hand: HandSeat,
    pub peek: PeekSeat,
}

/// The keeper's seat, and those that stand in threads, where they are there.
#[derive(Drop)]
pub struct Crew {
    pub keeper: KeeperSeat,
    pub one: Option<HandSeat>,
    pub two: Option<HandSeat>,
    pub peek: Option<PeekSeat>,
}

/// A hand with what it floods with, and the rows that it floods.
#[derive(Drop)]
pub struct Share {
    pub hand: HandSeat,
    pub draft: Draft,
    pub first: u32,
    pub end: u32,
}

/// Who floods a board, and who looks at it meanwhile.
#[derive(Drop)]
pub struct Flooders {
    pub keeper: KeeperSeat,
    pub shares: Vec<Share>,
    pub peek: PeekSeat,
}
