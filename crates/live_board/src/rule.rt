//! The rule of the board, and what each step tells.

ghost use Rattle.grid_core.specs.Raster.{Raster};
ghost use Rattle.grid_core.specs.declared.pixel.Pixel.{Pixel};
ghost use Rattle.live_board.specs.Rule.{IsBoard};
ghost use Rattle.live_board.specs.Steps.{Advances, Learns, Lifts, Reads, Rises};
ghost use Rattle.live_board.specs.Words.{beginner, no_marker, origin};

use crate::fact::Fact;
use atomic_table::{Play, TableRule};
use grid_core::{Conn, Grid};
use pgm_codec::Image;
use std::collections::LinkedList;
use std::marker::{Brand, PhantomData};

/// What a board stands on, and the generation in which it begins.
#[derive(Drop)]
pub struct Ground {
    pub(crate) mask: Image,
    pub(crate) conn: Conn,
    pub(crate) first: u64,
}

/// What a seat knows. No value of it is made.
pub struct SeatView {
    /// The generation: of the keeper the present one, of others the one that it learnt last.
    pub(crate) generation: u64,
    /// Of the keeper, the marker.
    pub(crate) marker: Grid,
    /// What it knows of pixels, the oldest first.
    pub(crate) facts: LinkedList<Fact>,
    /// Its steps, the oldest first: of each its word, and the number that it found there.
    pub(crate) steps: LinkedList<(u64, u64)>,
}

/// No word of the present generation is more than its pixel reaches.
pub struct Law;

impl TableRule<u8, SeatView, Ground> for Law {
    ghost holds = { IsBoard };

    ghost first = { beginner };
}

/// The pixel of a step. Each call picks it.
pub trait At {
    ghost use Rattle.grid_core.specs.declared.pixel.Pixel.{Pixel};

    ghost pixel: { Pixel };
}

impl At for Brand {
    ghost pixel = { origin };
}

/// The marker that a step brings. Each call picks it.
pub trait Brings {
    ghost use Rattle.grid_core.specs.Raster.{Raster};

    ghost marker: { Raster };
}

impl Brings for Brand {
    ghost marker = { no_marker };
}

/// A pixel's word became at least a number.
pub struct Lift<J> {
    at: PhantomData<J>,
}

impl<J: At> Play<u8, SeatView> for Lift<J> {
    ghost then = { Lifts J.pixel };
}

/// A pixel's word was loaded.
pub struct Read<J> {
    at: PhantomData<J>,
}

impl<J: At> Play<u8, SeatView> for Read<J> {
    ghost then = { Reads J.pixel };
}

/// Word 0 was loaded.
pub struct Learn;

impl Play<u8, SeatView> for Learn {
    ghost then = { Learns };
}

/// The next generation began.
pub struct Advance<J> {
    brings: PhantomData<J>,
}

impl<J: Brings> Play<u8, SeatView> for Advance<J> {
    ghost then = { Advances J.marker };
}

/// The marker rose.
pub struct Rise<J> {
    brings: PhantomData<J>,
}

impl<J: Brings> Play<u8, SeatView> for Rise<J> {
    ghost then = { Rises J.marker };
}
