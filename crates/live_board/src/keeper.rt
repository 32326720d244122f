//! The keeper's seat.

ghost use Rattle.std.specs.Coded.{Coded-set};
ghost use Rattle.std.specs.Prelude.{[], IsTrue, ◌≡◌, ◌≤◌};
ghost use Rattle.grid_core.specs.Stored.{raster_code};
ghost use Rattle.live_board.specs.Words.{KnowsMarker, max_generation};

use crate::blocks::{BLOCK, are_nowhere_above, is_nowhere_above};
use crate::board::Board;
use crate::cells::lift_cell;
use crate::error::Spent;
use crate::fact::LEVELS;
use crate::rule::SeatView;
use crate::steps::{begin, lift, rise};
use atomic_table::Seat;
use grid_core::{Grid, Pixel};
use std::marker::Brand;
use std::mem;

/// The greatest generation.
const MAX_GENERATION: u64 = (1 << 48) - 1;

/// The seat of the keeper, who brings markers. It is mostly in the thread that owns the strokes.
#[derive(Drop)]
pub struct KeeperSeat {
    pub(crate) seat: Seat<u8, SeatView>,
    pub(crate) generation: u64,
    pub(crate) marker: Grid,
    // Whether each pixel of the marker is known to be planted.
    pub(crate) is_planted: bool,
    ghost first: { seat.id ≡ 0 },
    ghost same: { seat.me.0.generation ≡ generation },
    ghost marked: { seat.me.0.marker ≡ marker } by { Coded-set raster_code _ _ },
    ghost bare: { seat.me.1 ≡ [] },
    ghost bound: { generation ≤ max_generation },
    ghost known: { ∥ (IsTrue is_planted → KnowsMarker seat.me.0) ∥₁ },
}

impl KeeperSeat {
    ghost use Rattle.std.specs.Coded.{Coded-set};
    ghost use Rattle.std.specs.Prelude.{◌<◌, IfErr, IsTrue, MatchResult, OnErr, OnOk, [], ◌↔◌, ◌≡◌, ◌≤◌};
    ghost use Rattle.grid_core.specs.Raster.{IsBelow, IsSized, value_at};
    ghost use Rattle.grid_core.specs.Stored.{raster_code};
    ghost use Rattle.live_board.specs.Closing.{AreAllPlanted};
    ghost use Rattle.live_board.specs.Planting.{HasPlantedCell, HasPlantedIn, KnowsImage};
    ghost use Rattle.live_board.specs.Rounds.{pixel_after};
    ghost use Rattle.live_board.specs.Seats.{Adds, HasAdvanced, HasRisen, IsKeeperOf, ground_of, keeper_view};
    ghost use Rattle.live_board.specs.Seats.{planted_fact};
    ghost use Rattle.live_board.specs.Words.{IsOn, KnowsMarker, mask_of, max_generation, size_of};

    /// The marker.
    pub fn marker(&self) -> &Grid
        ensures value { result.now ≡ (keeper_view self.now).marker }
        ensures sized { IsSized result.now }
    {
        // For its clause alone: the marker has a size.
        let _ = self.marker.width();
        &self.marker
    }

    /// Whether a marker is nowhere below the present one.
    pub fn is_below(&self, marker: &Grid) -> bool
        ensures { IsTrue result ↔ IsBelow (keeper_view self.now).marker marker.now }
    {
        let same_size = self.marker.width() == marker.width()
            && self.marker.height() == marker.height();
        same_size && are_nowhere_above(self.marker.cells(), marker.cells())
    }

    /// Begins the next generation, with another marker: no pixel has a value in it yet.
    ///
    /// Errors: the marker back, in generation 2^48 - 1. Nothing has changed then.
    pub fn advance(&mut self, board: &Board, marker: Grid) -> Result<(), Spent>
        requires keeper { IsKeeperOf board.now self.old }
        requires below { IsBelow marker (mask_of (ground_of board.now)) }
        ensures keeper { IsKeeperOf board.now self.new }
        ensures advanced { OnOk result (HasAdvanced marker (keeper_view self.old) (keeper_view self.new)) }
        ensures spent { MatchResult result (λ _. (keeper_view self.old).generation < max_generation)
            (λ _. (keeper_view self.old).generation ≡ max_generation) }
        ensures returned { IfErr result (λ spent. spent.marker ≡ marker) }
        ensures unchanged { OnErr result (self.new ≡ self.old) }
    {
        if self.generation == MAX_GENERATION {
            return Err(Spent { marker });
        }
        begin::<Brand>(board, &mut self.seat, &marker);
        self.generation += 1;
        self.marker = marker;
        self.is_planted = false;
        Ok(())
    }

    /// Brings a marker that is nowhere below the present one. Values of the generation stay.
    pub fn raise(&mut self, board: &Board, marker: Grid)
        requires keeper { IsKeeperOf board.now self.old }
        requires above { IsBelow (keeper_view self.old).marker marker }
        requires below { IsBelow marker (mask_of (ground_of board.now)) }
        ensures keeper { IsKeeperOf board.now self.new }
        ensures risen { HasRisen marker (keeper_view self.old) (keeper_view self.new) }
    {
        drop(self.exchange(board, marker));
    }

    /// Brings a marker that is nowhere below the present one, as [`KeeperSeat::raise`] does, and gives each pixel its
    /// value. Where each pixel of the present marker was planted, no step is taken but on pixels at which it rises.
    pub fn raise_planted(&mut self, board: &Board, marker: Grid)
        requires keeper { IsKeeperOf board.now self.old }
        requires above { IsBelow (keeper_view self.old).marker marker }
        requires below { IsBelow marker (mask_of (ground_of board.now)) }
        ensures keeper { IsKeeperOf board.now self.new }
        ensures generation { (keeper_view self.new).generation ≡ (keeper_view self.old).generation }
        ensures marker { (keeper_view self.new).marker ≡ marker }
        ensures planted { AreAllPlanted (ground_of board.now) (keeper_view self.new) }
    {
        let was_planted = self.is_planted;
        let before = self.exchange(board, marker);
        if was_planted {
            return self.plant_risen(board, &before);
        }
        self.plant_all(board);
    }

    // Brings a marker that is nowhere below the present one, and hands that out.
    fn exchange(&mut self, board: &Board, marker: Grid) -> Grid
        requires keeper { IsKeeperOf board.now self.old }
        requires above { IsBelow (keeper_view self.old).marker marker }
        requires below { IsBelow marker (mask_of (ground_of board.now)) }
        ensures keeper { IsKeeperOf board.now self.new }
        ensures risen { HasRisen marker (keeper_view self.old) (keeper_view self.new) }
        ensures before { result ≡ (keeper_view self.old).marker }
    {
        // For its clause alone: the present marker has a value for each pixel.
        let _ = self.marker.width();
        rise::<Brand>(board, &mut self.seat, &marker);
        self.is_planted = false;
        mem::replace(&mut self.marker, marker)
    }

    /// Gives a pixel the marker's value, in the present generation, where it has no greater one.
    pub fn plant(&mut self, board: &Board, pixel: Pixel)
        requires keeper { IsKeeperOf board.now self.old }
        requires pixel { IsOn (ground_of board.now) pixel }
        ensures keeper { IsKeeperOf board.now self.new }
        ensures planted { Adds (ground_of board.now) (planted_fact (keeper_view self.old) pixel)
            (keeper_view self.old) (keeper_view self.new) }
    {
        // For its clause alone: the marker has a value for each pixel.
        let _ = self.marker.width();
        let value = self.marker.get(pixel);
        let asked = self.generation * LEVELS + u64::from(value);
        lift::<Brand>(board, &mut self.seat, pixel, asked);
    }

    /// Gives each pixel the marker's value, as [`KeeperSeat::plant`] does, where that is not known to be done.
    pub fn plant_all(&mut self, board: &Board)
        requires keeper { IsKeeperOf board.now self.old }
        ensures keeper { IsKeeperOf board.now self.new }
        ensures generation { (keeper_view self.new).generation ≡ (keeper_view self.old).generation }
        ensures marker { (keeper_view self.new).marker ≡ (keeper_view self.old).marker }
        ensures planted { AreAllPlanted (ground_of board.now) (keeper_view self.new) }
    {
        if self.is_planted {
            return;
        }
        for cell in 0..board.size() {
            self.plant_cell(board, cell);
        }
        self.is_planted = true;
    }

    // Plants each pixel at which the marker is above an image that was planted in this generation.
    fn plant_risen(&mut self, board: &Board, before: &Grid)
        requires keeper { IsKeeperOf board.now self.old }
        requires before { IsBelow before.now (keeper_view self.old).marker }
        requires known { KnowsImage (ground_of board.now) before.now (keeper_view self.old) }
        ensures keeper { IsKeeperOf board.now self.new }
        ensures generation { (keeper_view self.new).generation ≡ (keeper_view self.old).generation }
        ensures marker { (keeper_view self.new).marker ≡ (keeper_view self.old).marker }
        ensures planted { AreAllPlanted (ground_of board.now) (keeper_view self.new) }
    {
        let size = board.size();
        for block in 0..size.div_ceil(BLOCK) {
            let from = block * BLOCK;
            self.plant_block(board, before, from, size.min(from + BLOCK));
        }
        self.is_planted = true;
    }

    // Plants each pixel of the cells from `from` to before `to`, unless it was planted as high by the image.
    fn plant_block(&mut self, board: &Board, before: &Grid, from: usize, to: usize)
        requires keeper { IsKeeperOf board.now self.old }
        requires cells { (from ≤ to) × (to ≤ size_of (ground_of board.now)) }
        requires before { IsBelow before.now (keeper_view self.old).marker }
        requires known { KnowsImage (ground_of board.now) before.now (keeper_view self.old) }
        ensures keeper { IsKeeperOf board.now self.new }
        ensures planted { HasPlantedIn (ground_of board.now) from to (keeper_view self.old) (keeper_view self.new) }
    {
        if is_nowhere_above(self.marker.cells(), before.cells(), from, to) {
            return;
        }
        for cell in from..to {
            self.plant_where_risen(board, before, cell);
        }
    }

    // Plants the pixel of a cell, unless it was planted as high by the image.
    fn plant_where_risen(&mut self, board: &Board, before: &Grid, cell: usize)
        requires keeper { IsKeeperOf board.now self.old }
        requires cell { cell < size_of (ground_of board.now) }
        requires before { IsBelow before.now (keeper_view self.old).marker }
        requires known { KnowsImage (ground_of board.now) before.now (keeper_view self.old) }
        ensures keeper { IsKeeperOf board.now self.new }
        ensures planted { HasPlantedCell (ground_of board.now) cell (keeper_view self.old) (keeper_view self.new) }
    {
        if self.marker.cells()[cell] <= before.cells()[cell] {
            return;
        }
        self.plant_cell(board, cell);
    }

    // Plants the pixel of a cell.
    fn plant_cell(&mut self, board: &Board, cell: usize)
        requires keeper { IsKeeperOf board.now self.old }
        requires cell { cell < size_of (ground_of board.now) }
        ensures keeper { IsKeeperOf board.now self.new }
        ensures planted { HasPlantedCell (ground_of board.now) cell (keeper_view self.old) (keeper_view self.new) }
    {
        // For its clause alone: the marker has a value for each cell.
        let _ = self.marker.width();
        let asked = self.generation * LEVELS + u64::from(self.value(board, cell));
        lift_cell::<Brand>(board, &mut self.seat, cell, asked);
    }

    // The marker at the pixel of a cell.
    fn value(&self, board: &Board, cell: usize) -> u16
        requires keeper { IsKeeperOf board.now self.now }
        requires cell { cell < size_of (ground_of board.now) }
        ensures { result ≡ value_at (keeper_view self.now).marker (pixel_after (ground_of board.now) cell) }
    {
        // The clauses alone speak of the board.
        let _ = board;
        self.marker.cells()[cell]
    }
}
