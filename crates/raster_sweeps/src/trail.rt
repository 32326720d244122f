//! The queue of a growth that begins at few pixels.

ghost use Rattle.std.specs.Prelude.{◌≡◌, ◌+◌, ◌<◌, ◌↔◌, ◌≤◌, [], ◌∷◌, ◌++◌, IfNone, IfOk, IfSome, IsTrue};
ghost use Rattle.std.specs.Prelude.{MatchBool, MatchOption};
ghost use Rattle.grid_core.specs.Raster.{index_of, max_side};
ghost use Rattle.raster_sweeps.specs.Trail.{empty_trail};

use grid_core::{Memory, Pixel};
use std::alloc::Global;
use std::marker::Model;

// How many numbers a row of pixels takes: a power of 2 above the greatest width.
const ROW: u32 = 65_536;

/// Pixels of an image that wait, first in, first out. Each place serves once, so that a pixel joins without a branch.
///
/// A pixel is kept as a number that is taken apart without a division.
#[derive(Drop)]
pub struct Trail {
    width: u32,
    pixels: Vec<u32>,
    first: usize,
    end: usize,
}

impl Model for Trail {
    ghost use Rattle.raster_sweeps.specs.Trail.{IsTrail, Trail, trail_of};

    ghost Value = { Trail };

    ghost view = { λ t. trail_of t.width t.pixels.items t.first t.end };

    ghost invariant = { λ t. IsTrail t.width t.pixels.items t.first t.end };
}

impl Trail {
    /// An empty trail with so many places.
    ///
    /// Errors: out of memory.
    pub fn new(alloc: Global, count: usize) -> Result<Trail, Memory>
        ensures { IfOk result (λ trail. trail ≡ empty_trail 0 count) }
    {
        Ok(Trail {
            width: 0,
            pixels: vec![in alloc; 0; count]?,
            first: 0,
            end: 0,
        })
    }

    /// Takes all pixels out, so that each place is left. Those that join from now on are of an image of this width.
    pub fn clear(&mut self, width: u32)
        requires { width ≤ max_side }
        ensures { self.new ≡ empty_trail width self.old.count }
    {
        self.width = width;
        self.first = 0;
        self.end = 0;
    }

    /// Whether there is room for nine more: a pixel and all its neighbours.
    #[inline(always)]
    pub fn has_room(&self) -> bool
        ensures { IsTrue result ↔ (8 < self.now.places) }
    {
        self.pixels.len() - self.end > 8
    }

    /// Lets a pixel join as the last, where it is wanted.
    #[inline(always)]
    pub fn push_if(&mut self, wanted: bool, pixel: Pixel)
        requires column { pixel.x < self.old.width }
        requires row { pixel.y < max_side }
        requires room { 0 < self.old.places }
        ensures joined { MatchBool wanted (self.new.cells ≡ self.old.cells ++ index_of self.old.width pixel ∷ [])
            (self.new ≡ self.old) }
        ensures places { self.old.places ≤ self.new.places + 1 }
        ensures kept { (self.new.width ≡ self.old.width) × (self.new.count ≡ self.old.count) }
    {
        let end = self.end;
        self.pixels[end] = pixel.y * ROW + pixel.x;
        self.end = end + wanted as usize;
    }

    /// Takes the first pixel out.
    #[inline(always)]
    pub fn pop(&mut self) -> Option<Pixel>
        ensures first { MatchOption result (self.old.cells ≡ [])
            (λ p. self.old.cells ≡ index_of self.old.width p ∷ self.new.cells) }
        ensures column { IfSome result (λ p. p.x < self.old.width) }
        ensures none { IfNone result (self.new ≡ self.old) }
        ensures kept { (self.new.width ≡ self.old.width) × (self.new.places ≡ self.old.places)
            × (self.new.count ≡ self.old.count) }
    {
        if self.first == self.end {
            return None;
        }
        let number = self.pixels[self.first];
        self.first += 1;
        Some(Pixel {
            x: number % ROW,
            y: number / ROW,
        })
    }
}
