//! The generations of tiles.

ghost use Rattle.std.specs.Prelude.{codes, ◌≡◌, ◌+◌, ◌<◌, ◌≤◌, ◌↔◌, length, replicate, slice_index, IsTrue, IfOk};
ghost use Rattle.std.specs.Prelude.{IsErr, OnOk};
ghost use Rattle.std.specs.Prelude.{OnErr};
ghost use Rattle.tile_generations.specs.Generations.{max_generation, AreGenerations, CanAdvance, IsAdvanced, HasSpent};

use grid_core::Memory;
use std::alloc::Global;
use std::marker::Model;
use thiserror::Error;

/// The greatest generation of a tile, `2^48 - 1`.
pub const MAX_GENERATION: u64 = (1 << 48) - 1;

/// N1: a tile that was to be advanced has the greatest generation.
#[derive(Clone, Copy, Debug, PartialEq, Eq, Error)]
#[error("N1: a tile has spent its generations")]
pub struct GenerationsSpent;

impl GenerationsSpent {
    /// The code: "N1".
    pub fn code(self) -> &'static str
        ensures { result.now ≡ codes "N1" }
    {
        "N1"
    }
}

/// The generation of each tile of an image, at most [`MAX_GENERATION`].
#[derive(Debug, Drop)]
pub struct Generations {
    current: Vec<u64>,
}

impl Model for Generations {
    ghost use Rattle.std.specs.Prelude.{ℕ, List};
    ghost use Rattle.tile_generations.specs.Generations.{AreGenerations};

    ghost Value = { List ℕ };

    ghost view = { λ g. g.current.items };

    ghost invariant = { λ g. AreGenerations g.current.items };
}

impl Generations {
    /// So many tiles, each with the generation `first`.
    ///
    /// Errors: out of memory.
    pub fn starting_at(alloc: Global, count: usize, first: u64) -> Result<Generations, Memory>
        requires { first ≤ max_generation }
        ensures { IfOk result (λ g. g ≡ replicate count first) }
    {
        let current = vec![in alloc; first; count]?;
        Ok(Generations { current })
    }

    /// The number of tiles.
    pub fn len(&self) -> usize
        ensures value { result ≡ length self.now }
        ensures bounded { AreGenerations self.now }
    {
        self.current.len()
    }

    /// The generation of a tile.
    pub fn current(&self, tile: usize) -> u64
        requires { tile < length self.now }
        ensures value { result ≡ slice_index self.now tile }
        ensures bounded { result ≤ max_generation }
    {
        self.current[tile]
    }

    /// Gives each marked tile the next generation. It takes no memory.
    ///
    /// Errors: N1 where a marked tile has the greatest generation; then no tile is advanced.
    pub fn advance(&mut self, marks: &[bool]) -> Result<(), GenerationsSpent>
        requires { length marks.now ≡ length self.old }
        ensures ok { OnOk result (IsAdvanced marks.now self.old self.new) }
        ensures err { OnErr result (self.new ≡ self.old) }
        ensures spent { IsErr result ↔ HasSpent marks.now self.old }
    {
        if is_spent(&self.current, marks) {
            return Err(GenerationsSpent);
        }
        raise_marked(&mut self.current, marks);
        Ok(())
    }
}

// Whether a marked tile has the greatest generation.
fn is_spent(generations: &[u64], marks: &[bool]) -> bool
    requires { length marks.now ≡ length generations.now }
    ensures { IsTrue result ↔ HasSpent marks.now generations.now }
{
    for tile in 0..generations.len() {
        if marks[tile] && generations[tile] == MAX_GENERATION {
            return true;
        }
    }
    false
}

// Gives each marked tile the next generation.
fn raise_marked(generations: &mut [u64], marks: &[bool])
    requires { CanAdvance marks.now generations.old }
    ensures { IsAdvanced marks.now generations.old generations.new }
{
    for tile in 0..generations.len() {
        if marks[tile] {
            generations[tile] += 1;
        }
    }
}
