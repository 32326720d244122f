//! What is drawn for a round under stress. All of it follows from the seed.

ghost use Rattle.std.specs.Prelude.{◌<◌};

use grid_core::{Conn, Grid};
use reset_core::Core;
use std::alloc::Global;
use stroke_core::{Stroke, Tag};
use stroke_lattice::{Delta, State};

/// How many pens, hands and eyes there are.
pub const EACH: usize = 16;

/// How many edits each pen submits.
pub const EDITS: u64 = 100;

// How many columns or rows a mask has at most.
const MOST: u32 = 220;

// Numbers that look random, and are the same each time.
#[derive(Clone, Copy)]
struct Chance(u64);

impl Chance {
    // The next number, below `end`.
    fn below(&mut self, end: u32) -> u32
        requires { 0 < end }
        ensures { result < end }
    {
        let product = self.0.wrapping_mul(6_364_136_223_846_793_005);
        self.0 = product.wrapping_add(1);
        ((self.0 >> 40) % u64::from(end)) as u32
    }
}

/// The edit of this number: mostly a disc, under a tag of its own or of another edit, or else a withdrawal of another
/// one. Some discs do not fit the mask. It is None where memory is wanting.
pub fn edit(alloc: Global, seed: u64, own: u64) -> Option<Delta> {
    let mut chance = Chance(seed ^ own);
    let other = Tag(u128::from(chance.below(1600)));
    match chance.below(8) {
        0 => State::withdrawn(alloc, other).ok(),
        1 => disc(alloc, &mut chance, other),
        _ => disc(alloc, &mut chance, Tag(u128::from(own))),
    }
}

// A disc under this tag.
fn disc(alloc: Global, chance: &mut Chance, tag: Tag) -> Option<Delta> {
    let (level, radius) = (chance.below(14) + 1, chance.below(10));
    let (x, y) = (chance.below(MOST) as u16, chance.below(MOST) as u16);
    State::placed(alloc, tag, Stroke::disc(level, x, y, radius).ok()?).ok()
}

/// A core on a mask of plates, some of them noisy, with values below 16. It is None where memory is wanting.
pub fn core(alloc: Global, seed: u64) -> Option<Core> {
    let mut chance = Chance(seed);
    let (width, height) = (chance.below(MOST - 40) + 40, chance.below(MOST - 40) + 40);
    let (plate, noise) = (chance.below(60) as usize + 3, chance.below(8) + 1);
    let conn = [Conn::Four, Conn::Eight][chance.below(2) as usize];
    let mut mask = Grid::new(alloc, width, height, 0).ok()?;
    for (place, cell) in mask.cells_mut().iter_mut().enumerate() {
        *cell = (place / plate % 8) as u16 + chance.below(noise) as u16;
    }
    Core::over(alloc, mask, conn, chance.below(57) + 8, 0).ok()
}
