//! Hints that are handed to their pixels.

ghost use Rattle.std.specs.Prelude.{IsTrue, ◌↔◌};
ghost use Rattle.core_rules.specs.Hints.{IsHanded, IsPresent};

use super::Core;
use border_queues::Hint;
use core_rules::Handed;
use grid_core::Bounds;

impl Core {
    /// Hands over the hint at place `i` of a tile's inbox: it leaves the inbox, and raises its pixel where the tile
    /// that told it was not reset since, and it is above the pixel's value. The pixel's tile is then dirty. It takes no
    /// memory.
    pub fn hand(&mut self, tile: usize, i: usize) -> Handed
        ensures { IsHanded self.old tile i result self.new }
    {
        if tile >= self.tiles() {
            return Handed::Nothing;
        }
        let Some(hint) = self.work.hint(tile, i) else {
            return Handed::Nothing;
        };
        let present = self.is_present(&hint);
        self.work.remove_hint(tile, i);
        if !present {
            return Handed::Stale;
        }
        if self.image.get(hint.to_pixel) >= hint.value {
            return Handed::Same;
        }
        self.image.set(hint.to_pixel, hint.value);
        self.work.mark_dirty(tile);
        self.bounds
            .widen(tile, Bounds::none().including(hint.to_pixel));
        Handed::Raised
    }

    // Whether the tile that told the hint was not reset since.
    fn is_present(&self, hint: &Hint) -> bool
        ensures { IsTrue result ↔ IsPresent self.now hint.now }
    {
        hint.from < self.tiles() && self.generation(hint.from) == hint.from_generation
    }
}
