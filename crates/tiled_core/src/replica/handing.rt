//! Hints that are handed to their pixels.

ghost use Rattle.std.specs.Prelude.{◌≡◌, ◌≢◌, ◌↔◌, ℕ, [], length, IsTrue};
ghost use Rattle.core_rules.specs.Hints.{IsHanded, IsPresent};
ghost use Rattle.core_rules.specs.Sweeps.{tile_rect};
ghost use Rattle.core_rules.specs.Work.{IsTile, work_at};
ghost use Rattle.tiled_core.specs.Handing.{AreHandedOver};

use super::TiledCore;
use border_queues::Hint;
use core_rules::Handed;
use grid_core::{Bounds, Rect};

impl TiledCore {
    /// Hands over the hint at place `i` of a tile's inbox, as [`Core::hand`](reset_core::Core::hand) does. It takes no
    /// memory.
    pub fn hand(&mut self, tile: usize, i: usize) -> Handed
        ensures { IsHanded self.old tile i result self.new }
    {
        if tile >= self.tiles() {
            return Handed::Nothing;
        }
        let rect = self.tiling().rect(tile);
        self.hand_in(tile, rect, i)
    }

    /// Hands over each hint that waits at a tile, the last first, and says how many there were. It takes no memory.
    pub fn hand_waiting(&mut self, tile: usize) -> usize
        requires { IsTile self.old tile }
        ensures handed { AreHandedOver tile (length (work_at self.old tile).inbox) self.old self.new }
        ensures count { result ≡ length (work_at self.old tile).inbox }
        ensures none { (work_at self.new tile).inbox ≡ [] }
        ensures others { (other : ℕ) → other ≢ tile → (work_at self.new other).inbox ≡ (work_at self.old other).inbox }
    {
        let rect = self.tiling().rect(tile);
        let count = self.waiting(tile);
        let mut left = count;
        while left > 0 {
            left -= 1;
            let _handed = self.hand_in(tile, rect, left);
        }
        count
    }

    // Hands over the hint at place `i` of the inbox of a tile that has this rectangle.
    fn hand_in(&mut self, tile: usize, rect: Rect, i: usize) -> Handed
        requires is_tile { IsTile self.old tile }
        requires rect { rect ≡ tile_rect self.old tile }
        ensures { IsHanded self.old tile i result self.new }
    {
        let Some(hint) = self.work.hint(tile, i) else {
            return Handed::Nothing;
        };
        let present = self.is_present(&hint);
        self.work.remove_hint(tile, i);
        if !present {
            return Handed::Stale;
        }
        if !self.image.raise_in(tile, rect, hint.to_pixel, hint.value) {
            return Handed::Same;
        }
        self.work.mark_dirty(tile);
        self.bounds
            .widen(tile, Bounds::none().including(hint.to_pixel));
        Handed::Raised
    }

    // Whether the tile that told the hint was not reset since.
    fn is_present(&self, hint: &Hint) -> bool
        ensures { IsTrue result ↔ IsPresent self.now hint.now }
    {
        hint.from < self.tiles() && self.generation(hint.from) == hint.from_generation
    }
}
