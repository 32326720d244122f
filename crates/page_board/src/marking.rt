//! The steps of tiles.

ghost use Rattle.std.specs.Prelude.{◌≡◌, ◌≤◌, ℕ, false, length, replicate};
ghost use Rattle.byte_devices.specs.Device.{count_after};
ghost use Rattle.tile_work.specs.TileSet.{Has};
ghost use Rattle.page_board.specs.Board.{last_step};
ghost use Rattle.page_board.specs.Marking.{AreMarked};

use tile_work::TileSet;

/// Gives each tile of the set this step, and empties the set.
pub(crate) fn note(shown: &mut [u64], tiles: &mut TileSet, step: u64)
    requires { length tiles.old ≡ length shown.old }
    ensures marked { AreMarked tiles.old step shown.old shown.new }
    ensures emptied { tiles.new ≡ replicate (length tiles.old) false }
{
    mark(shown, tiles, step);
    tiles.clear();
}

// Gives each tile of the set this step.
fn mark(shown: &mut [u64], tiles: &TileSet, step: u64)
    requires { length tiles.now ≡ length shown.old }
    ensures { AreMarked tiles.now step shown.old shown.new }
{
    let mut from = 0;
    while let Some(tile) = tiles.first_from(from) {
        shown[tile] = step;
        from = tile + 1;
    }
}

/// The step after this one, where a tile is in the set, or else the same.
pub(crate) fn step_after(step: u64, tiles: &TileSet) -> u64
    ensures next { (t : ℕ) → Has tiles.now t → result ≡ count_after step 1 }
    ensures still { ((t : ℕ) → Has tiles.now t → ⊥) → result ≡ step }
    ensures risen { step ≤ result }
    ensures bounded { result ≤ last_step }
{
    match tiles.first_from(0) {
        Some(_) => step.saturating_add(1),
        None => step,
    }
}
