//! Hints that are handed over, all that wait.

ghost use Rattle.std.specs.Prelude.{ℕ};
ghost use Rattle.core_rules.specs.Runs.{HasHints};
ghost use Rattle.core_dispatch.specs.Books.{KeepsRest};
ghost use Rattle.core_dispatch.specs.Handing.{HaveHanded, IsNextHanded, IsSum};

use super::Books;

impl Books {
    /// Hands over each hint that waits, tile by tile, the last of an inbox first, and says how many there were, or
    /// 2^64 - 1 where there were more. It takes no memory, and waits for nobody.
    pub(crate) fn hand_all(&mut self) -> u64
        ensures handed { HaveHanded self.old.core result self.new.core }
        ensures no_hints { (t : ℕ) → HasHints self.new.core t → ⊥ }
        ensures rest { KeepsRest self.old self.new }
    {
        let mut hands = 0;
        while let Some(handed) = self.hand_next() {
            hands = sum(hands, handed);
        }
        hands
    }

    // Hands over each hint of the first tile where one waits, and says how many there were. None where no hint waits.
    fn hand_next(&mut self) -> Option<usize>
        ensures next { IsNextHanded self.old.core result self.new.core }
        ensures rest { KeepsRest self.old self.new }
    {
        let tile = self.core().next_waiting(0)?;
        Some(self.core.hand_waiting(tile))
    }
}

// The sum, as far as can be counted.
fn sum(hands: u64, handed: usize) -> u64
    ensures { IsSum hands handed result }
{
    hands.saturating_add(handed as u64)
}
