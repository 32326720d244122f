//! Lists of values that are compared block by block.

ghost use Rattle.std.specs.Prelude.{IsTrue, length, ◌↔◌, ◌≡◌, ◌≤◌};
ghost use Rattle.live_board.specs.Blocks.{AreNoneAbove};

/// How many values are looked at together.
pub(crate) const BLOCK: usize = 256;

/// Whether none of the values is above the other's in its place. They are looked at block by block.
pub(crate) fn are_nowhere_above(ones: &[u16], others: &[u16]) -> bool
    requires { length ones.now ≡ length others.now }
    ensures { IsTrue result ↔ AreNoneAbove 0 (length ones.now) ones.now others.now }
{
    let size = ones.len();
    for block in 0..size.div_ceil(BLOCK) {
        let from = block * BLOCK;
        if !is_nowhere_above(ones, others, from, size.min(from + BLOCK)) {
            return false;
        }
    }
    true
}

/// Whether none of the values from `from` to before `to` is above the other's in its place.
//
// Inside the loop over blocks it would not become vector code.
#[inline(never)]
pub(crate) fn is_nowhere_above(ones: &[u16], others: &[u16], from: usize, to: usize) -> bool
    requires { (from ≤ to) × (to ≤ length ones.now) × (to ≤ length others.now) }
    ensures { IsTrue result ↔ AreNoneAbove from to ones.now others.now }
{
    let mut is_above = false;
    for place in from..to {
        is_above |= ones[place] > others[place];
    }
    !is_above
}
