//! Lengths: how many bytes the lines have that are written.

ghost use Rattle.std.specs.Prelude.{◌≡◌, ◌+◌, ◌*◌, ◌-◌, ◌^◌, ◌<◌, ◌≤◌, length, min, decimal};
ghost use Rattle.std.specs.List.{sum_by};
ghost use Rattle.stroke_core.specs.Seed.{Runs, Disc, max_runs};
ghost use Rattle.edit_lang.specs.Writing.{run_text, shape_text, placement_text, live_text};

use crate::shape::Circle;
use stroke_core::{Kind, Run, Stroke, Tag};
use stroke_lattice::State;

/// How many bytes the hyphenated form of a tag has.
pub(crate) const TAG_LEN: usize = 36;

/// How many bytes the lines of the live strokes have, or as many as can be counted where they have more.
pub(crate) fn live_len(state: &State) -> usize
    ensures { result ≡ min (length (live_text state.now)) (2 ^ 64 - 1) }
{
    let mut length = 0usize;
    for (tag, stroke) in state.live() {
        length = length.saturating_add(placement_len(*tag, stroke));
    }
    length
}

/// How many bytes the line of a placement has.
#[tactic(auto, using(crate::proofs::Room::placement_length))]
pub(crate) fn placement_len(tag: Tag, stroke: &Stroke) -> usize
    ensures { result ≡ length (placement_text tag stroke.now) }
{
    let level = stroke.level();
    match stroke.kind() {
        Kind::Runs => len_beside_shape(5, level) + runs_len(stroke.runs()),
        Kind::Disc { x, y, r } => {
            let r = u16::from(r);
            len_beside_shape(4, level) + disc_len(Circle { x, y, r })
        }
    }
}

// How many bytes stand in the line of a placement beside the shape: the word for it, of so many bytes, the tag, the
// level, three blanks and LF.
fn len_beside_shape(verb_len: usize, level: u16) -> usize
    requires { verb_len ≤ 5 }
    ensures value { result ≡ verb_len + 36 + length (decimal level) + 4 }
    ensures bound { result ≤ 50 }
{
    verb_len + TAG_LEN + digit_count(level) + 4
}

// How many bytes a disc has.
fn disc_len(disc: Circle) -> usize
    ensures value { result ≡ length (shape_text (Disc disc.x disc.y disc.r)) }
    ensures bound { result ≤ 17 }
{
    digit_count(disc.y) + 1 + digit_count(disc.x) + 1 + digit_count(disc.r)
}

// How many bytes runs have, with one comma between two.
#[tactic(auto, using(crate::proofs::Room::runs_length))]
fn runs_len(runs: &[Run]) -> usize
    requires some { 0 < length runs.now }
    requires few { length runs.now ≤ max_runs }
    ensures value { result ≡ length (shape_text (Runs runs.now)) }
    ensures bound { result ≤ 2880 }
{
    runs_room(runs) - 1
}

// How many bytes runs have, with a byte behind each.
fn runs_room(runs: &[Run]) -> usize
    requires { length runs.now ≤ max_runs }
    ensures sum { result ≡ sum_by (λ run. length (run_text run) + 1) runs.now }
    ensures bound { result ≤ length runs.now * 18 }
{
    let mut length = 0;
    for run in runs {
        length += run_len(*run) + 1;
    }
    length
}

// How many bytes a run has.
fn run_len(run: Run) -> usize
    ensures value { result ≡ length (run_text run) }
    ensures bound { result ≤ 17 }
{
    digit_count(run.y) + 1 + digit_count(run.x0) + 1 + digit_count(run.x1)
}

// How many digits a number has in decimal.
#[tactic(auto, using(crate::proofs::Room::next_digit, crate::proofs::Room::few_digits, crate::proofs::Room::one_digit))]
fn digit_count(number: u16) -> usize
    ensures value { result ≡ length (decimal number) }
    ensures bound { result ≤ 5 }
{
    let mut count = 1;
    let mut rest = number;
    while rest > 9 {
        rest /= 10;
        count += 1;
    }
    count
}
