ghost use Rattle.std.specs.Prelude.{◌≡◌, ◌≤◌};
ghost use Rattle.grid_core.specs.Neighbours.{apart};
ghost use Rattle.stroke_core.specs.Spans.{span_of_run, span_of_row};

use crate::run::Run;

/// Pixels side by side on one row: those of the row `y` from the top, from column `first` from the left up to
/// column `end`, which is left out, all counted from 0.
#[derive(Clone, Copy, Debug, PartialEq, Eq)]
pub struct Span {
    pub y: u32,
    pub first: u32,
    pub end: u32,
}

impl Span {
    // The pixels of a run.
    pub(crate) fn of_run(run: Run) -> Span
        ensures { result ≡ span_of_run run }
    {
        Span {
            y: u32::from(run.y),
            first: u32::from(run.x0),
            end: u32::from(run.x1) + 1,
        }
    }

    // The pixels of a disc on the row `row`, which is at most `r` from the disc's centre.
    #[tactic(auto, using(crate::proofs::SpanLemmas::is_half_width, crate::proofs::SpanLemmas::half_width_within))]
    pub(crate) fn of_row(x: u16, y: u16, r: u8, row: u32) -> Span
        requires { apart y row ≤ r }
        ensures { result ≡ span_of_row x y r row }
    {
        let (x, r) = (u32::from(x), u32::from(r));
        let dy = u32::from(y).abs_diff(row);
        let half = (r * r - dy * dy).isqrt();
        Span {
            y: row,
            first: x.saturating_sub(half),
            end: x + half + 1,
        }
    }
}
