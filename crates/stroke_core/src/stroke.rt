ghost use Rattle.std.specs.Prelude.{◌≡◌, ◌<◌, ◌≤◌, ◌↔◌, IsTrue, IsOk, IfOk, IfErr, MatchOption};
ghost use Rattle.std.specs.Prelude.{ℕ, ◌+◌, length, min, slice_get};
ghost use Rattle.std.specs.List.{list_any};
ghost use Rattle.grid_core.specs.Raster.{max_level};
ghost use Rattle.grid_core.specs.declared.pixel.Pixel.{Pixel};
ghost use Rattle.stroke_core.specs.Seed.{Seed, Runs, Disc, AreOrdered, IsBefore, IsCanonical};
ghost use Rattle.stroke_core.specs.Seed.{IsRefusal, Fits, covers, shape_covers, kind_of, runs_of};
ghost use Rattle.stroke_core.specs.Seed.{byte_len_of, seed_of};
ghost use Rattle.stroke_core.specs.Spans.{spans_of, spans_of_shape, span_has, SpanFits, IsFirstFrom};
ghost use Rattle.stroke_core.specs.declared.error.StrokeError.{StrokeError};

use crate::error::{RefusedRuns, StrokeError};
use crate::kind::Kind;
use crate::run::Run;
use crate::shape::Shape;
use crate::span::Span;
use grid_core::{MAX_LEVEL, Memory, Pixel};
use std::alloc::Global;
use std::marker::Model;

/// The greatest number of runs of a stroke of runs. The least is 1.
pub const MAX_RUNS: usize = 160;

/// The greatest radius of a disc, in pixels. The least is 0.
pub const MAX_RADIUS: u32 = 255;

/// A seed: a grey level, 1 to [`MAX_LEVEL`], painted on runs of pixels or on a disc.
///
/// Of runs there are 1 to [`MAX_RUNS`]. They rise by row and then by column, and neither touch nor overlap:
/// at least one pixel lies between two runs of one row. A disc has a radius of at most [`MAX_RADIUS`] pixels,
/// and the pixels that lie at most so far away from its centre.
#[derive(Debug, Drop)]
pub struct Stroke {
    level: u16,
    shape: Shape,
}

impl Model for Stroke {
    ghost use Rattle.stroke_core.specs.Seed.{Seed, IsCanonical};

    ghost Value = { Seed };

    ghost use Rattle.stroke_core.specs.Held.{shape_of};

    ghost view = { λ s. record { level = s.level; shape = shape_of s.shape } };

    ghost invariant = { λ s. IsCanonical (record { level = s.level; shape = shape_of s.shape }) };
}

impl Stroke {
    /// The stroke of a level and runs. It takes no memory.
    ///
    /// Errors, the first that applies, with the runs handed back: S1 where the level is not 1 to
    /// [`MAX_LEVEL`], S2 where there are no runs, S3 where there are more than [`MAX_RUNS`], S4 where a run
    /// ends before it starts or is not in order with the run before it.
    pub fn new(level: u32, runs: Vec<Run>) -> Result<Stroke, RefusedRuns>
        ensures ok { IfOk result (λ s. s ≡ record { level = level; shape = Runs runs.items }) }
        ensures canonical { IsOk result ↔ IsCanonical (record { level = level; shape = Runs runs.items }) }
        ensures why { IfErr result (λ e. IsRefusal (record { level = level; shape = Runs runs.items }) e.why) }
        ensures returned { IfErr result (λ e. e.runs.items ≡ runs.items) }
    {
        match refusal(level, &runs) {
            Some(why) => Err(RefusedRuns { why, runs }),
            None => Ok(Stroke {
                level: level as u16,
                shape: Shape::Runs(runs),
            }),
        }
    }

    /// The stroke of a level and the disc round the pixel in column `x` and row `y` with the radius `r`. It
    /// takes no memory.
    ///
    /// Errors, the first that applies: S1 where the level is not 1 to [`MAX_LEVEL`], S7 where the radius is
    /// above [`MAX_RADIUS`].
    pub fn disc(level: u32, x: u16, y: u16, r: u32) -> Result<Stroke, StrokeError>
        ensures ok { IfOk result (λ s. s ≡ record { level = level; shape = Disc x y r }) }
        ensures canonical { IsOk result ↔ IsCanonical (record { level = level; shape = Disc x y r }) }
        ensures why { IfErr result (λ e. IsRefusal (record { level = level; shape = Disc x y r }) e) }
    {
        if !is_level(level) {
            return Err(StrokeError::BadLevel);
        }
        if r > MAX_RADIUS {
            return Err(StrokeError::BadRadius);
        }
        Ok(Stroke {
            level: level as u16,
            shape: Shape::Disc { x, y, r: r as u8 },
        })
    }

    /// The level, 1 to [`MAX_LEVEL`].
    pub fn level(&self) -> u16
        ensures value { result ≡ self.now.level }
        ensures canonical { IsCanonical self.now }
    {
        self.level
    }

    /// Of which kind the stroke is.
    pub fn kind(&self) -> Kind
        ensures value { result ≡ kind_of self.now.shape }
        ensures canonical { IsCanonical self.now }
    {
        match &self.shape {
            Shape::Runs(_) => Kind::Runs,
            Shape::Disc { x, y, r } => Kind::Disc {
                x: *x,
                y: *y,
                r: *r,
            },
        }
    }

    /// The runs, rising by row and then by column. A disc has none.
    pub fn runs(&self) -> &[Run]
        ensures values { result.now ≡ runs_of self.now.shape }
        ensures canonical { IsCanonical self.now }
    {
        match &self.shape {
            Shape::Runs(runs) => runs,
            Shape::Disc { .. } => &[],
        }
    }

    /// Whether the stroke is painted on the pixel.
    pub fn covers(&self, p: Pixel) -> bool
        ensures { result ≡ covers self.now p }
    {
        match &self.shape {
            Shape::Runs(runs) => is_in_runs(runs, p),
            Shape::Disc { x, y, r } => is_in_disc(*x, *y, *r, p),
        }
    }

    /// The number of spans: one for each run, or one for each row of a disc that is not above the image.
    #[tactic(auto, using(crate::proofs::SpanLemmas::run_count, crate::proofs::SpanLemmas::row_count))]
    pub fn span_count(&self) -> usize
        ensures { result ≡ length (spans_of self.now) }
    {
        match &self.shape {
            Shape::Runs(runs) => runs.len(),
            Shape::Disc { y, r, .. } => row_count(*y, *r),
        }
    }

    /// The span of this number, counted from 0. Together the spans have the pixels that the stroke covers, and
    /// no others ([`spans_cover`]). It takes no memory.
    ///
    /// No span is empty. In an image that the stroke fits, each span starts left of the right edge, and spans
    /// of runs lie inside. Spans of a disc may end beyond the right edge or lie below the image: the caller
    /// clips them.
    #[tactic(auto, using(crate::proofs::SpanLemmas::run_count, crate::proofs::SpanLemmas::row_count))]
    pub fn span(&self, i: usize) -> Span
        requires { i < length (spans_of self.now) }
        ensures value { slice_get (spans_of self.now) i ≡ Some result }
        ensures nonempty { result.first < result.end }
        ensures starts { (w h : ℕ) → Fits w h self.now → result.first < w }
        ensures inside { (w h : ℕ) → Fits w h self.now → kind_of self.now.shape ≡ Kind.Runs → SpanFits w h result }
    {
        match &self.shape {
            Shape::Runs(runs) => run_span(runs, i),
            Shape::Disc { x, y, r } => disc_span(*x, *y, *r, i),
        }
    }

    /// The number of the first span on this row or below it, or the number of spans where there is none. The rows
    /// of spans never fall, so that those on some rows next to each other are found without a walk.
    #[tactic(auto, using(crate::proofs::SpanLemmas::run_count, crate::proofs::SpanLemmas::row_count))]
    pub fn first_span_from(&self, row: u32) -> usize
        ensures within { result ≤ length (spans_of self.now) }
        ensures point { IsFirstFrom row (spans_of self.now) result }
    {
        match &self.shape {
            Shape::Runs(runs) => first_run_from(runs, row),
            Shape::Disc { x, y, r } => first_row_from(*x, *y, *r, row),
        }
    }

    /// Whether every run, or the centre of the disc, lies in an image of `w` columns and `h` rows.
    pub fn fits(&self, w: u32, h: u32) -> bool
        ensures { IsTrue result ↔ Fits w h self.now }
    {
        match &self.shape {
            Shape::Runs(runs) => runs
                .iter()
                .all(|run| u32::from(run.y) < h && u32::from(run.x1) < w),
            Shape::Disc { x, y, .. } => u32::from(*x) < w && u32::from(*y) < h,
        }
    }

    /// How many bytes the stroke takes in a frame, with its tag: 21 and 6 for each run, or 25 for a disc.
    pub fn byte_len(&self) -> usize
        ensures { result ≡ byte_len_of self.now.shape }
    {
        match &self.shape {
            Shape::Runs(runs) => 21 + 6 * runs.len(),
            Shape::Disc { .. } => 25,
        }
    }

    /// A stroke of the same level, kind and pixels.
    ///
    /// Errors: out of memory.
    pub fn copy(&self, alloc: Global) -> Result<Stroke, Memory>
        ensures { IfOk result (λ s. s ≡ self.now) }
    {
        let shape = match &self.shape {
            Shape::Runs(runs) => Shape::Runs(Vec::from_slice(alloc, runs)?),
            Shape::Disc { x, y, r } => Shape::Disc {
                x: *x,
                y: *y,
                r: *r,
            },
        };
        Ok(Stroke {
            level: self.level,
            shape,
        })
    }

    /// Whether both strokes have the same level, and the same runs or the same disc. A disc and runs over
    /// the same pixels are not the same.
    pub fn is_same(&self, other: &Stroke) -> bool
        ensures { IsTrue result ↔ (self.now ≡ other.now) }
    {
        self.level() == other.level() && self.kind() == other.kind() && self.runs() == other.runs()
    }
}

/// Whether a level may be a stroke's.
fn is_level(level: u32) -> bool
    ensures { IsTrue result ↔ ((1 ≤ level) × (level ≤ max_level)) }
{
    level >= 1 && level <= u32::from(MAX_LEVEL)
}

/// Whether some run has the pixel.
fn is_in_runs(runs: &[Run], p: Pixel) -> bool
    ensures { result ≡ shape_covers (Runs runs.now) p }
{
    runs.iter().any(|run| {
        u32::from(run.y) == p.y && u32::from(run.x0) <= p.x && p.x <= u32::from(run.x1)
    })
}

/// Whether a pixel lies at most `r` away from the pixel in column `x` and row `y`.
#[tactic(auto, using(crate::proofs::SeedLemmas::far_in_one_coordinate))]
fn is_in_disc(x: u16, y: u16, r: u8, p: Pixel) -> bool
    ensures { result ≡ shape_covers (Disc x y r) p }
{
    let dx = u32::from(x).abs_diff(p.x);
    let dy = u32::from(y).abs_diff(p.y);
    let r = u32::from(r);
    if dx > r || dy > r {
        return false;
    }
    dx * dx + dy * dy <= r * r
}

/// The span of one of the runs.
fn run_span(runs: &[Run], i: usize) -> Span
    requires { i < length runs.now }
    ensures { slice_get (spans_of_shape (Runs runs.now)) i ≡ Some result }
{
    Span::of_run(runs[i])
}

/// How many rows of a disc round a pixel of row `y` are not above the image.
fn row_count(y: u16, r: u8) -> usize
    ensures { result ≡ min y r + r + 1 }
{
    usize::from(y).min(usize::from(r)) + usize::from(r) + 1
}

/// The span of one of the rows of a disc.
#[tactic(auto, using(crate::proofs::SpanLemmas::span_of_row_at))]
fn disc_span(x: u16, y: u16, r: u8, i: usize) -> Span
    requires { i < min y r + r + 1 }
    ensures value { slice_get (spans_of_shape (Disc x y r)) i ≡ Some result }
    ensures column { (result.first ≤ x) × (x < result.end) }
{
    let top = u32::from(y).saturating_sub(u32::from(r));
    Span::of_row(x, y, r, top + i as u32)
}

/// The number of the first run on this row or below it, or the number of runs where there is none.
fn first_run_from(runs: &[Run], row: u32) -> usize
    requires { AreOrdered runs.now }
    ensures within { result ≤ length runs.now }
    ensures point { IsFirstFrom row (spans_of_shape (Runs runs.now)) result }
{
    runs.partition_point(|run| u32::from(run.y) < row)
}

/// How many rows of a disc that are not above the image are above this row.
fn first_row_from(x: u16, y: u16, r: u8, row: u32) -> usize
    ensures within { result ≤ min y r + r + 1 }
    ensures point { IsFirstFrom row (spans_of_shape (Disc x y r)) result }
{
    let top = u32::from(y).saturating_sub(u32::from(r));
    row_count(y, r).min(row.saturating_sub(top) as usize)
}

/// Why the level and the runs make no stroke, or `None` where they make one.
fn refusal(level: u32, runs: &[Run]) -> Option<StrokeError>
    ensures { MatchOption result (IsCanonical (seed_of level runs.now)) (IsRefusal (seed_of level runs.now)) }
{
    if !is_level(level) {
        Some(StrokeError::BadLevel)
    } else if runs.is_empty() {
        Some(StrokeError::NoRuns)
    } else if runs.len() > MAX_RUNS {
        Some(StrokeError::TooManyRuns)
    } else if !are_ordered(runs) {
        Some(StrokeError::RunOrder)
    } else {
        None
    }
}

/// Whether no run ends before it starts, and each is in order with the next.
fn are_ordered(runs: &[Run]) -> bool
    ensures { IsTrue result ↔ AreOrdered runs.now }
{
    let mut left = runs;
    while let [run, rest @ ..] = left {
        if run.x0 > run.x1 || !is_before(*run, rest) {
            return false;
        }
        left = rest;
    }
    true
}

/// Whether a run is in order with the first of the others, if there is one.
fn is_before(run: Run, others: &[Run]) -> bool
    ensures { IsTrue result ↔ IsBefore run others.now }
{
    match others.first() {
        Some(next) if run.y == next.y => u32::from(run.x1) + 1 < u32::from(next.x0),
        Some(next) => run.y < next.y,
        None => true,
    }
}

/// A level and a shape are refused for one reason only.
pub fn one_refusal()
    ensures { (s : Seed) (d e : StrokeError) → IsRefusal s d → IsRefusal s e → d ≡ e }
{}

/// A stroke covers the pixels of its spans, and no others.
#[tactic(auto, using(crate::proofs::SpanLemmas::spans_cover))]
pub fn spans_cover()
    ensures { (s : Seed) (p : Pixel) → covers s p ≡ list_any (λ span. span_has span p) (spans_of s) }
{}
