//! The tiles in which a stroke dies.

ghost use Rattle.std.specs.Prelude.{IsTrue};
ghost use Rattle.stroke_core.specs.Seed.{covers};
ghost use Rattle.stroke_core.specs.Spans.{span_has};
ghost use Rattle.tile_work.specs.Marks.{Adds, AreMarks, LosesStrokeTo, IsUnderLive};
ghost use Rattle.core_rules.specs.Hits.{HoldsOne};

use crate::TileSet;
use crate::hits::marking::mark;
use grid_core::laws::each_pixel_in_one_tile;
use grid_core::{Pixel, Tiling};
use stroke_core::{Span, Stroke, Tag, spans_cover};
use stroke_lattice::{Delta, State};

/// Marks each tile with a pixel that a stroke covers which is live and for which the delta has a tombstone.
pub(super) fn mark_losses(
    marks: &mut TileSet,
    queue: &mut TileSet,
    tiling: &Tiling,
    state: &State,
    delta: &Delta,
)
    requires { AreMarks tiling.now marks.old queue.old }
    ensures { Adds (HoldsOne tiling.now (LosesStrokeTo state.now delta.now)) marks.old queue.old marks.new queue.new }
{
    for tag in delta.tombstones() {
        mark_lost(marks, queue, tiling, state, *tag);
    }
}

// Marks each tile with a pixel that the stroke of the tag covers, if it is live.
fn mark_lost(marks: &mut TileSet, queue: &mut TileSet, tiling: &Tiling, state: &State, tag: Tag)
    requires { AreMarks tiling.now marks.old queue.old }
    ensures { Adds (HoldsOne tiling.now (IsUnderLive state.now tag)) marks.old queue.old marks.new queue.new }
{
    if state.has_tombstone(tag) {
        return;
    }
    if let Some(stroke) = state.stroke(tag) {
        mark_stroke(marks, queue, tiling, stroke);
    }
}

// Marks each tile with a pixel that the stroke covers.
fn mark_stroke(marks: &mut TileSet, queue: &mut TileSet, tiling: &Tiling, stroke: &Stroke)
    requires { AreMarks tiling.now marks.old queue.old }
    ensures { Adds (HoldsOne tiling.now (λ p. IsTrue (covers stroke.now p))) marks.old queue.old marks.new queue.new }
{
    spans_cover();
    for i in 0..stroke.span_count() {
        mark_span(marks, queue, tiling, stroke.span(i));
    }
}

// Marks each tile with a pixel of the span.
fn mark_span(marks: &mut TileSet, queue: &mut TileSet, tiling: &Tiling, span: Span)
    requires { AreMarks tiling.now marks.old queue.old }
    ensures { Adds (HoldsOne tiling.now (λ p. IsTrue (span_has span p))) marks.old queue.old marks.new queue.new }
{
    each_pixel_in_one_tile();
    if span.y >= tiling.height() {
        return;
    }
    let side = tiling.side();
    let end = span.end.min(tiling.width());
    let mut x = span.first;
    while x < end {
        mark(marks, queue, tiling.tile_of(Pixel { x, y: span.y }));
        x = (x / side + 1) * side;
    }
}
