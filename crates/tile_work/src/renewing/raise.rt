//! The image raised to the marker where strokes lie.

ghost use Rattle.std.specs.Prelude.{◌≡◌, ◌+◌, ◌<◌, ◌≤◌, true, length};
ghost use Rattle.grid_core.specs.Tiles.{IsTiled, count_of};
ghost use Rattle.stroke_core.specs.Seed.{covers};
ghost use Rattle.stroke_core.specs.Spans.{span_has};
ghost use Rattle.stroke_lattice.specs.State.{StateFits};
ghost use Rattle.tile_work.specs.Renewing.{AreAtHand, AreCutAlike, IsPiece, IsRaisedWhere, IsRaisedByTags};
ghost use Rattle.tile_work.specs.Renewing.{AreRisesWithin, IsLowBeyond, span_bounds};

use crate::renewing::cells::raise_span;
use crate::{OpenBounds, WorkTable};
use grid_core::laws::each_pixel_in_one_tile;
use grid_core::{Bounds, Grid, Pixel, Tiling};
use stroke_core::{Span, Stroke, Tag, spans_cover};
use stroke_lattice::State;

// From so many tags on it costs less to look at each pixel of the image than at those of one stroke after another.
const MANY: usize = 256;

/// Raises the image to the marker where one of the strokes of these tags lies, and makes each tile dirty in which a
/// pixel rises. Each pixel that rises lies within the bounds of its tile. Elsewhere the marker has to be at most the
/// image.
///
/// It costs about the pixels that these strokes cover, or those of the image where there are many strokes.
pub fn raise_to_marker(
    image: &mut Grid,
    marker: &Grid,
    tiling: &Tiling,
    work: &mut WorkTable,
    bounds: &mut OpenBounds,
    state: &State,
    tags: &[Tag],
)
    requires parts { AreCutAlike tiling.now marker.now image.old work.old }
    requires fits { StateFits tiling.now.width tiling.now.height state.now }
    requires bounds { length bounds.old ≡ count_of tiling.now }
    requires low { IsLowBeyond state.now tags.now marker.now image.old }
    ensures raised { IsRaisedByTags tiling.now tags.now state.now marker.now image.old image.new work.old work.new }
    ensures bounds { AreRisesWithin tiling.now image.old image.new bounds.old bounds.new }
{
    if tags.len() < MANY {
        raise_under_each(image, marker, tiling, work, bounds, state, tags);
    } else {
        raise_everywhere(image, marker, tiling, work, bounds);
    }
}

// Raises the image where one stroke after another lies.
fn raise_under_each(
    image: &mut Grid,
    marker: &Grid,
    tiling: &Tiling,
    work: &mut WorkTable,
    bounds: &mut OpenBounds,
    state: &State,
    tags: &[Tag],
)
    requires parts { AreCutAlike tiling.now marker.now image.old work.old }
    requires fits { StateFits tiling.now.width tiling.now.height state.now }
    requires bounds { length bounds.old ≡ count_of tiling.now }
    ensures raised { IsRaisedByTags tiling.now tags.now state.now marker.now image.old image.new work.old work.new }
    ensures bounds { AreRisesWithin tiling.now image.old image.new bounds.old bounds.new }
{
    prove!(image.width() == marker.width());
    for tag in tags {
        if let Some(stroke) = state.stroke(*tag) {
            raise_stroke(image, marker, tiling, work, bounds, stroke);
        }
    }
}

// Raises the image at each of its pixels.
fn raise_everywhere(
    image: &mut Grid,
    marker: &Grid,
    tiling: &Tiling,
    work: &mut WorkTable,
    bounds: &mut OpenBounds,
)
    requires parts { AreCutAlike tiling.now marker.now image.old work.old }
    requires bounds { length bounds.old ≡ count_of tiling.now }
    ensures raised { IsRaisedWhere tiling.now (λ p. true) marker.now image.old image.new work.old work.new }
    ensures bounds { AreRisesWithin tiling.now image.old image.new bounds.old bounds.new }
{
    prove!(image.width() == marker.width());
    let end = tiling.width();
    for y in 0..tiling.height() {
        let row = Span { y, first: 0, end };
        raise_across(image, marker, tiling, work, bounds, row);
    }
}

// Raises the image where a stroke lies.
fn raise_stroke(
    image: &mut Grid,
    marker: &Grid,
    tiling: &Tiling,
    work: &mut WorkTable,
    bounds: &mut OpenBounds,
    stroke: &Stroke,
)
    requires at_hand { AreAtHand tiling.now marker.now image.old work.old }
    requires bounds { length bounds.old ≡ count_of tiling.now }
    ensures raised { IsRaisedWhere tiling.now (covers stroke.now) marker.now image.old image.new work.old work.new }
    ensures bounds { AreRisesWithin tiling.now image.old image.new bounds.old bounds.new }
{
    spans_cover();
    for i in 0..stroke.span_count() {
        raise_clipped(image, marker, tiling, work, bounds, stroke.span(i));
    }
}

// Raises the image where it has pixels of a span.
fn raise_clipped(
    image: &mut Grid,
    marker: &Grid,
    tiling: &Tiling,
    work: &mut WorkTable,
    bounds: &mut OpenBounds,
    span: Span,
)
    requires at_hand { AreAtHand tiling.now marker.now image.old work.old }
    requires bounds { length bounds.old ≡ count_of tiling.now }
    ensures raised { IsRaisedWhere tiling.now (span_has span) marker.now image.old image.new work.old work.new }
    ensures bounds { AreRisesWithin tiling.now image.old image.new bounds.old bounds.new }
{
    if span.y < tiling.height() {
        let clipped = Span {
            end: span.end.min(tiling.width()),
            ..span
        };
        raise_across(image, marker, tiling, work, bounds, clipped);
    }
}

// Raises the image on a span, which lies in it, in pieces of one tile.
fn raise_across(
    image: &mut Grid,
    marker: &Grid,
    tiling: &Tiling,
    work: &mut WorkTable,
    bounds: &mut OpenBounds,
    span: Span,
)
    requires at_hand { AreAtHand tiling.now marker.now image.old work.old }
    requires row { span.y < tiling.now.height }
    requires columns { span.end ≤ tiling.now.width }
    requires bounds { length bounds.old ≡ count_of tiling.now }
    ensures raised { IsRaisedWhere tiling.now (span_has span) marker.now image.old image.new work.old work.new }
    ensures bounds { AreRisesWithin tiling.now image.old image.new bounds.old bounds.new }
{
    let side = tiling.side();
    let mut first = span.first;
    while first < span.end {
        let end = span.end.min((first / side + 1) * side);
        let piece = Span {
            y: span.y,
            first,
            end,
        };
        raise_piece(image, marker, tiling, work, bounds, piece);
        first = end;
    }
}

// Raises the image on a span that lies in one tile.
fn raise_piece(
    image: &mut Grid,
    marker: &Grid,
    tiling: &Tiling,
    work: &mut WorkTable,
    bounds: &mut OpenBounds,
    piece: Span,
)
    requires at_hand { AreAtHand tiling.now marker.now image.old work.old }
    requires tiled { IsTiled tiling.now }
    requires piece { IsPiece tiling.now piece }
    requires bounds { length bounds.old ≡ count_of tiling.now }
    ensures raised { IsRaisedWhere tiling.now (span_has piece) marker.now image.old image.new work.old work.new }
    ensures bounds { AreRisesWithin tiling.now image.old image.new bounds.old bounds.new }
{
    each_pixel_in_one_tile();
    if raise_span(image, marker, piece) {
        let corner = Pixel {
            x: piece.first,
            y: piece.y,
        };
        let tile = tiling.tile_of(corner);
        work.mark_dirty(tile);
        bounds.widen(tile, bounds_of_span(piece));
    }
}

// The bounds of the pixels of a span.
fn bounds_of_span(span: Span) -> Bounds
    requires { span.y + 1 < 4294967296 }
    ensures { result ≡ span_bounds span }
{
    Bounds {
        left: span.first,
        right: span.end,
        top: span.y,
        bottom: span.y + 1,
    }
}
