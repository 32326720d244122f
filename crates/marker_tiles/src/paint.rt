//! Painting one stroke onto an image.

ghost use Rattle.std.specs.Prelude.{◌+◌, ◌*◌, ◌<◌, ◌≤◌, ◌&&◌, length};
ghost use Rattle.stroke_core.specs.Seed.{covers};
ghost use Rattle.stroke_core.specs.Spans.{span_has};
ghost use Rattle.marker_tiles.specs.Painting.{WindowFits, WindowsFit, HasRow, IsPaintedBy};
ghost use Rattle.grid_core.specs.Raster.{IsOfSize};
ghost use Rattle.grid_core.specs.Rects.{AreCellsChanged};
ghost use Rattle.marker_tiles.specs.Painting.{brushed_cells, in_window, in_some, is_between};

use crate::brush::{Brush, brush_row};
use crate::window::Window;
use grid_core::Grid;
use grid_core::laws::cells_given_back;
use stroke_core::{Span, Stroke, spans_cover};

/// Leads the brush over each pixel of one of the windows that the stroke covers.
pub(crate) fn paint_within(
    marker: &mut Grid,
    mask: &Grid,
    stroke: &Stroke,
    windows: &[Window],
    brush: Brush,
)
    requires size { IsOfSize mask.now marker.old }
    requires windows { WindowsFit mask.now.width mask.now.height windows.now }
    ensures { IsPaintedBy (λ p. in_some windows.now p && covers stroke.now p) brush mask.now marker.old marker.new }
{
    for window in windows {
        paint(marker, mask, stroke, *window, brush);
    }
}

/// Leads the brush over each pixel of the window that the stroke covers.
pub(crate) fn paint(marker: &mut Grid, mask: &Grid, stroke: &Stroke, window: Window, brush: Brush)
    requires size { IsOfSize mask.now marker.old }
    requires window { WindowFits mask.now.width mask.now.height window }
    ensures { IsPaintedBy (λ p. in_window window p && covers stroke.now p) brush mask.now marker.old marker.new }
{
    spans_cover();
    let from = stroke.first_span_from(window.top);
    let end = stroke.first_span_from(window.bottom);
    for i in from..end {
        paint_span(marker, mask, stroke.span(i), window, brush);
    }
}

// Leads the brush over each pixel of the window that the span has. It lies on a row of the window.
fn paint_span(marker: &mut Grid, mask: &Grid, span: Span, window: Window, brush: Brush)
    requires size { IsOfSize mask.now marker.old }
    requires row { HasRow window span.y }
    requires window { WindowFits mask.now.width mask.now.height window }
    ensures { IsPaintedBy (λ p. in_window window p && span_has span p) brush mask.now marker.old marker.new }
{
    let first = window.left.max(span.first);
    let end = window.right.min(span.end);
    paint_between(marker, mask, span.y, first, end, brush);
}

/// Leads the brush over the pixels of row `y` from column `first` up to column `end`, which is left out.
pub(crate) fn paint_between(
    marker: &mut Grid,
    mask: &Grid,
    y: u32,
    first: u32,
    end: u32,
    brush: Brush,
)
    requires size { IsOfSize mask.now marker.old }
    requires inside { (y < mask.now.height) × (end ≤ mask.now.width) }
    ensures { IsPaintedBy (is_between y first end) brush mask.now marker.old marker.new }
{
    if first < end {
        let start = y as usize * mask.width() as usize;
        paint_cells(
            marker,
            mask,
            start + first as usize,
            start + end as usize,
            brush,
        );
    }
}

// Leads the brush over the cells from `from` up to `to`, which is left out.
fn paint_cells(marker: &mut Grid, mask: &Grid, from: usize, to: usize, brush: Brush)
    requires size { IsOfSize mask.now marker.old }
    requires within { (from ≤ to) × (to ≤ length marker.old.cells) }
    ensures { AreCellsChanged from to (brushed_cells brush mask.now marker.old) marker.old marker.new }
{
    cells_given_back();
    let limits = &mask.cells()[from..to];
    let cells = marker.cells_mut();
    brush_row(&mut cells[from..to], limits, brush);
}
