//! Values of an image that are taken over from the marker.

ghost use Rattle.std.specs.Prelude.{◌≡◌, ◌<◌, ◌↔◌, IsTrue, length, slice_index, EachIndex};
ghost use Rattle.grid_core.specs.Rects.{AreCellsChanged};
ghost use Rattle.stroke_core.specs.Spans.{span_has};
ghost use Rattle.core_rules.specs.Image.{IsOfSize};
ghost use Rattle.tile_work.specs.Renewing.{marker_value, greater_at, greater_value, made_at, IsMadeWhere, IsSpanIn};
ghost use Rattle.tile_work.specs.Renewing.{HaveCells, RisesWhere, SomeIsLess};

use grid_core::Grid;
use grid_core::laws::cells_given_back;
use stroke_core::Span;

/// Raises the image's values of a span to the marker's. Says whether one rose.
pub(crate) fn raise_span(image: &mut Grid, marker: &Grid, span: Span) -> bool
    requires size { IsOfSize marker.now image.old }
    requires span { IsSpanIn marker.now span }
    ensures values { IsMadeWhere (span_has span) greater_value marker.now image.old image.new }
    ensures rose { IsTrue result ↔ RisesWhere (span_has span) image.old image.new }
{
    let start = span.y as usize * marker.width() as usize;
    raise_cells(
        image,
        marker,
        start + span.first as usize,
        start + span.end as usize,
    )
}

/// Makes the image's cells from `from` up to `to`, which is left out, the marker's. Where they are so already, nothing
/// is written.
pub(crate) fn copy_cells(image: &mut Grid, marker: &Grid, from: usize, to: usize)
    requires { HaveCells from to marker.now image.old }
    ensures { AreCellsChanged from to (made_at marker_value marker.now image.old) image.old image.new }
{
    let values = &marker.cells()[from..to];
    if &image.cells()[from..to] == values {
        return;
    }
    write_cells(image, marker, from, to);
}

// Writes the marker's cells from `from` up to `to`, which is left out, over the image's.
fn write_cells(image: &mut Grid, marker: &Grid, from: usize, to: usize)
    requires { HaveCells from to marker.now image.old }
    ensures { AreCellsChanged from to (made_at marker_value marker.now image.old) image.old image.new }
{
    cells_given_back();
    let values = &marker.cells()[from..to];
    let cells = image.cells_mut();
    cells[from..to].copy_from_slice(values);
}

// Raises the image's cells from `from` up to `to`, which is left out, to the marker's. Says whether one rose.
fn raise_cells(image: &mut Grid, marker: &Grid, from: usize, to: usize) -> bool
    requires { HaveCells from to marker.now image.old }
    ensures values { AreCellsChanged from to (made_at greater_value marker.now image.old) image.old image.new }
    ensures rose { IsTrue result ↔ SomeIsLess from to image.old.cells marker.now.cells }
{
    cells_given_back();
    let values = &marker.cells()[from..to];
    let cells = image.cells_mut();
    raise_row(&mut cells[from..to], values)
}

// Raises each value of a row to the marker's. Says whether one rose.
fn raise_row(row: &mut [u16], marker: &[u16]) -> bool
    requires { length marker.now ≡ length row.old }
    ensures values { EachIndex row.new (λ k. slice_index row.new k ≡ greater_at row.old marker.now k) }
    ensures rose { IsTrue result ↔ SomeIsLess 0 (length row.old) row.old marker.now }
{
    let mut rose = false;
    for i in 0..row.len() {
        rose |= row[i] < marker[i];
        row[i] = row[i].max(marker[i]);
    }
    rose
}
