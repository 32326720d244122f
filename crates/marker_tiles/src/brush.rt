//! What painting leaves on the values of a row.

ghost use Rattle.std.specs.Prelude.{◌≡◌, length};
ghost use Rattle.marker_tiles.specs.Painting.{AreBrushed};
ghost use Rattle.marker_tiles.specs.declared.brush.Brush.{Brush};

use stroke_core::Stroke;

/// What painting does to a value.
#[derive(Clone, Copy)]
pub(crate) enum Brush {
    /// Raises it to this level, as far as the mask lets it.
    Raise(u16),
    /// Makes it 0.
    Clear,
}

/// The brush that raises to the level of a stroke.
pub(crate) fn level_brush(stroke: &Stroke) -> Brush
    ensures { result ≡ Brush.Raise stroke.now.level }
{
    Brush::Raise(stroke.level())
}

/// Leads the brush over a row of values, under the mask's values there.
pub(crate) fn brush_row(row: &mut [u16], limits: &[u16], brush: Brush)
    requires { length limits.now ≡ length row.old }
    ensures { AreBrushed brush limits.now row.old row.new }
{
    match brush {
        Brush::Raise(level) => raise_row(row, limits, level),
        Brush::Clear => row.fill(0),
    }
}

// Raises each value to the level, as far as its limit lets it.
fn raise_row(row: &mut [u16], limits: &[u16], level: u16)
    requires { length limits.now ≡ length row.old }
    ensures { AreBrushed (Brush.Raise level) limits.now row.old row.new }
{
    for i in 0..row.len() {
        row[i] = row[i].max(limits[i].min(level));
    }
}
