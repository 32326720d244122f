//! Painting the strokes of a state onto an image.

ghost use Rattle.std.specs.Prelude.{IsTrue};
ghost use Rattle.std.specs.FinMap as map;
ghost use Rattle.grid_core.specs.declared.pixel.Pixel.{Pixel};
ghost use Rattle.grid_core.specs.Raster.{IsOfSize};
ghost use Rattle.marker_tiles.specs.Painting.{WindowsFit, IncludesOn, in_window, in_some};
ghost use Rattle.marker_tiles.specs.UnderTags.{IsRaisedBy, IsClearedOf, IsRaisedByLive, covers_if, some_covers};

use crate::brush::{Brush, level_brush};
use crate::many::raise_by_many;
use crate::paint::{paint, paint_within};
use crate::window::Window;
use crate::windows::{MOST_WINDOWS, Windows};
use grid_core::Grid;
use stroke_core::Tag;
use stroke_lattice::State;

// From so many tags on it pays to look first which blocks of the image single strokes cover whole.
const MANY: usize = 256;

/// Raises the image by the strokes under these tags, as far as the mask lets it.
pub(crate) fn raise_by(image: &mut Grid, mask: &Grid, state: &State, tags: &[Tag])
    requires size { IsOfSize mask.now image.old }
    ensures { IsRaisedBy state.now tags.now mask.now image.old image.new }
{
    if tags.len() < MANY {
        raise_by_each(image, mask, state, tags);
    } else {
        raise_by_many(image, mask, state, tags);
    }
}

// Raises it by one stroke after the other.
fn raise_by_each(image: &mut Grid, mask: &Grid, state: &State, tags: &[Tag])
    requires size { IsOfSize mask.now image.old }
    ensures { IsRaisedBy state.now tags.now mask.now image.old image.new }
{
    let whole = Window::whole(mask);
    for tag in tags {
        if let Some(stroke) = state.stroke(*tag) {
            paint(image, mask, stroke, whole, level_brush(stroke));
        }
    }
}

/// Makes the image 0 where a stroke under these tags covers it.
pub(crate) fn clear_of(image: &mut Grid, mask: &Grid, state: &State, tags: &[Tag])
    requires size { IsOfSize mask.now image.old }
    ensures { IsClearedOf state.now tags.now mask.now image.old image.new }
{
    let whole = Window::whole(mask);
    for tag in tags {
        if let Some(stroke) = state.stroke(*tag) {
            paint(image, mask, stroke, whole, Brush::Clear);
        }
    }
}

/// Raises the image within the windows by all live strokes, as far as the mask lets it.
pub(crate) fn raise_by_live(image: &mut Grid, mask: &Grid, state: &State, windows: &[Window])
    requires size { IsOfSize mask.now image.old }
    requires windows { WindowsFit mask.now.width mask.now.height windows.now }
    ensures { IsRaisedByLive state.now windows.now mask.now image.old image.new }
{
    for (_, stroke) in state.live() {
        paint_within(image, mask, stroke, windows, level_brush(stroke));
    }
}

/// Windows with the pixels of the image that the strokes under these tags cover: one round each stroke, or one
/// round all where they are more than [`MOST_WINDOWS`].
pub(crate) fn windows_round(mask: &Grid, state: &State, tags: &[Tag]) -> Windows
    ensures fit { WindowsFit mask.now.width mask.now.height result }
    ensures covered { IncludesOn mask.now (some_covers state.now tags.now) (in_some result) }
{
    let mut windows = Windows::none();
    if tags.len() > MOST_WINDOWS {
        windows.push(window_round_all(state, tags).cut_to(mask));
        return windows;
    }
    for tag in tags {
        windows.push(window_round(state, *tag).cut_to(mask));
    }
    windows
}

// The least window round the strokes under these tags.
fn window_round_all(state: &State, tags: &[Tag]) -> Window
    ensures { (p : Pixel) → IsTrue (some_covers state.now tags.now p) → IsTrue (in_window result p) }
{
    let mut window = Window::empty();
    for tag in tags {
        window = window.joined(window_round(state, *tag));
    }
    window
}

// The least window round the stroke under a tag.
fn window_round(state: &State, tag: Tag) -> Window
    ensures { (p : Pixel) → IsTrue (covers_if (map.get state.now.strokes tag) p) → IsTrue (in_window result p) }
{
    match state.stroke(tag) {
        Some(stroke) => Window::round(stroke),
        None => Window::empty(),
    }
}
