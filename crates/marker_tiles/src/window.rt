//! The part of an image that is painted.

ghost use Rattle.std.specs.Prelude.{IsTrue};
ghost use Rattle.std.specs.List.{list_any};
ghost use Rattle.grid_core.specs.declared.pixel.Pixel.{Pixel};
ghost use Rattle.grid_core.specs.Raster.{IsInside};
ghost use Rattle.stroke_core.specs.Seed.{covers, run_covers, disc_covers};
ghost use Rattle.marker_tiles.specs.Painting.{WindowFits, IncludesOn, in_window};

use grid_core::Grid;
use stroke_core::{Kind, Run, Stroke};

/// The columns from `left` up to `right` and the rows from `top` up to `bottom`; `right` and `bottom` are left
/// out. Where an end is not above its start, the window has no pixel.
#[derive(Clone, Copy)]
pub(crate) struct Window {
    pub(crate) left: u32,
    pub(crate) right: u32,
    pub(crate) top: u32,
    pub(crate) bottom: u32,
}

impl Window {
    /// The window with all pixels of an image.
    pub(crate) fn whole(image: &Grid) -> Window
        ensures fits { WindowFits image.now.width image.now.height result }
        ensures all { (p : Pixel) → IsInside image.now.width image.now.height p → IsTrue (in_window result p) }
    {
        Window {
            left: 0,
            right: image.width(),
            top: 0,
            bottom: image.height(),
        }
    }

    /// A window with no pixel.
    pub(crate) fn empty() -> Window {
        Window {
            left: u32::MAX,
            right: 0,
            top: u32::MAX,
            bottom: 0,
        }
    }

    /// The least window with the pixels of both.
    pub(crate) fn joined(self, other: Window) -> Window
        ensures first { (p : Pixel) → IsTrue (in_window self p) → IsTrue (in_window result p) }
        ensures second { (p : Pixel) → IsTrue (in_window other p) → IsTrue (in_window result p) }
    {
        Window {
            left: self.left.min(other.left),
            right: self.right.max(other.right),
            top: self.top.min(other.top),
            bottom: self.bottom.max(other.bottom),
        }
    }

    /// The window without what lies outside the image.
    pub(crate) fn cut_to(self, image: &Grid) -> Window
        ensures fits { WindowFits image.now.width image.now.height result }
        ensures kept { IncludesOn image.now (in_window self) (in_window result) }
    {
        Window {
            left: self.left,
            right: self.right.min(image.width()),
            top: self.top,
            bottom: self.bottom.min(image.height()),
        }
    }

    /// The least window with the pixels that a stroke covers; of a disc, no pixel left of or above the image.
    pub(crate) fn round(stroke: &Stroke) -> Window
        ensures { (p : Pixel) → IsTrue (covers stroke.now p) → IsTrue (in_window result p) }
    {
        match stroke.kind() {
            Kind::Runs => Window::round_runs(stroke.runs()),
            Kind::Disc { x, y, r } => Window::round_disc(x, y, r),
        }
    }

    // The least window with the pixels of the runs.
    fn round_runs(runs: &[Run]) -> Window
        ensures { (p : Pixel) → IsTrue (list_any (λ run. run_covers run p) runs.now) → IsTrue (in_window result p) }
    {
        let mut window = Window::empty();
        for run in runs {
            window = window.joined(Window::round_run(*run));
        }
        window
    }

    // The window with the pixels of the run.
    fn round_run(run: Run) -> Window
        ensures { (p : Pixel) → IsTrue (run_covers run p) → IsTrue (in_window result p) }
    {
        let y = u32::from(run.y);
        Window {
            left: u32::from(run.x0),
            right: u32::from(run.x1) + 1,
            top: y,
            bottom: y + 1,
        }
    }

    // The least window with the pixels of the disc.
    fn round_disc(x: u16, y: u16, r: u8) -> Window
        ensures { (p : Pixel) → IsTrue (disc_covers x y r p) → IsTrue (in_window result p) }
    {
        let (x, y, r) = (u32::from(x), u32::from(y), u32::from(r));
        Window {
            left: x.saturating_sub(r),
            right: x + r + 1,
            top: y.saturating_sub(r),
            bottom: y + r + 1,
        }
    }
}
