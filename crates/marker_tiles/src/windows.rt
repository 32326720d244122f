//! A few windows.

ghost use Rattle.std.specs.Prelude.{◌≡◌, ◌<◌, ◌++◌, ◌∷◌, [], length};

use crate::window::Window;
use std::marker::Model;

/// The greatest number of windows that are told apart.
pub(crate) const MOST_WINDOWS: usize = 16;

/// Up to [`MOST_WINDOWS`] windows.
#[derive(Drop)]
pub(crate) struct Windows {
    windows: [Window; MOST_WINDOWS],
    len: usize,
}

impl Model for Windows {
    ghost use Rattle.std.specs.Prelude.{◌≤◌, List, take};
    ghost use Rattle.marker_tiles.specs.declared.window.Window.{Window};
    ghost use Rattle.marker_tiles.specs.declared.windows.TheConstants.{MOST_WINDOWS};

    ghost Value = { List Window };

    ghost view = { λ w. take w.len w.windows };

    ghost invariant = { λ w. w.len ≤ MOST_WINDOWS };
}

impl Windows {
    /// No window.
    pub(crate) fn none() -> Windows
        ensures { result ≡ [] }
    {
        Windows {
            windows: [Window::empty(); MOST_WINDOWS],
            len: 0,
        }
    }

    /// Adds a window.
    pub(crate) fn push(&mut self, window: Window)
        requires { length self.old < MOST_WINDOWS }
        ensures { self.new ≡ self.old ++ window ∷ [] }
    {
        self.windows[self.len] = window;
        self.len += 1;
    }

    /// The windows, in the order in which they were added.
    pub(crate) fn as_slice(&self) -> &[Window]
        ensures { result.now ≡ self.now }
    {
        &self.windows[..self.len]
    }
}
