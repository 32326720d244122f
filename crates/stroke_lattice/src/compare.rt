//! How two states stand to each other, and a state to an image. None of these takes memory.

ghost use Rattle.std.specs.Prelude.{◌≡◌, ℕ, ◌↔◌, IsTrue, MatchOption};
ghost use Rattle.stroke_lattice.specs.State.{HasStroke, HasTombstone, IsBelow, HasStrokesOf, HasOtherStroke};
ghost use Rattle.stroke_lattice.specs.State.{IsLeastClash, AreCompatible, StateFits, IsLeastOutside};

use crate::state::{Delta, State};
use stroke_core::{Stroke, Tag};

impl State {
    /// Whether each stroke and each tombstone stands in the other state too.
    pub fn is_below(&self, other: &State) -> bool
        ensures { IsTrue result ↔ IsBelow self.now other.now }
    {
        self.strokes_are_in(other) && self.tombstones_are_in(other)
    }

    /// Whether both states have the same strokes and the same tombstones.
    pub fn is_same(&self, other: &State) -> bool
        ensures { IsTrue result ↔ (self.now ≡ other.now) }
    {
        self.is_below(other) && other.is_below(self)
    }

    /// The least tag to which the two states give different strokes, if there is one.
    pub fn clash(&self, delta: &Delta) -> Option<Tag>
        ensures { MatchOption result (AreCompatible self.now delta.now) (IsLeastClash self.now delta.now) }
    {
        for (tag, stroke) in delta.strokes() {
            if self.has_other(*tag, stroke) {
                return Some(*tag);
            }
        }
        None
    }

    /// The least tag whose stroke, live or not, does not fit an image of `w` columns and `h` rows, if there
    /// is one.
    pub fn outside(&self, w: u32, h: u32) -> Option<Tag>
        ensures { MatchOption result (StateFits w h self.now) (IsLeastOutside w h self.now) }
    {
        for (tag, stroke) in self.strokes() {
            if !stroke.fits(w, h) {
                return Some(*tag);
            }
        }
        None
    }

    fn strokes_are_in(&self, other: &State) -> bool
        ensures { IsTrue result ↔ HasStrokesOf self.now other.now }
    {
        for (tag, stroke) in self.strokes() {
            if !other.has_same(*tag, stroke) {
                return false;
            }
        }
        true
    }

    fn tombstones_are_in(&self, other: &State) -> bool
        ensures { IsTrue result ↔ ((tag : ℕ) → HasTombstone self.now tag → HasTombstone other.now tag) }
    {
        for tag in self.tombstones() {
            if !other.has_tombstone(*tag) {
                return false;
            }
        }
        true
    }

    fn has_same(&self, tag: Tag, stroke: &Stroke) -> bool
        ensures { IsTrue result ↔ HasStroke self.now tag stroke.now }
    {
        match self.stroke(tag) {
            Some(held) => held.is_same(stroke),
            None => false,
        }
    }

    fn has_other(&self, tag: Tag, stroke: &Stroke) -> bool
        ensures { IsTrue result ↔ HasOtherStroke self.now tag stroke.now }
    {
        match self.stroke(tag) {
            Some(held) => !held.is_same(stroke),
            None => false,
        }
    }
}
