//! The walk over the live strokes of a state.

ghost use Rattle.std.specs.Prelude.{◌≡◌, ℕ, length, not};
ghost use Rattle.std.specs.BTreeSet.{contains};
ghost use Rattle.std.specs.Iterator.{at_most};
ghost use Rattle.std.specs.List.{filter};
ghost use Rattle.std.specs.Map.Iter.{TakesFirst, deref_pair};
ghost use Rattle.std.specs.Ordering.{nat_cmp};

use std::collections::{BTreeSet, btree_map};
use std::marker::Model;
use stroke_core::{Stroke, Tag};

/// The live strokes of a state with their tags, rising by tag. It is seen as the list of those that are left.
#[derive(Drop)]
pub struct Live<'a> {
    strokes: btree_map::Iter<'a, Tag, Stroke>,
    tombstones: &'a BTreeSet<Tag>,
}

impl<'a> Model for Live<'a> {
    ghost use Rattle.std.specs.Prelude.{ℕ, List, not};
    ghost use Rattle.std.specs.BTreeSet.{contains};
    ghost use Rattle.std.specs.List.{filter};
    ghost use Rattle.std.specs.Ordering.{nat_cmp};
    ghost use Rattle.stroke_core.specs.Seed.{Seed};

    ghost Value = { List (ℕ × Seed) };

    ghost view = { λ a. filter (λ e. not (contains nat_cmp a.tombstones.now e.0)) a.strokes };
}

impl<'a> Live<'a> {
    pub(crate) fn new(
        strokes: btree_map::Iter<'a, Tag, Stroke>,
        tombstones: &'a BTreeSet<Tag>,
    ) -> Live<'a>
        ensures { result ≡ filter (λ e. not (contains nat_cmp tombstones.now e.0)) strokes.entry }
    {
        Live {
            strokes,
            tombstones,
        }
    }
}

impl<'a> Iterator for Live<'a> {
    type Item = (&'a Tag, &'a Stroke);

    ghost next_gives = { TakesFirst deref_pair };

    ghost remaining = { λ s. at_most (length s) };

    fn next(&mut self) -> Option<(&'a Tag, &'a Stroke)> {
        while let Some((tag, stroke)) = self.strokes.next() {
            if !self.tombstones.contains(tag) {
                return Some((tag, stroke));
            }
        }
        None
    }
}
