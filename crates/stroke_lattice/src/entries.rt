//! The walk over the strokes and then the tombstones of a state.

ghost use Rattle.std.specs.Prelude.{◌≡◌, ◌+◌, ◌≤◌, length};
ghost use Rattle.std.specs.Iterator.{at_most};
ghost use Rattle.std.specs.Map.Iter.{TakesFirst};
ghost use Rattle.stroke_lattice.specs.Pieces.{item_length};
ghost use Rattle.stroke_lattice.specs.Places.{items_in, item_of, place_of};

use crate::piece::Place;
use crate::split::{HEAD_BYTES, MIN_PIECE_BYTES, TOMBSTONE_BYTES};
use std::collections::{btree_map, btree_set};
use std::marker::Model;
use stroke_core::{Stroke, Tag};

/// A stroke under its tag, or a tombstone.
#[derive(Drop)]
pub(crate) enum Entry<'a> {
    Stroke(Tag, &'a Stroke),
    Tombstone(Tag),
}

impl<'a> Entry<'a> {
    /// Where it stands.
    pub(crate) fn place(&self) -> Place
        ensures { result ≡ place_of (item_of self.now) }
    {
        match self {
            Entry::Stroke(tag, _) => Place::Stroke(*tag),
            Entry::Tombstone(tag) => Place::Tombstone(*tag),
        }
    }

    /// How many bytes it takes in a frame.
    pub(crate) fn byte_len(&self) -> usize
        ensures bytes { result ≡ item_length (item_of self.now) }
        ensures small { HEAD_BYTES + result ≤ MIN_PIECE_BYTES }
    {
        match self {
            Entry::Stroke(_, stroke) => {
                let _ = stroke.level();
                stroke.byte_len()
            }
            Entry::Tombstone(_) => TOMBSTONE_BYTES,
        }
    }
}

/// Strokes with their tags and then tombstones, each rising by tag. It is seen as the list of those that are left.
#[derive(Drop)]
pub(crate) struct Items<'a> {
    strokes: btree_map::Range<'a, Tag, Stroke>,
    tombstones: btree_set::Range<'a, Tag>,
}

impl<'a> Model for Items<'a> {
    ghost use Rattle.std.specs.Prelude.{List};
    ghost use Rattle.stroke_lattice.specs.Pieces.{Item};
    ghost use Rattle.stroke_lattice.specs.Places.{items_in};

    ghost Value = { List Item };

    ghost view = { λ a. items_in a.strokes a.tombstones };
}

impl<'a> Items<'a> {
    pub(crate) fn new(
        strokes: btree_map::Range<'a, Tag, Stroke>,
        tombstones: btree_set::Range<'a, Tag>,
    ) -> Items<'a>
        ensures { result ≡ items_in strokes.entry tombstones.entry }
    {
        Items {
            strokes,
            tombstones,
        }
    }
}

impl<'a> Iterator for Items<'a> {
    type Item = Entry<'a>;

    ghost next_gives = { TakesFirst item_of };

    ghost remaining = { λ s. at_most (length s) };

    fn next(&mut self) -> Option<Entry<'a>> {
        if let Some((tag, stroke)) = self.strokes.next() {
            return Some(Entry::Stroke(*tag, stroke));
        }
        match self.tombstones.next() {
            Some(tag) => Some(Entry::Tombstone(*tag)),
            None => None,
        }
    }
}
