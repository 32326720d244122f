//! States: strokes and tombstones under tags.

ghost use Rattle.std.specs.Prelude.{◌≡◌, ℕ, ◌+◌, ◌<◌, ◌^◌, ◌↔◌, length, IsTrue, IsOk, IfOk, IfErr, OnOk, OnErr};
ghost use Rattle.std.specs.FinMap as map;
ghost use Rattle.std.specs.FinSet as set;
ghost use Rattle.std.specs.Map.Iter.{ShowsInOrder, deref, deref_pair};
ghost use Rattle.std.specs.Option.{option_copied};
ghost use Rattle.stroke_core.specs.Seed.{Seed};
ghost use Rattle.stroke_lattice.specs.State.{HasSomeStroke, HasTombstone, IsLiveTag, nothing, placed, withdrawn};
ghost use Rattle.stroke_lattice.specs.Walks.{AreStrokes, AreTombstones, AreLive};
ghost use Rattle.stroke_lattice.specs.Pieces.{items_of};
ghost use Rattle.stroke_lattice.specs.Places.{items_from};
ghost use Rattle.stroke_lattice.specs.declared.error.StateError.TheVariants as errors;

use crate::entries::Items;
use crate::error::{RefusedStroke, StateError};
use crate::live::Live;
use crate::piece::Place;
use grid_core::Memory;
use std::alloc::{AllocFailed, Global};
use std::collections::{BTreeMap, BTreeSet, btree_map, btree_set};
use std::marker::Model;
use stroke_core::{Stroke, Tag};

/// Strokes under their tags, and the tags that were withdrawn (tombstones). A tag is live where it has a
/// stroke and no tombstone. A tombstone may come before its stroke.
#[derive(Drop)]
pub struct State {
    strokes: BTreeMap<Tag, Stroke>,
    tombstones: BTreeSet<Tag>,
}

/// What is merged into a state: a state itself.
pub type Delta = State;

impl Model for State {
    ghost use Rattle.std.specs.FinMap as map;
    ghost use Rattle.std.specs.FinSet as set;
    ghost use Rattle.stroke_core.specs.contracts.stroke.Stroke as stroke;
    ghost use Rattle.stroke_lattice.specs.State.{State as Strokes};
    ghost use Rattle.stroke_lattice.specs.Stored.{state_code};

    ghost Value = { Strokes };

    ghost coded = { state_code stroke.the_row.coded };

    ghost view = { λ s. record {
      strokes = map.from_entries s.strokes.entries;
      tombstones = set.from_list s.tombstones.keys;
    } };
}

impl State {
    pub(crate) fn new(alloc: Global) -> State
        ensures { result ≡ nothing }
    {
        State {
            strokes: BTreeMap::new(alloc),
            tombstones: BTreeSet::new(alloc),
        }
    }

    /// The state without strokes and tombstones. It takes no memory, and never fails.
    pub fn empty(alloc: Global) -> Result<State, StateError>
        ensures always { IsOk result }
        ensures value { IfOk result (λ s. s ≡ nothing) }
    {
        Ok(State::new(alloc))
    }

    /// The state of one stroke.
    ///
    /// Errors: L2, with the stroke handed back.
    pub fn placed(alloc: Global, tag: Tag, stroke: Stroke) -> Result<State, RefusedStroke>
        ensures value { IfOk result (λ s. s ≡ placed tag stroke) }
        ensures memory { IfErr result (λ e. e.why ≡ errors.Memory) }
        ensures returned { IfErr result (λ e. e.stroke ≡ stroke) }
    {
        let mut state = State::new(alloc);
        match state.insert(tag, stroke) {
            Ok(()) => Ok(state),
            Err(refused) => Err(RefusedStroke {
                why: StateError::Memory,
                stroke: refused.value,
            }),
        }
    }

    /// The state of one tombstone.
    ///
    /// Errors: L2.
    pub fn withdrawn(alloc: Global, tag: Tag) -> Result<State, StateError>
        ensures value { IfOk result (λ s. s ≡ withdrawn tag) }
        ensures memory { IfErr result (λ e. e ≡ errors.Memory) }
    {
        let mut state = State::new(alloc);
        state.bury(tag)?;
        Ok(state)
    }

    /// The stroke of a tag, live or not.
    pub fn stroke(&self, tag: Tag) -> Option<&Stroke>
        ensures { option_copied result ≡ map.get self.now.strokes tag }
    {
        self.strokes.get(&tag)
    }

    /// Whether the tag has a stroke, live or not.
    pub fn has_stroke(&self, tag: Tag) -> bool
        ensures { IsTrue result ↔ HasSomeStroke self.now tag }
    {
        self.stroke(tag).is_some()
    }

    /// Whether the tag was withdrawn.
    pub fn has_tombstone(&self, tag: Tag) -> bool
        ensures { IsTrue result ↔ HasTombstone self.now tag }
    {
        self.tombstones.contains(&tag)
    }

    /// Whether the tag has a stroke and no tombstone.
    pub fn is_live(&self, tag: Tag) -> bool
        ensures { IsTrue result ↔ IsLiveTag self.now tag }
    {
        self.has_stroke(tag) && !self.has_tombstone(tag)
    }

    /// The strokes with their tags, live or not, rising by tag.
    pub fn strokes(&self) -> btree_map::Iter<'_, Tag, Stroke>
        ensures strokes { AreStrokes self.now result }
        ensures runs { ShowsInOrder (deref_pair {K = ℕ} {X = Seed}) }
    {
        self.strokes.iter()
    }

    /// The tombstones, rising.
    pub fn tombstones(&self) -> btree_set::Iter<'_, Tag>
        ensures tombstones { AreTombstones self.now result }
        ensures runs { ShowsInOrder (deref {X = ℕ}) }
    {
        self.tombstones.iter()
    }

    /// The live strokes with their tags, rising by tag.
    pub fn live(&self) -> Live<'_>
        ensures strokes { AreLive self.now result }
        ensures runs { ShowsInOrder (deref_pair {K = ℕ} {X = Seed}) }
    {
        Live::new(self.strokes.iter(), &self.tombstones)
    }

    /// The strokes with their tags and then the tombstones, each rising by tag.
    pub(crate) fn items(&self) -> Items<'_>
        ensures items { result ≡ items_of self.now }
        ensures counted { length result + 1 < 2 ^ 64 }
    {
        Items::new(self.strokes.range(..), self.tombstones.range(..))
    }

    /// The same from a place on.
    pub(crate) fn items_from(&self, place: Place) -> Items<'_>
        ensures { result ≡ items_from self.now place }
    {
        match place {
            Place::Stroke(tag) => Items::new(self.strokes.range(tag..), self.tombstones.range(..)),
            // No stroke stands behind a tombstone.
            Place::Tombstone(tag) => Items::new(
                self.strokes.range(tag..tag),
                self.tombstones.range(tag..),
            ),
        }
    }

    /// Puts a stroke under a tag that has none ([`State::has_stroke`] tells).
    ///
    /// Errors: want of memory, with the stroke handed back. The state is then unchanged.
    pub fn insert(&mut self, tag: Tag, stroke: Stroke) -> Result<(), AllocFailed<Stroke>>
        requires { HasSomeStroke self.old tag → ⊥ }
        ensures ok { OnOk result (self.new ≡ record self.old { strokes = map.insert self.old.strokes tag stroke }) }
        ensures err { OnErr result (self.new ≡ self.old) }
        ensures returned { IfErr result (λ e. e.value ≡ stroke) }
    {
        match self.strokes.insert(tag, stroke) {
            Ok(_) => Ok(()),
            Err(refused) => {
                let (_, value) = refused.value;
                Err(AllocFailed { value })
            }
        }
    }

    pub(crate) fn remove(&mut self, tag: Tag)
        ensures { self.new ≡ record self.old { strokes = map.remove self.old.strokes tag } }
    {
        self.strokes.remove(&tag);
    }

    /// Puts a tombstone under a tag that has none ([`State::has_tombstone`] tells).
    ///
    /// Errors: want of memory. The state is then unchanged.
    pub fn bury(&mut self, tag: Tag) -> Result<(), Memory>
        requires { HasTombstone self.old tag → ⊥ }
        ensures ok { OnOk result (self.new ≡ record self.old { tombstones = set.insert self.old.tombstones tag }) }
        ensures err { OnErr result (self.new ≡ self.old) }
    {
        self.tombstones.insert(tag)?;
        Ok(())
    }

    pub(crate) fn dig_up(&mut self, tag: Tag)
        ensures { self.new ≡ record self.old { tombstones = set.remove self.old.tombstones tag } }
    {
        self.tombstones.remove(&tag);
    }
}
