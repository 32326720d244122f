//! Merging: the least state above a state and a delta.

ghost use Rattle.std.specs.Prelude.{◌≡◌, ℕ, ◌↔◌, IfOk, IfErr, OnOk, OnErr, IsErrOf};
ghost use Rattle.stroke_lattice.specs.State.{IsJoin, IsLeastClash, AreCompatible};
ghost use Rattle.stroke_lattice.specs.Change.{IsChange};
ghost use Rattle.stroke_lattice.specs.Growth.{IsBetween, HasTagsOf, HasTombstonesOf};
ghost use Rattle.stroke_lattice.specs.Growth.{IsWithoutStrokes, IsWithoutTombstones};
ghost use Rattle.stroke_lattice.specs.declared.error.StateError.TheVariants as errors;

use crate::change::Change;
use crate::error::StateError;
use crate::state::{Delta, State};
use grid_core::Memory;
use std::alloc::Global;
use stroke_core::Tag;

impl State {
    /// Makes the state the least one above itself and the delta, in a time of about the delta's size times
    /// the logarithm of the state's.
    ///
    /// Errors: L1 with the least tag to which the two give different strokes, else L2. The state is then as
    /// it was.
    pub fn merge(&mut self, alloc: Global, delta: &Delta) -> Result<Change, StateError>
        ensures join { OnOk result (IsJoin self.old delta.now self.new) }
        ensures change { IfOk result (IsChange self.old self.new) }
        ensures conflict { (tag : ℕ) → IsErrOf result (StateError.Conflict tag) ↔ IsLeastClash self.old delta.now tag }
        ensures memory { IsErrOf result StateError.Memory → AreCompatible self.old delta.now }
        ensures err { OnErr result (self.new ≡ self.old) }
    {
        match self.clash(delta) {
            Some(tag) => Err(StateError::Conflict(tag)),
            None => Ok(self.join(alloc, delta)?),
        }
    }

    /// Merges a delta that does not clash, as [`State::clash`] tells. It is [`State::merge`] without that search.
    ///
    /// Errors: want of memory. The state is then as it was.
    pub fn join(&mut self, alloc: Global, delta: &Delta) -> Result<Change, Memory>
        requires { AreCompatible self.old delta.now }
        ensures join { OnOk result (IsJoin self.old delta.now self.new) }
        ensures change { IfOk result (IsChange self.old self.new) }
        ensures err { OnErr result (self.new ≡ self.old) }
    {
        let born = self.births(alloc, delta)?;
        let dead = self.deaths(alloc, delta)?;
        self.take_in(alloc, delta)?;
        Ok(Change::new(born, dead))
    }

    /// A state with the same strokes and the same tombstones.
    ///
    /// Errors: L2.
    pub fn copy(&self, alloc: Global) -> Result<State, StateError>
        ensures value { IfOk result (λ s. s ≡ self.now) }
        ensures memory { IfErr result (λ e. e ≡ errors.Memory) }
    {
        let mut copy = State::new(alloc);
        copy.grow(alloc, self)?;
        Ok(copy)
    }

    /// Takes a delta in that does not clash. Where memory runs out, what was taken goes out again.
    fn take_in(&mut self, alloc: Global, delta: &Delta) -> Result<(), Memory>
        requires { AreCompatible self.old delta.now }
        ensures join { OnOk result (IsJoin self.old delta.now self.new) }
        ensures err { OnErr result (self.new ≡ self.old) }
    {
        let strokes = self.new_strokes(alloc, delta)?;
        let tombstones = self.new_tombstones(alloc, delta)?;
        match self.grow(alloc, delta) {
            Ok(()) => Ok(()),
            Err(e) => {
                self.remove_strokes(&strokes);
                self.remove_tombstones(&tombstones);
                Err(e)
            }
        }
    }

    /// Takes what is new in the delta. Where memory runs out, what was taken so far stays.
    fn grow(&mut self, alloc: Global, delta: &Delta) -> Result<(), Memory>
        ensures between { IsBetween self.old delta.now self.new }
        ensures strokes { OnOk result (HasTagsOf self.new delta.now) }
        ensures tombstones { OnOk result (HasTombstonesOf self.new delta.now) }
    {
        self.take_strokes(alloc, delta)?;
        self.take_tombstones(delta)
    }

    fn take_strokes(&mut self, alloc: Global, delta: &Delta) -> Result<(), Memory>
        ensures between { IsBetween self.old delta.now self.new }
        ensures strokes { OnOk result (HasTagsOf self.new delta.now) }
    {
        for (tag, stroke) in delta.strokes() {
            if !self.has_stroke(*tag) {
                self.insert(*tag, stroke.copy(alloc)?)?;
            }
        }
        Ok(())
    }

    fn take_tombstones(&mut self, delta: &Delta) -> Result<(), Memory>
        ensures between { IsBetween self.old delta.now self.new }
        ensures strokes { self.new.strokes ≡ self.old.strokes }
        ensures tombstones { OnOk result (HasTombstonesOf self.new delta.now) }
    {
        for tag in delta.tombstones() {
            if !self.has_tombstone(*tag) {
                self.bury(*tag)?;
            }
        }
        Ok(())
    }

    fn remove_strokes(&mut self, tags: &[Tag])
        ensures { IsWithoutStrokes tags.now self.old self.new }
    {
        for tag in tags {
            self.remove(*tag);
        }
    }

    fn remove_tombstones(&mut self, tags: &[Tag])
        ensures { IsWithoutTombstones tags.now self.old self.new }
    {
        for tag in tags {
            self.dig_up(*tag);
        }
    }
}
