//! What one line spells: the delta of one stroke or of one tombstone.

ghost use Rattle.std.specs.Prelude.{◌≡◌, ◌↔◌, IsTrue, IfOk, OnOk, OnErr, MatchOption};
ghost use Rattle.stroke_lattice.specs.State.{placed, withdrawn, StateFits, IsLeastOutside};
ghost use Rattle.stroke_lattice.specs.State.{AreCompatible, IsLeastClash, IsJoin, HasOtherStroke};

use grid_core::Memory;
use std::alloc::Global;
use std::marker::Model;
use stroke_core::{Stroke, Tag};
use stroke_lattice::State;

/// The delta of one line: one stroke, or one tombstone. It is seen as the state that it makes, and takes no memory
/// besides the stroke's, where a [`State`] has room for further strokes.
#[derive(Drop)]
pub struct LineDelta {
    tag: Tag,
    stroke: Option<Stroke>,
}

impl Model for LineDelta {
    ghost use Rattle.stroke_core.specs.contracts.stroke.Stroke as seeds;
    ghost use Rattle.stroke_lattice.specs.State.{State as Strokes};
    ghost use Rattle.stroke_lattice.specs.Stored.{state_code};
    ghost use Rattle.edit_lang.specs.Held.{held};

    ghost Value = { Strokes };

    ghost coded = { state_code seeds.the_row.coded };

    ghost view = { λ delta. held delta.tag delta.stroke };
}

impl LineDelta {
    pub(crate) fn placed(tag: Tag, stroke: Stroke) -> LineDelta
        ensures { result ≡ placed tag stroke }
    {
        LineDelta {
            tag,
            stroke: Some(stroke),
        }
    }

    pub(crate) fn withdrawn(tag: Tag) -> LineDelta
        ensures { result ≡ withdrawn tag }
    {
        LineDelta { tag, stroke: None }
    }

    /// The same as a state.
    ///
    /// Errors: out of memory.
    pub fn to_state(&self, alloc: Global) -> Result<State, Memory>
        ensures { IfOk result (λ state. state ≡ self.now) }
    {
        match &self.stroke {
            Some(stroke) => match State::placed(alloc, self.tag, stroke.copy(alloc)?) {
                Ok(state) => Ok(state),
                Err(_) => Err(Memory),
            },
            None => match State::withdrawn(alloc, self.tag) {
                Ok(state) => Ok(state),
                Err(_) => Err(Memory),
            },
        }
    }

    /// The tag, where its stroke does not fit an image of `w` columns and `h` rows. It takes no memory.
    pub fn outside(&self, w: u32, h: u32) -> Option<Tag>
        ensures { MatchOption result (StateFits w h self.now) (IsLeastOutside w h self.now) }
    {
        match &self.stroke {
            Some(stroke) => {
                if stroke.fits(w, h) {
                    return None;
                }
                Some(self.tag)
            }
            None => None,
        }
    }

    /// The tag, where the state has another stroke under it. It takes no memory.
    pub fn clash(&self, state: &State) -> Option<Tag>
        ensures { MatchOption result (AreCompatible state.now self.now) (IsLeastClash state.now self.now) }
    {
        match &self.stroke {
            Some(stroke) => {
                if has_other(state, self.tag, stroke) {
                    return Some(self.tag);
                }
                None
            }
            None => None,
        }
    }

    /// Merges the delta into a state with which it does not clash ([`LineDelta::clash`] tells).
    ///
    /// Errors: want of memory. The state is then as it was.
    pub fn join_into(&self, alloc: Global, state: &mut State) -> Result<(), Memory>
        requires { AreCompatible state.old self.now }
        ensures join { OnOk result (IsJoin state.old self.now state.new) }
        ensures err { OnErr result (state.new ≡ state.old) }
    {
        match &self.stroke {
            Some(stroke) => place(alloc, state, self.tag, stroke),
            None => withdraw(state, self.tag),
        }
    }
}

// Whether the state has another stroke than this under the tag.
fn has_other(state: &State, tag: Tag, stroke: &Stroke) -> bool
    ensures { IsTrue result ↔ HasOtherStroke state.now tag stroke.now }
{
    match state.stroke(tag) {
        Some(held) => !held.is_same(stroke),
        None => false,
    }
}

// Puts a copy of a stroke under its tag, if there is none yet.
fn place(alloc: Global, state: &mut State, tag: Tag, stroke: &Stroke) -> Result<(), Memory>
    requires { AreCompatible state.old (placed tag stroke.now) }
    ensures join { OnOk result (IsJoin state.old (placed tag stroke.now) state.new) }
    ensures err { OnErr result (state.new ≡ state.old) }
{
    if state.has_stroke(tag) {
        return Ok(());
    }
    let copy = stroke.copy(alloc)?;
    state.insert(tag, copy)?;
    Ok(())
}

// Puts a tombstone under a tag, if there is none yet.
fn withdraw(state: &mut State, tag: Tag) -> Result<(), Memory>
    ensures join { OnOk result (IsJoin state.old (withdrawn tag) state.new) }
    ensures err { OnErr result (state.new ≡ state.old) }
{
    if state.has_tombstone(tag) {
        return Ok(());
    }
    state.bury(tag)
}
