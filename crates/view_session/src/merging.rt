//! Merging deltas, one after another, into the state of an image.

ghost use Rattle.std.specs.Prelude.{◌++◌, ◌∷◌, [], IfOk, IfErr, OnOk, map};
ghost use Rattle.stroke_lattice.specs.State.{State, StateFits, IsJoin};
ghost use Rattle.view_session.specs.Merging.{AreMerged, IsStop, IsKeptOut, LeadsOn, StopsBehind};

use core_rules::CoreError;
use edit_lang::LineDelta;
use spd_codec::Frame;
use std::alloc::Global;
use std::slice;
use stroke_lattice::{Delta, State, join_of_a_longer_list, join_of_an_empty_list};

/// What has a delta: a delta itself, the delta of a line, or a frame of a state file.
pub trait HasDelta {
    // The delta.
    ghost delta_of: { Self → State };

    /// Merges the delta into the state of an image of `w` columns and `h` rows.
    ///
    /// Errors: C1 where a stroke of it does not fit, live or not, else C2 where another stroke of the state has one of
    /// its tags, else C4.
    fn merge_into(&self, alloc: Global, state: &mut State, w: u32, h: u32) -> Result<(), CoreError>
        ensures fits { OnOk result (StateFits w h (delta_of self.now)) }
        ensures join { OnOk result (IsJoin state.old (delta_of self.now) state.new) }
        ensures refused { IfErr result (λ e. IsKeptOut w h state.old (delta_of self.now) e) };
}

impl HasDelta for State {
    ghost delta_of = { λ s. s };

    fn merge_into(
        &self,
        alloc: Global,
        state: &mut State,
        w: u32,
        h: u32,
    ) -> Result<(), CoreError> {
        merge_one(alloc, state, self, w, h)
    }
}

impl HasDelta for Frame {
    ghost delta_of = { λ frame. frame.delta };

    fn merge_into(
        &self,
        alloc: Global,
        state: &mut State,
        w: u32,
        h: u32,
    ) -> Result<(), CoreError> {
        merge_one(alloc, state, &self.delta, w, h)
    }
}

impl HasDelta for LineDelta {
    ghost delta_of = { λ line. line };

    fn merge_into(
        &self,
        alloc: Global,
        state: &mut State,
        w: u32,
        h: u32,
    ) -> Result<(), CoreError> {
        if let Some(tag) = self.outside(w, h) {
            return Err(CoreError::OutOfImage(tag));
        }
        if let Some(tag) = self.clash(state) {
            return Err(CoreError::Conflict(tag));
        }
        self.join_into(alloc, state)?;
        Ok(())
    }
}

/// The state of old deltas and of those of lines, merged in order, for an image of `w` columns and `h` rows. It takes a
/// time of about the size of the deltas times the logarithm of the state's.
///
/// Errors, at the first delta that meets one: C1 where a stroke of it does not fit, live or not, else C2 where another
/// stroke of the state has one of its tags, else C4.
pub fn merge_all<D: HasDelta>(
    alloc: Global,
    old: &[D],
    deltas: &[LineDelta],
    w: u32,
    h: u32,
) -> Result<State, CoreError>
    ensures merged { IfOk result (AreMerged w h (map D.delta_of old.now ++ deltas.now)) }
    ensures stopped { IfErr result (IsStop w h (map D.delta_of old.now ++ deltas.now)) }
{
    join_of_an_empty_list();
    let mut state = State::empty(alloc)?;
    merge_each(alloc, &mut state, old, w, h)?;
    merge_each(alloc, &mut state, deltas, w, h)?;
    Ok(state)
}

/// The state of old deltas, and of another state behind them, for an image of `w` columns and `h` rows.
///
/// Errors: as [`merge_all`].
pub fn merge_behind<D: HasDelta>(
    alloc: Global,
    old: &[D],
    last: &State,
    w: u32,
    h: u32,
) -> Result<State, CoreError>
    ensures merged { IfOk result (AreMerged w h (map D.delta_of old.now ++ last.now ∷ [])) }
    ensures stopped { IfErr result (IsStop w h (map D.delta_of old.now ++ last.now ∷ [])) }
{
    join_of_an_empty_list();
    let mut state = State::empty(alloc)?;
    merge_each(alloc, &mut state, old, w, h)?;
    merge_each(alloc, &mut state, slice::from_ref(last), w, h)?;
    Ok(state)
}

// Merges the deltas in order, behind those that the state is of.
fn merge_each<D: HasDelta>(
    alloc: Global,
    state: &mut State,
    holders: &[D],
    w: u32,
    h: u32,
) -> Result<(), CoreError>
    ensures merged { OnOk result (LeadsOn w h (map D.delta_of holders.now) state.old state.new) }
    ensures stopped { IfErr result (StopsBehind w h (map D.delta_of holders.now) state.old) }
{
    join_of_a_longer_list();
    for holder in holders {
        holder.merge_into(alloc, state, w, h)?;
    }
    Ok(())
}

// Merges one delta more.
fn merge_one(
    alloc: Global,
    state: &mut State,
    delta: &Delta,
    w: u32,
    h: u32,
) -> Result<(), CoreError>
    ensures fits { OnOk result (StateFits w h delta.now) }
    ensures join { OnOk result (IsJoin state.old delta.now state.new) }
    ensures refused { IfErr result (IsKeptOut w h state.old delta.now) }
{
    if let Some(tag) = delta.outside(w, h) {
        return Err(CoreError::OutOfImage(tag));
    }
    let _change = state.merge(alloc, delta)?;
    Ok(())
}
