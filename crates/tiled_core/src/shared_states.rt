//! The last copies of the strokes that were given out, and what was merged since.

ghost use Rattle.std.specs.Prelude.{◌≡◌, ◌<◌, ◌↔◌, ◌⊎◌, length, IfOk, IfSome, IsTrue};
ghost use Rattle.std.specs.Arc.{arc_value};
ghost use Rattle.stroke_lattice.specs.State.{State as Strokes, IsJoin};
ghost use Rattle.stroke_lattice.specs.Pieces.{strokes_of, tombstones_of};
ghost use Rattle.tiled_core.specs.SharedStates.{AreStates, IsKeptFor};

use grid_core::Memory;
use std::alloc::Global;
use std::mem;
use std::sync::Arc;
use stroke_lattice::{Delta, State};

// A copy is let go where a delta, or what was merged since it was made, has more strokes than this, or more tombstones.
// They would pile up where nobody asks for copies.
const MOST_KEPT: usize = 256;

/// The last three copies of the strokes that were given out.
#[derive(Drop)]
pub(crate) struct SharedStates {
    last: Option<KeptState>,
    older: Option<KeptState>,
    oldest: Option<KeptState>,
}

/// A copy of the strokes that was given out, and what was merged since.
#[derive(Drop)]
struct KeptState {
    copy: Arc<State>,
    since: State,
}

impl SharedStates {
    /// No copy. It takes no memory.
    pub(crate) fn none() -> SharedStates
        ensures { (state : Strokes) → AreStates state result }
    {
        SharedStates {
            last: None,
            older: None,
            oldest: None,
        }
    }

    /// A delta was merged. It never fails: where memory is wanting, a copy is let go.
    pub(crate) fn mark(&mut self, alloc: Global, delta: &Delta)
        ensures { (before after : Strokes) → AreStates before self.old → IsJoin before delta.now after
            → AreStates after self.new }
    {
        self.last = marked(alloc, self.last.take(), delta);
        self.older = marked(alloc, self.older.take(), delta);
        self.oldest = marked(alloc, self.oldest.take(), delta);
    }

    /// A copy of the strokes as they are, which is kept as the last one: the oldest one, brought up to date, where
    /// nobody else holds it, else a whole copy.
    ///
    /// Errors: out of memory.
    pub(crate) fn next(&mut self, alloc: Global, state: &State) -> Result<Arc<State>, Memory>
        requires { AreStates state.now self.old }
        ensures copy { IfOk result (λ copy. arc_value copy ≡ state.now) }
        ensures states { AreStates state.now self.new }
    {
        let next = match up_to_date(alloc, self.oldest.take()) {
            Some(oldest) => oldest,
            None => state.copy(alloc).or(Err(Memory))?,
        };
        let copy = Arc::new(alloc, next)?;
        let kept = kept_now(alloc, Arc::try_clone(&copy)?)?;
        self.oldest = mem::replace(&mut self.older, mem::replace(&mut self.last, Some(kept)));
        Ok(copy)
    }
}

// A copy that was made just now.
//
// Errors: out of memory.
fn kept_now(alloc: Global, copy: Arc<State>) -> Result<KeptState, Memory>
    ensures { IfOk result (IsKeptFor (arc_value copy)) }
{
    Ok(KeptState {
        copy,
        since: State::empty(alloc).or(Err(Memory))?,
    })
}

// The copy once a delta was merged. None where memory is wanting, or where too many were merged since it was made.
fn marked(alloc: Global, kept: Option<KeptState>, delta: &Delta) -> Option<KeptState>
    ensures { (before after : Strokes) → IfSome kept (IsKeptFor before) → IsJoin before delta.now after
        → IfSome result (IsKeptFor after) }
{
    let KeptState { copy, since } = kept?;
    if is_too_long(&since) || is_too_long(delta) {
        return None;
    }
    Some(KeptState {
        copy,
        since: joined(alloc, since, delta)?,
    })
}

// Whether there are too many strokes or too many tombstones to be kept beside a copy.
fn is_too_long(delta: &Delta) -> bool
    ensures { IsTrue result ↔ (256 < length (strokes_of delta.now) ⊎ 256 < length (tombstones_of delta.now)) }
{
    delta.strokes().len() > MOST_KEPT || delta.tombstones().len() > MOST_KEPT
}

// The copy brought up to date, where nobody else holds it and memory is not wanting.
fn up_to_date(alloc: Global, kept: Option<KeptState>) -> Option<State>
    ensures { (state : Strokes) → IfSome kept (IsKeptFor state) → IfSome result (λ copy. copy ≡ state) }
{
    let KeptState { copy, since } = kept?;
    joined(alloc, Arc::try_unwrap(copy).ok()?, &since)
}

// The strokes joined with a delta, where the two don't clash and memory is not wanting.
fn joined(alloc: Global, state: State, delta: &Delta) -> Option<State>
    ensures { IfSome result (IsJoin state delta.now) }
{
    let mut joined = state;
    joined.merge(alloc, delta).ok()?;
    Some(joined)
}
