//! States of edit texts.

use edit_lang::parse;
use std::alloc::Global;
use stroke_lattice::State;

/// An edit text in which `#` stood for all of a tag but its last two digits, which are zeros.
pub fn whole(alloc: Global, text: &str) -> Option<String> {
    text.replace(alloc, '#', "00000000-0000-0000-0000-0000000000")
        .ok()
}

/// The join of the deltas of such an edit text. There is none where a line has a fault, or where two strokes clash.
pub fn state_of(alloc: Global, text: &str) -> Option<State> {
    let whole = whole(alloc, text)?;
    let parsed = parse(alloc, whole.as_bytes());
    drop(whole);
    match parsed {
        Ok(deltas) => {
            let joined = join_of(alloc, &deltas);
            drop(deltas);
            joined
        }
        Err(_) => None,
    }
}

// The join of these states, if none clash.
fn join_of(alloc: Global, states: &[State]) -> Option<State> {
    let mut joined = State::empty(alloc).ok()?;
    if merges(alloc, &mut joined, states) {
        Some(joined)
    } else {
        drop(joined);
        None
    }
}

// Whether all these states are merged into one.
fn merges(alloc: Global, joined: &mut State, states: &[State]) -> bool {
    for state in states {
        if joined.merge(alloc, state).err().is_some() {
            return false;
        }
    }
    true
}
