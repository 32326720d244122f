//! States merged.

use crate::played::{Stage, play, told};
use crate::states::state_of;
use crate::sums::{START, with_state};
use std::alloc::Global;
use std::test::Fail;
use stroke_core::{Stroke, Tag};
use stroke_lattice::{Change, Delta, State, StateError};

// A stroke that was placed and withdrawn, in other orders and twice.
const WITHDRAWN: &[&str] = &[
    "place #01 9 0:1-1\nwithdraw #01",
    "withdraw #01\nplace #01 9 0:1-1",
    "place #01 9 0:1-1\nwithdraw #01\nplace #01 9 0:1-1\nwithdraw #01",
    "withdraw #01\nplace #01 9 0:1-1\nwithdraw #01\nplace #01 9 0:1-1",
];

// Whether the copy of a state of these edits is the same as that of the others, and the stroke of tag 1 not live.
fn is_withdrawn(alloc: Global, edits: &str, others: &str) -> bool {
    let (state, other) = (state_of(alloc, edits), state_of(alloc, others));
    match (&state, &other) {
        (Some(state), Some(other)) => {
            let is_same = matches!(state.copy(alloc), Ok(copy) if copy.is_same(other));
            is_same && other.is_below(state) && !state.is_live(Tag(1))
        }
        _ => false,
    }
}

// Whether the state of the other edits is not merged into that of the first, because of two strokes of tag 1.
fn do_clash(alloc: Global, edits: &str, others: &str) -> bool {
    let (mut state, other) = (state_of(alloc, edits), state_of(alloc, others));
    match (&mut state, &other) {
        (Some(state), Some(other)) => {
            state.merge(alloc, other).err() == Some(StateError::Conflict(Tag(1)))
        }
        _ => false,
    }
}

#[test]
fn withdrawals_win_and_strokes_clash(rt: HostRuntime) {
    for edits in WITHDRAWN {
        assert!(rt; is_withdrawn(rt.alloc(), edits, WITHDRAWN[0]), "{edits}");
    }
    assert!(rt; StateError::Conflict(Tag(1)).code() == "L1");
    let run = "place #01 4 0:1-1";
    assert!(rt; do_clash(rt.alloc(), "place #01 3 0:1-1", run));
    assert!(rt; do_clash(rt.alloc(), "disc #01 4 0:1+0", run));
}

// So many entries are held, as a node of a map has when it is full: the next one finds no place in it.
const FULL: u32 = 15;

// Three strokes, of which the last one is withdrawn, and two tombstones, of which one is of a stroke that is held.
const BROUGHT: &str =
    "place #65 5 0:3-3\nplace #66 5 0:4-4\nplace #67 5 0:5-5\nwithdraw #67\nwithdraw #07";

// A state that is held, and what is merged into it.
#[derive(Drop)]
struct Merging {
    alloc: Global,
    state: State,
    delta: Delta,
}

// Whether a stroke of this tag and a tombstone of another one are put into the state.
fn is_put(alloc: Global, state: &mut State, tag: u128) -> bool {
    match (
        Stroke::disc(1, 0, 0, 0),
        State::withdrawn(alloc, Tag(tag | 0x100)),
    ) {
        (Ok(stroke), Ok(delta)) => {
            !state.has_stroke(Tag(tag))
                && state.insert(Tag(tag), stroke).is_ok()
                && state.merge(alloc, &delta).is_ok()
        }
        _ => false,
    }
}

// A state of so many strokes and tombstones.
fn held(alloc: Global) -> Option<State> {
    let mut state = State::empty(alloc).ok()?;
    for number in 0..FULL {
        if !is_put(alloc, &mut state, u128::from(number)) {
            return None;
        }
    }
    Some(state)
}

fn opened(alloc: Global) -> Option<Merging> {
    let (state, delta) = (held(alloc)?, state_of(alloc, BROUGHT)?);
    Some(Merging {
        alloc,
        state,
        delta,
    })
}

// Whether two strokes are live that were not, and one is no more.
fn is_told(change: &Change) -> bool {
    change.born() == [Tag(0x65), Tag(0x66)].as_slice() && change.dead() == [Tag(7)].as_slice()
}

impl Stage<()> for Merging {
    fn sum(&self) -> u64 {
        with_state(START, &self.state)
    }

    fn play(&mut self, _line: &()) -> Option<bool> {
        match self.state.merge(self.alloc, &self.delta) {
            Ok(change) => Some(is_told(&change) && self.delta.is_below(&self.state)),
            Err(StateError::Memory) => None,
            Err(StateError::Conflict(_)) => Some(false),
        }
    }
}

#[test]
fn three_strokes_and_two_tombstones_are_merged_tried_again(rt: HostRuntime) -> Result<(), Fail> {
    told("a merge", play(opened(rt.alloc()), &[()]))
}
