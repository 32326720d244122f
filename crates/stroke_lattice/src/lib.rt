#![tactic(auto)]
//! The set of strokes that replicas share: a lattice that only rises.
//!
//! A [`State`] has strokes under their tags and tombstones, which are tags that were withdrawn. A tag is live
//! where it has a stroke and no tombstone; a tombstone may come before its stroke. Replicas send each other
//! [`Delta`]s, which are states too, and merge them. Merging takes the least state above both (Shapiro,
//! Preguiça, Baquero and Zawirski, "Conflict-free Replicated Data Types", 2011), so that replicas which took
//! the same deltas, in whatever order and however often, have equal states:
//!
//! ```text
//! let mut state = State::empty(alloc)?;
//! let change = state.merge(alloc, &State::placed(alloc, tag, stroke)?)?;    // tag is born
//! let change = state.merge(alloc, &State::withdrawn(alloc, tag)?)?;         // tag is dead
//! ```
//!
//! [`State::merge`] answers the [`Change`]: which tags became live and which ceased to be. One tag names one
//! stroke, so a delta that gives a tag another stroke is refused, and changes nothing. [`State::clash`] asks
//! for that beforehand, and [`State::outside`] for strokes that do not fit an image. Refusals are a
//! [`StateError`], whose codes are L1 and L2.
//!
//! [`State::split`] cuts a state into pieces that are small enough for a frame each. One piece is filled
//! after another; who merges them all, in any order, has the state ([`pieces_join`]). [`State::piece_at`] makes
//! one of them alone, from the [`Place`] where it begins.
//!
//! Read on in `specs/State.antt`, which says what states are, when one is below another, what a join is and
//! when two states clash; in `specs/Change.antt` for births and deaths; in `specs/Walks.antt` for the walks
//! over a state; in `specs/Pieces.antt` for its pieces, and `specs/Places.antt` for where they begin; and then at
//! [`State`]. The laws of joining, as
//! [`joining_is_associative`], and of pieces, as [`pieces_are_full`], are the contracts of functions that do
//! nothing.

mod change;
mod compare;
mod entries;
mod error;
mod laws;
mod live;
mod merge;
mod piece;
mod split;
mod state;
mod turnover;

pub use change::Change;
pub use error::{RefusedStroke, StateError};
pub use laws::{
    at_most_one_join, at_most_one_join_of_a_list, compatible_lists_have_a_join,
    compatible_states_have_a_bound, compatible_states_have_a_join, contents_decide_a_state,
    contents_of_nothing, contents_of_placed, contents_of_withdrawn, counts_decide_a_higher_state,
    join_of_a_list_is_least, join_of_a_longer_list, join_of_an_empty_list, joining_is_associative,
    joining_is_commutative, joining_is_idempotent, no_piece_is_empty, pieces_are_full, pieces_join,
    pieces_keep_the_order, pieces_of_nothing, walks_give_one_list,
};
pub use live::Live;
pub use piece::Place;
pub use split::{HEAD_BYTES, MIN_PIECE_BYTES, TOMBSTONE_BYTES, lengths_in_frames};
pub use state::{Delta, State};
