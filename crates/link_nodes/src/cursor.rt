//! Where a node is among the pieces of a state, each short enough for a frame.

ghost use Rattle.std.specs.Prelude.{◌≡◌, ◌+◌, ◌<◌, ◌≤◌, ◌^◌, [], drop, length, Some, IsTrue};
ghost use Rattle.std.specs.Prelude.{IfOk, IfErr, IfNone, IfSome};
ghost use Rattle.stroke_lattice.specs.Pieces.{frame_length};
ghost use Rattle.stroke_lattice.specs.Places.{pieces_from, pieces_behind};
ghost use Rattle.spd_codec.specs.Spelling.{max_bytes};
ghost use Rattle.link_nodes.specs.Cursors.{frame_pieces, next_after, IsCursorOf, IsNextPiece, IsOfLower, IsPlaceOf};

use grid_core::Memory;
use spd_codec::MAX_BYTES;
use std::alloc::Global;
use stroke_lattice::{Delta, Place, State, counts_decide_a_higher_state, walks_give_one_list};

/// Where a piece of a state begins, and the next one, if there is one; and how many strokes and tombstones the state
/// has.
///
/// States that one eye sees only rise. So one that has as many strokes and tombstones as another before it is the same,
/// and a cursor of the one is of the other. Only in a state that has grown a piece is looked for by its number.
#[derive(Clone, Copy)]
pub(crate) struct Cursor {
    pub(crate) number: usize,
    pub(crate) place: Place,
    pub(crate) behind: Option<Place>,
    pub(crate) strokes: usize,
    pub(crate) tombstones: usize,
}

impl Cursor {
    // A cursor at a piece of a state.
    #[tactic(auto, using(crate::proofs::Cursors::more_behind))]
    fn at(state: &State, number: usize, place: &Place, behind: Option<Place>) -> Cursor
        requires counted { length (frame_pieces state.now) < 2 ^ 64 }
        requires within { number < length (frame_pieces state.now) }
        requires here { pieces_from max_bytes state.now place.now ≡ drop number (frame_pieces state.now) }
        requires behind { pieces_behind max_bytes state.now behind ≡ drop (number + 1) (frame_pieces state.now) }
        requires more { IfSome behind (λ next. 0 < length (pieces_from max_bytes state.now next)) }
        ensures of { IsCursorOf state.now result }
        ensures number { result.number ≡ number }
    {
        walks_give_one_list();
        Cursor {
            number,
            place: *place,
            behind,
            strokes: state.strokes().len(),
            tombstones: state.tombstones().len(),
        }
    }

    // Whether it is of this state, which is above the one that it was made of.
    fn is_of(&self, state: &State) -> bool
        requires { IsOfLower state.now (Some self.now) }
        ensures { IsTrue result → IsCursorOf state.now self.now }
    {
        walks_give_one_list();
        counts_decide_a_higher_state();
        self.strokes == state.strokes().len() && self.tombstones == state.tombstones().len()
    }

    // Where the piece of this number of its state begins, if there is one.
    fn place_of(&self, state: &State, number: usize) -> Option<Place>
        requires { IsCursorOf state.now self.now }
        ensures { IsPlaceOf state.now number result }
    {
        if number == self.number {
            return Some(self.place);
        }
        if number > 0 && number - 1 == self.number {
            return self.behind;
        }
        place_in(state, number)
    }
}

// Where the piece of this number begins, if there is one. It is looked for from the first piece on.
fn place_in(state: &State, number: usize) -> Option<Place>
    ensures place { IsPlaceOf state.now number result }
    ensures counted { length (frame_pieces state.now) < 2 ^ 64 }
{
    state.place_of_piece(MAX_BYTES, number)
}

// The same, by the cursor if it is of this state.
fn place_of(kept: &Option<Cursor>, state: &State, number: usize) -> Option<Place>
    requires { IsOfLower state.now kept.now }
    ensures place { IsPlaceOf state.now number result }
    ensures counted { length (frame_pieces state.now) < 2 ^ 64 }
{
    if let Some(cursor) = kept {
        if cursor.is_of(state) {
            return cursor.place_of(state, number);
        }
    }
    place_in(state, number)
}

// The number of the piece behind the one of this number, if there is one, and where it begins.
fn place_behind(kept: &Option<Cursor>, state: &State, last: Option<usize>) -> Option<(usize, Place)>
    requires lower { IsOfLower state.now kept.now }
    requires counted { length (frame_pieces state.now) < 2 ^ 64 }
    ensures none { IfNone result (next_after last (length (frame_pieces state.now)) ≡ 0) }
    ensures number { IfSome result (λ next. next.0 ≡ next_after last (length (frame_pieces state.now))) }
    ensures place { IfSome result (λ next. IsPlaceOf state.now next.0 (Some next.1)) }
{
    let number = last?.checked_add(1)?;
    let place = place_of(kept, state, number)?;
    Some((number, place))
}

// The same, or piece 0 where there is none such. It is `None` where there is no piece.
fn next_place(kept: &Option<Cursor>, state: &State, last: Option<usize>) -> Option<(usize, Place)>
    requires { IsOfLower state.now kept.now }
    ensures none { IfNone result (frame_pieces state.now ≡ []) }
    ensures number { IfSome result (λ next. next.0 ≡ next_after last (length (frame_pieces state.now))) }
    ensures place { IfSome result (λ next. IsPlaceOf state.now next.0 (Some next.1)) }
    ensures counted { length (frame_pieces state.now) < 2 ^ 64 }
{
    let first = match place_of(kept, state, 0) {
        Some(first) => first,
        None => return None,
    };
    match place_behind(kept, state, last) {
        Some(next) => Some(next),
        None => Some((0, first)),
    }
}

/// The piece behind the one of this number, or piece 0 where there is none such, with a cursor at it. It is `None`
/// where there is no piece.
///
/// Errors: out of memory, where there is one.
pub(crate) fn next_piece(
    kept: &Option<Cursor>,
    alloc: Global,
    state: &State,
    last: Option<usize>,
) -> Result<Option<(Cursor, Delta)>, Memory>
    requires { IsOfLower state.now kept.now }
    ensures none { IfOk result (λ found. IfNone found (frame_pieces state.now ≡ [])) }
    ensures cursor { IfOk result (λ found. IfSome found (λ next. IsCursorOf state.now next.0)) }
    ensures piece { IfOk result (λ found. IfSome found (λ next. IsNextPiece state.now last next.0.number next.1)) }
    ensures fits { IfOk result (λ found. IfSome found (λ next. frame_length next.1 ≤ max_bytes)) }
    ensures wanted { IfErr result (λ _. 0 < length (frame_pieces state.now)) }
{
    let Some((number, place)) = next_place(kept, state, last) else {
        return Ok(None);
    };
    let (piece, behind) = state.piece_at(alloc, MAX_BYTES, place)?;
    Ok(Some((Cursor::at(state, number, &place, behind), piece)))
}
