//! What a node sees.

ghost use Rattle.std.specs.Prelude.{◌≡◌, ◌<◌, ◌≤◌, [], length, IfOk, IfErr, IfSome, MatchOption};
ghost use Rattle.std.specs.Coded.{Coded-set, coded_list};
ghost use Rattle.std.proofs.Props.{props};
ghost use Rattle.stroke_core.specs.contracts.stroke.Stroke as stroke;
ghost use Rattle.stroke_lattice.specs.Stored.{state_code};
ghost use Rattle.stroke_lattice.specs.Pieces.{frame_length};
ghost use Rattle.spd_codec.specs.Spelling.{max_bytes, frame_text};
ghost use Rattle.spd_codec.specs.declared.version.Version.TheVariants.{Second};
ghost use Rattle.studio.specs.Chains.{Begins};
ghost use Rattle.studio.specs.Words.{seen_by, learnt_by, told_by, told_studio, eye_studio};
ghost use Rattle.link_nodes.specs.Cursors.{IsOfLast, IsOfLower, IsCursorOf, frame_pieces};
ghost use Rattle.link_nodes.specs.Sending.{HasPiece, IsNext, IsNextFrame};

use crate::cursor::{Cursor, next_piece};
use byte_devices::count_one;
use grid_core::{Conn, Memory};
use spd_codec::{Print, encode};
use std::alloc::Global;
use stroke_lattice::{Delta, State};
use studio::{Eye, Told};

/// An eye, a cursor at a piece of the state that it saw last, if there is one, and how many looks gave no glimpse. The
/// count stops at `u64::MAX`.
#[derive(Drop)]
pub(crate) struct Sight {
    pub(crate) eye: Eye,
    pub(crate) cursor: Option<Cursor>,
    pub(crate) vain: u64,
    ghost of_last: { IsOfLast (seen_by eye) cursor } by { Prim.hlevel (
      props,
      Coded-set (coded_list (state_code stroke.the_row.coded)),
    ) },
}

/// What to send: for which image, and behind which piece.
#[derive(Clone, Copy)]
pub(crate) struct Request {
    pub(crate) alloc: Global,
    pub(crate) conn: Conn,
    pub(crate) print: Print,
    pub(crate) last: Option<usize>,
}

/// The frame of a piece, and the number of the piece.
#[derive(Drop)]
pub(crate) struct Next {
    pub(crate) piece: usize,
    pub(crate) frame: Vec<u8>,
}

impl Sight {
    /// An eye that may have seen something.
    pub(crate) fn new(eye: Eye) -> Sight
        ensures eye { result.eye ≡ eye }
        ensures vain { result.vain ≡ 0 }
    {
        Sight {
            eye,
            cursor: None,
            vain: 0,
        }
    }

    /// Learns of a show.
    pub(crate) fn learn(&mut self, told: Told)
        requires studio { told_studio told ≡ eye_studio self.old.eye }
        ensures told { Begins (learnt_by self.new.eye) (told_by told) }
        ensures kept { Begins (learnt_by self.new.eye) (learnt_by self.old.eye) }
        ensures seen { seen_by self.new.eye ≡ seen_by self.old.eye }
        ensures studio { eye_studio self.new.eye ≡ eye_studio self.old.eye }
    {
        self.eye.learn(told);
    }

    /// The eye.
    pub(crate) fn leave(self) -> Eye
        ensures { result ≡ self.eye }
    {
        let Sight {
            eye,
            cursor: _,
            vain: _,
        } = self;
        eye
    }
}

/// Looks, and makes the frame of the next piece of what is seen. It is `None` where there is no glimpse, and where the
/// state that is seen has no piece. The glimpse is let go before anything is sent.
///
/// Errors: out of memory, where there is a piece.
#[tactic(auto, using(crate::proofs::Seeing::of_lower, crate::proofs::Seeing::of_last))]
pub(crate) fn look_for_next(sight: Sight, request: Request) -> (Sight, Result<Option<Next>, Memory>)
    ensures next { IfOk result.1
        (IsNext request.conn request.print (learnt_by sight.eye) sight.vain result.0.vain (seen_by sight.eye)
        (seen_by result.0.eye) request.last) }
    ensures wanted { IfErr result.1 (λ _. HasPiece (seen_by result.0.eye)) }
    ensures seen { Begins (seen_by result.0.eye) (seen_by sight.eye) }
    ensures learnt { learnt_by result.0.eye ≡ learnt_by sight.eye }
    ensures studio { eye_studio result.0.eye ≡ eye_studio sight.eye }
{
    let Sight {
        eye,
        cursor,
        mut vain,
    } = sight;
    let glimpse = match eye.look() {
        Ok(glimpse) => glimpse,
        Err(eye) => {
            count_one(&mut vain);
            return (Sight { eye, cursor, vain }, Ok(None));
        }
    };
    let (cursor, next) = next_frame(&cursor, glimpse.state(), request);
    let eye = glimpse.leave();
    (Sight { eye, cursor, vain }, next)
}

// The frame of the next piece of a state, and a cursor at it.
fn next_frame(
    kept: &Option<Cursor>,
    state: &State,
    request: Request,
) -> (Option<Cursor>, Result<Option<Next>, Memory>)
    requires { IsOfLower state.now kept.now }
    ensures cursor { IfSome result.0 (λ cursor. IsCursorOf state.now cursor) }
    ensures next { IfOk result.1 (λ next. MatchOption next (frame_pieces state.now ≡ [])
        (λ n. IsNextFrame request.conn request.print state.now request.last n.piece n.frame.items)) }
    ensures wanted { IfErr result.1 (λ _. 0 < length (frame_pieces state.now)) }
{
    match next_piece(kept, request.alloc, state, request.last) {
        Ok(Some((cursor, piece))) => {
            let next = frame_of(cursor.number, &piece, request);
            (Some(cursor), next)
        }
        Ok(None) => (None, Ok(None)),
        Err(Memory) => (None, Err(Memory)),
    }
}

// The frame of a piece of this number.
fn frame_of(number: usize, piece: &Delta, request: Request) -> Result<Option<Next>, Memory>
    requires { frame_length piece.now ≤ max_bytes }
    ensures { IfOk result (λ next. MatchOption next ⊥ (λ n. (n.piece ≡ number)
        × (n.frame.items ≡ frame_text Second request.conn request.print piece.now))) }
{
    match encode(request.alloc, request.conn, &request.print, piece) {
        Ok(frame) => Ok(Some(Next {
            piece: number,
            frame,
        })),
        // It is want of memory, since the frame of a piece is never too long.
        Err(_) => Err(Memory),
    }
}
