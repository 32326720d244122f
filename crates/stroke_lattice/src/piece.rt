//! The pieces of a state one at a time, each by where it begins.

ghost use Rattle.std.specs.Prelude.{◌≡◌, ◌+◌, ◌<◌, ◌≤◌, ◌^◌, ◌∷◌, drop, length, IfNone, IfOk, IfSome, OnOk};
ghost use Rattle.stroke_lattice.specs.State.{nothing};
ghost use Rattle.stroke_lattice.specs.Filling.{AllBefore};
ghost use Rattle.stroke_lattice.specs.Pieces.{items_of, item_length, frame_length, with_item, pieces_of};
ghost use Rattle.stroke_lattice.specs.Places.{item_of, IsOpenMeasured, pieces_from, pieces_behind};

use crate::entries::Entry;
use crate::split::{HEAD_BYTES, MIN_PIECE_BYTES};
use crate::state::{Delta, State};
use grid_core::Memory;
use std::alloc::Global;
use stroke_core::Tag;

/// Where a piece of a state begins: at the stroke of this tag, or at this tombstone.
#[derive(Clone, Copy, Debug, PartialEq, Eq)]
pub enum Place {
    Stroke(Tag),
    Tombstone(Tag),
}

impl State {
    /// The piece that begins at this place, as [`State::split`] would cut it there, and where the next one begins, if
    /// there is one. It takes a time of about the piece's size.
    ///
    /// Errors: out of memory.
    pub fn piece_at(
        &self,
        alloc: Global,
        max_bytes: usize,
        place: Place,
    ) -> Result<(Delta, Option<Place>), Memory>
        requires least { MIN_PIECE_BYTES ≤ max_bytes }
        requires some { 0 < length (pieces_from max_bytes self.now place) }
        ensures pieces { IfOk result (λ found. pieces_from max_bytes self.now place
            ≡ found.0 ∷ pieces_behind max_bytes self.now found.1) }
        ensures fits { IfOk result (λ found. frame_length found.0 ≤ max_bytes) }
        ensures more { IfOk result (λ found.
            IfSome found.1 (λ next. 0 < length (pieces_from max_bytes self.now next))) }
    {
        let mut piece = OpenPiece::new(alloc);
        for entry in self.items_from(place) {
            if entry.byte_len() > max_bytes - piece.length {
                return Ok((piece.state, Some(entry.place())));
            }
            piece.add(alloc, &entry)?;
        }
        Ok((piece.state, None))
    }

    /// Where the piece of this number begins, counted from 0. It takes no memory, and a time of about the state's size.
    pub fn place_of_piece(&self, max_bytes: usize, number: usize) -> Option<Place>
        requires { MIN_PIECE_BYTES ≤ max_bytes }
        ensures place { IfSome result (λ place. pieces_from max_bytes self.now place
            ≡ drop number (pieces_of max_bytes self.now)) }
        ensures within { IfSome result (λ _. number < length (pieces_of max_bytes self.now)) }
        ensures none { IfNone result (length (pieces_of max_bytes self.now) ≤ number) }
        ensures counted { length (pieces_of max_bytes self.now) < 2 ^ 64 }
    {
        let mut begun = 0;
        // No piece is open yet, so there is no room in it.
        let mut length = max_bytes;
        for entry in self.items() {
            let bytes = entry.byte_len();
            if bytes <= max_bytes - length {
                length += bytes;
                continue;
            }
            if begun == number {
                return Some(entry.place());
            }
            begun += 1;
            length = HEAD_BYTES + bytes;
        }
        None
    }

    /// Puts an item behind all others.
    pub(crate) fn put_last(&mut self, alloc: Global, entry: &Entry<'_>) -> Result<(), Memory>
        requires { AllBefore (items_of self.old) (item_of entry.now) }
        ensures { OnOk result (self.new ≡ with_item self.old (item_of entry.now)) }
    {
        match entry {
            Entry::Stroke(tag, stroke) => self.insert(*tag, stroke.copy(alloc)?)?,
            Entry::Tombstone(tag) => self.bury(*tag)?,
        }
        Ok(())
    }
}

/// A piece while it is filled, and the length of its frame.
#[derive(Drop)]
struct OpenPiece {
    state: State,
    length: usize,
}

impl OpenPiece {
    fn new(alloc: Global) -> OpenPiece
        ensures state { result.state ≡ nothing }
        ensures measured { IsOpenMeasured result }
    {
        OpenPiece {
            state: State::new(alloc),
            length: HEAD_BYTES,
        }
    }

    /// Puts an item into the piece, behind all others.
    fn add(&mut self, alloc: Global, entry: &Entry<'_>) -> Result<(), Memory>
        requires before { AllBefore (items_of self.old.state) (item_of entry.now) }
        requires measured { IsOpenMeasured self.old }
        requires room { frame_length self.old.state + item_length (item_of entry.now) < 2 ^ 64 }
        ensures added { OnOk result (self.new.state ≡ with_item self.old.state (item_of entry.now)) }
        ensures measured { OnOk result (IsOpenMeasured self.new) }
    {
        self.state.put_last(alloc, entry)?;
        self.length += entry.byte_len();
        Ok(())
    }
}
