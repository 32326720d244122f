//! A state in pieces, each small enough for a frame of its own.

ghost use Rattle.std.specs.Prelude.{◌≡◌, ◌+◌, ◌≤◌, [], ◌++◌, IfOk, OnOk};
ghost use Rattle.stroke_lattice.specs.State.{nothing};
ghost use Rattle.stroke_lattice.specs.Filling.{filling, IsMeasured, with_room, CanTake, HasTaken, AreFilled};
ghost use Rattle.stroke_lattice.specs.Pieces.{items_of, item_length, frame_length, pieces_of, if_any, AllFit};
ghost use Rattle.stroke_lattice.specs.Places.{item_of};

use crate::entries::Entry;
use crate::state::{Delta, State};
use grid_core::Memory;
use std::alloc::Global;
use std::mem;

/// The length of a frame without strokes and tombstones, in bytes: 4 of magic, 1 of connectivity, 32 of fingerprint,
/// and 2 for the number of strokes and 2 for that of tombstones.
pub const HEAD_BYTES: usize = 41;

/// The length of a tombstone in a frame, in bytes: a tag.
pub const TOMBSTONE_BYTES: usize = 16;

/// The least length that pieces may be cut to, in bytes: that of a frame with the longest stroke.
pub const MIN_PIECE_BYTES: usize = 1022;

/// The head of a frame has 41 bytes and a tombstone 16, and pieces may be cut to 1,022 bytes and to any greater length:
/// the code measures by the numbers that `specs/Pieces.antt` has.
pub fn lengths_in_frames()
    ensures head { HEAD_BYTES ≡ 41 }
    ensures tombstone { TOMBSTONE_BYTES ≡ 16 }
    ensures least { MIN_PIECE_BYTES ≡ 1022 }
{}

impl State {
    /// Pieces whose join is the state ([`pieces_join`](crate::pieces_join)), and whose frames have at most
    /// `max_bytes` bytes. They are filled one after another, first with the strokes and then with the
    /// tombstones, each rising by tag: what does not fit into a piece begins the next one. The state without
    /// strokes and tombstones has no piece. It takes a time of about the state's size.
    ///
    /// Errors: out of memory.
    pub fn split(&self, alloc: Global, max_bytes: usize) -> Result<Vec<Delta>, Memory>
        requires { MIN_PIECE_BYTES ≤ max_bytes }
        ensures pieces { IfOk result (λ pieces. pieces.items ≡ pieces_of max_bytes self.now) }
        ensures fit { IfOk result (λ pieces. AllFit max_bytes pieces.items) }
    {
        let mut pieces = Pieces::new(alloc);
        self.split_items(alloc, max_bytes, &mut pieces)?;
        pieces.finish()
    }

    /// Adds the strokes and then the tombstones.
    fn split_items(
        &self,
        alloc: Global,
        max_bytes: usize,
        pieces: &mut Pieces,
    ) -> Result<(), Memory>
        requires { AreFilled max_bytes self.now pieces.old (items_of self.now) }
        ensures { OnOk result (AreFilled max_bytes self.now pieces.new []) }
    {
        for entry in self.items() {
            pieces.add(alloc, max_bytes, &entry)?;
        }
        Ok(())
    }
}

/// Pieces while they are filled: those that take no more, and the last one with the length of its frame.
#[derive(Drop)]
struct Pieces {
    full: Vec<Delta>,
    last: State,
    length: usize,
}

impl Pieces {
    fn new(alloc: Global) -> Pieces
        ensures filling { filling result ≡ record { full = []; last = nothing } }
        ensures measured { IsMeasured result }
    {
        Pieces {
            full: Vec::new(alloc),
            last: State::new(alloc),
            length: HEAD_BYTES,
        }
    }

    /// Puts the item into the last piece, or into the next one where it does not fit.
    fn add(&mut self, alloc: Global, max_bytes: usize, entry: &Entry<'_>) -> Result<(), Memory>
        requires { CanTake max_bytes self.old (item_of entry.now) }
        ensures small { HEAD_BYTES + item_length (item_of entry.now) ≤ max_bytes }
        ensures taken { OnOk result (HasTaken max_bytes (item_of entry.now) self.old self.new) }
    {
        let bytes = entry.byte_len();
        self.make_room(alloc, max_bytes, bytes)?;
        self.last.put_last(alloc, entry)?;
        self.length += bytes;
        Ok(())
    }

    /// Begins the next piece, if the frame of the last one has no room for so many bytes more.
    fn make_room(&mut self, alloc: Global, max_bytes: usize, bytes: usize) -> Result<(), Memory>
        requires measured { IsMeasured self.old }
        requires fits { frame_length self.old.last ≤ max_bytes }
        ensures measured { OnOk result (IsMeasured self.new) }
        ensures room { OnOk result (filling self.new ≡ with_room max_bytes (filling self.old) bytes) }
    {
        if bytes > max_bytes - self.length {
            let last = mem::replace(&mut self.last, State::new(alloc));
            self.full.push(last)?;
            self.length = HEAD_BYTES;
        }
        Ok(())
    }

    /// The full pieces, and the last one if there is anything in it.
    fn finish(self) -> Result<Vec<Delta>, Memory>
        requires { IsMeasured self }
        ensures { IfOk result (λ pieces. pieces.items ≡ self.full.items ++ if_any self.last) }
    {
        let Pieces {
            mut full,
            last,
            length,
        } = self;
        if length <= HEAD_BYTES {
            return Ok(full);
        }
        full.push(last)?;
        Ok(full)
    }
}
