//! Pens.

ghost use Rattle.std.specs.Prelude.{◌≡◌, ◌+◌, ◌≤◌, [], ◌∷◌, ◌++◌, length, OnOk, OnErr, IfErr, IfSome};
ghost use Rattle.rtrb.specs.Ring.{sent, known_free};
ghost use Rattle.core_dispatch.specs.Rings.{ring_room};

use rtrb::{Finished, Producer, PushError};
use stroke_lattice::Delta;

/// How many edits of a pen wait at most to be taken.
pub(crate) const RING: usize = 64;

/// One writer's end of a ring, through which its edits go to whoever keeps the core. It may be moved to a thread of its
/// own, and knows which of its books' pens it is. Contracts see all that it submitted.
#[derive(Drop)]
pub struct Pen {
    producer: Producer<Delta>,
    number: usize,
    ghost room: { ring_room ≤ known_free producer + length (sent producer) },
}

/// An edit that was not submitted, since no place in the pen's ring was seen to be free.
#[derive(Drop)]
pub struct Full(pub Delta);

/// What is left of a pen that has finished. It knows which pen it was, and all that the pen submitted.
#[derive(Drop)]
pub struct PenEnd {
    pub(crate) finished: Finished<Delta>,
    pub(crate) number: usize,
}

impl Pen {
    ghost use Rattle.core_dispatch.specs.Pens.{number_of, submitted, all_submitted, free_places};
    ghost use Rattle.core_dispatch.specs.Pens.{KeepsDesk, KeepsDeskAtEnd};

    /// The end of a ring into which nothing was sent, for the pen of this number.
    pub(crate) fn new(producer: Producer<Delta>, number: usize) -> Pen
        requires sent { sent producer ≡ [] }
        requires room { known_free producer ≡ ring_room }
        ensures producer { result.producer ≡ producer }
        ensures number { number_of result ≡ number }
    {
        Pen { producer, number }
    }

    /// Which of its books' pens it is, from 0.
    pub fn number(&self) -> usize
        ensures { result ≡ number_of self.now }
    {
        self.number
    }

    /// Submits an edit. It waits for nobody.
    ///
    /// Errors: the edit, where no place in the ring is seen to be free. Nothing was submitted then. A pen's first 64
    /// edits find a place.
    pub fn submit(&mut self, delta: Delta) -> Result<(), Full>
        ensures ok { OnOk result (submitted self.new ≡ submitted self.old ++ delta ∷ []) }
        ensures err { OnErr result (submitted self.new ≡ submitted self.old) }
        ensures returned { IfErr result (λ full. full.0 ≡ delta) }
        ensures full { OnErr result (ring_room ≤ length (submitted self.old)) }
        ensures none_free { OnErr result ((free_places self.old ≡ 0) × (free_places self.new ≡ 0)) }
        ensures desk { KeepsDesk self.old self.new }
    {
        match self.producer.push(delta) {
            Ok(()) => Ok(()),
            Err(PushError::Full(delta)) => Err(Full(delta)),
        }
    }

    /// Ends the pen. It is `None` where the books that its edits go to are no more.
    pub fn finish(self) -> Option<PenEnd>
        ensures sent { IfSome result (λ end. all_submitted end ≡ submitted self) }
        ensures desk { IfSome result (KeepsDeskAtEnd self) }
    {
        let Pen { producer, number } = self;
        match producer.finish() {
            Some(finished) => Some(PenEnd { finished, number }),
            None => None,
        }
    }
}

impl PenEnd {
    ghost use Rattle.core_dispatch.specs.Pens.{end_number};

    /// Which of its books' pens it was, from 0.
    pub fn number(&self) -> usize
        ensures { result ≡ end_number self.now }
    {
        self.number
    }
}
