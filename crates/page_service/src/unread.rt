//! Large answers that nobody has read yet.

ghost use Rattle.std.specs.Prelude.{◌≡◌, IfOk};

use crate::limits::MAX_WAITING;
use bytes::Bytes;
use std::alloc::{AllocError, Global};

// An answer of more bytes is large. A connection takes a further request only while no more wait on it.
const LARGE: usize = MAX_WAITING;

// While fewer large answers are held than these, there is room for another, whatever they take.
const FEW_ANSWERS: usize = 8;

// While the large answers take fewer bytes than these, there is room for another, however many they are.
const FEW_BYTES: usize = 256 * 1024 * 1024;

/// The large answers that were given out. A connection has an owner of its answer until all of it is sent, or until it
/// ends; so one that is held here alone is forgotten.
#[derive(Drop)]
pub(crate) struct Unread {
    held: Vec<Bytes>,
}

impl Unread {
    /// None.
    pub(crate) fn new(alloc: Global) -> Unread {
        Unread {
            held: Vec::new(alloc),
        }
    }

    /// Notes an answer that is to be given out, where it is large.
    ///
    /// Errors: it is large, and there is no room for another; out of memory.
    pub(crate) fn note(&mut self, answer: &Bytes) -> Result<(), AllocError> {
        self.make_room(answer)?;
        if is_large(answer) {
            self.held.push(answer.clone()?)?;
        }
        Ok(())
    }

    /// Another owner of an answer that is to be given out again and again, and kept once it no longer is.
    ///
    /// Errors: it is large, and there is no room for another; out of memory.
    pub(crate) fn share(&mut self, answer: &Bytes) -> Result<Bytes, AllocError>
        ensures { IfOk result (λ shared. shared ≡ answer.now) }
    {
        self.make_room(answer)?;
        answer.clone()
    }

    // Makes room for an answer that is to be held.
    fn make_room(&mut self, answer: &Bytes) -> Result<(), AllocError> {
        if !is_large(answer) {
            return Ok(());
        }
        self.forget_read();
        if !self.has_room() {
            return Err(AllocError);
        }
        // One place for an answer that is noted, and one for the answer that is kept later.
        self.held.reserve(2)
    }

    /// Keeps an answer for which room was made, where it is large and somebody has not read it yet.
    pub(crate) fn keep(&mut self, answer: Option<Bytes>) {
        if let Some(answer) = answer
            && is_large(&answer)
            && !answer.is_unique()
        {
            let _ = self.held.push(answer);
        }
    }

    /// Forgets the answers that nobody else holds.
    pub(crate) fn forget_read(&mut self) {
        self.held.retain(|answer| !answer.is_unique());
    }

    // Whether another large answer may be given out.
    fn has_room(&self) -> bool {
        self.held.len() < FEW_ANSWERS || self.bytes() < FEW_BYTES
    }

    // How many bytes the answers have together.
    fn bytes(&self) -> usize {
        let mut bytes = 0usize;
        for answer in &self.held {
            bytes = bytes.saturating_add(answer.len());
        }
        bytes
    }
}

fn is_large(answer: &Bytes) -> bool {
    answer.len() > LARGE
}
