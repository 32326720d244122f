//! Hints that wait.

ghost use Rattle.std.specs.Prelude.{◌≡◌, ◌+◌, ◌<◌, ◌≤◌, ◌↔◌, [], ◌∷◌, length, remove, slice_get};
ghost use Rattle.std.specs.Prelude.{IsOk, OnOk, OnErr, IfErr, OnSome, IfNone, IsTrue};
ghost use Rattle.border_queues.specs.Waiting.{Adds};

use crate::error::QueueError;
use crate::hint::Hint;
use std::alloc::Global;
use std::marker::Model;

/// Hints that wait for a tile, first come first, and room for more of them.
#[derive(Debug, Drop)]
pub struct Inbox {
    hints: Vec<Hint>,
}

impl Model for Inbox {
    ghost use Rattle.std.specs.Prelude.{◌-◌, length, vec_capacity, vec_len};
    ghost use Rattle.border_queues.specs.Waiting.{Waiting};

    ghost Value = { Waiting };

    ghost view = { λ a. record { hints = a.hints.items; room = vec_capacity a.hints - vec_len a.hints } };
}

impl Inbox {
    /// An inbox with no hint and no room. It takes no memory.
    pub fn new(alloc: Global) -> Inbox
        ensures { result.hints ≡ [] }
    {
        Inbox {
            hints: Vec::new(alloc),
        }
    }

    /// Makes room for `n` more hints, so that the next `n` pushes succeed.
    ///
    /// Errors: Q1, where nothing changes.
    pub fn reserve(&mut self, n: usize) -> Result<(), QueueError>
        ensures hints { self.new.hints ≡ self.old.hints }
        ensures room { OnOk result (n ≤ self.new.room) }
        ensures grown { self.old.room ≤ self.new.room }
        ensures enough { n ≤ self.old.room → IsOk result }
        ensures err { OnErr result (self.new ≡ self.old) }
    {
        self.hints.reserve(n)?;
        Ok(())
    }

    /// Puts a hint behind the others. It succeeds where there is room.
    ///
    /// Errors: the hint and Q1, where nothing changes.
    #[inline(always)]
    pub fn push(&mut self, hint: Hint) -> Result<(), (Hint, QueueError)>
        ensures ok { OnOk result (Adds self.old self.new (hint ∷ [])) }
        ensures enough { 0 < self.old.room → IsOk result }
        ensures hint { IfErr result (λ e. e.0 ≡ hint) }
        ensures err { OnErr result (self.new.hints ≡ self.old.hints) }
        ensures kept { OnErr result (self.old.room ≤ self.new.room) }
    {
        match self.hints.push(hint) {
            Ok(()) => Ok(()),
            Err(_) => Err((hint, QueueError::Memory)),
        }
    }

    /// Takes out the hint at place `i`, if there is one. The others keep their order.
    pub fn take_at(&mut self, i: usize) -> Option<Hint>
        ensures hint { result ≡ slice_get self.old.hints i }
        ensures others { OnSome result (self.new.hints ≡ remove self.old.hints i) }
        ensures none { IfNone result (self.new ≡ self.old) }
        ensures room { OnSome result (self.new.room ≡ self.old.room + 1) }
    {
        if i < self.hints.len() {
            Some(self.hints.remove(i))
        } else {
            None
        }
    }

    /// Drops all hints, and keeps their places as room.
    pub fn clear(&mut self)
        ensures hints { self.new.hints ≡ [] }
        ensures room { self.new.room ≡ self.old.room + length self.old.hints }
    {
        self.hints.clear();
    }

    /// The number of hints.
    pub fn len(&self) -> usize
        ensures { result ≡ length self.now.hints }
    {
        self.hints.len()
    }

    /// Whether no hint waits.
    pub fn is_empty(&self) -> bool
        ensures { IsTrue result ↔ (self.now.hints ≡ []) }
    {
        self.hints.is_empty()
    }

    /// The hints, first come first.
    pub fn as_slice(&self) -> &[Hint]
        ensures { result.now ≡ self.now.hints }
    {
        &self.hints
    }

    /// How many more hints there is room for.
    pub fn room(&self) -> usize
        ensures { result ≡ self.now.room }
    {
        self.hints.capacity() - self.hints.len()
    }
}
