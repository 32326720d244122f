//! A link in memory.

ghost use Rattle.std.specs.Prelude.{◌≡◌, ◌↔◌, ℕ, ◌<◌, ◌≤◌, List, [], ◌∷◌, ◌++◌, All, length, take, Some};
ghost use Rattle.std.specs.Prelude.{OnOk, OnErr, IfNone, IfSome, IsTrue, if◌then◌else◌};
ghost use Rattle.byte_devices.specs.Device.{count_after};
ghost use Rattle.link_nodes.specs.MemoryLinks.{link_seen, fresh_memory_link, PollsMemory, SendsMemory};
ghost use Rattle.link_nodes.specs.MemoryLinks.{IsFed, IsFedFront, front_of};

use crate::datagram::Datagram;
use crate::link::{BUFFER_BYTES, Link};
use byte_devices::{Fault, count_one};
use grid_core::Memory;
use std::alloc::Global;
use std::marker::Model;

/// A link that keeps what it sends, and gives what it is fed by [`MemoryLink::carry`]: so a script can lose, double and
/// reorder datagrams. One chosen call fails. A send that finds no memory fails, too.
#[derive(Drop)]
pub struct MemoryLink {
    alloc: Global,
    fed: Vec<Datagram>,
    // How many of them polls gave.
    given: usize,
    sent: Vec<Datagram>,
    fails_at: Option<u64>,
    calls: u64,
    polls: u64,
    sends: u64,
    failures: u64,
    refused: u64,
}

impl Model for MemoryLink {
    ghost use Rattle.std.specs.Prelude.{◌≤◌, drop, length, map, take};
    ghost use Rattle.link_nodes.specs.MemoryLinks.{MemoryLinkView, front_of};

    ghost Value = { MemoryLinkView };

    ghost view = { λ m. record {
      waiting = drop m.given m.fed.items;
      heard = map front_of (take m.given m.fed.items);
      sent = m.sent.items;
      fails_at = m.fails_at;
      calls = m.calls;
      polls = m.polls;
      sends = m.sends;
      failures = m.failures;
      refused = m.refused;
    } };

    ghost invariant = { λ m. m.given ≤ length m.fed.items };
}

impl MemoryLink {
    /// A link that was fed nothing and sent nothing. The call of this number fails, polls and sends counted together
    /// from 1; none does where there is no number.
    pub fn new(alloc: Global, fails_at: Option<u64>) -> MemoryLink
        ensures { result ≡ fresh_memory_link fails_at }
    {
        MemoryLink {
            alloc,
            fed: Vec::new(alloc),
            given: 0,
            sent: Vec::new(alloc),
            fails_at,
            calls: 0,
            polls: 0,
            sends: 0,
            failures: 0,
            refused: 0,
        }
    }

    /// The datagrams that were sent, oldest first.
    pub fn sent(&self) -> &[Datagram]
        ensures { result.now ≡ self.now.sent }
    {
        &self.sent
    }

    /// How many polls and sends failed.
    pub fn failures(&self) -> u64
        ensures { result ≡ self.now.failures }
    {
        self.failures
    }

    /// How many sends found no memory.
    pub fn refused(&self) -> u64
        ensures { result ≡ self.now.refused }
    {
        self.refused
    }

    /// Feeds it the datagrams that the other link sent, those at these places of [`MemoryLink::sent`], in this order.
    /// Polls give them in turn.
    ///
    /// Errors: out of memory. Those at a front of the places were then fed.
    pub fn carry(&mut self, other: &MemoryLink, places: &[usize]) -> Result<(), Memory>
        requires { All (λ i. i < length other.now.sent) places.now }
        ensures ok { OnOk result (IsFed other.now.sent places.now self.old self.new) }
        ensures err { OnErr result (IsFedFront other.now.sent places.now self.old self.new) }
    {
        for place in places {
            self.feed(&other.sent[*place])?;
        }
        Ok(())
    }

    // Feeds it one datagram.
    fn feed(&mut self, datagram: &Datagram) -> Result<(), Memory>
        ensures ok { OnOk result (self.new ≡ record self.old { waiting = self.old.waiting ++ datagram.now ∷ [] }) }
        ensures err { OnErr result (self.new ≡ self.old) }
    {
        let datagram = Datagram::of(self.alloc, datagram.bytes())?;
        self.fed.push(datagram)?;
        Ok(())
    }

    // Counts a call, and answers whether it is the one that fails.
    fn count_call(&mut self) -> bool
        ensures called { self.new ≡ record self.old {
          calls = count_after self.old.calls 1;
          failures = if result then count_after self.old.failures 1 else self.old.failures;
        } }
        ensures chosen { IsTrue result ↔ (self.old.fails_at ≡ Some self.new.calls) }
    {
        count_one(&mut self.calls);
        let fails = self.fails_at == Some(self.calls);
        if fails {
            count_one(&mut self.failures);
        }
        fails
    }

    // Keeps a datagram that is sent.
    fn keep(&mut self, datagram: &[u8]) -> Result<(), Memory>
        ensures ok { OnOk result (self.new ≡ record self.old { sent = self.old.sent ++ datagram.now ∷ [] }) }
        ensures err { OnErr result (self.new ≡ self.old) }
    {
        let datagram = Datagram::of(self.alloc, datagram)?;
        self.sent.push(datagram)?;
        Ok(())
    }

    // Gives the datagram that waits longest.
    fn give(&mut self, buffer: &mut [u8; BUFFER_BYTES]) -> Option<usize>
        ensures none { IfNone result ((self.old.waiting ≡ []) × (self.new ≡ self.old)) }
        ensures some { IfSome result (λ n. (datagram : List ℕ) × (self.old.waiting ≡ datagram ∷ self.new.waiting)
            × (n ≤ length buffer.new) × (take n buffer.new ≡ front_of datagram)
            × (self.new.heard ≡ self.old.heard ++ front_of datagram ∷ [])) }
        ensures rest { self.new ≡ record self.old { waiting = self.new.waiting; heard = self.new.heard } }
    {
        let Some(datagram) = self.fed.get(self.given) else {
            return None;
        };
        let bytes = datagram.bytes();
        let length = bytes.len().min(buffer.len());
        buffer[..length].copy_from_slice(&bytes[..length]);
        self.given += 1;
        Some(length)
    }
}

impl Link for MemoryLink {
    ghost seen = { link_seen };

    fn send(&mut self, datagram: &[u8]) -> Result<(), Fault>
        ensures { SendsMemory self.old self.new result datagram.now }
    {
        count_one(&mut self.sends);
        if self.count_call() {
            return Err(Fault);
        }
        match self.keep(datagram) {
            Ok(()) => Ok(()),
            Err(Memory) => {
                count_one(&mut self.refused);
                count_one(&mut self.failures);
                Err(Fault)
            }
        }
    }

    fn poll(&mut self, buffer: &mut [u8; BUFFER_BYTES]) -> Result<Option<usize>, Fault>
        ensures { PollsMemory self.old self.new result buffer.new }
    {
        count_one(&mut self.polls);
        if self.count_call() {
            return Err(Fault);
        }
        Ok(self.give(buffer))
    }
}
