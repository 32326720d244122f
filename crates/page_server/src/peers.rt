//! The peers that are open.

ghost use Rattle.std.specs.Prelude.{◌≡◌, ◌∷◌, [], ◌++◌, ◌≤◌, ◌↔◌};
ghost use Rattle.std.specs.Prelude.{List, IfOk, length, filter, IsTrue, IsFalse, vec_capacity};
ghost use Rattle.std.specs.List.{AllZip};
ghost use Rattle.http_server.specs.Exchange.{Call};
ghost use Rattle.page_service.specs.Kept.{may_differ};
ghost use Rattle.page_service.specs.Keeping.{Answers};
ghost use Rattle.page_service.specs.Keeper.{keeping};
ghost use Rattle.page_server.specs.Pairs.{InTurn, InSomePair};
ghost use Rattle.page_server.specs.Peer.{TakesIn, Finishes, IsFresh, HasReceived, HasSent};

use crate::ends_writing::EndsWriting;
use crate::peer::Peer;
use grid_core::Memory;
use http_server::Connection;
use page_service::{Kept, StateKeeper};
use std::alloc::Global;
use std::io::Read;
use view_session::store::StateStore;

/// The peers that are open, at most so many.
#[derive(Drop)]
pub struct PeerList<C> {
    pub(crate) list: Vec<Peer<C>>,
    most: usize,
    // None is turned away for want of memory.
    ghost room: { most ≤ vec_capacity list },
}

impl<C: Drop> PeerList<C> {
    ghost use Rattle.page_server.specs.Peers.{peers_of, most_of, stays};

    /// No peers, with room for so many.
    ///
    /// Errors: out of memory.
    pub fn new(alloc: Global, most: usize) -> Result<PeerList<C>, Memory>
        ensures none { IfOk result (λ peers. peers_of peers ≡ []) }
        ensures most { IfOk result (λ peers. most_of peers ≡ most) }
    {
        let list = Vec::with_capacity(alloc, most)?;
        Ok(PeerList { list, most })
    }

    /// How many there are, those that were closed and not yet swept among them.
    pub fn len(&self) -> usize
        ensures { result ≡ length (peers_of self.now) }
    {
        self.list.len()
    }

    /// Whether there is none.
    pub fn is_empty(&self) -> bool
        ensures { IsTrue result ↔ (peers_of self.now ≡ []) }
    {
        self.list.is_empty()
    }

    /// Takes a peer in, whose connection is new. Says whether it did: not where there are as many as there may be. Then
    /// the stream is dropped.
    pub fn admit(&mut self, stream: C, connection: Connection, now: u64) -> bool
        ensures admitted { IsTrue result → (peer : _) × IsFresh now stream connection peer
            × (peers_of self.new ≡ peers_of self.old ++ peer ∷ []) }
        ensures refused { IsFalse result → peers_of self.new ≡ peers_of self.old }
        ensures full { IsFalse result ↔ (most_of self.old ≤ length (peers_of self.old)) }
        ensures most { most_of self.new ≡ most_of self.old }
    {
        if self.list.len() >= self.most {
            drop(connection);
            return false;
        }
        self.list.push_reserved(Peer::new(stream, connection, now));
        true
    }

    /// Drops the peers over which no byte has moved for `patience` milliseconds, those over which a request is
    /// unfinished for `total` milliseconds since its first byte, and those that were closed. One that is done, so that
    /// its last answer was sent, is dropped once it sends no more, or two seconds later.
    pub fn sweep(&mut self, now: u64, patience: u64, total: u64)
        ensures swept { peers_of self.new ≡ filter (stays now patience total) (peers_of self.old) }
        ensures most { most_of self.new ≡ most_of self.old }
    {
        self.list.retain(|peer| peer.stays(now, patience, total));
    }
}

impl<C: Read + EndsWriting + Drop> PeerList<C> {
    ghost use Rattle.page_server.specs.Peers.{peers_of, most_of};

    // Takes in what has come, from one peer after another. Says whether bytes came.
    pub(crate) fn take_in<S: Kept, T: StateStore>(
        &mut self,
        keeper: &mut StateKeeper<S, T>,
        now: u64,
    ) -> bool
        ensures parts { (calls : List Call) × InTurn (Answers S.answers)
            (λ before after. TakesIn (may_differ (S.version before.service) (S.version after.service)) result now)
            (keeping T.seen keeper.old) (peers_of self.old) (peers_of self.new) calls (keeping T.seen keeper.new) }
        ensures came { IsTrue result → InSomePair HasReceived (peers_of self.old) (peers_of self.new) }
        ensures most { most_of self.new ≡ most_of self.old }
    {
        let mut came = false;
        for peer in self.list.iter_mut() {
            if peer.take_in(keeper, now) {
                came = true;
            }
        }
        came
    }

    // Sends what waits, to one peer after another. Says whether bytes went.
    pub(crate) fn finish(&mut self, kept: bool, now: u64) -> bool
        ensures parts { AllZip (Finishes kept result now) (peers_of self.old) (peers_of self.new) }
        ensures went { IsTrue result → InSomePair HasSent (peers_of self.old) (peers_of self.new) }
        ensures most { most_of self.new ≡ most_of self.old }
    {
        let mut went = false;
        for peer in self.list.iter_mut() {
            if peer.finish(kept, now) {
                went = true;
            }
        }
        went
    }
}
