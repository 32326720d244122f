//! A service with the file that keeps its state.

ghost use Rattle.std.specs.Prelude.{◌≡◌, ◌↔◌, false, IsTrue};
ghost use Rattle.page_service.specs.Keeping.{IsBehind, IsJoined, IsTracked, Settles};
ghost use Rattle.page_service.specs.Keeper.{keeping, KeeperAnswers};

use crate::joiner::Joiner;
use crate::kept::Kept;
use bytes::Bytes;
use http::Request;
use http_server::{Response, Service};
use std::alloc::{AllocError, Global};
use std::marker::Sync;
use std::thread::Threads;
use view_session::store::{StatePath, StateStore};

/// A service, the store that has its file, the bytes that the store answered last, and the version of the service that
/// the file has.
#[derive(Drop)]
pub struct StateKeeper<S, T> {
    alloc: Global,
    joiner: Joiner<S>,
    store: T,
    path: StatePath,
    saved: u64,
    // Whether a call was answered since this was last forgotten.
    has_answered: bool,
}

impl<S: Kept, T: StateStore> StateKeeper<S, T> {
    /// A keeper of a service whose state the file of this name keeps already, which has these bytes. Nothing is saved
    /// until the version rises.
    pub fn new(
        alloc: Global,
        service: S,
        last: Vec<u8>,
        store: T,
        path: StatePath,
    ) -> StateKeeper<S, T>
        ensures seen { keeping T.seen result ≡ record {
          service = service;
          files = (T.seen store).held;
          name = path;
          last = last.items;
          saved = S.version service;
        } }
        ensures tracked { S.spells service last.items → S.has service last.items
            → IsTracked S.version S.spells S.has (keeping T.seen result) }
    {
        let saved = service.version();
        StateKeeper {
            alloc,
            joiner: Joiner { service, last },
            store,
            path,
            saved,
            has_answered: false,
        }
    }

    /// The service.
    pub fn service(&self) -> &S
        ensures { result.now ≡ (keeping T.seen self.now).service }
    {
        &self.joiner.service
    }

    /// The store.
    pub fn store(&self) -> &T
        ensures { (T.seen result.now).held ≡ (keeping T.seen self.now).files }
    {
        &self.store
    }

    /// Whether what the service keeps may have changed since it was saved.
    pub fn is_behind(&self) -> bool
        ensures { IsTrue result ↔ IsBehind S.version (keeping T.seen self.now) }
    {
        let version = self.joiner.service.version();
        self.saved < version || version == u64::MAX
    }

    /// Does a share of the work that calls have left, by threads of this handle where that is worth while. Says whether
    /// work is left after it, also where memory was wanting.
    pub fn work<R: Threads + Sync>(&mut self, rt: &R) -> bool
        ensures works { S.works (keeping T.seen self.old).service (keeping T.seen self.new).service }
        ensures left { IsTrue result ↔ S.has_work (keeping T.seen self.new).service }
        ensures rest { keeping T.seen self.new
            ≡ record (keeping T.seen self.old) { service = (keeping T.seen self.new).service } }
        ensures tracked { IsTracked S.version S.spells S.has (keeping T.seen self.old)
            → IsTracked S.version S.spells S.has (keeping T.seen self.new) }
    {
        self.joiner.service.work(rt)
    }

    /// Saves the file where what is kept may have changed: what others wrote there meanwhile is taken in, and the file
    /// that keeps both takes its place. Says whether the state is kept now: not where the store failed, memory was
    /// wanting, or the service did not take what was found. The service is told which.
    pub fn keep(&mut self) -> bool
        ensures settles { Settles S.version S.spells S.has S.takes S.notes (keeping T.seen self.old) result
            (keeping T.seen self.new) }
        ensures joins { IsTracked S.version S.spells S.has (keeping T.seen self.old)
            → IsBehind S.version (keeping T.seen self.old) → IsTrue result
            → IsJoined S.spells S.has (keeping T.seen self.old) (keeping T.seen self.new) }
        ensures noted { self.new.has_answered ≡ self.old.has_answered }
    {
        if !self.is_behind() {
            return true;
        }
        let saved = self.store.save(self.alloc, &self.path, &mut self.joiner);
        match saved {
            Ok(file) => {
                self.joiner.last = file;
                self.saved = self.joiner.service.version();
                self.joiner.service.note(None);
                true
            }
            Err(why) => {
                self.joiner.service.note(Some(why));
                false
            }
        }
    }

    /// The version of the service.
    pub fn version(&self) -> u64
        ensures { result ≡ S.version (keeping T.seen self.now).service }
    {
        self.joiner.service.version()
    }

    /// Forgets that calls were answered.
    pub fn forget(&mut self)
        ensures { self.new ≡ record self.old { has_answered = false } }
    {
        self.has_answered = false;
    }

    /// Whether a call was answered since that was last forgotten.
    pub fn has_answered(&self) -> bool
        ensures { result ≡ self.now.has_answered }
    {
        self.has_answered
    }
}

impl<S: Kept, T: StateStore> Service for StateKeeper<S, T> {
    ghost answers = { KeeperAnswers S.answers };

    fn call(
        &mut self,
        request: &Request<Bytes>,
        response: &mut Response,
    ) -> Result<(), AllocError> {
        self.joiner.service.call(request, response)?;
        self.has_answered = true;
        Ok(())
    }
}
