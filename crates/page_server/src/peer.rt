//! A peer: a stream, and the connection over it.

ghost use Rattle.std.specs.Prelude.{◌≡◌, ◌+◌, ◌↔◌, nat_le, true, List, IsTrue};
ghost use Rattle.http_server.specs.Exchange.{Call, Chain};
ghost use Rattle.page_service.specs.Kept.{may_differ};
ghost use Rattle.page_service.specs.Keeping.{Answers};
ghost use Rattle.page_service.specs.Keeper.{keeping};
ghost use Rattle.page_server.specs.Peer.{TakesIn, Finishes, IsFresh, HasReceived, HasSent};
ghost use Rattle.page_server.specs.Peer.{after_transfer, begun_after, ClosesIfDone, Lingers};
ghost use Rattle.page_server.specs.Peers.{is_before, is_over, linger_time, stays};

use crate::ends_writing::EndsWriting;
use crate::transfer::{finds_end, send_out, take_in};
use http_server::Connection;
use page_service::{Kept, StateKeeper};
use std::io::{self, Read};
use view_session::store::StateStore;

// For so many milliseconds what a peer still sends once it is done is read and dropped, so that it can read its
// answer.
const LINGER: u64 = 2_000;

/// A stream, the connection over it, and the moment in milliseconds at which bytes last moved.
#[derive(Drop)]
pub struct Peer<C> {
    pub(crate) stream: C,
    connection: Connection,
    moved: u64,
    // The moment at which bytes first came behind the last call: since then a request is unfinished.
    begun: Option<u64>,
    // Whether its calls in the round may have changed what is kept.
    has_changed: bool,
    is_open: bool,
    // The moment at which it was done, while what it still sends is dropped.
    ended: Option<u64>,
}

// Whether what is kept may have changed between these versions.
fn may_differ(before: u64, after: u64) -> bool
    ensures { result ≡ may_differ before after }
{
    after != before || after == u64::MAX
}

// Whether so many milliseconds have gone by since a moment.
fn is_past(since: u64, now: u64, limit: u64) -> bool
    ensures { result ≡ nat_le (since + limit) now }
{
    now >= since && now - since >= limit
}

impl<C> Peer<C> {
    /// A peer that is open.
    pub fn new(stream: C, connection: Connection, now: u64) -> Peer<C>
        ensures { IsFresh now stream connection result }
    {
        Peer {
            stream,
            connection,
            moved: now,
            begun: None,
            has_changed: false,
            is_open: true,
            ended: None,
        }
    }

    // Whether it is to be kept: it is open, has moved bytes within so many milliseconds, and no request is unfinished
    // for `total` or more; or it was done a short while ago.
    pub(crate) fn stays(&self, now: u64, patience: u64, total: u64) -> bool
        ensures { result ≡ stays now patience total self.now }
    {
        if self.is_open {
            !is_past(self.moved, now, patience) && !self.is_late(now, total)
        } else {
            self.is_lingering(now)
        }
    }

    // Whether a request is unfinished for so many milliseconds.
    fn is_late(&self, now: u64, total: u64) -> bool
        ensures { result ≡ is_over now total self.now.begun }
    {
        match self.begun {
            Some(since) => is_past(since, now, total),
            None => false,
        }
    }

    // Whether it was done less than two seconds ago.
    fn is_lingering(&self, now: u64) -> bool
        ensures { result ≡ is_before now linger_time self.now.ended }
    {
        match self.ended {
            Some(since) => !is_past(since, now, LINGER),
            None => false,
        }
    }

    // Notes the end of a transfer: the moment, where bytes moved. Where the stream failed the peer is closed. Says
    // whether bytes moved over a stream that did not fail.
    fn note(&mut self, moved: io::Result<bool>, now: u64) -> bool
        ensures noted { self.new ≡ after_transfer moved now self.old }
        ensures moved { IsTrue result ↔ (moved ≡ Ok true) }
    {
        match moved {
            Ok(true) => {
                self.moved = now;
                true
            }
            Ok(false) => false,
            Err(_) => {
                self.is_open = false;
                false
            }
        }
    }

    // Notes that a call was made, or that bytes came behind the last one.
    fn note_request(&mut self, has_called: bool, came: bool, now: u64)
        ensures { self.new ≡ record self.old { begun = begun_after now has_called came self.old.begun } }
    {
        if has_called {
            self.begun = None;
        } else if came && self.begun.is_none() {
            self.begun = Some(now);
        }
    }
}

impl<C: Read> Peer<C> {
    // Reads and drops what has come though the peer is done. Where the stream ends or fails that is over.
    fn linger(&mut self)
        ensures { Lingers self.old self.new }
    {
        if self.ended.is_some() && finds_end(&mut self.stream) {
            self.ended = None;
        }
    }
}

impl<C: EndsWriting> Peer<C> {
    // Closes it where HTTP has nothing more to do over it.
    fn close_if_done(&mut self, now: u64)
        ensures { ClosesIfDone now self.old self.new }
    {
        if self.is_open && self.connection.is_done() {
            self.is_open = false;
            self.ended = Some(now);
            self.stream.end_writing();
        }
    }
}

impl<C: Read + EndsWriting> Peer<C> {
    // Takes in what has come. Says whether bytes came. Where the stream fails the peer is closed.
    pub(crate) fn take_in<S: Kept, T: StateStore>(
        &mut self,
        keeper: &mut StateKeeper<S, T>,
        now: u64,
    ) -> bool
        ensures part { (mine : List Call)
            × TakesIn (may_differ (S.version (keeping T.seen keeper.old).service)
            (S.version (keeping T.seen keeper.new).service)) result now self.old self.new mine
            × Chain (Answers S.answers) (keeping T.seen keeper.old) mine (keeping T.seen keeper.new) }
        ensures came { IsTrue result → HasReceived self.old self.new }
    {
        if !self.is_open {
            self.linger();
            return false;
        }
        keeper.forget();
        let before = keeper.version();
        let came = take_in(&mut self.connection, keeper, &mut self.stream);
        self.has_changed = may_differ(before, keeper.version());
        let came = self.note(came, now);
        self.note_request(keeper.has_answered(), came, now);
        came
    }

    // Sends what waits, unless the file is not kept and the calls of the peer changed what is kept: then it is closed.
    // Says whether bytes went. A peer that is done, or whose stream fails, is closed, too.
    pub(crate) fn finish(&mut self, kept: bool, now: u64) -> bool
        ensures part { Finishes kept result now self.old self.new }
        ensures went { IsTrue result → HasSent self.old self.new }
    {
        if !self.is_open {
            return false;
        }
        if self.has_changed && !kept {
            self.is_open = false;
            return false;
        }
        let sent = send_out(&mut self.connection, &mut self.stream);
        let went = self.note(sent, now);
        self.close_if_done(now);
        went
    }
}
