//! The hall: where those wait who have not shown the key yet.
//!
//! An address has a key that only those know who were told. A server that gives each connection a place, with memory
//! for what it asks, can be filled by anybody on the machine. So a connection waits in the hall first, until its first
//! bytes show the key in a path. There are few places in the hall, nobody stays there for long, and no more than 64
//! bytes are kept of anybody:
//!
//! ```text
//! hall.admit(stream, now);                // who waits longest goes where the hall is full
//! hall.listen();                          // who asks for another path is told that there is none, and goes
//! while let Some((heard, stream)) = hall.next() {
//!     // .. it has shown the key: give it a place, where these bytes are read first, and then those of the stream
//! }
//! hall.sweep(now);                        // who came ten seconds ago goes
//! ```
//!
//! Whether a guest is heard out does not depend on the key, and the key is compared as a whole, so that nobody learns a
//! part of it by trying.

ghost use Rattle.std.specs.Prelude.{◌≡◌, [], ◌<◌, ◌≤◌, Some, IfSome, All, length, slice_get, vec_len};
ghost use Rattle.page_service.specs.Showing.{ShowsKey};

use crate::guest::Guest;
use page_service::Key;
use std::alloc::Global;
use std::io::{Read, Write};

/// How many wait in the hall at most.
const MOST_GUESTS: usize = 8;

/// Those who came and have not shown the key, at most eight of them.
#[derive(Drop)]
pub struct Hall<C> {
    alloc: Global,
    key: Key,
    pub(crate) guests: Vec<Guest<C>>,
    ghost few: { vec_len guests ≤ 8 },
}

impl<C: Drop> Hall<C> {
    ghost use Rattle.page_server.specs.Hall.{guests_of, IsWaiting};
    ghost use Rattle.page_server.specs.declared.guest.Guest.{Guest as Waiter};

    /// A hall where nobody waits.
    pub fn new(alloc: Global, key: Key) -> Hall<C>
        ensures key { result.key ≡ key }
        ensures nobody { guests_of result ≡ [] }
    {
        Hall {
            alloc,
            key,
            guests: Vec::new(alloc),
        }
    }

    /// Lets one in. Where the hall is full, who waits longest goes. Where memory is wanting, who came goes.
    pub fn admit(&mut self, stream: C, now: u64)
        ensures key { self.new.key ≡ self.old.key }
    {
        if self.guests.len() >= MOST_GUESTS {
            drop(self.guests.remove(0));
        }
        let _ = self.guests.push(Guest {
            stream,
            heard: Vec::new(self.alloc),
            came: now,
        });
    }

    /// The one who waits longest of those who have shown the key, by the bytes that were heard and the stream behind
    /// them.
    pub fn next(&mut self) -> Option<(Vec<u8>, C)>
        ensures shown { IfSome result (λ guest. ShowsKey self.old.key guest.0.items) }
        ensures key { self.new.key ≡ self.old.key }
    {
        let at = self.first_shown()?;
        let Guest { stream, heard, .. } = self.guests.remove(at);
        Some((heard, stream))
    }

    // Where the first stands who has shown the key.
    fn first_shown(&self) -> Option<usize>
        ensures within { IfSome result (λ at. at < length (guests_of self.now)) }
        ensures shown { IfSome result (λ at. (guest : Waiter C) → slice_get (guests_of self.now) at ≡ Some guest
            → ShowsKey self.now.key guest.heard.items) }
    {
        for at in 0..self.guests.len() {
            if self.guests[at].has_shown(&self.key) {
                return Some(at);
            }
        }
        None
    }

    /// Those go who came ten seconds ago.
    pub fn sweep(&mut self, now: u64)
        ensures waiting { All (IsWaiting now) (guests_of self.new) }
        ensures key { self.new.key ≡ self.old.key }
    {
        self.guests.retain(|guest| guest.is_waiting(now));
    }
}

impl<C: Read + Write + Drop> Hall<C> {
    /// Hears what has come from each. Who asks for a path without the key is told that there is none, and goes; so does
    /// one whose stream has ended or failed.
    pub fn listen(&mut self)
        ensures key { self.new.key ≡ self.old.key }
    {
        let key = &self.key;
        self.guests.retain_mut(|guest| guest.listen(key));
    }
}
