//! One who waits in the hall.

ghost use Rattle.std.specs.Prelude.{◌↔◌, IsTrue};
ghost use Rattle.page_server.specs.Hall.{IsWaiting};
ghost use Rattle.page_service.specs.Showing.{ShowsKey};

use crate::transfer::unless_failed;
use page_service::{Key, shows_key};
use std::io::{Read, Write};

/// How many bytes are kept of a guest. A line that asks for a page has more, or ends before.
const MOST_HEARD: usize = 64;

/// For how many milliseconds one may wait.
const PATIENCE: u64 = 10_000;

/// How often a guest that goes is read from.
const MOST_READS: usize = 16;

/// What a guest is told whose first line does not show the key.
const NO_SUCH_PATH: &[u8] = b"HTTP/1.1 404 Not Found\r\n\
    content-type: text/plain; charset=utf-8\r\n\
    cache-control: no-store\r\n\
    x-content-type-options: nosniff\r\n\
    content-security-policy: default-src 'none'; frame-ancestors 'none'\r\n\
    content-length: 12\r\n\
    connection: close\r\n\r\n\
    no such path";

/// One who has not shown the key: the stream, the bytes that were heard, and the moment in milliseconds at which it
/// came.
#[derive(Drop)]
pub struct Guest<C> {
    pub(crate) stream: C,
    pub(crate) heard: Vec<u8>,
    pub(crate) came: u64,
}

impl<C> Guest<C> {
    // Whether it may still wait.
    pub(crate) fn is_waiting(&self, now: u64) -> bool
        ensures { IsTrue result ↔ IsWaiting now self.now }
    {
        now < self.came || now - self.came < PATIENCE
    }

    // Whether it has shown the key.
    pub(crate) fn has_shown(&self, key: &Key) -> bool
        ensures { IsTrue result ↔ ShowsKey key.now self.now.heard.items }
    {
        shows_key(key, &self.heard)
    }

    // Whether nothing more is to be heard, whatever the key is: the first line has ended, or enough was heard of it.
    fn is_heard(&self) -> bool {
        self.heard.len() >= MOST_HEARD || self.heard.contains(&b'\n')
    }
}

impl<C: Read + Write> Guest<C> {
    // Hears what has come. Says whether it stays: not where its first line does not show the key, which it is told, nor
    // where it has ended or failed.
    pub(crate) fn listen(&mut self, key: &Key) -> bool {
        if self.is_heard() {
            return true;
        }
        if !self.hear() {
            return false;
        }
        if self.is_heard() && !self.has_shown(key) {
            self.turn_away();
            return false;
        }
        true
    }

    // Reads what has come, as far as it is kept. Says whether it has not ended or failed.
    fn hear(&mut self) -> bool {
        let mut bytes = [0u8; MOST_HEARD];
        let room = MOST_HEARD - self.heard.len().min(MOST_HEARD);
        match self.stream.read(&mut bytes[..room]) {
            Ok(0) => false,
            Ok(count) => self.heard.extend_from_slice(&bytes[..count]).is_ok(),
            Err(error) => unless_failed(error).is_ok(),
        }
    }

    // Tells that there is no such path. What has come is read before, so that the stream can end in peace.
    fn turn_away(&mut self) {
        let mut bytes = [0u8; 4096];
        for _ in 0..MOST_READS {
            match self.stream.read(&mut bytes) {
                Ok(0) | Err(_) => break,
                Ok(_) => {}
            }
        }
        let _ = self.stream.write(NO_SUCH_PATH);
    }
}
