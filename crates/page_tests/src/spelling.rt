//! Requests as they are spelled, and answers as they are read.

use grid_core::Memory;
use std::alloc::Global;

/// The digits of the key of all sessions.
pub const KEY: &str = "0123456789abcdef0011223344556677";

/// The fields that let a request of a session through.
pub const OURS: &str = "Host: 127.0.0.1:8080\r\nOrigin: http://127.0.0.1:8080\r\n";

/// A request: its line without the version, in which `KEY` stands for the key; its fields, each with its end, but for
/// the length of the body; and its body.
#[derive(Clone, Copy, Drop)]
pub struct Request<'a> {
    pub line: &'a str,
    pub fields: &'a str,
    pub body: &'a [u8],
}

impl Request<'_> {
    /// The bytes of the request under this key.
    ///
    /// Errors: out of memory.
    pub fn spelled(&self, alloc: Global, key: &str) -> Result<Vec<u8>, Memory> {
        let (fields, length) = (self.fields, self.body.len());
        let line = self.line.replace(alloc, "KEY", key)?;
        let head = format!(in alloc;
            "{line} HTTP/1.1\r\n{fields}Content-Length: {length}\r\n\r\n"
        )?;
        let mut all = head.into_bytes();
        all.extend_from_slice(self.body)?;
        Ok(all)
    }
}

/// Whether these bytes begin an answer with this status.
pub fn begins(told: &[u8], status: &[u8]) -> bool {
    told.starts_with(b"HTTP/1.1 ".as_slice()) && told[9..].starts_with(status)
}

/// What stands behind the head of an answer.
pub fn body_of(told: &[u8]) -> &[u8] {
    for at in 0..told.len() {
        if told[at..].starts_with(b"\r\n\r\n".as_slice()) {
            return &told[at + 4..];
        }
    }
    told
}
