//! Bytes in memory as a source.
ghost use Rattle.std.specs.Prelude.{◌≡◌, ◌<◌, length, Some};
ghost use Rattle.byte_devices.specs.MemoryDevice.{input_seen, fresh_input, PullsMemory};

use crate::count::count_one;
use crate::fault::Fault;
use crate::source::Source;
use std::marker::Model;

/// Bytes in memory as a source. It gives them in pieces of a chosen length, and one chosen pull fails.
#[derive(Debug, Drop)]
pub struct MemorySource {
    bytes: Vec<u8>,
    at: usize,
    piece: usize,
    fails_at: Option<u64>,
    pulls: u64,
    failures: u64,
    ends: u64,
}

impl Model for MemorySource {
    ghost use Rattle.std.specs.Prelude.{◌<◌, ◌≤◌, drop, length};
    ghost use Rattle.byte_devices.specs.MemoryDevice.{MemoryInput};

    ghost Value = { MemoryInput };

    ghost view = { λ s. record {
      left = drop s.at s.bytes.items;
      piece = s.piece;
      fails_at = s.fails_at;
      pulls = s.pulls;
      failures = s.failures;
      ends = s.ends;
    } };

    ghost invariant = { λ s. (s.at ≤ length s.bytes.items) × (0 < s.piece) };
}

impl MemorySource {
    /// These bytes as a source. A pull gives as many as fit, and none fails.
    pub fn new(bytes: Vec<u8>) -> MemorySource
        ensures { result ≡ fresh_input bytes.items usize.MAX }
    {
        MemorySource {
            bytes,
            at: 0,
            piece: usize::MAX,
            fails_at: None,
            pulls: 0,
            failures: 0,
            ends: 0,
        }
    }

    /// The same, where a pull gives at most `most` bytes.
    pub fn in_pieces(self, most: usize) -> MemorySource
        requires { 0 < most }
        ensures { result ≡ record self { piece = most } }
    {
        MemorySource {
            piece: most,
            ..self
        }
    }

    /// The same, where the pull of this number fails, counted from 1.
    pub fn failing_at(self, pull: u64) -> MemorySource
        ensures { result ≡ record self { fails_at = Some pull } }
    {
        MemorySource {
            fails_at: Some(pull),
            ..self
        }
    }

    /// How many pulls were made.
    pub fn pulls(&self) -> u64
        ensures { result ≡ self.now.pulls }
    {
        self.pulls
    }

    /// How many pulls failed.
    pub fn failures(&self) -> u64
        ensures { result ≡ self.now.failures }
    {
        self.failures
    }

    /// How many pulls found the end.
    pub fn ends(&self) -> u64
        ensures { result ≡ self.now.ends }
    {
        self.ends
    }
}

impl Source for MemorySource {
    ghost seen = { input_seen };

    fn pull(&mut self, buf: &mut [u8]) -> Result<usize, Fault>
        requires { 0 < length buf.old }
        ensures { PullsMemory self.old self.new result buf.old buf.new }
    {
        count_one(&mut self.pulls);
        if self.fails_at == Some(self.pulls) {
            count_one(&mut self.failures);
            return Err(Fault);
        }
        let left = &self.bytes[self.at..];
        let n = self.piece.min(left.len().min(buf.len()));
        buf[..n].copy_from_slice(&left[..n]);
        self.at += n;
        if n == 0 {
            count_one(&mut self.ends);
        }
        Ok(n)
    }
}
