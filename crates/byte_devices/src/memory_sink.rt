//! A sink in memory.
ghost use Rattle.std.specs.Prelude.{◌≡◌, ◌<◌, Some};
ghost use Rattle.byte_devices.specs.MemoryDevice.{output_seen, fresh_output, PutsMemory};

use crate::count::count_one;
use crate::fault::Fault;
use crate::sink::Sink;
use std::alloc::Global;
use std::marker::Model;

/// A sink that keeps what it takes in memory. It takes pieces of a chosen length, and one chosen put
/// fails. A put that finds no memory fails, too.
#[derive(Debug, Drop)]
pub struct MemorySink {
    bytes: Vec<u8>,
    piece: usize,
    fails_at: Option<u64>,
    puts: u64,
    failures: u64,
    refused: u64,
}

impl Model for MemorySink {
    ghost use Rattle.std.specs.Prelude.{◌<◌};
    ghost use Rattle.byte_devices.specs.MemoryDevice.{MemoryOutput};

    ghost Value = { MemoryOutput };

    ghost view = { λ s. record {
      written = s.bytes.items;
      piece = s.piece;
      fails_at = s.fails_at;
      puts = s.puts;
      failures = s.failures;
      refused = s.refused;
    } };

    ghost invariant = { λ s. 0 < s.piece };
}

impl MemorySink {
    /// An empty sink. A put takes all its bytes, and none is chosen to fail.
    pub fn new(alloc: Global) -> MemorySink
        ensures { result ≡ fresh_output usize.MAX }
    {
        MemorySink {
            bytes: Vec::new(alloc),
            piece: usize::MAX,
            fails_at: None,
            puts: 0,
            failures: 0,
            refused: 0,
        }
    }

    /// The same, where a put takes at most `most` bytes.
    pub fn in_pieces(self, most: usize) -> MemorySink
        requires { 0 < most }
        ensures { result ≡ record self { piece = most } }
    {
        MemorySink {
            piece: most,
            ..self
        }
    }

    /// The same, where the put of this number fails, counted from 1.
    pub fn failing_at(self, put: u64) -> MemorySink
        ensures { result ≡ record self { fails_at = Some put } }
    {
        MemorySink {
            fails_at: Some(put),
            ..self
        }
    }

    /// The bytes taken so far.
    pub fn written(&self) -> &[u8]
        ensures { result.now ≡ self.now.written }
    {
        &self.bytes
    }

    /// How many puts were made.
    pub fn puts(&self) -> u64
        ensures { result ≡ self.now.puts }
    {
        self.puts
    }

    /// How many puts found no memory.
    pub fn refused(&self) -> u64
        ensures { result ≡ self.now.refused }
    {
        self.refused
    }

    /// How many puts failed.
    pub fn failures(&self) -> u64
        ensures { result ≡ self.now.failures }
    {
        self.failures
    }
}

impl Sink for MemorySink {
    ghost seen = { output_seen };

    fn put(&mut self, bytes: &[u8]) -> Result<usize, Fault>
        ensures { PutsMemory self.old self.new result bytes.now }
    {
        count_one(&mut self.puts);
        let n = self.piece.min(bytes.len());
        if self.fails_at == Some(self.puts) {
            count_one(&mut self.failures);
            return Err(Fault);
        }
        if self.bytes.extend_from_slice(&bytes[..n]).is_err() {
            count_one(&mut self.refused);
            count_one(&mut self.failures);
            return Err(Fault);
        }
        Ok(n)
    }
}
