//! The readers of std as sources.
ghost use Rattle.std.specs.Prelude.{◌≡◌, IfErr};
ghost use Rattle.std.specs.Io.{ReadsAtMost};
ghost use Rattle.std.specs.Io.KnownBytes.{ReadConsumes};
ghost use Rattle.byte_devices.specs.Device.{fresh_source};
ghost use Rattle.std.specs.IoError.{error_kind};
ghost use Rattle.std.specs.declared.io.ErrorKind.TheVariants.{Interrupted};

use crate::count::count_one;
use crate::fault::Fault;
use crate::source::Source;
use std::io::{self, ErrorKind, Read};

// How often an interrupted read is tried again.
const MOST_TRIES: u32 = 1_000_000;

// One read, tried again where a signal interrupts it. Where no try is left it is out of time.
fn read_retrying<R: Read>(reader: &mut R, buf: &mut [u8]) -> io::Result<usize>
    ensures bound { ReadsAtMost result buf.new }
    ensures bytes { ReadConsumes (R.remaining reader.old) (R.remaining reader.new) result buf.new }
    ensures retried { IfErr result (λ e. error_kind e ≡ Interrupted → ⊥) }
{
    for _ in 0..MOST_TRIES {
        match reader.read(buf) {
            Ok(n) => return Ok(n),
            Err(e) => {
                if e.kind() != ErrorKind::Interrupted {
                    return Err(e);
                }
            }
        }
    }
    Err(ErrorKind::TimedOut.into())
}

/// A reader of std as a source. An interrupted read is tried again many times; every other
/// error of the reader is a fault.
#[derive(Drop)]
pub struct StdSource<R: Read> {
    reader: R,
    pulls: u64,
    failures: u64,
    ends: u64,
}

impl<R: Read> StdSource<R> {
    /// The reader as a source, with all counts at 0.
    pub fn new(reader: R) -> StdSource<R>
        ensures { ⟦<StdSource<R> as Source>⟧.seen result ≡ fresh_source (R.remaining reader) }
    {
        StdSource {
            reader,
            pulls: 0,
            failures: 0,
            ends: 0,
        }
    }
}

impl<R: Read> Source for StdSource<R> {
    ghost seen = { λ s. record {
      remaining = R.remaining s.reader;
      pulls = s.pulls;
      failures = s.failures;
      ends = s.ends;
    } };

    fn pull(&mut self, buf: &mut [u8]) -> Result<usize, Fault> {
        count_one(&mut self.pulls);
        match read_retrying(&mut self.reader, buf) {
            Ok(n) => {
                if n == 0 {
                    count_one(&mut self.ends);
                }
                Ok(n)
            }
            Err(_) => {
                count_one(&mut self.failures);
                Err(Fault)
            }
        }
    }
}
