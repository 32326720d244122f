//! The writers of std as sinks.
ghost use Rattle.std.specs.Prelude.{◌≡◌, ◌<◌, length, IfOk, IfErr};
ghost use Rattle.std.specs.Io.{WritesAtMost};
ghost use Rattle.std.specs.Io.KnownBytes.{WriteAppends};
ghost use Rattle.byte_devices.specs.Device.{fresh_sink};
ghost use Rattle.std.specs.IoError.{error_kind};
ghost use Rattle.std.specs.declared.io.ErrorKind.TheVariants.{Interrupted};

use crate::count::count_one;
use crate::fault::Fault;
use crate::sink::Sink;
use std::io::{self, ErrorKind, Write};

// How often an interrupted write is tried again.
const MOST_TRIES: u32 = 1_000_000;

// One write, tried again where a signal interrupts it. Where no try is left it is out of time, and one that
// takes none of some bytes has failed.
fn write_retrying<W: Write>(writer: &mut W, bytes: &[u8]) -> io::Result<usize>
    ensures bound { WritesAtMost result bytes.now }
    ensures some { IfOk result (λ n. 0 < length bytes.now → 0 < n) }
    ensures bytes { WriteAppends (W.contents writer.old) (W.contents writer.new) result bytes.now }
    ensures retried { IfErr result (λ e. error_kind e ≡ Interrupted → ⊥) }
{
    for _ in 0..MOST_TRIES {
        match writer.write(bytes) {
            Ok(0) if !bytes.is_empty() => return Err(ErrorKind::WriteZero.into()),
            Ok(n) => return Ok(n),
            Err(e) => {
                if e.kind() != ErrorKind::Interrupted {
                    return Err(e);
                }
            }
        }
    }
    Err(ErrorKind::TimedOut.into())
}

/// A writer of std as a sink. An interrupted write is tried again many times; every other
/// error of the writer is a fault, and so is a write that takes none of some bytes.
#[derive(Drop)]
pub struct StdSink<W: Write> {
    writer: W,
    failures: u64,
}

impl<W: Write> StdSink<W> {
    /// The writer as a sink, which has not failed.
    pub fn new(writer: W) -> StdSink<W>
        ensures { ⟦<StdSink<W> as Sink>⟧.seen result ≡ fresh_sink (W.contents writer) }
    {
        StdSink {
            writer,
            failures: 0,
        }
    }

    /// The writer.
    pub fn into_inner(self) -> W
        ensures { W.contents result ≡ (⟦<StdSink<W> as Sink>⟧.seen self).written }
    {
        self.writer
    }
}

impl<W: Write> Sink for StdSink<W> {
    ghost seen = { λ s. record { written = W.contents s.writer; failures = s.failures } };

    fn put(&mut self, bytes: &[u8]) -> Result<usize, Fault> {
        match write_retrying(&mut self.writer, bytes) {
            Ok(n) => Ok(n),
            Err(_) => {
                count_one(&mut self.failures);
                Err(Fault)
            }
        }
    }
}
