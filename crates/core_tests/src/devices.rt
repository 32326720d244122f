//! Readers and writers of std that fail, as sources and sinks.

use byte_devices::{Fault, Sink, Source, StdSink, StdSource};
use std::io::{self, ErrorKind, Read, Write};

// A device of std that meets an error so many times, and then takes all bytes, and gives none.
#[derive(Drop)]
struct Stumbling {
    error: ErrorKind,
    times: u32,
}

impl Read for Stumbling {
    fn read(&mut self, _buf: &mut [u8]) -> io::Result<usize> {
        if self.times == 0 {
            return Ok(0);
        }
        self.times -= 1;
        Err(self.error.into())
    }
}

impl Write for Stumbling {
    fn write(&mut self, buf: &[u8]) -> io::Result<usize> {
        if self.times == 0 {
            return Ok(buf.len());
        }
        self.times -= 1;
        Err(self.error.into())
    }

    fn flush(&mut self) -> io::Result<()> {
        Ok(())
    }
}

// Whether a source and a sink of such devices answer a pull and a put of four bytes so, and no error is left then.
fn answer(
    error: ErrorKind,
    times: u32,
    pulled: Result<usize, Fault>,
    put: Result<usize, Fault>,
) -> bool {
    let mut source = StdSource::new(Stumbling { error, times });
    let mut sink = StdSink::new(Stumbling { error, times });
    source.pull(&mut [0; 4]) == pulled && sink.put(b"four") == put && sink.into_inner().times == 0
}

#[test]
fn interrupted_calls_are_tried_again_and_other_errors_are_faults(rt: HostRuntime) {
    assert!(rt; answer(ErrorKind::Interrupted, 1_000, Ok(0), Ok(4)));
    assert!(rt; answer(ErrorKind::BrokenPipe, 1, Err(Fault), Err(Fault)));
}
