//! One who has shown the key: a stream of which bytes were read before.

ghost use Rattle.std.specs.Io.KnownBytes.{Keeps};
ghost use Rattle.std.specs.Prelude.{◌≡◌};
ghost use Rattle.page_server.specs.Caller.{caller_remaining, front_of};

use crate::ends_writing::EndsWriting;
use mio::net::TcpStream;
use std::collections::VecDeque;
use std::io::{self, Read, Write};
use std::net::Shutdown;

/// A stream, and the bytes that were read of it before. A reader has those first.
#[derive(Drop)]
pub(crate) struct Caller<C> {
    pub(crate) front: VecDeque<u8>,
    pub(crate) stream: C,
}

impl<C> Caller<C> {
    /// A stream of which these bytes were read.
    pub(crate) fn new(heard: Vec<u8>, stream: C) -> Caller<C>
        ensures { front_of result ≡ heard.items }
    {
        Caller {
            front: VecDeque::from(heard),
            stream,
        }
    }
}

impl<C: Read> Read for Caller<C> {
    ghost remaining = { caller_remaining C.remaining };

    fn read(&mut self, buf: &mut [u8]) -> io::Result<usize> {
        if self.front.is_empty() {
            return self.stream.read(buf);
        }
        self.front.read(buf)
    }
}

impl<C: Write> Write for Caller<C> {
    ghost contents = { λ c. C.contents c.stream };

    fn write(&mut self, buf: &[u8]) -> io::Result<usize> {
        self.stream.write(buf)
    }

    fn flush(&mut self) -> io::Result<()> {
        self.stream.flush()
    }
}

impl EndsWriting for Caller<TcpStream> {
    fn end_writing(&mut self) {
        let _ = self.stream.shutdown(Shutdown::Write);
    }
}
