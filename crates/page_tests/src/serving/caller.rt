//! A client of a page that is served: it asks as soon as it is told the address, and says the rest later.

use super::Play;
use crate::spelling::Request;
use std::alloc::Global;
use std::cell::RefCell;
use std::io::{self, ErrorKind, Read, Write};
use std::net::{Ipv4Addr, Net, TcpStream};

/// The stream of a client, once it was told an address.
pub type Line<S> = RefCell<Option<S>>;

/// A client that is told the address of a page, with its LF, in one piece. It asks the question of a play there but for
/// its rest, where nobody listens on that port at another address, and then the answer comes from its line.
#[derive(Drop)]
pub struct Caller<'a, R: Net> {
    pub rt: &'a R,
    pub alloc: Global,
    pub play: &'static Play,
    pub line: &'a Line<R::Stream>,
}

// The port and the key of an address.
fn place_of(line: &[u8]) -> Option<(u16, &str)> {
    let text = str::from_utf8(line).ok()?;
    let (port, rest) = text.strip_prefix("http://127.0.0.1:")?.split_once('/')?;
    Some((port.parse::<u16>().ok()?, rest.strip_suffix("/\n")?))
}

// Asks the question of a play at this port, all but its rest.
fn ask<W: Write>(alloc: Global, stream: &mut W, play: &Play, port: u16) -> io::Result<()> {
    let fields = format!(in alloc;
        "Host: 127.0.0.1:{port}\r\nOrigin: http://127.0.0.1:{port}\r\n"
    )?;
    let request = Request {
        line: play.line,
        fields: &fields,
        body: play.body,
    };
    match request.spelled(alloc, play.key) {
        Ok(mut spelled) => {
            spelled.truncate(spelled.len().saturating_sub(play.rest.len()));
            stream.write_all(&spelled)
        }
        Err(_) => Err(ErrorKind::OutOfMemory.into()),
    }
}

/// What is left of a question is said. Where the stream has ended nobody hears it.
pub fn say_rest<S: Write>(line: &Line<S>, rest: &[u8]) {
    let Ok(mut line) = line.try_borrow_mut() else {
        return;
    };
    if let Some(stream) = line.as_mut() {
        let _ = stream.write_all(rest);
    }
}

/// All that comes from a stream is put behind the answer. Says whether there is a stream, and it ended.
pub fn hears<S: Read>(stream: &mut Option<S>, answer: &mut Vec<u8>) -> bool {
    match stream {
        Some(stream) => stream.read_to_end(answer).is_ok(),
        None => false,
    }
}

impl<R: Net> Caller<'_, R> {
    // Asks at this port, unless somebody listens on it at another address of this machine.
    fn call(&mut self, port: u16) -> io::Result<()> {
        if TcpStream::connect(self.rt, (Ipv4Addr::new(127, 0, 0, 2), port)).is_ok() {
            return Err(ErrorKind::Other.into());
        }
        let mut stream = TcpStream::connect(self.rt, (Ipv4Addr::LOCALHOST, port))?;
        let asked = ask(self.alloc, &mut stream, self.play, port);
        let _ = self.line.try_replace(Some(stream));
        asked
    }
}

impl<R: Net> Write for Caller<'_, R> {
    fn write(&mut self, buf: &[u8]) -> io::Result<usize> {
        match place_of(buf) {
            Some((port, key)) if key == self.play.key => self.call(port)?,
            _ => return Err(ErrorKind::InvalidData.into()),
        }
        Ok(buf.len())
    }

    fn flush(&mut self) -> io::Result<()> {
        Ok(())
    }
}
