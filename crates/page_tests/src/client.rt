//! A client in memory.

use page_server::EndsWriting;
use std::cell::RefCell;
use std::io::{self, ErrorKind, Read, Write};

/// A client: what it has yet to say, how many bytes of that it says at a time, and what it was told. Every other read
/// would block, and so would every other write.
#[derive(Drop)]
pub struct Client<'a> {
    unsaid: &'a [u8],
    piece: usize,
    told: &'a RefCell<Vec<u8>>,
    // Whether the last read found something, and whether the last write was taken.
    says: bool,
    takes: bool,
}

impl<'a> Client<'a> {
    /// A client that is to say this, so many bytes at a time, and to note there what it is told. Its first write would
    /// block.
    pub fn new(unsaid: &'a [u8], piece: usize, told: &'a RefCell<Vec<u8>>) -> Client<'a> {
        Client {
            unsaid,
            piece,
            told,
            says: false,
            takes: true,
        }
    }

    /// A client that is to say this at once, and whose first write would not block.
    pub fn ready(unsaid: &'a [u8], told: &'a RefCell<Vec<u8>>) -> Client<'a> {
        Client {
            takes: false,
            ..Client::new(unsaid, usize::MAX, told)
        }
    }
}

impl Read for Client<'_> {
    fn read(&mut self, buf: &mut [u8]) -> io::Result<usize> {
        self.says = !self.says && !self.unsaid.is_empty();
        if !self.says {
            return Err(ErrorKind::WouldBlock.into());
        }
        let count = buf.len().min(self.piece).min(self.unsaid.len());
        self.unsaid.read(&mut buf[..count])
    }
}

impl Write for Client<'_> {
    fn write(&mut self, buf: &[u8]) -> io::Result<usize> {
        self.takes = !self.takes;
        if !self.takes {
            return Err(ErrorKind::WouldBlock.into());
        }
        let Ok(mut told) = self.told.try_borrow_mut() else {
            return Err(ErrorKind::Other.into());
        };
        told.extend_from_slice(buf)?;
        Ok(buf.len())
    }

    fn flush(&mut self) -> io::Result<()> {
        Ok(())
    }
}

impl EndsWriting for Client<'_> {
    fn end_writing(&mut self) {}
}
