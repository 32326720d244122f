//! What a server runs on, so that it ends: a clock that tells chosen moments and stops, and chosen random bytes.

use super::Play;
use super::caller::{Line, say_rest};
use std::alloc::Allocator;
use std::cell::Cell;
use std::fs::{Metadata, OpenOptions};
use std::io::{self, ErrorKind, Read};
use std::net::{Net, SocketAddr};
use std::random::RandomSource;
use std::rt::Files;
use std::time::{Clock, Duration};

/// A clock that tells the moments of a play and then stops, random bytes that are the same at each draw, and the
/// network and the files of a runtime, which can only be opened. As the clock tells its last moment, the client says
/// the rest of its question.
#[derive(Drop)]
pub struct World<'a, R: Net> {
    rt: &'a R,
    play: &'static Play,
    line: &'a Line<R::Stream>,
    // Which moment is told next.
    at: Cell<usize>,
}

impl<'a, R: Net> World<'a, R> {
    /// The world of a play whose client has this line, over this runtime.
    pub fn new(rt: &'a R, play: &'static Play, line: &'a Line<R::Stream>) -> World<'a, R> {
        let at = Cell::new(0);
        World { rt, play, line, at }
    }
}

impl<R: Net> Clock for World<'_, R> {
    fn monotonic(&self) -> io::Result<Duration> {
        let (moments, at) = (self.play.moments, self.at.get());
        let Some(moment) = moments.get(at) else {
            return Err(ErrorKind::TimedOut.into());
        };
        let next = at.saturating_add(1);
        self.at.set(next);
        if next == moments.len() {
            say_rest(self.line, self.play.rest);
        }
        Ok(Duration::from_millis(*moment))
    }

    fn since_1970(&self) -> io::Result<Duration> {
        Err(ErrorKind::Unsupported.into())
    }
}

impl<R: Net> RandomSource for World<'_, R> {
    fn fill_bytes(&self, buf: &mut [u8]) -> io::Result<()> {
        let mut undrawn = self.play.random;
        undrawn.read_exact(buf)
    }
}

impl<R: Net> Net for World<'_, R> {
    type Stream = R::Stream;

    type Listener = R::Listener;

    fn bind(&self, addr: SocketAddr) -> io::Result<R::Listener> {
        self.rt.bind(addr)
    }

    fn connect(&self, addr: SocketAddr) -> io::Result<R::Stream> {
        self.rt.connect(addr)
    }
}

impl<R: Net + Files> Files for World<'_, R> {
    type File = R::File;

    type Dir = R::Dir;

    fn open_file(&self, how: &OpenOptions, path: &str) -> io::Result<R::File> {
        self.rt.open_file(how, path)
    }

    fn open_dir(&self, _path: &str) -> io::Result<R::Dir> {
        Err(ErrorKind::Unsupported.into())
    }

    fn metadata(&self, _path: &str) -> io::Result<Metadata> {
        Err(ErrorKind::Unsupported.into())
    }

    fn symlink_metadata(&self, _path: &str) -> io::Result<Metadata> {
        Err(ErrorKind::Unsupported.into())
    }

    fn copy(&self, _from: &str, _to: &str) -> io::Result<u64> {
        Err(ErrorKind::Unsupported.into())
    }

    fn rename(&self, _from: &str, _to: &str) -> io::Result<()> {
        Err(ErrorKind::Unsupported.into())
    }

    fn remove_file(&self, _path: &str) -> io::Result<()> {
        Err(ErrorKind::Unsupported.into())
    }

    fn create_dir(&self, _path: &str) -> io::Result<()> {
        Err(ErrorKind::Unsupported.into())
    }

    fn remove_dir(&self, _path: &str) -> io::Result<()> {
        Err(ErrorKind::Unsupported.into())
    }

    fn remove_dir_all<B: Allocator>(&self, _alloc: B, _path: &str) -> io::Result<()> {
        Err(ErrorKind::Unsupported.into())
    }
}
