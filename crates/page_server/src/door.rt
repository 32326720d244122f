//! The door of the loopback: the listener, and what tells that there is something to do.

use crate::ports::{TRIES, port_near};
use mio::net::{TcpListener, TcpStream};
use mio::{Events, Interest, Poll, Token};
use std::alloc::Global;
use std::io;
use std::net::{Ipv4Addr, Net, SocketAddr};
use std::time::Duration;

// How many events are told at a time. Which they are does not matter: a turn tries all that are open.
const EVENTS: usize = 128;

// All sources are registered under one name.
const ANYBODY: Token = Token(0);

/// A listener on 127.0.0.1 alone, and what tells that somebody came or is ready.
#[derive(Drop)]
pub(crate) struct Door {
    listener: TcpListener,
    poll: Poll,
    events: Events,
}

impl Door {
    /// Binds the port that is said, any free one where it is 0. Where none is said it is the first that is free of
    /// those near the home, or else any free one.
    ///
    /// Errors: the port could not be bound; out of memory.
    pub(crate) fn bind<R: Net>(
        rt: &R,
        alloc: Global,
        port: Option<u16>,
        home: u16,
    ) -> io::Result<Door> {
        let mut listener = match port {
            Some(port) => listen(rt, port)?,
            None => listen_near(rt, home)?,
        };
        match watch(rt, &mut listener) {
            Ok(poll) => Door::over(alloc, listener, poll),
            Err(why) => {
                drop(listener);
                Err(why)
            }
        }
    }

    // A door over a listener, with room for what is told of it.
    fn over(alloc: Global, listener: TcpListener, poll: Poll) -> io::Result<Door> {
        match Events::with_capacity(alloc, EVENTS) {
            Ok(events) => Ok(Door {
                listener,
                poll,
                events,
            }),
            Err(why) => {
                drop(listener);
                drop(poll);
                Err(why.into())
            }
        }
    }

    /// The port that was bound.
    ///
    /// Errors: the system does not tell.
    pub(crate) fn port(&self) -> io::Result<u16> {
        Ok(self.listener.local_addr()?.port())
    }

    /// Waits until there is something to do, at most for so long.
    ///
    /// Errors: the system refused to wait.
    pub(crate) fn wait(&mut self, most: Duration) -> io::Result<()> {
        self.poll.poll(&mut self.events, Some(most))
    }

    /// The next who came, whose bytes will be told of.
    ///
    /// Errors: nobody is there, or who was there could not be let in.
    pub(crate) fn accept(&self) -> io::Result<TcpStream> {
        let (mut stream, _) = self.listener.accept()?;
        match self.expect(&mut stream) {
            Ok(()) => Ok(stream),
            Err(why) => {
                drop(stream);
                Err(why)
            }
        }
    }

    // Sees to it that the bytes of a stream are told of.
    fn expect(&self, stream: &mut TcpStream) -> io::Result<()> {
        stream.set_nodelay(true)?;
        let ready = Interest::READABLE | Interest::WRITABLE;
        self.poll.registry().register(stream, ANYBODY, ready)
    }
}

// What tells that somebody came to a listener.
fn watch<R: Net>(rt: &R, listener: &mut TcpListener) -> io::Result<Poll> {
    let poll = Poll::new(rt)?;
    let registry = poll.registry();
    match registry.register(listener, ANYBODY, Interest::READABLE) {
        Ok(()) => Ok(poll),
        Err(why) => {
            drop(poll);
            Err(why)
        }
    }
}

// Listens on a port of 127.0.0.1.
fn listen<R: Net>(rt: &R, port: u16) -> io::Result<TcpListener> {
    TcpListener::bind(rt, SocketAddr::from((Ipv4Addr::LOCALHOST, port)))
}

// Listens on the first port that is free of those near the home, or on any free one.
fn listen_near<R: Net>(rt: &R, home: u16) -> io::Result<TcpListener> {
    for turn in 0..TRIES {
        if let Ok(listener) = listen(rt, port_near(home, turn)) {
            return Ok(listener);
        }
    }
    listen(rt, 0)
}
