//! Links over UDP, on loopback.

ghost use Rattle.std.specs.Prelude.{◌≡◌, ◌≤◌, length, None, IfOk, IfSome};
ghost use Rattle.link_nodes.specs.Links.{fresh_link};
ghost use Rattle.link_nodes.specs.UdpLinks.{port_of, peers_of};

use crate::link::{BUFFER_BYTES, Link};
use byte_devices::{Fault, count_one};
use std::io::ErrorKind;
use std::net::{Ipv4Addr, Net, UdpSocket};

/// A socket on 127.0.0.1 as a link. Each datagram goes to every peer. It keeps none of them.
///
/// It takes datagrams of whoever sends to its port. That a datagram arrives is promised nowhere.
#[derive(Drop)]
pub struct UdpLink {
    socket: UdpSocket,
    pub(crate) port: u16,
    pub(crate) peers: Vec<u16>,
    polls: u64,
    sends: u64,
    failures: u64,
}

impl UdpLink {
    /// A socket at a port of 127.0.0.1, which sends to these ports there. It never waits.
    ///
    /// Errors: a fault, where the socket cannot be bound, or not be told not to wait.
    pub fn bind<R: Net>(net: &R, port: u16, peers: Vec<u16>) -> Result<UdpLink, Fault>
        ensures fresh { IfOk result (λ link. ⟦<UdpLink as Link>⟧.seen link ≡ fresh_link) }
        ensures told { IfOk result (λ link. (port_of link ≡ port) × (peers_of link ≡ peers.items)) }
    {
        let Ok(socket) = UdpSocket::bind(net, (Ipv4Addr::LOCALHOST, port)) else {
            return Err(Fault);
        };
        if socket.set_nonblocking(true).is_err() {
            return Err(Fault);
        }
        Ok(UdpLink {
            socket,
            port,
            peers,
            polls: 0,
            sends: 0,
            failures: 0,
        })
    }

    /// The port.
    pub fn port(&self) -> u16
        ensures { result ≡ port_of self.now }
    {
        self.port
    }

    // Sends a datagram to every peer, and answers whether each took it whole.
    fn send_to_all(&self, datagram: &[u8]) -> bool {
        let mut all = true;
        for peer in &self.peers {
            all &= self.send_to(*peer, datagram);
        }
        all
    }

    // Sends a datagram to one peer, and answers whether the system took it whole.
    fn send_to(&self, peer: u16, datagram: &[u8]) -> bool {
        match self.socket.send_to(datagram, (Ipv4Addr::LOCALHOST, peer)) {
            Ok(length) => length == datagram.len(),
            Err(_) => false,
        }
    }

    // The next datagram, if one is there. A poll that a signal interrupts finds none.
    fn receive(&self, buffer: &mut [u8; BUFFER_BYTES]) -> Result<Option<usize>, Fault>
        ensures { IfOk result (λ found. IfSome found (λ n. n ≤ length buffer.new)) }
    {
        match self.socket.recv_from(buffer) {
            Ok((length, _)) => Ok(Some(length)),
            Err(error) => match error.kind() {
                ErrorKind::WouldBlock | ErrorKind::Interrupted => Ok(None),
                _ => Err(Fault),
            },
        }
    }
}

impl Link for UdpLink {
    ghost seen = { λ link. record {
      heard = None;
      sent = None;
      polls = link.polls;
      sends = link.sends;
      failures = link.failures;
    } };

    fn send(&mut self, datagram: &[u8]) -> Result<(), Fault> {
        count_one(&mut self.sends);
        if self.send_to_all(datagram) {
            return Ok(());
        }
        count_one(&mut self.failures);
        Err(Fault)
    }

    fn poll(&mut self, buffer: &mut [u8; BUFFER_BYTES]) -> Result<Option<usize>, Fault> {
        count_one(&mut self.polls);
        match self.receive(buffer) {
            Ok(found) => Ok(found),
            Err(Fault) => {
                count_one(&mut self.failures);
                Err(Fault)
            }
        }
    }
}
