//! Links over sockets: who hears what is sent, and which calls fail. No wait has an end but a number of tries.

use crate::outcome::succeeded;
use byte_devices::Fault;
use link_nodes::{BUFFER_BYTES, Link, UdpLink};
use node_session::network::{Loopback, Network};
use std::alloc::Global;
use std::net::{Ipv4Addr, Net, SocketAddr, UdpSocket};
use std::test::Fail;
use std::time::{Clock, Duration};
use std::{io, thread};

// How often a poll is tried, a millisecond apart, and how often links are bound, each time to other ports.
const POLLS: u32 = 2_000;

const BINDS: u32 = 20;

const ONE: &[u8] = b"1";

const TWO: &[u8] = b"2";

const HERE: Ipv4Addr = Ipv4Addr::LOCALHOST;

// A socket at a free port of 127.0.0.1, and the port.
fn open_socket<R: Net>(rt: &R) -> Option<(UdpSocket, u16)> {
    let socket = UdpSocket::bind(rt, (HERE, 0)).ok()?;
    let port = socket.local_addr().ok()?.port();
    Some((socket, port))
}

// Four ports of 127.0.0.1 that are free.
fn ports<R: Net>(rt: &R) -> Option<[u16; 4]> {
    let (_first, one) = open_socket(rt)?;
    let (_second, two) = open_socket(rt)?;
    let (_third, three) = open_socket(rt)?;
    let (_fourth, four) = open_socket(rt)?;
    Some([one, two, three, four])
}

// A link, and three others whose peer it is. Its own peers are port 0, to which no system sends, and then these three.
#[derive(Drop)]
struct Links {
    speaker: UdpLink,
    one: UdpLink,
    two: UdpLink,
    three: UdpLink,
}

fn bound_link<R: Net>(rt: &R, alloc: Global, port: u16, peers: &[u16]) -> Option<UdpLink> {
    let peers = Vec::from_slice(alloc, peers).ok()?;
    UdpLink::bind(rt, port, peers).ok()
}

fn links_at<R: Net>(rt: &R, alloc: Global, ports: [u16; 4]) -> Option<Links> {
    let [port, one, two, three] = ports;
    let speaker = bound_link(rt, alloc, port, &[0, one, two, three]);
    let first = speaker.zip(bound_link(rt, alloc, one, &[port]));
    let second = bound_link(rt, alloc, two, &[port]).zip(bound_link(rt, alloc, three, &[port]));
    match first.zip(second) {
        Some(((speaker, one), (two, three))) => Some(Links {
            speaker,
            one,
            two,
            three,
        }),
        None => None,
    }
}

fn bound_links<R: Net>(rt: &R, alloc: Global) -> Option<Links> {
    for _ in 0..BINDS {
        if let Some(links) = links_at(rt, alloc, ports(rt)?) {
            return Some(links);
        }
    }
    None
}

// Whether these bytes are the next that come.
fn hears<R: Clock, L: Link>(rt: &R, link: &mut L, wanted: &[u8]) -> bool {
    let mut buffer = [0; BUFFER_BYTES];
    for _ in 0..POLLS {
        match link.poll(&mut buffer) {
            Ok(Some(length)) => return &buffer[..length] == wanted,
            Ok(None) => thread::sleep(rt, Duration::from_millis(1)),
            Err(Fault) => return false,
        }
    }
    false
}

// Whether each of the others hears what is sent, though the system refuses the first peer.
fn speaks<R: Clock>(rt: &R, links: &mut Links) -> bool {
    let has_failed = links.speaker.send(ONE).is_err();
    let one = hears(rt, &mut links.one, ONE);
    let two = hears(rt, &mut links.two, ONE);
    has_failed & one & two & hears(rt, &mut links.three, ONE)
}

// A datagram that is longer than any frame, and as much of it as a link hears: a byte more than a frame has.
const LONG: &[u8] = &[7; BUFFER_BYTES + 99];

const HEARD_OF_LONG: &[u8] = &[7; BUFFER_BYTES];

// Whether what one of the others sends is heard, a datagram that is too long as one that is too long.
fn listens<R: Clock>(rt: &R, links: &mut Links) -> bool {
    let is_heard = links.one.send(TWO).is_ok() && hears(rt, &mut links.speaker, TWO);
    is_heard && links.one.send(LONG).is_ok() && hears(rt, &mut links.speaker, HEARD_OF_LONG)
}

#[test]
fn links_hear_one_another_though_the_first_peer_fails(rt: HostRuntime) -> Result<(), Fail> {
    let Some(mut links) = bound_links(&rt, rt.alloc()) else {
        return Err(Fail::new("no links"));
    };
    assert!(rt; speaks(&rt, &mut links));
    assert!(rt; listens(&rt, &mut links));
    Ok(())
}

// Whether a link at this port hears what is sent to 127.0.0.1, and not what is sent to 127.0.0.2 before.
fn hears_here<R: Net + Clock, L: Link>(rt: &R, link: &mut L, port: u16) -> bool {
    let Some((socket, _)) = open_socket(rt) else {
        return false;
    };
    let _elsewhere = socket.send_to(TWO, (Ipv4Addr::new(127, 0, 0, 2), port));
    socket.send_to(ONE, (HERE, port)).is_ok() && hears(rt, link, ONE)
}

#[test]
fn nobody_is_reached_at_another_address(rt: HostRuntime) -> Result<(), Fail> {
    let Some(mut links) = bound_links(&rt, rt.alloc()) else {
        return Err(Fail::new("no links"));
    };
    let port = links.speaker.port();
    assert!(rt; hears_here(&rt, &mut links.speaker, port));
    Ok(())
}

// Whether a network binds the first of these ports where it is told so, and cannot bind it twice.
fn binds<R: Net + Clock>(rt: &R, alloc: Global, ports: [u16; 4]) -> bool {
    let [port, _, _, _] = ports;
    let mut network = Loopback::new(rt);
    let Ok(mut link) = network.bind(port, Vec::new(alloc)) else {
        return false;
    };
    hears_here(rt, &mut link, port) & !succeeded(network.bind(port, Vec::new(alloc)))
}

#[test]
fn a_network_binds_the_port_that_it_is_told(rt: HostRuntime) -> Result<(), Fail> {
    let Some(free) = ports(&rt) else {
        return Err(Fail::new("no port"));
    };
    assert!(rt; binds(&rt, rt.alloc(), free));
    Ok(())
}

// The network, but that a socket for datagrams was refused by this port already: its next call fails.
#[derive(Drop)]
struct Refused<'a, R: Net> {
    net: &'a R,
    gone: u16,
}

impl<R: Net> Net for Refused<'_, R> {
    type Stream = R::Stream;

    type Listener = R::Listener;

    fn bind(&self, addr: SocketAddr) -> io::Result<R::Listener> {
        self.net.bind(addr)
    }

    fn connect(&self, addr: SocketAddr) -> io::Result<R::Stream> {
        self.net.connect(addr)
    }

    fn bind_udp(&self, addr: SocketAddr) -> io::Result<UdpSocket> {
        let socket = self.net.bind_udp(addr)?;
        socket.connect((HERE, self.gone))?;
        socket.send(ONE)?;
        Ok(socket)
    }
}

// Whether the first poll of such a socket fails, and the next one finds nothing.
fn fails_once<R: Net>(rt: &R, alloc: Global, ports: [u16; 4]) -> bool {
    let [port, gone, _, _] = ports;
    let net = Refused { net: rt, gone };
    let Ok(mut link) = UdpLink::bind(&net, port, Vec::new(alloc)) else {
        return false;
    };
    let mut buffer = [0; BUFFER_BYTES];
    let has_failed = link.poll(&mut buffer).is_err();
    has_failed & matches!(link.poll(&mut buffer), Ok(None))
}

#[test]
fn a_socket_that_fails_fails_a_poll(rt: HostRuntime) -> Result<(), Fail> {
    let Some(free) = ports(&rt) else {
        return Err(Fail::new("no port"));
    };
    assert!(rt; fails_once(&rt, rt.alloc(), free));
    Ok(())
}
