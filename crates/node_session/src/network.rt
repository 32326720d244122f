//! Where a node binds its link.

ghost use Rattle.std.specs.Prelude.{◌≡◌, ◌↔◌, None, Some, option_map, IfOk, IsTrue, OnOk};
ghost use Rattle.link_nodes.specs.UdpLinks.{port_of, peers_of};
ghost use Rattle.node_session.specs.Network.{Binds, NetworkSeen, fresh_network};

use byte_devices::{Fault, count_one};
use link_nodes::{Link, MemoryLink, UdpLink};
use std::net::Net;

/// Where links are bound to ports. A network counts the binds that failed; the count stops at `u64::MAX`.
pub trait Network {
    /// What it binds.
    type Link: Link + Drop;

    // The port and the peers of the last link that it gave, where they are known, and the count.
    ghost seen: { Self → NetworkSeen };

    /// A link at a port, whose datagrams go to the ports of these peers.
    ///
    /// Errors: a fault, where the port could not be bound.
    fn bind(&mut self, port: u16, peers: Vec<u16>) -> Result<Self::Link, Fault>
        ensures { Binds (seen self.old) (seen self.new) result port peers.items };
}

/// The ports of 127.0.0.1. It tells the port of the last link that it gave.
#[derive(Drop)]
pub struct Loopback<'a, R: Net> {
    net: &'a R,
    port: Option<u16>,
    failures: u64,
}

impl<'a, R: Net> Loopback<'a, R> {
    /// These ports, none of which failed.
    pub fn new(net: &'a R) -> Loopback<'a, R>
        ensures { ⟦<Loopback<'a, R> as Network>⟧.seen result ≡ fresh_network }
    {
        Loopback {
            net,
            port: None,
            failures: 0,
        }
    }
}

impl<'a, R: Net> Network for Loopback<'a, R> {
    type Link = UdpLink;

    ghost seen = { λ n. record { port = n.port; peers = None; failures = n.failures } };

    fn bind(&mut self, port: u16, peers: Vec<u16>) -> Result<UdpLink, Fault>
        ensures binds { Binds (⟦<Loopback<'a, R> as Network>⟧.seen self.old)
            (⟦<Loopback<'a, R> as Network>⟧.seen self.new) result port peers.items }
        ensures port { OnOk result ((⟦<Loopback<'a, R> as Network>⟧.seen self.new).port ≡ Some port) }
        ensures link { IfOk result (λ link. (port_of link ≡ port) × (peers_of link ≡ peers.items)) }
    {
        match UdpLink::bind(self.net, port, peers) {
            Ok(link) => {
                self.port = Some(link.port());
                Ok(link)
            }
            Err(Fault) => {
                count_one(&mut self.failures);
                Err(Fault)
            }
        }
    }
}

/// A network in memory, which gives one link that was made before. All other binds fail.
#[derive(Drop)]
pub struct MemoryNetwork {
    link: Option<MemoryLink>,
    bound: Option<Bound>,
    failures: u64,
}

// The port and the peers of a link.
#[derive(Drop)]
struct Bound {
    port: u16,
    peers: Vec<u16>,
}

impl MemoryNetwork {
    /// A network with this link. Without one each bind fails.
    pub fn new(link: Option<MemoryLink>) -> MemoryNetwork
        ensures { ⟦<MemoryNetwork as Network>⟧.seen result ≡ fresh_network }
    {
        MemoryNetwork {
            link,
            bound: None,
            failures: 0,
        }
    }

    /// Whether the link was bound to this port, with these peers.
    pub fn is_bound(&self, port: u16, peers: &[u16]) -> bool
        ensures { IsTrue result ↔ ((⟦<MemoryNetwork as Network>⟧.seen self.now).port ≡ Some port)
            × ((⟦<MemoryNetwork as Network>⟧.seen self.now).peers ≡ Some peers.now) }
    {
        match &self.bound {
            Some(bound) => bound.port == port && bound.peers.as_slice() == peers,
            None => false,
        }
    }
}

impl Network for MemoryNetwork {
    type Link = MemoryLink;

    ghost seen = { λ n. record {
      port = option_map (λ b. b.port) n.bound;
      peers = option_map (λ b. b.peers.items) n.bound;
      failures = n.failures;
    } };

    fn bind(&mut self, port: u16, peers: Vec<u16>) -> Result<MemoryLink, Fault>
        ensures binds { Binds (⟦<MemoryNetwork as Network>⟧.seen self.old) (⟦<MemoryNetwork as Network>⟧.seen self.new)
            result port peers.items }
        ensures port { OnOk result ((⟦<MemoryNetwork as Network>⟧.seen self.new).port ≡ Some port) }
        ensures peers { OnOk result ((⟦<MemoryNetwork as Network>⟧.seen self.new).peers ≡ Some peers.items) }
    {
        match self.link.take() {
            Some(link) => {
                self.bound = Some(Bound { port, peers });
                Ok(link)
            }
            None => {
                count_one(&mut self.failures);
                Err(Fault)
            }
        }
    }
}
