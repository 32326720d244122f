#![tactic(auto)]
//! Nodes: programs that paint on one image and tell each other their strokes by datagrams, of which any may be lost,
//! doubled or late.
//!
//! A [`Node`] has a pen and an eye of a studio. At each [`Node::tick`] it polls its [`Link`] once, and submits the
//! strokes of the frame that it heard; then it looks, and sends one piece of what it sees:
//!
//! ```text
//! let mut link = UdpLink::bind(&rt, 40001, peers)?;      // on loopback
//! let mut node = Node::new(pen, eye, Conn::Four, print_of(&image));
//! node.learn(told);                                      // the receipt of a show
//! let Ticked { heard, sent } = node.tick(alloc, &mut link);
//! let (pen, eye) = node.leave();
//! ```
//!
//! The pieces of a state go one after another, a tick each, and then from the first again. Whoever heard each piece
//! once, in whatever order, and maybe some of them twice, has the state.
//!
//! Frames for another image are refused, and so are bytes that are no frame: only strokes that a frame for this image
//! spells reach the pen. Where no place in the pen's ring is seen to be free they are dropped, as if the datagram was
//! lost. What a node refuses is a [`NodeError`], whose codes are D1 to D4, and changes nothing.
//!
//! No call waits for anybody. Nothing is promised of whether a datagram arrives.
//!
//! A [`UdpLink`] sends to other programs of this machine, and a [`MemoryLink`] keeps what is sent, for tests that lose,
//! double and reorder it, or make a chosen call fail.
//!
//! Read on in `specs/Ticking.antt`, which says what a tick does; in `specs/Hearing.antt`, which says what becomes of a
//! datagram, and `specs/Sending.antt`, which says what is sent; and in `specs/Links.antt` for links.

mod cursor;
mod datagram;
mod error;
mod hearing;
mod laws;
mod link;
mod memory_link;
mod node;
mod sight;
mod ticked;
mod udp_link;

pub use datagram::Datagram;
pub use error::NodeError;
pub use laws::too_long_is_refused;
pub use link::{BUFFER_BYTES, Link};
pub use memory_link::MemoryLink;
pub use node::Node;
pub use ticked::{Heard, Sent, Ticked};
pub use udp_link::UdpLink;
