#![tactic(auto)]
//! A session of painting that is shared with others: a view as `view_session` writes it; and between the reading of
//! an input and the writing of its image a studio, whose strokes a node tells to others, and to which it brings theirs.
//!
//! ```text
//! let mut link = UdpLink::bind(&rt, 40001, peers)?;
//! let new = node_run(&rt, alloc, &mut source, &old, Conn::Four, 64, 2, 100, &mut link, &mut sink)?;
//! ```
//!
//! Over any link the image is the reconstruction from a state that is above the old strokes and the input's, and holds
//! nothing else but what stood in frames for this mask that the link gave. How much that is, is promised nowhere.
//!
//! Read on in `specs/Shared.antt`, which says what is written, and in `specs/Given.antt`. [`stored`] is a run over a
//! state file and a port, on a [`network`].

mod desk;
mod ending;
mod faults;
mod hands;
pub mod network;
mod pace;
mod painting;
mod running;
mod sharing;
pub mod stored;

pub use running::{node_run, node_strokes};
