#![tactic(auto)]
//! Serves a page to paint on, on the loopback, by one thread, and up to four while the image grows.
//!
//! ```text
//! let call = PaintCall { mask, file, conn: Conn::Four, side: 64, port: None, forward: None };
//! paint(&rt, &rt, &OneThread, alloc, call, FileStore::new(&rt), &mut StdSink::new(rt.stdout()))?;
//! ```
//!
//! [`paint`] opens the board of a mask and a state file, binds a port of 127.0.0.1, prints the page's address, and
//! serves. Where no port is said it is one that the state file's path gives, so that it is the same at each start. A
//! file that forwards to the address is written where it is asked for, and nobody else may read it.
//!
//! Who comes waits in a hall until the key is shown, and only then gets one of 64 places. In each turn the server makes
//! rounds: it takes in what has come from all who have a place, saves the state file once where the board took
//! something, joined with what others wrote there, and only then sends. Between turns, while work is left, the board
//! settles for some milliseconds, in at most four threads.
//!
//! In the code,
//!
//! - `rounds` has a round of all who have a place, over a service that `page_service` keeps with its file: `transfer`
//!   moves the bytes of one connection, and `peer` and `peers` are the connections that are open;
//! - `hall` has where those wait who have not shown the key, the `guest`s;
//! - `html` has the page as a text, which `tools/embed_page.py` writes from the files of `page/`, and the policy that
//!   allows its style and its script alone;
//! - `server` has the turns. `call` has what is asked for, [`opening`] the board as it is opened, `page` the service
//!   with its share of settling, `slices` how much that is, `ports`, `door`, `site` and `forward` where it is served
//!   and who is told, and `caller` a stream of one who showed the key.
//!
//! Read on in `specs/Opening.antt` for what a board is opened from, and why it is not, in `specs/Round.antt` for what a
//! round does, and in `specs/Turning.antt` for what a turn does.

mod call;
mod caller;
mod chance;
mod door;
mod ends_writing;
mod forward;
mod guest;
mod hall;
mod html;
mod mask_file;
pub mod opening;
mod page;
mod peer;
mod peers;
mod ports;
mod rounds;
mod server;
mod site;
mod slices;
mod transfer;

pub use call::{FileName, PaintCall};
pub use ends_writing::EndsWriting;
pub use hall::Hall;
pub use html::{PAGE, POLICY};
pub use peer::Peer;
pub use peers::PeerList;
pub use rounds::{RoundEnd, round};
pub use server::paint;
