#![tactic(auto)]

//! Devices that give and take bytes, and whole texts carried from and to them.
//!
//! Bytes come from a [`Source`] and go to a [`Sink`]: those of std ([`StdSource`], [`StdSink`]), or in memory
//! ([`MemorySource`], [`MemorySink`]), where a chosen call can be made to fail. [`read_all`] gives all that a
//! source has left, and [`put_all`] puts all of a text.
//!
//! ```
//! let mut source = MemorySource::new(b"ten bytes!".to_vec(alloc)?).in_pieces(3);
//! let bytes = read_all(alloc, &mut source)?;
//! ```
//!
//! Read on: `specs/Device.antt` says what is seen of a source and of a sink, and what one call does;
//! `specs/Transfer.antt` what the transfers do; `specs/Response.antt` what a run says that reads, answers and
//! writes. `proofs/Shared.antt` has the lemmas for crates above.

mod count;
mod fault;
mod memory_sink;
mod memory_source;
mod sink;
mod source;
mod std_sink;
mod std_source;
mod transfer;

pub use count::count_one;
pub use fault::{Fault, TransferError};
pub use memory_sink::MemorySink;
pub use memory_source::MemorySource;
pub use sink::Sink;
pub use source::Source;
pub use std_sink::StdSink;
pub use std_source::StdSource;
pub use transfer::{MOST_PULLS, put_all, read_all, read_all_within};
