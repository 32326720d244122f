#![tactic(auto)]
//! The command line of Seedpaint: which call its words say, and the run of that call.
//!
//! `words` reads the words, by `clap`. `process` makes the call that they say, by the libraries `view_session` and
//! `node_session`, and tells how it ended; a painting it hands back, for `page_server`.
//!
//! ```text
//! let outcome = run(&rt, rt.alloc(), env::args(&rt), &mut source, &mut store, &mut network, &mut sink);
//! ```
//!
//! Read on in `docs/ARCHITECTURE.md`; `docs/FORMATS.md` has the words and the lines of faults.

pub mod process;
pub mod words;
