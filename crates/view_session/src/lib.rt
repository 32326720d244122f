#![tactic(auto)]
//! A session of viewing what seed strokes grow into: what Seedpaint does between its words and its devices.
//!
//! An input is edit lines, a line `image` and a PGM file ([`input`]). [`view`] writes the reconstruction by dilation of
//! its mask from its strokes, over none, over a state, or over the bytes of a state file, and [`derive`] an image
//! that is derived from one file. A [`store`] keeps state files: [`file_store`] those of the system, [`memory_store`]
//! some in memory. Why a run ended, `run_faults` tells.
//!
//! What each run reads and writes, `answering` says once. There is one view: `merging` judges the old deltas and then
//! those of the lines, one by one, and joins them; [`gathering`] hands out the join and its mask, for runs that go on
//! with them; `showing` paints the marker of the join once and grows it. What is saved is joined, by [`joining`], with
//! what the file has by then; `places` and `replacing` have the names and the steps by which a file takes the place of
//! another.

mod answering;
pub mod derive;
pub mod file_store;
pub mod gathering;
pub mod input;
pub mod joining;
pub mod kept;
pub mod laws;
pub mod memory_store;
pub mod merging;
mod places;
mod replacing;
mod showing;
pub mod store;
pub mod stored;
pub mod view;
