#![tactic(auto)]
//! Tests of everything below a session, by public calls alone: devices, image files, growth and views of an image;
//! strokes, their states, frames and lines; growth by bands in threads; one replica's core, also where it settles in
//! bands, and worlds of replicas.
//!
//! They stand in a crate of their own since a crate with tests is proved twice. What a contract says exactly is not
//! asked again: there are worked examples, ends of devices, and each call that takes memory is made with ample memory.
//! Tests named `.._tried_again` are also run with one growth of memory refused, whichever it is (`bench/refused.py`).

#[cfg(test)]
mod bands;
#[cfg(test)]
mod beginnings;
#[cfg(test)]
mod core_cases;
#[cfg(test)]
mod cores;
#[cfg(test)]
mod devices;
#[cfg(test)]
mod edits;
#[cfg(test)]
mod frames;
#[cfg(test)]
mod growing;
#[cfg(test)]
mod image_files;
#[cfg(test)]
mod merging;
#[cfg(test)]
mod pictures;
#[cfg(test)]
mod played;
#[cfg(test)]
mod settling_in_bands;
#[cfg(test)]
mod states;
#[cfg(test)]
mod sums;
#[cfg(test)]
mod texts;
#[cfg(test)]
mod tiles;
#[cfg(test)]
mod views;
#[cfg(test)]
mod world_cases;
#[cfg(test)]
mod worlds;
