#![tactic(auto)]
//! Tests of what threads share: pools, studios, boards, and nodes with their links.
//!
//! They stand in a crate of their own because tests are proved safe as well: a crate with tests is proved twice. Where
//! a contract says exactly what a call gives there is no case. What is tested is that calls succeed at all, worked
//! examples, what comes of it while threads run, and that devices fail. Tests whose names end in `_tried_again` pass
//! whatever one growth of memory is refused (`bench/refused.py`).

#[cfg(test)]
mod boards;
pub mod company;
#[cfg(test)]
mod crowd;
#[cfg(test)]
mod floods;
#[cfg(test)]
mod frames;
#[cfg(test)]
mod gates;
#[cfg(test)]
mod nodes;
#[cfg(test)]
mod outcome;
#[cfg(test)]
mod passing;
#[cfg(test)]
mod peeks;
#[cfg(test)]
mod pictures;
#[cfg(test)]
mod playing;
#[cfg(test)]
mod pools;
#[cfg(test)]
mod refusals;
#[cfg(test)]
mod runs;
#[cfg(test)]
mod scene;
#[cfg(test)]
mod settling;
#[cfg(test)]
mod sockets;
#[cfg(test)]
mod turning;
