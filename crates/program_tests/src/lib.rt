#![tactic(auto)]
//! Tests of sessions and of the program, by their public calls alone.
//!
//! They stand in a crate of their own because tests are proved safe as well, and because they cross most crates. No
//! function here promises anything, which keeps the proofs small: what the calls answer is compared when the tests run.
//!
//! `cases` has calls of a session and how they end. Tests of sessions are `views` and `kept` (views by themselves, and
//! over a state file), `devices` (each pull and each put fails in turn), `faults` (their lines), `store` (the files of
//! the system) and `beside_core` (a view beside a core). Tests of the program are `words` and `runs`.

#[cfg(test)]
mod beside_core;
#[cfg(test)]
mod cases;
#[cfg(test)]
mod devices;
#[cfg(test)]
mod faults;
#[cfg(test)]
mod kept;
#[cfg(test)]
mod runs;
#[cfg(test)]
mod store;
#[cfg(test)]
mod views;
#[cfg(test)]
mod words;
