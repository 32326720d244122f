#![tactic(auto)]
//! Tests of the page, by the public calls of its crates: what requests are answered and what the state file has then,
//! and what a server answers in its first turns over a socket of 127.0.0.1.
//!
//! A session is asked in memory: a board over a state file, and rounds in which one client asks and another looks on.
//! What is asked and what it comes to stands in tables. `asking` has who may ask what, `talking` what is posted and
//! what a page is told, `steps` ten requests, which `keeping` plays where a call of the store fails or a growth is
//! refused, and `leaving` who is dropped. `serving` has pages that are served; a server ends where its clock stops, and
//! waits for a second at most between its turns: one thread asks and serves in turn.
//!
//! They stand in a crate of their own because tests are proved safe as well. No function here promises anything: what
//! is sent and what the file has is compared when the tests run.

#[cfg(test)]
mod asking;
#[cfg(test)]
mod client;
#[cfg(test)]
mod files;
#[cfg(test)]
mod host;
#[cfg(test)]
mod keeping;
#[cfg(test)]
mod leaving;
#[cfg(test)]
mod served;
#[cfg(test)]
mod serving;
#[cfg(test)]
mod session;
#[cfg(test)]
mod spelling;
#[cfg(test)]
mod steps;
#[cfg(test)]
mod talking;
