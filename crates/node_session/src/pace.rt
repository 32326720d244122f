//! How long a node and its hands rest.

use std::thread;
use std::time::{Clock, Duration};

// In milliseconds.
const PAUSE: u64 = 1;

/// Rests for a millisecond, so that processor and network are left to others.
pub(crate) fn rest<R: Clock>(rt: &R) {
    thread::sleep(rt, Duration::from_millis(PAUSE));
}
