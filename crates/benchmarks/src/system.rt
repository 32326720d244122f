//! What is asked of the system, and its clocks, in nanoseconds. What a clock tells that can not be read is zero.

use std::sync::Wait;
use std::thread::Threads;
use std::time::{Clock, CpuClock, Duration};

/// A system that has threads, locks, clocks, memory and standard output.
pub trait System: Threads + Wait + Clock + CpuClock + Print + AllocGlobal + Sync {}

impl<R: Threads + Wait + Clock + CpuClock + Print + AllocGlobal + Sync> System for R {}

/// A clock that is read lap by lap.
#[derive(Clone, Copy)]
pub struct Laps(u128);

impl Laps {
    /// The first lap begins now.
    pub fn begin(rt: &impl Clock) -> Laps {
        Laps(rt.monotonic().unwrap_or(Duration::ZERO).as_nanos())
    }

    /// What the lap took until now. The next one begins.
    pub fn lap(&mut self, rt: &impl Clock) -> u128 {
        let start = self.0;
        *self = Laps::begin(rt);
        self.0.saturating_sub(start)
    }
}

/// The processor time of this thread.
pub fn thread_time(rt: &impl CpuClock) -> u128 {
    rt.thread_cpu_time().unwrap_or(Duration::ZERO).as_nanos()
}
