//! What a measurement comes to: what is printed, or why nothing was measured.

use crate::system::System;
use reset_core::Core;
use std::io;

/// Why nothing was measured, in words. It owns no memory, so that little is to be done where a function leaves early.
#[derive(Clone, Copy, Debug)]
pub struct Fault(pub &'static str);

/// Nothing, or why nothing was measured.
pub type Outcome = Result<(), Fault>;

/// Memory ran out.
pub const MEMORY: Fault = Fault("out of memory");

impl Fault {
    /// This fault, once the value is let go. That is one call, where it would be one for each of its fields.
    pub fn dropping<T: Drop, U>(self, value: T) -> Result<U, Fault> {
        drop(value);
        Err(self)
    }
}

impl From<io::Error> for Fault {
    fn from(_why: io::Error) -> Fault {
        Fault("words can not be read, or standard output can not be written")
    }
}

/// Nothing where the fact holds, else these words.
pub fn check(holds: bool, words: &'static str) -> Outcome {
    if holds { Ok(()) } else { Err(Fault(words)) }
}

/// The sum of values by the rule FNV-1a, of whole values.
pub fn sum_of(values: &[u16]) -> u64 {
    let mut sum: u64 = 0xcbf2_9ce4_8422_2325;
    for value in values {
        sum = (sum ^ u64::from(*value)).wrapping_mul(0x0100_0000_01b3);
    }
    sum
}

/// Lets a settled core go, and prints its sum, how many jobs there were, and the time.
pub fn tell(rt: &impl System, core: Core, jobs: Result<u64, Fault>, time: u128) -> Outcome {
    let sum = sum_of(core.image().cells());
    drop(core);
    println!(rt; "{sum} {} {time}", jobs?)?;
    Ok(())
}
