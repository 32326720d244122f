//! Answers in buffers that the caller lends.

ghost use Rattle.std.specs.Prelude.{◌≡◌, ◌⊎◌, ◌≤◌, ◌++◌, drop, length};
ghost use Rattle.run_faults.specs.RunError.{HasStatus};
ghost use Rattle.seedpaint_c.specs.Buffers.{AreHandedOut, IsHandedOut, SaysFault};

use crate::codes::{NO_MEMORY, NO_ROOM, OK, REFUSED};
use run_faults::{RunError, fault_line, status};
use std::alloc::Global;

/// How many bytes an answer has: those of the image file, of the new state file, and of the line of a fault. What an
/// answer does not have has length 0.
///
/// Where a buffer is too short, its length is the one that it has to have.
#[repr(C)]
#[derive(Drop)]
pub struct Lengths {
    pub out: usize,
    pub state: usize,
    pub fault: usize,
}

impl Lengths {
    /// Nothing is answered yet.
    pub(crate) fn clear(&mut self)
        ensures out { self.new.out ≡ 0 }
        ensures state { self.new.state ≡ 0 }
        ensures fault { self.new.fault ≡ 0 }
    {
        self.out = 0;
        self.state = 0;
        self.fault = 0;
    }
}

/// Puts a text into the front of a buffer, where it fits, and says how long it is.
pub(crate) fn hand_out(text: &[u8], buffer: &mut [u8], count: &mut usize) -> u32
    ensures { IsHandedOut buffer.old buffer.new count.new text.now result }
{
    *count = text.len();
    if text.len() > buffer.len() {
        return NO_ROOM;
    }
    put(text, buffer);
    OK
}

/// Puts two texts into the fronts of two buffers, where both fit, and says how long they are.
pub(crate) fn hand_out_both(
    text: &[u8],
    new: &[u8],
    out: &mut [u8],
    state: &mut [u8],
    lengths: &mut Lengths,
) -> u32
    ensures put { AreHandedOut out.old out.new lengths.new.out text.now
        state.old state.new lengths.new.state new.now result }
    ensures rest { lengths.new.fault ≡ lengths.old.fault }
{
    lengths.out = text.len();
    lengths.state = new.len();
    if text.len() > out.len() || new.len() > state.len() {
        return NO_ROOM;
    }
    put(text, out);
    put(new, state);
    OK
}

// Puts a text into the front of a buffer.
fn put(text: &[u8], buffer: &mut [u8])
    requires { length text.now ≤ length buffer.old }
    ensures { buffer.new ≡ text.now ++ drop (length text.now) buffer.old }
{
    buffer[..text.len()].copy_from_slice(text);
}

/// Puts the line of a fault into the front of a buffer, where it fits, and says how long it is. It answers [`REFUSED`]
/// where the program ends with status 1, else [`NO_MEMORY`]; and that with a length of 0 where memory was wanting for
/// the line.
pub(crate) fn tell(alloc: Global, error: &RunError, buffer: &mut [u8], count: &mut usize) -> u32
    ensures refused { result ≡ 1 → HasStatus error.now 1 }
    ensures memory { result ≡ 3 → (HasStatus error.now 1 → ⊥) ⊎ (count.new ≡ 0) }
    ensures one { (result ≡ 1) ⊎ (result ≡ 3) }
    ensures line { SaysFault buffer.old buffer.new count.new result error.now }
{
    *count = 0;
    let Ok(line) = fault_line(alloc, error) else {
        return NO_MEMORY;
    };
    let _room = hand_out(line.as_bytes(), buffer, count);
    match status(error) {
        1 => REFUSED,
        _ => NO_MEMORY,
    }
}
