//! What the functions answer, as `seedpaint.h` names it.

/// It is done.
pub const OK: u32 = 0;

/// What was read is refused; the line of the fault says why.
pub const REFUSED: u32 = 1;

/// The connectivity is neither 4 nor 8.
pub const BAD_CONNECTIVITY: u32 = 2;

/// Out of memory.
pub const NO_MEMORY: u32 = 3;

/// A buffer is too short for what belongs into it; the lengths say how long it has to be.
pub const NO_ROOM: u32 = 4;

/// No image has such sides: each is from 1 to 16384, and there are at most 2^26 pixels.
pub const BAD_SIZE: u32 = 5;

/// There are not as many cells as pixels, or a fingerprint has not 32 bytes.
pub const BAD_LENGTH: u32 = 6;

/// The image is above the mask somewhere.
pub const ABOVE_MASK: u32 = 7;
