#![tactic(auto)]
//! Growing and viewing for callers that are not Rattle: C, and Python through `ctypes`.
//!
//! `seedpaint.h` beside this crate declares each function for C, and says what a caller owes: pointers that are not
//! null, cells that lie at even addresses, and buffers of which none overlaps another.
//!
//! No function asks anything of the values that it is given: each is tested inside. Each answers one of [`codes`],
//! where all but 0 say why nothing was done: then what the caller lent for the answer is as it was, but for lengths and
//! the line of a fault where a function has these.
//!
//! - [`growing`] raises an image in place, in the caller's cells: the reconstruction by dilation of a mask (Vincent,
//!   "Morphological Grayscale Reconstruction in Image Analysis", 1993). It copies neither of the two.
//! - [`derived`] puts in the place of an image its holes filled, its h-maxima or its regional maxima.
//! - [`viewing`] shows an input, as the program does, over no strokes or over the bytes of a state file.
//! - [`merging`] joins edit lines into the bytes of a state file, without an image.
//!
//! All memory is taken from the program's `malloc` and given back before a function returns. None starts a thread, and
//! none keeps anything from one call to the next: threads of the caller may call them side by side.

mod buffers;
mod cells;
pub mod codes;
pub mod derived;
pub mod growing;
pub mod merging;
pub mod viewing;

pub use buffers::Lengths;
