#![tactic(auto)]
//! Frames: strokes and tombstones as bytes, as replicas send and keep them.
//!
//! A [`Frame`] says for which image its strokes are meant, by the connectivity and a [`Print`], the
//! fingerprint of the image, and has a [`Delta`](stroke_lattice::Delta). [`decode`] reads one, or answers the
//! first fault of the bytes, an [`SpdError`]. There are two versions of the format, told apart by their magic;
//! both are read.
//!
//! [`encode`] writes the second version. A frame has at most [`MAX_BYTES`] bytes; a state that may be longer is kept
//! as a state file, its pieces one after another ([`write_frames`], [`read_frames`]):
//!
//! ```text
//! let print = print_of(&image);
//! let file = write_frames(alloc, Conn::Four, &print, &state)?;
//! let frames = read_frames(alloc, &file)?;    // each is_for(Conn::Four, &print)
//! ```
//!
//! Read on: `specs/Spelling.antt` says which bytes spell which frame, and `specs/Faults.antt` which fault
//! bytes have; `specs/StateFile.antt` says both of state files. That bytes spell one frame or have one fault is
//! [`at_most_one_frame`], [`one_fault`] and [`every_text`]; of state files it is [`one_file`], [`one_file_fault`]
//! and [`every_file`].

mod decoding;
mod error;
mod frame;
mod laws;
mod print;
mod reader;
mod state_file;
mod strokes;
mod version;
mod writing;

pub use decoding::decode;
pub use error::SpdError;
pub use frame::Frame;
pub use laws::{
    at_most_one_frame, every_text, frame_text_has_its_length, frame_text_is_read,
    no_spelling_begins_another, one_fault, one_spelling,
};
pub use print::{Print, print_of};
pub use state_file::{
    every_file, joined_files_spell_both, one_file, one_file_fault, read_frames, write_frames,
};
pub use version::Version;
pub use writing::{MAX_BYTES, encode, most_bytes_of_a_frame};
