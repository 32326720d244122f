#![tactic(auto)]

//! Greyscale images and their files: the PGM format of Netpbm, pgm(5), in a profile of its own.
//!
//! An [`Image`] is `w * h` samples, row by row from the top, none above its maxval. [`read`] makes one of a
//! file's text, plain (magic `P2`) or raw (magic `P5`), or answers the first fault of the text, a
//! [`PgmError`]; [`write_raw`] gives the raw file of an image and [`write_plain`] its plain one, which spell
//! that image and no other ([`raw_text_is_read`], [`plain_text_is_read`]). A file is one image; comments stand
//! before the numbers of the header alone.
//!
//! ```
//! let image = read(alloc, b"P2\n2 1\n255\n10 35\n")?;
//! let raw = write_raw(alloc, &image)?; // P5, 2 1, 255, and the bytes 0A 23
//! ```
//!
//! [`read_from`] and [`write_to`] join the format to the devices of the crate `byte_devices`: bytes come from a
//! [`Source`] and go to a [`Sink`].
//!
//! Read on: `specs/Spelling.antt` says which text spells which image, `specs/FirstFault.antt` which fault a
//! text has, and `specs/Writing.antt` and `specs/PlainWriting.antt` what is written; the laws [`one_image`],
//! [`one_fault`] and [`every_text`] say that each text has exactly one of the two. `specs/Transfer.antt`
//! says what comes of sources and sinks.

mod error;
mod grammar;
mod header;
mod image;
mod numbers;
mod plain_writing;
mod raster;
mod reading;
mod samples;
mod transfer;
mod writing;

pub use byte_devices::{
    Fault, MOST_PULLS, MemorySink, MemorySource, Sink, Source, StdSink, StdSource,
};
pub use error::PgmError;
pub use image::{Image, below_keeps_maxval};
pub use plain_writing::write_plain;
pub use reading::{
    every_text, one_fault, one_image, pixels_in, plain_text_is_read, raw_text_is_read, read,
};
pub use transfer::{read_all, read_all_within, read_from, write_to};
pub use writing::{put_samples, sample_len, write_raw};
