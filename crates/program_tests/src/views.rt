//! Views of inputs, and images derived from one file.

use crate::cases::{Call, Case, ON_ROW, play_all};
use crate::kept::CONTINUED;
use grid_core::{Conn, Memory};
use std::alloc::Global;
use std::test::Fail;
use view_session::derive::Derivation;

// Edits on the row, and the samples that are written of it.
const ON_THE_ROW: &str = "-> 0 0 0 0 0
    place #1 9 0:1-1 -> 3 5 2 2 2
    place #1 9 0:1-1 / place #2 3 0:4-4 -> 3 5 2 3 3
    place #1 9 0:1-1 / place #2 3 0:4-4 / withdraw #1 -> 2 2 2 3 3
    place #1 9 0:1-1 / withdraw #1 -> 0 0 0 0 0
    withdraw #1 / place #1 9 0:1-1 -> 0 0 0 0 0
    place #1 9 0:1-1 / withdraw #1 / place #1 9 0:1-1 / withdraw #1 -> 0 0 0 0 0
    withdraw #1 / place #1 9 0:1-1 / withdraw #1 / place #1 9 0:1-1 -> 0 0 0 0 0
    disc #1 9 0:1+1 / withdraw #1 -> 0 0 0 0 0
    withdraw #1 / disc #1 9 0:1+1 / withdraw #1 / disc #1 9 0:1+1 -> 0 0 0 0 0
    place #1 9 0:1-2,0:4-4 -> 3 5 2 4 4";

// The raw file of a row of these samples.
fn file_of(alloc: Global, samples: &str) -> Result<Vec<u8>, Memory> {
    let mut file = Vec::from_slice(alloc, b"P5\n5 1\n9\n")?;
    for sample in samples.split_whitespace() {
        file.push(sample.parse::<u8>().unwrap_or(u8::MAX))?;
    }
    Ok(file)
}

// Whether a view of these edits on the row writes these samples.
fn is_viewed(alloc: Global, edits: &'static str, samples: &str) -> Result<bool, Memory> {
    let case = Case { edits, ..ON_ROW };
    let file = file_of(alloc, samples)?;
    let mut scene = case.scene(alloc)?;
    let is_made = case.makes(alloc, &mut scene).is_ok();
    Ok(is_made && scene.sink.written() == file.as_slice())
}

#[test]
fn strokes_on_a_row(rt: HostRuntime) -> Result<(), Fail> {
    for line in ON_THE_ROW.lines() {
        let (edits, samples) = line.split_once("->").unwrap_or((line, ""));
        assert!(rt; is_viewed(rt.alloc(), edits.trim(), samples)?, "{line}");
    }
    Ok(())
}

/// A maxval of a whole byte.
pub const WHOLE_BYTE: Case = Case {
    name: "a maxval of a whole byte",
    edits: "place #1 73 0:1-1",
    behind: "image\nP2\n5 1\n255\n67 69 66 69 68\n",
    written: b"P5\n5 1\n255\nCEBBB",
    ..ON_ROW
};

// A mask of two rows and columns.
const CORNER: Case = Case {
    name: "a corner joins no four neighbours",
    edits: "place #1 7 0:0-0",
    behind: "image\nP2\n2 2\n7\n7 0\n0 7\n",
    written: b"P5\n2 2\n7\n\x07\x00\x00\x00",
    ..ON_ROW
};

/// A hole of 1 within a ring of 6, with corners of 0.
pub const HOLE: Case = Case {
    name: "a hole is filled",
    call: Call::Derive(Derivation::Fill, 1),
    behind: "P2\n5 5\n9\n0 0 0 0 0\n0 0 6 0 0\n0 6 1 6 0\n0 0 6 0 0\n0 0 0 0 0\n",
    written: b"P5\n5 5\n9\n\0\0\0\0\0\0\0\x06\0\0\0\x06\x06\x06\0\0\0\x06\0\0\0\0\0\0\0",
    ..ON_ROW
};

/// Domes.
pub const DOMES: Case = Case {
    name: "domes lose 2 at their tops",
    call: Call::Derive(Derivation::HMax, 2),
    behind: "P2\n5 1\n9\n1 4 3 5 1\n",
    written: b"P5\n5 1\n9\n\x01\x03\x03\x03\x01",
    ..ON_ROW
};

const CASES: &[Case] = &[
    WHOLE_BYTE,
    CORNER,
    Case {
        name: "a corner joins eight neighbours",
        conn: Conn::Eight,
        written: b"P5\n2 2\n7\n\x07\x00\x00\x07",
        ..CORNER
    },
    HOLE,
    DOMES,
    Case {
        name: "a peak is a regional maximum",
        call: Call::Derive(Derivation::RegMax, 1),
        behind: "P2\n3 1\n9\n0 1 0\n",
        written: b"P5\n3 1\n1\n\x00\x01\x00",
        ..ON_ROW
    },
];

#[test]
fn views_and_derivations_are_written(rt: HostRuntime) -> Result<(), Fail> {
    play_all(rt.alloc(), CASES)
}

#[test]
fn views_and_derivations_tried_again(rt: HostRuntime) -> Result<(), Fail> {
    play_all(rt.alloc(), &[WHOLE_BYTE, CONTINUED, HOLE])
}
