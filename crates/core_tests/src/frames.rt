//! Frames, their faults, and state files: worked bytes.

use crate::states::state_of;
use grid_core::Conn;
use pgm_codec::read;
use spd_codec::SpdError::{BadMagic, BadStroke, TagOrder, TooLong, Trailing, Truncated};
use spd_codec::{Frame, Print, SpdError, decode, encode, print_of, write_frames};
use std::alloc::Global;
use stroke_core::StrokeError::{BadKind, BadLevel, BadRadius};
use stroke_core::{Run, Stroke, Tag};
use stroke_lattice::State;

// The frame of tag 1, level 9 and the run 0:1-1, four-connected, with a fingerprint of zeros.
const ONE_STROKE: &[u8; 68] = b"SPD2\x04\
    \0\0\0\0\0\0\0\0\0\0\0\0\0\0\0\0\0\0\0\0\0\0\0\0\0\0\0\0\0\0\0\0\0\x01\0\0\
    \0\0\0\0\0\0\0\0\0\0\0\0\0\0\0\x01\0\0\x09\0\x01\0\0\0\x01\0\x01";

// The same in the first version.
const FIRST_VERSION: &[u8; 67] = b"SPD1\x04\
    \0\0\0\0\0\0\0\0\0\0\0\0\0\0\0\0\0\0\0\0\0\0\0\0\0\0\0\0\0\0\0\0\0\x01\0\0\
    \0\0\0\0\0\0\0\0\0\0\0\0\0\0\0\x01\0\x09\0\x01\0\0\0\x01\0\x01";

// The disc of level 5 round the pixel in column 2 and row 2 with radius 2 under tag 1, four-connected.
const DISC: &[u8; 66] = b"SPD2\x04\
    \0\0\0\0\0\0\0\0\0\0\0\0\0\0\0\0\0\0\0\0\0\0\0\0\0\0\0\0\0\0\0\0\0\x01\0\0\
    \0\0\0\0\0\0\0\0\0\0\0\0\0\0\0\x01\x01\0\x05\0\x02\0\x02\0\x02";

// Frames, the edits of their states, and the frames that are written for them.
const FRAMES: &[(&[u8], &str, &[u8])] = &[
    (ONE_STROKE, "place #01 9 0:1-1", ONE_STROKE),
    (FIRST_VERSION, "place #01 9 0:1-1", ONE_STROKE),
    (DISC, "disc #01 5 2:2+2", DISC),
];

// Whether the bytes are read as a frame of the edits' state, for which these are written.
fn is_coded(alloc: Global, bytes: &[u8], edits: &str, written: &[u8]) -> bool {
    let (frame, state) = (decode(alloc, bytes), state_of(alloc, edits));
    match (&frame, &state) {
        (Ok(frame), Some(state)) => {
            frame.delta.is_same(state) && is_written(alloc, frame, written)
        }
        _ => false,
    }
}

// Whether these bytes are written for the frame.
fn is_written(alloc: Global, frame: &Frame, written: &[u8]) -> bool {
    let encoded = encode(alloc, frame.conn, &frame.print, &frame.delta);
    matches!(encoded, Ok(bytes) if bytes.as_slice() == written)
}

// Two strokes, whose tags are 2 and 1.
const FALLING: &[u8; 93] = b"SPD1\x04\
    \0\0\0\0\0\0\0\0\0\0\0\0\0\0\0\0\0\0\0\0\0\0\0\0\0\0\0\0\0\0\0\0\0\x02\0\0\
    \0\0\0\0\0\0\0\0\0\0\0\0\0\0\0\x02\0\x09\0\x01\0\0\0\x01\0\x01\
    \0\0\0\0\0\0\0\0\0\0\0\0\0\0\0\x01\0\x09\0\x01\0\0\0\x01\0\x01";

// Bytes whose first part is a frame, how long that part is, what stands behind it, and why they are none: a byte behind
// the last field; tags that fall; a level of 0; a kind of 2; a radius of 256; a byte more than a frame may have.
const FAULTS: &[(&[u8], usize, &[u8], SpdError)] = &[
    (FIRST_VERSION, 67, b"\0", Trailing),
    (FALLING, 93, b"", TagOrder),
    (
        FIRST_VERSION,
        57,
        b"\0\0\0\x01\0\0\0\x01\0\x01",
        BadStroke(BadLevel),
    ),
    (
        DISC,
        57,
        b"\x02\0\x05\0\x02\0\x02\0\x02",
        BadStroke(BadKind),
    ),
    (DISC, 64, b"\x01\0", BadStroke(BadRadius)),
    (&[0; 1401], 1401, b"", TooLong),
];

// Whether the bytes are no frame, for this reason.
fn has_fault(alloc: Global, bytes: &[u8], fault: SpdError) -> bool {
    decode(alloc, bytes).err() == Some(fault)
}

// The same of bytes behind so many of a frame.
fn has_fault_behind(alloc: Global, frame: &[u8], count: usize, end: &[u8], why: SpdError) -> bool {
    let parts = [&frame[..count.min(frame.len())], end];
    matches!(parts.concat(alloc), Ok(bytes) if has_fault(alloc, &bytes, why))
}

#[test]
fn frames_are_read_and_written(rt: HostRuntime) {
    for (bytes, edits, written) in FRAMES {
        assert!(rt; is_coded(rt.alloc(), bytes, edits, written), "{edits}");
    }
}

#[test]
fn the_first_fault_of_a_frame_is_told(rt: HostRuntime) {
    for (frame, count, end, why) in FAULTS {
        assert!(rt;
            has_fault_behind(rt.alloc(), frame, *count, end, *why),
            "{why}"
        );
    }
    for end in 0..67usize {
        assert!(rt;
            has_fault(rt.alloc(), &FIRST_VERSION[..end], Truncated),
            "{end} bytes"
        );
    }
    for place in 0..4usize {
        let mut bytes = *FIRST_VERSION;
        bytes[place] = 0;
        assert!(rt; has_fault(rt.alloc(), &bytes, BadMagic), "byte {place}");
    }
}

// A stroke of as many runs as it may have.
fn long_stroke(alloc: Global) -> Option<State> {
    let mut runs = Vec::new(alloc);
    for y in 0..160 {
        runs.push(Run { y, x0: 0, x1: 9 }).ok()?;
    }
    State::placed(alloc, Tag(100), Stroke::new(9, runs).ok()?).ok()
}

// That stroke and thirty tombstones.
fn long_state(alloc: Global) -> Option<State> {
    let mut state = long_stroke(alloc)?;
    for number in 0..30u32 {
        let tag = Tag(u128::from(number));
        if state.has_tombstone(tag) {
            return None;
        }
        state.bury(tag).ok()?;
    }
    Some(state)
}

// Whether it has so many strokes and tombstones.
fn has(state: &State, strokes: usize, tombstones: usize) -> bool {
    state.strokes().count() == strokes && state.tombstones().count() == tombstones
}

// Whether that state is cut into two pieces, the stroke with 23 tombstones and the others, and so is its file.
fn is_cut_in_two(alloc: Global) -> bool {
    let Some(state) = long_state(alloc) else {
        return false;
    };
    let print = Print::from_bytes([0; 32]);
    let file = write_frames(alloc, Conn::Eight, &print, &state);
    let pieces = state.split(alloc, 1400);
    drop(state);
    let are_pieces = matches!(&pieces, Ok(pieces) if are_two(pieces));
    are_pieces && matches!(&file, Ok(file) if has_two_pieces(file))
}

// Whether there are two pieces, the stroke with 23 tombstones and the others.
fn are_two(pieces: &[State]) -> bool {
    pieces.len() == 2 && has(&pieces[0], 1, 23) && has(&pieces[1], 0, 7)
}

// Whether a file is two frames of 1390 and 153 bytes: one stroke with 23 tombstones, and 7 tombstones.
fn has_two_pieces(file: &[u8]) -> bool {
    file.len() == 2 + 1390 + 2 + 153
        && file[..2] == [5, 110]
        && file[39..43] == [0, 1, 0, 23]
        && file[1392..1394] == [0, 153]
        && file[1431..1435] == [0, 0, 0, 7]
}

fn has_print(alloc: Global, file: &[u8], print: &[u8; 32]) -> bool {
    matches!(read(alloc, file), Ok(image) if print_of(&image).bytes() == print)
}

// The fingerprint of four samples above and below 255, which another program made.
const PRINT: &[u8; 32] = b"\x70\xf8\xc2\x40\x05\xeb\xeb\x36\x6f\xe0\x90\x1a\x96\x32\xb7\x0a\
    \x85\xd8\x09\x37\x95\x2c\xae\x18\xff\xf9\xd3\x4e\x28\xa7\xe9\x24";

#[test]
fn state_files_and_fingerprints(rt: HostRuntime) {
    assert!(rt; is_cut_in_two(rt.alloc()));
    assert!(rt; has_print(rt.alloc(), b"P2\n2 2\n1000\n7 256 1000 255\n", PRINT));
}
