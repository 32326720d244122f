//! What a state file keeps, from one view to the next.

use crate::cases::{Call, Case, ON_ROW, play_all};
use grid_core::Conn;
use std::test::Fail;

// State files on the row. Each is a frame behind its length: magic and connectivity, the SHA-256 of the raw file of the
// mask, the numbers of strokes and of tombstones, and these.

/// The second stroke, of level 3 at x = 4. Before its level stands its kind.
pub const SECOND: &[u8] = b"\x00\x44SPD2\x04\
    \xb2\xf1\x2a\xe1\xb5\x74\x90\x4e\x86\x3f\xd8\xdd\xc6\xb6\x7a\xb4\
    \xda\x2f\x6f\x78\x0c\x80\xba\x31\x0e\x75\x7a\xd2\xa9\x3b\xb0\xac\
    \0\x01\0\0\
    \0\0\0\0\0\0\0\0\0\0\0\0\0\0\0\x02\0\0\x03\0\x01\0\0\0\x04\0\x04";

// The same in the first version, which has no kinds.
const FIRST_VERSION: &[u8] = b"\x00\x43SPD1\x04\
    \xb2\xf1\x2a\xe1\xb5\x74\x90\x4e\x86\x3f\xd8\xdd\xc6\xb6\x7a\xb4\
    \xda\x2f\x6f\x78\x0c\x80\xba\x31\x0e\x75\x7a\xd2\xa9\x3b\xb0\xac\
    \0\x01\0\0\
    \0\0\0\0\0\0\0\0\0\0\0\0\0\0\0\x02\0\x03\0\x01\0\0\0\x04\0\x04";

// That stroke, the first, of level 9 at x = 1, and a third that is withdrawn.
const JOIN: &[u8] = b"\x00\x6fSPD2\x04\
    \xb2\xf1\x2a\xe1\xb5\x74\x90\x4e\x86\x3f\xd8\xdd\xc6\xb6\x7a\xb4\
    \xda\x2f\x6f\x78\x0c\x80\xba\x31\x0e\x75\x7a\xd2\xa9\x3b\xb0\xac\
    \0\x02\0\x01\
    \0\0\0\0\0\0\0\0\0\0\0\0\0\0\0\x01\0\0\x09\0\x01\0\0\0\x01\0\x01\
    \0\0\0\0\0\0\0\0\0\0\0\0\0\0\0\x02\0\0\x03\0\x01\0\0\0\x04\0\x04\
    \0\0\0\0\0\0\0\0\0\0\0\0\0\0\0\x03";

/// The first stroke is placed over the second one, and a third is withdrawn.
pub const CONTINUED: Case = Case {
    name: "a file is continued",
    call: Call::Kept(64),
    old: SECOND,
    edits: "place #1 9 0:1-1 / withdraw #3",
    written: b"P5\n5 1\n9\n\x03\x05\x02\x03\x03",
    new: JOIN,
    ..ON_ROW
};

// A view over the second stroke is refused.
const REFUSED: Case = Case {
    call: Call::Kept(64),
    old: SECOND,
    fault: (1, "D1"),
    ..ON_ROW
};

// A side that tiles may not have is told before anything is read.
const SIDE: Case = Case {
    name: "a side of tiles",
    fault: (1, "C5"),
    pull: 1,
    ..REFUSED
};

const KEPT: &[Case] = &[
    CONTINUED,
    Case {
        name: "a file in a store is loaded once and saved once",
        call: Call::Stored,
        ..CONTINUED
    },
    Case {
        name: "a file begins",
        call: Call::Kept(64),
        edits: "place #2 3 0:4-4",
        written: b"P5\n5 1\n9\n\x02\x02\x02\x03\x03",
        new: SECOND,
        ..ON_ROW
    },
    Case {
        name: "a file of the first version is written anew",
        old: FIRST_VERSION,
        ..CONTINUED
    },
    Case {
        name: "a file of another image",
        behind: "image\nP2\n5 1\n9\n3 5 2 5 5\n",
        ..REFUSED
    },
    Case {
        name: "a file of another connectivity",
        conn: Conn::Eight,
        ..REFUSED
    },
    Case {
        call: Call::Kept(7),
        ..SIDE
    },
    Case {
        call: Call::Kept(257),
        ..SIDE
    },
];

#[test]
fn a_state_file_is_continued(rt: HostRuntime) -> Result<(), Fail> {
    play_all(rt.alloc(), KEPT)
}
