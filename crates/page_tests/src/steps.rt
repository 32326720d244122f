//! Ten requests.

use crate::files::{JOINED, MORE, OLD, PLACED, WITHDRAWN};

/// The line of a request and its body, the end of its answer, the end where what it brought was taken before and has
/// settled, and what the file has then.
pub type Step = (
    &'static str,
    &'static [u8],
    &'static [u8],
    &'static [u8],
    &'static [u8],
);

/// The requests, of a session that begins with `OLD`: the page; a stroke on the second pixel; the image that it grew
/// into; what changed, for a page of another run; the stroke is withdrawn; the mask; a state file with a stroke on the
/// first pixel; the strokes; the image; the state file.
pub const STEPS: &[Step] = &[
    ("GET /KEY/", b"", b"page", b"page", OLD),
    (EDITS, PLACE, TOLD, SETTLED, PLACED),
    ("GET /KEY/image", b"", BRIGHT, BRIGHT, PLACED),
    (CHANGES, b"", SETTLED, SETTLED, PLACED),
    (EDITS, WITHDRAW, GONE, DARKENED, WITHDRAWN),
    ("GET /KEY/mask", b"", BRIGHT, BRIGHT, WITHDRAWN),
    ("POST /KEY/state", MORE, b"\n\n", b"\n\n", JOINED),
    ("GET /KEY/strokes", b"", LIVE, LIVE, JOINED),
    ("GET /KEY/image", b"", DARK, DARK, JOINED),
    ("GET /KEY/state", b"", JOINED, JOINED, JOINED),
];

/// The line that posts an edit text, of a page that was told step 1.
pub const EDITS: &str = "POST /KEY/edits?run=5&since=1";

const CHANGES: &str = "GET /KEY/changes?run=4&since=7";

/// The line of a stroke.
pub const PLACE: &[u8] = b"place 67e55044-10b1-426f-9247-bb680e5fe0c8 9 0:1-1\n";

/// The line that withdraws it.
pub const WITHDRAW: &[u8] = b"withdraw 67e55044-10b1-426f-9247-bb680e5fe0c8\n";

const TOLD: &[u8] = b"place 67e55044-10b1-426f-9247-bb680e5fe0c8 9 0:1-1\n\n\x03\t\x03\x03";

const SETTLED: &[u8] = b"place 67e55044-10b1-426f-9247-bb680e5fe0c8 9 0:1-1\n\n\x03\t\t\x03";

const GONE: &[u8] = b"withdraw 67e55044-10b1-426f-9247-bb680e5fe0c8\n\n\0\0\0\x03";

const DARKENED: &[u8] = b"withdraw 67e55044-10b1-426f-9247-bb680e5fe0c8\n\n\x03\x03\x03\x03";

const BRIGHT: &[u8] = b"\r\n\r\nP5\n4 1\n9\n\x03\t\t\x03";

const DARK: &[u8] = b"\r\n\r\nP5\n4 1\n9\n\x03\x03\x03\x03";

const LIVE: &[u8] = b"\r\n\r\nplace 00000000-0000-0000-0000-000000000001 2 0:0-0\n\
    place 00000000-0000-0000-0000-000000000002 3 0:3-3\n";
