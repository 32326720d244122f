//! What is posted, and what a page is told.

use crate::files::{FOUR, OLD, SIXTEEN};
use crate::host::Host;
use crate::session::{BLANK, Scene, Session};
use crate::spelling::{begins, body_of};
use crate::steps::{EDITS, PLACE, WITHDRAW};
use std::test::Fail;

// A request by its line and its body, and its answer, by the status and, where that is compared, a blank and the body.
type Row = (&'static str, &'static [u8], &'static [u8]);

// An edit is told at once, and then what it grew into; a tag that came and went is withdrawn, and stays away.
const GROWN: &[Row] = &[
    ("GET /KEY/changes?run=5&since=1", b"", b"200 5 1 1 1 0\n\n"),
    (
        EDITS,
        PLACE,
        b"200 5 2 2 0 1\n0 0 4 1\nplace 67e55044-10b1-426f-9247-bb680e5fe0c8 9 0:1-1\n\n\0\t\0\0",
    ),
    (
        "GET /KEY/changes?run=5&since=2",
        b"",
        b"200 5 2 3 1 0\n0 0 4 1\n\n\x03\t\t\x03",
    ),
    (
        EDITS,
        WITHDRAW,
        b"200 5 3 4 0 1\n0 0 4 1\nwithdraw 67e55044-10b1-426f-9247-bb680e5fe0c8\n\n\0\0\0\0",
    ),
    (EDITS, PLACE, b"200"),
    ("GET /KEY/strokes", b"", b"200 "),
];

// A state file is joined, also a second time.
const JOINED: &[Row] = &[
    ("POST /KEY/state", OLD, b"200 5 2 2 0 1\n\n"),
    ("POST /KEY/state", OLD, b"200 5 3 4 1 0\n\n"),
];

// A page begins grown over its file, and tells all to one of another run, and nothing to one that was told all.
const BEGUN: &[Row] = &[
    (
        "GET /KEY/changes?run=4&since=1",
        b"",
        b"200 5 1 1 1 0\n0 0 4 1\nplace 00000000-0000-0000-0000-000000000002 3 0:3-3\n\n\x03\x03\x03\x03",
    ),
    ("GET /KEY/changes?run=5&since=1", b"", b"200 5 1 1 1 0\n\n"),
];

// Two tiles side by side, in which a stroke grew, are told as one rectangle.
const BESIDE: &[Row] = &[
    (EDITS, PLACE, b"200"),
    (
        "GET /KEY/changes?run=5&since=2",
        b"",
        b"200 5 2 3 1 0\n0 0 16 1\n\n\t\t\t\t\t\t\t\t\t\t\t\t\t\t\t\t",
    ),
];

// Names, masks, state files, and requests, one after another.
const TALKS: &[(&str, &[u8], &[u8], &[Row])] = &[
    ("an edit", FOUR, b"", GROWN),
    ("a state file", FOUR, b"", JOINED),
    ("a beginning", FOUR, OLD, BEGUN),
    ("two tiles", SIXTEEN, b"", BESIDE),
];

// Whether an answer has this status and, where it is compared, this body.
fn is_answer(told: &[u8], answer: &[u8]) -> bool {
    if answer.len() < 4 {
        return begins(told, answer);
    }
    begins(told, &answer[..3]) && body_of(told) == &answer[4..]
}

// The line of the first of these rows that is not answered as it says, if there is one.
fn first_wrong(rt: &impl Host, session: &mut Session, rows: &[Row]) -> Option<&'static str> {
    for &(line, body, answer) in rows {
        session.ask_ours(rt, line, body);
        if !is_answer(session.told(), answer) {
            return Some(line);
        }
    }
    None
}

#[test]
fn what_is_posted_is_told(rt: HostRuntime) -> Result<(), Fail> {
    for &(name, mask, kept, rows) in TALKS {
        let scene = Scene {
            mask,
            kept,
            ..BLANK
        };
        let mut session = Session::open(rt.alloc(), &scene)?;
        let wrong = first_wrong(&rt, &mut session, rows);
        drop(session);
        assert!(rt; wrong.is_none(), "{name}: {wrong:?}");
    }
    Ok(())
}
