//! Who may ask, and what is asked.

use crate::files::FOUR;
use crate::host::Host;
use crate::session::{BLANK, Session};
use crate::spelling::{OURS, Request, begins};
use grid_core::Conn;
use page_board::PageBoard;
use std::test::Fail;

/// An answer as a whole.
const MASK: &[u8] = b"HTTP/1.1 200 OK\r\ncontent-type: image/x-portable-graymap\r\n\
    cache-control: no-store\r\nx-content-type-options: nosniff\r\nx-frame-options: DENY\r\n\
    cross-origin-resource-policy: same-origin\r\nreferrer-policy: no-referrer\r\n\
    content-security-policy: default-src 'self'\r\n\
    content-disposition: inline; filename*=UTF-8''1+1%20%22cells%22%2050%25_%C3%A9%27~.pgm\r\n\
    content-length: 13\r\n\r\n\
    P5\n4 1\n9\n\x03\t\t\x03";

/// Lines, fields, and the status: hosts and origins, ours and others; paths, a method and a query that there are not.
const ASKED: &[(&str, &str, &[u8])] = &[
    ("GET /KEY/mask", "Host: 127.0.0.1:8080\r\n", b"200"),
    ("GET /KEY/mask", "Host: evil:8080\r\n", b"421"),
    ("GET /KEY/mask", "", b"400"),
    ("GET http://127.0.0.1:8080/KEY/mask", OURS, b"421"),
    ("POST /KEY/state", "Host: localhost:8080\r\n", b"403"),
    ("POST /KEY/state", NOBODY, b"403"),
    ("POST /KEY/state", ANOTHER_PORT, b"403"),
    ("GET /", OURS, b"404"),
    ("GET /00000000000000000000000000000000/mask", OURS, b"404"),
    ("POST /KEY/image", OURS, b"405"),
    ("GET /KEY/?x", OURS, b"400"),
];

const NOBODY: &str = "Host: localhost:8080\r\nOrigin: null\r\n";

const ANOTHER_PORT: &str = "Host: localhost:8080\r\nOrigin: http://127.0.0.1:8081\r\n";

// The first line that is not answered with its status, if there is one, and its fields.
fn first_wrong(rt: &impl Host, session: &mut Session) -> Option<(&'static str, &'static str)> {
    for &(line, fields, status) in ASKED {
        let body = b"";
        session.ask(rt, &Request { line, fields, body });
        if !begins(session.told(), status) {
            return Some((line, fields));
        }
    }
    None
}

#[test]
fn who_may_ask_is_answered(rt: HostRuntime) -> Result<(), Fail> {
    let mut session = Session::open(rt.alloc(), &BLANK)?;
    let wrong = first_wrong(&rt, &mut session);
    session.ask_ours(&rt, "GET /KEY/mask", b"");
    let is_mask = session.told() == MASK;
    drop(session);
    assert!(rt; wrong.is_none(), "{wrong:?}");
    assert!(rt; is_mask);
    Ok(())
}

#[test]
fn a_board_begins_dark(rt: HostRuntime) -> Result<(), Fail> {
    let mask = pgm_codec::read(rt.alloc(), FOUR)?;
    let board = PageBoard::open(rt.alloc(), mask, Conn::Four, 8, 5)?;
    let file = board.image_file(rt.alloc());
    drop(board);
    assert!(rt; file?.as_slice() == b"P5\n4 1\n9\n\0\0\0\0".as_slice());
    Ok(())
}
