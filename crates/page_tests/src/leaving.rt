//! Who is dropped, and when.

use crate::client::Client;
use crate::host::Host;
use crate::session::{BLANK, Session, admit};
use grid_core::Memory;
use page_server::PeerList;
use std::cell::RefCell;
use std::test::Fail;

/// One who ends the connection, and what still comes behind that.
const LAST: &[u8] = b"GET /0123456789abcdef0011223344556677/ HTTP/1.1\r\nHost: localhost:8080\r\n\
    Connection: close\r\n\r\nPOST /0123456789abcdef0011223344556677/state HTTP/1.1\r\n\
    Host: localhost:8080\r\nOrigin: http://localhost:8080\r\nContent-Length: 0\r\n\r\n";

/// Moments of rounds, in milliseconds, and how many are there behind each of them. The first says nothing, and goes
/// after half a minute. The second is answered in the second round, and lingers for two seconds. The third says a byte
/// in each round, and goes when its request takes a minute.
const MOMENTS: &[(u64, usize)] = &[
    (0, 3),
    (1, 3),
    (2_000, 3),
    (2_001, 2),
    (29_999, 2),
    (30_000, 1),
    (59_999, 1),
    (60_000, 0),
];

// Takes the three in. Whether there is memory for them.
fn seat<'a>(rt: &impl Host, peers: &mut PeerList<Client<'a>>, told: &'a RefCell<Vec<u8>>) -> bool {
    admit(rt, peers, Client::new(b"", 1, told))
        && admit(rt, peers, Client::new(LAST, usize::MAX, told))
        && admit(rt, peers, Client::new(LAST, 1, told))
}

// Whether as many are there behind each moment as it says.
fn go_in_turn(session: &mut Session, peers: &mut PeerList<Client<'_>>) -> bool {
    for (now, count) in MOMENTS {
        session.turn_at(peers, *now);
        if peers.len() != *count {
            return false;
        }
    }
    true
}

// Whether the three go so.
fn three_go(
    rt: &impl Host,
    session: &mut Session,
    told: &RefCell<Vec<u8>>,
) -> Result<bool, Memory> {
    let mut peers = PeerList::new(rt.alloc(), 3)?;
    let is_so = seat(rt, &mut peers, told) && go_in_turn(session, &mut peers);
    drop(peers);
    Ok(is_so)
}

#[test]
fn who_is_still_or_slow_goes(rt: HostRuntime) -> Result<(), Fail> {
    let mut session = Session::open(rt.alloc(), &BLANK)?;
    let told = RefCell::new(Vec::new(rt.alloc()));
    let is_so = three_go(&rt, &mut session, &told);
    let version = session.version();
    drop(session);
    assert!(rt; is_so? && version == 1);
    assert!(rt; told.into_inner().ends_with(b"\r\n\r\npage"));
    Ok(())
}
