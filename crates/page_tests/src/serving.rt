//! What a server answers in its first turns, who is gone by then, and what a start draws by chance.

mod caller;
mod world;

use crate::spelling::{begins, body_of};
use byte_devices::StdSink;
use caller::{Caller, Line, hears};
use grid_core::Conn;
use page_server::{FileName, PaintCall, paint};
use raster_sweeps::OneThread;
use run_faults::RunError;
use std::alloc::Global;
use std::cell::RefCell;
use std::fs;
use std::marker::Sync;
use std::net::Net;
use std::rt::Files;
use std::test::Fail;
use std::thread::Threads;
use view_session::memory_store::MemoryStore;
use view_session::store::StatePath;
use world::World;

/// A page that is served for some turns, and asked when the first of them begins: the random bytes of each draw, and
/// the key that they make; the line of what is asked, in which `KEY` stands for the key, and its body; what is not said
/// of that until the last turn begins; what the clock tells when the server starts and as each turn begins, in
/// milliseconds; the status of the answer, and what its body begins and ends with. Without a status there is no answer.
#[derive(Clone, Copy, Drop)]
pub struct Play {
    random: &'static [u8],
    key: &'static str,
    line: &'static str,
    body: &'static [u8],
    rest: &'static [u8],
    moments: &'static [u64],
    status: &'static [u8],
    front: &'static [u8],
    end: &'static [u8],
}

// The name of the mask's file, which is there while pages are served.
const MASK: &str = "served_mask";

/// The state file of a stroke of level 3 at the last pixel of the mask, for eight neighbours.
const KEPT: &[u8] = b"\x00\x44SPD2\x08\
    \xb2\xf1\x2a\xe1\xb5\x74\x90\x4e\x86\x3f\xd8\xdd\xc6\xb6\x7a\xb4\
    \xda\x2f\x6f\x78\x0c\x80\xba\x31\x0e\x75\x7a\xd2\xa9\x3b\xb0\xac\
    \0\x01\0\0\
    \0\0\0\0\0\0\0\0\0\0\0\0\0\0\0\x02\0\0\x03\0\x01\0\0\0\x04\0\x04";

/// Asks for the strokes that are kept, in the first of two turns.
const STROKES: Play = Play {
    random: b"\x05\x06\x07\x08\x09\x0a\x0b\x0c\x0d\x0e\x0f\x10\x11\x12\x13\x14",
    key: "05060708090a0b0c0d0e0f1011121314",
    line: "GET /KEY/strokes",
    body: b"",
    rest: b"",
    moments: &[0, 0, 0],
    status: b"200",
    front: b"place 00000000-0000-0000-0000-000000000002 ",
    end: b"3 0:4-4\n",
};

/// Asks what changed since another run, which begins with the number of this one.
const LEAST: Play = Play {
    random: &[0; 16],
    key: "00000000000000000000000000000000",
    line: "GET /KEY/changes?run=0&since=0",
    front: b"1 1 ",
    end: b"",
    ..STROKES
};

/// Says all but the last byte, and that in the third turn. The second comes at the last millisecond for which who says
/// nothing keeps the place.
const SLOW: Play = Play {
    rest: b"\n",
    moments: &[1_000_000, 1_000_000, 1_029_999, 1_029_999],
    ..STROKES
};

const PLAYS: &[Play] = &[
    STROKES,
    SLOW,
    // The second turn comes a millisecond later: who said nothing is gone then.
    Play {
        moments: &[1_000_000, 1_000_000, 1_030_000, 1_030_000],
        status: b"",
        ..SLOW
    },
    Play {
        line: "POST /KEY/edits?run=0&since=0",
        body: b"withdraw 00000000-0000-0000-0000-000000000002\n",
        front: b"",
        end: b"\0\0\0\0\0",
        ..STROKES
    },
    // This path does not show the key.
    Play {
        line: "GET /none",
        status: b"404",
        front: b"no such path",
        end: b"",
        ..STROKES
    },
    LEAST,
    Play {
        random: &[255; 16],
        key: "ffffffffffffffffffffffffffffffff",
        front: b"9007199254740991 1 ",
        ..LEAST
    },
];

fn serve<R: Net + Files + Threads + Sync>(
    rt: &R,
    world: &World<'_, R>,
    alloc: Global,
    sink: &mut StdSink<Caller<'_, R>>,
) -> Result<(), RunError> {
    let mask = FileName::new(alloc, MASK)?;
    let file = StatePath::new(alloc, "kept")?;
    let store = MemoryStore::new(alloc).with_file(&file, KEPT)?;
    let call = PaintCall {
        mask,
        file,
        conn: Conn::Eight,
        side: 16,
        port: Some(0),
        forward: None,
    };
    paint(world, rt, &OneThread, alloc, call, store, sink)
}

fn is_right(answer: &[u8], play: &Play) -> bool {
    if play.status.is_empty() {
        return answer.is_empty();
    }
    let body = body_of(answer);
    begins(answer, play.status) && body.starts_with(play.front) && body.ends_with(play.end)
}

// Whether a page is served, until nobody tells the time, and answers as it should.
fn is_played<R: Net + Files + Threads + Sync>(rt: &R, alloc: Global, play: &'static Play) -> bool {
    let mut line: Line<R::Stream> = RefCell::new(None);
    let mut sink = StdSink::new(Caller {
        rt,
        alloc,
        play,
        line: &line,
    });
    let ended = serve(rt, &World::new(rt, play, &line), alloc, &mut sink);
    drop(sink);
    let mut answer = Vec::new(alloc);
    let is_whole = hears(line.get_mut(), &mut answer);
    drop(line);
    let is_right = is_right(&answer, play);
    // Who is gone and says more may find its stream reset.
    ended == Err(RunError::Link) && (is_whole || answer.is_empty()) && is_right
}

#[test]
fn pages_are_served(rt: HostRuntime) -> Result<(), Fail> {
    fs::write(&rt, MASK, "P2\n5 1\n9\n3 5 2 5 4\n")?;
    for play in PLAYS {
        let (line, key) = (play.line, play.key);
        assert!(rt; is_played(&rt, rt.alloc(), play), "{line}, {key}");
    }
    fs::remove_file(&rt, MASK)?;
    Ok(())
}
