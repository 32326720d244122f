//! Ten requests, where a call of the store fails, or a growth of memory is refused; boards that are refused; and a file
//! that becomes large.

use crate::files::OLD;
use crate::host::Host;
use crate::session::{BLANK, Scene, Session};
use crate::spelling::begins;
use crate::steps::{EDITS, PLACE, STEPS, Step};
use grid_core::Memory;
use pgm_codec::PgmError;
use run_faults::{RunError, status};
use std::alloc::Global;
use std::test::Fail;

// What the requests begin with: the file has a stroke on the fourth pixel.
const SCENE: Scene = Scene { kept: OLD, ..BLANK };

// A call of the store fails, which stands before a mask that is none.
const LOST: Scene = Scene {
    mask: b"P7\n",
    failing_call: 1,
    ..BLANK
};

// A pull of the mask's file fails, which stands before a state file that is none.
const CUT: Scene = Scene {
    kept: b"\0",
    failing_pull: 1,
    ..BLANK
};

// How a request was answered.
#[derive(Clone, Copy)]
enum Reply {
    // With 200 and the end that it has to have, and the file is the one of the step.
    Right,
    // Not at all, or with 503: saves fail, or it was taken and memory is wanting to tell what changed.
    Unkept,
    Wrong,
}

// Asks for a step. Its answer has to end so.
fn reply_to(rt: &impl Host, session: &mut Session, step: &Step, end: &[u8]) -> Reply {
    let &(line, body, _, _, file) = step;
    session.ask_ours(rt, line, body);
    let told = session.told();
    if told.is_empty() || begins(told, b"503") {
        return Reply::Unkept;
    }
    let is_right = begins(told, b"200") && told.ends_with(end);
    if is_right && session.has_file(file) {
        Reply::Right
    } else {
        Reply::Wrong
    }
}

// Asks for a step until it is answered rightly; before it the file was this. How often that takes, if it comes to that:
// once, where nothing failed; twice, where memory was wanting; three times, where what was taken could not be kept, so
// that the second one is held off while it is.
fn asks(rt: &impl Host, session: &mut Session, step: &Step, old: &[u8]) -> Option<u32> {
    let &(_, _, end, again, file) = step;
    let version = session.version();
    match reply_to(rt, session, step, end) {
        Reply::Right => return Some(1),
        Reply::Unkept if session.has_file(old) || session.has_file(file) => {}
        _ => return None,
    }
    let is_taken = session.version() != version;
    let end = if is_taken { again } else { end };
    match reply_to(rt, session, step, end) {
        Reply::Right => return Some(2),
        Reply::Unkept if is_taken && session.has_file(file) => {}
        _ => return None,
    }
    match reply_to(rt, session, step, end) {
        Reply::Right => Some(3),
        _ => None,
    }
}

// How often somebody asked until all requests were answered rightly, and how often one that looked on was not told the
// mask meanwhile. It fails at the first that is answered wrongly, also when it is made again, or leaves another file.
fn asks_all(rt: &impl Host, session: &mut Session) -> Result<(u32, u32), Fail> {
    let mut asked = 0u32;
    let mut file = OLD;
    for step in STEPS {
        match asks(rt, session, step, file) {
            Some(count) => asked = asked.saturating_add(count),
            None => return Err(Fail::new(step.0)),
        }
        file = step.4;
    }
    Ok((asked, session.unseen()))
}

fn play(rt: &impl Host, scene: &Scene) -> Result<(u32, u32), Fail> {
    match Session::open(rt.alloc(), scene) {
        Ok(mut session) => {
            let asked = asks_all(rt, &mut session);
            drop(session);
            asked
        }
        Err(why) if status(&why) == 3 => Err(Fail::new("no memory to begin with")),
        Err(_) => Err(Fail::new("no board")),
    }
}

// A text that withdraws so many tags that a file which keeps them has more than a MiB: each takes 16 bytes.
fn withdrawals(alloc: Global) -> Result<Vec<u8>, Memory> {
    let mut text = Vec::new(alloc);
    for number in 10_000_000u32..10_070_000 {
        let line = format!(in alloc; "withdraw 67e55044-10b1-426f-9247-bb68{number}\n")?;
        text.extend_from_slice(line.as_bytes())?;
    }
    Ok(text)
}

#[test]
fn boards_are_refused(rt: HostRuntime) {
    let cut = RunError::Pgm(PgmError::Device);
    for (scene, why) in [(&LOST, RunError::StateFile), (&CUT, cut)] {
        assert!(rt;
            Session::open(rt.alloc(), scene).err() == Some(why),
            "{why:?}"
        );
    }
}

#[test]
fn each_save_fails_in_turn(rt: HostRuntime) -> Result<(), Fail> {
    // The first call of the store is a load, and then there is a save of each of three posts.
    for (failing_call, asked) in [(2, 12), (3, 12), (4, 12), (5, 10)] {
        let scene = Scene {
            failing_call,
            ..SCENE
        };
        assert!(rt; play(&rt, &scene)? == (asked, 0), "call {failing_call}");
    }
    Ok(())
}

#[test]
fn a_large_file_is_kept(rt: HostRuntime) -> Result<(), Fail> {
    let text = withdrawals(rt.alloc())?;
    let mut session = Session::open(rt.alloc(), &BLANK)?;
    session.ask_ours(&rt, EDITS, &text);
    let length = session.file_len();
    session.ask_ours(&rt, EDITS, PLACE);
    let is_longer = begins(session.told(), b"200") && session.file_len() > length;
    drop(session);
    assert!(rt; is_longer && length > 1024 * 1024);
    Ok(())
}

#[test]
fn ten_requests_tried_again(rt: HostRuntime) -> Result<(), Fail> {
    play(&rt, &SCENE)?;
    Ok(())
}
