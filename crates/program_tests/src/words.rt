//! The words of the command line, and what is read of them.

use command_line::words::{Call, read_words};
use grid_core::{Conn, Memory};
use run_faults::RunError;
use std::alloc::{AllocError, Global};
use std::test::Fail;
use view_session::store::StatePath;

// Words that say a call, where `''` is an empty one, and the call: of a view neighbours, side and state file; of a node
// these, port, ticks, hands and peers; of a derivation kind, h and neighbours; of a painting mask, state file,
// neighbours, side, port and the file that forwards.
const SAID: &str = "-> view Four 64 None
    view -> view Four 64 None
    view --conn 4 -> view Four 64 None
    view --conn 8 -> view Eight 64 None
    view --conn=8 -- -> view Eight 64 None
    view --tile 8 -> view Four 8 None
    view --tile 256 -> view Four 256 None
    view --state a -> view Four 64 Some(\"a\")
    view --conn 8 --tile 16 -> view Eight 16 None
    node --port 40001 --ticks 3 40002 -> node Four 64 None 40001 3 2 [40002]
    node 1 --ticks 100000 --hands 16 --conn 8 --tile 8 --state a --port 65535 65535 1 1 1 1 1 1\
        -> node Eight 8 Some(\"a\") 65535 100000 16 [1, 65535, 1, 1, 1, 1, 1, 1]
    derive fill -> derive Fill 1 Four
    derive hmax --h 2 -> derive HMax 2 Four
    derive regmax --conn 8 -> derive RegMax 1 Eight
    derive fill --h 0 -> derive Fill 0 Four
    derive hmax --h 65535 -> derive HMax 65535 Four
    derive --h 2 --conn 8 hmax -> derive HMax 2 Eight
    paint m -> paint m m.spd Four 64 None None
    paint m --port 65535 --state a --conn 8 --forward f --tile 8 -> paint m a Eight 8 Some(65535) Some(\"f\")
    paint --port 0 --forward '' m -> paint m m.spd Four 64 Some(0) Some(\"\")
    paint --forward=-f --port=0 m -> paint m m.spd Four 64 Some(0) Some(\"-f\")";

// Words that say none: another value, no value or a second one, a word too many, an option of no or of another
// subcommand, help, another subcommand, a number out of its range or not as it is written in decimal.
const USAGE: &str =
    "view --conn 5 | view --tile 7 | view --tile 257 | view --tile 08 | view --conn | view x
    | view --conn 8 --conn 8 | view --state | view --state a --state b | view --h 2 | view --port 9 | view --forward f
    | --conn 8 | --help | help | grow | '' | derive | derive hmin | derive fill hmax | derive hmax --h 65536
    | derive fill --h 65536 | derive hmax --h 02 | derive fill --tile 64 | derive fill --state a
    | node --port 0 --ticks 3 1 | node --port 65536 --ticks 3 1 | node --port 08 --ticks 3 1 | node --ticks 3 1
    | node --port 9 --ticks 0 1 | node --port 9 --ticks 100001 1 | node --port 9 --ticks +5 1 | node --port 9 1
    | node --port 9 --ticks 3 --hands 0 1 | node --port 9 --ticks 3 --hands 17 1 | node --port 9 --ticks 3 --tile 7 1
    | node --port 9 --ticks 3 --tile 257 1 | node --port 9 --ticks 3 | node --port 9 --ticks 3 1 1 1 1 1 1 1 1 1
    | node --port 9 --ticks 3 1 0 | node --port 9 --ticks 3 1 65536 | node --port 9 --ticks 3 --port 9 1
    | paint | paint m m | paint m --port 65536 | paint m --port 08 | paint m --tile 7 | paint m --port 9 --port 9
    | paint m --forward f --forward f | paint m --forward | paint m --forward -f | paint m --ticks 3";

/// The words of a text.
pub fn words_of(alloc: Global, text: &str) -> Result<Vec<String>, Memory> {
    let mut words = Vec::new(alloc);
    for word in text.split_whitespace() {
        let word = if word == "''" { "" } else { word };
        words.push(String::from_str(alloc, word)?)?;
    }
    Ok(words)
}

// Adds a call by its name, its neighbours, its side and its state file.
fn push_view(
    text: &mut String,
    name: &str,
    conn: Conn,
    side: u32,
    file: &Option<StatePath>,
) -> Result<(), AllocError> {
    let file = file.as_ref().map(|path| path.name());
    write!(text, "{name} {conn:?} {side} {file:?}")
}

// Adds a call, as the tables spell it.
fn push_call(text: &mut String, call: Call) -> Result<(), AllocError> {
    match call {
        Call::View { conn, side, file } => push_view(text, "view", conn, side, &file),
        Call::Node {
            conn,
            side,
            port,
            ticks,
            hands,
            peers,
            file,
        } => {
            let pushed = push_view(text, "node", conn, side, &file);
            let peers = peers.into_ports();
            pushed.and(write!(text, " {port} {ticks} {hands} {peers:?}"))
        }
        Call::Derive { kind, h, conn } => write!(text, "derive {kind:?} {h} {conn:?}"),
        Call::Paint(painting) => {
            let forward = painting.forward.as_ref().map(|file| file.as_str());
            let (mask, file) = (painting.mask.as_str(), painting.file.name());
            let (conn, side, port) = (painting.conn, painting.side, painting.port);
            write!(
                text,
                "paint {mask} {file} {conn:?} {side} {port:?} {forward:?}"
            )
        }
    }
}

// Whether this is read of words; nothing where they are usage.
fn is_read(alloc: Global, words: &str, said: &str) -> Result<bool, Memory> {
    let words = words_of(alloc, words)?;
    let mut text = String::new(alloc);
    let is_pushed = match read_words(alloc, &words) {
        Ok(call) => push_call(&mut text, call).is_ok(),
        Err(error) => error == RunError::Usage,
    };
    Ok(is_pushed && text.as_str() == said)
}

#[test]
fn words_say_calls(rt: HostRuntime) -> Result<(), Fail> {
    for line in SAID.lines() {
        let (words, said) = line.split_once("->").unwrap_or((line, ""));
        assert!(rt; is_read(rt.alloc(), words, said.trim())?, "{line}");
    }
    Ok(())
}

#[test]
fn other_words_are_usage(rt: HostRuntime) -> Result<(), Fail> {
    for words in USAGE.split('|') {
        assert!(rt; is_read(rt.alloc(), words, "")?, "{words}");
    }
    Ok(())
}
