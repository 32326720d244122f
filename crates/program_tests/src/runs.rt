//! Runs of the program: what they write, the file that they leave, the line of their fault and their status.
//! The link of a node hears nothing.

use crate::kept::SECOND;
use crate::words::words_of;
use byte_devices::{MemorySink, MemorySource};
use command_line::process::{conclude, run};
use grid_core::Memory;
use link_nodes::MemoryLink;
use node_session::network::MemoryNetwork;
use page_server::PaintCall;
use run_faults::RunError;
use std::alloc::Global;
use std::process::ExitCode;
use std::sync::Wait;
use std::test::Fail;
use std::thread::Threads;
use std::time::Clock;
use view_session::memory_store::MemoryStore;
use view_session::store::StatePath;

const PLACED: &str =
    "place 00000000-0000-0000-0000-000000000002 3 0:4-4\nimage\nP2\n5 1\n9\n3 5 2 5 4\n";

// How a run ends: well, with a painting that it hands back, or with this status and this line.
#[derive(Clone, Copy)]
enum End {
    Well,
    Painting,
    Fault(u8, &'static [u8]),
}

const NO_STATE_FILE: End = End::Fault(3, b"seedpaint: V2\n");

// A run: its words, the state file `strokes` before, the call of the store that fails (the first loads, the second
// saves; the third there is not), whether a link can be bound, its input, its end, what it writes, the state file
// after, and whether it read its input, and bound the link to port 40001 with the peer 40002.
#[derive(Clone, Copy)]
struct Run {
    words: &'static str,
    old: &'static [u8],
    failing: u64,
    has_link: bool,
    input: &'static str,
    end: End,
    written: &'static [u8],
    new: &'static [u8],
    is_read: bool,
    is_bound: bool,
}

const VIEW: Run = Run {
    words: "seedpaint",
    old: b"",
    failing: 3,
    has_link: false,
    input: PLACED,
    end: End::Well,
    written: b"P5\n5 1\n9\n\x02\x02\x02\x03\x03",
    new: b"",
    is_read: true,
    is_bound: false,
};

const NODE: Run = Run {
    words: "seedpaint node --port 40001 --ticks 3 40002",
    has_link: true,
    is_bound: true,
    ..VIEW
};

// A run that reads nothing and writes nothing.
const NOTHING: Run = Run {
    written: b"",
    is_read: false,
    ..VIEW
};

const RUNS: &[Run] = &[
    VIEW,
    Run {
        words: "seedpaint view --tile 16 --state strokes",
        new: SECOND,
        ..VIEW
    },
    Run {
        words: "seedpaint derive hmax --h 2",
        input: "P2\n5 1\n9\n1 4 3 5 1\n",
        written: b"P5\n5 1\n9\n\x01\x03\x03\x03\x01",
        ..VIEW
    },
    Run {
        words: "seedpaint derive hmin",
        end: End::Fault(2, b"seedpaint: usage\n"),
        ..NOTHING
    },
    Run {
        words: "seedpaint paint m.pgm",
        end: End::Painting,
        ..NOTHING
    },
    Run {
        words: "seedpaint view --state strokes",
        failing: 1,
        end: NO_STATE_FILE,
        ..NOTHING
    },
    Run {
        words: "seedpaint view --state strokes",
        failing: 2,
        end: NO_STATE_FILE,
        ..VIEW
    },
    NODE,
    Run {
        words: "seedpaint node --state strokes --port 40001 --ticks 3 40002",
        new: SECOND,
        ..NODE
    },
    Run {
        words: "seedpaint node --port 40001 --ticks 3 40002",
        end: End::Fault(3, b"seedpaint: D3\n"),
        ..NOTHING
    },
];

fn is_told(alloc: Global, outcome: &Result<(), RunError>, status: u8, line: &[u8]) -> bool {
    let mut errors = MemorySink::new(alloc);
    let code = conclude(outcome, &mut errors);
    code == ExitCode::from(status) && errors.written() == line
}

fn is_ended(alloc: Global, end: End, outcome: &Result<Option<PaintCall>, RunError>) -> bool {
    match end {
        End::Well => matches!(outcome, Ok(None)) && is_told(alloc, &Ok(()), 0, b""),
        End::Painting => is_painting(outcome),
        End::Fault(status, line) => match outcome {
            Err(error) => is_told(alloc, &Err(*error), status, line),
            Ok(_) => false,
        },
    }
}

fn is_painting(outcome: &Result<Option<PaintCall>, RunError>) -> bool {
    match outcome {
        Ok(Some(painting)) => painting.file.name() == "m.pgm.spd",
        _ => false,
    }
}

impl Run {
    // Whether the run over this store, this network and this sink ends so, and reads its input or leaves it.
    fn ends<R: Threads + Wait + Clock + Sync>(
        &self,
        rt: &R,
        alloc: Global,
        store: &mut MemoryStore,
        network: &mut MemoryNetwork,
        sink: &mut MemorySink,
    ) -> Result<bool, Memory> {
        let input = Vec::from_slice(alloc, self.input.as_bytes())?;
        let given = Ok(words_of(alloc, self.words)?.into_iter());
        let mut source = MemorySource::new(input);
        let outcome = run(rt, alloc, given, &mut source, store, network, sink);
        Ok(is_ended(alloc, self.end, &outcome) && (source.pulls() > 0) == self.is_read)
    }

    // Whether the run ends so, and leaves file and network so.
    fn is_so<R: Threads + Wait + Clock + Sync>(
        &self,
        rt: &R,
        alloc: Global,
    ) -> Result<bool, Memory> {
        let path = StatePath::new(alloc, "strokes")?;
        let mut store = MemoryStore::new(alloc)
            .with_file(&path, self.old)?
            .failing_at(self.failing);
        let link = MemoryLink::new(alloc, None);
        let mut network = MemoryNetwork::new(self.has_link.then_some(link));
        let mut sink = MemorySink::new(alloc);
        let is_ended = self.ends(rt, alloc, &mut store, &mut network, &mut sink);
        let is_bound = network.is_bound(40001, &[40002]);
        let is_left = store.file(&path) == self.new && is_bound == self.is_bound;
        Ok(matches!(is_ended, Ok(true)) && is_left && sink.written() == self.written)
    }
}

#[test]
fn runs_of_the_program(rt: HostRuntime) -> Result<(), Fail> {
    for run in RUNS {
        assert!(rt; run.is_so(&rt, rt.alloc())?, "{}", run.words);
    }
    Ok(())
}
