//! Runs of a node over links in memory and over sockets on loopback, and how they end.

use crate::frames::{BOTH, FIRST, OF_ANOTHER_IMAGE, SECOND};
use crate::nodes::link_with;
use crate::outcome::{CHANGED, NO_MEMORY, Outcome, OutcomeOf, right_if, succeeded, told};
use byte_devices::{MemorySink, MemorySource};
use grid_core::{Conn, Memory, TILE_SIDE};
use link_nodes::{Link, MemoryLink, UdpLink};
use node_session::node_run;
use pgm_codec::PgmError;
use run_faults::{RunError, status};
use std::alloc::Global;
use std::net::Net;
use std::sync::Wait;
use std::test::Fail;
use std::thread::Threads;
use std::time::Clock;

// A run on the row: what it shows; the state file before; the edits of the input, with #1 and #2 for the tags 1 and 2;
// how many hands and ticks there are; the datagrams that wait at the link, and its call that fails, counted from 1; the
// put that fails, counted from 1, or 0; how many datagrams are sent, and how many bytes the last one has; what is
// written; and the new bytes of the state file, or none where the run fails, with the status of devices.
#[derive(Clone, Copy)]
struct Run {
    name: &'static str,
    old: &'static [u8],
    edits: &'static str,
    hands: usize,
    ticks: u32,
    fed: &'static [&'static [u8]],
    fails_at: Option<u64>,
    put: u64,
    sent: usize,
    told: usize,
    written: &'static [u8],
    new: &'static [u8],
}

// What stands behind the edits in the input.
const ROW: &str = "image\nP2\n5 1\n9\n3 5 2 5 4\n";

// What is written of the stroke of tag 2, and of both strokes.
const OUT_OF_SECOND: &[u8] = b"P5\n5 1\n9\n\x02\x02\x02\x03\x03";

const OUT_OF_BOTH: &[u8] = b"P5\n5 1\n9\n\x03\x05\x02\x03\x03";

// One stroke is placed and told three times, with two hands.
const ALONE: Run = Run {
    name: "a node alone",
    old: b"",
    edits: "place #2 3 0:4-4\n",
    hands: 2,
    ticks: 3,
    fed: &[],
    fails_at: None,
    put: 0,
    sent: 3,
    told: 68,
    written: OUT_OF_SECOND,
    new: SECOND,
};

const HEARING: Run = Run {
    name: "a stroke that is heard is told on",
    fed: &[FIRST],
    told: 95,
    written: OUT_OF_BOTH,
    new: BOTH,
    ..ALONE
};

const RUNS: &[Run] = &[
    ALONE,
    HEARING,
    Run {
        name: "datagrams that are refused do not end a run",
        ticks: 4,
        fed: &[OF_ANOTHER_IMAGE, b"no frame", &[0; 1401], FIRST],
        sent: 4,
        told: 68,
        ..HEARING
    },
    Run {
        name: "a state file is continued",
        old: SECOND,
        edits: "place #1 9 0:1-1\n",
        hands: 16,
        fed: &[],
        ..HEARING
    },
    Run {
        name: "a sink that fails at its second put",
        put: 2,
        written: b"P5\n",
        new: b"",
        ..ALONE
    },
];

fn input(alloc: Global, edits: &str) -> Result<Vec<u8>, Memory> {
    let mut input = edits.replace(alloc, '#', "00000000-0000-0000-0000-00000000000")?;
    input.push_str(ROW)?;
    Ok(input.into_bytes())
}

// The devices of a run, which take and give a few bytes at a time, and its link.
#[derive(Drop)]
struct Ends<L> {
    source: MemorySource,
    sink: MemorySink,
    link: L,
}

impl Run {
    fn ends(&self, alloc: Global) -> Option<Ends<MemoryLink>> {
        let input = input(alloc, self.edits).ok()?;
        let link = link_with(alloc, self.fed, self.fails_at)?;
        Some(Ends {
            source: MemorySource::new(input).in_pieces(7),
            sink: MemorySink::new(alloc).in_pieces(3).failing_at(self.put),
            link,
        })
    }

    // Runs a node on the row.
    fn answer<R: Threads + Wait + Clock + Sync, L: Link>(
        &self,
        rt: &R,
        alloc: Global,
        ends: &mut Ends<L>,
    ) -> Result<Vec<u8>, RunError> {
        let (old, hands, ticks) = (self.old, self.hands, self.ticks);
        let (conn, side) = (Conn::Four, TILE_SIDE);
        let Ends { source, sink, link } = ends;
        node_run(rt, alloc, source, old, conn, side, hands, ticks, link, sink)
    }

    fn is_answer(&self, answer: Result<Vec<u8>, RunError>) -> bool {
        match answer {
            Ok(new) => !new.is_empty() & (new.as_slice() == self.new),
            Err(error) => self.new.is_empty() & (status(&error) == 3),
        }
    }

    fn is_so<R: Threads + Wait + Clock + Sync>(&self, rt: &R, alloc: Global) -> bool {
        let Some(mut ends) = self.ends(alloc) else {
            return false;
        };
        let answer = self.answer(rt, alloc, &mut ends);
        let sent = ends.link.sent();
        let told = sent.last().map_or(0, |datagram| datagram.bytes().len());
        let is_sent = (sent.len() == self.sent) & (told == self.told);
        let is_written = ends.sink.written() == self.written;
        drop(ends);
        self.is_answer(answer) & is_sent & is_written
    }
}

#[test]
fn runs_of_a_node_end_as_they_are_to(rt: HostRuntime) -> Result<(), Fail> {
    for run in RUNS {
        told(right_if(run.is_so(&rt, rt.alloc()), run.name))?;
    }
    Ok(())
}

// Three ticks make six calls, of which each second one is a send.
#[test]
fn a_link_that_fails_once_does_not_end_a_run(rt: HostRuntime) -> Result<(), Fail> {
    for call in 1..=6u64 {
        let run = Run {
            sent: if call % 2 == 0 { 2 } else { 3 },
            fails_at: Some(call),
            ..ALONE
        };
        told(right_if(run.is_so(&rt, rt.alloc()), "a call that fails"))?;
    }
    Ok(())
}

// ---- where memory is refused

// Whether a run that was refused wrote nothing, or a front, where the sink found no memory for the rest.
fn has_only_front(sink: &MemorySink, fault: RunError) -> bool {
    let has_failed = fault == RunError::Pgm(PgmError::Device);
    let is_front = OUT_OF_BOTH.starts_with(sink.written());
    (has_failed == (sink.refused() > 0)) & is_front & (has_failed | sink.written().is_empty())
}

// Whether a run was answered with both strokes. Where memory was wanting, as at a stroke that is then not heard, it
// says so by false.
fn is_played(answer: Result<Vec<u8>, RunError>, sink: &MemorySink) -> OutcomeOf<bool> {
    match answer {
        Ok(new) if new.as_slice() == BOTH => {
            right_if(sink.written() == OUT_OF_BOTH, "what a run wrote").and(Ok(true))
        }
        Ok(new) => {
            let is_unheard = (new.as_slice() == SECOND) & (sink.written() == OUT_OF_SECOND);
            right_if(is_unheard, "what a run kept").and(Ok(false))
        }
        Err(error) => {
            right_if(status(&error) == 3, "why a run was refused")?;
            right_if(has_only_front(sink, error), CHANGED).and(Ok(false))
        }
    }
}

// Plays the run, and once more where memory was wanting.
fn plays_again<R: Threads + Wait + Clock + Sync>(
    rt: &R,
    alloc: Global,
    ends: &mut Ends<MemoryLink>,
    next: &mut Ends<MemoryLink>,
) -> Outcome {
    let answer = HEARING.answer(rt, alloc, ends);
    if is_played(answer, &ends.sink)? {
        return Ok(());
    }
    let answer = HEARING.answer(rt, alloc, next);
    right_if(is_played(answer, &next.sink)?, "a run is refused again")
}

#[test]
fn a_node_runs_tried_again(rt: HostRuntime) -> Result<(), Fail> {
    let Some((mut ends, mut next)) = HEARING.ends(rt.alloc()).zip(HEARING.ends(rt.alloc())) else {
        return Err(Fail::new(NO_MEMORY));
    };
    let outcome = plays_again(&rt, rt.alloc(), &mut ends, &mut next);
    drop(ends);
    drop(next);
    told(outcome)
}

// ---- over sockets

const INPUT: &[u8] =
    b"place 00000000-0000-0000-0000-000000000001 73 0:1-1\nimage\nP2\n5 1\n255\n67 69 66 69 68\n";

// A link to a peer that is not there.
fn bind<R: Net>(rt: &R, alloc: Global) -> Option<UdpLink> {
    let peers = vec![in alloc; 40_002].ok()?;
    UdpLink::bind(rt, 40_001, peers).ok()
}

// Whether a node with two hands, of three ticks, writes the image of the input.
fn writes<R: Threads + Wait + Clock + Sync>(rt: &R, alloc: Global, link: UdpLink) -> bool {
    let Ok(input) = Vec::from_slice(alloc, INPUT) else {
        return false;
    };
    let (source, sink) = (MemorySource::new(input), MemorySink::new(alloc));
    let mut ends = Ends { source, sink, link };
    let answer = ALONE.answer(rt, alloc, &mut ends);
    let is_written = ends.sink.written() == b"P5\n5 1\n255\nCEBBB".as_slice();
    drop(ends);
    succeeded(answer) & is_written
}

#[test]
fn a_node_over_sockets_writes_its_image(rt: HostRuntime) -> Result<(), Fail> {
    let Some(link) = bind(&rt, rt.alloc()) else {
        return Err(Fail::new("no link"));
    };
    assert!(rt; writes(&rt, rt.alloc(), link));
    Ok(())
}
