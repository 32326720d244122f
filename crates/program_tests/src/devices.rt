//! Devices that give and take one byte at a time: the same is written, and each pull and each put fails in turn.

use crate::cases::{Call, Case, play};
use crate::kept::CONTINUED;
use crate::views::{DOMES, WHOLE_BYTE};
use std::alloc::Global;
use std::test::Fail;

// Runs of each kind.
const RUNS: &[Case] = &[
    WHOLE_BYTE,
    CONTINUED,
    Case {
        call: Call::Stored,
        ..CONTINUED
    },
    DOMES,
];

// A run whose device fails once so many bytes are written.
fn failed_behind(run: &Case, bytes: usize) -> Case {
    Case {
        fault: (3, "P11"),
        written: &run.written[..bytes.min(run.written.len())],
        ..*run
    }
}

// Plays a run where each pull fails in turn: one for each byte, and one that finds the end. There is no other.
fn fails_at_each_pull(alloc: Global, run: &Case) -> Result<(), Fail> {
    let pulls = (run.input(alloc)?.len() as u64).saturating_add(1);
    let failed = failed_behind(run, 0);
    for pull in 1..=pulls {
        play(alloc, &Case { pull, ..failed })?;
    }
    let pull = pulls.saturating_add(1);
    play(alloc, &Case { pull, ..*run })
}

// Plays a run where each put fails in turn, one for each byte. There is no other.
fn fails_at_each_put(alloc: Global, run: &Case) -> Result<(), Fail> {
    let mut put: u64 = 0;
    for bytes in 0..run.written.len() {
        put = put.saturating_add(1);
        let failed = failed_behind(run, bytes);
        play(alloc, &Case { put, ..failed })?;
    }
    let put = put.saturating_add(1);
    play(alloc, &Case { put, ..*run })
}

#[test]
fn each_pull_and_each_put_of_a_byte_fails_in_turn(rt: HostRuntime) -> Result<(), Fail> {
    for run in RUNS {
        let by_bytes = Case { piece: 1, ..*run };
        fails_at_each_pull(rt.alloc(), &by_bytes)?;
        fails_at_each_put(rt.alloc(), &by_bytes)?;
    }
    Ok(())
}
