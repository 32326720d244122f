//! Cores that settle by themselves, in one thread or in bands: once, or again after each edit.

use crate::input::{Input, merge};
use crate::outcome::{Fault, MEMORY, Outcome, tell};
use crate::system::{Laps, System, thread_time};
use reset_core::{Core, TileSet};
use stroke_lattice::Delta;

/// Lets a core of all edits settle, and prints its sum, how many jobs there were, and the time.
pub fn once(rt: &impl System, input: Input, side: u32) -> Outcome {
    let (mut core, _) = input.open(rt.alloc(), side, None)?;
    let mut laps = Laps::begin(rt);
    let settled = core.settle(rt.alloc());
    let time = laps.lap(rt);
    let jobs = settled.map(|count| count.jobs).or(Err(MEMORY));
    tell(rt, core, jobs, time)
}

/// Lets a core of all edits settle in bands, by at most so many threads, and prints its sum, how many jobs there were,
/// and the time.
pub fn in_bands(rt: &impl System, input: Input, side: u32, threads: u32) -> Outcome {
    let (mut core, _) = input.open(rt.alloc(), side, None)?;
    let mut laps = Laps::begin(rt);
    let jobs = settle_in_bands(rt, &mut core, threads);
    let time = laps.lap(rt);
    tell(rt, core, jobs, time)
}

/// Merges each of the last edits, so many, into a settled core, settles it again, in bands where a number of threads is
/// given, and prints a line for it.
pub fn each(
    rt: &impl System,
    input: Input,
    side: u32,
    count: u32,
    threads: Option<u32>,
) -> Outcome {
    let (mut core, edits) = input.open(rt.alloc(), side, Some(count))?;
    let told = measure_all(rt, &mut core, &edits, threads);
    drop(core);
    told
}

// Measures one edit after another.
fn measure_all(
    rt: &impl System,
    core: &mut Core,
    edits: &[Delta],
    threads: Option<u32>,
) -> Outcome {
    for edit in edits {
        measure(rt, core, edit, threads)?;
    }
    Ok(())
}

// Merges an edit, settles the core again, and prints what that took: the time of this thread, or where there are more,
// that of the clock.
fn measure(rt: &impl System, core: &mut Core, edit: &Delta, threads: Option<u32>) -> Outcome {
    let before = sum_of_generations(core);
    let start = thread_time(rt);
    let mut laps = Laps::begin(rt);
    let is_placed = merge(rt.alloc(), core, edit)?;
    let (jobs, time) = match threads {
        Some(threads) => (settle_in_bands(rt, core, threads)?, laps.lap(rt)),
        None => {
            let jobs = core.settle(rt.alloc()).or(Err(MEMORY))?.jobs;
            (jobs, thread_time(rt).saturating_sub(start))
        }
    };
    let reset = sum_of_generations(core).wrapping_sub(before);
    let kind = if is_placed { "placed" } else { "withdrawn" };
    println!(rt; "{kind} {reset} {jobs} {time}")?;
    Ok(())
}

// Settles a core in bands, by at most so many threads, and says how many jobs there were.
fn settle_in_bands(rt: &impl System, core: &mut Core, threads: u32) -> Result<u64, Fault> {
    let mut swept = TileSet::empty(rt.alloc(), core.tiles()).or(Err(MEMORY))?;
    let slice = core.settle_in_bands(rt, rt.alloc(), &mut swept, threads as usize, u64::MAX);
    Ok(slice.or(Err(MEMORY))?.count.jobs)
}

// The sum of the generations of all tiles, which each reset of a tile raises by 1.
fn sum_of_generations(core: &Core) -> u64 {
    let mut sum: u64 = 0;
    for tile in 0..core.tiles() {
        sum = sum.wrapping_add(core.generation(tile));
    }
    sum
}
