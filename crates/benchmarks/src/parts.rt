//! What the parts of a job take in one thread.

use crate::input::Input;
use crate::outcome::{Fault, MEMORY, Outcome, check, sum_of};
use crate::system::{Laps, System};
use steal_pool::{Open, Pool, Report};
use tile_generations::Job;
use tiled_core::TiledCore;

// A pool of one hand; and how many jobs there were, and what taking, pushing, sweeping, giving back and handing hints
// over took so far.
type Bench = (Pool, [u128; 6]);

/// Works a core of all edits off in one thread, job by job. It prints how many jobs there were, and the time of each
/// part; and the sum.
pub fn measure(rt: &impl System, input: Input, side: u32) -> Outcome {
    let (core, edits) = input.open(rt.alloc(), side, None)?;
    drop(edits);
    match TiledCore::over(rt.alloc(), core) {
        Ok(core) => measure_over(rt, core),
        Err(refused) => MEMORY.dropping(refused),
    }
}

// Works the core off, and prints what is measured, and the sum.
fn measure_over(rt: &impl System, mut core: TiledCore) -> Outcome {
    let told = measure_parts(rt, &mut core);
    let sum = sum_at_end(core);
    told?;
    println!(rt; "{sum}")?;
    Ok(())
}

// The sum of the core's image, which is the end of it.
fn sum_at_end(core: TiledCore) -> u64 {
    let core = core.into_core();
    let sum = sum_of(core.image().cells());
    drop(core);
    sum
}

// Works all off, and prints how many jobs there were, and the time of each part.
fn measure_parts(rt: &impl System, core: &mut TiledCore) -> Outcome {
    let mut bench = (Pool::open(rt.alloc(), 1, 1).or(Err(MEMORY))?, [0; 6]);
    let worked = work_off(rt, core, &mut bench);
    let [jobs, take, push, sweep, give, hint] = bench.1;
    drop(bench);
    worked?;
    println!(rt; "{jobs} {take} {push} {sweep} {give} {hint}")?;
    Ok(())
}

// Works tiles in rising order, again and again until no work is left.
fn work_off(rt: &impl System, core: &mut TiledCore, bench: &mut Bench) -> Outcome {
    let mut from = 0;
    for _ in 0..u64::MAX {
        if core.is_quiet() {
            break;
        }
        from = match core.next_dirty(from) {
            Some(tile) => {
                work(rt, core, bench, tile)?;
                tile.saturating_add(1)
            }
            None => 0,
        };
    }
    Ok(())
}

// Takes the job of a tile, pushes it, sweeps it, gives it back and hands the hints over, each part by itself.
fn work(rt: &impl System, core: &mut TiledCore, bench: &mut Bench, tile: usize) -> Outcome {
    let (pool, sums) = bench;
    let mut laps = Laps::begin(rt);
    let job = take(rt, core, tile)?;
    sums[1] = sums[1].wrapping_add(laps.lap(rt));
    let is_pushed = pool.owner.push(job).is_ok();
    sums[2] = sums[2].wrapping_add(laps.lap(rt));
    if let Some(hand) = pool.hands.first_mut() {
        hand.turn(&Open);
    }
    sums[3] = sums[3].wrapping_add(laps.lap(rt));
    let is_back = give_back(rt, core, pool);
    sums[4] = sums[4].wrapping_add(laps.lap(rt));
    hand_all(core);
    sums[5] = sums[5].wrapping_add(laps.lap(rt));
    sums[0] = sums[0].wrapping_add(1);
    check(is_pushed && is_back, MEMORY.0)
}

// Takes the job of a tile.
fn take(rt: &impl System, core: &mut TiledCore, tile: usize) -> Result<Job, Fault> {
    let job = core.take(rt.alloc(), tile).or(Err(MEMORY))?;
    job.ok_or(Fault("a tile has no job"))
}

// Collects what the hand swept, and says whether it is in the core again.
fn give_back(rt: &impl System, core: &mut TiledCore, pool: &mut Pool) -> bool {
    match pool.owner.collect(0) {
        Some(Report::Done(swept)) => core.give_back(rt.alloc(), swept).is_ok(),
        _ => false,
    }
}

// Hands over each hint that waits, tile by tile, the last of an inbox first.
fn hand_all(core: &mut TiledCore) {
    for _ in 0..u64::MAX {
        let Some(tile) = core.next_waiting(0) else {
            break;
        };
        core.hand_waiting(tile);
    }
}
