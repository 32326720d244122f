//! Studios whose hands work in threads: how fast their core settles, how soon an edit is seen, and what a show takes.

use crate::input::Input;
use crate::outcome::{Fault, MEMORY, Outcome, check, tell};
use crate::system::{Laps, System};
use core_dispatch::{Pen, Turned};
use reset_core::Core;
use std::sync::atomic::{AtomicBool, Ordering};
use std::thread;
use std::thread::Scope;
use steal_pool::{Hand, Open};
use stroke_lattice::Delta;
use studio::{Eye, Keeper, Studio};

/// A keeper, with its pens, hands and eyes. End it.
pub type Company = (Keeper, Vec<Pen>, Vec<Hand>, Vec<Eye>);

// Who submits edits, and who looks.
type Seats = (Option<Pen>, Option<Eye>);

/// A studio of the core with so many hands, and so many pens and eyes.
///
/// Errors: no counts from 1 to 16; out of memory.
pub fn open(rt: &impl System, core: Core, hands: usize, pens: usize) -> Result<Company, Fault> {
    match Studio::open(rt, rt.alloc(), core, pens, hands, pens) {
        Ok(
            Studio {
                keeper,
                pens,
                hands,
                eyes,
            },
        ) => Ok((keeper, pens, hands, eyes)),
        Err(refused) => Fault(refused.why.code()).dropping(refused),
    }
}

/// Has each hand work in a thread of its own until the flag is set.
///
/// Errors: a thread that can not be made.
pub fn spawn_hands<'s, E: 's, R: System>(
    scope: &Scope<'s, E>,
    rt: &'s R,
    hands: Vec<Hand>,
    done: &'s AtomicBool,
) -> Outcome {
    let mut are_made = true;
    for hand in hands {
        are_made = is_made(scope.spawn(move || work(rt, hand, done))) && are_made;
    }
    check(are_made, "a thread can not be made")
}

/// Whether a thread was made, for which the scope waits. Where none was, what it was to own is let go.
pub fn is_made<T: Drop, E: Drop>(started: Result<T, E>) -> bool {
    let is_made = started.is_ok();
    drop(started);
    is_made
}

// Lets a hand work until the flag is set.
fn work(rt: &impl System, mut hand: Hand, done: &AtomicBool) {
    hand.run(rt, &Open, done);
    drop(hand);
}

/// Makes a turn, and lets other threads run where there was nothing to do.
///
/// Errors: out of memory.
pub fn turn(keeper: &mut Keeper) -> Result<Turned, Fault> {
    let turned = keeper.turn();
    check(!turned.memory, MEMORY.0)?;
    if turned.edits == 0 && turned.results == 0 && turned.jobs == 0 {
        thread::yield_now();
    }
    Ok(turned)
}

/// Takes in what a turn would, and pushes no job.
///
/// Errors: out of memory.
pub fn take_in(keeper: &mut Keeper) -> Result<Turned, Fault> {
    let taken = keeper.take_in();
    check(!taken.memory, MEMORY.0)?;
    Ok(taken)
}

/// What a keeper with hands does, and what is printed of it.
#[derive(Clone, Copy)]
pub enum Task {
    /// A core of all edits settles. Its sum, how many jobs there were, and the time are printed.
    Settle,
    /// So many of the last edits are submitted to a settled core, one after another, and a line is printed for each:
    /// the time until a glimpse has it, and what two shows took, one after the edit and one after nothing.
    See(u32),
    /// The same, and a line for each: `placed` or `withdrawn`, how many tiles were reset, how many jobs there were, and
    /// the time until no work is left.
    Edit(u32),
}

impl Task {
    // How many of the last edits are submitted, where the core settles before.
    fn count(self) -> Option<u32> {
        match self {
            Task::Settle => None,
            Task::See(count) | Task::Edit(count) => Some(count),
        }
    }
}

/// Has so many hands work in threads, and does the task. Where a number of threads is given, the keeper settles in
/// bands by so many where that takes less time than turns.
///
/// Errors: a core or studio that can not be made; a thread that can not be; an edit that is not seen; out of memory.
pub fn run<R: System>(
    rt: &R,
    input: Input,
    hands: u32,
    side: u32,
    task: Task,
    threads: Option<usize>,
) -> Outcome {
    let (core, edits) = input.open(rt.alloc(), side, task.count())?;
    let (mut keeper, mut pens, hands, mut eyes) = open(rt, core, hands as usize, 1)?;
    let (lent, seats, edits) = (&mut keeper, &mut (pens.pop(), eyes.pop()), &edits);
    let done = &AtomicBool::new(false);
    let mut laps = Laps::begin(rt);
    let jobs = thread::scope(thread::scope_env(), rt, move |scope| {
        let jobs = match spawn_hands(scope, rt, hands, done) {
            Ok(()) => do_all(rt, lent, seats, edits, task, threads),
            Err(fault) => Err(fault),
        };
        done.store(true, Ordering::SeqCst);
        jobs
    });
    let time = laps.lap(rt);
    let core = keeper.end(rt);
    if task.count().is_none() {
        return tell(rt, core, jobs, time);
    }
    drop(core);
    jobs.and(Ok(()))
}

// Does the task with each edit, each after the work of the one before, and says how many jobs there were at the end.
fn do_all(
    rt: &impl System,
    keeper: &mut Keeper,
    seats: &mut Seats,
    edits: &[Delta],
    task: Task,
    threads: Option<usize>,
) -> Result<u64, Fault> {
    for edit in edits {
        match task {
            Task::Edit(_) => measure(rt, keeper, seats, edit, threads)?,
            _ => see(rt, keeper, seats, edit)?,
        }
        work_off(rt, keeper, threads)?;
    }
    work_off(rt, keeper, threads)
}

// Makes turns until no work is left, or settles in bands by so many threads where that takes less time, and says how
// many jobs there were.
fn work_off(rt: &impl System, keeper: &mut Keeper, threads: Option<usize>) -> Result<u64, Fault> {
    let mut jobs: u64 = 0;
    for _ in 0..u64::MAX {
        if keeper.core().is_quiet() {
            break;
        }
        let more = match threads {
            Some(threads) if keeper.is_for_bands(threads) => settle(rt, keeper, threads)?,
            _ => turn(keeper)?.jobs,
        };
        jobs = jobs.wrapping_add(more);
    }
    Ok(jobs)
}

// Has the keeper settle in bands, by up to so many threads, and says how many jobs there were.
fn settle(rt: &impl System, keeper: &mut Keeper, threads: usize) -> Result<u64, Fault> {
    let slice = keeper
        .settle_in_bands(rt, threads, u64::MAX)
        .or(Err(MEMORY))?;
    Ok(slice.count.jobs)
}

// Has an edit submitted, taken in and worked off, and prints what that took.
fn measure(
    rt: &impl System,
    keeper: &mut Keeper,
    seats: &mut Seats,
    edit: &Delta,
    threads: Option<usize>,
) -> Outcome {
    let before = sum_of_generations(keeper);
    let copy = edit.copy(rt.alloc()).or(Err(MEMORY))?;
    let mut laps = Laps::begin(rt);
    submit(seats, copy)?;
    take_in(keeper)?;
    let jobs = work_off(rt, keeper, threads)?;
    let time = laps.lap(rt);
    let reset = sum_of_generations(keeper).wrapping_sub(before);
    let is_placed = edit.strokes().next().is_some();
    let kind = if is_placed { "placed" } else { "withdrawn" };
    println!(rt; "{kind} {reset} {jobs} {time}")?;
    Ok(())
}

// Submits an edit by the pen.
fn submit(seats: &mut Seats, edit: Delta) -> Outcome {
    let (pen, _eye) = seats;
    let is_in = pen.as_mut().is_some_and(|pen| pen.submit(edit).is_ok());
    check(is_in, "a ring is full")
}

// The sum of the generations of all tiles, which each reset of a tile raises by 1.
fn sum_of_generations(keeper: &Keeper) -> u64 {
    let core = keeper.core();
    let mut sum: u64 = 0;
    for tile in 0..core.tiles() {
        sum = sum.wrapping_add(core.generation(tile));
    }
    sum
}

// Has an edit submitted and seen, and prints what it took until then, and what two shows took.
fn see(rt: &impl System, keeper: &mut Keeper, seats: &mut Seats, edit: &Delta) -> Outcome {
    let copy = edit.copy(rt.alloc()).or(Err(MEMORY))?;
    let laps = Laps::begin(rt);
    submit(seats, copy)?;
    turn(keeper)?;
    let first = time_of_show(rt, keeper)?;
    let seen = time_until_seen(rt, laps, seats, edit)?;
    let second = time_of_show(rt, keeper)?;
    println!(rt; "{seen} {first} {second}")?;
    Ok(())
}

// What the lap took until the eye has a glimpse. The edit has to be in it.
fn time_until_seen(
    rt: &impl System,
    mut laps: Laps,
    seats: &mut Seats,
    edit: &Delta,
) -> Result<u128, Fault> {
    let (_pen, seat) = seats;
    let Some(eye) = seat.take() else {
        return Err(Fault("there is no eye"));
    };
    match eye.look() {
        Ok(glimpse) => {
            let seen = laps.lap(rt);
            let is_seen = edit.is_below(glimpse.state());
            *seat = Some(glimpse.leave());
            check(is_seen, "an edit is not seen")?;
            Ok(seen)
        }
        Err(eye) => Fault("the studio is closed").dropping(eye),
    }
}

// What a show takes.
fn time_of_show(rt: &impl System, keeper: &mut Keeper) -> Result<u128, Fault> {
    let mut laps = Laps::begin(rt);
    let _told = keeper.show(rt).or(Err(MEMORY))?;
    Ok(laps.lap(rt))
}
