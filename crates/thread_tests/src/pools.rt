//! Pools of hands, without a studio.

use crate::outcome::{NO_MEMORY, Outcome, OutcomeOf, right_if, succeeded, told};
use crate::pictures::{GROWN, Mask};
use crate::playing::PATIENCE;
use grid_core::{Conn, Grid, Pixel};
use std::alloc::Global;
use std::sync::atomic::{AtomicBool, AtomicU64, Ordering};
use std::sync::{Arc, Wait};
use std::test::Fail;
use std::thread;
use std::thread::Threads;
use steal_pool::{Gate, Hand, Owner, Pool, Report};
use tile_generations::{Job, Swept, Ticket};

const TICKET: Ticket = Ticket {
    tile: 7,
    generation: 3,
    serial: 9,
};

// A job on the row, with 5 in the second column.
fn job(alloc: Global) -> Option<Job> {
    let mut base = Grid::new(alloc, 5, 1, 0).ok()?;
    base.set(Pixel { x: 1, y: 0 }, 5);
    let mask = Mask::Row.grid(alloc)?;
    if !base.is_below(&mask) {
        return None;
    }
    let mask = Arc::new(alloc, mask).ok()?;
    Some(Job::new(TICKET, Conn::Four, base, mask))
}

fn is_pushed(alloc: Global, owner: &mut Owner) -> bool {
    match job(alloc) {
        Some(job) => succeeded(owner.push(job)),
        None => false,
    }
}

// Whether the pixels have an owner more, and are what the row grows into.
fn are_shared(swept: &Swept) -> bool {
    match swept.shared_pixels() {
        Ok(pixels) => pixels.cells() == GROWN,
        Err(_) => false,
    }
}

// Whether that job was swept. It says by false that there was no memory for it.
fn is_swept(report: Option<Report>) -> OutcomeOf<bool> {
    match report {
        Some(Report::Done(swept)) => {
            let is_grown = (swept.pixels().cells() == GROWN) & are_shared(&swept);
            let is_it = (swept.ticket() == TICKET) & is_grown;
            drop(swept);
            right_if(is_it, "what was swept").and(Ok(true))
        }
        Some(Report::Failed(ticket)) => {
            right_if(ticket == TICKET, "another job failed").and(Ok(false))
        }
        None => Err("no report"),
    }
}

// Notes who passes with another job.
#[derive(Default, Drop)]
struct Watch {
    passed: AtomicU64,
    wrong: AtomicU64,
}

impl Gate for Watch {
    fn pass(&self, ticket: Ticket) {
        self.passed.fetch_add(1, Ordering::SeqCst);
        self.wrong
            .fetch_add(u64::from(ticket != TICKET), Ordering::SeqCst);
    }
}

impl Watch {
    // Whether somebody passed with that job, and nobody with another.
    fn is_right(&self) -> bool {
        let wrong = self.wrong.load(Ordering::SeqCst);
        (self.passed.load(Ordering::SeqCst) > 0) & (wrong == 0)
    }
}

// The next report of the second hand, for a while.
fn next_report(owner: &mut Owner) -> Option<Report> {
    for _ in 0..PATIENCE {
        if let Some(report) = owner.collect(1) {
            return Some(report);
        }
        thread::yield_now();
    }
    None
}

// Whether the hand has nothing to report.
fn is_silent(owner: &mut Owner, hand: usize) -> bool {
    match owner.collect(hand) {
        Some(report) => {
            drop(report);
            false
        }
        None => true,
    }
}

// Whether the job comes back: where there was no memory to sweep it, it fails, and is pushed again.
fn comes_back(alloc: Global, owner: &mut Owner) -> Outcome {
    right_if(is_pushed(alloc, owner), NO_MEMORY)?;
    if !is_swept(next_report(owner))? {
        right_if(is_pushed(alloc, owner), "a job is refused again")?;
        right_if(is_swept(next_report(owner))?, "a job fails again")?;
    }
    let mut are_silent = true;
    for hand in 0..3 {
        are_silent = is_silent(owner, hand) & are_silent;
    }
    right_if(are_silent, "a report too many")
}

// Sweeps until the flag is set.
fn sweep<R: Wait>(rt: &R, mut hand: Hand, gate: &Watch, done: &AtomicBool) {
    hand.run(rt, gate, done);
    drop(hand);
}

// The same while the second of three hands runs in a thread of its own.
fn comes_from_thread<R: Threads + Wait + Sync>(
    rt: &R,
    alloc: Global,
    owner: &mut Owner,
    hand: Hand,
) -> Outcome {
    let (watch, done) = (Watch::default(), AtomicBool::new(false));
    let (gate, flag) = (&watch, &done);
    let outcome = thread::scope(thread::scope_env(), rt, |scope| {
        let outcome = if succeeded(scope.spawn(move || sweep(rt, hand, gate, flag))) {
            comes_back(alloc, owner)
        } else {
            Err(NO_MEMORY)
        };
        flag.store(true, Ordering::SeqCst);
        outcome
    });
    outcome.and(right_if(watch.is_right(), "who passed the gate"))
}

#[test]
fn a_pool_is_opened_and_a_job_comes_back_tried_again(rt: HostRuntime) -> Result<(), Fail> {
    let opened = match Pool::open(rt.alloc(), 3, 4) {
        Ok(pool) => Some(pool),
        Err(_) => Pool::open(rt.alloc(), 3, 4).ok(),
    };
    let Some(mut pool) = opened else {
        return Err(Fail::new("a pool is refused again"));
    };
    let third = pool.hands.pop();
    let outcome = match pool.hands.pop() {
        Some(hand) => comes_from_thread(&rt, rt.alloc(), &mut pool.owner, hand),
        None => Err("no second hand"),
    };
    drop(third);
    drop(pool);
    told(outcome)
}
