//! A hand.

ghost use Rattle.std.specs.Prelude.{◌≡◌, ◌≤◌, List, None};
ghost use Rattle.steal_pool.specs.declared.report.Turn.{Turn as Answer};
ghost use Rattle.steal_pool.specs.Reports.{AreReported, AreTurns, IsStep, IsTurn};
ghost use Rattle.steal_pool.specs.Working.{IsOutcome};
ghost use Rattle.steal_pool.specs.Views.{reports, IsSameHand};

use crate::desk::Desk;
use crate::gate::Gate;
use crate::report::{Report, Turn};
use raster_sweeps::Room;
use std::alloc::Global;
use std::marker::Model;
use std::sync::Wait;
use std::sync::atomic::{AtomicBool, Ordering};
use std::thread;
use std::thread::Parker;
use std::time::Duration;
use tile_generations::Job;

// How many turns in a row with nothing to do a hand makes before it rests.
const YIELDS: u32 = 64;

// How many times in a row it rests as long, before it rests twice as long.
const RESTS: u32 = 8;

/// Who sweeps jobs, mostly in a thread of its own. Contracts see the jobs that it got, each with its place among the
/// pushed, the reports that it sent, and the one that it holds, if any; how many free places of its ring it knows of;
/// and which deque and which ring it has. Each job that it got has its report, in that order, among those that it sent,
/// followed by the one that it holds. It may outlive its owner.
#[derive(Drop)]
pub struct Hand {
    alloc: Global,
    // What it sweeps in, job after job.
    room: Room,
    desk: Desk,
}

impl Model for Hand {
    ghost use Rattle.steal_pool.specs.Reports.{AreReported};
    ghost use Rattle.steal_pool.specs.Views.{HandView, reports};

    ghost Value = { HandView };

    ghost view = { λ h. h.desk };

    ghost invariant = { λ h. AreReported h.desk.got (reports h.desk) };
}

// Sweeps a job. It gives the answer of the turn, and the report.
fn sweep(alloc: Global, room: &mut Room, job: Job) -> (Turn, Report)
    ensures { IsOutcome job result.0 result.1 }
{
    let ticket = job.ticket();
    match job.sweep_in(alloc, room) {
        Ok(swept) => (Turn::Worked(ticket), Report::Done(swept)),
        Err(_) => (Turn::Failed(ticket), Report::Failed(ticket)),
    }
}

// A turn of a hand that holds no report: gets one job, passes the gate, sweeps the job and reports it.
fn work<G: Gate>(alloc: Global, room: &mut Room, desk: &mut Desk, gate: &G) -> Turn
    requires none_held { desk.old.held ≡ None }
    requires reported { AreReported desk.old.got (reports desk.old) }
    ensures turn { IsTurn desk.old result desk.new }
    ensures few { desk.new.free ≤ desk.new.ring.0 }
    ensures reported { AreReported desk.new.got (reports desk.new) }
    ensures same { IsSameHand desk.old desk.new }
{
    let Some(job) = desk.steal() else {
        return Turn::Idle;
    };
    gate.pass(job.ticket());
    let (turn, report) = sweep(alloc, room, job);
    if desk.report(report) {
        turn
    } else {
        Turn::RingFull
    }
}

impl Hand {
    /// A hand at this desk.
    pub(crate) fn new(alloc: Global, room: Room, desk: Desk) -> Hand
        requires reported { AreReported desk.got (reports desk) }
        ensures { result ≡ desk }
    {
        Hand { alloc, room, desk }
    }

    /// One turn: a report that is held is sent first; then one job is got, the gate is passed with its ticket, the job
    /// is swept, and its report is sent. It waits for nobody, the gate aside.
    ///
    /// It answers `Worked` where one job was got and swept and its report was sent, `Failed` where there was no memory
    /// to sweep it and that was sent, `Idle` where no job was got, and `RingFull` where a report is held at the end,
    /// since no place in the ring was seen to be free. `specs/Reports.antt` says in `IsTurn` what each means for the
    /// hand.
    pub fn turn<G: Gate>(&mut self, gate: &G) -> Turn
        ensures turn { IsTurn self.old result self.new }
        ensures few { self.new.free ≤ self.new.ring.0 }
        ensures reported { AreReported self.new.got (reports self.new) }
        ensures same { IsSameHand self.old self.new }
    {
        if self.desk.flush() {
            work(self.alloc, &mut self.room, &mut self.desk, gate)
        } else {
            Turn::RingFull
        }
    }

    /// Makes turns until it reads that the flag is set. It looks at the flag before each turn. After one that was not
    /// answered by `Worked` it yields its processor, and after many of these in a row it rests, from 50 microseconds
    /// to 400 in the end, so that processors are left to others. A report that is held at the end is sent by a later
    /// turn, if there is one.
    #[tactic(auto, using(crate::proofs::Turns::one_step_more, crate::proofs::Turns::no_step_more))]
    pub fn run<G: Gate, R: Wait>(&mut self, rt: &R, gate: &G, done: &AtomicBool)
        ensures turns { (answers : List Answer) × AreTurns self.old answers self.new }
        ensures reported { AreReported self.new.got (reports self.new) }
        ensures same { IsSameHand self.old self.new }
    {
        // What the hand keeps is known to the prover where a field of it is read.
        let _alloc = &self.alloc;
        let mut idle = 0;
        for _ in rt.forever() {
            let is_set = done.load(Ordering::SeqCst);
            if self.ends(rt, gate, is_set, &mut idle) {
                return;
            }
        }
    }

    // Makes one turn, or none where the flag was read as set, behind so many that had nothing to do. It says whether
    // running ends: by the flag, and by nothing that a turn answers.
    fn ends<G: Gate, R: Wait>(&mut self, rt: &R, gate: &G, is_set: bool, idle: &mut u32) -> bool
        ensures flag { result ≡ is_set }
        ensures step { IsStep self.old result self.new }
        ensures reported { AreReported self.new.got (reports self.new) }
        ensures same { IsSameHand self.old self.new }
    {
        let _alloc = &self.alloc;
        if is_set {
            return true;
        }
        match self.turn(gate) {
            Turn::Worked(_) => *idle = 0,
            Turn::Idle | Turn::RingFull | Turn::Failed(_) => wait(rt, idle),
        }
        false
    }
}

// Yields the processor, or rests where that was done many times in a row, and longer the more often it has rested.
// A rest may also end early by itself.
fn wait<R: Wait>(rt: &R, idle: &mut u32) {
    if *idle < YIELDS {
        thread::yield_now();
    } else {
        let rest = Duration::from_micros(rest_behind(*idle - YIELDS));
        Parker::new().park_timeout(rt, rest);
    }
    *idle = idle.saturating_add(1);
}

// How many microseconds a hand rests behind so many rests in a row.
fn rest_behind(rests: u32) -> u64
    ensures { result ≤ 400 }
{
    match rests / RESTS {
        0 => 50,
        1 => 100,
        2 => 200,
        _ => 400,
    }
}
