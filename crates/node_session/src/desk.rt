//! A keeper and a node at work.

ghost use Rattle.std.specs.Prelude.{◌≡◌, ◌<◌, ◌⊎◌, ◌↔◌, true, false, IsTrue};
ghost use Rattle.studio.specs.Keeping.{books_of, core_of};
ghost use Rattle.node_session.specs.Working.{HasSettledFor, HasTakenTurns, HasWorked, IsMuchLeft, IsOneStudio};
ghost use Rattle.node_session.specs.Working.{IsTurnOf, StaysSilent, TookIn, TookInAll, WorksOn};

use crate::pace::rest;
use core_dispatch::Turned;
use link_nodes::{Link, Node};
use std::alloc::Global;
use std::marker::Sync;
use std::sync::Wait;
use std::thread;
use std::thread::Threads;
use std::time::Clock;
use studio::Keeper;

// How many turns a tick takes at most, and how many tiles are swept in bands in a tick at most, which takes four threads
// a third of a second or so: the node hears and sends now and then.
const TURNS: u32 = 1024;

const SWEEPS: u64 = 32_768;

// Behind how many turns in a row that had nothing to take a tick waits for hands no longer.
const PATIENCE: u32 = 256;

/// The keeper of a studio, and a node of it.
pub(crate) struct Desk {
    pub(crate) keeper: Keeper,
    pub(crate) node: Node,
}

impl Desk {
    /// Makes so many ticks, and rests behind each. Where much is to be swept, up to so many threads do it: all that is
    /// left at first, and a slice in a tick.
    pub(crate) fn ticks<R: Threads + Wait + Clock + Sync, L: Link>(
        &mut self,
        rt: &R,
        alloc: Global,
        link: &mut L,
        ticks: u32,
        threads: usize,
    )
        requires { IsOneStudio self.old }
        ensures { WorksOn ticks self.old self.new (L.seen link.old) (L.seen link.new) }
    {
        // Before the first turn: no job has been pushed yet that hands would sweep in vain.
        self.settle_where_much(rt, threads, u64::MAX);
        for _tick in 0..ticks {
            self.tick(rt, alloc, link, threads);
            rest(rt);
        }
    }

    // One tick: the keeper works and shows the core, the node learns of it, hears and sends. Memory that is wanting,
    // and a link that fails, cost what they were wanted for.
    fn tick<R: Threads + Wait + Sync, L: Link>(
        &mut self,
        rt: &R,
        alloc: Global,
        link: &mut L,
        threads: usize,
    )
        requires { IsOneStudio self.old }
        ensures works { WorksOn 1 self.old self.new (L.seen link.old) (L.seen link.new) }
        ensures worked { HasWorked 1024 threads 32768 self.old.keeper (books_of self.new.keeper) }
    {
        self.work(rt, threads);
        self.show(rt);
        self.exchange(alloc, link);
    }

    // What waits is taken in before a job is pushed, so that hands are not given what is swept in bands: where much is
    // left then, the keeper settles for a slice in bands, and takes a turn. Else it takes turns.
    fn work<R: Threads + Sync>(&mut self, rt: &R, threads: usize)
        ensures silent { StaysSilent self.old self.new }
        ensures worked { HasWorked 1024 threads 32768 self.old.keeper (books_of self.new.keeper) }
    {
        self.take_in_all();
        if self.settle_where_much(rt, threads, SWEEPS) {
            let _is_busy = self.turn();
            return;
        }
        self.take_turns(rt, threads);
    }

    // The keeper takes in what waits until that was no edit, and no more than `TURNS` times.
    fn take_in_all(&mut self)
        ensures silent { StaysSilent self.old self.new }
        ensures taken { TookInAll 1024 self.old.keeper self.new.keeper }
    {
        for _turn in 0..TURNS {
            if !self.take_in() {
                return;
            }
        }
    }

    // The keeper takes turns until one took neither an edit nor a report and no job is out, and no more than `TURNS`.
    // So what waits is merged and joined before the core is shown, and its image is copied once for all of it. Where
    // much is left, or hands bring nothing back, it settles for a slice in bands instead.
    fn take_turns<R: Threads + Sync>(&mut self, rt: &R, threads: usize)
        ensures silent { StaysSilent self.old self.new }
        ensures worked { HasTakenTurns 1024 threads 32768 self.old.keeper (books_of self.new.keeper) }
    {
        let mut waits: u32 = 0;
        for _turn in 0..TURNS {
            let is_busy = self.turn();
            if self.settle_where_much(rt, threads, SWEEPS) {
                return;
            }
            if is_busy {
                waits = 0;
                continue;
            }
            let Some(_out) = self.keeper.core().next_out(0) else {
                return;
            };
            if waits == PATIENCE {
                self.settle_in_bands(rt, threads, SWEEPS);
                return;
            }
            waits += 1;
            thread::yield_now();
        }
    }

    // The keeper takes in what waits. It says whether an edit was taken.
    fn take_in(&mut self) -> bool
        ensures silent { StaysSilent self.old self.new }
        ensures taken { TookIn self.old.keeper result self.new.keeper }
    {
        let taken = self.keeper.take_in();
        taken.edits > 0
    }

    // The keeper takes a turn. It says whether an edit or a report was taken in it.
    fn turn(&mut self) -> bool
        ensures silent { StaysSilent self.old self.new }
        ensures turn { IsTurnOf self.old.keeper result self.new.keeper }
    {
        let turned = self.keeper.turn();
        is_busy(&turned)
    }

    // Where much is left, the keeper settles for a slice of so many jobs in bands, by up to so many threads. It says
    // whether it did.
    fn settle_where_much<R: Threads + Sync>(&mut self, rt: &R, threads: usize, jobs: u64) -> bool
        ensures silent { StaysSilent self.old self.new }
        ensures much { IsTrue result ↔ IsMuchLeft threads (core_of self.old.keeper) }
        ensures settled { result ≡ true → HasSettledFor jobs (books_of self.old.keeper) (books_of self.new.keeper) }
        ensures same { result ≡ false → self.new ≡ self.old }
    {
        let is_much = self.keeper.is_for_bands(threads);
        if is_much {
            self.settle_in_bands(rt, threads, jobs);
        }
        is_much
    }

    // The keeper settles for a slice of so many jobs in bands, by up to so many threads.
    fn settle_in_bands<R: Threads + Sync>(&mut self, rt: &R, threads: usize, jobs: u64)
        ensures silent { StaysSilent self.old self.new }
        ensures settled { HasSettledFor jobs (books_of self.old.keeper) (books_of self.new.keeper) }
    {
        let _slice = self.keeper.settle_in_bands(rt, threads, jobs);
    }

    // The keeper shows the core, where there is memory, and the node learns of it.
    fn show<R: Wait>(&mut self, rt: &R)
        requires { IsOneStudio self.old }
        ensures silent { StaysSilent self.old self.new }
        ensures books { books_of self.new.keeper ≡ books_of self.old.keeper }
    {
        if let Ok(told) = self.keeper.show(rt) {
            self.node.learn(told);
        }
    }

    // The node hears and sends.
    fn exchange<L: Link>(&mut self, alloc: Global, link: &mut L)
        ensures works { WorksOn 1 self.old self.new (L.seen link.old) (L.seen link.new) }
        ensures keeper { self.new.keeper ≡ self.old.keeper }
    {
        let _ticked = self.node.tick(alloc, link);
    }
}

// Whether an edit or a report was taken in the turn.
fn is_busy(turned: &Turned) -> bool
    ensures { IsTrue result ↔ ((0 < turned.now.edits) ⊎ (0 < turned.now.results)) }
{
    turned.edits > 0 || turned.results > 0
}
