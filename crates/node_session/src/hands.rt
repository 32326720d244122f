//! Hands in threads of their own.

use crate::pace::rest;
use std::sync::Wait;
use std::sync::atomic::{AtomicBool, Ordering};
use std::thread;
use std::thread::{Scope, Threads};
use std::time::Clock;
use steal_pool::{Hand, Open, Turn};

/// Lets each hand work in a thread of its own until the flag is set, and returns when all have ended. A hand whose
/// thread cannot be started is passed over.
pub(crate) fn run_all<R: Threads + Wait + Clock + Sync>(
    rt: &R,
    hands: &mut Vec<Hand>,
    flag: &AtomicBool,
) {
    thread::scope(
        thread::scope_env(),
        rt,
        |scope| start_all(rt, scope, hands, flag),
    );
}

fn start_all<'s, E, R: Wait + Clock + Sync>(
    rt: &'s R,
    scope: &Scope<'s, E>,
    hands: &mut Vec<Hand>,
    flag: &'s AtomicBool,
) {
    while let Some(hand) = hands.pop() {
        start(rt, scope, hand, flag);
    }
}

// Lets a hand work, if a thread can be started.
fn start<'s, E, R: Wait + Clock + Sync>(
    rt: &'s R,
    scope: &Scope<'s, E>,
    hand: Hand,
    flag: &'s AtomicBool,
) {
    drop(scope.spawn(move || work(rt, hand, flag)));
}

// Lets a hand work until the flag is set.
fn work<R: Wait + Clock>(rt: &R, mut hand: Hand, done: &AtomicBool) {
    turn_until(rt, &mut hand, done);
    drop(hand);
}

// Makes turns until the flag is set. It looks at the flag before each turn, and rests after each one in which there was
// nothing to do.
fn turn_until<R: Wait + Clock>(rt: &R, hand: &mut Hand, done: &AtomicBool) {
    for _ in rt.forever() {
        if done.load(Ordering::SeqCst) {
            return;
        }
        match hand.turn(&Open) {
            Turn::Worked(_) => {}
            Turn::Idle | Turn::RingFull | Turn::Failed(_) => rest(rt),
        }
    }
}
