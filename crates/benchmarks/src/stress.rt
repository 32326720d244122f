//! Studios under stress: 16 pens, 16 hands, 16 eyes and a keeper run in threads, and what they leave is checked.
//!
//! Pens submit edits that are drawn, some of which clash or do not fit the mask. The keeper makes turns, some of them
//! without jobs, until all are taken and no work is left; meanwhile it shows the core, settles in bands and recalls
//! jobs. No eye may go back. At the end the strokes have to be those of all edits that are not listed as refused, and
//! the image what the slow program says.

use crate::drawn::{EACH, EDITS, core, edit};
use crate::outcome::{Fault, MEMORY, Outcome, check};
use crate::studios::{is_made, open, spawn_hands, take_in, turn};
use crate::system::System;
use core_dispatch::{Full, Pen, Refusal};
use grid_core::Grid;
use marker_tiles::marker;
use raster_sweeps::slow;
use std::alloc::Global;
use std::sync::atomic::{AtomicBool, AtomicU64, Ordering};
use std::sync::{Arc, OnceLock};
use std::thread;
use stroke_lattice::{Delta, State};
use studio::{Eye, Keeper};
use tiled_core::TiledCore;

// What the threads of a round share: what decides all that is drawn, how many pens have not submitted all yet, whether
// the round is over, and what was not as it should be.
#[derive(Drop)]
struct Round {
    seed: u64,
    writers: AtomicU64,
    done: AtomicBool,
    fault: OnceLock<Fault>,
}

/// Plays so many rounds, which the seed decides, and prints how many.
///
/// Errors: what is not as it should be.
pub fn play_all<R: System>(rt: &R, rounds: u32, seed: u32) -> Outcome {
    for round in 0..rounds {
        let number = u64::from(seed) << 32 | u64::from(round);
        play(rt, rt.alloc(), number.wrapping_mul(0x9e37_79b9_7f4a_7c15))?;
    }
    println!(rt; "{rounds} rounds of {EACH} pens, {EDITS} edits each")?;
    Ok(())
}

// Plays a round: hands work, pens submit and eyes look in threads. It checks what they leave.
fn play<R: System>(rt: &R, alloc: Global, seed: u64) -> Outcome {
    let (mut keeper, pens, hands, eyes) = open(rt, core(alloc, seed).ok_or(MEMORY)?, EACH, EACH)?;
    let round = &Round {
        seed,
        writers: AtomicU64::new(EACH as u64),
        done: AtomicBool::new(false),
        fault: OnceLock::new(),
    };
    let lent = &mut keeper;
    thread::scope(thread::scope_env(), rt, move |scope| {
        round.note(spawn_hands(scope, rt, hands, &round.done));
        for (pen, eye) in pens.into_iter().zip(eyes) {
            let writes = is_made(scope.spawn(move || round.write(alloc, pen)));
            let watches = is_made(scope.spawn(move || round.watch(eye)));
            round.note(check(writes && watches, "a thread can not be made"));
        }
        round.note(round.keep(rt, lent));
        round.done.store(true, Ordering::SeqCst);
    });
    let left = match round.fault.get() {
        Some(fault) => Err(*fault),
        None => judge(alloc, &keeper, seed),
    };
    drop(keeper.end(rt));
    left
}

impl Round {
    // Notes what is not as it should be.
    fn note(&self, found: Outcome) {
        if let Err(fault) = found {
            let _ = self.fault.try_set(fault);
        }
    }

    // Submits the edits of a pen in order.
    fn write(&self, alloc: Global, mut pen: Pen) {
        let first = (pen.number() as u64).wrapping_mul(EDITS);
        for number in 0..EDITS {
            match edit(alloc, self.seed, first.wrapping_add(number)) {
                Some(edit) => self.submit(&mut pen, edit),
                None => self.note(Err(MEMORY)),
            }
        }
        self.writers.fetch_sub(1, Ordering::SeqCst);
    }

    // Submits an edit as soon as there is a place, unless the round is over.
    fn submit(&self, pen: &mut Pen, edit: Delta) {
        let mut rest = pen.submit(edit);
        for _ in 0..u64::MAX {
            rest = match rest {
                Err(Full(edit)) if !self.done.load(Ordering::SeqCst) => pen.submit(edit),
                _ => return,
            };
            thread::yield_now();
        }
    }

    // Looks again and again until the round is over.
    fn watch(&self, mut eye: Eye) {
        let mut seen: Option<Arc<State>> = None;
        for _ in 0..u64::MAX {
            if self.done.load(Ordering::SeqCst) {
                break;
            }
            eye = match eye.look() {
                Ok(glimpse) => {
                    if let Some(seen) = &seen {
                        self.note(check(seen.is_below(glimpse.state()), "an eye went back"));
                    }
                    seen = Arc::try_clone(glimpse.shot().state()).ok();
                    glimpse.leave()
                }
                Err(eye) => eye,
            };
            thread::yield_now();
        }
    }

    // Makes turns until all edits are taken and no work is left, or something is not as it should be. It shows the core
    // after each turn that took an edit. Every fourth turn pushes no job, and now and then it settles for a while in
    // bands, or recalls all jobs.
    fn keep(&self, rt: &impl System, keeper: &mut Keeper) -> Outcome {
        for number in 0..u64::MAX {
            let is_last = self.writers.load(Ordering::SeqCst) == 0;
            let took = if number % 4 == 3 {
                take_in(keeper)?
            } else {
                turn(keeper)?
            };
            let edits = took.edits;
            if edits > 0 {
                let _told = keeper.show(rt).or(Err(MEMORY))?;
            }
            if number % 8 == 5 {
                keeper.settle_in_bands(rt, 3, 256).or(Err(MEMORY))?;
            }
            if number % 64 == 0 {
                keeper.recall();
            }
            let is_at_rest = is_last && edits == 0 && keeper.core().is_quiet();
            if is_at_rest || self.fault.get().is_some() {
                break;
            }
        }
        Ok(())
    }
}

// Checks what a round leaves.
fn judge(alloc: Global, keeper: &Keeper, seed: u64) -> Outcome {
    let mut strokes = State::empty(alloc).or(Err(MEMORY))?;
    let found = judge_with(alloc, keeper, seed, &mut strokes);
    drop(strokes);
    found
}

// Joins the edits that are not listed as refused with the strokes, and checks that the core has these strokes, and what
// grows from them.
fn judge_with(alloc: Global, keeper: &Keeper, seed: u64, strokes: &mut State) -> Outcome {
    for number in 0..EACH as u64 * EDITS {
        if !is_listed(keeper.refusals(), number) {
            join(alloc, strokes, seed, number)?;
        }
    }
    let core = keeper.core();
    check(
        strokes.is_same(core.state()),
        "not the strokes of the edits",
    )?;
    judge_image(alloc, core, strokes)
}

// Whether an edit is listed as refused.
fn is_listed(refusals: &[Refusal], number: u64) -> bool {
    refusals.iter().any(|one| one.pen as u64 == number / EDITS && one.number == number % EDITS)
}

// Joins an edit with the strokes.
fn join(alloc: Global, strokes: &mut State, seed: u64, number: u64) -> Outcome {
    let edit = edit(alloc, seed, number).ok_or(MEMORY)?;
    let joined = strokes.merge(alloc, &edit);
    drop(edit);
    match joined {
        Ok(change) => {
            drop(change);
            Ok(())
        }
        Err(_why) => Err(Fault("an edit was taken that clashes")),
    }
}

// Checks that the image of a core is what grows from the strokes.
fn judge_image(alloc: Global, core: &TiledCore, strokes: &State) -> Outcome {
    let grown = grown_from(alloc, core, strokes)?;
    let found = match core.image(alloc) {
        Ok(image) => {
            let is_same = image.is_same(&grown);
            drop(image);
            check(is_same, "not what grows from them")
        }
        Err(_why) => Err(MEMORY),
    };
    drop(grown);
    found
}

// What grows from strokes on the mask of a core.
fn grown_from(alloc: Global, core: &TiledCore, strokes: &State) -> Result<Grid, Fault> {
    let mask = core.mask();
    if strokes.outside(mask.width(), mask.height()).is_some() {
        return Err(Fault("a stroke was taken that does not fit"));
    }
    let marker = marker(alloc, mask, strokes).or(Err(MEMORY))?;
    let grown = slow(alloc, mask, &marker, core.conn());
    drop(marker);
    grown.or(Err(MEMORY))
}
