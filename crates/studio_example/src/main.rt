#![tactic(auto)]
//! The least program over `studio`: a pen draws a stroke, a hand in a thread of its own grows it, an eye sees that.

use grid_core::{Conn, Grid, Pixel, TILE_SIDE};
use reset_core::Core;
use std::sync::Wait;
use std::sync::atomic::{AtomicBool, Ordering};
use std::thread::{Scope, Threads, scope, scope_env};
use steal_pool::{Hand, Open};
use stroke_core::{Stroke, Tag};
use stroke_lattice::State;
use studio::{Keeper, Studio};

// A studio on a row of eight pixels, of value 9 but for one of value 2, with one pen, one hand and one eye.
fn studio_on_row<R: Wait + AllocGlobal>(rt: &R) -> Option<Studio> {
    let mut mask = Grid::new(rt.alloc(), 8, 1, 9).ok()?;
    mask.set(Pixel { x: 4, y: 0 }, 2);
    let core = Core::over(rt.alloc(), mask, Conn::Four, TILE_SIDE, 0).ok()?;
    Studio::open(rt, rt.alloc(), core, 1, 1, 1).ok()
}

// Lets a hand work until the flag is set.
fn work<R: Wait>(rt: &R, mut hand: Hand, done: &AtomicBool) {
    hand.run(rt, &Open, done);
    drop(hand);
}

// Lets it do so in a thread of its own, and says whether there is one.
fn spawn<'s, E, R: Wait + Sync>(
    scope: &Scope<'s, E>,
    rt: &'s R,
    hand: Hand,
    done: &'s AtomicBool,
) -> bool {
    scope.spawn(move || work(rt, hand, done)).is_ok()
}

// Makes turns until no work is left, with the hand in a thread of its own.
fn grow<R: Threads + Wait + Sync>(rt: &R, keeper: &mut Keeper, hand: Hand) {
    let done = &AtomicBool::new(false);
    scope(scope_env(), rt, |scope| {
        let is_at_work = spawn(scope, rt, hand, done);
        for _ in rt.forever() {
            keeper.turn();
            if !is_at_work || keeper.core().is_quiet() {
                return done.store(true, Ordering::SeqCst);
            }
        }
    });
}

// Submits a stroke of level 5 at the first pixel, grows it, and prints what an eye sees: pixels, and if they are final.
fn draw<R: Print + Threads + Wait + Sync + AllocGlobal>(rt: &R, studio: &mut Studio) -> Option<()> {
    let edit = State::placed(rt.alloc(), Tag(1), Stroke::disc(5, 0, 0, 0).ok()?).ok()?;
    studio.pens.first_mut()?.submit(edit).ok()?;
    grow(rt, &mut studio.keeper, studio.hands.pop()?);
    studio.keeper.show(rt).ok()?;
    let glimpse = studio.eyes.pop()?.look().ok()?;
    let (image, quiet) = (glimpse.shot().image().cells(), glimpse.quiet());
    let _ = println!(rt; "{image:?} quiet: {quiet}");
    let _eye = glimpse.leave();
    Some(())
}

fn main(rt: HostRuntime) {
    if let Some(mut studio) = studio_on_row(&rt) {
        draw(&rt, &mut studio);
        let Studio {
            keeper,
            pens,
            hands,
            eyes,
        } = studio;
        drop(pens);
        drop(hands);
        drop(eyes);
        drop(keeper.end(&rt));
    }
}
