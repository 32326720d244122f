//! Sixteen pens in one thread, two hands and eyes in threads of their own, and a keeper that makes turns and shows.

use crate::outcome::succeeded;
use crate::pictures::{Edit, Mask, grown, is_grown};
use crate::playing::PATIENCE;
use core_dispatch::{Full, Pen};
use grid_core::Conn;
use reset_core::Core;
use std::alloc::Global;
use std::sync::atomic::{AtomicBool, AtomicU64, Ordering};
use std::sync::{Arc, Wait};
use std::thread;
use std::thread::{Scope, Threads};
use steal_pool::{Hand, Open};
use stroke_lattice::{Delta, State};
use studio::{Eye, Glimpse, Keeper, Studio};

// How many pens there are, and how many edits each submits.
const PENS: usize = 16;

const EACH: u16 = 30;

// What the threads found.
#[derive(Default, Drop)]
struct Found {
    // How many pens could not submit an edit, and how many glimpses went back or are not sound.
    wrong: AtomicU64,
    quiet: AtomicU64,
    // Whether each edit is submitted, and whether the keeper has ended its work.
    drawn: AtomicBool,
    done: AtomicBool,
}

impl Found {
    fn note(&self, is_right: bool) {
        self.wrong.fetch_add(u64::from(!is_right), Ordering::SeqCst);
    }

    // Whether nothing was wrong, and at least two glimpses were quiet.
    fn is_right(&self) -> bool {
        let quiet = self.quiet.load(Ordering::SeqCst);
        (self.wrong.load(Ordering::SeqCst) == 0) & (quiet >= 2)
    }
}

// ---- pens

// The edit of this number of a pen: a stroke that stays, one that the next edit withdraws, and that.
fn edit(pen: usize, number: u16) -> Edit {
    let tag = u128::from(pen as u64) * 1000 + u128::from(number);
    let centre = (number % 100 + 5, number % 110 + 3);
    match number % 3 {
        2 => Edit::Withdraw(tag.saturating_sub(1)),
        _ => Edit::Disc(tag, 3, centre, 1),
    }
}

// Submits an edit as soon as there is a place, and says whether there was one in a while.
fn insists(pen: &mut Pen, mut delta: Delta, found: &Found) -> bool {
    for _ in 0..PATIENCE {
        match pen.submit(delta) {
            Ok(()) => return true,
            Err(Full(back)) => delta = back,
        }
        if found.done.load(Ordering::SeqCst) {
            break;
        }
        thread::yield_now();
    }
    drop(delta);
    false
}

// Whether each pen submits its edit of this number.
fn draw_once(alloc: Global, pens: &mut Vec<Pen>, number: u16, found: &Found) -> bool {
    let mut are_all = true;
    for pen in pens {
        let is_in = match edit(pen.number(), number).delta(alloc) {
            Some(delta) => insists(pen, delta, found),
            None => false,
        };
        are_all = are_all & is_in;
    }
    are_all
}

fn draw_all(alloc: Global, mut pens: Vec<Pen>, found: &Found) {
    for number in 0..EACH {
        let are_in = draw_once(alloc, &mut pens, number, found);
        found.note(are_in);
    }
    found.drawn.store(true, Ordering::SeqCst);
}

// ---- eyes

// Whether the glimpse, if it is quiet, is what grows from its strokes.
fn is_sound(alloc: Global, glimpse: &Glimpse) -> bool {
    if !glimpse.quiet() {
        return true;
    }
    let grown = grown(alloc, glimpse.mask(), glimpse.conn(), glimpse.state());
    matches!(grown, Some(image) if image.cells() == glimpse.shot().image().cells())
}

// Notes whether what is glimpsed is sound, and has all that was seen before.
fn note(alloc: Global, glimpse: &Glimpse, before: &Option<Arc<State>>, found: &Found) {
    let goes_on = match before {
        Some(before) => before.is_below(glimpse.state()),
        None => true,
    };
    found.note(goes_on & is_sound(alloc, glimpse));
    found
        .quiet
        .fetch_add(u64::from(glimpse.quiet()), Ordering::SeqCst);
}

// The eye after a look.
fn look(alloc: Global, eye: Eye, seen: &mut Option<Arc<State>>, found: &Found) -> Eye {
    match eye.look() {
        Ok(glimpse) => {
            note(alloc, &glimpse, seen, found);
            *seen = Arc::try_clone(glimpse.shot().state()).ok();
            glimpse.leave()
        }
        Err(eye) => {
            found.note(false);
            eye
        }
    }
}

// Looks again and again, until the keeper has ended its work, and once more.
fn watch(alloc: Global, mut eye: Eye, found: &Found) {
    let mut seen: Option<Arc<State>> = None;
    for _ in 0..PATIENCE {
        let is_last = found.done.load(Ordering::SeqCst);
        eye = look(alloc, eye, &mut seen, found);
        if is_last {
            break;
        }
    }
    drop(eye);
    drop(seen);
}

fn watches<'s, E>(alloc: Global, scope: &Scope<'s, E>, eye: Option<Eye>, found: &'s Found) -> bool {
    match eye {
        Some(eye) => succeeded(scope.spawn(move || watch(alloc, eye, found))),
        None => false,
    }
}

// ---- hands and the keeper

fn works<'s, E, R: Wait + Sync>(
    rt: &'s R,
    scope: &Scope<'s, E>,
    hand: Option<Hand>,
    found: &'s Found,
) -> bool {
    match hand {
        Some(hand) => succeeded(scope.spawn(move || sweep(rt, hand, found))),
        None => false,
    }
}

// Sweeps until the keeper has ended its work.
fn sweep<R: Wait>(rt: &R, mut hand: Hand, found: &Found) {
    hand.run(rt, &Open, &found.done);
    drop(hand);
}

// Makes turns until each edit is taken and no work is left, for a while; settles in bands and shows the core now and
// then.
fn keeps<R: Threads + Wait + Sync>(rt: &R, keeper: &mut Keeper, found: &Found) -> bool {
    let mut are_shown = true;
    for round in 0..PATIENCE {
        let are_drawn = found.drawn.load(Ordering::SeqCst);
        let turned = keeper.turn();
        if round % 8 == 3 {
            are_shown = are_shown & keeper.settle_in_bands(rt, 3, 256).is_ok();
        }
        let is_last = are_drawn & (turned.edits == 0) & keeper.core().is_quiet();
        if is_last | (round % 16 == 0) {
            are_shown = are_shown & keeper.show(rt).is_ok();
        }
        if is_last {
            return are_shown;
        }
        thread::yield_now();
    }
    false
}

// Lets all that take part in a studio work at once, and says whether the keeper came to an end and nothing was wrong.
fn work<R: Threads + Wait + Sync>(
    rt: &R,
    alloc: Global,
    keeper: &mut Keeper,
    pens: Vec<Pen>,
    hands: &mut Vec<Hand>,
    eyes: &mut Vec<Eye>,
) -> bool {
    let found = Found::default();
    let seen = &found;
    let are_kept = thread::scope(thread::scope_env(), rt, |scope| {
        let one = works(rt, scope, hands.pop(), seen);
        let two = works(rt, scope, hands.pop(), seen);
        let three = watches(alloc, scope, eyes.pop(), seen);
        let four = watches(alloc, scope, eyes.pop(), seen);
        let five = succeeded(scope.spawn(move || draw_all(alloc, pens, seen)));
        let are_kept = (one & two & three & four & five) && keeps(rt, keeper, seen);
        seen.done.store(true, Ordering::SeqCst);
        are_kept
    });
    are_kept & found.is_right()
}

// ---- what is left

// Whether the core has two strokes and a tombstone of each three edits.
fn has_all(core: &Core) -> bool {
    let groups = PENS * usize::from(EACH / 3);
    (core.state().strokes().count() == 2 * groups) & (core.state().tombstones().count() == groups)
}

// Lets the crowd work, and ends the studio: its core, and whether all went as it has to.
fn ends<R: Threads + Wait + Sync>(rt: &R, alloc: Global, studio: Studio) -> (Core, bool) {
    let Studio {
        mut keeper,
        pens,
        mut hands,
        mut eyes,
    } = studio;
    let is_right = work(rt, alloc, &mut keeper, pens, &mut hands, &mut eyes);
    drop(hands);
    drop(eyes);
    let is_none_refused = keeper.refusals().is_empty();
    (keeper.end(rt), is_right & is_none_refused)
}

// The same of a studio on this mask with as many of each as there may be.
fn ended<R: Threads + Wait + Sync>(rt: &R, alloc: Global, mask: Mask) -> Option<(Core, bool)> {
    let core = mask.core(alloc, Conn::Eight)?;
    let studio = Studio::open(rt, alloc, core, PENS, 16, 16).ok()?;
    Some(ends(rt, alloc, studio))
}

// Whether it leaves a core that took each edit once, on which is what grows from them.
fn is_so<R: Threads + Wait + Sync>(rt: &R, alloc: Global, mask: Mask) -> bool {
    match ended(rt, alloc, mask) {
        Some((core, is_right)) => {
            let is_so = is_right & has_all(&core) & is_grown(alloc, &core);
            drop(core);
            is_so
        }
        None => false,
    }
}

#[test]
fn each_edit_of_sixteen_pens_is_taken_once(rt: HostRuntime) {
    assert!(rt; is_so(&rt, rt.alloc(), Mask::Stripes));
    assert!(rt; is_so(&rt, rt.alloc(), Mask::SmallTiles));
}
