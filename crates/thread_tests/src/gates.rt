//! Two hands, of which one is held on its way to a job.

ghost use Rattle.std.specs.Prelude.{⊤};

use crate::outcome::{right_if, succeeded, told};
use crate::pictures::{BARE, Edit, GROWN, Mask, settles};
use crate::playing::{Barrier, Line, PATIENCE, plays};
use crate::scene::{close, open_on};
use grid_core::Conn;
use reset_core::Core;
use std::alloc::Global;
use std::sync::Wait;
use std::test::Fail;
use std::thread;
use std::thread::{Scope, Threads};
use steal_pool::{Hand, Turn};

// Lets so many hands make turns in threads of the scope until each gets a job. It says whether all are there.
fn start<'s, E>(scope: &Scope<'s, E>, hands: &mut Vec<Hand>, count: u8, gate: &'s Barrier) -> bool {
    let mut are_begun = true;
    for _ in 0..count {
        are_begun = match hands.pop() {
            Some(hand) => succeeded(scope.spawn(move || sweeps_one(hand, gate))) & are_begun,
            None => false,
        };
    }
    are_begun
}

// Makes turns until a job is got: where two hands steal in the same moment, one gets nothing.
fn sweeps_one(mut hand: Hand, gate: &Barrier) {
    for _ in 0..PATIENCE {
        if hand.turn(gate) != Turn::Idle {
            break;
        }
        thread::yield_now();
    }
    drop(hand);
}

// What comes to pass while a job is held and once it is let go, and the image at the end.
#[derive(Clone, Copy)]
struct Play {
    // What it shows.
    name: &'static str,
    mask: Mask,
    lines: &'static [Line],
    image: &'static [u16],
    // How many hands there are in threads, and how many have to pass until the first is let go by itself.
    hands: u8,
    opens_at: u64,
}

const RECALLED: Play = Play {
    name: "a held job is recalled",
    mask: Mask::Row,
    lines: &[
        Line::Submit(Edit::Place(1, 9, 1)),
        Line::Turn(1, 0, 0, 1),
        Line::Held,
        Line::Recall(1),
        Line::Turn(0, 0, 0, 1),
        Line::Work(0, 0),
        Line::Turn(0, 1, 0, 0),
        Line::Quiet(GROWN),
        Line::Open,
        Line::Reports(1),
        Line::Quiet(GROWN),
    ],
    image: GROWN,
    hands: 1,
    opens_at: u64::MAX,
};

const WITHDRAWN: Play = Play {
    name: "a held job is of a stroke withdrawn",
    lines: &[
        Line::Submit(Edit::Place(1, 9, 1)),
        Line::Turn(1, 0, 0, 1),
        Line::Held,
        Line::Submit(Edit::Withdraw(1)),
        Line::Turn(1, 0, 0, 1),
        Line::Work(0, 1),
        Line::Turn(0, 1, 0, 0),
        Line::Quiet(BARE),
        Line::Open,
        Line::Reports(1),
        Line::Quiet(BARE),
    ],
    image: BARE,
    ..RECALLED
};

const AT_ONCE: Play = Play {
    name: "two hands sweep at once",
    mask: Mask::TwoTiles,
    lines: &[
        Line::Submit(Edit::Place(1, 4, 0)),
        Line::Submit(Edit::Place(2, 4, 127)),
        Line::Turn(1, 0, 0, 1),
        Line::Turn(1, 0, 0, 1),
        Line::Held,
        Line::Reports(2),
    ],
    image: &[4; 128],
    hands: 2,
    opens_at: 2,
};

impl Play {
    // The core of a studio that is closed where it goes as it says. A hand is left for the meantime.
    fn core_after<R: Threads + Wait + Sync>(
        &self,
        rt: &R,
        alloc: Global,
        barrier: &Barrier,
    ) -> Option<Core> {
        thread::scope(
            thread::scope_env(),
            rt,
            move |scope| -> Option<Core>
                requires { ⊤ }
            {
                let mut scene = open_on(rt, alloc, self.mask, Conn::Four, 3)?;
                let are_begun = start(scope, &mut scene.hands, self.hands, barrier);
                let lines: &[Line] = if are_begun { self.lines } else { &[] };
                let is_so = plays(&mut scene, alloc, barrier, lines);
                barrier.open();
                let core = close(rt, alloc, scene)?;
                (are_begun & is_so).then_some(core)
            },
        )
    }

    // Whether it goes as it says, the core of the closed studio settles on the image, and two have passed.
    fn is_so<R: Threads + Wait + Sync>(&self, rt: &R, alloc: Global) -> bool {
        let barrier = Barrier::new(self.opens_at);
        let core = self.core_after(rt, alloc, &barrier);
        settles(alloc, core, Some(self.image)) & barrier.has_let_two_pass()
    }
}

#[test]
fn a_job_is_held_while_others_go_on(rt: HostRuntime) -> Result<(), Fail> {
    for play in [RECALLED, WITHDRAWN, AT_ONCE] {
        told(right_if(play.is_so(&rt, rt.alloc()), play.name))?;
    }
    Ok(())
}
