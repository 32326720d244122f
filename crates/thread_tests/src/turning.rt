//! Turns in one thread.

use crate::outcome::{Outcome, right_if, told};
use crate::pictures::{Edit, GROWN, Mask, settles};
use crate::playing::{Barrier, Line, plays};
use crate::scene::{close, closes_before_eye, open_on, shows, shows_often};
use grid_core::Conn;
use std::alloc::Global;
use std::sync::Wait;
use std::test::Fail;
use steal_pool::Turn;

// What is played in a studio with one hand, from its opening to its end.
struct Play {
    // What it shows.
    name: &'static str,
    mask: Mask,
    lines: &'static [Line],
}

const PLAYS: &[Play] = &[
    Play {
        name: "a full ring takes an edit after a turn",
        mask: Mask::Row,
        lines: &[Line::Fill(64)],
    },
    Play {
        name: "a hand holds a report while its ring is full",
        mask: Mask::ManyTiles,
        lines: &[
            Line::Submit(Edit::Spread),
            Line::Turn(1, 0, 0, 65),
            Line::Works(64),
            Line::Answer(Turn::RingFull),
            Line::Turn(0, 1, 0, 0),
            Line::Answer(Turn::Idle),
            Line::Turn(0, 1, 0, 0),
        ],
    },
    Play {
        name: "a hint is handed over",
        mask: Mask::TwoTiles,
        lines: &[
            Line::Submit(Edit::Place(1, 4, 0)),
            Line::Turn(1, 0, 0, 1),
            Line::Work(0, 0),
            Line::Turn(0, 1, 1, 1),
            Line::Work(1, 0),
            Line::Turn(0, 1, 0, 0),
            Line::Quiet(&[4; 128]),
        ],
    },
];

impl Play {
    fn is_so<R: Wait>(&self, rt: &R, alloc: Global) -> Outcome {
        let Some(mut scene) = open_on(rt, alloc, self.mask, Conn::Four, 1) else {
            return Err("no studio");
        };
        let is_played = plays(&mut scene, alloc, &Barrier::new(0), self.lines);
        let is_settled = settles(alloc, close(rt, alloc, scene), None);
        right_if(is_played & is_settled, self.name)
    }
}

#[test]
fn studios_go_as_they_are_played(rt: HostRuntime) -> Result<(), Fail> {
    for play in PLAYS {
        told(play.is_so(&rt, rt.alloc()))?;
    }
    Ok(())
}

// One edit, from its pen to the core.
const ONE_EDIT: &[Line] = &[
    Line::Submit(Edit::Place(1, 9, 1)),
    Line::Turn(1, 0, 0, 1),
    Line::Work(0, 0),
    Line::Turn(0, 1, 0, 0),
    Line::Answer(Turn::Idle),
    Line::Quiet(GROWN),
];

#[test]
fn an_edit_is_swept_and_shown(rt: HostRuntime) -> Result<(), Fail> {
    let Some(mut scene) = open_on(&rt, rt.alloc(), Mask::Row, Conn::Four, 1) else {
        return Err(Fail::new("no studio"));
    };
    let is_swept = plays(&mut scene, rt.alloc(), &Barrier::new(0), ONE_EDIT);
    let shown = shows(&rt, &mut scene, GROWN);
    let is_settled = settles(rt.alloc(), close(&rt, rt.alloc(), scene), Some(GROWN));
    told(right_if(is_swept & is_settled, "an edit on its way").and(shown))
}

#[test]
fn a_core_is_shown_forty_thousand_times(rt: HostRuntime) -> Result<(), Fail> {
    let Some(scene) = open_on(&rt, rt.alloc(), Mask::Row, Conn::Four, 1) else {
        return Err(Fail::new("no studio"));
    };
    assert!(rt; shows_often(&rt, scene, 40_000));
    Ok(())
}

#[test]
fn an_eye_is_left_behind_a_close(rt: HostRuntime) -> Result<(), Fail> {
    let Some(scene) = open_on(&rt, rt.alloc(), Mask::Row, Conn::Four, 1) else {
        return Err(Fail::new("no studio"));
    };
    assert!(rt; closes_before_eye(&rt, rt.alloc(), scene));
    Ok(())
}
