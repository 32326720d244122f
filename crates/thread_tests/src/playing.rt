//! What is played in a studio, line by line.

ghost use Rattle.thread_tests.specs.Company.{IsCompany};

use crate::company::Scene;
use crate::outcome::succeeded;
use crate::pictures::{Edit, has_cells};
use core_dispatch::{Full, Turned};
use std::alloc::Global;
use std::sync::atomic::{AtomicBool, AtomicU64, Ordering};
use std::thread;
use steal_pool::{Gate, Turn};
use stroke_core::Tag;
use stroke_lattice::Delta;
use tile_generations::Ticket;

/// How often a wait looks again before the test fails.
pub const PATIENCE: u64 = 1_000_000_000;

/// Waits until the number is at least this, for a while, and says whether it is.
pub fn reaches(number: &AtomicU64, least: u64) -> bool {
    for _ in 0..PATIENCE {
        if number.load(Ordering::SeqCst) >= least {
            return true;
        }
        thread::yield_now();
    }
    false
}

/// What is done, and what comes of it.
#[derive(Clone, Copy)]
pub enum Line {
    Submit(Edit),
    /// The pen submits strokes of the tags below this one. Then its ring is full: the stroke of this tag comes back,
    /// and finds a place after a turn that takes one edit.
    Fill(u8),
    /// A turn of the keeper: so many edits, results, hints and jobs.
    Turn(u64, u64, u64, u64),
    /// The last hand sweeps this tile, of this generation.
    Work(usize, u64),
    /// It sweeps so many tiles, one a turn.
    Works(u64),
    /// Its turn is answered so.
    Answer(Turn),
    Recall(u64),
    /// Turns of the keeper until so many reports are taken.
    Reports(u64),
    /// A hand comes to the barrier, which is then opened by the second of these.
    Held,
    Open,
    /// No work is left, and this is the image.
    Quiet(&'static [u16]),
}

/// Holds the first who passes until so many have passed, or it is opened, for a while.
#[derive(Drop)]
pub struct Barrier {
    passed: AtomicU64,
    opens_at: u64,
    opened: AtomicU64,
    has_given_up: AtomicBool,
}

impl Gate for Barrier {
    fn pass(&self, _ticket: Ticket) {
        let before = self.passed.fetch_add(1, Ordering::SeqCst);
        if before.saturating_add(1) >= self.opens_at {
            self.open();
        }
        if before == 0 && !reaches(&self.opened, 1) {
            self.has_given_up.store(true, Ordering::SeqCst);
        }
    }
}

impl Barrier {
    pub fn new(opens_at: u64) -> Barrier {
        Barrier {
            passed: AtomicU64::new(0),
            opens_at,
            opened: AtomicU64::new(0),
            has_given_up: AtomicBool::new(false),
        }
    }

    /// Opens it, and says that it is open.
    pub fn open(&self) -> bool {
        self.opened.store(1, Ordering::SeqCst);
        true
    }

    /// Whether two have passed, and no wait was given up.
    pub fn has_let_two_pass(&self) -> bool {
        let passed = self.passed.load(Ordering::SeqCst);
        (passed == 2) & !self.has_given_up.load(Ordering::SeqCst)
    }
}

/// Whether each line comes to what it says. Hands pass this barrier.
pub fn plays(scene: &mut Scene, alloc: Global, barrier: &Barrier, lines: &[Line]) -> bool
    requires { IsCompany scene.old }
    ensures { IsCompany scene.new }
{
    for line in lines {
        if !is_so(scene, alloc, barrier, *line) {
            return false;
        }
    }
    true
}

fn is_so(scene: &mut Scene, alloc: Global, barrier: &Barrier, line: Line) -> bool
    requires { IsCompany scene.old }
    ensures { IsCompany scene.new }
{
    match line {
        Line::Submit(edit) => submits(scene, edit.delta(alloc)),
        Line::Fill(count) => fills(scene, alloc, count),
        Line::Turn(edits, results, hints, jobs) => {
            let wanted = Turned {
                edits,
                results,
                hints,
                jobs,
                memory: false,
            };
            turn(scene) == wanted
        }
        Line::Work(tile, generation) => has_worked(hand_turn(scene, barrier), tile, generation),
        Line::Works(count) => works(scene, barrier, count),
        Line::Answer(turn) => hand_turn(scene, barrier) == turn,
        Line::Recall(count) => recall(scene) == count,
        Line::Reports(count) => takes_reports(scene, count),
        Line::Held => reaches(&barrier.passed, 1),
        Line::Open => barrier.open(),
        Line::Quiet(image) => is_quiet_on(scene, image),
    }
}

/// Whether the edit is there, and the pen submits it.
pub fn submits(scene: &mut Scene, delta: Option<Delta>) -> bool
    requires { IsCompany scene.old }
    ensures { IsCompany scene.new }
{
    match delta {
        Some(delta) => succeeded(scene.pen.submit(delta)),
        None => false,
    }
}

fn fills(scene: &mut Scene, alloc: Global, count: u8) -> bool
    requires { IsCompany scene.old }
    ensures { IsCompany scene.new }
{
    for tag in 0..count {
        if !submits(scene, place(tag).delta(alloc)) {
            return false;
        }
    }
    is_full(scene, place(count).delta(alloc), count)
}

// Whether the ring is full: the stroke of this tag comes back, and finds a place after a turn.
fn is_full(scene: &mut Scene, delta: Option<Delta>, tag: u8) -> bool
    requires { IsCompany scene.old }
    ensures { IsCompany scene.new }
{
    let Some(delta) = delta else {
        return false;
    };
    let back = match scene.pen.submit(delta) {
        Ok(()) => None,
        Err(Full(back)) => Some(back),
    };
    let is_same = is_placed(&back, tag);
    let turned = turn(scene);
    is_same & (turned.edits == 1) & submits(scene, back)
}

/// A turn of the keeper.
pub fn turn(scene: &mut Scene) -> Turned
    requires { IsCompany scene.old }
    ensures { IsCompany scene.new }
{
    scene.keeper.turn()
}

/// Recalls each job that is out.
fn recall(scene: &mut Scene) -> u64
    requires { IsCompany scene.old }
    ensures { IsCompany scene.new }
{
    scene.keeper.recall()
}

/// What the last hand answers to a turn.
pub fn hand_turn<G: Gate>(scene: &mut Scene, gate: &G) -> Turn
    requires { IsCompany scene.old }
    ensures { IsCompany scene.new }
{
    match scene.hands.last_mut() {
        Some(hand) => hand.turn(gate),
        None => Turn::Idle,
    }
}

fn has_worked(turn: Turn, tile: usize, generation: u64) -> bool {
    matches!(turn, Turn::Worked(ticket) if ticket.tile == tile && ticket.generation == generation)
}

fn works(scene: &mut Scene, barrier: &Barrier, count: u64) -> bool
    requires { IsCompany scene.old }
    ensures { IsCompany scene.new }
{
    for _ in 0..count {
        if !matches!(hand_turn(scene, barrier), Turn::Worked(_)) {
            return false;
        }
    }
    true
}

// Makes turns until so many reports are taken, and says whether they were.
fn takes_reports(scene: &mut Scene, count: u64) -> bool
    requires { IsCompany scene.old }
    ensures { IsCompany scene.new }
{
    let mut taken: u64 = 0;
    for _ in 0..PATIENCE {
        taken = taken.saturating_add(turn(scene).results);
        if taken >= count {
            return taken == count;
        }
        thread::yield_now();
    }
    false
}

fn is_quiet_on(scene: &Scene, image: &[u16]) -> bool {
    scene.keeper.core().is_quiet() & has_cells(scene.keeper.core(), image)
}

// A stroke of this tag, in the second column.
fn place(tag: u8) -> Edit {
    Edit::Place(u128::from(tag), 9, 1)
}

// Whether it is there, and is the stroke of this tag alone.
fn is_placed(delta: &Option<Delta>, tag: u8) -> bool {
    let tag = Tag(u128::from(tag));
    matches!(delta, Some(delta) if delta.has_stroke(tag) && delta.strokes().count() == 1)
}
