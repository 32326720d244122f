//! Two hands and a peek in threads of their own, while a board follows a core.

ghost use Rattle.std.specs.Prelude.{All, IfSome, ◌≡◌};
ghost use Rattle.live_board.specs.Seats.{IsHandOf, IsKeeperOf, IsPeekOf, ground_of};
ghost use Rattle.live_board.specs.Words.{mask_of};
ghost use Rattle.thread_tests.specs.Company.{IsCrewOf};

use crate::boards::{closes_on, merges};
use crate::company::Crew;
use crate::outcome::{NO_MEMORY, succeeded};
use crate::pictures::{BOTH, Edit, LEFT, Mask};
use crate::playing::{PATIENCE, reaches};
use crate::scene::{Scene, open_on, stop};
use grid_core::{Conn, Grid, Pixel};
use live_board::{Board, HandSeat, KeeperSeat, Opened, Peek, PeekSeat};
use pgm_codec::Image;
use std::alloc::Global;
use std::sync::Wait;
use std::sync::atomic::{AtomicBool, AtomicU64, Ordering};
use std::test::Fail;
use std::thread;
use std::thread::Threads;

// What the threads found.
#[derive(Default, Drop)]
struct Found {
    rounds: AtomicU64,
    peeks: AtomicU64,
    // How many peeks found a value above what may be live: what grows from both strokes, and once the first is gone
    // what grows from the other.
    above: AtomicU64,
    gone: AtomicBool,
    done: AtomicBool,
}

impl Found {
    // Waits until ten rounds and peeks more were made, for a while, and says whether they were.
    fn are_ten_more(&self) -> bool {
        let rounds = self.rounds.load(Ordering::SeqCst).saturating_add(10);
        let peeks = self.peeks.load(Ordering::SeqCst).saturating_add(10);
        reaches(&self.rounds, rounds) && reaches(&self.peeks, peeks)
    }
}

fn goes_round(board: &Board, hand: Option<HandSeat>, found: &Found)
    requires { IfSome hand (IsHandOf board.now) }
{
    if let Some(mut seat) = hand {
        for _ in 0..PATIENCE {
            if found.done.load(Ordering::SeqCst) {
                break;
            }
            seat.round(board);
            found.rounds.fetch_add(1, Ordering::SeqCst);
        }
    }
}

fn peeks_along(board: &Board, peek: &mut PeekSeat, mask: &Grid, found: &Found)
    requires of { IsPeekOf board.now peek.old }
    requires mask { mask_of (ground_of board.now) ≡ mask.now }
    ensures { IsPeekOf board.now peek.new }
{
    // What is gone before a peek begins is never live in it.
    let values = if found.gone.load(Ordering::SeqCst) {
        LEFT
    } else {
        BOTH
    };
    for x in 0..mask.width() {
        if let Peek::Live(value) = peek.peek(board, Pixel { x, y: 0 }) {
            let most = values.get(x as usize).copied().unwrap_or(0);
            found
                .above
                .fetch_add(u64::from(value > most), Ordering::SeqCst);
        }
    }
    found.peeks.fetch_add(1, Ordering::SeqCst);
}

fn watches(board: &Board, peek: Option<PeekSeat>, mask: &Grid, found: &Found)
    requires of { IfSome peek (IsPeekOf board.now) }
    requires mask { mask_of (ground_of board.now) ≡ mask.now }
{
    if let Some(mut seat) = peek {
        for _ in 0..PATIENCE {
            if found.done.load(Ordering::SeqCst) {
                break;
            }
            peeks_along(board, &mut seat, mask, found);
        }
    }
}

// Merges an edit and mirrors it, and says whether a generation begins just where one has to.
fn mirrors(
    alloc: Global,
    scene: &mut Scene,
    board: &Board,
    seat: &mut KeeperSeat,
    edits: &[Edit],
    begins: bool,
) -> bool
    requires { IsKeeperOf board.now seat.old }
    ensures { IsKeeperOf board.now seat.new }
{
    let mut are_merged = true;
    for edit in edits {
        are_merged = merges(alloc, scene, *edit) & are_merged;
    }
    match scene.keeper.mirror(board, seat) {
        Ok(mirrored) => are_merged & (mirrored.advanced == begins),
        Err(_) => false,
    }
}

// Both strokes come, and then the first goes.
const COME: &[Edit] = &[Edit::Place(1, 9, 1), Edit::Place(2, 3, 4)];

const GO: &[Edit] = &[Edit::Withdraw(1)];

// Mirrors the strokes while the threads are at work, if all are there, and says whether all went as it has to.
fn mirrors_all(
    alloc: Global,
    scene: &mut Scene,
    board: &Board,
    seat: &mut KeeperSeat,
    found: &Found,
    are_there: bool,
) -> bool
    requires { IsKeeperOf board.now seat.old }
    ensures { IsKeeperOf board.now seat.new }
{
    if !are_there {
        return false;
    }
    let have_come = mirrors(alloc, scene, board, seat, COME, false) && found.are_ten_more();
    let have_gone = mirrors(alloc, scene, board, seat, GO, true);
    found.gone.store(have_gone, Ordering::SeqCst);
    have_come & have_gone && found.are_ten_more()
}

// The same in a scope with two hands and a peek at work, and the seat.
fn runs<R: Threads + Wait + Sync>(
    rt: &R,
    alloc: Global,
    scene: &mut Scene,
    board: &Board,
    mask: &Grid,
    crew: Crew,
    found: &Found,
) -> (bool, KeeperSeat)
    requires crew { IsCrewOf board.now crew }
    requires mask { mask_of (ground_of board.now) ≡ mask.now }
    ensures { IsKeeperOf board.now result.1 }
{
    thread::scope(
        thread::scope_env(),
        rt,
        |scope| -> (bool, KeeperSeat)
            requires crew { IsCrewOf board.now crew }
            requires mask { mask_of (ground_of board.now) ≡ mask.now }
            ensures { IsKeeperOf board.entry.now result.1 }
        {
            let crew = crew;
            let Crew {
                mut keeper,
                one,
                two,
                peek,
            } = crew;
            let are_there = one.is_some() & two.is_some() & peek.is_some();
            let first = succeeded(scope.spawn(move || goes_round(board, one, found)));
            let second = succeeded(scope.spawn(move || goes_round(board, two, found)));
            let third = succeeded(scope.spawn(move || watches(board, peek, mask, found)));
            let are_begun = are_there & first & second & third;
            let are_mirrored = mirrors_all(alloc, scene, board, &mut keeper, found, are_begun);
            found.done.store(true, Ordering::SeqCst);
            (are_mirrored, keeper)
        },
    )
}

// Goes round until nothing rises, at most a hundred times, and says whether nothing did.
fn settles(board: &Board, hand: &mut HandSeat) -> bool
    requires { IsHandOf board.now hand.old }
{
    for _ in 0..100u64 {
        if hand.round(board) == 0 {
            return true;
        }
    }
    false
}

pub fn next_hand(board: &Board, hands: &mut Vec<HandSeat>) -> Option<HandSeat>
    requires { All (IsHandOf board.now) hands.old.items }
    ensures left { All (IsHandOf board.now) hands.new.items }
    ensures hand { IfSome result (IsHandOf board.now) }
{
    // The clauses alone speak of the board.
    let _ = board;
    hands.pop()
}

pub fn next_peek(board: &Board, peeks: &mut Vec<PeekSeat>) -> Option<PeekSeat>
    requires { All (IsPeekOf board.now) peeks.old.items }
    ensures { IfSome result (IsPeekOf board.now) }
{
    let _ = board;
    peeks.pop()
}

// Whether no peek is ever above what may be live, and what grows in the end is what is left.
fn grows<R: Threads + Wait + Sync>(
    rt: &R,
    alloc: Global,
    scene: &mut Scene,
    opened: Opened,
    mask: &Grid,
) -> bool
    requires board { mask_of (ground_of opened.board) ≡ mask.now }
    requires keeper { IsKeeperOf opened.board opened.keeper }
    requires hands { All (IsHandOf opened.board) opened.hands.items }
    requires peeks { All (IsPeekOf opened.board) opened.peeks.items }
{
    let Opened {
        board,
        keeper,
        mut hands,
        mut peeks,
    } = opened;
    let crew = Crew {
        keeper,
        one: next_hand(&board, &mut hands),
        two: next_hand(&board, &mut hands),
        peek: next_peek(&board, &mut peeks),
    };
    let mut last = next_hand(&board, &mut hands);
    drop(hands);
    drop(peeks);
    let found = Found::default();
    let (mirrored, seat) = runs(rt, alloc, scene, &board, mask, crew, &found);
    let settled = match &mut last {
        Some(hand) => settles(&board, hand),
        None => false,
    };
    drop(last);
    let closed = closes_on(alloc, board, seat, LEFT, true);
    mirrored & settled & closed & (found.above.load(Ordering::SeqCst) == 0)
}

// The same on a board of the row, beside a studio that is ended afterwards.
fn grows_in_row<R: Threads + Wait + Sync>(rt: &R, alloc: Global, mask: &Image, conn: Conn) -> bool {
    let Some(mut scene) = open_on(rt, alloc, Mask::Row, conn, 1) else {
        return false;
    };
    let is_right = match Board::open(alloc, mask, conn, 3, 1) {
        Ok(opened) => grows(rt, alloc, &mut scene, opened, mask.grid()),
        Err(_) => false,
    };
    stop(rt, scene);
    is_right
}

#[test]
fn no_peek_is_above_what_grows(rt: HostRuntime) -> Result<(), Fail> {
    let Some(mask) = Mask::Row.image(rt.alloc()) else {
        return Err(Fail::new(NO_MEMORY));
    };
    for conn in [Conn::Four, Conn::Eight, Conn::Four, Conn::Eight] {
        assert!(rt; grows_in_row(&rt, rt.alloc(), &mask, conn));
    }
    Ok(())
}
