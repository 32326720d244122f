//! How fast hands in threads raise a board, by rounds or by floods, and what a peek takes beside them.

ghost use Rattle.std.specs.Prelude.{All, IfSome};
ghost use Rattle.grid_core.specs.Raster.{IsBelow};
ghost use Rattle.live_board.specs.Floods.{IsDraftOf, IsStripsOf};
ghost use Rattle.live_board.specs.Opening.{IsNewHand, IsNewPeek};
ghost use Rattle.live_board.specs.Seats.{IsHandOf, IsKeeperOf, IsPeekOf, ground_of};
ghost use Rattle.live_board.specs.Words.{mask_of};

use crate::SIDE;
use crate::input::Input;
use crate::outcome::{Fault, MEMORY, Outcome, check, sum_of};
use crate::studios::{open, turn};
use crate::system::{Laps, System, thread_time};
use core_dispatch::Pen;
use grid_core::{Grid, Pixel};
use live_board::{Board, Draft, HandSeat, KeeperSeat, Opened, PeekSeat, Strips};
use reset_core::Core;
use std::alloc::Global;
use std::sync::atomic::{AtomicU64, Ordering};
use std::thread::{for_each_mut, join_mut};
use stroke_lattice::Delta;
use studio::Keeper;

// How many rows a strip has that hands flood.
const STRIP: u32 = 32;

// How many of the last edits a board is brought one by one.
const LAST: u32 = 2;

// A hand, and what it floods with.
type Worker = (HandSeat, Draft);

/// Lets so many hands raise a board that has the marker of all edits, by floods or by rounds, and then in the next
/// generation once more with a peek beside them. It prints the times to bring the marker of all edits but the last two,
/// and to bring it after a stroke and after a withdrawal, the last of them; the time to raise the board alone, and how
/// many rounds or floods there were; the time beside the peek, how many peeks there were, what these took beside the
/// hands and alone, and the time of a round after that; and the sum.
pub fn measure(rt: &impl System, input: Input, hands: u32, by_floods: bool) -> Outcome {
    match Board::open(rt.alloc(), &input.mask, input.conn, hands as usize, 1) {
        Ok(mut opened) => match raise(rt, input, &mut opened, by_floods) {
            Ok(()) => close(rt, opened.board, opened.keeper),
            Err(fault) => fault.dropping(opened),
        },
        Err(why) => Fault(why.code()).dropping(input),
    }
}

// Closes the board, and prints the sum of its image.
fn close(rt: &impl System, board: Board, seat: KeeperSeat) -> Outcome
    requires { IsKeeperOf board seat }
{
    let (sum, is_closed) = match board.close(rt.alloc(), seat) {
        Ok((image, is_closed)) => (sum_of(image.samples()), is_closed),
        Err(returned) => return MEMORY.dropping(returned),
    };
    check(is_closed, "a pixel can still raise another")?;
    println!(rt; "{sum}")?;
    Ok(())
}

// ---- the marker

// Brings the marker of all edits but the last two to the board, and then that after each of these.
fn mirror(rt: &impl System, input: Input, board: &Board, seat: &mut KeeperSeat) -> Outcome
    requires { IsKeeperOf board.now seat.old }
    ensures { IsKeeperOf board.now seat.new }
{
    let (core, last) = input.open(rt.alloc(), SIDE, Some(LAST))?;
    let told = mirror_all(rt, core, &last, board, seat);
    drop(last);
    told
}

// The same of a core without these edits, and with each. It prints the times.
fn mirror_all(
    rt: &impl System,
    core: Core,
    last: &[Delta],
    board: &Board,
    seat: &mut KeeperSeat,
) -> Outcome
    requires { IsKeeperOf board.now seat.old }
    ensures { IsKeeperOf board.now seat.new }
{
    let (mut keeper, mut pens, _, _) = open(rt, core, 1, 1)?;
    let before = time_of_mirror(rt, &mut keeper, board, seat);
    let after = mirror_each(rt, &mut keeper, &mut pens, last, board, seat);
    drop(pens);
    drop(keeper.end(rt));
    let ((before, _), (risen, fallen)) = (before?, after?);
    println!(rt; "{before} {risen} {fallen}")?;
    Ok(())
}

// Merges edits and brings the marker after each. It gives the last time that one rose, and the last that one fell and a
// generation began for it: 0 where none did.
fn mirror_each(
    rt: &impl System,
    keeper: &mut Keeper,
    pens: &mut Vec<Pen>,
    edits: &[Delta],
    board: &Board,
    seat: &mut KeeperSeat,
) -> Result<(u128, u128), Fault>
    requires { IsKeeperOf board.now seat.old }
    ensures { IsKeeperOf board.now seat.new }
{
    let (mut risen, mut fallen) = (0, 0);
    for edit in edits {
        check(submits(rt.alloc(), pens, edit), "an edit is not taken")?;
        turn(keeper)?;
        let (time, has_advanced) = time_of_mirror(rt, keeper, board, seat)?;
        if has_advanced {
            fallen = time;
        } else {
            risen = time;
        }
    }
    Ok((risen, fallen))
}

fn submits(alloc: Global, pens: &mut Vec<Pen>, edit: &Delta) -> bool {
    match (pens.first_mut(), edit.copy(alloc)) {
        (Some(pen), Ok(edit)) => pen.submit(edit).is_ok(),
        (_, edit) => {
            drop(edit);
            false
        }
    }
}

// What it takes to bring the core's marker to the board, and whether a generation began for it.
fn time_of_mirror(
    rt: &impl System,
    keeper: &mut Keeper,
    board: &Board,
    seat: &mut KeeperSeat,
) -> Result<(u128, bool), Fault>
    requires { IsKeeperOf board.now seat.old }
    ensures { IsKeeperOf board.now seat.new }
{
    let mut laps = Laps::begin(rt);
    let mirrored = keeper.mirror(board, seat);
    let time = laps.lap(rt);
    match mirrored {
        Ok(mirrored) => Ok((time, mirrored.advanced)),
        Err(why) => Err(Fault(why.code())),
    }
}

// ---- the hands

// Gives each hand a draft, and says whether there was memory for all.
fn workers_of(alloc: Global, board: &Board, hands: &mut Vec<HandSeat>) -> (Vec<Worker>, bool)
    requires { All (IsHandOf board.now) hands.old.items }
    ensures { All (λ w. IsHandOf board.now w.0 × IsDraftOf board.now w.1) result.0.items }
{
    let (mut workers, mut are_all) = (Vec::new(alloc), true);
    for _ in 0..hands.len() {
        are_all = adds_worker(alloc, board, hands, &mut workers) & are_all;
    }
    (workers, are_all)
}

fn adds_worker(
    alloc: Global,
    board: &Board,
    hands: &mut Vec<HandSeat>,
    workers: &mut Vec<Worker>,
) -> bool
    requires hands { All (IsHandOf board.now) hands.old.items }
    requires workers { All (λ w. IsHandOf board.now w.0 × IsDraftOf board.now w.1) workers.old.items }
    ensures hands { All (IsHandOf board.now) hands.new.items }
    ensures workers { All (λ w. IsHandOf board.now w.0 × IsDraftOf board.now w.1) workers.new.items }
{
    match next_hand(board, hands) {
        Some(hand) => match worker_of(alloc, board, hand) {
            Some(worker) => workers.push(worker).is_ok(),
            None => false,
        },
        None => false,
    }
}

fn next_hand(board: &Board, hands: &mut Vec<HandSeat>) -> Option<HandSeat>
    requires { All (IsHandOf board.now) hands.old.items }
    ensures left { All (IsHandOf board.now) hands.new.items }
    ensures hand { IfSome result (IsHandOf board.now) }
{
    // The clauses alone speak of the board.
    let _ = board;
    hands.pop()
}

fn worker_of(alloc: Global, board: &Board, hand: HandSeat) -> Option<Worker>
    requires { IsHandOf board.now hand }
    ensures { IfSome result (λ w. IsHandOf board.now w.0 × IsDraftOf board.now w.1) }
{
    match board.draft(alloc) {
        Ok(draft) => Some((hand, draft)),
        Err(_) => {
            drop(hand);
            None
        }
    }
}

// Brings the marker of all edits to the board, and has the hands raise it.
fn raise(rt: &impl System, input: Input, opened: &mut Opened, by_floods: bool) -> Outcome
    requires seat { IsKeeperOf opened.old.board opened.old.keeper }
    requires hands { All (IsNewHand opened.old.board) opened.old.hands.items }
    requires peeks { All (IsNewPeek opened.old.board) opened.old.peeks.items }
    ensures { IsKeeperOf opened.new.board opened.new.keeper }
{
    mirror(rt, input, &opened.board, &mut opened.keeper)?;
    let Some(peek) = opened.peeks.first_mut() else {
        return Ok(());
    };
    let board = &opened.board;
    let (mut workers, are_all) = workers_of(rt.alloc(), board, &mut opened.hands);
    let told = if are_all {
        raise_twice(rt, board, &mut opened.keeper, peek, &mut workers, by_floods)
    } else {
        Err(MEMORY)
    };
    drop(workers);
    told
}

// Has the hands raise the board in threads, and once more in the next generation, with a peek beside them.
fn raise_twice(
    rt: &impl System,
    board: &Board,
    seat: &mut KeeperSeat,
    peek: &mut PeekSeat,
    workers: &mut Vec<Worker>,
    by_floods: bool,
) -> Outcome
    requires seat { IsKeeperOf board.now seat.old }
    requires peek { IsPeekOf board.now peek.old }
    requires workers { All (λ w. IsHandOf board.now w.0 × IsDraftOf board.now w.1) workers.old.items }
    ensures { IsKeeperOf board.now seat.new }
{
    let (rounds, none) = (AtomicU64::new(0), AtomicU64::new(0));
    let time = go_all(rt, board, workers, by_floods, &rounds, &none);
    check(is_raised(board, workers), "a pixel can still raise another")?;
    begin_again(rt.alloc(), board, seat)?;
    let rounds = rounds.load(Ordering::SeqCst);
    print!(rt; "{time} {rounds} ")?;
    raise_watched(rt, board, seat.marker(), peek, workers, by_floods)
}

// Whether the first hand finds nothing to raise in a round.
fn is_raised(board: &Board, workers: &mut Vec<Worker>) -> bool
    requires { All (λ w. IsHandOf board.now w.0 × IsDraftOf board.now w.1) workers.old.items }
    ensures { All (λ w. IsHandOf board.now w.0 × IsDraftOf board.now w.1) workers.new.items }
{
    match workers.first_mut() {
        Some(worker) => worker.0.round(board) == 0,
        None => true,
    }
}

// Begins the next generation, with the same marker, and plants it.
fn begin_again(alloc: Global, board: &Board, seat: &mut KeeperSeat) -> Outcome
    requires { IsKeeperOf board.now seat.old }
    ensures { IsKeeperOf board.now seat.new }
{
    let marker = seat.marker().copy(alloc).or(Err(MEMORY))?;
    if let Err(spent) = seat.advance(board, marker) {
        return Fault("there is no next generation").dropping(spent);
    }
    seat.plant_all(board);
    Ok(())
}

// Has the hands raise the board in threads with a peek beside them, which then looks as often alone, and then one hand
// go round once more.
fn raise_watched(
    rt: &impl System,
    board: &Board,
    marker: &Grid,
    peek: &mut PeekSeat,
    workers: &mut Vec<Worker>,
    by_floods: bool,
) -> Outcome
    requires marker { IsBelow marker.now (mask_of (ground_of board.now)) }
    requires peek { IsPeekOf board.now peek.old }
    requires workers { All (λ w. IsHandOf board.now w.0 × IsDraftOf board.now w.1) workers.old.items }
{
    let (rounds, most) = (AtomicU64::new(0), AtomicU64::new(u64::MAX));
    let ((peeks, beside), time) = join_mut(
        rt,
        &mut || -> (u64, u128)
            requires marker { IsBelow marker.now (mask_of (ground_of board.now)) }
            requires peek { IsPeekOf board.now peek.now }
            ensures { IsPeekOf board.entry.now peek.exit.now }
        { peek_on(rt, board, marker, &most, peek) },
        &mut || -> u128
            requires { All (λ w. IsHandOf board.now w.0 × IsDraftOf board.now w.1) workers.now.items }
            ensures { All (λ w. IsHandOf board.entry.now w.0 × IsDraftOf board.entry.now w.1)
                workers.exit.now.items }
        { go_all(rt, board, workers, by_floods, &rounds, &most) },
    );
    let (_, alone) = peek_on(rt, board, marker, &AtomicU64::new(peeks), peek);
    let round = time_of_round(rt, board, workers);
    println!(rt; "{time} {peeks} {beside} {alone} {round}")?;
    Ok(())
}

// What a round of the first hand takes.
fn time_of_round(rt: &impl System, board: &Board, workers: &mut Vec<Worker>) -> u128
    requires { All (λ w. IsHandOf board.now w.0 × IsDraftOf board.now w.1) workers.old.items }
{
    let mut laps = Laps::begin(rt);
    if let Some(worker) = workers.first_mut() {
        worker.0.round(board);
    }
    laps.lap(rt)
}

// Has each hand work in a thread of its own until nothing rises, and says what that took. No more peeks are asked for
// then.
fn go_all(
    rt: &impl System,
    board: &Board,
    workers: &mut Vec<Worker>,
    by_floods: bool,
    rounds: &AtomicU64,
    most: &AtomicU64,
) -> u128
    requires { All (λ w. IsHandOf board.now w.0 × IsDraftOf board.now w.1) workers.old.items }
    ensures { All (λ w. IsHandOf board.now w.0 × IsDraftOf board.now w.1) workers.new.items }
{
    let mut laps = Laps::begin(rt);
    if by_floods {
        flood_all(rt, board, workers, rounds);
    } else {
        round_all(rt, board, workers, rounds);
    }
    most.store(0, Ordering::SeqCst);
    laps.lap(rt)
}

// Has each hand go round until it finds nothing to raise.
fn round_all(rt: &impl System, board: &Board, workers: &mut Vec<Worker>, rounds: &AtomicU64)
    requires { All (λ w. IsHandOf board.now w.0 × IsDraftOf board.now w.1) workers.old.items }
    ensures { All (λ w. IsHandOf board.now w.0 × IsDraftOf board.now w.1) workers.new.items }
{
    let threads = workers.len().max(1);
    for_each_mut(
        rt,
        workers,
        threads,
        &|_, worker: &mut Worker|
            requires { IsHandOf board.now worker.old.0 × IsDraftOf board.now worker.old.1 }
            ensures { IsHandOf board.entry.now worker.new.0 × IsDraftOf board.entry.now worker.new.1 }
        { go_round(board, worker, rounds) },
    );
}

// Goes round until nothing rises.
fn go_round(board: &Board, worker: &mut Worker, rounds: &AtomicU64)
    requires { IsHandOf board.now worker.old.0 × IsDraftOf board.now worker.old.1 }
    ensures { IsHandOf board.now worker.new.0 × IsDraftOf board.now worker.new.1 }
{
    for _ in 0..u64::MAX {
        rounds.fetch_add(1, Ordering::SeqCst);
        if worker.0.round(board) == 0 {
            break;
        }
    }
}

// Has the hands flood the board, strip by strip, until none is left. One hand takes all of them at once.
fn flood_all(rt: &impl System, board: &Board, workers: &mut Vec<Worker>, floods: &AtomicU64)
    requires { All (λ w. IsHandOf board.now w.0 × IsDraftOf board.now w.1) workers.old.items }
    ensures { All (λ w. IsHandOf board.now w.0 × IsDraftOf board.now w.1) workers.new.items }
{
    // Without memory for the strips the board stays as it is, which is told when it is closed.
    if let Ok(strips) = board.strips(rt.alloc(), STRIP) {
        flood_strips(rt, board, &strips, workers, floods);
        drop(strips);
    }
}

// Has each hand flood strips in a thread of its own. The last number is how many floods there were.
fn flood_strips(
    rt: &impl System,
    board: &Board,
    strips: &Strips,
    workers: &mut Vec<Worker>,
    floods: &AtomicU64,
)
    requires strips { IsStripsOf board.now strips.now }
    requires workers { All (λ w. IsHandOf board.now w.0 × IsDraftOf board.now w.1) workers.old.items }
    ensures { All (λ w. IsHandOf board.now w.0 × IsDraftOf board.now w.1) workers.new.items }
{
    let threads = workers.len().max(1);
    let each = strips.count().div_ceil(threads);
    for_each_mut(
        rt,
        workers,
        threads,
        &|number, worker: &mut Worker|
            requires strips { IsStripsOf board.now strips.now }
            requires worker { IsHandOf board.now worker.old.0 × IsDraftOf board.now worker.old.1 }
            ensures { IsHandOf board.entry.now worker.new.0 × IsDraftOf board.entry.now worker.new.1 }
        {
            let near = number.saturating_mul(each);
            let count = worker
                .0
                .flood_strips(board, strips, near, each, &mut worker.1);
            floods.fetch_add(count, Ordering::SeqCst);
        },
    );
}

// ---- the peek

// Peeks all over the board until there were so many peeks, which is looked at before each 4096 of them. It gives how
// many there were, and their processor time.
fn peek_on(
    rt: &impl System,
    board: &Board,
    marker: &Grid,
    most: &AtomicU64,
    peek: &mut PeekSeat,
) -> (u64, u128)
    requires marker { IsBelow marker.now (mask_of (ground_of board.now)) }
    requires peek { IsPeekOf board.now peek.old }
    ensures { IsPeekOf board.now peek.new }
{
    let (start, mut peeks) = (thread_time(rt), 0);
    for number in 0..u64::MAX {
        if number % 4096 == 0 && most.load(Ordering::SeqCst) <= number {
            break;
        }
        let spot = (number % (1 << 32)) as u32;
        let x = spot.wrapping_mul(0x9e37_79b1) / 256 % marker.width();
        let y = spot.wrapping_mul(0x85eb_ca77) / 256 % marker.height();
        peek.peek(board, Pixel { x, y });
        peeks = number + 1;
    }
    (peeks, thread_time(rt).saturating_sub(start))
}
