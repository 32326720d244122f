//! A studio from its opening to its end, and what it does again where a growth of memory was refused.

ghost use Rattle.std.specs.Prelude.{IfOk, IfSome, ◌≡◌};
ghost use Rattle.core_dispatch.specs.Closing.{AreEndsOf};
ghost use Rattle.live_board.specs.Seats.{IsKeeperOf};
ghost use Rattle.studio.specs.Keeping.{books_of};
ghost use Rattle.thread_tests.specs.Company.{IsCompany};

use crate::boards::opened_board;
use crate::outcome::{CHANGED, NO_MEMORY, Outcome, OutcomeOf, right_if, succeeded, told};
use crate::pictures::{Edit, Mask, has_cells, sum_of, sum_of_tiled};
use crate::playing::{hand_turn, submits, turn};
use crate::scene::{Scene, give_up, leave, open, scene_of, shows};
use core_dispatch::{CloseError, Refusal};
use core_rules::CoreError;
use grid_core::Conn;
use live_board::{Board, KeeperSeat, Opened};
use std::alloc::Global;
use std::sync::Wait;
use std::test::Fail;
use steal_pool::Open;
use stroke_core::Tag;
use stroke_lattice::State;
use studio::{Closed, Keeper, MirrorError, NotClosed, NotOpened, OpenError, Studio};

// Strokes at the left end, in the right tile and at the right end, and the withdrawal of the first.
const FIRST: Edit = Edit::Place(1, 4, 0);

const SECOND: Edit = Edit::Place(2, 3, 100);

const THIRD: Edit = Edit::Place(3, 2, 127);

const BACK: Edit = Edit::Withdraw(1);

// What grows from the first two.
const FOURS: &[u16] = &[4; 128];

// ---- opening

// A studio of one hand, at the second try where there is no memory at the first.
fn opened<R: Wait>(rt: &R, alloc: Global) -> OutcomeOf<Scene>
    ensures { IfOk result IsCompany }
{
    let Some(core) = Mask::TwoTiles.core(alloc, Conn::Four) else {
        return Err(NO_MEMORY);
    };
    let before = sum_of(&core);
    match Studio::open(rt, alloc, core, 1, 1, 1) {
        Ok(studio) => scene_of(rt, studio).ok_or("no pen or no eye"),
        Err(refused) => opened_again(rt, alloc, refused, before),
    }
}

// The same of the core that came back. Its sum was this.
fn opened_again<R: Wait>(rt: &R, alloc: Global, refused: NotOpened, before: u64) -> OutcomeOf<Scene>
    ensures { IfOk result IsCompany }
{
    let NotOpened { core, why } = refused;
    if why != OpenError::Memory || sum_of(&core) != before {
        drop(core);
        return Err(CHANGED);
    }
    open(rt, alloc, core, 1).ok_or("a studio is refused again")
}

// ---- turns

fn has(state: &State, edit: Edit) -> bool {
    match edit {
        Edit::Place(tag, _, _) => state.has_stroke(Tag(tag)),
        Edit::Withdraw(tag) => state.has_tombstone(Tag(tag)),
        Edit::Disc(_, _, _, _) | Edit::Spread => false,
    }
}

// Whether the edit of this number is listed last, for want of memory.
fn is_listed(refusals: &[Refusal], number: u64) -> bool {
    matches!(refusals.last(), Some(last) if last.number == number && last.error == CoreError::Memory)
}

fn works(scene: &mut Scene) -> Outcome
    requires { IsCompany scene.old }
    ensures { IsCompany scene.new }
{
    for _ in 0..20u64 {
        let _swept = hand_turn(scene, &Open);
        let _turned = turn(scene);
    }
    right_if(scene.keeper.core().is_quiet(), "work is left")
}

// Lets the edit of this number be taken. Where memory was wanting, the core has to be the one that took what the turn
// tells, and more turns bring it on; an edit that is listed is submitted again.
fn takes(alloc: Global, scene: &mut Scene, edit: Edit, number: u64) -> Outcome
    requires { IsCompany scene.old }
    ensures { IsCompany scene.new }
{
    right_if(submits(scene, edit.delta(alloc)), NO_MEMORY)?;
    let before = sum_of_tiled(scene.keeper.core());
    let turned = turn(scene);
    let is_listed = is_listed(scene.keeper.refusals(), number);
    let core = scene.keeper.core();
    let is_taken = (turned.edits == 1) & !is_listed;
    right_if(has(core.state(), edit) == is_taken, "what a turn tells")?;
    let is_still = (turned.results == 0) & (turned.hints == 0) & (turned.jobs == 0);
    let is_same = is_taken | !is_still | (sum_of_tiled(core) == before);
    right_if(is_same, CHANGED)?;
    if turned.memory {
        goes_on(alloc, scene, edit, is_listed)
    } else {
        right_if(is_taken, "an edit is not taken")
    }
}

// Submits an edit again that is listed, and makes turns until it is taken and no work is left.
fn goes_on(alloc: Global, scene: &mut Scene, edit: Edit, is_listed: bool) -> Outcome
    requires { IsCompany scene.old }
    ensures { IsCompany scene.new }
{
    let again = if is_listed { edit.delta(alloc) } else { None };
    let is_there = submits(scene, again);
    right_if(is_there | !is_listed, "an edit is refused again")?;
    works(scene)?;
    right_if(
        has(scene.keeper.core().state(), edit),
        "an edit is not taken at last",
    )
}

// Takes an edit, and then another one, a report and a hint, and makes turns until all has grown.
fn grows(alloc: Global, scene: &mut Scene) -> Outcome
    requires { IsCompany scene.old }
    ensures { IsCompany scene.new }
{
    takes(alloc, scene, FIRST, 0)?;
    let _swept = hand_turn(scene, &Open);
    takes(alloc, scene, SECOND, 1)?;
    works(scene)?;
    let is_grown = has_cells(scene.keeper.core(), FOURS);
    right_if(is_grown, "what has grown")
}

// ---- a board that follows

// Lets a new board follow the core.
fn mirrors(alloc: Global, scene: &mut Scene) -> Outcome
    requires { IsCompany scene.old }
    ensures { IsCompany scene.new }
{
    let Some(mut opened) = board(alloc) else {
        return Err(NO_MEMORY);
    };
    let outcome = follows(&mut scene.keeper, &opened.board, &mut opened.keeper);
    drop(opened);
    outcome
}

fn board(alloc: Global) -> Option<Opened>
    ensures { IfSome result (λ opened. IsKeeperOf opened.board opened.keeper) }
{
    let mask = Mask::TwoTiles.image(alloc)?;
    opened_board(alloc, &mask, 1)
}

// Brings a board the marker of the core, at the second try where there is no memory at the first.
fn follows(keeper: &mut Keeper, board: &Board, seat: &mut KeeperSeat) -> Outcome
    requires { IsKeeperOf board.now seat.old }
    ensures { keeper.new ≡ keeper.old }
{
    let before = sum_of_tiled(keeper.core());
    let is_brought = match keeper.mirror(board, seat) {
        Ok(_) => true,
        Err(MirrorError::Memory) => {
            let is_kept = seat.marker().cells() == [0; 128].as_slice()
                && sum_of_tiled(keeper.core()) == before;
            right_if(is_kept, CHANGED)?;
            keeper.mirror(board, seat).is_ok()
        }
        Err(_) => false,
    };
    let is_same = seat.marker().is_same(keeper.core().marker().marker());
    right_if(is_brought & is_same, "the marker of a board")
}

// ---- closing

// Takes and sweeps the withdrawal of a stroke, whose report then waits, and an edit.
fn leaves_work(alloc: Global, scene: &mut Scene) -> Outcome
    requires { IsCompany scene.old }
    ensures { IsCompany scene.new }
{
    takes(alloc, scene, BACK, 2)?;
    let _swept = hand_turn(scene, &Open);
    right_if(submits(scene, THIRD.delta(alloc)), NO_MEMORY)
}

// Lets the core of a closed studio take what is listed for want of memory, and settle. Each of its pixels is 3 then.
fn settles(alloc: Global, mut closed: Closed) -> Outcome {
    let outcome = settles_on_threes(alloc, &mut closed);
    drop(closed);
    outcome
}

fn settles_on_threes(alloc: Global, closed: &mut Closed) -> Outcome {
    let Closed { core, refusals } = closed;
    for refusal in refusals {
        let is_merged = succeeded(core.merge(alloc, &refusal.delta));
        right_if(
            is_merged & (refusal.error == CoreError::Memory),
            "an edit is refused again",
        )?;
    }
    let is_settled = core.settle(alloc).is_ok() || core.settle(alloc).is_ok();
    let is_grown = core.image().cells() == [3; 128].as_slice();
    let has_third = core.state().has_stroke(Tag(3));
    right_if(
        is_settled & is_grown & has_third,
        "the core of a closed studio",
    )
}

// Closes a studio, at the second try where there is no memory at the first.
fn closes<R: Wait>(rt: &R, alloc: Global, scene: Scene) -> Outcome
    requires { IsCompany scene }
{
    let (keeper, ends) = leave(alloc, scene);
    let has_begun = right_if(!ends.is_empty(), NO_MEMORY);
    let before = sum_of_tiled(keeper.core());
    let outcome = match keeper.close(rt, ends) {
        Ok(closed) => settles(alloc, closed),
        Err(not_closed) => closes_again(rt, alloc, not_closed, before),
    };
    has_begun.and(outcome)
}

// The same of a studio that was not closed. The sum of its core was this.
fn closes_again<R: Wait>(rt: &R, alloc: Global, not_closed: NotClosed, before: u64) -> Outcome
    requires { AreEndsOf not_closed.ends.items (books_of not_closed.keeper) }
{
    let NotClosed { keeper, ends, why } = not_closed;
    let is_kept = why == CloseError::Memory && sum_of_tiled(keeper.core()) == before;
    let outcome = match keeper.close(rt, ends) {
        Ok(closed) => settles(alloc, closed),
        Err(not_closed) => {
            give_up(rt, not_closed);
            Err("a studio is not closed again")
        }
    };
    right_if(is_kept, CHANGED).and(outcome)
}

#[test]
fn a_studio_goes_its_way_tried_again(rt: HostRuntime) -> Result<(), Fail> {
    let mut scene = match opened(&rt, rt.alloc()) {
        Ok(scene) => scene,
        Err(why) => return Err(Fail::new(why)),
    };
    let has_grown = grows(rt.alloc(), &mut scene);
    let is_shown = shows(&rt, &mut scene, FOURS);
    let has_followed = mirrors(rt.alloc(), &mut scene);
    let is_at_work = leaves_work(rt.alloc(), &mut scene);
    let is_closed = closes(&rt, rt.alloc(), scene);
    told(
        has_grown
            .and(is_shown)
            .and(has_followed)
            .and(is_at_work)
            .and(is_closed),
    )
}
