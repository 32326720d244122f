//! Boards in one thread, alone and behind a core.

ghost use Rattle.std.specs.Prelude.{IfSome};
ghost use Rattle.live_board.specs.Seats.{IsKeeperOf};
ghost use Rattle.thread_tests.specs.Company.{AreOf};

use crate::company::Seats;
use crate::outcome::{NO_MEMORY, Outcome, right_if, succeeded, told};
use crate::peeks::{next_hand, next_peek};
use crate::pictures::{BARE, Edit, GROWN, Mask, PLANTED};
use crate::scene::{Scene, open_on, stop};
use grid_core::{Conn, Grid, Pixel};
use live_board::{Board, KeeperSeat, Opened, Peek};
use pgm_codec::Image;
use std::alloc::Global;
use std::sync::Wait;
use std::test::Fail;

/// Whether the pen submits the edit, and the next turn merges it.
pub fn merges(alloc: Global, scene: &mut Scene, edit: Edit) -> bool {
    match edit.delta(alloc) {
        Some(delta) => succeeded(scene.pen.submit(delta)) & (scene.keeper.turn().edits == 1),
        None => false,
    }
}

// A board of this mask, with one hand and one peek.
fn seated(alloc: Global, mask: &Image, conn: Conn) -> Option<(Board, Seats)>
    ensures { IfSome result (λ made. AreOf made.0 mask.now.raster made.1) }
{
    let Opened {
        board,
        keeper,
        mut hands,
        mut peeks,
    } = Board::open(alloc, mask, conn, 1, 1).ok()?;
    let (hand, peek) = (next_hand(&board, &mut hands), next_peek(&board, &mut peeks));
    drop(hands);
    drop(peeks);
    match (hand, peek) {
        (Some(hand), Some(peek)) => Some((board, Seats { keeper, hand, peek })),
        (hand, peek) => {
            drop(hand);
            drop(peek);
            drop(keeper);
            drop(board);
            None
        }
    }
}

// The second column of the row.
const SECOND: u32 = 1;

// What is done with a board, and what comes of it.
#[derive(Clone, Copy)]
enum Line {
    // A generation begins, whose marker has this value in the second column, and 0 elsewhere.
    Advance(u16),
    // The marker is planted there.
    Plant,
    // A round of the hand raises so often.
    Round(u64),
    // The peek finds this there, and in each column.
    Peek(Peek),
    PeekAll(Peek),
    // The keeper of the studio takes an edit.
    Merge(Edit),
    // The board follows the core, and a generation begins or does not.
    Mirror(bool),
}

fn is_so(
    alloc: Global,
    scene: &mut Scene,
    board: &Board,
    seats: &mut Seats,
    mask: &Grid,
    line: Line,
) -> bool
    requires { AreOf board.now mask.now seats.old }
    ensures { AreOf board.now mask.now seats.new }
{
    match line {
        Line::Advance(value) => advances(alloc, board, seats, mask, value),
        Line::Plant => plants(board, seats, mask),
        Line::Round(count) => seats.hand.round(board) == count,
        Line::Peek(answer) => peeks(board, seats, mask, SECOND, answer),
        Line::PeekAll(answer) => peeks_all(board, seats, mask, answer),
        Line::Merge(edit) => merges(alloc, scene, edit),
        Line::Mirror(advances) => match scene.keeper.mirror(board, &mut seats.keeper) {
            Ok(mirrored) => mirrored.advanced == advances,
            Err(_) => false,
        },
    }
}

fn advances(alloc: Global, board: &Board, seats: &mut Seats, mask: &Grid, value: u16) -> bool
    requires { AreOf board.now mask.now seats.old }
    ensures { AreOf board.now mask.now seats.new }
{
    let Ok(mut marker) = Grid::new(alloc, mask.width(), mask.height(), 0) else {
        return false;
    };
    if SECOND < marker.width() {
        marker.set(Pixel { x: SECOND, y: 0 }, value);
    }
    marker.is_below(mask) && seats.keeper.advance(board, marker).is_ok()
}

fn plants(board: &Board, seats: &mut Seats, mask: &Grid) -> bool
    requires { AreOf board.now mask.now seats.old }
    ensures { AreOf board.now mask.now seats.new }
{
    if SECOND >= mask.width() {
        return false;
    }
    seats.keeper.plant(board, Pixel { x: SECOND, y: 0 });
    true
}

fn peeks(board: &Board, seats: &mut Seats, mask: &Grid, x: u32, answer: Peek) -> bool
    requires { AreOf board.now mask.now seats.old }
    ensures { AreOf board.now mask.now seats.new }
{
    if x >= mask.width() {
        return false;
    }
    seats.peek.peek(board, Pixel { x, y: 0 }) == answer
}

fn peeks_all(board: &Board, seats: &mut Seats, mask: &Grid, answer: Peek) -> bool
    requires { AreOf board.now mask.now seats.old }
    ensures { AreOf board.now mask.now seats.new }
{
    let mut are_all = true;
    for x in 0..mask.width() {
        are_all = peeks(board, seats, mask, x, answer) & are_all;
    }
    are_all
}

// What is played with a board, beside a studio on the same row, the image that it is closed on, and whether no pixel
// can raise another in it.
struct Play {
    name: &'static str,
    lines: &'static [Line],
    image: &'static [u16],
    is_final: bool,
}

const PLAYS: &[Play] = &[
    Play {
        name: "a row grows",
        lines: &[
            Line::PeekAll(Peek::Live(0)),
            Line::Advance(5),
            Line::Peek(Peek::Moved),
            Line::Plant,
            Line::Peek(Peek::Live(5)),
            Line::Round(4),
            Line::Round(0),
        ],
        image: GROWN,
        is_final: true,
    },
    Play {
        name: "a row that has not grown is closed as it stands",
        lines: &[Line::Advance(5), Line::Plant],
        image: PLANTED,
        is_final: false,
    },
    Play {
        name: "what grew in an older generation is gone",
        lines: &[
            Line::Advance(5),
            Line::Plant,
            Line::Round(4),
            Line::Advance(0),
            Line::PeekAll(Peek::Moved),
        ],
        image: BARE,
        is_final: true,
    },
    Play {
        name: "a board follows the strokes of a core",
        lines: &[
            Line::Merge(Edit::Place(1, 9, 1)),
            Line::Mirror(false),
            Line::Peek(Peek::Live(5)),
            Line::Merge(Edit::Withdraw(1)),
            Line::Mirror(true),
            Line::Peek(Peek::Live(0)),
        ],
        image: BARE,
        is_final: true,
    },
];

fn plays(
    alloc: Global,
    scene: &mut Scene,
    board: &Board,
    seats: &mut Seats,
    mask: &Grid,
    lines: &[Line],
) -> bool
    requires { AreOf board.now mask.now seats.old }
    ensures { AreOf board.now mask.now seats.new }
{
    for line in lines {
        if !is_so(alloc, scene, board, seats, mask, *line) {
            return false;
        }
    }
    true
}

/// Whether the board is closed on these values, and it is said of them whether no pixel can raise another: at the
/// second try where there is no memory at the first.
pub fn closes_on(
    alloc: Global,
    board: Board,
    keeper: KeeperSeat,
    values: &[u16],
    is_final: bool,
) -> bool
    requires { IsKeeperOf board keeper }
{
    let closed = match board.close(alloc, keeper) {
        Ok(closed) => Some(closed),
        Err((board, keeper)) => board.close(alloc, keeper).ok(),
    };
    matches!(closed, Some((image, is_told)) if is_told == is_final && image.samples() == values)
}

impl Play {
    fn is_closed(&self, alloc: Global, scene: &mut Scene, mask: &Image, conn: Conn) -> bool {
        let Some((board, mut seats)) = seated(alloc, mask, conn) else {
            return false;
        };
        let is_so = plays(alloc, scene, &board, &mut seats, mask.grid(), self.lines);
        is_so & closes_on(alloc, board, seats.keeper, self.image, self.is_final)
    }

    // The same beside a studio, which is ended.
    fn is_so<R: Wait>(&self, rt: &R, alloc: Global, mask: &Image, conn: Conn) -> bool {
        match open_on(rt, alloc, Mask::Row, conn, 1) {
            Some(mut scene) => {
                let is_closed = self.is_closed(alloc, &mut scene, mask, conn);
                stop(rt, scene);
                is_closed
            }
            None => false,
        }
    }
}

#[test]
fn boards_go_as_they_are_played(rt: HostRuntime) -> Result<(), Fail> {
    let Some(mask) = Mask::Row.image(rt.alloc()) else {
        return Err(Fail::new(NO_MEMORY));
    };
    for play in PLAYS {
        for conn in [Conn::Four, Conn::Eight] {
            told(right_if(play.is_so(&rt, rt.alloc(), &mask, conn), play.name))?;
        }
    }
    Ok(())
}

// ---- opening and closing

/// A board with so many hands and peeks, at the second try where there is no memory at the first.
pub fn opened_board(alloc: Global, mask: &Image, count: usize) -> Option<Opened>
    ensures { IfSome result (λ opened. IsKeeperOf opened.board opened.keeper) }
{
    match Board::open(alloc, mask, Conn::Four, count, count) {
        Ok(opened) => Some(opened),
        Err(_) => Board::open(alloc, mask, Conn::Four, count, count).ok(),
    }
}

// Whether a board of this mask is opened with so many hands and peeks, and closed on zeros.
fn opens_and_closes(alloc: Global, mask: Mask, count: usize, zeros: &[u16]) -> Outcome {
    let Some(mask) = mask.image(alloc) else {
        return Err(NO_MEMORY);
    };
    let Some(opened) = opened_board(alloc, &mask, count) else {
        return Err("a board is refused again");
    };
    let Opened {
        board,
        keeper,
        hands,
        peeks,
    } = opened;
    let are_counted = (hands.len() == count) & (peeks.len() == count);
    drop(hands);
    drop(peeks);
    let is_closed = closes_on(alloc, board, keeper, zeros, true);
    right_if(are_counted & is_closed, "what a board is closed on")
}

#[test]
fn a_board_is_opened_and_closed_tried_again(rt: HostRuntime) -> Result<(), Fail> {
    told(opens_and_closes(rt.alloc(), Mask::Row, 2, BARE))
}

#[test]
fn the_largest_board_is_opened_and_closed(rt: HostRuntime) -> Result<(), Fail> {
    let Ok(zeros) = vec![in rt.alloc(); 0u16; 1 << 20] else {
        return Err(Fail::new(NO_MEMORY));
    };
    told(opens_and_closes(rt.alloc(), Mask::Largest, 16, &zeros))
}
