//! Floods of boards beside the slow program, by one hand and by four in threads, with a peek in one more.

ghost use Rattle.std.specs.Prelude.{◌<◌, All, IfSome, ◌≡◌, ◌≤◌};
ghost use Rattle.grid_core.specs.Raster.{IsBelow};
ghost use Rattle.live_board.specs.Floods.{IsStripsOf};
ghost use Rattle.live_board.specs.Seats.{IsHandOf, IsKeeperOf, IsPeekOf, ground_of};
ghost use Rattle.live_board.specs.Words.{mask_of};
ghost use Rattle.thread_tests.specs.Company.{AreFlooding, IsShareOf};

use crate::company::{Flooders, Share};
use crate::outcome::{NO_MEMORY, right_if, told};
use crate::peeks::{next_hand, next_peek};
use grid_core::{Conn, Grid, Pixel};
use live_board::{Board, HandSeat, KeeperSeat, Opened, Peek, PeekSeat, Strips};
use pgm_codec::Image;
use raster_sweeps::slow;
use std::alloc::Global;
use std::sync::atomic::{AtomicBool, AtomicU64, Ordering};
use std::test::Fail;
use std::thread::{Threads, for_each_mut, join_mut};

// How often a loop is gone through before the test fails.
const MOST: u64 = 1_000_000;

// The size of the masks.
const WIDTH: u32 = 24;

const HEIGHT: u32 = 20;

// How far apart the seeds of three markers are: the second is above the first, and the third below.
const STRIDES: &[usize] = &[200, 100, 400];

// What is flooded: noise, or a corridor that goes down one column and up the next but one.
#[derive(Clone, Copy)]
enum Ground {
    Noise,
    Corridor,
}

fn noise_at(place: u64) -> u16 {
    let mixed = place.wrapping_mul(0x9e37_79b9_7f4a_7c15);
    ((mixed ^ (mixed >> 29)).wrapping_mul(0xbf58_476d_1ce4_e5b9) % 97) as u16
}

// 50 in each second column, and between two of these in the last row and the first in turns.
fn corridor_at(x: u64, y: u64) -> u16 {
    let end = if x % 4 == 1 { 19 } else { 0 };
    if x % 2 == 0 || y == end { 50 } else { 1 }
}

impl Ground {
    fn value_at(self, place: u64) -> u16 {
        match self {
            Ground::Noise => noise_at(place),
            Ground::Corridor => corridor_at(place % 24, place / 24),
        }
    }

    fn image(self, alloc: Global) -> Option<Image> {
        let mut mask = Grid::new(alloc, WIDTH, HEIGHT, 0).ok()?;
        for (place, cell) in mask.cells_mut().iter_mut().enumerate() {
            *cell = self.value_at(place as u64);
        }
        Image::from_grid(alloc, &mask, 65535).ok()
    }
}

// The mask at each pixel whose place is a multiple of the stride, but at most 1 to 61 by its place; 0 elsewhere.
fn marker_on(alloc: Global, mask: &Grid, stride: usize) -> Option<Grid>
    ensures { IfSome result (λ marker. IsBelow marker mask.now) }
{
    let mut marker = mask.copy(alloc).ok()?;
    for (place, cell) in marker.cells_mut().iter_mut().enumerate() {
        let most = if place % stride.max(1) == 0 {
            place % 61 + 1
        } else {
            0
        };
        *cell = (*cell).min(most as u16);
    }
    if marker.is_below(mask) {
        Some(marker)
    } else {
        drop(marker);
        None
    }
}

// ---- who floods

// A hand with a draft. Of so many hands, this one has this number.
fn share_of(alloc: Global, board: &Board, hand: HandSeat, rows: (u32, u32)) -> Option<Share>
    requires hand { IsHandOf board.now hand }
    requires rows { (rows.0 < rows.1) × (rows.1 ≤ (mask_of (ground_of board.now)).height) }
    ensures { IfSome result (IsShareOf board.now) }
{
    let (first, end) = rows;
    match board.draft(alloc) {
        Ok(draft) => Some(Share {
            hand,
            draft,
            first,
            end,
        }),
        Err(_) => {
            drop(hand);
            None
        }
    }
}

// Takes one more hand, which is to flood these rows.
fn adds_share(
    alloc: Global,
    board: &Board,
    mask: &Grid,
    rows: (u32, u32),
    hands: &mut Vec<HandSeat>,
    shares: &mut Vec<Share>,
) -> bool
    requires mask { mask_of (ground_of board.now) ≡ mask.now }
    requires hands { All (IsHandOf board.now) hands.old.items }
    requires shares { All (IsShareOf board.now) shares.old.items }
    ensures hands { All (IsHandOf board.now) hands.new.items }
    ensures shares { All (IsShareOf board.now) shares.new.items }
{
    if rows.0 >= rows.1 || rows.1 > mask.height() {
        return false;
    }
    match next_hand(board, hands) {
        Some(hand) => match share_of(alloc, board, hand, rows) {
            Some(share) => shares.push(share).is_ok(),
            None => false,
        },
        None => false,
    }
}

// The rows of the hand of this number, of so many hands.
fn rows_of(height: u32, number: u32, count: u32) -> (u32, u32) {
    let each = height / count.max(1);
    let first = number.saturating_mul(each);
    if number.saturating_add(1) == count {
        (first, height)
    } else {
        (first, first.saturating_add(each))
    }
}

// Gives each hand a draft and its rows, and says whether there was memory for all.
fn shares_of(
    alloc: Global,
    board: &Board,
    mask: &Grid,
    hands: &mut Vec<HandSeat>,
) -> (Vec<Share>, bool)
    requires mask { mask_of (ground_of board.now) ≡ mask.now }
    requires hands { All (IsHandOf board.now) hands.old.items }
    ensures { All (IsShareOf board.now) result.0.items }
{
    let count = hands.len().min(16) as u32;
    let mut shares = Vec::new(alloc);
    let mut are_all = true;
    for number in 0..count {
        let rows = rows_of(mask.height(), number, count);
        are_all = adds_share(alloc, board, mask, rows, hands, &mut shares) & are_all;
    }
    (shares, are_all)
}

// A board of this mask with so many hands, which are to flood it, and a peek.
fn seated(alloc: Global, mask: &Image, conn: Conn, count: usize) -> Option<(Board, Flooders)>
    ensures { IfSome result (λ made. AreFlooding made.0 mask.now.raster made.1) }
{
    let Opened {
        board,
        keeper,
        mut hands,
        mut peeks,
    } = Board::open(alloc, mask, conn, count, 1).ok()?;
    let (shares, are_all) = shares_of(alloc, &board, mask.grid(), &mut hands);
    let peek = next_peek(&board, &mut peeks);
    drop(hands);
    drop(peeks);
    match peek {
        Some(peek) if are_all => Some((
            board,
            Flooders {
                keeper,
                shares,
                peek,
            },
        )),
        peek => {
            drop(peek);
            drop(shares);
            drop(keeper);
            drop(board);
            None
        }
    }
}

// ---- the keeper

// Gives each pixel of a row the marker's value.
fn plants_row(board: &Board, keeper: &mut KeeperSeat, mask: &Grid, y: u32)
    requires mask { mask_of (ground_of board.now) ≡ mask.now }
    requires keeper { IsKeeperOf board.now keeper.old }
    requires row { y < mask.now.height }
    ensures { IsKeeperOf board.now keeper.new }
{
    for x in 0..mask.width() {
        keeper.plant(board, Pixel { x, y });
    }
}

// Brings a marker, in the next generation where the one before is not below it, and plants each pixel.
fn brings(board: &Board, keeper: &mut KeeperSeat, mask: &Grid, marker: Grid) -> bool
    requires mask { mask_of (ground_of board.now) ≡ mask.now }
    requires keeper { IsKeeperOf board.now keeper.old }
    requires below { IsBelow marker (mask_of (ground_of board.now)) }
    ensures { IsKeeperOf board.now keeper.new }
{
    let is_above = keeper.marker().is_below(&marker);
    let is_brought = if is_above {
        keeper.raise(board, marker);
        true
    } else {
        keeper.advance(board, marker).is_ok()
    };
    for y in 0..mask.height() {
        plants_row(board, keeper, mask, y);
    }
    is_brought
}

// ---- who looks

// What a peek found, and whether the hands are done.
#[derive(Default, Drop)]
struct Found {
    // Pixels that were above what grows.
    above: AtomicU64,
    // Pixels that were as they grow.
    same: AtomicU64,
    done: AtomicBool,
}

// Peeks at each pixel of a row.
fn looks_along(board: &Board, peek: &mut PeekSeat, grown: &Grid, y: u32, found: &Found)
    requires peek { IsPeekOf board.now peek.old }
    requires grown { IsBelow grown.now (mask_of (ground_of board.now)) }
    requires row { y < grown.now.height }
    ensures { IsPeekOf board.now peek.new }
{
    for x in 0..grown.width() {
        let pixel = Pixel { x, y };
        let most = grown.get(pixel);
        if let Peek::Live(value) = peek.peek(board, pixel) {
            found
                .above
                .fetch_add(u64::from(value > most), Ordering::SeqCst);
            found
                .same
                .fetch_add(u64::from(value == most), Ordering::SeqCst);
        }
    }
}

// Peeks at each pixel.
fn looks(board: &Board, peek: &mut PeekSeat, grown: &Grid, found: &Found)
    requires peek { IsPeekOf board.now peek.old }
    requires grown { IsBelow grown.now (mask_of (ground_of board.now)) }
    ensures { IsPeekOf board.now peek.new }
{
    for y in 0..grown.height() {
        looks_along(board, peek, grown, y, found);
    }
}

// Peeks at each pixel again and again until the hands are done, and once more for what they have left.
fn watches(board: &Board, peek: &mut PeekSeat, grown: &Grid, found: &Found)
    requires peek { IsPeekOf board.now peek.old }
    requires grown { IsBelow grown.now (mask_of (ground_of board.now)) }
    ensures { IsPeekOf board.now peek.new }
{
    for _ in 0..MOST {
        let is_done = found.done.load(Ordering::SeqCst);
        found.same.store(0, Ordering::SeqCst);
        looks(board, peek, grown, found);
        if is_done {
            break;
        }
    }
}

// ---- floods

fn flood_share(board: &Board, share: &mut Share, rose: &AtomicU64)
    requires { IsShareOf board.now share.old }
    ensures { IsShareOf board.now share.new }
{
    let (first, end) = (share.first, share.end);
    let count = share.hand.flood(board, first, end, &mut share.draft);
    rose.fetch_add(count, Ordering::SeqCst);
}

// Has each hand flood its rows, all of them at once in threads.
fn flood_all<R: Threads + Sync>(rt: &R, board: &Board, shares: &mut [Share], rose: &AtomicU64)
    requires { All (IsShareOf board.now) shares.old }
    ensures { All (IsShareOf board.now) shares.new }
{
    for_each_mut(
        rt,
        shares,
        4,
        &|_, share: &mut Share|
            requires { IsShareOf board.now share.old }
            ensures { IsShareOf board.entry.now share.new }
        { flood_share(board, share, rose) },
    );
}

// The same again and again until no pixel rises, and says whether it came to that.
fn flood_until_grown<R: Threads + Sync>(
    rt: &R,
    board: &Board,
    shares: &mut [Share],
    found: &Found,
) -> bool
    requires { All (IsShareOf board.now) shares.old }
    ensures { All (IsShareOf board.now) shares.new }
{
    let mut is_grown = false;
    for _ in 0..MOST {
        let rose = AtomicU64::new(0);
        flood_all(rt, board, shares, &rose);
        if rose.load(Ordering::SeqCst) == 0 {
            is_grown = true;
            break;
        }
    }
    found.done.store(true, Ordering::SeqCst);
    is_grown
}

// Has each hand flood strips of three rows, all of them at once in threads, and says whether nothing is left to raise.
// Where there is no memory for the strips it says that nothing is known.
fn flood_strips<R: Threads + Sync>(
    rt: &R,
    alloc: Global,
    board: &Board,
    shares: &mut [Share],
    found: &Found,
) -> bool
    requires { All (IsShareOf board.now) shares.old }
    ensures { All (IsShareOf board.now) shares.new }
{
    let mut is_grown = false;
    if let Ok(strips) = board.strips(alloc, 3) {
        take_all(rt, board, &strips, shares);
        is_grown = strips.take(0, 1).is_none();
        drop(strips);
    }
    found.done.store(true, Ordering::SeqCst);
    is_grown
}

// Has each hand flood strips until it finds none.
fn take_all<R: Threads + Sync>(rt: &R, board: &Board, strips: &Strips, shares: &mut [Share])
    requires strips { IsStripsOf board.now strips.now }
    requires shares { All (IsShareOf board.now) shares.old }
    ensures { All (IsShareOf board.now) shares.new }
{
    for_each_mut(
        rt,
        shares,
        4,
        &|_, share: &mut Share|
            requires strips { IsStripsOf board.now strips.now }
            requires share { IsShareOf board.now share.old }
            ensures { IsShareOf board.entry.now share.new }
        { take_strips(board, strips, share) },
    );
}

// Floods strips, from that of the share's first row on.
fn take_strips(board: &Board, strips: &Strips, share: &mut Share)
    requires strips { IsStripsOf board.now strips.now }
    requires share { IsShareOf board.now share.old }
    ensures { IsShareOf board.now share.new }
{
    let near = (share.first / 3) as usize;
    share
        .hand
        .flood_strips(board, strips, near, 2, &mut share.draft);
}

// Has each hand grow from each pixel of its rows, all of them at once in threads, and says whether all has spread.
fn grow_all<R: Threads + Sync>(
    rt: &R,
    board: &Board,
    mask: &Grid,
    shares: &mut [Share],
    found: &Found,
) -> bool
    requires mask { mask_of (ground_of board.now) ≡ mask.now }
    requires shares { All (IsShareOf board.now) shares.old }
    ensures { All (IsShareOf board.now) shares.new }
{
    let left = AtomicU64::new(0);
    for_each_mut(
        rt,
        shares,
        4,
        &|_, share: &mut Share|
            requires mask { mask_of (ground_of board.now) ≡ mask.now }
            requires share { IsShareOf board.now share.old }
            ensures { IsShareOf board.entry.now share.new }
        { grow_share(board, mask, share, &left) },
    );
    found.done.store(true, Ordering::SeqCst);
    left.load(Ordering::SeqCst) == 0
}

fn grow_share(board: &Board, mask: &Grid, share: &mut Share, left: &AtomicU64)
    requires mask { mask_of (ground_of board.now) ≡ mask.now }
    requires share { IsShareOf board.now share.old }
    ensures { IsShareOf board.now share.new }
{
    let (first, end) = (share.first, share.end);
    for y in first..end {
        grow_along(board, mask, y, share, left);
    }
}

// Grows from each pixel of a row. The last number is how many rows were left.
fn grow_along(board: &Board, mask: &Grid, y: u32, share: &mut Share, left: &AtomicU64)
    requires mask { mask_of (ground_of board.now) ≡ mask.now }
    requires row { y < mask.now.height }
    requires share { IsShareOf board.now share.old }
    ensures { IsShareOf board.now share.new }
{
    for x in 0..mask.width() {
        let reach = share
            .hand
            .grow_from(board, &[Pixel { x, y }], &mut share.draft);
        let rows = reach.end.saturating_sub(reach.first);
        left.fetch_add(u64::from(rows), Ordering::SeqCst);
    }
}

// How the hands flood: their own rows again and again, strips, or from each pixel.
#[derive(Clone, Copy)]
enum Way {
    Rows,
    Strips,
    Pixels,
}

// Floods this way.
fn flood_by<R: Threads + Sync>(
    rt: &R,
    alloc: Global,
    board: &Board,
    mask: &Grid,
    shares: &mut [Share],
    found: &Found,
    way: Way,
) -> bool
    requires mask { mask_of (ground_of board.now) ≡ mask.now }
    requires shares { All (IsShareOf board.now) shares.old }
    ensures { All (IsShareOf board.now) shares.new }
{
    match way {
        Way::Rows => flood_until_grown(rt, board, shares, found),
        Way::Strips => flood_strips(rt, alloc, board, shares, found),
        Way::Pixels => grow_all(rt, board, mask, shares, found),
    }
}

// Floods with the peek beside it, and says whether the board is this image in the end, and was nowhere above it before.
fn grows_to<R: Threads + Sync>(
    rt: &R,
    alloc: Global,
    way: Way,
    board: &Board,
    flooders: &mut Flooders,
    mask: &Grid,
    grown: &Grid,
) -> bool
    requires flooders { AreFlooding board.now mask.now flooders.old }
    requires grown { IsBelow grown.now mask.now }
    ensures { AreFlooding board.now mask.now flooders.new }
{
    let found = Found::default();
    let (shares, peek) = (flooders.shares.as_mut_slice(), &mut flooders.peek);
    let (_, is_grown) = join_mut(
        rt,
        &mut ||
            requires peek { IsPeekOf board.now peek.now }
            requires grown { IsBelow grown.now (mask_of (ground_of board.now)) }
            ensures { IsPeekOf board.entry.now peek.exit.now }
        { watches(board, peek, grown, &found) },
        &mut || -> bool
            requires mask { mask_of (ground_of board.now) ≡ mask.now }
            requires shares { All (IsShareOf board.now) shares.now }
            ensures { All (IsShareOf board.entry.now) shares.exit.now }
        { flood_by(rt, alloc, board, mask, shares, &found, way) },
    );
    let same = found.same.load(Ordering::SeqCst);
    is_grown & (same == grown.cells().len() as u64) & (found.above.load(Ordering::SeqCst) == 0)
}

// Brings a marker with seeds so far apart, and floods.
fn steps<R: Threads + Sync>(
    rt: &R,
    alloc: Global,
    way: Way,
    board: &Board,
    flooders: &mut Flooders,
    mask: &Grid,
    conn: Conn,
    stride: usize,
) -> bool
    requires { AreFlooding board.now mask.now flooders.old }
    ensures { AreFlooding board.now mask.now flooders.new }
{
    let Some(marker) = marker_on(alloc, mask, stride) else {
        return false;
    };
    match slow(alloc, mask, &marker, conn) {
        Ok(grown) => {
            let is_brought = brings(board, &mut flooders.keeper, mask, marker);
            grown.is_below(mask)
                && grows_to(rt, alloc, way, board, flooders, mask, &grown) & is_brought
        }
        Err(_) => {
            drop(marker);
            false
        }
    }
}

// The same with each of the markers.
fn plays<R: Threads + Sync>(
    rt: &R,
    alloc: Global,
    way: Way,
    board: &Board,
    flooders: &mut Flooders,
    mask: &Grid,
    conn: Conn,
) -> bool
    requires { AreFlooding board.now mask.now flooders.old }
{
    let mut is_right = true;
    for stride in STRIDES {
        is_right = steps(rt, alloc, way, board, flooders, mask, conn, *stride) & is_right;
    }
    is_right
}

fn grows<R: Threads + Sync>(
    rt: &R,
    alloc: Global,
    way: Way,
    ground: Ground,
    conn: Conn,
    hands: usize,
) -> bool {
    let Some(mask) = ground.image(alloc) else {
        return false;
    };
    match seated(alloc, &mask, conn, hands) {
        Some((board, mut flooders)) => plays(
            rt,
            alloc,
            way,
            &board,
            &mut flooders,
            mask.grid(),
            conn,
        ),
        None => false,
    }
}

// Whether it does on both grounds, with one hand and with four.
fn ends_right<R: Threads + Sync>(rt: &R, alloc: Global, way: Way) -> bool {
    let mut is_right = true;
    for ground in [Ground::Noise, Ground::Corridor] {
        for conn in [Conn::Four, Conn::Eight] {
            for hands in [1, 4] {
                is_right = grows(rt, alloc, way, ground, conn, hands) & is_right;
            }
        }
    }
    is_right
}

#[test]
fn floods_end_on_what_grows(rt: HostRuntime) -> Result<(), Fail> {
    assert!(rt; ends_right(&rt, rt.alloc(), Way::Rows));
    Ok(())
}

#[test]
fn floods_of_strips_end_on_what_grows(rt: HostRuntime) -> Result<(), Fail> {
    assert!(rt; ends_right(&rt, rt.alloc(), Way::Strips));
    Ok(())
}

#[test]
fn pixels_grow_into_what_grows(rt: HostRuntime) -> Result<(), Fail> {
    assert!(rt; ends_right(&rt, rt.alloc(), Way::Pixels));
    Ok(())
}
