//! Cores that settle in bands of rows of tiles, in threads, beside cores that settle in one and the slow program.

ghost use Rattle.std.specs.Prelude.{◌<◌};

use crate::cores::owed;
use crate::played::{Outcome, told};
use crate::tiles::is_on;
use grid_core::{Conn, Grid, Pixel};
use reset_core::{Core, Slice, TileSet};
use std::alloc::Global;
use std::marker::Sync;
use std::test::Fail;
use std::thread::Threads;
use stroke_core::{Stroke, Tag};
use stroke_lattice::State;

// How cores are opened, and how the one settles that does so in bands: columns and rows of the mask, whether it is a
// comb, who are neighbours, so many discs an edit, the side of the tiles, so many threads, and so many jobs a slice.
#[derive(Clone, Copy)]
struct Way {
    columns: u32,
    rows: u32,
    is_comb: bool,
    conn: Conn,
    discs: u32,
    side: u32,
    threads: usize,
    jobs: u64,
}

// Twelve rows of thirteen tiles.
const SMALL: Way = Way {
    columns: 100,
    rows: 90,
    is_comb: false,
    conn: Conn::Four,
    discs: 90,
    side: 8,
    threads: 3,
    jobs: u64::MAX,
};

// Nine rows of nine tiles.
const LARGE: Way = Way {
    columns: 540,
    rows: 530,
    is_comb: false,
    conn: Conn::Eight,
    discs: 90,
    side: 64,
    threads: 3,
    jobs: u64::MAX,
};

// Sixty rows of twelve tiles, into which light comes from one place, so that few tiles are dirty at a time.
const TALL: Way = Way {
    columns: 96,
    rows: 480,
    is_comb: true,
    conn: Conn::Four,
    discs: 1,
    side: 8,
    threads: 4,
    jobs: u64::MAX,
};

// Numbers that look random (Steele, Lea and Flood).
#[derive(Clone, Copy)]
struct Dice(u64);

impl Dice {
    fn roll(&mut self) -> u64 {
        self.0 = self.0.wrapping_add(0x9e37_79b9_7f4a_7c15);
        let mixed = (self.0 ^ (self.0 >> 30)).wrapping_mul(0xbf58_476d_1ce4_e5b9);
        let mixed = (mixed ^ (mixed >> 27)).wrapping_mul(0x94d0_49bb_1331_11eb);
        mixed ^ (mixed >> 31)
    }

    // A number from 0 to the last one.
    fn up_to(&mut self, last: u16) -> u16 {
        (self.roll() % (u64::from(last) + 1)) as u16
    }
}

// A column or a row as a stroke has it.
fn short(place: u32) -> u16 {
    u16::try_from(place).unwrap_or(u16::MAX)
}

// A mask in which light of low levels comes far, or a comb.
fn mask_of(alloc: Global, way: &Way) -> Option<Grid> {
    let mut mask = Grid::new(alloc, way.columns, way.rows, 0).ok()?;
    if way.is_comb {
        comb(mask.cells_mut(), way.columns.max(1) as usize);
    } else {
        let mut dice = Dice(7);
        for cell in mask.cells_mut() {
            *cell = dice.up_to(9);
        }
    }
    Some(mask)
}

// Each second row is bright, and the first column, which joins them.
fn comb(cells: &mut [u16], columns: usize)
    requires { 0 < columns }
{
    for place in 0..cells.len() {
        let is_tooth = place / columns % 2 == 0;
        cells[place] = if is_tooth || place % columns == 0 {
            9
        } else {
            0
        };
    }
}

fn core_of(alloc: Global, way: &Way) -> Option<Box<Core>> {
    let mask = mask_of(alloc, way)?;
    let core = Core::over(alloc, mask, way.conn, way.side, 0).ok()?;
    Box::new(alloc, core).ok()
}

// Two cores of one mask that take the same strokes, of which one settles in bands and the other in one thread; the
// tiles that a slice in bands swept, and how many strokes there were.
#[derive(Drop)]
struct Pair {
    alloc: Global,
    way: Way,
    dice: Dice,
    banded: Box<Core>,
    alone: Box<Core>,
    swept: TileSet,
    strokes: u128,
}

impl Pair {
    fn open(alloc: Global, way: Way) -> Option<Pair> {
        let banded = core_of(alloc, &way)?;
        let alone = core_of(alloc, &way)?;
        let swept = TileSet::empty(alloc, banded.tiles()).ok()?;
        Some(Pair {
            alloc,
            way,
            dice: Dice(1),
            banded,
            alone,
            swept,
            strokes: 0,
        })
    }

    // A disc somewhere, about a tile wide.
    fn disc(&mut self) -> Option<State> {
        let x = self.dice.up_to(short(self.way.columns).saturating_sub(1));
        let y = self.dice.up_to(short(self.way.rows).saturating_sub(1));
        let radius = self.dice.up_to(short(self.way.side / 2));
        let level = self.dice.up_to(9).max(1);
        let stroke = Stroke::disc(u32::from(level), x, y, u32::from(radius)).ok()?;
        self.strokes = self.strokes.wrapping_add(1);
        State::placed(self.alloc, Tag(self.strokes), stroke).ok()
    }

    // So many discs.
    fn discs(&mut self, count: u32) -> Option<State> {
        let mut all = State::empty(self.alloc).ok()?;
        for _ in 0..count {
            let one = self.disc()?;
            all.merge(self.alloc, &one).ok()?;
        }
        Some(all)
    }

    // Withdrawals of about half the strokes so far.
    fn withdrawals(&mut self) -> Option<State> {
        let mut all = State::empty(self.alloc).ok()?;
        for tag in 1..=self.strokes {
            if self.dice.up_to(1) == 0 {
                let one = State::withdrawn(self.alloc, Tag(tag)).ok()?;
                all.merge(self.alloc, &one).ok()?;
            }
        }
        Some(all)
    }

    // Has both cores take the edit of this number: each second one withdraws strokes, and the others place some.
    fn edit(&mut self, number: u32) -> Option<()> {
        let delta = if number % 2 == 0 {
            self.withdrawals()?
        } else {
            self.discs(self.way.discs)?
        };
        self.banded.merge(self.alloc, &delta).ok()?;
        self.alone.merge(self.alloc, &delta).ok()?;
        Some(())
    }

    // Has the core that settles in bands give out jobs of two tiles that are dirty, of which one comes back, so that
    // hints wait.
    fn give_out(&mut self) -> Option<()> {
        let Some(first) = self.banded.next_dirty(0) else {
            return Some(());
        };
        let job = self.banded.take(self.alloc, first).ok()??;
        let swept = job.sweep(self.alloc).ok()?;
        self.banded.give_back(self.alloc, swept).ok()?;
        if let Some(second) = self.banded.next_dirty(0) {
            self.banded.take(self.alloc, second).ok()??;
        }
        Some(())
    }

    // One attempt at a slice of settling in bands.
    fn attempt<R: Threads + Sync>(&mut self, rt: &R) -> Option<Slice> {
        let (threads, jobs) = (self.way.threads, self.way.jobs);
        if self.swept.len() != self.banded.tiles() {
            return None;
        }
        self.banded
            .settle_in_bands(rt, self.alloc, &mut self.swept, threads, jobs)
            .ok()
    }

    // A slice of settling in bands, with one more attempt where memory was wanting.
    fn slice<R: Threads + Sync>(&mut self, rt: &R) -> Option<Slice> {
        match self.attempt(rt) {
            Some(slice) => Some(slice),
            None => self.attempt(rt),
        }
    }

    // Whether a tile is in the set, or dirty.
    fn is_told(&self, tile: usize) -> bool {
        let is_swept = tile < self.swept.len() && self.swept.contains(tile);
        is_swept || tile < self.banded.tiles() && self.banded.is_dirty(tile)
    }

    // Whether each tile that shows something else than before is in the set, or dirty.
    fn are_told(&self, before: &Grid) -> bool {
        let (tiling, now) = (self.banded.tiling(), self.banded.image());
        if !is_on(before, &tiling) || !is_on(now, &tiling) {
            return false;
        }
        for y in 0..tiling.height() {
            for x in 0..tiling.width() {
                let p = Pixel { x, y };
                if before.get(p) != now.get(p) && !self.is_told(tiling.tile_of(p)) {
                    return false;
                }
            }
        }
        true
    }

    // Whether the one core settles in bands, slice after slice, where each slice keeps to its limit and tells what it
    // changed. Nothing where there is no memory to see that.
    fn settles_in_bands<R: Threads + Sync>(&mut self, rt: &R) -> Option<bool> {
        for _ in 0..10_000 {
            let before = self.banded.image().copy(self.alloc).ok()?;
            self.swept.clear();
            let Some(slice) = self.slice(rt) else {
                return Some(false);
            };
            if slice.count.jobs > self.way.jobs || !self.are_told(&before) {
                return Some(false);
            }
            if slice.is_quiet {
                return Some(self.banded.is_quiet());
            }
        }
        Some(false)
    }

    // Whether both cores settle, and show the same then.
    fn settles<R: Threads + Sync>(&mut self, rt: &R) -> Option<bool> {
        let is_settled = self.settles_in_bands(rt)?;
        let was_refused = self.alone.settle(self.alloc).is_err();
        if was_refused && self.alone.settle(self.alloc).is_err() {
            return Some(false);
        }
        Some(is_settled && self.banded.image().is_same(self.alone.image()))
    }

    // Whether both cores are right after so many edits, after each of which they settle, and show in the end what the
    // slow program makes of the strokes. Nothing where there is no memory for that.
    fn plays<R: Threads + Sync>(&mut self, rt: &R, edits: u32) -> Option<bool> {
        for number in 1..=edits {
            self.edit(number)?;
            self.give_out()?;
            if !self.settles(rt)? {
                return Some(false);
            }
        }
        Some(owed(self.alloc, &self.banded)? == 0)
    }
}

// What becomes of so many edits.
fn played<R: Threads + Sync>(rt: &R, alloc: Global, way: Way, edits: u32) -> Outcome {
    let Some(mut pair) = Pair::open(alloc, way) else {
        return Outcome::NoMemory;
    };
    match pair.plays(rt, edits) {
        Some(true) => Outcome::Right,
        Some(false) => Outcome::Wrong(edits as usize),
        None => Outcome::NoMemory,
    }
}

#[test]
fn cores_settle_in_bands_as_in_one_thread(rt: HostRuntime) -> Result<(), Fail> {
    for conn in [Conn::Four, Conn::Eight] {
        for threads in [1, 2, 3, 40] {
            let way = Way {
                conn,
                threads,
                ..SMALL
            };
            told("bands", played(&rt, rt.alloc(), way, 3))?;
        }
    }
    Ok(())
}

#[test]
fn slices_in_bands_keep_to_their_limits(rt: HostRuntime) -> Result<(), Fail> {
    for jobs in [20, 64, 150] {
        told("slices", played(&rt, rt.alloc(), Way { jobs, ..SMALL }, 3))?;
    }
    Ok(())
}

#[test]
fn cores_of_large_tiles_settle_in_bands(rt: HostRuntime) -> Result<(), Fail> {
    told("large tiles", played(&rt, rt.alloc(), LARGE, 3))
}

#[test]
fn cores_of_few_dirty_tiles_settle_in_bands(rt: HostRuntime) -> Result<(), Fail> {
    for conn in [Conn::Four, Conn::Eight] {
        for threads in [2, 4, 7] {
            let way = Way {
                conn,
                threads,
                ..TALL
            };
            told("few dirty tiles", played(&rt, rt.alloc(), way, 5))?;
        }
    }
    Ok(())
}

#[test]
fn a_core_settles_in_bands_tried_again(rt: HostRuntime) -> Result<(), Fail> {
    told("bands", played(&rt, rt.alloc(), SMALL, 1))
}
