//! A core, what happens to it, line by line, and what it shows then.

ghost use Rattle.std.specs.Prelude.{⊤};

use crate::pictures::{Mask, are_cells, are_tiles, image_of};
use crate::played::Stage;
use crate::states::state_of;
use crate::sums::{START, with_core, with_state};
use grid_core::{Conn, Grid};
use marker_tiles::marker;
use raster_sweeps::slow;
use reset_core::{Back, Core, CoreError, Handed, Step, TILE_SIDE};
use std::alloc::Global;
use std::marker::Model;
use stroke_core::Tag;
use stroke_lattice::State;
use tile_generations::{Job, MAX_GENERATION, Swept};

/// What happens, with what is answered to it, or what is shown. Results are counted from 0.
#[derive(Clone, Copy)]
pub enum Line {
    /// The join of these edits is merged.
    Merge(&'static str),
    /// It is not, for the reason of this code, and all is as before.
    Refuse(&'static str, &'static str),
    /// This tile gives a job of this generation, whose result is kept as the next one.
    Take(usize, u64),
    /// A copy of this result is given back.
    Return(usize, Back),
    /// A result of tile 0 of a core under eight neighbours, with the same mask and the same strokes, is a stranger.
    ReturnForeign,
    /// The hint at this place of this tile's inbox is handed over.
    Hand(usize, usize, Handed),
    /// The core settles by so many jobs, and abandons so many.
    Settle(u64, u64),
    /// A schedule in which a result that was abandoned comes late takes two jobs, and abandons one.
    RunLate,
    /// So much of what grows from the strokes is lacking.
    Owes(u64),
    /// The image has these values, each so often.
    Image(&'static [(usize, u16)]),
    /// The image has these values.
    Cells(&'static [u16]),
    /// Exactly these tiles were reset, once, exactly these are to be swept, and none is out.
    Tiles(&'static [usize], &'static [usize]),
    /// So many hints wait for this tile.
    Waiting(usize, usize),
    /// Whether the stroke of this tag is live.
    Live(u128, bool),
}

/// A core, and the results of its jobs.
#[derive(Drop)]
pub struct CoreStage {
    alloc: Global,
    core: Box<Core>,
    results: Vec<Swept>,
}

impl Model for CoreStage {
    ghost Value = { ⊤ };

    ghost view = { λ _. tt };
}

// The result of a job. Where memory is wanting the job comes back, and is swept once more.
fn swept_of(alloc: Global, job: Job) -> Option<Swept> {
    match job.sweep(alloc) {
        Ok(swept) => Some(swept),
        Err((job, _)) => job.sweep(alloc).ok(),
    }
}

// The result of tile 0 of a core that takes these strokes.
fn first_swept(alloc: Global, core: &mut Core, strokes: &State) -> Option<Swept> {
    if core.merge(alloc, strokes).err().is_some() {
        return None;
    }
    match core.take(alloc, 0) {
        Ok(Some(job)) => swept_of(alloc, job),
        _ => None,
    }
}

// The same of a core of this mask under eight neighbours.
fn foreign_swept(alloc: Global, mask: &Grid, strokes: &State) -> Option<Swept> {
    let mask = mask.copy(alloc).ok()?;
    let mut core = Core::over(alloc, mask, Conn::Eight, TILE_SIDE, 0).ok()?;
    let swept = first_swept(alloc, &mut core, strokes);
    drop(core);
    swept
}

/// How far the image is from what grows from the strokes, in all.
pub fn owed(alloc: Global, core: &Core) -> Option<u64> {
    let mask = core.mask();
    if core.state().outside(mask.width(), mask.height()).is_some() {
        return None;
    }
    let marker = marker(alloc, mask, core.state()).ok()?;
    let grown = slow(alloc, mask, &marker, core.conn()).ok()?;
    let mut owed: u64 = 0;
    for (cell, so_far) in grown.cells().iter().zip(core.image().cells()) {
        owed = owed.saturating_add(u64::from(cell.abs_diff(*so_far)));
    }
    Some(owed)
}

impl CoreStage {
    /// A core with tiles of this side, whose generations begin at `first`.
    pub fn open(
        alloc: Global,
        mask: &Mask<'_>,
        conn: Conn,
        side: u32,
        first: u64,
    ) -> Option<CoreStage> {
        let mask = image_of(alloc, mask)?;
        let first = first.min(MAX_GENERATION);
        let core = match side {
            TILE_SIDE => Core::open_at(alloc, &mask, conn, first),
            _ => Core::open_tiled(alloc, &mask, conn, side, first),
        };
        drop(mask);
        CoreStage::over(alloc, core.ok()?)
    }

    // Of a core, where there is memory.
    fn over(alloc: Global, core: Core) -> Option<CoreStage> {
        let core = Box::new(alloc, core).ok()?;
        Some(CoreStage {
            alloc,
            core,
            results: Vec::new(alloc),
        })
    }

    fn merge(&mut self, edits: &str, code: &str) -> Option<bool> {
        let delta = state_of(self.alloc, edits)?;
        let before = self.sum();
        let refusal = self.core.merge(self.alloc, &delta).err();
        drop(delta);
        match refusal {
            None => Some(code.is_empty()),
            Some(CoreError::Memory) => None,
            Some(why) => Some(code == why.code() && self.sum() == before),
        }
    }

    fn take(&mut self, tile: usize, generation: u64) -> Option<bool> {
        self.results.reserve(1).ok()?;
        match self.core.take(self.alloc, tile) {
            Ok(Some(job)) => self.keep(job, generation),
            Ok(None) => Some(false),
            Err(_) => None,
        }
    }

    // Keeps the result of a job. Whether that is of this generation.
    fn keep(&mut self, job: Job, generation: u64) -> Option<bool> {
        let is_right = job.ticket().generation == generation;
        let swept = swept_of(self.alloc, job)?;
        self.results.push(swept).ok()?;
        Some(is_right)
    }

    fn give_back(&mut self, swept: Swept, back: Back) -> Option<bool> {
        let answer = self.core.give_back(self.alloc, swept).ok()?;
        Some(answer == back)
    }

    fn return_copy(&mut self, place: usize, back: Back) -> Option<bool> {
        let copy = self.results.get(place)?.copy(self.alloc).ok()?;
        self.give_back(copy, back)
    }

    fn return_foreign(&mut self) -> Option<bool> {
        let swept = foreign_swept(self.alloc, self.core.mask(), self.core.state())?;
        self.give_back(swept, Back::Stranger)
    }

    // Whether the core settles by so many jobs, and abandons so many. Where memory is wanting, the strokes are as
    // before, no job is out, and it settles then by no more jobs.
    fn settle(&mut self, jobs: u64, abandons: u64) -> Option<bool> {
        let strokes = with_state(START, self.core.state());
        match self.core.settle(self.alloc) {
            Ok(count) => Some(count.jobs == jobs && count.abandons == abandons),
            Err(_) => {
                let is_kept = with_state(START, self.core.state()) == strokes;
                let count = self.core.settle(self.alloc).ok()?;
                Some(is_kept && count.jobs <= jobs && count.abandons == 0)
            }
        }
    }

    fn run_late(&mut self) -> Option<bool> {
        let steps = [
            Step::Take(0),
            Step::Abandon(0),
            Step::Take(0),
            Step::Return(1),
            Step::Return(0),
            Step::Hand(1, 0),
        ];
        let ran = self.core.run_schedule(self.alloc, &steps).ok()?;
        let has_no_edit = ran.accepted().is_empty() && ran.refused().is_empty();
        Some(ran.jobs() == 2 && ran.abandons() == 1 && has_no_edit)
    }

    // Whether a job or a hint goes as a line says, or it shows what that says.
    fn moves(&mut self, line: &Line) -> Option<bool> {
        match line {
            Line::Take(tile, generation) => self.take(*tile, *generation),
            Line::Return(place, back) => self.return_copy(*place, *back),
            Line::ReturnForeign => self.return_foreign(),
            Line::Hand(tile, place, handed) => Some(self.core.hand(*tile, *place) == *handed),
            _ => Some(self.shows(line)),
        }
    }

    fn shows(&self, line: &Line) -> bool {
        let core = &self.core;
        match line {
            Line::Image(spans) => are_cells(core.image().cells(), spans),
            Line::Cells(values) => core.image().cells() == *values,
            Line::Tiles(reset, dirty) => are_tiles(core, reset, dirty),
            Line::Waiting(tile, hints) => { *tile < core.tiles() && core.waiting(*tile) == *hints }
            Line::Live(tag, is_live) => core.state().is_live(Tag(*tag)) == *is_live,
            _ => false,
        }
    }
}

impl Stage<Line> for CoreStage {
    fn sum(&self) -> u64 {
        with_core(START, &self.core)
    }

    fn play(&mut self, line: &Line) -> Option<bool> {
        match line {
            Line::Merge(edits) => self.merge(edits, ""),
            Line::Refuse(edits, why) => self.merge(edits, why),
            Line::Settle(jobs, abandons) => self.settle(*jobs, *abandons),
            Line::RunLate => self.run_late(),
            Line::Owes(amount) => Some(owed(self.alloc, &self.core)? == *amount),
            _ => self.moves(line),
        }
    }
}
