//! Settling: working until nothing is left to do, or for so many jobs.

ghost use Rattle.std.specs.Prelude.{◌≡◌, ◌+◌, ◌^◌, ◌<◌, ◌≤◌, ℕ, List, length, IfOk, OnErr};
ghost use Rattle.border_queues.specs.Waiting.{places};
ghost use Rattle.border_queues.specs.OpenEdges.{room_for_edges};
ghost use Rattle.core_rules.specs.Work.{IsQuiet, tiling};
ghost use Rattle.core_rules.specs.Runs.{Entry, IsRun, IsCutShort, NoneOut, HasHints, IsDirty, abandoned, tickets_out};
ghost use Rattle.core_rules.specs.Shown.{ShowsTheSame};
ghost use Rattle.tile_work.specs.TileSet.{Has, HasGained};
ghost use Rattle.reset_core.specs.Answers.{IsSettledBy, IsSlice, IsSliceCutShort};
ghost use Rattle.reset_core.specs.Settling.{AreHanded, IsFirstAbandoned, IsFirstHanded, IsAllWorkedOff, HasOnlySweeps};
ghost use Rattle.reset_core.specs.Settling.{AreWorkedOffWithin};

use super::Core;
use super::in_place::inbox_for;
use border_queues::Inbox;
use core_rules::laws::{
    one_job_out_a_tile, settling_changes_few_tiles, settling_is_within_work,
    settling_so_far_is_within_work,
};
use grid_core::Memory;
use raster_sweeps::Room;
use std::alloc::Global;
use tile_work::TileSet;

/// What settling took.
#[derive(Clone, Copy, Debug, PartialEq, Eq)]
pub struct Count {
    /// How many tiles were swept, each as often as it was.
    pub jobs: u64,
    /// How many jobs were out at the start. They were abandoned.
    pub abandons: u64,
}

/// What a slice of settling took, and what it left.
#[derive(Clone, Copy, Debug, PartialEq, Eq)]
pub struct Slice {
    /// What it took.
    pub count: Count,
    /// Whether no work is left.
    pub is_quiet: bool,
}

impl Core {
    /// Works until no work is left. The image is then the reconstruction of the mask from the marker of the strokes.
    ///
    /// Each job that is out is abandoned. Then, again and again, each waiting hint is handed over, tile by tile, and
    /// the first dirty tile is swept: from where something open can begin, and no more of it is looked at.
    ///
    /// No more tiles are swept than there is work: one for each tile that was dirty, one for each unit that the image
    /// lacked of the reconstruction in all, and one for each job that was abandoned.
    ///
    /// Errors: out of memory, where a tile has still to be swept. The core is then as the first of these steps have
    /// left it, and no job is out. A core that is quiet takes no memory.
    pub fn settle(&mut self, alloc: Global) -> Result<Count, Memory>
        ensures settled { IfOk result (λ count. IsSettledBy self.old count self.new) }
        ensures cut_short { OnErr result ((log : List Entry) × IsCutShort self.old log self.new) }
        ensures some_work { OnErr result (IsQuiet self.old → ⊥) }
    {
        self.soundness();
        settling_is_within_work();
        one_job_out_a_tile();
        let abandons = self.abandon_all();
        self.hand_all();
        let jobs = self.sweep_all(alloc)?;
        Ok(Count { jobs, abandons })
    }

    /// Works like [`settle`](Core::settle), but sweeps no more than `jobs` tiles, puts each tile that it sweeps into
    /// the set, and says whether no work is left. Slice after slice until then it does what `settle` does at once.
    ///
    /// A tile that is neither in the set nor dirty afterwards shows what it showed. A tile that is dirty and not in the
    /// set can have pixels that hints raised; it is swept, and put into the set, by a later slice.
    /// [`add_dirty`](Core::add_dirty) adds those tiles too.
    ///
    /// Where nothing but slices works on the core, no job is out and no hint waits, so that a slice begins with two
    /// looks at empty sets.
    ///
    /// Errors: out of memory, where a tile has still to be swept. The set has then the tiles that were swept, and no
    /// job is out. A core that is quiet takes no memory, nor does a slice of no jobs.
    pub fn settle_within(
        &mut self,
        alloc: Global,
        swept: &mut TileSet,
        jobs: u64,
    ) -> Result<Slice, Memory>
        requires { length swept.old ≡ length self.old.tiles }
        ensures slice { IfOk result (λ slice. IsSlice self.old swept.old jobs slice self.new swept.new) }
        ensures cut_short { OnErr result (IsSliceCutShort self.old swept.old self.new swept.new) }
        ensures some_work { OnErr result ((IsQuiet self.old → ⊥) × (0 < jobs)) }
        ensures none_out { NoneOut self.new }
        ensures unchanged { (t : ℕ) → (Has swept.new t → ⊥) → (IsDirty self.new t → ⊥)
            → ShowsTheSame self.old self.new t }
    {
        self.soundness();
        settling_so_far_is_within_work();
        settling_changes_few_tiles();
        one_job_out_a_tile();
        let abandons = self.abandon_all();
        self.hand_all();
        let jobs = self.sweep_within(alloc, swept, jobs)?;
        let is_quiet = self.is_quiet();
        Ok(Slice {
            count: Count { jobs, abandons },
            is_quiet,
        })
    }

    /// Puts each dirty tile into the set, 64 tiles a step. It takes no memory.
    ///
    /// Each tile that a merge changed is dirty then.
    pub fn add_dirty(&self, set: &mut TileSet)
        requires { length set.old ≡ length self.now.tiles }
        ensures { HasGained set.old (IsDirty self.now) set.new }
    {
        self.work.add_dirty(set);
    }

    /// Abandons each job that is out, tile by tile, and says how many there were. It takes no memory.
    pub fn abandon_all(&mut self) -> u64
        ensures clears { IsRun self.old (abandoned (tickets_out 0 self.old.tiles)) self.new }
        ensures none_out { NoneOut self.new }
        ensures count { result ≡ length (tickets_out 0 self.old.tiles) }
    {
        // For its clause alone: there are no more tiles than a `usize` counts.
        let _ = self.tiles();
        let mut abandons = 0;
        while self.abandon_first() {
            abandons += 1;
        }
        abandons
    }

    // Abandons the first job that is out, and says whether there was one.
    fn abandon_first(&mut self) -> bool
        ensures first { IsFirstAbandoned self.old result self.new }
        ensures few { length (tickets_out 0 self.old.tiles) ≤ length self.old.tiles }
    {
        match self.work.first_out() {
            Some(tile) => {
                self.work.abandon(tile);
                true
            }
            None => false,
        }
    }

    // Hands over each waiting hint, tile by tile.
    pub(super) fn hand_all(&mut self)
        requires { NoneOut self.old }
        ensures handed { AreHanded self.old self.new }
        ensures no_hints { (u : ℕ) → HasHints self.new u → ⊥ }
    {
        while self.hand_first() {}
    }

    // Hands over the first hint of the first tile where one waits, and says whether there was one.
    fn hand_first(&mut self) -> bool
        requires { NoneOut self.old }
        ensures { IsFirstHanded self.old result self.new }
    {
        match self.work.first_waiting() {
            Some(tile) => {
                let _handed = self.hand(tile, 0);
                true
            }
            None => false,
        }
    }

    // Sweeps dirty tiles until none is left, and says how often. Where none is, it takes no memory.
    //
    // Errors: out of memory, where a tile is dirty, and the core is as it was.
    fn sweep_all(&mut self, alloc: Global) -> Result<u64, Memory>
        requires { HasOnlySweeps self.old }
        ensures works { IfOk result (λ jobs. IsAllWorkedOff self.old jobs self.new) }
        ensures dirty { OnErr result ((t : ℕ) × IsDirty self.old t) }
        ensures err { OnErr result (self.new ≡ self.old) }
    {
        let Some(_first) = self.work.first_dirty() else {
            return Ok(0);
        };
        let mut swept = TileSet::empty(alloc, self.tiles())?;
        self.sweep_within(alloc, &mut swept, u64::MAX)
    }

    // Sweeps dirty tiles until none is left or so many were swept, puts each into the set, and says how often. Where
    // none is dirty, it takes no memory.
    //
    // Errors: out of memory, where a tile is dirty and may be swept, and core and set are as they were.
    pub(super) fn sweep_within(
        &mut self,
        alloc: Global,
        swept: &mut TileSet,
        limit: u64,
    ) -> Result<u64, Memory>
        requires left { HasOnlySweeps self.old }
        requires count { length swept.old ≡ length self.old.tiles }
        ensures works { IfOk result (AreWorkedOffWithin limit self.old swept.old self.new swept.new) }
        ensures few { IfOk result (λ jobs. jobs + 1 < 2 ^ 64) }
        ensures dirty { OnErr result (((t : ℕ) × IsDirty self.old t) × (0 < limit)) }
        ensures err { OnErr result ((self.new ≡ self.old) × (swept.new ≡ swept.old)) }
    {
        if limit == 0 {
            return Ok(0);
        }
        let Some(_first) = self.work.first_dirty() else {
            return Ok(0);
        };
        let tiling = self.tiling();
        let mut told = inbox_for(alloc, &tiling)?;
        let mut room = Room::new(alloc, tiling.side() * tiling.side())?;
        let jobs = self.work_off_within(&mut room, &mut told, swept, limit);
        drop(told);
        drop(room);
        Ok(jobs)
    }

    // Sweeps the first dirty tile in place until none is dirty or so many were swept, puts each into the set, and says
    // how often.
    fn work_off_within(
        &mut self,
        room: &mut Room,
        told: &mut Inbox,
        swept: &mut TileSet,
        limit: u64,
    ) -> u64
        requires left { HasOnlySweeps self.old }
        requires count { length swept.old ≡ length self.old.tiles }
        requires enough { room_for_edges (tiling self.old) ≤ places told.old }
        ensures works { AreWorkedOffWithin limit self.old swept.old self.new swept.new result }
        ensures few { result + 1 < 2 ^ 64 }
    {
        // For their clauses alone: tiles and image are as large as the mask says, so that the jobs can be counted.
        let _ = self.tiling();
        let _ = self.image();
        for jobs in 0..limit {
            let Some(tile) = self.work.first_dirty() else {
                return jobs;
            };
            self.work_off(tile, room, told);
            swept.insert(tile);
        }
        limit
    }
}
