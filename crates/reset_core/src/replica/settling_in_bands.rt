//! Settling in bands of rows of tiles, each of which a thread of its own sweeps.

ghost use Rattle.std.specs.Prelude.{◌≡◌, ◌+◌, ◌<◌, ◌≤◌, ◌⊎◌, ℕ, length, IfOk, OnErr};
ghost use Rattle.core_rules.specs.Work.{IsQuiet};
ghost use Rattle.core_rules.specs.Runs.{NoneOut, IsDirty};
ghost use Rattle.core_rules.specs.Shown.{ShowsTheSame};
ghost use Rattle.tile_work.specs.TileSet.{Has};
ghost use Rattle.reset_core.specs.Answers.{IsRunCutShort, IsSliceInBands};
ghost use Rattle.reset_core.specs.Settling.{HasOnlySweeps};
ghost use Rattle.reset_core.specs.Bands.{AreSweptInto};

use super::Core;
use super::bands::{rows_of, sweep_bands};
use super::cutting::{cut_bands, put_back};
use super::sharing::{Shares, count_swept};
use crate::replica::settling::{Count, Slice};
use border_queues::laws::edges_are_open;
use core_rules::laws::{one_job_out_a_tile, run_changes_few_tiles};
use grid_core::Memory;
use std::alloc::Global;
use std::marker::Sync;
use std::thread::Threads;
use tile_work::TileSet;

// Fewer dirty tiles, or fewer jobs, are not worth a second thread.
const SHARED_TILES: usize = 64;

// At most how often a band sweeps tiles in a round that has an end, and at least how often in one that ends once a band
// has nothing left.
const SWEEPS_OF_BAND: u64 = 256;

// At most how often this thread sweeps tiles before the first round: most small edits end there.
const SWEEPS_BEFORE: u64 = 64;

// At most how often this thread sweeps tiles between two rounds.
const SWEEPS_BETWEEN: u64 = 32;

impl Core {
    /// Works like [`settle_within`](Core::settle_within), with the tiles swept by up to so many threads: the rows of
    /// tiles are cut into bands, each of which is swept by a thread of its own but for the tiles that touch another
    /// band, while this thread waits. So it goes on in rounds with other cuts while tiles are dirty. Where 64 are at
    /// first, the first round ends once a band has nothing left, so that none is waited for, and the second once all
    /// have. Where fewer are, this thread sweeps up to 64 times before the first round, and where there are not two for
    /// each band, or all dirty tiles lie along cuts, up to 32 times before the next one. With fewer than 64 jobs, and
    /// where memory for bands is wanting, it sweeps what is left.
    ///
    /// Which tiles are swept in which order is not said, and what comes of it is the same: the reconstruction, where no
    /// work is left. No more tiles are swept than there is work.
    ///
    /// Errors: out of memory, where a tile has still to be swept. The set has then the tiles that were swept, and no
    /// job is out. A core that is quiet takes no memory, nor does a slice of no jobs.
    pub fn settle_in_bands<R: Threads + Sync>(
        &mut self,
        rt: &R,
        alloc: Global,
        swept: &mut TileSet,
        threads: usize,
        jobs: u64,
    ) -> Result<Slice, Memory>
        requires { length swept.old ≡ length self.old.tiles }
        ensures slice { IfOk result (λ slice. IsSliceInBands self.old swept.old jobs slice self.new swept.new) }
        ensures cut_short { OnErr result (IsRunCutShort self.old swept.old self.new swept.new) }
        ensures some_work { OnErr result ((IsQuiet self.old → ⊥) × (0 < jobs)) }
        ensures none_out { NoneOut self.new }
        ensures unchanged { (t : ℕ) → (Has swept.new t → ⊥) → (IsDirty self.new t → ⊥)
            → ShowsTheSame self.old self.new t }
    {
        self.soundness();
        edges_are_open();
        one_job_out_a_tile();
        run_changes_few_tiles();
        let abandons = self.abandon_all();
        self.hand_all();
        let in_bands = self.sweep_in_bands(rt, alloc, swept, threads, jobs);
        let rest = self.sweep_within(alloc, swept, jobs - in_bands)?;
        let is_quiet = self.is_quiet();
        Ok(Slice {
            count: Count {
                jobs: in_bands + rest,
                abandons,
            },
            is_quiet,
        })
    }

    // Sweeps dirty tiles in bands, round after round, and says how often tiles were swept. Where there is nothing to
    // share it takes no memory.
    fn sweep_in_bands<R: Threads + Sync>(
        &mut self,
        rt: &R,
        alloc: Global,
        swept: &mut TileSet,
        threads: usize,
        jobs: u64,
    ) -> u64
        requires left { HasOnlySweeps self.old }
        requires count { length swept.old ≡ length self.old.tiles }
        ensures swept { AreSweptInto self.old swept.old self.new swept.new result }
        ensures at_most { result ≤ jobs }
        ensures some_dirty { (self.new ≡ self.old) ⊎ ((t : ℕ) × IsDirty self.old t) }
    {
        let rows = rows_of(&self.tiling());
        let bands = threads.min(rows as usize);
        if bands < 2 || jobs < SHARED_TILES as u64 {
            return 0;
        }
        let Some(_first) = self.next_dirty(0) else {
            return 0;
        };
        let Ok(mut shares) = Shares::new(alloc, rows, bands - 1) else {
            return 0;
        };
        let many = self.sweep_many(rt, alloc, swept, &mut shares, jobs);
        let few = self.sweep_few(alloc, swept, jobs - many);
        let rest = self.sweep_rounds(rt, alloc, swept, &mut shares, jobs - many - few);
        drop(shares);
        many + few + rest
    }

    // Where many tiles are dirty, sweeps them in two rounds, and says how often tiles were swept. The first one ends
    // once a band has nothing left, so that no thread waits long for the last one. The second has its cuts in the
    // middles of the first one's bands, and goes on until no tile is dirty that may be swept.
    fn sweep_many<R: Threads + Sync>(
        &mut self,
        rt: &R,
        alloc: Global,
        swept: &mut TileSet,
        shares: &mut Shares,
        jobs: u64,
    ) -> u64
        requires left { HasOnlySweeps self.old }
        requires count { length swept.old ≡ length self.old.tiles }
        ensures swept { AreSweptInto self.old swept.old self.new swept.new result }
        ensures at_most { result ≤ jobs }
    {
        if self.count_dirty(SHARED_TILES) < SHARED_TILES {
            return 0;
        }
        self.count_by_rows(&mut shares.dirty);
        shares.share_out();
        let first = self.round(
            rt,
            alloc,
            swept,
            &shares.cuts,
            &mut shares.swept,
            jobs,
            SWEEPS_OF_BAND,
        );
        if first == jobs {
            return first;
        }
        shares.move_to_middles(rows_of(&self.tiling()));
        first
            + self.round(
                rt,
                alloc,
                swept,
                &shares.cuts,
                &mut shares.swept,
                jobs - first,
                u64::MAX,
            )
    }

    // Where few tiles are dirty, sweeps up to 64 times in this thread, and says how often: none where memory is
    // wanting.
    fn sweep_few(&mut self, alloc: Global, swept: &mut TileSet, jobs: u64) -> u64
        requires left { HasOnlySweeps self.old }
        requires count { length swept.old ≡ length self.old.tiles }
        ensures swept { AreSweptInto self.old swept.old self.new swept.new result }
        ensures at_most { result ≤ jobs }
    {
        if self.count_dirty(SHARED_TILES) == SHARED_TILES {
            return 0;
        }
        self.sweep_alone(alloc, swept, jobs.min(SWEEPS_BEFORE))
    }

    // Sweeps dirty tiles round after round, and says how often tiles were swept. It stops where none is dirty, and
    // where memory is wanting.
    fn sweep_rounds<R: Threads + Sync>(
        &mut self,
        rt: &R,
        alloc: Global,
        swept: &mut TileSet,
        shares: &mut Shares,
        jobs: u64,
    ) -> u64
        requires left { HasOnlySweeps self.old }
        requires count { length swept.old ≡ length self.old.tiles }
        ensures swept { AreSweptInto self.old swept.old self.new swept.new result }
        ensures at_most { result ≤ jobs }
    {
        let mut done = 0;
        for _ in 0..jobs {
            if done == jobs || self.next_dirty(0).is_none() {
                return done;
            }
            let more = self.round_or_alone(rt, alloc, swept, shares, jobs - done);
            if more == 0 {
                return done;
            }
            done += more;
        }
        done
    }

    // Sweeps dirty tiles in bands, with cuts that run along few of them, and says how often tiles were swept. Where
    // there are not two for each band, where all touch cuts, and where memory for bands is wanting, it sweeps up to 32
    // times in this thread: not once where memory is wanting for that.
    fn round_or_alone<R: Threads + Sync>(
        &mut self,
        rt: &R,
        alloc: Global,
        swept: &mut TileSet,
        shares: &mut Shares,
        jobs: u64,
    ) -> u64
        requires left { HasOnlySweeps self.old }
        requires count { length swept.old ≡ length self.old.tiles }
        ensures swept { AreSweptInto self.old swept.old self.new swept.new result }
        ensures at_most { result ≤ jobs }
    {
        let bands = (shares.cuts.len() as u64).saturating_add(1);
        if self.count_by_rows(&mut shares.dirty) / 2 < bands {
            return self.sweep_alone(alloc, swept, jobs.min(SWEEPS_BETWEEN));
        }
        shares.share_out_beside_few(rows_of(&self.tiling()));
        let most = SWEEPS_OF_BAND.saturating_mul(bands).min(jobs);
        let in_bands = self.round(
            rt,
            alloc,
            swept,
            &shares.cuts,
            &mut shares.swept,
            most,
            u64::MAX,
        );
        if in_bands > 0 {
            return in_bands;
        }
        self.sweep_alone(alloc, swept, jobs.min(SWEEPS_BETWEEN))
    }

    // Sweeps the least dirty tile again and again in this thread, and says how often: none where memory is wanting.
    fn sweep_alone(&mut self, alloc: Global, swept: &mut TileSet, jobs: u64) -> u64
        requires left { HasOnlySweeps self.old }
        requires count { length swept.old ≡ length self.old.tiles }
        ensures swept { AreSweptInto self.old swept.old self.new swept.new result }
        ensures at_most { result ≤ jobs }
    {
        let Ok(done) = self.sweep_within(alloc, swept, jobs) else {
            return 0;
        };
        done
    }

    // Sweeps dirty tiles in bands that begin at these rows of tiles, each with its share of the jobs, and says how
    // often tiles were swept: none where memory for the bands is wanting. It counts how many tiles of each row were. A
    // band that has swept so often, `least`, ends once another one has nothing left.
    fn round<R: Threads + Sync>(
        &mut self,
        rt: &R,
        alloc: Global,
        swept: &mut TileSet,
        cuts: &[u32],
        by_rows: &mut [u32],
        jobs: u64,
        least: u64,
    ) -> u64
        requires left { HasOnlySweeps self.old }
        requires count { length swept.old ≡ length self.old.tiles }
        ensures swept { AreSweptInto self.old swept.old self.new swept.new result }
        ensures at_most { result ≤ jobs }
    {
        edges_are_open();
        let tiling = self.markers.tiling();
        let limit = jobs / (cuts.len() as u64 + 1);
        let cut = cut_bands(
            alloc,
            &tiling,
            self.conn,
            &self.work,
            &self.bounds,
            cuts,
            limit,
            least,
        );
        let Ok(mut bands) = cut else {
            return 0;
        };
        let mask = self.markers.mask().cells();
        sweep_bands(rt, &tiling, 0, mask, self.image.cells_mut(), &mut bands);
        let swept_jobs = put_back(&tiling, &bands, &mut self.work, &mut self.bounds, swept);
        self.serial = self.serial.wrapping_add(swept_jobs);
        count_swept(&bands, by_rows);
        drop(bands);
        swept_jobs
    }

    // How many tiles are dirty, or `most`, where more are.
    fn count_dirty(&self, most: usize) -> usize
        ensures { 0 < result → (t : ℕ) × IsDirty self.now t }
    {
        // For its clause alone: the number of tiles is a usize.
        let _ = self.tiles();
        let mut from = 0;
        for count in 0..most {
            let Some(tile) = self.next_dirty(from) else {
                return count;
            };
            from = tile + 1;
        }
        most
    }
}
