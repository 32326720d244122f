//! The table of the work that is left at each tile.

mod along;
mod beside;
mod cutting;
mod delivery;
mod row;

ghost use Rattle.std.specs.Prelude.{◌≡◌, ◌+◌, ◌-◌, ◌<◌, ◌≤◌, ◌↔◌, ℕ, true, false, [], length, remove, replicate};
ghost use Rattle.std.specs.Prelude.{slice_get, slice_set, All, Some, None, MatchOption, IfOk, OnOk, OnErr, IsTrue};
ghost use Rattle.grid_core.specs.Tiles.{count_of};
ghost use Rattle.tile_generations.specs.Generations.{max_generation};
ghost use Rattle.border_queues.specs.TileWork.{IsIdle, fresh, reset_work, IsLeast, work_of};
ghost use Rattle.tile_work.specs.Least.{IsLeastFrom};
ghost use Rattle.tile_work.specs.TileSet.{Has, HasGained};
ghost use Rattle.tile_work.specs.WorkTable.{IsDirtyTile, HasJobOut, HasHintsAt, CanBeTaken, IsToTouching, AreReceived};
ghost use Rattle.tile_work.specs.WorkTable.{ready_in, taken, without_hint};

use crate::tile_set::TileSet;
use beside::TilesBeside;
use border_queues::{Hint, Inbox};
use delivery::{count_hints, deliver, make_room};
use grid_core::{Memory, Tiling};
use row::{TileRow, rows_from};
use std::alloc::Global;
use std::marker::Model;
use std::mem;

/// The work that is left at each tile: a row a tile, and sets of the tiles that are dirty, that are out, and where
/// hints wait.
#[derive(Debug, Drop)]
pub struct WorkTable {
    rows: Vec<TileRow>,
    dirty: TileSet,
    out: TileSet,
    waiting: TileSet,
    // Memory for the hints of one tile, which is used again and again. What it holds counts for nothing.
    told: Inbox,
}

impl Model for WorkTable {
    ghost use Rattle.std.specs.Prelude.{List};
    ghost use Rattle.border_queues.specs.TileWork.{TileWork};

    ghost Value = { List TileWork };

    ghost use Rattle.tile_work.specs.WorkTable.{works_of, AreInStep};

    ghost view = { λ t. works_of t.rows.items };

    ghost invariant = { λ t. AreInStep (works_of t.rows.items) t.dirty t.out t.waiting };
}

impl WorkTable {
    /// So many tiles of the generation `first`, at which no work is left.
    ///
    /// Errors: out of memory.
    pub fn new(alloc: Global, count: usize, first: u64) -> Result<WorkTable, Memory>
        requires { first ≤ max_generation }
        ensures { IfOk result (λ table. table ≡ replicate count (fresh first)) }
    {
        let rows = rows_from(alloc, count, first)?;
        let dirty = TileSet::empty(alloc, count)?;
        let (out, waiting) = empty_sets(alloc, count)?;
        Ok(WorkTable {
            rows,
            dirty,
            out,
            waiting,
            told: Inbox::new(alloc),
        })
    }

    /// The number of tiles.
    pub fn len(&self) -> usize
        ensures { result ≡ length self.now }
    {
        self.rows.len()
    }

    /// The generation of a tile.
    pub fn generation(&self, tile: usize) -> u64
        requires { tile < length self.now }
        ensures value { result ≡ (work_of self.now tile).generation }
        ensures bounded { result ≤ max_generation }
    {
        self.rows[tile].generation
    }

    /// Whether a tile is to be swept.
    pub fn is_dirty(&self, tile: usize) -> bool
        requires { tile < length self.now }
        ensures { result ≡ (work_of self.now tile).dirty }
    {
        self.rows[tile].dirty
    }

    /// The serial of the job of a tile that is out, if one is.
    pub fn out(&self, tile: usize) -> Option<u64>
        requires { tile < length self.now }
        ensures { result ≡ (work_of self.now tile).out }
    {
        self.rows[tile].out
    }

    /// How many hints wait at a tile.
    pub fn waiting(&self, tile: usize) -> usize
        requires { tile < length self.now }
        ensures { result ≡ length (work_of self.now tile).inbox }
    {
        self.rows[tile].inbox.len()
    }

    /// The hint at this place of a tile's inbox, if there is one.
    pub fn hint(&self, tile: usize, place: usize) -> Option<Hint>
        requires { tile < length self.now }
        ensures { result ≡ slice_get (work_of self.now tile).inbox place }
    {
        self.rows[tile].hint(place)
    }

    /// Whether no work is left at any tile.
    pub fn is_quiet(&self) -> bool
        ensures { IsTrue result ↔ ((t : ℕ) → t < length self.now → IsIdle (work_of self.now t)) }
    {
        self.first_dirty().is_none() && self.first_out().is_none() && self.first_waiting().is_none()
    }

    /// The first dirty tile, if there is one.
    pub fn first_dirty(&self) -> Option<usize>
        ensures { MatchOption result ((t : ℕ) → IsDirtyTile self.now t → ⊥) (IsLeast (IsDirtyTile self.now)) }
    {
        self.next_dirty(0)
    }

    /// The first tile with a job that is out, if there is one.
    pub fn first_out(&self) -> Option<usize>
        ensures { MatchOption result ((t : ℕ) → HasJobOut self.now t → ⊥) (IsLeast (HasJobOut self.now)) }
    {
        self.next_out(0)
    }

    /// The first tile where a hint waits, if there is one.
    pub fn first_waiting(&self) -> Option<usize>
        ensures { MatchOption result ((t : ℕ) → HasHintsAt self.now t → ⊥) (IsLeast (HasHintsAt self.now)) }
    {
        self.next_waiting(0)
    }

    /// The first dirty tile from `from` on, if there is one.
    pub fn next_dirty(&self, from: usize) -> Option<usize>
        ensures { IsLeastFrom (IsDirtyTile self.now) from result }
    {
        self.dirty.first_from(from)
    }

    /// The first tile from `from` on that is dirty and of which no job is out, if there is one.
    pub fn next_ready(&self, from: usize) -> Option<usize>
        ensures { IsLeastFrom (CanBeTaken self.now) from result }
    {
        self.dirty.first_without(&self.out, from)
    }

    /// The first tile from `from` on that is dirty, of which no job is out, and that is not in the set, if there is
    /// one. The set is over as many tiles. It passes over 64 tiles a step.
    pub fn next_ready_outside(&self, set: &TileSet, from: usize) -> Option<usize>
        requires { length set.now ≡ length self.now }
        ensures { IsLeastFrom (λ t. CanBeTaken self.now t × (Has set.now t → ⊥)) from result }
    {
        self.dirty.first_without_both(&self.out, set, from)
    }

    /// How many tiles, from `from` on and before `to`, are dirty with no job of them out. It counts 64 tiles a step.
    pub fn count_ready(&self, from: usize, to: usize) -> usize
        requires { to ≤ length self.now }
        ensures { result ≡ ready_in self.now from (to - from) }
    {
        self.dirty.count_without(&self.out, from, to)
    }

    /// The first tile from `from` on with a job that is out, if there is one.
    pub fn next_out(&self, from: usize) -> Option<usize>
        ensures { IsLeastFrom (HasJobOut self.now) from result }
    {
        self.out.first_from(from)
    }

    /// The first tile from `from` on where a hint waits, if there is one.
    pub fn next_waiting(&self, from: usize) -> Option<usize>
        ensures { IsLeastFrom (HasHintsAt self.now) from result }
    {
        self.waiting.first_from(from)
    }

    /// Puts each dirty tile into the set, 64 tiles a step. It takes no memory.
    pub fn add_dirty(&self, set: &mut TileSet)
        requires { length set.old ≡ length self.now }
        ensures { HasGained set.old (IsDirtyTile self.now) set.new }
    {
        set.insert_all(&self.dirty);
    }

    /// A job of the tile goes out under this serial, and the tile is no longer dirty.
    pub fn take(&mut self, tile: usize, serial: u64)
        requires { tile < length self.old }
        ensures { self.new ≡ slice_set self.old tile (taken (work_of self.old tile) serial) }
    {
        let row = &mut self.rows[tile];
        row.dirty = false;
        row.out = Some(serial);
        self.dirty.remove(tile);
        self.out.insert(tile);
    }

    /// No job of the tile is out any more.
    pub fn end_job(&mut self, tile: usize)
        requires { tile < length self.old }
        ensures { self.new ≡ slice_set self.old tile (record (work_of self.old tile) { out = None }) }
    {
        self.rows[tile].out = None;
        self.out.remove(tile);
    }

    /// No job of the tile is out any more, and the tile is to be swept.
    pub fn abandon(&mut self, tile: usize)
        requires { tile < length self.old }
        ensures { self.new ≡ slice_set self.old tile (record (work_of self.old tile) { dirty = true; out = None }) }
    {
        let row = &mut self.rows[tile];
        row.dirty = true;
        row.out = None;
        self.dirty.insert(tile);
        self.out.remove(tile);
    }

    /// The tile is to be swept.
    pub fn mark_dirty(&mut self, tile: usize)
        requires { tile < length self.old }
        ensures { self.new ≡ slice_set self.old tile (record (work_of self.old tile) { dirty = true }) }
    {
        self.rows[tile].dirty = true;
        self.dirty.insert(tile);
    }

    /// The tile was swept.
    pub fn mark_clean(&mut self, tile: usize)
        requires { tile < length self.old }
        ensures { self.new ≡ slice_set self.old tile (record (work_of self.old tile) { dirty = false }) }
    {
        self.rows[tile].dirty = false;
        self.dirty.remove(tile);
    }

    /// The tile gets the next generation: it is to be swept, and its job is forgotten. Its hints stay.
    pub fn reset(&mut self, tile: usize)
        requires tile { tile < length self.old }
        requires unspent { (work_of self.old tile).generation < max_generation }
        ensures { self.new ≡ slice_set self.old tile (reset_work (work_of self.old tile)) }
    {
        let row = &mut self.rows[tile];
        row.generation += 1;
        row.dirty = true;
        row.out = None;
        self.dirty.insert(tile);
        self.out.remove(tile);
    }

    /// Takes the hint at this place out of a tile's inbox. The others keep their order.
    pub fn remove_hint(&mut self, tile: usize, place: usize)
        requires tile { tile < length self.old }
        requires place { place < length (work_of self.old tile).inbox }
        ensures { self.new ≡ slice_set self.old tile (without_hint (work_of self.old tile) place) }
    {
        if self.rows[tile].remove_hint(place) {
            self.waiting.remove(tile);
        }
    }

    /// An inbox without hints, with the room of the one that was kept last. It takes no memory.
    pub fn lend_inbox(&mut self, alloc: Global) -> Inbox
        ensures empty { result.hints ≡ [] }
        ensures same { self.new ≡ self.old }
    {
        let mut inbox = mem::replace(&mut self.told, Inbox::new(alloc));
        inbox.clear();
        inbox
    }

    /// Keeps an inbox, which [`lend_inbox`](WorkTable::lend_inbox) gives out again. It takes no memory.
    pub fn keep_inbox(&mut self, inbox: Inbox)
        ensures { self.new ≡ self.old }
    {
        self.told = inbox;
    }

    /// Puts each of these hints into the inbox of the tile that its pixel lies in, behind those that wait there.
    /// All go to tiles that touch the tile `from`.
    ///
    /// Errors: out of memory, where nothing changes.
    pub fn receive(&mut self, tiling: &Tiling, from: usize, hints: &[Hint]) -> Result<(), Memory>
        requires tiles { length self.old ≡ count_of tiling.now }
        requires from { from < count_of tiling.now }
        requires touching { All (IsToTouching tiling.now from) hints.now }
        ensures ok { OnOk result (AreReceived tiling.now hints.now self.old self.new) }
        ensures err { OnErr result (self.new ≡ self.old) }
    {
        let beside = TilesBeside::new(tiling, from);
        let coming = count_hints(&beside, hints);
        make_room(&mut self.rows, &coming.tiles, &coming.counts)?;
        deliver(&mut self.rows, &mut self.waiting, &beside, hints);
        Ok(())
    }
}

// Two empty sets, each over so many tiles.
//
// Errors: out of memory.
fn empty_sets(alloc: Global, count: usize) -> Result<(TileSet, TileSet), Memory>
    ensures { IfOk result (λ sets. (sets.0 ≡ replicate count false) × (sets.1 ≡ replicate count false)) }
{
    let first = TileSet::empty(alloc, count)?;
    let second = TileSet::empty(alloc, count)?;
    Ok((first, second))
}
