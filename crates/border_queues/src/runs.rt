//! Hints that wait, in less memory: a run of them has its sender and its border once.

ghost use Rattle.std.specs.Prelude.{◌≡◌, ℕ, ◌+◌, ◌<◌, ◌≤◌, ◌↔◌, ◌++◌, [], ◌∷◌, length, remove, slice_get};
ghost use Rattle.std.specs.Prelude.{IsOk, OnOk, IsTrue, vec_capacity, vec_len};
ghost use Rattle.grid_core.specs.declared.pixel.Pixel.{Pixel};
ghost use Rattle.border_queues.specs.OpenEdges.{Sender};
ghost use Rattle.border_queues.specs.Runs.{IsToldAlong, entry_at, hint_by, place_of, runs_left};
ghost use Rattle.border_queues.specs.Sides.{HasLength, hints_along};

use crate::error::QueueError;
use crate::hint::Hint;
use crate::sides::Side;
use grid_core::Pixel;
use std::alloc::Global;
use std::marker::Model;

// The most runs whose numbers fit in 32 bits.
const MOST_RUNS: usize = 4_294_967_296;

// Hints of one sender and generation to pixels of one row or column, which is a border of its tile.
#[derive(Clone, Copy, Debug)]
struct Run {
    from: usize,
    from_generation: u64,
    first: Pixel,
    is_column: bool,
}

// A hint of a run: how far behind the run's first pixel its own one is, and its value.
#[derive(Clone, Copy, Debug)]
struct Entry {
    run: u32,
    place: u16,
    value: u16,
}

/// Hints that wait for a tile, first come first, kept as runs of one sender, generation and border.
#[derive(Debug, Drop)]
pub struct HintRuns {
    runs: Vec<Run>,
    entries: Vec<Entry>,
}

impl Model for HintRuns {
    ghost use Rattle.std.specs.Prelude.{◌-◌, vec_capacity, vec_len};
    ghost use Rattle.border_queues.specs.Runs.{AreEntries, WaitingRuns, hints_by, runs_left};

    ghost Value = { WaitingRuns };

    ghost view = { λ a. record {
      hints = hints_by a.runs.items a.entries.items;
      room = vec_capacity a.entries - vec_len a.entries;
      runs = runs_left (vec_capacity a.runs) (vec_len a.runs);
    } };

    ghost invariant = { λ a. AreEntries a.runs.items a.entries.items };
}

impl HintRuns {
    /// Runs with no hint and no room. They take no memory.
    pub fn new(alloc: Global) -> HintRuns
        ensures { result.hints ≡ [] }
    {
        HintRuns {
            runs: Vec::new(alloc),
            entries: Vec::new(alloc),
        }
    }

    /// Makes room for so many more hints, in so many runs.
    ///
    /// Errors: Q1, where no hint changes.
    pub fn reserve(&mut self, hints: usize, runs: usize) -> Result<(), QueueError>
        ensures hints { self.new.hints ≡ self.old.hints }
        ensures room { OnOk result (hints ≤ self.new.room) }
        ensures runs { OnOk result (runs ≤ self.new.runs) }
        ensures room_grown { self.old.room ≤ self.new.room }
        ensures runs_grown { self.old.runs ≤ self.new.runs }
        ensures enough { hints ≤ self.old.room → runs ≤ self.old.runs → IsOk result }
    {
        if runs > MOST_RUNS.saturating_sub(self.runs.len()) {
            return Err(QueueError::Memory);
        }
        self.runs.reserve(runs)?;
        self.entries.reserve(hints)?;
        Ok(())
    }

    /// Puts a hint behind the others, in a run of its own.
    pub fn push(&mut self, hint: Hint)
        requires room { 0 < self.old.room }
        requires runs { 0 < self.old.runs }
        ensures hints { self.new.hints ≡ self.old.hints ++ hint ∷ [] }
        ensures room { self.old.room ≤ self.new.room + 1 }
        ensures runs { self.old.runs ≤ self.new.runs + 1 }
    {
        let run = begin(
            &mut self.runs,
            Run {
                from: hint.from,
                from_generation: hint.from_generation,
                first: hint.to_pixel,
                is_column: false,
            },
        );
        let _ = self.entries.push(Entry {
            run,
            place: 0,
            value: hint.value,
        });
    }

    /// Puts the hints of a tile along one of its sides behind the others, in one run: for each of `count` places where
    /// the pixel beyond can rise, the hint to it.
    ///
    /// The pixels beyond are `first` and those that follow on it, down its column or to the right in its row.
    pub fn push_along(
        &mut self,
        from: usize,
        from_generation: u64,
        first: Pixel,
        is_column: bool,
        side: &Side<'_>,
        count: u16,
    )
        requires lengths { HasLength count side.now }
        requires room { count ≤ self.old.room }
        requires runs { 0 < self.old.runs }
        requires pixels { place_of first is_column + count ≤ 4294967296 }
        ensures hints { (s : Sender) (inner outer : ℕ → Pixel)
            → IsToldAlong from from_generation first is_column count side.now inner outer s
            → self.new.hints ≡ self.old.hints ++ hints_along s count inner outer }
        ensures room { self.old.room ≤ self.new.room + count }
        ensures runs { self.old.runs ≤ self.new.runs + 1 }
    {
        let run = begin(
            &mut self.runs,
            Run {
                from,
                from_generation,
                first,
                is_column,
            },
        );
        for place in 0..count {
            push_at(&mut self.entries, run, side, place);
        }
    }

    /// The number of hints.
    pub fn len(&self) -> usize
        ensures { result ≡ length self.now.hints }
    {
        self.entries.len()
    }

    /// Whether no hint waits.
    pub fn is_empty(&self) -> bool
        ensures { IsTrue result ↔ (self.now.hints ≡ []) }
    {
        self.entries.is_empty()
    }

    /// The hint at place `i`, if there is one.
    pub fn get(&self, i: usize) -> Option<Hint>
        ensures { result ≡ slice_get self.now.hints i }
    {
        if i < self.entries.len() {
            let entry = self.entries[i];
            let run = self.runs[entry.run as usize];
            Some(hint_of(run, entry))
        } else {
            None
        }
    }

    /// Takes out the hint at place `i`. The others keep their order. Where it was the last one of all, all runs are
    /// forgotten, and there is room for as many.
    pub fn remove(&mut self, i: usize)
        requires { i < length self.old.hints }
        ensures hints { self.new.hints ≡ remove self.old.hints i }
        ensures room { self.old.room ≤ self.new.room }
        ensures runs { self.old.runs ≤ self.new.runs }
    {
        let _ = self.entries.remove(i);
        if self.entries.is_empty() {
            self.runs.clear();
        }
    }
}

// Puts a run behind the others, and tells its number.
fn begin(runs: &mut Vec<Run>, run: Run) -> u32
    requires { 0 < runs_left (vec_capacity runs.old) (vec_len runs.old) }
    ensures number { result ≡ length runs.old.items }
    ensures runs { runs.new.items ≡ runs.old.items ++ run ∷ [] }
    ensures capacity { vec_capacity runs.old ≤ vec_capacity runs.new }
{
    let number = runs.len() as u32;
    let _ = runs.push(run);
    number
}

// Puts the entry of a run for a place of a side behind the others, if the pixel beyond can rise.
#[inline(always)]
fn push_at(entries: &mut Vec<Entry>, run: u32, side: &Side<'_>, place: u16)
    requires place { HasLength (place + 1) side.now }
    requires room { vec_len entries.old < vec_capacity entries.old }
    ensures entries { entries.new.items ≡ entries.old.items ++ entry_at run side.now place }
    ensures len { length entries.new.items ≤ length entries.old.items + 1 }
    ensures capacity { vec_capacity entries.old ≤ vec_capacity entries.new }
{
    let i = usize::from(place);
    let level = side.own[i].max(side.risen[i]).min(side.limits[i]);
    if side.beyond[i] < level {
        let _ = entries.push(Entry {
            run,
            place,
            value: level,
        });
    }
}

// The hint of an entry of the run.
fn hint_of(run: Run, entry: Entry) -> Hint
    requires { place_of run.first run.is_column + entry.place < 4294967296 }
    ensures { result ≡ hint_by run entry }
{
    let behind = u32::from(entry.place);
    let Pixel { x, y } = run.first;
    let to_pixel = if run.is_column {
        Pixel { x, y: y + behind }
    } else {
        Pixel { x: x + behind, y }
    };
    Hint {
        from: run.from,
        from_generation: run.from_generation,
        to_pixel,
        value: entry.value,
    }
}
