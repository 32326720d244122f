//! Strokes and tombstones, read from left to right, each behind the tag of the one before it.
ghost use Rattle.std.specs.Prelude.{◌≡◌, ℕ, ◌≤◌, ◌<◌, IfOk};
ghost use Rattle.stroke_core.specs.Seed.{max_runs};
ghost use Rattle.stroke_lattice.specs.State.{HasSomeStroke, HasTombstone};
ghost use Rattle.spd_codec.specs.Faults.{is_behind, count_field};
ghost use Rattle.spd_codec.specs.Reading.{GivesOrMemory, Reads, ReadsOrMemory, field_at, short_value, level_at};
ghost use Rattle.spd_codec.specs.Reading.{run_at, run_list_at};
ghost use Rattle.spd_codec.specs.Reading.{with_level, disc_at, runs_at, seed_at, stroke_at, strokes_at, tombstones_at};
ghost use Rattle.spd_codec.specs.Reading.{onto, with_stroke, with_tombstone, delta_at};

use crate::error::SpdError;
use crate::reader::Reader;
use crate::version::{Kind, Version};
use std::alloc::Global;
use stroke_core::{MAX_RUNS, Run, Stroke, StrokeError, Tag};
use stroke_lattice::State;

// Whether the run is in order with the one before it, if there is one.
fn is_behind(before: Option<Run>, run: Run) -> bool
    ensures { result ≡ is_behind before run }
{
    match before {
        None => true,
        Some(before) => {
            before.y < run.y || (before.y == run.y && u32::from(before.x1) + 1 < u32::from(run.x0))
        }
    }
}

impl<'a> Reader<'a> {
    // A run behind another.
    //
    // Errors: M3, M5 with S4.
    #[tactic(auto, unfolding(crate::specs::Reading::run_at))]
    fn run(&mut self, before: Option<Run>) -> Result<Run, SpdError>
        ensures { Reads result self.new.rest.now (run_at before self.old.rest.now) }
    {
        let Some(([y0, y1, a0, a1, b0, b1], rest)) = self.rest.split_first_chunk::<6>() else {
            return Err(SpdError::Truncated);
        };
        let run = Run {
            y: u16::from_be_bytes([*y0, *y1]),
            x0: u16::from_be_bytes([*a0, *a1]),
            x1: u16::from_be_bytes([*b0, *b1]),
        };
        self.rest = rest;
        if run.x0 <= run.x1 && is_behind(before, run) {
            Ok(run)
        } else {
            Err(SpdError::BadStroke(StrokeError::RunOrder))
        }
    }

    // As many runs.
    //
    // Errors: M3, M5 with S4, M8.
    fn runs(&mut self, alloc: Global, count: u16) -> Result<Vec<Run>, SpdError>
        ensures { GivesOrMemory (λ runs. (runs.items, self.new.rest.now)) result (run_list_at count self.old.rest.now) }
    {
        let mut runs = Vec::with_capacity(alloc, usize::from(count))?;
        let mut last = None;
        for _ in 0..count {
            let run = self.run(last)?;
            runs.push(run)?;
            last = Some(run);
        }
        Ok(runs)
    }

    // The number of runs of a stroke.
    //
    // Errors: M3, M5 with S2 or S3.
    #[tactic(auto, unfolding(crate::specs::Reading::short_at))]
    fn run_count(&mut self) -> Result<u16, SpdError>
        ensures read { Reads result self.new.rest.now (field_at count_field short_value self.old.rest.now) }
        ensures range { IfOk result (λ n. (0 < n) × (n ≤ max_runs)) }
    {
        let count = self.short()?;
        if count == 0 {
            Err(SpdError::BadStroke(StrokeError::NoRuns))
        } else if usize::from(count) > MAX_RUNS {
            Err(SpdError::BadStroke(StrokeError::TooManyRuns))
        } else {
            Ok(count)
        }
    }

    // The level of a stroke.
    //
    // Errors: M3, M5 with S1.
    #[tactic(auto, unfolding(crate::specs::Reading::level_at, crate::specs::Reading::short_at))]
    fn level(&mut self) -> Result<u16, SpdError>
        ensures read { Reads result self.new.rest.now (level_at self.old.rest.now) }
        ensures range { IfOk result (λ level. 0 < level) }
    {
        let level = self.short()?;
        if level == 0 {
            return Err(SpdError::BadStroke(StrokeError::BadLevel));
        }
        Ok(level)
    }

    // The stroke of a level and of runs.
    //
    // Errors: M3, M5 with S2 to S4, M8.
    #[tactic(auto, unfolding(crate::specs::Reading::runs_at))]
    fn stroke_of_runs(&mut self, alloc: Global, level: u16) -> Result<Stroke, SpdError>
        requires { 0 < level }
        ensures { ReadsOrMemory result self.new.rest.now (with_level level (runs_at self.old.rest.now)) }
    {
        let count = self.run_count()?;
        let runs = self.runs(alloc, count)?;
        match Stroke::new(u32::from(level), runs) {
            Ok(stroke) => Ok(stroke),
            Err(refused) => Err(SpdError::BadStroke(refused.why)),
        }
    }

    // The stroke of a level and of a disc.
    //
    // Errors: M3, M5 with S7.
    #[tactic(auto, unfolding(crate::specs::Reading::disc_at, crate::specs::Reading::short_at))]
    fn stroke_of_disc(&mut self, level: u16) -> Result<Stroke, SpdError>
        requires { 0 < level }
        ensures { Reads result self.new.rest.now (with_level level (disc_at self.old.rest.now)) }
    {
        let x = self.short()?;
        let y = self.short()?;
        let r = self.short()?;
        match Stroke::disc(u32::from(level), x, y, u32::from(r)) {
            Ok(stroke) => Ok(stroke),
            Err(why) => Err(SpdError::BadStroke(why)),
        }
    }

    // A level, and what has it.
    //
    // Errors: M3, M5 with S1 to S4 or S7, M8.
    #[tactic(auto, unfolding(crate::specs::Reading::seed_at, crate::specs::Reading::shape_at))]
    fn stroke_of_kind(&mut self, alloc: Global, kind: Kind) -> Result<Stroke, SpdError>
        ensures { ReadsOrMemory result self.new.rest.now (seed_at kind self.old.rest.now) }
    {
        let level = self.level()?;
        match kind {
            Kind::Runs => self.stroke_of_runs(alloc, level),
            Kind::Disc => self.stroke_of_disc(level),
        }
    }

    // A stroke and its tag, which is above the one before it.
    //
    // Errors: M3, M4, M5, M8.
    #[tactic(auto, unfolding(crate::specs::Reading::stroke_at))]
    fn stroke(
        &mut self,
        alloc: Global,
        version: Version,
        before: Option<Tag>,
    ) -> Result<(Tag, Stroke), SpdError>
        ensures { ReadsOrMemory result self.new.rest.now (stroke_at version before self.old.rest.now) }
    {
        let tag = self.tag(before)?;
        let kind = self.kind(version)?;
        let stroke = self.stroke_of_kind(alloc, kind)?;
        Ok((tag, stroke))
    }

    // The state with as many strokes more. It had none.
    //
    // Errors: M3, M4, M5, M8.
    fn strokes(
        &mut self,
        alloc: Global,
        version: Version,
        count: u16,
        state: &mut State,
    ) -> Result<(), SpdError>
        requires { (tag : ℕ) → HasSomeStroke state.old tag → ⊥ }
        ensures { GivesOrMemory (λ _. (state.new, self.new.rest.now)) result
            (onto with_stroke state.old (strokes_at version count self.old.rest.now)) }
    {
        let mut last = None;
        for _ in 0..count {
            let (tag, stroke) = self.stroke(alloc, version, last)?;
            state.insert(tag, stroke)?;
            last = Some(tag);
        }
        Ok(())
    }

    // The state with as many tombstones more. It had none.
    //
    // Errors: M3, M4, M8.
    fn tombstones(&mut self, count: u16, state: &mut State) -> Result<(), SpdError>
        requires { (tag : ℕ) → HasTombstone state.old tag → ⊥ }
        ensures { GivesOrMemory (λ _. (state.new, self.new.rest.now)) result
            (onto with_tombstone state.old (tombstones_at count self.old.rest.now)) }
    {
        let mut last = None;
        for _ in 0..count {
            let tag = self.tag(last)?;
            state.bury(tag)?;
            last = Some(tag);
        }
        Ok(())
    }

    // The state of as many strokes and as many tombstones.
    //
    // Errors: M3, M4, M5, M8.
    #[tactic(auto, unfolding(crate::specs::Reading::delta_at))]
    pub(crate) fn delta(
        &mut self,
        alloc: Global,
        version: Version,
        strokes: u16,
        tombstones: u16,
    ) -> Result<State, SpdError>
        ensures { ReadsOrMemory result self.new.rest.now (delta_at version strokes tombstones self.old.rest.now) }
    {
        let Ok(mut state) = State::empty(alloc) else {
            return Err(SpdError::Memory);
        };
        self.strokes(alloc, version, strokes, &mut state)?;
        self.tombstones(tombstones, &mut state)?;
        Ok(state)
    }
}
