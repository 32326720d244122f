//! Schedules: lists of steps, of which each takes, gives back, abandons, hands over or edits.

ghost use Rattle.std.specs.Prelude.{◌≡◌, ℕ, ◌<◌, ◌≤◌, [], ◌∷◌, IfOk, OnOk, OnErr};
ghost use Rattle.tile_generations.specs.Jobs.{Swept as Result, IsSwept};
ghost use Rattle.core_rules.specs.declared.step.Step.TheVariants as steps;
ghost use Rattle.core_rules.specs.Schedule.{IsStopped, IsCutOff, edits_of};
ghost use Rattle.core_rules.specs.Counting.{IsWithinWork};
ghost use Rattle.reset_core.specs.Answers.{HaveRun};
ghost use Rattle.reset_core.specs.Scheduling.{nothing_kept, kept_of, account_of, with_result};
ghost use Rattle.reset_core.specs.Scheduling.{HasRoom, KeepsPlaces, KeepsCount, StepLeads};

use super::Core;
use core_rules::laws::schedule_is_within_work;
use core_rules::{CoreError, Step};
use grid_core::Memory;
use std::alloc::Global;
use std::marker::Model;
use stroke_lattice::Delta;
use tile_generations::{Job, Swept};

/// What a schedule did.
#[derive(Debug, Drop)]
pub struct Ran {
    jobs: u64,
    abandons: u64,
    accepted: Vec<usize>,
    refused: Vec<(usize, CoreError)>,
}

impl Model for Ran {
    ghost use Rattle.core_rules.specs.Schedule.{Ran as Account};

    ghost Value = { Account };

    ghost view = { λ r. record {
      jobs = r.jobs;
      abandons = r.abandons;
      accepted = r.accepted.items;
      refused = r.refused.items;
    } };
}

impl Ran {
    /// How many takes gave a job.
    pub fn jobs(&self) -> u64
        ensures { result ≡ self.now.jobs }
    {
        self.jobs
    }

    /// How many jobs were abandoned.
    pub fn abandons(&self) -> u64
        ensures { result ≡ self.now.abandons }
    {
        self.abandons
    }

    /// The numbers of the steps that were edits and were accepted, rising. Steps are counted from 0.
    pub fn accepted(&self) -> &[usize]
        ensures { result.now ≡ self.now.accepted }
    {
        &self.accepted
    }

    /// The numbers of the steps that were edits and were refused, rising, each with the reason: C1, C2 or C3.
    pub fn refused(&self) -> &[(usize, CoreError)]
        ensures { result.now ≡ self.now.refused }
    {
        &self.refused
    }
}

impl Core {
    /// Runs the steps of a schedule, one after another. Each take that gives a job is swept at once, and its result
    /// kept as the next one, counted from 0. A return gives back a copy of a result, so that it may be returned late
    /// or twice. A step that names nothing is passed over. An edit that is refused is listed.
    ///
    /// Where no edit is accepted, no more jobs are taken than there is work: one for each tile that was dirty at the
    /// start, one for each unit that the image lacked of the reconstruction in all at the start and does not lack at
    /// the end, and one for each job that was abandoned.
    ///
    /// Errors: out of memory, where there was no place to list the edits, and then nothing has happened; or within an
    /// edit whose delta would else be taken, the take of a tile that can be taken, or the return of a result that is
    /// there. The core is then as after the steps before, but a take may have spent a serial.
    pub fn run_schedule(&mut self, alloc: Global, steps: &[Step]) -> Result<Ran, Memory>
        ensures ran { IfOk result (λ ran. HaveRun self.old steps.now ran self.new) }
        ensures bound { IfOk result (λ ran. ran.accepted ≡ [] → IsWithinWork self.old self.new ran.jobs ran.abandons) }
        ensures stopped { OnErr result (IsStopped self.old steps.now self.new) }
    {
        self.soundness();
        schedule_is_within_work();
        let mut tally = Tally::new(alloc, count_edits(steps))?;
        for i in 0..steps.len() {
            self.run_step(alloc, &mut tally, i, &steps[i])?;
        }
        Ok(tally.into_ran())
    }

    // Runs the step of this number. An edit has its place in the lists.
    //
    // Errors: out of memory within the step.
    fn run_step(
        &mut self,
        alloc: Global,
        tally: &mut Tally,
        number: usize,
        step: &Step,
    ) -> Result<(), Memory>
        requires few { tally.old.abandons < u64.MAX }
        requires room { HasRoom tally.old (edits_of (step.now ∷ [])) }
        ensures step { OnOk result (StepLeads step.now number self.old tally.old self.new tally.new) }
        ensures keeps { KeepsPlaces (edits_of (step.now ∷ [])) tally.old tally.new }
        ensures err { OnErr result (IsCutOff self.old tally.old.results.items step.now self.new) }
    {
        match step {
            Step::Edit(delta) => self.edit(alloc, tally, number, delta),
            Step::Take(tile) => self.take_and_sweep(alloc, tally, *tile),
            Step::Return(place) => self.give_back_copy(alloc, tally, *place),
            Step::Abandon(place) => {
                self.abandon_job_of(tally, *place);
                Ok(())
            }
            Step::Hand(tile, place) => {
                let _handed = self.hand(*tile, *place);
                Ok(())
            }
        }
    }

    // Merges the delta of the step of this number, or lists why it is refused.
    //
    // Errors: out of memory, where the core is as it was.
    fn edit(
        &mut self,
        alloc: Global,
        tally: &mut Tally,
        number: usize,
        delta: &Delta,
    ) -> Result<(), Memory>
        requires { HasRoom tally.old 1 }
        ensures step { OnOk result (StepLeads (steps.Edit delta.now) number self.old tally.old self.new tally.new) }
        ensures keeps { KeepsCount 1 tally.old tally.new }
        ensures err { OnErr result (IsCutOff self.old tally.old.results.items (steps.Edit delta.now) self.new) }
    {
        match self.merge(alloc, delta) {
            Ok(_change) => {
                tally.accepted.push_reserved(number);
                Ok(())
            }
            Err(why) => match why {
                CoreError::Memory => Err(Memory),
                _ => {
                    tally.refused.push_reserved((number, why));
                    Ok(())
                }
            },
        }
    }

    // Takes a tile, sweeps its job, and keeps the result.
    //
    // Errors: out of memory, where the tile can be taken, and the core is as it was, but a serial may have been spent.
    fn take_and_sweep(
        &mut self,
        alloc: Global,
        tally: &mut Tally,
        tile: usize,
    ) -> Result<(), Memory>
        ensures step { OnOk result ((n : ℕ) → StepLeads (steps.Take tile) n self.old tally.old self.new tally.new) }
        ensures keeps { KeepsCount 0 tally.old tally.new }
        ensures err { OnErr result (IsCutOff self.old tally.old.results.items (steps.Take tile) self.new) }
    {
        let Some(job) = self.take(alloc, tile)? else {
            return Ok(());
        };
        let ticket = job.ticket();
        match tally.sweep(alloc, job) {
            Ok(()) => Ok(()),
            Err(why) => {
                let _was_out = self.abandon(ticket);
                Err(why)
            }
        }
    }

    // Gives back a copy of the result at this place, if there is one.
    //
    // Errors: out of memory, where the core is as it was.
    fn give_back_copy(&mut self, alloc: Global, tally: &Tally, place: usize) -> Result<(), Memory>
        ensures step { OnOk result ((n : ℕ) → StepLeads (steps.Return place) n self.old tally.now self.new tally.now) }
        ensures err { OnErr result (IsCutOff self.old tally.now.results.items (steps.Return place) self.new) }
    {
        let Some(swept) = tally.results.get(place) else {
            return Ok(());
        };
        // For its clause alone: the result is a swept tile.
        let _ = swept.pixels();
        let copy = swept.copy(alloc)?;
        match self.give_back(alloc, copy) {
            Ok(_back) => Ok(()),
            Err((copy, why)) => {
                drop(copy);
                Err(why)
            }
        }
    }

    // Abandons the job of the result at this place, if there is one.
    fn abandon_job_of(&mut self, tally: &mut Tally, place: usize)
        requires { tally.old.abandons < u64.MAX }
        ensures step { (n : ℕ) → StepLeads (steps.Abandon place) n self.old tally.old self.new tally.new }
        ensures keeps { KeepsPlaces 0 tally.old tally.new }
    {
        let Some(swept) = tally.results.get(place) else {
            return;
        };
        let ticket = swept.ticket();
        if self.abandon(ticket) {
            tally.abandons += 1;
        }
    }
}

// What is kept of a schedule so far.
#[derive(Drop)]
struct Tally {
    results: Vec<Swept>,
    abandons: u64,
    accepted: Vec<usize>,
    refused: Vec<(usize, CoreError)>,
}

impl Tally {
    // What is kept at the start, with a place in the lists for so many edits.
    //
    // Errors: out of memory, where there are some.
    fn new(alloc: Global, edits: usize) -> Result<Tally, Memory>
        ensures empty { IfOk result (λ tally. (kept_of tally ≡ nothing_kept) × HasRoom tally edits) }
        ensures some { OnErr result (1 ≤ edits) }
    {
        Ok(Tally {
            results: Vec::new(alloc),
            abandons: 0,
            accepted: Vec::with_capacity(alloc, edits)?,
            refused: Vec::with_capacity(alloc, edits)?,
        })
    }

    // Sweeps the job, and keeps the result as the next one.
    //
    // Errors: out of memory.
    fn sweep(&mut self, alloc: Global, job: Job) -> Result<(), Memory>
        ensures kept { OnOk result ((swept : Result) × IsSwept swept × (swept.job ≡ job)
            × (kept_of self.new ≡ with_result (kept_of self.old) swept)) }
        ensures keeps { KeepsCount 0 self.old self.new }
    {
        match job.sweep(alloc) {
            Ok(swept) => {
                self.results.push(swept)?;
                Ok(())
            }
            Err((_, why)) => Err(why),
        }
    }

    // What the schedule did.
    fn into_ran(self) -> Ran
        ensures { result ≡ account_of (kept_of self) }
    {
        let Tally {
            results,
            abandons,
            accepted,
            refused,
        } = self;
        Ran {
            jobs: results.len() as u64,
            abandons,
            accepted,
            refused,
        }
    }
}

// How many of the steps are edits.
fn count_edits(steps: &[Step]) -> usize
    ensures { result ≡ edits_of steps.now }
{
    let mut edits = 0;
    for step in steps {
        if let Step::Edit(_) = step {
            edits += 1;
        }
    }
    edits
}
