//! Events, one or a list of them.

ghost use Rattle.std.specs.Prelude.{◌≡◌, ◌+◌, ◌<◌, ◌≤◌, [], IfOk, IfErr, OnOk, OnErr, vec_len, vec_capacity};
ghost use Rattle.core_rules.specs.declared.error.CoreError.TheVariants as core_errors;
ghost use Rattle.replica_world.specs.declared.error.WorldError.TheVariants as errors;
ghost use Rattle.replica_world.specs.Events.{IsDone, IsRefusal, IsCutOff};
ghost use Rattle.replica_world.specs.Runs.{IsRun, IsStopped, IsOnward};

use super::World;
use crate::error::WorldError;
use crate::event::Event;
use grid_core::Memory;
use std::alloc::Global;

impl World {
    /// Brings one event about.
    ///
    /// Errors: W1 where one of its numbers names nothing: no replica, piece, packet, tile, result or hint. Else W2 with
    /// the reason of the core for which it refused the delta, or with C4. The world is then as it was, but that a core
    /// may have spent a serial where memory ran out.
    pub fn step(&mut self, alloc: Global, event: &Event) -> Result<(), WorldError>
        ensures done { OnOk result (IsDone self.old event.now self.new) }
        ensures refused { IfErr result (λ e. IsRefusal self.old event.now e self.new) }
    {
        match event {
            Event::Edit(replica, delta) => self.edit(alloc, *replica, delta),
            Event::Send(replica, part) => self.send(alloc, *replica, *part),
            Event::Deliver(replica, packet) => self.deliver(alloc, *replica, *packet),
            Event::Take(replica, tile) => self.take(alloc, *replica, *tile),
            Event::Return(replica, result) => self.give_back(alloc, *replica, *result),
            Event::Abandon(replica, result) => self.abandon(*replica, *result),
            Event::Hand(replica, tile, place) => self.hand(*replica, *tile, *place),
        }
    }

    /// Brings a list of events about, one after another. It answers the numbers of those that were refused, counted
    /// from 0, each with the reason.
    ///
    /// Errors: W2 with C4, where memory ran out: for the places of the list, before the first event, or within an
    /// event. The world is then as after the events before, of which [`steps`](World::steps) says how many there are,
    /// but a core may have spent a serial; so the rest can be run.
    pub fn run(
        &mut self,
        alloc: Global,
        events: &[Event],
    ) -> Result<Vec<(usize, WorldError)>, WorldError>
        ensures ran { IfOk result (λ refusals. IsRun self.old events.now refusals.items self.new) }
        ensures stopped { IfErr result (λ e. IsStopped self.old events.now e self.new) }
    {
        let mut refusals = match places(alloc, events.len()) {
            Ok(refusals) => refusals,
            Err(why) => {
                self.keep_steps(0);
                return Err(why.into());
            }
        };
        for i in 0..events.len() {
            if let Err(why) = self.run_one(alloc, &mut refusals, i, &events[i]) {
                self.keep_steps(i);
                return Err(why);
            }
        }
        self.keep_steps(events.len());
        Ok(refusals)
    }

    // Keeps the number of events that the run brought to an end.
    fn keep_steps(&mut self, steps: usize)
        ensures { self.new ≡ record self.old { steps = steps } }
    {
        self.steps = steps;
    }

    // Brings the event of this number about, or lists why it is refused, in its place.
    //
    // Errors: W2 with C4, where memory ran out within the event.
    fn run_one(
        &mut self,
        alloc: Global,
        refusals: &mut Vec<(usize, WorldError)>,
        number: usize,
        event: &Event,
    ) -> Result<(), WorldError>
        requires { vec_len refusals.old < vec_capacity refusals.old }
        ensures next { OnOk result (IsOnward event.now number self.old refusals.old.items self.new refusals.new.items) }
        ensures one_more { vec_len refusals.new ≤ vec_len refusals.old + 1 }
        ensures room { vec_capacity refusals.new ≡ vec_capacity refusals.old }
        ensures err { IfErr result (λ e. (e ≡ errors.Core core_errors.Memory) × IsCutOff self.old event.now self.new) }
    {
        let Err(why) = self.step(alloc, event) else {
            return Ok(());
        };
        if why.is_memory() {
            return Err(why);
        }
        refusals.push_reserved((number, why));
        Ok(())
    }
}

// An empty list with so many places.
//
// Errors: out of memory, where there are to be some.
fn places(alloc: Global, count: usize) -> Result<Vec<(usize, WorldError)>, Memory>
    ensures empty { IfOk result (λ list. (list.items ≡ []) × (vec_len list ≡ 0)) }
    ensures room { IfOk result (λ list. count ≤ vec_capacity list) }
    ensures some { OnErr result (1 ≤ count) }
{
    Ok(Vec::with_capacity(alloc, count)?)
}
