//! One replica: a core, and what it took.

ghost use Rattle.std.specs.Prelude.{◌≡◌, ◌<◌, [], ◌∷◌, ◌++◌, IfOk, IfErr, OnOk, OnErr, vec_len, vec_capacity};
ghost use Rattle.stroke_lattice.specs.Change.{Turnover};
ghost use Rattle.stroke_lattice.specs.State.{IsJoinOf};
ghost use Rattle.tile_generations.specs.Jobs.{Swept as Result, IsSwept};
ghost use Rattle.core_rules.specs.declared.answers.Back.{Back as Answer};
ghost use Rattle.core_rules.specs.declared.error.CoreError.TheVariants as core_errors;
ghost use Rattle.core_rules.specs.Merge.{IsMerged};
ghost use Rattle.core_rules.specs.Sweeps.{IsReady, IsGivenBack, IsAbandoned};
ghost use Rattle.core_rules.specs.Hints.{IsHanded};
ghost use Rattle.reset_core.specs.Answers.{IsNotMerged};
ghost use Rattle.replica_world.specs.Events.{IsSweptInto};
ghost use Rattle.replica_world.specs.Opening.{fresh_replica};

use core_rules::{CoreError, Handed};
use grid_core::{Conn, Memory};
use pgm_codec::Image;
use reset_core::Core;
use std::alloc::Global;
use std::marker::Model;
use stroke_lattice::{Delta, join_of_a_longer_list, join_of_an_empty_list};
use tile_generations::{Job, Swept, Ticket};

// A core, and the deltas that it took. Its strokes are their join.
#[derive(Drop)]
pub struct Replica {
    core: Core,
    took: Vec<Delta>,
}

impl Model for Replica {
    ghost use Rattle.stroke_lattice.specs.State.{IsJoinOf};
    ghost use Rattle.stroke_core.specs.contracts.stroke.Stroke as stroke;
    ghost use Rattle.replica_world.specs.World.{Replica as Site};
    ghost use Rattle.replica_world.specs.Stored.{replica_code};

    ghost Value = { Site };

    ghost coded = { replica_code stroke.the_row.coded };

    ghost view = { λ r. record { core = r.core; took = r.took.items } };

    ghost invariant = { λ r. IsJoinOf r.took.items r.core.state };
}

impl Replica {
    // A replica of the mask, which took nothing.
    //
    // Errors: C4.
    pub fn open(alloc: Global, mask: &Image, conn: Conn) -> Result<Replica, CoreError>
        ensures value { IfOk result (λ replica. replica ≡ fresh_replica mask.now.raster conn) }
        ensures memory { IfErr result (λ e. e ≡ core_errors.Memory) }
    {
        join_of_an_empty_list();
        Ok(Replica {
            core: Core::open(alloc, mask, conn)?,
            took: Vec::new(alloc),
        })
    }

    // The core.
    pub fn core(&self) -> &Core
        ensures value { result.now ≡ self.now.core }
        ensures joined { IsJoinOf self.now.took self.now.core.state }
    {
        &self.core
    }

    // The deltas that were taken, one after another.
    pub fn took(&self) -> &[Delta]
        ensures value { result.now ≡ self.now.took }
        ensures joined { IsJoinOf self.now.took self.now.core.state }
    {
        &self.took
    }

    // Merges a delta, which then counts among those that were taken. The copy that is kept is made before; where there
    // is no memory for it, the core is asked whether it would take the delta.
    //
    // Errors: C1 to C3 as the core says, else C4. The replica is then as it was.
    pub fn take_in(&mut self, alloc: Global, delta: &Delta) -> Result<(), CoreError>
        ensures merged { OnOk result ((turnover : Turnover) × IsMerged self.old.core delta.now turnover self.new.core) }
        ensures took { OnOk result (self.new.took ≡ self.old.took ++ delta.now ∷ []) }
        ensures refused { IfErr result (IsNotMerged self.old.core delta.now) }
        ensures err { OnErr result (self.new ≡ self.old) }
    {
        join_of_a_longer_list();
        let copy = match copy_to_keep(alloc, &mut self.took, delta) {
            Ok(copy) => copy,
            Err(_) => return Err(why_not_taken(&mut self.core, delta)),
        };
        match self.core.merge(alloc, delta) {
            Ok(_change) => {
                self.took.push_reserved(copy);
                Ok(())
            }
            Err(why) => Err(why),
        }
    }

    // Takes a tile. A job that this gives is swept, and the result put behind the others.
    //
    // Errors: out of memory, where the replica is as it was, but a serial may have been spent, and the results are as
    // they were.
    pub fn take(
        &mut self,
        alloc: Global,
        results: &mut Vec<Swept>,
        tile: usize,
    ) -> Result<(), Memory>
        ensures taken { OnOk result (IsSweptInto self.old.core tile self.new.core results.old.items results.new.items) }
        ensures took { self.new.took ≡ self.old.took }
        ensures ready { OnErr result (IsReady self.old.core tile) }
        ensures err { OnErr result (self.new.core ≡ record self.old.core { serial = self.new.core.serial }) }
        ensures kept { OnErr result (results.new.items ≡ results.old.items) }
    {
        let Some(job) = self.core.take(alloc, tile)? else {
            return Ok(());
        };
        let ticket = job.ticket();
        match sweep(alloc, results, job) {
            Ok(()) => Ok(()),
            Err(why) => {
                let _was_out = self.core.abandon(ticket);
                Err(why)
            }
        }
    }

    // Gives a copy of the result back to the core.
    //
    // Errors: out of memory, where the replica is as it was.
    pub fn give_back(&mut self, alloc: Global, swept: &Swept) -> Result<(), Memory>
        ensures given { OnOk result ((back : Answer) × IsGivenBack self.old.core swept.now back self.new.core) }
        ensures swept { IsSwept swept.now }
        ensures took { self.new.took ≡ self.old.took }
        ensures err { OnErr result (self.new ≡ self.old) }
    {
        let _ = swept.pixels();
        let copy = swept.copy(alloc)?;
        match self.core.give_back(alloc, copy) {
            Ok(_back) => Ok(()),
            Err((_, why)) => Err(why),
        }
    }

    // Abandons the job of this ticket, and says whether it was out.
    pub fn abandon(&mut self, ticket: Ticket) -> bool
        ensures abandoned { IsAbandoned self.old.core ticket result self.new.core }
        ensures took { self.new.took ≡ self.old.took }
    {
        self.core.abandon(ticket)
    }

    // Hands over the hint at this place of the tile's inbox.
    pub fn hand(&mut self, tile: usize, place: usize) -> Handed
        ensures handed { IsHanded self.old.core tile place result self.new.core }
        ensures took { self.new.took ≡ self.old.took }
    {
        self.core.hand(tile, place)
    }
}

// Why a core does not take a delta, where there is no memory to keep it.
fn why_not_taken(core: &mut Core, delta: &Delta) -> CoreError
    ensures refused { IsNotMerged core.old delta.now result }
    ensures same { core.new ≡ core.old }
{
    match core.judge(delta) {
        Ok(()) => CoreError::Memory,
        Err(why) => why,
    }
}

// A copy of the delta, for which there is then a place in the list.
//
// Errors: out of memory, where the list is as it was.
fn copy_to_keep(alloc: Global, deltas: &mut Vec<Delta>, delta: &Delta) -> Result<Delta, Memory>
    ensures copy { IfOk result (λ copy. copy ≡ delta.now) }
    ensures items { deltas.new.items ≡ deltas.old.items }
    ensures room { OnOk result (vec_len deltas.new < vec_capacity deltas.new) }
{
    deltas.reserve(1)?;
    match delta.copy(alloc) {
        Ok(copy) => Ok(copy),
        Err(_) => Err(Memory),
    }
}

// Sweeps the job, and puts the result behind the others.
//
// Errors: out of memory, where the results are as they were.
fn sweep(alloc: Global, results: &mut Vec<Swept>, job: Job) -> Result<(), Memory>
    ensures kept { OnOk result ((swept : Result) × IsSwept swept × (swept.job ≡ job)
        × (results.new.items ≡ results.old.items ++ swept ∷ [])) }
    ensures err { OnErr result (results.new.items ≡ results.old.items) }
{
    results.reserve(1)?;
    match job.sweep(alloc) {
        Ok(swept) => {
            results.push_reserved(swept);
            Ok(())
        }
        Err((_, why)) => Err(why),
    }
}
