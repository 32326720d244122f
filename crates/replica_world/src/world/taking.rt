//! Tiles that are taken and swept, and results that are given back or whose jobs are abandoned.

ghost use Rattle.std.specs.Prelude.{OnOk, IfErr};
ghost use Rattle.replica_world.specs.declared.event.Event.TheVariants as events;
ghost use Rattle.replica_world.specs.Events.{IsDone, IsRefusal};

use super::World;
use crate::error::WorldError;
use std::alloc::Global;

impl World {
    // Takes a tile of a replica. A job that this gives is swept at once, and kept as the next result.
    //
    // Errors: W1 for a replica or a tile that is not there, else W2 with C4.
    pub(super) fn take(
        &mut self,
        alloc: Global,
        replica: usize,
        tile: usize,
    ) -> Result<(), WorldError>
        ensures done { OnOk result (IsDone self.old (events.Take replica tile) self.new) }
        ensures refused { IfErr result (λ e. IsRefusal self.old (events.Take replica tile) e self.new) }
    {
        if replica >= self.replicas.len() || tile >= self.replicas[replica].core().tiles() {
            return Err(WorldError::NoSuch);
        }
        self.replicas[replica].take(alloc, &mut self.results, tile)?;
        Ok(())
    }

    // Gives a copy of a result back to a replica.
    //
    // Errors: W1 for a replica or a result that is not there, else W2 with C4.
    pub(super) fn give_back(
        &mut self,
        alloc: Global,
        replica: usize,
        place: usize,
    ) -> Result<(), WorldError>
        ensures done { OnOk result (IsDone self.old (events.Return replica place) self.new) }
        ensures refused { IfErr result (λ e. IsRefusal self.old (events.Return replica place) e self.new) }
    {
        if replica >= self.replicas.len() || place >= self.results.len() {
            return Err(WorldError::NoSuch);
        }
        self.replicas[replica].give_back(alloc, &self.results[place])?;
        Ok(())
    }

    // Abandons the job of a result at a replica.
    //
    // Errors: W1 for a replica or a result that is not there.
    pub(super) fn abandon(&mut self, replica: usize, place: usize) -> Result<(), WorldError>
        ensures done { OnOk result (IsDone self.old (events.Abandon replica place) self.new) }
        ensures refused { IfErr result (λ e. IsRefusal self.old (events.Abandon replica place) e self.new) }
    {
        if replica >= self.replicas.len() || place >= self.results.len() {
            return Err(WorldError::NoSuch);
        }
        let ticket = self.results[place].ticket();
        let _was_out = self.replicas[replica].abandon(ticket);
        Ok(())
    }
}
