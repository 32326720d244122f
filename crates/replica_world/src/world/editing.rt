//! Deltas that are merged into replicas.

ghost use Rattle.std.specs.Prelude.{OnOk, IfErr};
ghost use Rattle.replica_world.specs.declared.event.Event.TheVariants as events;
ghost use Rattle.replica_world.specs.Events.{IsDone, IsRefusal};

use super::World;
use crate::error::WorldError;
use std::alloc::Global;
use stroke_lattice::Delta;

impl World {
    // Merges a delta into a replica's core. It then counts among those that the replica took.
    //
    // Errors: W1 for a replica that is not there, else W2.
    pub(super) fn edit(
        &mut self,
        alloc: Global,
        replica: usize,
        delta: &Delta,
    ) -> Result<(), WorldError>
        ensures done { OnOk result (IsDone self.old (events.Edit replica delta.now) self.new) }
        ensures refused { IfErr result (λ e. IsRefusal self.old (events.Edit replica delta.now) e self.new) }
    {
        if replica >= self.replicas.len() {
            return Err(WorldError::NoSuch);
        }
        self.replicas[replica].take_in(alloc, delta)?;
        Ok(())
    }
}
