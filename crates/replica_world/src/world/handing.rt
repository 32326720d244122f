//! Hints that are handed to their pixels.

ghost use Rattle.std.specs.Prelude.{OnOk, IfErr};
ghost use Rattle.replica_world.specs.declared.event.Event.TheVariants as events;
ghost use Rattle.replica_world.specs.Events.{IsDone, IsRefusal};

use super::World;
use crate::error::WorldError;
use core_rules::Handed;

impl World {
    // Hands over a hint that waits at a tile of a replica.
    //
    // Errors: W1 for a replica, a tile or a hint that is not there.
    pub(super) fn hand(
        &mut self,
        replica: usize,
        tile: usize,
        place: usize,
    ) -> Result<(), WorldError>
        ensures done { OnOk result (IsDone self.old (events.Hand replica tile place) self.new) }
        ensures refused { IfErr result (λ e. IsRefusal self.old (events.Hand replica tile place) e self.new) }
    {
        if replica >= self.replicas.len() {
            return Err(WorldError::NoSuch);
        }
        if let Handed::Nothing = self.replicas[replica].hand(tile, place) {
            return Err(WorldError::NoSuch);
        }
        Ok(())
    }
}
