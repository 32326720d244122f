//! Packets that come to replicas.

ghost use Rattle.std.specs.Prelude.{◌≡◌, ◌<◌, length, IfOk, IfErr, OnOk};
ghost use Rattle.core_rules.specs.declared.error.CoreError.TheVariants as core_errors;
ghost use Rattle.replica_world.specs.declared.error.WorldError.TheVariants as errors;
ghost use Rattle.replica_world.specs.declared.event.Event.TheVariants as events;
ghost use Rattle.replica_world.specs.Events.{IsDone, IsRefusal, Carries};

use super::World;
use crate::error::WorldError;
use core_rules::CoreError;
use spd_codec::decode;
use std::alloc::Global;
use stroke_lattice::Delta;

impl World {
    // Merges the delta of a packet into a replica's core. It then counts among those that the replica took.
    //
    // Errors: W1 for a replica or a packet that is not there, else W2.
    pub(super) fn deliver(
        &mut self,
        alloc: Global,
        replica: usize,
        packet: usize,
    ) -> Result<(), WorldError>
        ensures done { OnOk result (IsDone self.old (events.Deliver replica packet) self.new) }
        ensures refused { IfErr result (λ e. IsRefusal self.old (events.Deliver replica packet) e self.new) }
    {
        if replica >= self.replicas() || packet >= self.packets() {
            return Err(WorldError::NoSuch);
        }
        let delta = self.delta_of(alloc, packet)?;
        self.edit(alloc, replica, &delta)
    }

    // The delta that a packet spells.
    //
    // Errors: W2 with C4.
    fn delta_of(&self, alloc: Global, packet: usize) -> Result<Delta, WorldError>
        requires { packet < length self.now.packets }
        ensures spelled { IfOk result (Carries self.now packet) }
        ensures memory { IfErr result (λ e. e ≡ errors.Core core_errors.Memory) }
    {
        match decode(alloc, self.packets[packet].bytes()) {
            Ok(frame) => Ok(frame.delta),
            // The packet is a frame, so nothing but memory can be wanting.
            Err(_) => Err(WorldError::Core(CoreError::Memory)),
        }
    }
}
