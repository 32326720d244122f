//! Pieces of replicas that are sent.

ghost use Rattle.std.specs.Prelude.{◌≡◌, ◌≤◌, IfErr, OnOk, OnErr};
ghost use Rattle.stroke_lattice.specs.Pieces.{frame_length};
ghost use Rattle.spd_codec.specs.Spelling.{max_bytes};
ghost use Rattle.replica_world.specs.declared.event.Event.TheVariants as events;
ghost use Rattle.replica_world.specs.Events.{IsDone, IsRefusal, with_frame};

use super::World;
use crate::error::WorldError;
use crate::packet::Packet;
use grid_core::Memory;
use spd_codec::{MAX_BYTES, SpdError, encode};
use std::alloc::Global;
use stroke_lattice::Delta;

impl World {
    // Sends the frame of a piece of a replica's strokes: it is the next packet.
    //
    // Errors: W1 for a replica or a piece that is not there, else W2 with C4.
    pub(super) fn send(
        &mut self,
        alloc: Global,
        replica: usize,
        part: usize,
    ) -> Result<(), WorldError>
        ensures done { OnOk result (IsDone self.old (events.Send replica part) self.new) }
        ensures refused { IfErr result (λ e. IsRefusal self.old (events.Send replica part) e self.new) }
    {
        if replica >= self.replicas() {
            return Err(WorldError::NoSuch);
        }
        let pieces = self.core(replica).state().split(alloc, MAX_BYTES)?;
        if part >= pieces.len() {
            return Err(WorldError::NoSuch);
        }
        self.keep_frame(alloc, &pieces[part])?;
        Ok(())
    }

    // Keeps the frame of a delta as the next packet.
    //
    // Errors: out of memory.
    fn keep_frame(&mut self, alloc: Global, delta: &Delta) -> Result<(), Memory>
        requires { frame_length delta.now ≤ max_bytes }
        ensures kept { OnOk result (self.new ≡ with_frame self.old delta.now) }
        ensures err { OnErr result (self.new ≡ self.old) }
    {
        self.packets.reserve(1)?;
        match encode(alloc, self.conn, &self.print, delta) {
            Ok(bytes) => {
                self.packets.push_reserved(Packet::new(bytes));
                Ok(())
            }
            Err(SpdError::TooLong) => unreachable!(),
            Err(_) => Err(Memory),
        }
    }
}
