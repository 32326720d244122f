//! Worlds of replicas.

ghost use Rattle.std.specs.Prelude.{◌≡◌, ◌<◌, ◌≤◌, ◌⊎◌, ◌↔◌, [], length, replicate, slice_index_or, IfOk, IfErr};
ghost use Rattle.std.specs.Prelude.{IsErrOf};
ghost use Rattle.sha2.specs.Sha256.{sha256};
ghost use Rattle.pgm_codec.specs.Writing.{raw_text};
ghost use Rattle.stroke_lattice.specs.State.{IsJoinOf};
ghost use Rattle.core_rules.specs.declared.error.CoreError.TheVariants as core_errors;
ghost use Rattle.replica_world.specs.declared.error.WorldError.TheVariants as errors;
ghost use Rattle.replica_world.specs.World.{IsReplica, replica_at, core_at};
ghost use Rattle.replica_world.specs.Opening.{fresh_replica, opened_world};
ghost use Rattle.replica_world.specs.Headline.{IsFaithful, Agree};

use crate::error::WorldError;
use crate::laws::{equal_images_where_quiet, same_content_gives_equal_states};
use crate::packet::Packet;
use crate::replica::Replica;
use grid_core::{Conn, Memory};
use pgm_codec::Image;
use reset_core::Core;
use spd_codec::{Print, print_of};
use std::alloc::Global;
use std::marker::Model;
use stroke_lattice::Delta;
use tile_generations::Swept;

mod delivering;
mod editing;
mod handing;
mod running;
mod sending;
mod taking;

/// The greatest number of replicas of a world.
pub const MAX_REPLICAS: usize = 16;

/// Replicas of one mask, the packets that they sent, and the results of the jobs that were taken.
///
/// Packets and results are numbered over the whole world, from 0, and kept, so that they may be given again, in any
/// order and to any replica.
#[derive(Drop)]
pub struct World {
    conn: Conn,
    print: Print,
    replicas: Vec<Replica>,
    packets: Vec<Packet>,
    results: Vec<Swept>,
    steps: usize,
}

impl Model for World {
    ghost use Rattle.replica_world.specs.World.{World as Together};
    ghost use Rattle.stroke_core.specs.contracts.stroke.Stroke as stroke;
    ghost use Rattle.tile_generations.specs.contracts.swept.Swept as swept;
    ghost use Rattle.replica_world.specs.Stored.{world_of, world_code, IsStored};

    ghost Value = { Together };

    ghost coded = { world_code stroke.the_row.coded swept.the_row.coded };

    ghost view = { λ w. world_of w.conn w.print w.replicas.items w.packets.items w.results.items w.steps };

    ghost invariant = { λ w. IsStored w.conn w.print w.replicas.items w.packets.items };
}

impl World {
    /// A world of so many replicas of the image as their mask, with tiles of side 64, before anything happened.
    ///
    /// Errors: W1 where there are to be fewer than 1 or more than 16, else W2 with C4.
    pub fn open(alloc: Global, mask: &Image, conn: Conn, count: usize) -> Result<World, WorldError>
        ensures value { IfOk result (λ world.
            world ≡ opened_world mask.now.raster conn (sha256 (raw_text mask.now)) count) }
        ensures count { IsErrOf result errors.NoSuch ↔ ((count ≡ 0) ⊎ (16 < count)) }
        ensures others { IfErr result (λ e. (e ≡ errors.NoSuch) ⊎ (e ≡ errors.Core core_errors.Memory)) }
    {
        if count == 0 || count > MAX_REPLICAS {
            return Err(WorldError::NoSuch);
        }
        Ok(World {
            conn,
            print: print_of(mask),
            replicas: open_replicas(alloc, mask, conn, count)?,
            packets: Vec::new(alloc),
            results: Vec::new(alloc),
            steps: 0,
        })
    }

    /// The number of replicas.
    pub fn replicas(&self) -> usize
        ensures value { result ≡ length self.now.replicas }
        ensures some { 1 ≤ result }
        ensures few { result ≤ 16 }
    {
        self.replicas.len()
    }

    /// The number of packets that were sent.
    pub fn packets(&self) -> usize
        ensures { result ≡ length self.now.packets }
    {
        self.packets.len()
    }

    /// The bytes of a packet.
    pub fn packet(&self, packet: usize) -> &[u8]
        requires { packet < length self.now.packets }
        ensures { result.now ≡ slice_index_or self.now.packets packet [] }
    {
        self.packets[packet].bytes()
    }

    /// The results of the jobs that were taken.
    pub fn results(&self) -> &[Swept]
        ensures { result.now ≡ self.now.results }
    {
        &self.results
    }

    /// How many events the last run brought to an end, those that were refused included, but not one that ended it for
    /// want of memory. Before the first run it is 0.
    pub fn steps(&self) -> usize
        ensures { result ≡ self.now.steps }
    {
        self.steps
    }

    /// A replica's core. Its strokes are the join of the deltas that the replica took, at every moment its image lies
    /// between the marker of the strokes and the reconstruction of the mask from it, and where no work is left it is
    /// that reconstruction.
    pub fn core(&self, replica: usize) -> &Core
        requires { IsReplica self.now replica }
        ensures value { result.now ≡ core_at self.now replica }
        ensures faithful { IsFaithful self.now (replica_at self.now replica) }
    {
        let core = self.replicas[replica].core();
        let _ = core.image();
        core
    }

    /// The deltas that a replica took, one after another: those that were merged into its core, made here or delivered.
    pub fn took(&self, replica: usize) -> &[Delta]
        requires { IsReplica self.now replica }
        ensures value { result.now ≡ (replica_at self.now replica).took }
        ensures joined { IsJoinOf (replica_at self.now replica).took (core_at self.now replica).state }
    {
        self.replicas[replica].took()
    }

    /// A replica shows what it took. This does nothing.
    pub fn replica_is_faithful(&self, replica: usize)
        requires { IsReplica self.now replica }
        ensures { IsFaithful self.now (replica_at self.now replica) }
    {
        let _ = self.core(replica);
    }

    /// Two replicas that took the same strokes and withdrawals, in any order and with repeats, hold equal strokes, and
    /// where no work is left at either, equal images. This does nothing.
    pub fn replicas_agree(&self, replica: usize, other: usize)
        requires first { IsReplica self.now replica }
        requires second { IsReplica self.now other }
        ensures { Agree (replica_at self.now replica) (replica_at self.now other) }
    {
        self.replica_is_faithful(replica);
        self.replica_is_faithful(other);
        same_content_gives_equal_states();
        equal_images_where_quiet();
    }
}

// So many replicas of the mask, which took nothing.
//
// Errors: out of memory.
fn open_replicas(
    alloc: Global,
    mask: &Image,
    conn: Conn,
    count: usize,
) -> Result<Vec<Replica>, Memory>
    ensures { IfOk result (λ replicas. replicas.items ≡ replicate count (fresh_replica mask.now.raster conn)) }
{
    let mut replicas = Vec::with_capacity(alloc, count)?;
    for _replica in 0..count {
        match Replica::open(alloc, mask, conn) {
            Ok(replica) => replicas.push(replica)?,
            Err(_) => return Err(Memory),
        }
    }
    Ok(replicas)
}
