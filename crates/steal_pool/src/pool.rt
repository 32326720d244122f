//! Pools.

ghost use Rattle.std.specs.Prelude.{◌≡◌, ◌≤◌, [], length, replicate, IfOk};
ghost use Rattle.crossbeam_deque.specs.Handles.{stealer_deque};
ghost use Rattle.rtrb.specs.Ring.{sent, known_free, received, known_items};
ghost use Rattle.steal_pool.specs.Names.{sent_into, read_from};
ghost use Rattle.steal_pool.specs.Parcels.{IsHeader};
ghost use Rattle.steal_pool.specs.Views.{AreFresh, HasRooms, ring_room};

use crate::desk::Desk;
use crate::hand::Hand;
use crate::owner::Owner;
use crate::parcel::{Parcel, Reporting};
use crate::rule::{Deal, EndView};
use crossbeam_deque::{Stealer, Worker};
use grid_core::Memory;
use raster_sweeps::Room;
use rtrb::{Consumer, Producer, RingBuffer};
use std::alloc::{AllocError, Global};
use tile_generations::Job;

/// How many reports of a hand wait at most to be collected, beside the one that it holds.
const REPORTS: usize = 64;

/// The pixels of the largest tile, which a hand has room to sweep.
const PIXELS: u32 = 256 * 256;

// A ring for the reports of a hand, with all its places known to be free. Its header went through it.
#[tactic(auto, using(crate::proofs::Deals::admits))]
fn ring(
    alloc: Global,
    stealer: &Stealer<Job, Global, EndView, Deal>,
) -> Result<
    (
        Producer<Parcel, Global, Reporting>,
        Consumer<Parcel, Global, Reporting>,
    ),
    AllocError,
>
    ensures names { IfOk result (λ ends. sent_into ends.0 ≡ read_from ends.1) }
    ensures places { IfOk result (λ ends. (read_from ends.1).0 ≡ ring_room) }
    ensures sent { IfOk result (λ ends. IsHeader (stealer_deque stealer.now) (sent ends.0)) }
    ensures free { IfOk result (λ ends. known_free ends.0 ≡ ring_room) }
    ensures received { IfOk result (λ ends. IsHeader (stealer_deque stealer.now) (received ends.1)) }
    ensures none_seen { IfOk result (λ ends. known_items ends.1 ≡ []) }
{
    let (mut producer, mut consumer) = RingBuffer::<Parcel>::with_protocol::<Global, Reporting>(
        alloc, REPORTS,
    )?;
    producer.push_reserved(Parcel::header(stealer.pass()));
    consumer.slots_beside(&mut producer);
    let _header = consumer.pop_known();
    producer.slots_beside(&mut consumer);
    consumer.slots_beside(&mut producer);
    Ok((producer, consumer))
}

/// An owner and its hands, which go their own ways.
#[derive(Drop)]
pub struct Pool {
    /// Who pushes jobs, and collects what comes of them.
    pub owner: Owner,
    /// Who sweeps them. The owner calls them by their index here.
    pub hands: Vec<Hand>,
}

impl Pool {
    /// An owner, whose first `capacity` pushes succeed, and 1 to 16 hands that did nothing yet. The hands steal from
    /// the owner's deque, and each has a ring of 64 places, which the owner reads.
    ///
    /// Errors: out of memory. A capacity above 2^39 is taken for that.
    #[tactic(auto, using(crate::proofs::Deals::begins))]
    pub fn open(alloc: Global, hands: usize, capacity: usize) -> Result<Pool, Memory>
        requires some { 1 ≤ hands }
        requires few { hands ≤ 16 }
        ensures pushed { IfOk result (λ pool. pool.owner.pushed ≡ []) }
        ensures capacity { IfOk result (λ pool. pool.owner.capacity ≡ capacity) }
        ensures collected { IfOk result (λ pool. pool.owner.collected ≡ replicate hands []) }
        ensures waiting { IfOk result (λ pool. pool.owner.waiting ≡ replicate hands []) }
        ensures rings { IfOk result (λ pool. length pool.owner.rings ≡ hands) }
        ensures rooms { IfOk result (λ pool. HasRooms pool.owner) }
        ensures hands { IfOk result (λ pool. AreFresh pool.owner pool.hands.items) }
    {
        let deque: Worker<Job, Global, EndView, Deal> = Worker::fifo_as(alloc, capacity)?;
        let mut rings = Vec::with_capacity(alloc, hands)?;
        let mut all = Vec::with_capacity(alloc, hands)?;
        for _hand in 0..hands {
            let stealer = deque.stealer()?;
            let (producer, consumer) = ring(alloc, &stealer)?;
            let room = Room::new(alloc, PIXELS)?;
            rings.push(consumer)?;
            all.push(Hand::new(alloc, room, Desk::new(stealer, producer)))?;
        }
        Ok(Pool {
            owner: Owner {
                deque,
                capacity,
                pushes: 0,
                rings,
            },
            hands: all,
        })
    }
}
