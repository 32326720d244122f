//! What becomes of a datagram.

ghost use Rattle.std.specs.Prelude.{◌≡◌, ◌⊎◌, ℕ, ◌≤◌, List, length};
ghost use Rattle.grid_core.specs.declared.conn.Conn.{Conn as Neighbours};
ghost use Rattle.core_dispatch.specs.Pens.{submitted, free_places, KeepsDesk};
ghost use Rattle.spd_codec.specs.{Spelling.SpellsFrame, Spelling.max_bytes, Faults.IsFault};
ghost use Rattle.spd_codec.specs.declared.error.SpdError.TheVariants as faults;
ghost use Rattle.link_nodes.specs.Hearing.{Hears, IsAnswer, IsRefusal};
ghost use Rattle.link_nodes.specs.declared.ticked.Heard.TheVariants as heards;

use crate::error::NodeError;
use crate::link::{BUFFER_BYTES, Link};
use crate::ticked::Heard;
use byte_devices::Fault;
use core_dispatch::Pen;
use grid_core::Conn;
use spd_codec::{Frame, Print, SpdError, decode};
use std::alloc::Global;

/// Polls once, and submits the strokes of the frame that came, if it is for the image of this fingerprint, with these
/// neighbours.
pub(crate) fn hear<L: Link>(
    alloc: Global,
    link: &mut L,
    conn: Conn,
    print: &Print,
    pen: &mut Pen,
) -> Heard
    ensures heard { Hears conn print.now (submitted pen.old) (submitted pen.new) (L.seen link.old)
        (L.seen link.new) result }
    ensures full { result ≡ heards.Full → free_places pen.new ≡ 0 }
    ensures desk { KeepsDesk pen.old pen.new }
{
    let mut buffer = [0; BUFFER_BYTES];
    match link.poll(&mut buffer) {
        Ok(Some(length)) => answer(alloc, &buffer[..length], conn, print, pen),
        Ok(None) => Heard::Nothing,
        Err(Fault) => Heard::Refused(NodeError::Device),
    }
}

// Submits the strokes that a datagram spells.
fn answer(alloc: Global, datagram: &[u8], conn: Conn, print: &Print, pen: &mut Pen) -> Heard
    ensures answer { IsAnswer conn print.now (submitted pen.old) (submitted pen.new) datagram.now result }
    ensures full { result ≡ heards.Full → free_places pen.new ≡ 0 }
    ensures desk { KeepsDesk pen.old pen.new }
{
    match decode(alloc, datagram) {
        Ok(frame) => submit(frame, conn, print, pen),
        Err(fault) => Heard::Refused(refusal(fault)),
    }
}

// Why a datagram is refused, of which decoding gave this fault; or found no memory, as it may where it is not too long.
fn refusal(fault: SpdError) -> NodeError
    ensures { (conn : Neighbours) (print datagram : List ℕ)
        → ((fault ≡ faults.Memory) × (length datagram ≤ max_bytes)) ⊎ IsFault datagram fault
        → IsRefusal conn print datagram result }
{
    match fault {
        SpdError::Memory => NodeError::Memory,
        _ => NodeError::Spd(fault),
    }
}

// Submits the strokes of a frame.
#[tactic(auto, using(crate::proofs::Answering::for_this))]
fn submit(frame: Frame, conn: Conn, print: &Print, pen: &mut Pen) -> Heard
    ensures answer { (datagram : List ℕ) → SpellsFrame datagram frame
        → IsAnswer conn print.now (submitted pen.old) (submitted pen.new) datagram result }
    ensures full { result ≡ heards.Full → free_places pen.new ≡ 0 }
    ensures desk { KeepsDesk pen.old pen.new }
{
    if !frame.is_for(conn, print) {
        return Heard::Refused(NodeError::OtherMask);
    }
    match pen.submit(frame.delta) {
        Ok(()) => Heard::Submitted,
        Err(_full) => Heard::Full,
    }
}
