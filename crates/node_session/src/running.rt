//! The run of a node: from bytes in to bytes out.

ghost use Rattle.std.specs.Prelude.{◌≡◌, ◌⊎◌, IfOk, IfErr};
ghost use Rattle.byte_devices.specs.Device.{HasRisenBy};
ghost use Rattle.grid_core.specs.Tiles.{IsTileSide};
ghost use Rattle.view_session.specs.Answering.{AnswersForSide};
ghost use Rattle.run_faults.specs.RunError.{IsReadingFault};
ghost use Rattle.studio.specs.Opening.{IsCount};
ghost use Rattle.node_session.specs.Given.{HasGiven};
ghost use Rattle.node_session.specs.Shared.{IsImageShared, IsNodeView, IsStrokesNode, NodeStops};

use crate::painting::{Plan, paint};
use crate::sharing::Shift;
use byte_devices::{Sink, Source};
use core_rules::CoreError;
use grid_core::{Conn, is_tile_side};
use link_nodes::Link;
use pgm_codec::{Image, one_fault, read_all, write_to};
use run_faults::RunError;
use spd_codec::write_frames;
use std::alloc::Global;
use std::sync::Wait;
use std::thread::Threads;
use std::time::Clock;
use view_session::joining::Strokes;

/// Reads an input to its end, and merges the strokes and tombstones that the old bytes of a state file spell and then
/// the input's deltas, as [`view_kept`](view_session::view::view_kept) does. A core begins with them, whose image is
/// grown at once, by [`ManyThreads`](band_growth::ManyThreads); then they are shared in a studio for so many ticks. At
/// each tick the keeper takes a turn and shows the core, and the node polls the link once, submits what it hears and
/// sends a piece of what is shown. Between ticks it rests for a millisecond. At last it closes the studio, works until
/// no work is left, and writes the image as a raw PGM file with the mask's maxval. Answers the new bytes of the state
/// file.
///
/// A datagram that is refused, a link that fails and memory that is wanting within a tick do not end it, and neither
/// does a thread that cannot be started: without hands the work is done at the end.
///
/// Errors, the first that is met: C5 where the side is less than 8 or more than 256, with source, sink and link as they
/// were; those of [`view_kept`](view_session::view::view_kept); U1 where there are not 1 to 16 hands; U2 and U3 where
/// no studio could be opened; B1 to B3 where it could not be closed; plain want of memory behind all that is
/// merged, and M8 for the new bytes. Nothing is written, unless the sink failed: then a front of the file.
pub fn node_run<R: Threads + Wait + Clock + Sync, S: Source, L: Link, K: Sink>(
    rt: &R,
    alloc: Global,
    source: &mut S,
    old: &[u8],
    conn: Conn,
    side: u32,
    hands: usize,
    ticks: u32,
    link: &mut L,
    sink: &mut K,
) -> Result<Vec<u8>, RunError>
    ensures answers { AnswersForSide side
        (λ input new text.
        IsNodeView conn hands ticks old.now (L.seen link.old) (L.seen link.new) input text new.items)
        (NodeStops conn hands old.now) result S.seen source.old source.new K.seen sink.old sink.new }
    ensures polled { IfOk result (λ _. HasRisenBy ticks (L.seen link.old).polls (L.seen link.new).polls) }
    ensures link { (IsTileSide side → ⊥) → link.new ≡ link.old }
{
    if !is_tile_side(side) {
        return Err(RunError::Core(CoreError::BadSide));
    }
    one_fault();
    let input = read_all(alloc, source)?;
    let shift = Shift { hands, ticks };
    let plan = Plan { conn, side, shift };
    let (image, new) = spelled(rt, alloc, &input, old, plan, link)?;
    write_to(alloc, &image, sink)?;
    Ok(new)
}

/// As [`node_run`], and answers the strokes that the state file is to keep.
///
/// Errors: as [`node_run`], but M8 for the new bytes.
pub fn node_strokes<R: Threads + Wait + Clock + Sync, S: Source, L: Link, K: Sink>(
    rt: &R,
    alloc: Global,
    source: &mut S,
    old: &[u8],
    conn: Conn,
    side: u32,
    hands: usize,
    ticks: u32,
    link: &mut L,
    sink: &mut K,
) -> Result<Strokes, RunError>
    ensures answers { AnswersForSide side
        (λ input strokes text.
        IsStrokesNode conn hands ticks old.now (L.seen link.old) (L.seen link.new) input text strokes)
        (NodeStops conn hands old.now) result S.seen source.old source.new K.seen sink.old sink.new }
    ensures link { (IsTileSide side → ⊥) → link.new ≡ link.old }
{
    if !is_tile_side(side) {
        return Err(RunError::Core(CoreError::BadSide));
    }
    one_fault();
    let input = read_all(alloc, source)?;
    let shift = Shift { hands, ticks };
    let plan = Plan { conn, side, shift };
    let (image, strokes) = paint(rt, alloc, &input, old, plan, link)?;
    write_to(alloc, &image, sink)?;
    Ok(strokes)
}

// The image that an input asks for, and the new bytes of the state file.
fn spelled<R: Threads + Wait + Clock + Sync, L: Link>(
    rt: &R,
    alloc: Global,
    input: &[u8],
    old: &[u8],
    plan: Plan,
    link: &mut L,
) -> Result<(Image, Vec<u8>), RunError>
    requires { IsTileSide plan.side }
    ensures hands { IfOk result (λ _. IsCount plan.shift.hands) }
    ensures polled { IfOk result (λ _.
        HasRisenBy plan.shift.ticks (L.seen link.old).polls (L.seen link.new).polls) }
    ensures shown { IfOk result (λ parts. (given : _) × (state : _) × HasGiven (L.seen link.old) (L.seen link.new) given
        × IsImageShared plan.conn old.now input.now given state parts.0 parts.1.items) }
    ensures refused { IfErr result (λ e. IsReadingFault e
        ⊎ NodeStops plan.conn plan.shift.hands old.now input.now e) }
{
    let (image, strokes) = paint(rt, alloc, input, old, plan, link)?;
    let new = write_frames(alloc, strokes.conn, &strokes.print, &strokes.state)?;
    Ok((image, new))
}
