//! A core that is shared: a studio over it, in which hands sweep and a node ticks.

ghost use Rattle.std.specs.Prelude.{◌≡◌, IfOk, IfErr};
ghost use Rattle.link_nodes.specs.Nodes.{pen_of, eye_of, conn_of, print_of};
ghost use Rattle.studio.specs.Opening.{IsCount, IsOpened};
ghost use Rattle.studio.specs.Keeping.{core_of};
ghost use Rattle.run_faults.specs.RunError.{IsStudioFault};
ghost use Rattle.run_faults.specs.declared.run_error.RunError.TheVariants as errors;
ghost use Rattle.node_session.specs.Shared.{StudioFails, opening_fault};
ghost use Rattle.node_session.specs.Working.{IsShared, IsOneStudio, IsNewDesk, WorksOn};

use crate::desk::Desk;
use crate::ending::close;
use crate::faults::open_fault;
use crate::hands::run_all;
use core_dispatch::Pen;
use grid_core::Conn;
use link_nodes::{Link, Node};
use raster_sweeps::Blanks;
use reset_core::Core;
use run_faults::{RunError, StudioFault};
use spd_codec::Print;
use std::alloc::Global;
use std::sync::Wait;
use std::sync::atomic::{AtomicBool, Ordering};
use std::thread::{Threads, join_mut};
use std::time::Clock;
use steal_pool::Hand;
use studio::{Eye, NotOpened, Studio};

/// Who works in the studio of a node, and for how long.
#[derive(Clone, Copy)]
pub(crate) struct Shift {
    /// How many hands sweep, each in a thread of its own.
    pub(crate) hands: usize,
    /// How many ticks the node makes.
    pub(crate) ticks: u32,
}

/// How a core is shared: for which image, and who works for how long.
#[derive(Clone, Copy)]
pub(crate) struct Sharing {
    pub(crate) conn: Conn,
    pub(crate) print: Print,
    pub(crate) shift: Shift,
}

/// Shares a core over the link, and gives it back once all hands have ended and the studio is closed. Work may be left.
/// What is shown first is copied into memory of the blanks.
///
/// Errors: U1 to U3 and B1 to B3.
pub(crate) fn share<R: Threads + Wait + Clock + Sync, L: Link>(
    rt: &R,
    alloc: Global,
    core: Core,
    blanks: Blanks,
    sharing: Sharing,
    link: &mut L,
) -> Result<Core, RunError>
    ensures hands { IfOk result (λ _. IsCount sharing.shift.hands) }
    ensures shared { IfOk result (IsShared sharing.conn sharing.print sharing.shift.ticks
        (L.seen link.old) (L.seen link.new) core) }
    ensures refused { IfErr result (StudioFails sharing.shift.hands) }
{
    let shift = sharing.shift;
    let hands = shift.hands;
    match Studio::open_over(rt, alloc, core, blanks, 1, hands, 1) {
        Ok(studio) => share_in(rt, alloc, studio, sharing, link),
        Err(not_opened) => Err(refusal_of(not_opened)),
    }
}

// Why there is no studio. The core is let go.
fn refusal_of(not_opened: NotOpened) -> RunError
    ensures { result ≡ errors.Studio (opening_fault not_opened.why) }
{
    let why = not_opened.why;
    drop(not_opened);
    open_fault(why)
}

// Shares the core of a studio with one pen and one eye.
fn share_in<R: Threads + Wait + Clock + Sync, L: Link>(
    rt: &R,
    alloc: Global,
    studio: Studio,
    sharing: Sharing,
    link: &mut L,
) -> Result<Core, RunError>
    requires opened { (core : _) × IsOpened core 1 sharing.shift.hands 1 studio }
    ensures shared { IfOk result (IsShared sharing.conn sharing.print sharing.shift.ticks
        (L.seen link.old) (L.seen link.new) (core_of studio.keeper)) }
    ensures refused { IfErr result IsStudioFault }
{
    let shift = sharing.shift;
    let ticks = shift.ticks;
    let (desk, hands) = desk_of(rt, studio, sharing)?;
    let mut desk = desk;
    let mut hands = hands;
    work(rt, alloc, &mut desk, &mut hands, ticks, link);
    close(rt, alloc, desk)
}

// The keeper and a node of a studio, and its hands. There is a pen and an eye, so that it never fails.
fn desk_of<R: Wait>(rt: &R, studio: Studio, sharing: Sharing) -> Result<(Desk, Vec<Hand>), RunError>
    requires { (core : _) × IsOpened core 1 sharing.shift.hands 1 studio }
    ensures desk { IfOk result (λ parts.
        IsNewDesk (core_of studio.keeper) sharing.conn sharing.print parts.0) }
    ensures refused { IfErr result IsStudioFault }
{
    let Studio {
        keeper,
        mut pens,
        hands,
        mut eyes,
    } = studio;
    match (pens.pop(), eyes.pop()) {
        (Some(pen), Some(eye)) => {
            let node = node_of(pen, eye, sharing);
            Ok((Desk { keeper, node }, hands))
        }
        _ => {
            drop(keeper.end(rt));
            Err(RunError::Studio(StudioFault::EndMissing))
        }
    }
}

// A node for the image that is shared.
fn node_of(pen: Pen, eye: Eye, sharing: Sharing) -> Node
    ensures pen { pen_of result ≡ pen }
    ensures eye { eye_of result ≡ eye }
    ensures image { (conn_of result ≡ sharing.conn) × (print_of result ≡ sharing.print) }
{
    Node::new(pen, eye, sharing.conn, sharing.print)
}

// Lets the hands work in threads of their own while keeper and node make their ticks in this one. All have ended
// afterwards. Where no thread can be made the ticks come first, so that the hands see the flag.
fn work<R: Threads + Wait + Clock + Sync, L: Link>(
    rt: &R,
    alloc: Global,
    desk: &mut Desk,
    hands: &mut Vec<Hand>,
    ticks: u32,
    link: &mut L,
)
    requires studio { IsOneStudio desk.old }
    ensures { WorksOn ticks desk.old desk.new (L.seen link.old) (L.seen link.new) }
{
    let done = AtomicBool::new(false);
    let flag = &done;
    let threads = hands.len().saturating_add(1);
    join_mut(
        rt,
        &mut || run_all(rt, hands, flag),
        &mut ||
            requires { IsOneStudio desk.now }
            ensures { WorksOn ticks desk.entry.now desk.exit.now (L.seen link.entry.now) (L.seen link.exit.now) }
        {
            desk.ticks(rt, alloc, link, ticks, threads);
            flag.store(true, Ordering::SeqCst);
        },
    );
}
