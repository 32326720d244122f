//! What a node's run makes of an input.

ghost use Rattle.std.specs.Prelude.{◌≡◌, ◌⊎◌, IfOk, IfErr};
ghost use Rattle.byte_devices.specs.Device.{HasRisenBy};
ghost use Rattle.grid_core.specs.Tiles.{IsTileSide};
ghost use Rattle.pgm_codec.specs.Graymap.{IsGraymap};
ghost use Rattle.stroke_lattice.specs.State.{StateFits};
ghost use Rattle.derived_views.specs.Shown.{IsShown};
ghost use Rattle.core_rules.specs.Work.{IsQuiet};
ghost use Rattle.reset_core.specs.Starting.{IsBegunWith};
ghost use Rattle.run_faults.specs.RunError.{IsReadingFault};
ghost use Rattle.node_session.specs.Shared.{IsStrokesShared, NodeStops};
ghost use Rattle.studio.specs.Opening.{IsCount};
ghost use Rattle.node_session.specs.Given.{HasGiven};
ghost use Rattle.node_session.specs.Working.{IsCoreOf};

use crate::sharing::{Sharing, Shift, share};
use band_growth::ManyThreads;
use grid_core::{Conn, Memory};
use link_nodes::Link;
use pgm_codec::{Image, below_keeps_maxval};
use raster_sweeps::{Blanks, Grower};
use reset_core::{Core, TileSet};
use run_faults::RunError;
use spd_codec::Print;
use std::alloc::Global;
use std::marker::Sync;
use std::sync::Wait;
use std::thread::{Threads, available_parallelism};
use std::time::Clock;
use stroke_lattice::State;
use view_session::gathering::{Gathered, gather_beside};
use view_session::joining::Strokes;

// The images that a node makes: marker and image of a core, and the copies of mask and image that are shown first.
const IMAGES: usize = 4;

/// How an input is painted: which pixels are neighbours, the side of the tiles, and who works for how long.
#[derive(Clone, Copy)]
pub(crate) struct Plan {
    pub(crate) conn: Conn,
    pub(crate) side: u32,
    pub(crate) shift: Shift,
}

/// The image that an input asks for over the old bytes of a state file and what a node brings, and the strokes that it
/// shows.
///
/// Errors: those of [`node_run`](crate::node_run) but the devices', C5 and M8 for the new bytes.
pub(crate) fn paint<R: Threads + Wait + Clock + Sync, L: Link>(
    rt: &R,
    alloc: Global,
    input: &[u8],
    old: &[u8],
    plan: Plan,
    link: &mut L,
) -> Result<(Image, Strokes), RunError>
    requires { IsTileSide plan.side }
    ensures hands { IfOk result (λ _. IsCount plan.shift.hands) }
    ensures polled { IfOk result (λ _.
        HasRisenBy plan.shift.ticks (L.seen link.old).polls (L.seen link.new).polls) }
    ensures shown { IfOk result (λ parts. (given : _) × HasGiven (L.seen link.old) (L.seen link.new) given
        × IsStrokesShared plan.conn old.now input.now given parts.0 parts.1) }
    ensures refused { IfErr result (λ e. IsReadingFault e
        ⊎ NodeStops plan.conn plan.shift.hands old.now input.now e) }
{
    let grower = ManyThreads::new(rt);
    let (gathered, mut blanks) = gather_beside(&grower, alloc, IMAGES, input, old, plan.conn)?;
    let Gathered { mask, print, state } = gathered;
    let maxval = mask.maxval();
    let core = core_of(&grower, alloc, mask, &mut blanks, state, plan)?;
    let sharing = Sharing {
        conn: plan.conn,
        print,
        shift: plan.shift,
    };
    let shared = share(rt, alloc, core, blanks, sharing, link)?;
    let quiet = settled(rt, alloc, shared)?;
    Ok(shown(quiet, maxval, print))
}

// A core of the mask that begins with these strokes, which fit it, so that memory alone can be wanting. Its image is
// grown at once, by `grower`.
fn core_of<G: Grower>(
    grower: &G,
    alloc: Global,
    mask: Image,
    blanks: &mut Blanks,
    state: State,
    plan: Plan,
) -> Result<Core, Memory>
    requires side { IsTileSide plan.side }
    requires fits { StateFits mask.raster.width mask.raster.height state }
    ensures { IfOk result (IsBegunWith mask.raster plan.conn plan.side 0 state) }
{
    match Core::over_state(
        grower,
        alloc,
        mask.into_grid(),
        blanks,
        plan.conn,
        plan.side,
        0,
        &state,
    ) {
        Ok(core) => Ok(core),
        Err(_refused) => Err(Memory),
    }
}

// Lets a core go, for want of memory.
fn let_go(core: Core) -> Memory {
    drop(core);
    Memory
}

// The core, when no work is left. What several threads leave of it is done by this one.
fn settled<R: Threads + Sync>(rt: &R, alloc: Global, core: Core) -> Result<Core, Memory>
    ensures quiet { IfOk result IsQuiet }
    ensures same { IfOk result (IsCoreOf core.mask core.conn core.state) }
{
    let mut core = core;
    settle_in_threads(rt, alloc, &mut core);
    match core.settle(alloc) {
        Ok(_count) => Ok(core),
        Err(Memory) => Err(let_go(core)),
    }
}

// Settles a core by as many threads as the system says that may run at once, as far as there is memory.
fn settle_in_threads<R: Threads + Sync>(rt: &R, alloc: Global, core: &mut Core)
    ensures { IsCoreOf core.old.mask core.old.conn core.old.state core.new }
{
    if core.is_quiet() {
        return;
    }
    let Ok(processors) = available_parallelism(rt) else {
        return;
    };
    let Ok(mut swept) = TileSet::empty(alloc, core.tiles()) else {
        return;
    };
    let _ = core.settle_in_bands(rt, alloc, &mut swept, processors.get(), u64::MAX);
}

// The image of a core at which no work is left, with the mask's maxval, and its strokes for the mask of this print.
fn shown(core: Core, maxval: u16, print: Print) -> (Image, Strokes)
    requires quiet { IsQuiet core }
    requires graymap { IsGraymap (record { raster = core.mask; maxval = maxval }) }
    ensures shown { IsShown core.conn (record { raster = core.mask; maxval = maxval }) core.state result.0 }
    ensures strokes { result.1 ≡ record {
      conn = core.conn;
      print = print;
      width = core.mask.width;
      height = core.mask.height;
      state = core.state;
    } }
{
    below_keeps_maxval();
    // For their clauses alone: the image is the reconstruction from the marker, and the marker is that of the strokes.
    let _image = core.image();
    let _marker = core.marker();
    let conn = core.conn();
    let (mask, image, state) = core.into_parts();
    let strokes = Strokes {
        conn,
        print,
        width: mask.width(),
        height: mask.height(),
        state,
    };
    (Image::over(image, maxval), strokes)
}
