//! What an input shows: its image, made once from the join of all deltas.

ghost use Rattle.std.specs.Prelude.{◌++◌, ◌⊎◌, IfOk, IfErr, map};
ghost use Rattle.view_session.specs.Joining.{IsStrokesImage};
ghost use Rattle.view_session.specs.Kept.{IsImageKept, KeptStops};
ghost use Rattle.view_session.specs.Merging.{AreMerged};
ghost use Rattle.run_faults.specs.RunError.{IsReadingFault};
ghost use Rattle.derived_views.specs.Shown.{IsShown};
ghost use Rattle.view_session.specs.View.{DeltasAreRefused, DeltasHalt, InputStops, IsImageOfView};

use crate::gathering::gather_beside;
use crate::input::read_beside;
use crate::joining::Strokes;
use crate::merging::{HasDelta, merge_all};
use derived_views::reconstruction_in;
use edit_lang::LineDelta;
use grid_core::Conn;
use pgm_codec::Image;
use raster_sweeps::{Blanks, Grower};
use run_faults::RunError;
use spd_codec::write_frames;
use std::alloc::Global;
use std::slice;
use stroke_lattice::State;

/// The image that an input asks for over an old state, and the state that it shows.
///
/// Errors: those of [`view_from`](crate::view::view_from) but the devices'.
pub(crate) fn show_over<G: Grower>(
    grower: &G,
    alloc: Global,
    input: &[u8],
    old: &State,
    conn: Conn,
) -> Result<(Image, State), RunError>
    ensures shown { IfOk result (λ parts. IsImageOfView conn old.now input.now parts.1 parts.0) }
    ensures refused { IfErr result (λ e. IsReadingFault e ⊎ InputStops old.now input.now e) }
{
    let (deltas, mask, blanks) = read_beside(grower, alloc, input)?;
    show(
        grower,
        alloc,
        blanks,
        &mask,
        slice::from_ref(old),
        &deltas,
        conn,
    )
}

/// The image that an input asks for over the old bytes of a state file, and the new bytes.
///
/// Errors: those of [`view_kept`](crate::view::view_kept) but the devices' and C5.
pub(crate) fn show_kept<G: Grower>(
    grower: &G,
    alloc: Global,
    input: &[u8],
    old: &[u8],
    conn: Conn,
) -> Result<(Image, Vec<u8>), RunError>
    ensures shown { IfOk result (λ parts. (state : _)
        × IsImageKept conn old.now input.now state parts.0 parts.1.items) }
    ensures refused { IfErr result (λ e. IsReadingFault e ⊎ KeptStops conn old.now input.now e) }
{
    let (image, strokes) = show_strokes(grower, alloc, input, old, conn)?;
    let new = write_frames(alloc, conn, &strokes.print, &strokes.state)?;
    Ok((image, new))
}

/// The image that an input asks for over the old bytes of a state file, and the strokes that it shows.
///
/// Errors: as [`show_kept`].
pub(crate) fn show_strokes<G: Grower>(
    grower: &G,
    alloc: Global,
    input: &[u8],
    old: &[u8],
    conn: Conn,
) -> Result<(Image, Strokes), RunError>
    ensures shown { IfOk result (λ parts. IsStrokesImage conn old.now input.now parts.0 parts.1) }
    ensures refused { IfErr result (λ e. IsReadingFault e ⊎ KeptStops conn old.now input.now e) }
{
    let (gathered, blanks) = gather_beside(grower, alloc, 1, input, old, conn)?;
    let image = reconstruction_in(grower, alloc, blanks, &gathered.mask, &gathered.state, conn)?;
    let strokes = Strokes {
        conn,
        width: gathered.mask.width(),
        height: gathered.mask.height(),
        print: gathered.print,
        state: gathered.state,
    };
    Ok((image, strokes))
}

// The image that a mask shows of old deltas and of those of lines, merged in order, and the state that they join to.
fn show<G: Grower, D: HasDelta>(
    grower: &G,
    alloc: Global,
    blanks: Blanks,
    mask: &Image,
    old: &[D],
    deltas: &[LineDelta],
    conn: Conn,
) -> Result<(Image, State), RunError>
    ensures merged { IfOk result (λ parts. AreMerged mask.now.raster.width mask.now.raster.height
        (map D.delta_of old.now ++ deltas.now) parts.1) }
    ensures shown { IfOk result (λ parts. IsShown conn mask.now parts.1 parts.0) }
    ensures refused { IfErr result (λ e. DeltasAreRefused (map D.delta_of old.now ++ deltas.now) mask.now e
        ⊎ DeltasHalt (map D.delta_of old.now ++ deltas.now) mask.now e) }
{
    let state = merge_all(alloc, old, deltas, mask.width(), mask.height())?;
    let image = reconstruction_in(grower, alloc, blanks, mask, &state, conn)?;
    Ok((image, state))
}
