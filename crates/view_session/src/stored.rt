//! A view over the strokes that a state file keeps.

ghost use Rattle.grid_core.specs.Tiles.{IsTileSide};
ghost use Rattle.view_session.specs.Serving.{AnswersOverStore, IsStoreFault, IsShownOver, IsStoredView, StoredStops};

use crate::store::{StatePath, StateStore};
use crate::view::view_strokes_by;
use byte_devices::{Sink, Source};
use grid_core::Conn;
use raster_sweeps::{Grower, OneThread};
use run_faults::RunError;
use std::alloc::Global;

/// A view over the strokes of a state file: the file is loaded from the store before the source is read, the view is
/// written as [`view_kept`](crate::view::view_kept) writes it, and then its strokes are saved, joined with what the
/// file has by then. The side has to be 8 to 256, as [`is_tile_side`](grid_core::is_tile_side) tells.
///
/// Errors: V2 where the file could not be loaded, with source and sink as they were, or plain want of memory there;
/// those of [`view_kept`](crate::view::view_kept) but C5. After the image was written: V2 where the file could not be
/// saved; M1 to M8, D1, C1, C2 or C4 of what it has by then; plain want of memory. After each the files are as they
/// were.
pub fn view_stored<S: Source, T: StateStore, K: Sink>(
    alloc: Global,
    source: &mut S,
    conn: Conn,
    side: u32,
    path: &StatePath,
    store: &mut T,
    sink: &mut K,
) -> Result<(), RunError>
    requires { IsTileSide side }
    ensures { AnswersOverStore (λ held. IsStoredView conn held path.now) (λ held. IsShownOver conn held path.now)
        (λ held. StoredStops conn held path.now) IsStoreFault result S.seen source.old source.new
        T.seen store.old store.new K.seen sink.old sink.new }
{
    view_stored_by(&OneThread, alloc, source, conn, side, path, store, sink)
}

/// As [`view_stored`], and grows by `grower`.
///
/// Errors: as [`view_stored`].
pub fn view_stored_by<G: Grower, S: Source, T: StateStore, K: Sink>(
    grower: &G,
    alloc: Global,
    source: &mut S,
    conn: Conn,
    side: u32,
    path: &StatePath,
    store: &mut T,
    sink: &mut K,
) -> Result<(), RunError>
    requires { IsTileSide side }
    ensures { AnswersOverStore (λ held. IsStoredView conn held path.now) (λ held. IsShownOver conn held path.now)
        (λ held. StoredStops conn held path.now) IsStoreFault result S.seen source.old source.new
        T.seen store.old store.new K.seen sink.old sink.new }
{
    let old = store.load(alloc, path)?;
    let mut strokes = view_strokes_by(grower, alloc, source, &old, conn, side, sink)?;
    store.save(alloc, path, &mut strokes)?;
    Ok(())
}
