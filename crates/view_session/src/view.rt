//! The view of an input: from bytes in to bytes out.

ghost use Rattle.stroke_lattice.specs.State.{State, nothing};
ghost use Rattle.view_session.specs.Joining.{IsStrokesView};
ghost use Rattle.view_session.specs.Kept.{IsKeptView, KeptStops};
ghost use Rattle.view_session.specs.Answering.{Answers, AnswersForSide};
ghost use Rattle.view_session.specs.View.{IsView, InputStops};

use crate::answering::{Responder, respond};
use crate::joining::Strokes;
use crate::showing::{show_kept, show_over, show_strokes};
use byte_devices::{Sink, Source};
use core_rules::CoreError;
use grid_core::{Conn, is_tile_side};
use pgm_codec::{Image, one_fault};
use raster_sweeps::{Grower, OneThread};
use run_faults::RunError;
use std::alloc::Global;
use stroke_lattice::State;

/// Reads an input to its end, and writes the image that it asks for as a raw PGM file with the mask's maxval: the
/// reconstruction by dilation of the mask (Vincent 1993) from the marker of its live strokes.
///
/// The input is edit lines, a line `image`, and one PGM file to the end.
///
/// Errors, the first that is met: V1 without an `image` line; E1 to E3 of the edit text; P1 to P9 of the file; C1 or C2
/// at the first delta that meets it. P11 where a device failed or the source did not end; P10 for want of memory in
/// reading and writing, and E4 in the edit text; C4 at a delta that could be taken; plain want of memory where all
/// deltas are. Nothing is written, unless the sink failed: then a front of the file.
pub fn view_run<S: Source, K: Sink>(
    alloc: Global,
    source: &mut S,
    conn: Conn,
    sink: &mut K,
) -> Result<(), RunError>
    ensures { Answers (λ input _ text. (state : State) × IsView conn nothing input state text) (InputStops nothing)
        result S.seen source.old source.new K.seen sink.old sink.new }
{
    view_run_by(&OneThread, alloc, source, conn, sink)
}

/// As [`view_run`], and grows by `grower`.
///
/// Errors: as [`view_run`].
pub fn view_run_by<G: Grower, S: Source, K: Sink>(
    grower: &G,
    alloc: Global,
    source: &mut S,
    conn: Conn,
    sink: &mut K,
) -> Result<(), RunError>
    ensures { Answers (λ input _ text. (state : State) × IsView conn nothing input state text) (InputStops nothing)
        result S.seen source.old source.new K.seen sink.old sink.new }
{
    respond(alloc, &FirstView { grower, conn }, source, sink)
}

/// Reads an input to its end, merges the old state and then the input's deltas in order, and writes the image that
/// their join shows on the input's mask as a raw PGM file with the mask's maxval. Answers that join.
///
/// Errors: those of [`view_run`], where the old state is the first delta.
pub fn view_from<S: Source, K: Sink>(
    alloc: Global,
    source: &mut S,
    old: &State,
    conn: Conn,
    sink: &mut K,
) -> Result<State, RunError>
    ensures { Answers (λ input state text. IsView conn old.now input state text) (InputStops old.now)
        result S.seen source.old source.new K.seen sink.old sink.new }
{
    let grower = &OneThread;
    respond(alloc, &ViewBehind { grower, old, conn }, source, sink)
}

/// As [`view_from`], for a side of tiles. Neither what is written nor what is answered depends on it.
///
/// Errors: C5 where the side is less than 8 or more than 256, with source and sink as they were; else as [`view_from`].
pub fn view_tiled<S: Source, K: Sink>(
    alloc: Global,
    source: &mut S,
    old: &State,
    conn: Conn,
    side: u32,
    sink: &mut K,
) -> Result<State, RunError>
    ensures { AnswersForSide side (λ input state text. IsView conn old.now input state text) (InputStops old.now)
        result S.seen source.old source.new K.seen sink.old sink.new }
{
    if !is_tile_side(side) {
        return Err(RunError::Core(CoreError::BadSide));
    }
    view_from(alloc, source, old, conn, sink)
}

/// Reads an input to its end, merges the strokes and tombstones that the old bytes of a state file spell and then the
/// input's deltas, in order, and writes the image that their join shows on the input's mask, as [`view_tiled`] does.
/// Answers the new bytes of the state file, which keep that join. A state file that is not there has no bytes.
///
/// Errors, the first that is met: C5 where the side is less than 8 or more than 256, with source and sink as they were;
/// V1 without an `image` line; E1 to E3 of the edit text; P1 to P9 of the image file; M1 to M7 of the old bytes; D1
/// where one of their frames is meant for another connectivity or mask; C1 or C2 at the first delta that meets it. P11
/// where a device failed or the source did not end; P10 for want of memory in reading and writing, and E4 in the edit
/// text; M8 for want of it at the old bytes, if there are any, or the new; C4 at a delta that could be taken; plain
/// want of memory where all deltas are. Nothing is written, unless the sink failed: then a front of the file.
pub fn view_kept<S: Source, K: Sink>(
    alloc: Global,
    source: &mut S,
    old: &[u8],
    conn: Conn,
    side: u32,
    sink: &mut K,
) -> Result<Vec<u8>, RunError>
    ensures { AnswersForSide side (λ input new text. IsKeptView conn old.now input text new.items)
        (KeptStops conn old.now) result S.seen source.old source.new K.seen sink.old sink.new }
{
    view_kept_by(&OneThread, alloc, source, old, conn, side, sink)
}

/// As [`view_kept`], and grows by `grower`.
///
/// Errors: as [`view_kept`].
pub fn view_kept_by<G: Grower, S: Source, K: Sink>(
    grower: &G,
    alloc: Global,
    source: &mut S,
    old: &[u8],
    conn: Conn,
    side: u32,
    sink: &mut K,
) -> Result<Vec<u8>, RunError>
    ensures { AnswersForSide side (λ input new text. IsKeptView conn old.now input text new.items)
        (KeptStops conn old.now) result S.seen source.old source.new K.seen sink.old sink.new }
{
    if !is_tile_side(side) {
        return Err(RunError::Core(CoreError::BadSide));
    }
    respond(alloc, &KeptView { grower, old, conn }, source, sink)
}

/// As [`view_kept_by`], and answers the strokes that a state file is to keep.
///
/// Errors: as [`view_kept`].
pub fn view_strokes_by<G: Grower, S: Source, K: Sink>(
    grower: &G,
    alloc: Global,
    source: &mut S,
    old: &[u8],
    conn: Conn,
    side: u32,
    sink: &mut K,
) -> Result<Strokes, RunError>
    ensures { AnswersForSide side (λ input strokes text. IsStrokesView conn old.now input text strokes)
        (KeptStops conn old.now) result S.seen source.old source.new K.seen sink.old sink.new }
{
    if !is_tile_side(side) {
        return Err(RunError::Core(CoreError::BadSide));
    }
    respond(alloc, &StrokesView { grower, old, conn }, source, sink)
}

// Views over no state.
#[derive(Drop)]
struct FirstView<'a, G: Grower> {
    grower: &'a G,
    conn: Conn,
}

impl<'a, G: Grower> Responder for FirstView<'a, G> {
    ghost use Rattle.stroke_lattice.specs.State.{State, nothing};
    ghost use Rattle.view_session.specs.View.{IsView, InputStops};

    type Value = ();

    ghost answers = { λ v input _ text. (state : State) × IsView v.conn nothing input state text };

    ghost stops = { λ _ input e. InputStops nothing input e };

    fn answer(&self, alloc: Global, input: &[u8]) -> Result<((), Image), RunError> {
        one_fault();
        let Ok(old) = State::empty(alloc) else {
            unreachable!();
        };
        let (image, _) = show_over(self.grower, alloc, input, &old, self.conn)?;
        Ok(((), image))
    }
}

// Views over an old state.
#[derive(Drop)]
struct ViewBehind<'a, G: Grower> {
    grower: &'a G,
    old: &'a State,
    conn: Conn,
}

impl<'a, G: Grower> Responder for ViewBehind<'a, G> {
    ghost use Rattle.view_session.specs.View.{IsView, InputStops};

    type Value = State;

    ghost answers = { λ v input state text. IsView v.conn v.old.now input state text };

    ghost stops = { λ v input e. InputStops v.old.now input e };

    fn answer(&self, alloc: Global, input: &[u8]) -> Result<(State, Image), RunError> {
        one_fault();
        let (image, state) = show_over(self.grower, alloc, input, self.old, self.conn)?;
        Ok((state, image))
    }
}

// Views over the old bytes of a state file.
#[derive(Drop)]
struct KeptView<'a, G: Grower> {
    grower: &'a G,
    old: &'a [u8],
    conn: Conn,
}

impl<'a, G: Grower> Responder for KeptView<'a, G> {
    ghost use Rattle.view_session.specs.Kept.{IsKeptView, KeptStops};

    type Value = Vec<u8>;

    ghost answers = { λ v input new text. IsKeptView v.conn v.old.now input text new.items };

    ghost stops = { λ v input e. KeptStops v.conn v.old.now input e };

    fn answer(&self, alloc: Global, input: &[u8]) -> Result<(Vec<u8>, Image), RunError> {
        one_fault();
        let (image, new) = show_kept(self.grower, alloc, input, self.old, self.conn)?;
        Ok((new, image))
    }
}

// Views over the old bytes of a state file, with the strokes that it is to keep.
#[derive(Drop)]
struct StrokesView<'a, G: Grower> {
    grower: &'a G,
    old: &'a [u8],
    conn: Conn,
}

impl<'a, G: Grower> Responder for StrokesView<'a, G> {
    ghost use Rattle.view_session.specs.Joining.{IsStrokesView};
    ghost use Rattle.view_session.specs.Kept.{KeptStops};

    type Value = Strokes;

    ghost answers = { λ v input strokes text. IsStrokesView v.conn v.old.now input text strokes };

    ghost stops = { λ v input e. KeptStops v.conn v.old.now input e };

    fn answer(&self, alloc: Global, input: &[u8]) -> Result<(Strokes, Image), RunError> {
        one_fault();
        let (image, strokes) = show_strokes(self.grower, alloc, input, self.old, self.conn)?;
        Ok((strokes, image))
    }
}
