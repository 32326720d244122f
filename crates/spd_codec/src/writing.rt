//! Writing frames.
ghost use Rattle.std.specs.Prelude.{◌≡◌, [], ◌∷◌, ◌+◌, ◌<◌, ◌≤◌, ◌++◌, ◌⊎◌, ◌↔◌, length, min};
ghost use Rattle.std.specs.Prelude.{IfOk, IfErr, OnOk, IsErrOf};
ghost use Rattle.std.specs.List.{flat_map, sum_by, AllByRecursion};
ghost use Rattle.stroke_core.specs.declared.run.Run.{Run};
ghost use Rattle.stroke_core.specs.Seed.{byte_len_of};
ghost use Rattle.stroke_lattice.specs.Pieces.{frame_length, strokes_of, tombstones_of};
ghost use Rattle.spd_codec.specs.declared.error.SpdError.TheVariants as errors;
ghost use Rattle.spd_codec.specs.declared.version.Version.TheVariants.{Second};
ghost use Rattle.spd_codec.specs.Spelling.{short, tag_text, run_text, stroke_text, frame_text, magic, conn_byte};
ghost use Rattle.spd_codec.specs.Spelling.{max_bytes, RunFits, StrokeFits, Spells};
ghost use Rattle.spd_codec.specs.Putting.{TagFits, PutsEach, PutsFrame};

use crate::error::SpdError;
use crate::print::Print;
use grid_core::Conn;
use std::alloc::{AllocError, Global};
use stroke_core::{Kind, Run, Stroke, Tag};
use stroke_lattice::{Delta, HEAD_BYTES, TOMBSTONE_BYTES, walks_give_one_list};

/// The most bytes that a frame may have.
pub const MAX_BYTES: usize = 1400;

/// A frame may have 1,400 bytes: the code measures by the number that `specs/Spelling.antt` has.
pub fn most_bytes_of_a_frame()
    ensures { MAX_BYTES ≡ 1400 }
{}

/// The frame of a delta, in the second version of the format. Memory of its exact length is taken.
///
/// Errors: M6 where the frame has more than [`MAX_BYTES`] bytes, asked before any memory is taken, else M8.
pub fn encode(alloc: Global, conn: Conn, print: &Print, delta: &Delta) -> Result<Vec<u8>, SpdError>
    ensures text { IfOk result (λ v. v.items ≡ frame_text Second conn print.now delta.now) }
    ensures spells { IfOk result (λ v. Spells v.items conn print.now delta.now) }
    ensures too_long { IsErrOf result errors.TooLong ↔ (max_bytes < frame_length delta.now) }
    ensures others { IfErr result (λ e. (e ≡ errors.TooLong) ⊎ (e ≡ errors.Memory)) }
{
    let length = frame_len(delta);
    if length > MAX_BYTES {
        return Err(SpdError::TooLong);
    }
    let mut out = Vec::with_capacity(alloc, length)?;
    put_frame(&mut out, conn, print, delta)?;
    Ok(out)
}

// The length of a delta's frame, or one byte more than a frame may have where it is longer.
pub(crate) fn frame_len(delta: &Delta) -> usize
    ensures { result ≡ min (frame_length delta.now) (max_bytes + 1) }
{
    walks_give_one_list();
    let tombstones = delta.tombstones().len().saturating_mul(TOMBSTONE_BYTES);
    let length = strokes_len(delta).saturating_add(tombstones);
    length.min(MAX_BYTES + 1)
}

// The length of a frame with the strokes alone, or one byte more than a frame may have where it is longer.
fn strokes_len(delta: &Delta) -> usize
    ensures { result ≡ min (41 + sum_by (λ e. byte_len_of e.1.shape) (strokes_of delta.now)) (max_bytes + 1) }
{
    walks_give_one_list();
    let mut length = HEAD_BYTES;
    for (_, stroke) in delta.strokes() {
        length = length.saturating_add(stroke.byte_len());
        if MAX_BYTES < length {
            return MAX_BYTES + 1;
        }
    }
    length
}

// Puts the frame of a delta behind the bytes.
pub(crate) fn put_frame(
    out: &mut Vec<u8>,
    conn: Conn,
    print: &Print,
    delta: &Delta,
) -> Result<(), AllocError>
    requires short { frame_length delta.now ≤ max_bytes }
    ensures { OnOk result (PutsFrame conn print.now delta.now (λ frame. frame) out.old.items out.new.items) }
{
    walks_give_one_list();
    put_head(out, conn, print)?;
    put_number(out, delta.strokes().len() as u16)?;
    put_number(out, delta.tombstones().len() as u16)?;
    put_strokes(out, delta)?;
    put_tombstones(out, delta)?;
    Ok(())
}

// Puts the magic, the byte of the connectivity and the fingerprint.
fn put_head(out: &mut Vec<u8>, conn: Conn, print: &Print) -> Result<(), AllocError>
    ensures text { OnOk result (out.new.items ≡ out.old.items ++ magic Second ++ conn_byte conn ∷ [] ++ print.now) }
    ensures print { OnOk result (length print.now ≡ 32) }
{
    out.extend_from_slice(b"SPD2")?;
    out.push(match conn {
        Conn::Four => 4,
        Conn::Eight => 8,
    })?;
    out.extend_from_slice(print.bytes())
}

// Puts a number in two bytes.
pub(crate) fn put_number(out: &mut Vec<u8>, number: u16) -> Result<(), AllocError>
    ensures { OnOk result (out.new.items ≡ out.old.items ++ short number) }
{
    out.extend_from_slice(&number.to_be_bytes())
}

// Puts the strokes of a delta, rising by tag.
fn put_strokes(out: &mut Vec<u8>, delta: &Delta) -> Result<(), AllocError>
    ensures { OnOk result
        (PutsEach (stroke_text Second) (StrokeFits Second) (strokes_of delta.now) out.old.items out.new.items) }
{
    walks_give_one_list();
    for (tag, stroke) in delta.strokes() {
        put_stroke(out, *tag, stroke)?;
    }
    Ok(())
}

// Puts the tombstones of a delta, rising.
fn put_tombstones(out: &mut Vec<u8>, delta: &Delta) -> Result<(), AllocError>
    ensures { OnOk result (PutsEach tag_text TagFits (tombstones_of delta.now) out.old.items out.new.items) }
{
    walks_give_one_list();
    for tag in delta.tombstones() {
        put_tag(out, *tag)?;
    }
    Ok(())
}

// Puts a tag.
fn put_tag(out: &mut Vec<u8>, tag: Tag) -> Result<(), AllocError>
    ensures text { OnOk result (out.new.items ≡ out.old.items ++ tag_text tag) }
    ensures fits { TagFits tag }
{
    out.extend_from_slice(&tag.0.to_be_bytes())
}

// Puts a stroke and its tag.
fn put_stroke(out: &mut Vec<u8>, tag: Tag, stroke: &Stroke) -> Result<(), AllocError>
    ensures text { OnOk result (out.new.items ≡ out.old.items ++ stroke_text Second (tag, stroke.now)) }
    ensures fits { OnOk result (StrokeFits Second (tag, stroke.now)) }
{
    put_tag(out, tag)?;
    match stroke.kind() {
        Kind::Runs => {
            out.push(0)?;
            put_number(out, stroke.level())?;
            put_number(out, stroke.runs().len() as u16)?;
            put_runs(out, stroke.runs())
        }
        Kind::Disc { x, y, r } => {
            out.push(1)?;
            put_number(out, stroke.level())?;
            put_number(out, x)?;
            put_number(out, y)?;
            put_number(out, u16::from(r))
        }
    }
}

// Puts runs.
fn put_runs(out: &mut Vec<u8>, runs: &[Run]) -> Result<(), AllocError>
    ensures text { OnOk result (out.new.items ≡ out.old.items ++ flat_map run_text runs.now) }
    ensures fit { OnOk result (AllByRecursion RunFits runs.now) }
{
    for run in runs {
        put_run(out, *run)?;
    }
    Ok(())
}

// Puts a run.
fn put_run(out: &mut Vec<u8>, run: Run) -> Result<(), AllocError>
    ensures text { OnOk result (out.new.items ≡ out.old.items ++ run_text run) }
    ensures fits { RunFits run }
{
    put_number(out, run.y)?;
    put_number(out, run.x0)?;
    put_number(out, run.x1)
}
