//! Reading a frame, from left to right.
ghost use Rattle.std.specs.Prelude.{◌≡◌, ◌⊎◌, ◌↔◌, ◌<◌, Ok, IfOk, IfErr, IsErrOf, length};
ghost use Rattle.spd_codec.specs.declared.error.SpdError.TheVariants as errors;
ghost use Rattle.spd_codec.specs.declared.frame.Frame.{Frame as Read};
ghost use Rattle.spd_codec.specs.Spelling.{max_bytes, SpellsFrame};
ghost use Rattle.spd_codec.specs.Faults.{IsFault};
ghost use Rattle.spd_codec.specs.Reading.{GivesOrMemory, ReadsOrMemory, contents_at, fields_at, frame_at};

use crate::error::SpdError;
use crate::frame::Frame;
use crate::print::Print;
use crate::reader::Reader;
use crate::version::Version;
use crate::writing::MAX_BYTES;
use grid_core::Conn;
use std::alloc::Global;

// The fields of a frame.
#[tactic(auto, unfolding(crate::specs::Reading::fields_at, crate::specs::Reading::contents_at))]
fn fields(alloc: Global, reader: &mut Reader<'_>) -> Result<Frame, SpdError>
    ensures { ReadsOrMemory result reader.new.rest.now (fields_at reader.old.rest.now) }
{
    let version = reader.magic()?;
    let conn = reader.conn()?;
    let print = reader.print()?;
    contents(alloc, reader, version, conn, print)
}

// The fields of a frame of this version behind its connectivity and its fingerprint.
#[tactic(auto, unfolding(crate::specs::Reading::contents_at))]
fn contents(
    alloc: Global,
    reader: &mut Reader<'_>,
    version: Version,
    conn: Conn,
    print: Print,
) -> Result<Frame, SpdError>
    ensures { ReadsOrMemory result reader.new.rest.now (contents_at version conn print reader.old.rest.now) }
{
    let strokes = reader.short()?;
    let tombstones = reader.short()?;
    let delta = reader.delta(alloc, version, strokes, tombstones)?;
    Ok(Frame { conn, print, delta })
}

// The frame that is read from left to right.
#[tactic(auto, unfolding(crate::specs::Reading::frame_at))]
fn frame(alloc: Global, bytes: &[u8]) -> Result<Frame, SpdError>
    ensures read { GivesOrMemory (λ frame. frame) result (frame_at bytes.now) }
    ensures too_long { max_bytes < length bytes.now → IsErrOf result errors.TooLong }
{
    if bytes.len() > MAX_BYTES {
        return Err(SpdError::TooLong);
    }
    let mut reader = Reader { rest: bytes };
    let frame = fields(alloc, &mut reader)?;
    match reader.end() {
        Ok(()) => Ok(frame),
        Err(why) => {
            drop(frame);
            Err(why)
        }
    }
}

/// The frame that the bytes spell, all of them.
///
/// Numbers stand with their high byte first. A frame is 4 bytes of magic, `SPD1` or `SPD2`; one of
/// connectivity, 4 or 8; 32 of fingerprint; 2 for the number of strokes and 2 for that of tombstones; the
/// strokes, their tags strictly rising; and the tombstones, strictly rising. A tag has 16 bytes. A stroke is
/// its tag, in `SPD2` a byte of kind, 0 for runs and 1 for a disc, 2 bytes of level, and then 2 for the number
/// of runs and 6 for each run (row, first and last column), or 6 of a disc (column, row and radius).
///
/// Errors: M6 for more than [`MAX_BYTES`] bytes, before all else, and then the first fault from the left. M1 at a byte
/// that is not the magic's, M2 at another connectivity, M3 where the bytes end inside a field, M4 at a tag
/// that is not above the one before it in its list, M5 at a value of a stroke that is refused, with its
/// reason (S8 at a kind, S1 at a level, S2 and S3 at a number of runs, S4 at a run, S7 at a radius), and M7
/// at a byte behind the last tombstone. M8 may stand in place of any answer but M6.
///
/// What is read is spelled so, and what is spelled so is read, unless memory runs out. Too many bytes are told before
/// any memory is taken. A refusal is the first fault of the bytes, unless memory runs out.
pub fn decode(alloc: Global, bytes: &[u8]) -> Result<Frame, SpdError>
    ensures found { IfOk result (SpellsFrame bytes.now) }
    ensures only { (f : Read) → SpellsFrame bytes.now f → (result ≡ Ok f) ⊎ IsErrOf result errors.Memory }
    ensures too_long { IsErrOf result errors.TooLong ↔ (max_bytes < length bytes.now) }
    ensures fault { IfErr result (λ e. (e ≡ errors.Memory) ⊎ IsFault bytes.now e) }
{
    frame(alloc, bytes)
}
