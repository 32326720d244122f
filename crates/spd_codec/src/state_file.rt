//! State files: frames one after another, each behind its length.
ghost use Rattle.std.specs.Prelude.{◌≡◌, ℕ, List, ◌<◌, ◌≤◌, ◌⊎◌, IfOk, IfErr, OnOk, IsErrOf, MatchResult, length};
ghost use Rattle.stroke_lattice.specs.Pieces.{frame_length, pieces_of};
ghost use Rattle.spd_codec.specs.declared.error.SpdError.TheVariants as errors;
ghost use Rattle.spd_codec.specs.declared.frame.Frame.{Frame as Read};
ghost use Rattle.spd_codec.specs.Spelling.{max_bytes};
ghost use Rattle.spd_codec.specs.Laws.{HaveOneFault, SpellOrHaveFault, JoinedFilesSpellBoth};
ghost use Rattle.spd_codec.specs.Putting.{PutsFrame};
ghost use Rattle.spd_codec.specs.StateFile.{with_length, file_text, frames_of, StartsFrame, SpellsFile};
ghost use Rattle.spd_codec.specs.StateFile.{IsNextFault, IsFileFault};

use crate::decoding::decode;
use crate::error::SpdError;
use crate::frame::Frame;
use crate::laws::{at_most_one_frame, every_text, one_fault};
use crate::print::Print;
use crate::writing::{MAX_BYTES, frame_len, put_frame, put_number};
use grid_core::Conn;
use std::alloc::{AllocError, Global};
use stroke_lattice::{Delta, State};

/// The state file of a state: the frames of its pieces, each with its length in two bytes before it. The
/// pieces are those of [`State::split`] at [`MAX_BYTES`], so that the file of the state without strokes and
/// tombstones is empty. It spells their frames. It takes a time of about the state's size.
///
/// Errors: M8.
pub fn write_frames(
    alloc: Global,
    conn: Conn,
    print: &Print,
    state: &State,
) -> Result<Vec<u8>, SpdError>
    ensures text { IfOk result (λ v. v.items ≡ file_text conn print.now (pieces_of max_bytes state.now)) }
    ensures spells { IfOk result (λ v. SpellsFile v.items (frames_of conn print.now (pieces_of max_bytes state.now))) }
    ensures memory { IfErr result (λ e. e ≡ errors.Memory) }
{
    let pieces = state.split(alloc, MAX_BYTES)?;
    let mut out = Vec::new(alloc);
    for piece in &pieces {
        put_piece(&mut out, conn, print, piece)?;
    }
    Ok(out)
}

// Puts the frame of a piece behind its length.
fn put_piece(out: &mut Vec<u8>, conn: Conn, print: &Print, piece: &Delta) -> Result<(), AllocError>
    requires short { frame_length piece.now ≤ max_bytes }
    ensures { OnOk result (PutsFrame conn print.now piece.now with_length out.old.items out.new.items) }
{
    put_number(out, frame_len(piece) as u16)?;
    put_frame(out, conn, print, piece)?;
    Ok(())
}

/// The frames of a state file, in their order. Frames of both versions may stand in it, and the empty file
/// has none, and takes no memory.
///
/// Errors, those of the first frame that has one, behind frames that stand there rightly: M3 where the file
/// ends inside the two bytes of its length, else M6 where the length is above [`MAX_BYTES`], else M3 where the file
/// ends inside the frame, else what [`decode`] answers to the bytes of that length. M8 where a growth was
/// refused, in place of any.
///
/// What is read is spelled so, and what is spelled so is read, unless memory runs out. An error is the first fault,
/// unless memory runs out.
pub fn read_frames(alloc: Global, bytes: &[u8]) -> Result<Vec<Frame>, SpdError>
    ensures found { IfOk result (λ frames. SpellsFile bytes.now frames.items) }
    ensures only { (frames : List Read) → SpellsFile bytes.now frames
        → MatchResult result (λ found. found.items ≡ frames) (λ e. e ≡ errors.Memory) }
    ensures fault { IfErr result (λ e. (e ≡ errors.Memory) ⊎ IsFileFault bytes.now e) }
    ensures some { IsErrOf result errors.Memory → 0 < length bytes.now }
{
    // What is read is all that the bytes spell.
    one_file();
    one_file_fault();
    read_each(alloc, bytes)
}

// Reads frame after frame.
fn read_each(alloc: Global, bytes: &[u8]) -> Result<Vec<Frame>, SpdError>
    ensures found { IfOk result (λ frames. SpellsFile bytes.now frames.items) }
    ensures fault { IfErr result (λ e. (e ≡ errors.Memory) ⊎ IsFileFault bytes.now e) }
    ensures some { IsErrOf result errors.Memory → 0 < length bytes.now }
{
    let mut frames = Vec::new(alloc);
    let mut rest = bytes;
    while !rest.is_empty() {
        let (frame, after) = next_frame(alloc, rest)?;
        frames.push(frame)?;
        rest = after;
    }
    Ok(frames)
}

// The next frame, and the bytes behind it.
fn next_frame(alloc: Global, bytes: &[u8]) -> Result<(Frame, &[u8]), SpdError>
    requires some { 0 < length bytes.now }
    ensures found { IfOk result (λ next. StartsFrame bytes.now next.0 next.1.now) }
    ensures shorter { IfOk result (λ next. length next.1.now < length bytes.now) }
    ensures fault { IfErr result (λ e. (e ≡ errors.Memory) ⊎ IsNextFault bytes.now e) }
{
    let [high, low, rest @ ..] = bytes else {
        return Err(SpdError::Truncated);
    };
    let long = usize::from(u16::from_be_bytes([*high, *low]));
    if long > MAX_BYTES {
        return Err(SpdError::TooLong);
    }
    if rest.len() < long {
        return Err(SpdError::Truncated);
    }
    let (text, after) = rest.split_at(long);
    Ok((decode(alloc, text)?, after))
}

/// The bytes of two state files, one behind the other, are a state file of the frames of both.
pub fn joined_files_spell_both()
    ensures { JoinedFilesSpellBoth }
{}

/// The bytes of a state file spell one list of frames at most.
pub fn one_file()
    ensures { (bytes : List ℕ) (a b : List Read) → SpellsFile bytes a → SpellsFile bytes b → a ≡ b }
{
    at_most_one_frame();
    one_fault();
}

/// The bytes of a state file have one first fault at most, and none where they spell frames. Want of memory is no
/// fault of theirs.
pub fn one_file_fault()
    ensures { HaveOneFault SpellsFile IsFileFault }
{
    at_most_one_frame();
    one_fault();
}

/// Bytes spell the frames of a state file, or have a first fault.
pub fn every_file()
    ensures { SpellOrHaveFault SpellsFile IsFileFault }
{
    every_text();
}
