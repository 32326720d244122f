//! What stands before and after the line `image`, and what it spells.

ghost use Rattle.std.specs.Prelude.{◌≡◌, ◌≢◌, ℕ, ◌<◌, ◌≤◌, ◌↔◌, ◌⊎◌, length, slice_index};
ghost use Rattle.std.specs.Prelude.{IsTrue, IfSome, IfNone, IfOk, IfErr};
ghost use Rattle.view_session.specs.Input.{IsImageLine, IsSplit, HasNoImageLine};
ghost use Rattle.run_faults.specs.RunError.{IsReadingFault};
ghost use Rattle.view_session.specs.View.{EditsHalt, InputSpells, InputIsRefusedBy, no_more};

use edit_lang::{LineDelta, parse_lines};
use pgm_codec::{Image, pixels_in, read};
use raster_sweeps::{Blanks, Grower};
use run_faults::RunError;
use std::alloc::Global;

// Where the line at the front ends: the index of its LF, or the length where there is none.
fn line_length(bytes: &[u8]) -> usize
    ensures within { result ≤ length bytes.now }
    ensures before { (k : ℕ) → k < result → slice_index bytes.now k ≢ 10 }
    ensures at_end { result < length bytes.now → slice_index bytes.now result ≡ 10 }
{
    for (k, byte) in bytes.iter().enumerate() {
        if *byte == b'\n' {
            return k;
        }
    }
    bytes.len()
}

// Whether the line is `image`, where one CR at its end does not count.
fn is_image_line(line: &[u8]) -> bool
    ensures { IsTrue result ↔ IsImageLine line.now }
{
    line == b"image".as_slice() || line == b"image\r".as_slice()
}

/// The edit text before the first line that is exactly `image` and ends with LF, and the image file
/// after it. A CR before that LF does not count. `None` where there is no such line.
pub fn split(input: &[u8]) -> Option<(&[u8], &[u8])>
    ensures split { IfSome result (λ p. IsSplit input.now p.0.now p.1.now) }
    ensures none { IfNone result (HasNoImageLine input.now) }
{
    let mut start = 0;
    while start < input.len() {
        let (edits, rest) = input.split_at(start);
        let length = line_length(rest);
        if length == rest.len() {
            break;
        }
        let (line, _) = rest.split_at(length);
        let (_, file) = rest.split_at(length + 1);
        if is_image_line(line) {
            return Some((edits, file));
        }
        start += length + 1;
    }
    None
}

/// How many pixels the mask has behind an input's `image` line, as [`pixels_in`] says; 0 where there is no such line.
pub fn mask_pixels_in(input: &[u8]) -> usize {
    match split(input) {
        Some((_, file)) => pixels_in(file),
        None => 0,
    }
}

/// The deltas of an input's edit lines, in order, and the mask behind them.
///
/// Errors, the first that is met: V1 without an `image` line; E1 to E3 of the edit text; P1 to P9 of the image file. E4
/// or P10 for want of memory.
pub fn read_input(alloc: Global, input: &[u8]) -> Result<(Vec<LineDelta>, Image), RunError>
    ensures spelled { IfOk result (λ parts. InputSpells input.now parts.1 parts.0.items) }
    ensures refused { IfErr result (λ e. IsReadingFault e ⊎ EditsHalt input.now e
        ⊎ InputIsRefusedBy no_more input.now e) }
{
    let Some((edits, file)) = split(input) else {
        return Err(RunError::NoImage);
    };
    let deltas = parse_lines(alloc, edits)?;
    let mask = read(alloc, file)?;
    Ok((deltas, mask))
}

/// The deltas and the mask of an input, as [`read_input`] gives them, and memory for an image of as many pixels as its
/// header says that the mask has, made meanwhile by `grower`.
///
/// Errors: as [`read_input`].
pub(crate) fn read_beside<G: Grower>(
    grower: &G,
    alloc: Global,
    input: &[u8],
) -> Result<(Vec<LineDelta>, Image, Blanks), RunError>
    ensures spelled { IfOk result (λ parts. InputSpells input.now parts.1 parts.0.items) }
    ensures refused { IfErr result (λ e. IsReadingFault e ⊎ EditsHalt input.now e
        ⊎ InputIsRefusedBy no_more input.now e) }
{
    let read = || -> Result<(Vec<LineDelta>, Image), RunError>
        ensures { IfOk result (λ parts. InputSpells input.entry.now parts.1 parts.0.items)
            × IfErr result (λ e. IsReadingFault e ⊎ EditsHalt input.entry.now e
            ⊎ InputIsRefusedBy no_more input.entry.now e) }
    { read_input(alloc, input) };
    let (read, blanks) = Blanks::beside(grower, alloc, 1, mask_pixels_in(input), read);
    let (deltas, mask) = read?;
    Ok((deltas, mask, blanks))
}
