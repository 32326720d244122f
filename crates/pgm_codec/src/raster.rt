//! The samples of a file, in decimal numbers or in bytes.
ghost use Rattle.std.specs.Prelude.{◌≡◌, ◌*◌, ◌≤◌, false, nat_lt, length, map, IfOk};
ghost use Rattle.std.specs.Int.{w16, from_be_bytes};
ghost use Rattle.std.specs.List.{list_any};
ghost use Rattle.pgm_codec.specs.declared.grammar.Encoding.TheVariants.{Plain, Raw};
ghost use Rattle.grid_core.specs.Raster.{max_pixels};
ghost use Rattle.pgm_codec.specs.Spelling.{is_wide};
ghost use Rattle.pgm_codec.specs.Reading.{Gives, GivesOrMemory, AreSamples, AreRawValues};
ghost use Rattle.pgm_codec.specs.Reading.{sample_at, sample_width, samples_at, end_at};

use crate::error::PgmError;
use crate::grammar::{Encoding, Section};
use crate::numbers::{after_gap, is_white, number};
use crate::samples::{is_any_above, no_byte_is_above};
use std::alloc::{AllocError, Global};

// The next sample of a plain raster, and the text behind its digits.
#[tactic(auto, unfolding(crate::specs::Reading::sample_at, crate::specs::Reading::sample_end))]
fn plain_sample(text: &[u8], maxval: u16) -> Result<(u16, &[u8]), PgmError>
    ensures read { Gives (λ x. (x.0, x.1.now)) result (sample_at Plain maxval text.now) }
    ensures range { IfOk result (λ x. x.0 ≤ maxval) }
{
    let (n, rest) = number(Section::Raster, text, PgmError::BadSample)?;
    if n > u32::from(maxval) {
        return Err(PgmError::SampleRange);
    }
    match rest {
        [b, ..] if !is_white(*b) => Err(PgmError::BadSample),
        _ => Ok((n as u16, rest)),
    }
}

// As many samples of a plain raster, and the text behind the last.
fn plain_samples(
    alloc: Global,
    text: &[u8],
    maxval: u16,
    count: usize,
) -> Result<(Vec<u16>, &[u8]), PgmError>
    ensures read { GivesOrMemory (λ x. (x.0.items, x.1.now)) result (samples_at Plain maxval count text.now) }
    ensures made { IfOk result (λ x. AreSamples maxval count x.0.items) }
{
    // A sample takes two bytes, but for the last.
    let mut samples = Vec::with_capacity(alloc, count.min(text.len() / 2 + 1))?;
    let mut rest = text;
    for _ in 0..count {
        let (s, after) = plain_sample(rest, maxval)?;
        samples.push(s)?;
        rest = after;
    }
    Ok((samples, rest))
}

// The values of single bytes.
fn widened(alloc: Global, bytes: &[u8]) -> Result<Vec<u16>, AllocError>
    ensures values { IfOk result (λ v. v.items ≡ bytes.now) }
    ensures within { IfOk result (λ v. list_any (λ s. nat_lt 255 s) v.items ≡ false) }
{
    no_byte_is_above(bytes);
    bytes.iter().map(|b| u16::from(*b)).collect(alloc)
}

// The values of pairs of bytes, the more significant first.
fn joined(alloc: Global, pairs: &[[u8; 2]]) -> Result<Vec<u16>, AllocError>
    ensures { IfOk result (λ v. v.items ≡ map (from_be_bytes w16) pairs.now) }
{
    pairs
        .iter()
        .map(|pair| u16::from_be_bytes(*pair))
        .collect(alloc)
}

// How many bytes a raw sample has.
fn sample_width(wide: bool) -> usize
    ensures { result ≡ sample_width wide }
{
    if wide { 2 } else { 1 }
}

// The least number of bytes that so many samples take.
pub(crate) fn shortest_raster(encoding: Encoding, maxval: u16, count: usize) -> usize
    requires { count ≤ max_pixels }
{
    match encoding {
        Encoding::Plain => (2 * count).saturating_sub(1),
        Encoding::Raw => count * sample_width(maxval > 255),
    }
}

// The first values of a raw raster, of two bytes each or of one.
fn raw_values(alloc: Global, text: &[u8], wide: bool, count: usize) -> Result<Vec<u16>, AllocError>
    requires { count * sample_width wide ≤ length text.now }
    ensures values { IfOk result (λ v. AreRawValues wide count text.now v.items) }
    ensures within { IfOk result (λ v. wide ≡ false → list_any (λ s. nat_lt 255 s) v.items ≡ false) }
{
    if !wide {
        return widened(alloc, &text[..count]);
    }
    let (pairs, _) = text.as_chunks::<2>();
    joined(alloc, &pairs[..count])
}

// Whether some raw value is above maxval. Where all that its bytes can hold is allowed, none is looked at.
fn is_value_above(values: &[u16], maxval: u16) -> bool
    requires { is_wide maxval ≡ false → list_any (λ s. nat_lt 255 s) values.now ≡ false }
    ensures { result ≡ list_any (λ s. nat_lt maxval s) values.now }
{
    maxval != 255 && is_any_above(values, maxval)
}

// As many samples of a raw raster, and the text behind the last. It takes no more memory than the
// samples need that are there.
fn raw_samples(
    alloc: Global,
    text: &[u8],
    maxval: u16,
    count: usize,
) -> Result<(Vec<u16>, &[u8]), PgmError>
    ensures read { GivesOrMemory (λ x. (x.0.items, x.1.now)) result (samples_at Raw maxval count text.now) }
    ensures made { IfOk result (λ x. AreSamples maxval count x.0.items) }
{
    let wide = maxval > 255;
    let width = sample_width(wide);
    let whole = count.min(text.len() / width);
    let samples = raw_values(alloc, text, wide, whole)?;
    if is_value_above(&samples, maxval) {
        return Err(PgmError::SampleRange);
    }
    if whole < count {
        return Err(PgmError::Truncated);
    }
    Ok((samples, &text[whole * width..]))
}

// As many samples, and the text behind the last.
pub(crate) fn samples(
    alloc: Global,
    encoding: Encoding,
    text: &[u8],
    maxval: u16,
    count: usize,
) -> Result<(Vec<u16>, &[u8]), PgmError>
    ensures read { GivesOrMemory (λ x. (x.0.items, x.1.now)) result (samples_at encoding maxval count text.now) }
    ensures made { IfOk result (λ x. AreSamples maxval count x.0.items) }
{
    match encoding {
        Encoding::Plain => plain_samples(alloc, text, maxval, count),
        Encoding::Raw => raw_samples(alloc, text, maxval, count),
    }
}

// Nothing is left but what may follow the last sample.
//
// Errors: P9.
#[tactic(auto, unfolding(crate::specs::Reading::end_at, crate::specs::Reading::nothing_at))]
pub(crate) fn end(encoding: Encoding, text: &[u8]) -> Result<(), PgmError>
    ensures { Gives (λ _. tt) result (end_at encoding text.now) }
{
    let rest = match encoding {
        Encoding::Plain => after_gap(Section::Raster, text),
        Encoding::Raw => text,
    };
    match rest {
        [] => Ok(()),
        [_, ..] => Err(PgmError::Trailing),
    }
}
