//! Writing plain files.
ghost use Rattle.std.specs.Prelude.{◌≡◌, ◌+◌, ◌*◌, ◌^◌, ◌<◌, ◌≤◌, ◌++◌, ◌∷◌, length};
ghost use Rattle.std.specs.Prelude.{decimal, string_bytes, IfOk, OnOk, IsOkUnless};
ghost use Rattle.std.specs.List.{flat_map, sum_by};
ghost use Rattle.pgm_codec.specs.declared.error.PgmError.TheVariants as errors;
ghost use Rattle.pgm_codec.specs.declared.grammar.Encoding.TheVariants.{Plain};
ghost use Rattle.pgm_codec.specs.Spelling.{blank};
ghost use Rattle.pgm_codec.specs.Writing.{file_header};
ghost use Rattle.pgm_codec.specs.PlainWriting.{last_digit, parts, plain_line, plain_row, plain_text};

use crate::error::PgmError;
use crate::image::Image;
use std::alloc::{AllocError, Global};

// The most samples on a line.
const LINE_SAMPLES: usize = 11;

// How many digits a sample has in decimal.
fn digits(sample: u16) -> usize
    ensures { result ≡ length (decimal sample) }
{
    let beyond_tens = usize::from(sample > 99)
        + usize::from(sample > 999)
        + usize::from(sample > 9999);
    1 + usize::from(sample > 9) + beyond_tens
}

// How many bytes the samples take, each with its digits and with the blank or LF behind them.
fn length_of(samples: &[u16]) -> usize
    requires { length samples.now < 2 ^ 32 }
    ensures sum { result ≡ sum_by (λ s. length (decimal s) + 1) samples.now }
    ensures bound { result ≤ length samples.now * 6 }
{
    let mut length = 0;
    for i in 0..samples.len() {
        length += digits(samples[i]) + 1;
    }
    length
}

// Puts the last digit of a number, unless the number is 0.
fn put_last_digit(out: &mut Vec<u8>, number: u16) -> Result<(), AllocError>
    ensures { OnOk result (out.new.items ≡ out.old.items ++ last_digit number) }
{
    if number > 0 {
        out.push(b'0' + (number % 10) as u8)?;
    }
    Ok(())
}

// Puts a sample in decimal, without leading zeros.
fn put_sample(out: &mut Vec<u8>, sample: u16) -> Result<(), AllocError>
    ensures { OnOk result (out.new.items ≡ out.old.items ++ decimal sample) }
{
    put_last_digit(out, sample / 10_000)?;
    put_last_digit(out, sample / 1_000)?;
    put_last_digit(out, sample / 100)?;
    put_last_digit(out, sample / 10)?;
    out.push(b'0' + (sample % 10) as u8)?;
    Ok(())
}

// Puts a blank and a sample for each of the samples.
fn put_behind(out: &mut Vec<u8>, samples: &[u16]) -> Result<(), AllocError>
    ensures { OnOk result (out.new.items ≡ out.old.items ++ flat_map (λ s. blank ∷ decimal s) samples.now) }
{
    for i in 0..samples.len() {
        out.push(b' ')?;
        put_sample(out, samples[i])?;
    }
    Ok(())
}

// Puts a line: the samples, a blank between two, and LF.
fn put_line(out: &mut Vec<u8>, samples: &[u16]) -> Result<(), AllocError>
    requires { 0 < length samples.now }
    ensures { OnOk result (out.new.items ≡ out.old.items ++ plain_line samples.now) }
{
    let (first, others) = samples.split_at(1);
    put_sample(out, first[0])?;
    put_behind(out, others)?;
    out.push(b'\n')?;
    Ok(())
}

// Puts a row, cut into lines.
fn put_row(out: &mut Vec<u8>, row: &[u16]) -> Result<(), AllocError>
    ensures { OnOk result (out.new.items ≡ out.old.items ++ plain_row row.now) }
{
    let mut rest = row;
    while !rest.is_empty() {
        let (line, after) = rest.split_at(rest.len().min(LINE_SAMPLES));
        put_line(out, line)?;
        rest = after;
    }
    Ok(())
}

// Puts so many rows of this width.
fn put_rows(
    out: &mut Vec<u8>,
    width: usize,
    height: usize,
    samples: &[u16],
) -> Result<(), AllocError>
    requires { length samples.now ≡ width * height }
    ensures { OnOk result (out.new.items ≡ out.old.items ++ flat_map plain_row (parts width height samples.now)) }
{
    let mut rest = samples;
    for _row in 0..height {
        let (row, after) = rest.split_at(width);
        put_row(out, row)?;
        rest = after;
    }
    Ok(())
}

// The header of the plain file.
fn header(alloc: Global, image: &Image) -> Result<String, AllocError>
    ensures { IfOk result (λ t. string_bytes t ≡ file_header Plain image.now) }
{
    let (width, height, maxval) = (image.width(), image.height(), image.maxval());
    format!(in alloc; "P2\n{width} {height}\n{maxval}\n")
}

/// The plain file of an image, its text: `P2`, LF, width, blank, height, LF, maxval, LF, and the samples in
/// decimal without leading zeros, row by row from the top (Netpbm, pgm(5)). Each row is cut into lines of 11
/// samples, the last of what is left, with one blank between two samples and LF behind each line: at most 65
/// characters before the LF. Memory of its exact length is taken.
///
/// Errors: P10.
#[tactic(auto, using(crate::proofs::PlainLoop::few_samples), unfolding(crate::specs::PlainWriting::plain_text))]
pub fn write_plain(alloc: Global, image: &Image) -> Result<Vec<u8>, PgmError>
    ensures text { IfOk result (λ v. v.items ≡ plain_text image.now) }
    ensures only_memory { IsOkUnless result errors.Memory }
{
    let header = header(alloc, image)?;
    let samples = image.samples();
    let mut out = Vec::with_capacity(alloc, header.len() + length_of(samples))?;
    out.extend_from_slice(header.as_bytes())?;
    put_rows(
        &mut out,
        image.width() as usize,
        image.height() as usize,
        samples,
    )?;
    Ok(out)
}
