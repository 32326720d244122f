//! Writing raw files.
ghost use Rattle.std.specs.Prelude.{◌≡◌, ◌+◌, ◌*◌, ◌<◌, ◌≤◌, ◌++◌, length, take, string_bytes};
ghost use Rattle.std.specs.Prelude.{All, IfOk, OnOk, IsOkUnless};
ghost use Rattle.std.specs.List.{flat_map};
ghost use Rattle.pgm_codec.specs.declared.error.PgmError.TheVariants as errors;
ghost use Rattle.pgm_codec.specs.Writing.{sample_bytes, sample_len, raw_header, raw_text};

use crate::error::PgmError;
use crate::image::Image;
use std::alloc::{AllocError, Global};

// Writes samples of one byte each behind the first `at` bytes.
fn put_narrow(out: &mut [u8], at: usize, maxval: u16, samples: &[u16])
    requires narrow { maxval < 256 }
    requires within { All (λ s. s ≤ maxval) samples.now }
    requires room { at + length samples.now ≡ length out.old }
    ensures { out.new ≡ take at out.old ++ flat_map (sample_bytes maxval) samples.now }
{
    for i in 0..samples.len() {
        out[at + i] = samples[i] as u8;
    }
}

// Writes samples of two bytes each behind the first `at` bytes, the more significant byte first.
fn put_wide(out: &mut [u8], at: usize, maxval: u16, samples: &[u16])
    requires wide { 256 ≤ maxval }
    requires within { All (λ s. s ≤ maxval) samples.now }
    requires room { at + length samples.now * 2 ≡ length out.old }
    ensures { out.new ≡ take at out.old ++ flat_map (sample_bytes maxval) samples.now }
{
    for i in 0..samples.len() {
        out[at + i * 2] = (samples[i] / 256) as u8;
        out[at + i * 2 + 1] = (samples[i] % 256) as u8;
    }
}

/// How many bytes a sample takes in a raw file: 1 where maxval is below 256, else 2.
pub fn sample_len(maxval: u16) -> usize
    ensures { result ≡ sample_len maxval }
{
    if maxval < 256 { 1 } else { 2 }
}

/// Writes samples as they stand in the raster of a raw file (Netpbm, pgm(5)) over all bytes behind the first
/// `at`: one byte a sample where maxval is below 256, else two, the more significant first. It takes no memory.
pub fn put_samples(out: &mut [u8], at: usize, maxval: u16, samples: &[u16])
    requires within { All (λ s. s ≤ maxval) samples.now }
    requires room { at + length samples.now * sample_len maxval ≡ length out.old }
    ensures { out.new ≡ take at out.old ++ flat_map (sample_bytes maxval) samples.now }
{
    if sample_len(maxval) == 1 {
        put_narrow(out, at, maxval, samples);
    } else {
        put_wide(out, at, maxval, samples);
    }
}

// Appends the bytes of samples, which the block has room for.
fn append_block(
    out: &mut Vec<u8>,
    block: &mut [u8],
    maxval: u16,
    samples: &[u16],
) -> Result<(), AllocError>
    requires within { All (λ s. s ≤ maxval) samples.now }
    requires room { length samples.now * sample_len maxval ≤ length block.old }
    ensures len { length block.new ≡ length block.old }
    ensures items { OnOk result (out.new.items ≡ out.old.items ++ flat_map (sample_bytes maxval) samples.now) }
{
    let bytes = &mut block[..samples.len() * sample_len(maxval)];
    put_samples(bytes, 0, maxval, samples);
    out.extend_from_slice(bytes)
}

// Appends the bytes of samples, one block after the other.
fn append_samples(out: &mut Vec<u8>, maxval: u16, samples: &[u16]) -> Result<(), AllocError>
    requires within { All (λ s. s ≤ maxval) samples.now }
    ensures { OnOk result (out.new.items ≡ out.old.items ++ flat_map (sample_bytes maxval) samples.now) }
{
    let mut block = [0; 4096];
    let mut rest = samples;
    while !rest.is_empty() {
        let (next, behind) = rest.split_at(rest.len().min(2048));
        append_block(out, &mut block, maxval, next)?;
        rest = behind;
    }
    Ok(())
}

// The header of the raw file.
pub(crate) fn header(alloc: Global, image: &Image) -> Result<String, AllocError>
    ensures { IfOk result (λ t. string_bytes t ≡ raw_header image.now) }
{
    let (width, height, maxval) = (image.width(), image.height(), image.maxval());
    format!(in alloc; "P5\n{width} {height}\n{maxval}\n")
}

/// The raw file of an image, its text: `P5`, LF, width, blank, height, LF, maxval, LF, and the
/// samples row by row from the top (Netpbm, pgm(5)). A sample is one byte where maxval is below 256, else
/// two, the more significant first. Memory of its exact length is taken.
///
/// Errors: P10.
pub fn write_raw(alloc: Global, image: &Image) -> Result<Vec<u8>, PgmError>
    ensures text { IfOk result (λ v. v.items ≡ raw_text image.now) }
    ensures only_memory { IsOkUnless result errors.Memory }
{
    let header = header(alloc, image)?;
    let (maxval, samples) = (image.maxval(), image.samples());
    let length = header.len() + samples.len() * sample_len(maxval);
    let mut out = Vec::with_capacity(alloc, length)?;
    out.extend_from_slice(header.as_bytes())?;
    append_samples(&mut out, maxval, samples)?;
    Ok(out)
}
