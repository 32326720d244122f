//! Images from a source and to a sink.
ghost use Rattle.std.specs.Prelude.{◌≡◌, ◌⊎◌, ◌*◌, ◌≤◌, length, vec_len, All, IfOk, IfErr};
ghost use Rattle.std.specs.List.{flat_map};
ghost use Rattle.byte_devices.specs.Transfer.{IsInputOf, ReadsToEnd, PutsAll, most_pulls};
ghost use Rattle.pgm_codec.specs.Transfer.{IsOfMemory, IsOfDevice, ReadsImage, WritesFile};
ghost use Rattle.pgm_codec.specs.Writing.{sample_bytes, sample_len, raw_header, raw_text};

use crate::error::PgmError;
use crate::image::Image;
use crate::reading::read;
use crate::writing::{header, put_samples, sample_len};
use byte_devices::{Fault, MOST_PULLS, Sink, Source, put_all};
use std::alloc::{AllocError, Global};

// How many samples are put at once.
const BLOCK_SAMPLES: usize = 32_768;

/// Everything that the source has left, up to its end, as [`byte_devices::read_all`] gives it.
///
/// Errors: P10 where memory is refused; P11 where a pull failed, or where the source had not ended
/// after [`MOST_PULLS`](byte_devices::MOST_PULLS) pulls. What was pulled before an error is lost.
pub fn read_all<S: Source>(alloc: Global, source: &mut S) -> Result<Vec<u8>, PgmError>
    ensures bytes { IfOk result (λ v. IsInputOf (S.seen source.old).remaining v.items) }
    ensures only { IfErr result (λ e. IsOfMemory e ⊎ IsOfDevice e) }
    ensures to_end { ReadsToEnd IsOfMemory IsOfDevice most_pulls result (S.seen source.old) (S.seen source.new) }
{
    read_all_within(alloc, source, MOST_PULLS)
}

/// Everything that the source has left, up to its end, which it has to reach in this number of pulls, as
/// [`byte_devices::read_all_within`] gives it.
///
/// Errors: P10 where memory is refused; P11 where a pull failed, or where the source had not ended after so many pulls.
/// What was pulled before an error is lost.
pub fn read_all_within<S: Source>(
    alloc: Global,
    source: &mut S,
    pulls: u64,
) -> Result<Vec<u8>, PgmError>
    ensures bytes { IfOk result (λ v. IsInputOf (S.seen source.old).remaining v.items) }
    ensures only { IfErr result (λ e. IsOfMemory e ⊎ IsOfDevice e) }
    ensures to_end { ReadsToEnd IsOfMemory IsOfDevice pulls result (S.seen source.old) (S.seen source.new) }
{
    Ok(byte_devices::read_all_within(alloc, source, pulls)?)
}

/// The image that everything the source has left spells, read as by [`read`]. An image, and a fault of the text, is
/// answered of the whole text, at the source's end.
///
/// Errors: those of [`read`]; P11 where a pull failed, or where the source had not ended after
/// [`MOST_PULLS`](byte_devices::MOST_PULLS) pulls. Either it or P10 may stand in place of any answer.
pub fn read_from<S: Source>(alloc: Global, source: &mut S) -> Result<Image, PgmError>
    ensures image { ReadsImage (S.seen source.old).remaining result }
    ensures to_end { ReadsToEnd IsOfMemory IsOfDevice most_pulls result (S.seen source.old) (S.seen source.new) }
{
    let text = read_all(alloc, source)?;
    read(alloc, &text)
}

// Puts the bytes of samples, which the block has room for.
fn put_block<K: Sink>(
    sink: &mut K,
    block: &mut [u8],
    maxval: u16,
    samples: &[u16],
) -> Result<(), Fault>
    requires within { All (λ s. s ≤ maxval) samples.now }
    requires room { length samples.now * sample_len maxval ≤ length block.old }
    ensures len { length block.new ≡ length block.old }
    ensures put { PutsAll result (K.seen sink.old) (K.seen sink.new) (flat_map (sample_bytes maxval) samples.now) }
{
    let bytes = &mut block[..samples.len() * sample_len(maxval)];
    put_samples(bytes, 0, maxval, samples);
    put_all(sink, bytes)
}

// Puts the bytes of samples, one block after the other.
fn put_raster<K: Sink>(
    sink: &mut K,
    block: &mut [u8],
    maxval: u16,
    samples: &[u16],
) -> Result<(), Fault>
    requires within { All (λ s. s ≤ maxval) samples.now }
    requires room { 65536 ≤ length block.old }
    ensures { PutsAll result (K.seen sink.old) (K.seen sink.new) (flat_map (sample_bytes maxval) samples.now) }
{
    let mut rest = samples;
    while !rest.is_empty() {
        let (next, behind) = rest.split_at(BLOCK_SAMPLES.min(rest.len()));
        put_block(sink, block, maxval, next)?;
        rest = behind;
    }
    Ok(())
}

// Puts the raw file of an image, behind its header.
fn put_file<K: Sink>(
    sink: &mut K,
    header: &[u8],
    block: &mut [u8],
    image: &Image,
) -> Result<(), Fault>
    requires header { header.now ≡ raw_header image.now }
    requires room { 65536 ≤ length block.old }
    ensures { PutsAll result (K.seen sink.old) (K.seen sink.new) (raw_text image.now) }
{
    let (maxval, samples) = (image.maxval(), image.samples());
    put_all(sink, header)?;
    put_raster(sink, block, maxval, samples)
}

// The room of a block.
fn zeros(alloc: Global) -> Result<Vec<u8>, AllocError>
    ensures { IfOk result (λ v. vec_len v ≡ 65536) }
{
    vec![in alloc; 0; 65_536]
}

/// Puts the raw file of an image, its text as [`write_raw`](crate::write_raw) gives it, in blocks. It takes memory for
/// the header and for one block.
///
/// Errors: P10, and then nothing was put; P11 where a put failed, and then some front of the text was
/// taken.
pub fn write_to<K: Sink>(alloc: Global, image: &Image, sink: &mut K) -> Result<(), PgmError>
    ensures { WritesFile (raw_text image.now) result K.seen sink.old sink.new }
{
    let header = header(alloc, image)?;
    let mut block = zeros(alloc)?;
    put_file(sink, header.as_bytes(), &mut block, image)?;
    Ok(())
}
