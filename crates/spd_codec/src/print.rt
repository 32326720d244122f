//! Fingerprints of images.
ghost use Rattle.std.specs.Prelude.{◌≡◌, ◌*◌, ◌≤◌, ◌↔◌, length, All, IsTrue};
ghost use Rattle.std.specs.List.{flat_map};
ghost use Rattle.sha2.specs.Sha256.{sha256};
ghost use Rattle.pgm_codec.specs.Writing.{sample_bytes, sample_len, raw_header, raw_text};
ghost use Rattle.spd_codec.specs.Hashing.{HoldsMore};

use itoa::Buffer;
use pgm_codec::{Image, put_samples, sample_len};
use sha2::{Digest, Sha256};
use std::marker::Model;

/// The fingerprint of an image, 32 bytes. It is seen as the list of its bytes.
#[derive(Clone, Copy, Debug)]
pub struct Print {
    bytes: [u8; 32],
}

impl Model for Print {
    ghost use Rattle.std.specs.Prelude.{ℕ, List};

    ghost Value = { List ℕ };

    ghost view = { λ p. p.bytes };

    ghost inverse = { λ bytes. record { bytes = bytes } };
}

impl Print {
    /// The fingerprint of these bytes.
    pub fn from_bytes(bytes: [u8; 32]) -> Print
        ensures { result ≡ bytes }
    {
        Print { bytes }
    }

    /// The bytes of the fingerprint.
    pub fn bytes(&self) -> &[u8; 32]
        ensures bytes { result.now ≡ self.now }
        ensures length { length self.now ≡ 32 }
    {
        &self.bytes
    }

    /// Whether both have the same bytes.
    pub fn is_same(&self, other: &Print) -> bool
        ensures { IsTrue result ↔ (self.now ≡ other.now) }
    {
        self.bytes == other.bytes
    }
}

// How many bytes of a raster are made at a time.
const BLOCK: usize = 4096;

/// The fingerprint of an image: the SHA-256 (FIPS 180-4) of its raw file, as [`pgm_codec::write_raw`] writes
/// it. The file is not made, and no memory is taken.
#[tactic(auto, unfolding(pgm_codec::specs::Writing::raw_text))]
pub fn print_of(image: &Image) -> Print
    ensures { result ≡ sha256 (raw_text image.now) }
{
    let mut hasher = Sha256::new();
    add_header(&mut hasher, image);
    add_samples(&mut hasher, image.maxval(), image.samples());
    Print::from_bytes(hasher.finalize())
}

// Adds the header of the raw file.
fn add_header(hasher: &mut Sha256, image: &Image)
    ensures { HoldsMore hasher.old hasher.new (raw_header image.now) }
{
    let mut number = Buffer::new();
    hasher.update(b"P5\n".as_slice());
    hasher.update(number.format(image.width()));
    hasher.update(b" ".as_slice());
    hasher.update(number.format(image.height()));
    hasher.update(b"\n".as_slice());
    hasher.update(number.format(image.maxval()));
    hasher.update(b"\n".as_slice());
}

// Adds the samples, as many at a time as fill a block.
fn add_samples(hasher: &mut Sha256, maxval: u16, samples: &[u16])
    requires { All (λ s. s ≤ maxval) samples.now }
    ensures { HoldsMore hasher.old hasher.new (flat_map (sample_bytes maxval) samples.now) }
{
    let mut block = [0; BLOCK];
    let width = sample_len(maxval);
    let mut rest = samples;
    while !rest.is_empty() {
        let (part, after) = rest.split_at(rest.len().min(BLOCK / width));
        add_part(hasher, &mut block[..part.len() * width], maxval, part);
        rest = after;
    }
}

// Adds samples whose bytes fill a block.
fn add_part(hasher: &mut Sha256, block: &mut [u8], maxval: u16, samples: &[u16])
    requires within { All (λ s. s ≤ maxval) samples.now }
    requires room { length samples.now * sample_len maxval ≡ length block.old }
    ensures { HoldsMore hasher.old hasher.new (flat_map (sample_bytes maxval) samples.now) }
{
    put_samples(block, 0, maxval, samples);
    hasher.update(&*block);
}
