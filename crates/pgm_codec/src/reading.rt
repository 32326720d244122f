//! Reading a whole file, from left to right.
ghost use Rattle.std.specs.Prelude.{◌≡◌, ◌≤◌, ◌⊎◌, List, ℕ, length, Ok, IfOk, IfErr, IsErrOf};
ghost use Rattle.pgm_codec.specs.declared.error.PgmError.{PgmError};
ghost use Rattle.pgm_codec.specs.declared.error.PgmError.TheVariants as errors;
ghost use Rattle.pgm_codec.specs.Graymap.{Graymap};
ghost use Rattle.pgm_codec.specs.Spelling.{PgmSpells, SpellsBack};
ghost use Rattle.pgm_codec.specs.FirstFault.{PgmFault, TextsHaveOneFault};
ghost use Rattle.pgm_codec.specs.Reading.{GivesOrMemory, image_at};
ghost use Rattle.pgm_codec.specs.Writing.{raw_text};
ghost use Rattle.pgm_codec.specs.PlainWriting.{plain_text};

use crate::error::PgmError;
use crate::header::{height, magic, maxval, width};
use crate::image::Image;
use crate::raster::{end, samples, shortest_raster};
use grid_core::Grid;
use std::alloc::Global;

// The image that is read from left to right.
#[tactic(auto, unfolding(crate::specs::Reading::image_at, crate::specs::Reading::raster_at))]
fn image(alloc: Global, text: &[u8]) -> Result<Image, PgmError>
    ensures { GivesOrMemory (λ x. x) result (image_at text.now) }
{
    let (encoding, rest) = magic(text)?;
    let (w, rest) = width(rest)?;
    let (h, rest) = height(rest, w)?;
    let (maxval, rest) = maxval(rest)?;
    let (samples, rest) = samples(alloc, encoding, rest, maxval, w as usize * h as usize)?;
    end(encoding, rest)?;
    Ok(Image::over(Grid::from_cells(w, h, samples), maxval))
}

// How many pixels the header says, where the text behind it is long enough for so many samples.
fn pixels(text: &[u8]) -> Result<usize, PgmError> {
    let (encoding, rest) = magic(text)?;
    let (w, rest) = width(rest)?;
    let (h, rest) = height(rest, w)?;
    let (maxval, rest) = maxval(rest)?;
    let count = w as usize * h as usize;
    if shortest_raster(encoding, maxval, count) > rest.len() {
        return Err(PgmError::Truncated);
    }
    Ok(count)
}

/// How many pixels the image has that a text spells, by its header alone; 0 where there is no such header, or too
/// little behind it. For who makes room for an image of the same size before the text is read. It takes no memory.
pub fn pixels_in(text: &[u8]) -> usize
    ensures { result ≤ length text.now }
{
    match pixels(text) {
        Ok(count) => count.min(text.len()),
        Err(_) => 0,
    }
}

/// The image that a text spells: one file (Netpbm, pgm(5)), all of the text. What is read is spelled so, and what is
/// spelled so is read, unless memory runs out.
///
/// A header is the magic, `P2` for a plain raster or `P5` for a raw one, and width, height and maxval in
/// decimal, leading zeros accepted. Before each number stands a whitespace byte (blank, TAB, CR or LF),
/// and behind it any number of whitespace bytes and comments; a comment is `#`, any bytes but CR and LF,
/// and then one CR or LF. One whitespace byte ends the header. A plain raster has a decimal number for each
/// pixel, with whitespace between two of them, and whitespace may surround them. A raw raster has one byte
/// for each pixel where maxval is below 256, else two, the more significant first, and nothing behind.
///
/// Errors: the first fault from the left. P1 for another magic; in the header P6 where the text ends, P2
/// for a byte that fits none of the parts in its place, P3 for a side of 0, P4 for a side above
/// [`grid_core::MAX_SIDE`] or for more pixels than [`grid_core::MAX_PIXELS`], judged once the height is,
/// P5 for a maxval of 0 or above 65535; in the raster P6 where samples are missing, P7 for a sample above
/// maxval, P8 for a byte that is no part of a plain sample, P9 for what follows the last one. P10 may stand
/// in place of any answer.
pub fn read(alloc: Global, text: &[u8]) -> Result<Image, PgmError>
    ensures found { IfOk result (λ image. PgmSpells text.now image) }
    ensures only { (image : Graymap) → PgmSpells text.now image → (result ≡ Ok image) ⊎ IsErrOf result errors.Memory }
    ensures device { IsErrOf result errors.Device → ⊥ }
    ensures fault { IfErr result (λ e. (e ≡ errors.Memory) ⊎ PgmFault text.now e) }
{
    image(alloc, text)
}

/// A text has at most one fault, the first, and none where it spells an image. Want of memory and a
/// device's failure are no faults of a text.
pub fn one_fault()
    ensures { TextsHaveOneFault }
{}

/// A text spells at most one image.
pub fn one_image()
    ensures { (text : List ℕ) (a b : Graymap) → PgmSpells text a → PgmSpells text b → a ≡ b }
{}

/// Each text spells an image or has a fault.
pub fn every_text()
    ensures { (text : List ℕ) → ((image : Graymap) × PgmSpells text image) ⊎ ((e : PgmError) × PgmFault text e) }
{}

/// The raw file of each image, as [`write_raw`](crate::write_raw) gives it, spells that image and no
/// other. So reading gives back what was written.
pub fn raw_text_is_read()
    ensures { SpellsBack raw_text }
{}

/// The plain file of each image, as [`write_plain`](crate::write_plain) gives it, spells that image and no
/// other. So reading gives back what was written.
pub fn plain_text_is_read()
    ensures { SpellsBack plain_text }
{}
