//! The header of a file: its magic, the sides and maxval.
ghost use Rattle.std.specs.Prelude.{◌*◌, ◌<◌, ◌≤◌, IfOk};
ghost use Rattle.grid_core.specs.Raster.{IsImageSize, max_side};
ghost use Rattle.pgm_codec.specs.Spelling.{width_fault, height_fault, maxval_fault};
ghost use Rattle.pgm_codec.specs.Reading.{Gives, field_at, good_field_at, magic_at, magic_end};

use crate::error::PgmError;
use crate::grammar::{Encoding, Section};
use crate::numbers::{is_white, number};
use grid_core::{MAX_PIXELS, MAX_SIDE};

// The text behind the whitespace byte that follows a magic.
#[tactic(auto, unfolding(crate::specs::Reading::magic_end))]
fn behind_magic(encoding: Encoding, text: &[u8]) -> Result<(Encoding, &[u8]), PgmError>
    ensures { Gives (λ x. (x.0, x.1.now)) result (magic_end encoding text.now) }
{
    match text {
        [] => Err(PgmError::Truncated),
        [b, rest @ ..] if is_white(*b) => Ok((encoding, rest)),
        [_, ..] => Err(PgmError::BadHeader),
    }
}

// What the magic says, and the text behind it and its whitespace byte.
#[tactic(auto, unfolding(crate::specs::Reading::magic_at))]
pub(crate) fn magic(text: &[u8]) -> Result<(Encoding, &[u8]), PgmError>
    ensures { Gives (λ x. (x.0, x.1.now)) result (magic_at text.now) }
{
    match text {
        [b'P', b'2', rest @ ..] => behind_magic(Encoding::Plain, rest),
        [b'P', b'5', rest @ ..] => behind_magic(Encoding::Raw, rest),
        _ => Err(PgmError::BadMagic),
    }
}

// A header number with the whitespace byte that ends it, and the text behind both.
#[tactic(auto, unfolding(crate::specs::Reading::field_at, crate::specs::Reading::field_end))]
fn field(text: &[u8]) -> Result<(u32, &[u8]), PgmError>
    ensures read { Gives (λ x. (x.0, x.1.now)) result (field_at text.now) }
{
    let (n, rest) = number(Section::Header, text, PgmError::BadHeader)?;
    match rest {
        [] => Err(PgmError::Truncated),
        [b, rest @ ..] if is_white(*b) => Ok((n, rest)),
        [_, ..] => Err(PgmError::BadHeader),
    }
}

// The width, and the text behind it.
#[tactic(auto, unfolding(crate::specs::Reading::good_field_at))]
pub(crate) fn width(text: &[u8]) -> Result<(u32, &[u8]), PgmError>
    ensures read { Gives (λ x. (x.0, x.1.now)) result (good_field_at width_fault text.now) }
    ensures range { IfOk result (λ x. (0 < x.0) × (x.0 ≤ max_side)) }
{
    let (n, rest) = field(text)?;
    if n == 0 {
        Err(PgmError::ZeroSize)
    } else if n > MAX_SIDE {
        Err(PgmError::TooLarge)
    } else {
        Ok((n, rest))
    }
}

// The height behind the width `w`, and the text behind it.
#[tactic(auto, unfolding(crate::specs::Reading::good_field_at))]
pub(crate) fn height(text: &[u8], w: u32) -> Result<(u32, &[u8]), PgmError>
    requires { (0 < w) × (w ≤ max_side) }
    ensures read { Gives (λ x. (x.0, x.1.now)) result (good_field_at (height_fault w) text.now) }
    ensures size { IfOk result (λ x. IsImageSize w x.0) }
{
    let (n, rest) = field(text)?;
    if n == 0 {
        Err(PgmError::ZeroSize)
    } else if n > MAX_SIDE || w * n > MAX_PIXELS {
        Err(PgmError::TooLarge)
    } else {
        Ok((n, rest))
    }
}

// The maxval, and the text behind it.
#[tactic(auto, unfolding(crate::specs::Reading::good_field_at))]
pub(crate) fn maxval(text: &[u8]) -> Result<(u16, &[u8]), PgmError>
    ensures read { Gives (λ x. (x.0, x.1.now)) result (good_field_at maxval_fault text.now) }
    ensures range { IfOk result (λ x. 0 < x.0) }
{
    let (n, rest) = field(text)?;
    if n == 0 || n > u32::from(u16::MAX) {
        Err(PgmError::BadMaxval)
    } else {
        Ok((n as u16, rest))
    }
}
