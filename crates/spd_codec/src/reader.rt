//! Fields of a fixed size, read from left to right.
ghost use Rattle.spd_codec.specs.Reading.{Gives, Reads, byte_value, taken_at, short_at, tag_at, conn_at, print_at};
ghost use Rattle.spd_codec.specs.Reading.{magic_at, kind_at, end_at, field_at};
ghost use Rattle.spd_codec.specs.Faults.{magic_field};

use crate::error::SpdError;
use crate::print::Print;
use crate::version::{Kind, Version};
use grid_core::Conn;
use stroke_core::{StrokeError, Tag};

/// Bytes that are read from left to right. After an error it says nothing of where it stands.
#[derive(Drop)]
pub(crate) struct Reader<'a> {
    /// The bytes that are left.
    pub(crate) rest: &'a [u8],
}

impl<'a> Reader<'a> {
    // One byte.
    //
    // Errors: M3.
    fn byte(&mut self) -> Result<u8, SpdError>
        ensures { Reads result self.new.rest.now (taken_at 1 byte_value self.old.rest.now) }
    {
        match self.rest {
            [] => Err(SpdError::Truncated),
            [b, rest @ ..] => {
                self.rest = rest;
                Ok(*b)
            }
        }
    }

    // A number of two bytes.
    //
    // Errors: M3.
    #[tactic(auto, unfolding(crate::specs::Reading::short_at))]
    pub(crate) fn short(&mut self) -> Result<u16, SpdError>
        ensures { Reads result self.new.rest.now (short_at self.old.rest.now) }
    {
        let Some((front, rest)) = self.rest.split_first_chunk::<2>() else {
            return Err(SpdError::Truncated);
        };
        self.rest = rest;
        Ok(u16::from_be_bytes(*front))
    }

    // A tag above the one before it.
    //
    // Errors: M3, M4.
    #[tactic(auto, unfolding(crate::specs::Reading::tag_at))]
    pub(crate) fn tag(&mut self, before: Option<Tag>) -> Result<Tag, SpdError>
        ensures { Reads result self.new.rest.now (tag_at before self.old.rest.now) }
    {
        let Some((front, rest)) = self.rest.split_first_chunk::<16>() else {
            return Err(SpdError::Truncated);
        };
        let tag = Tag(u128::from_be_bytes(*front));
        self.rest = rest;
        match before {
            Some(before) if tag <= before => Err(SpdError::TagOrder),
            _ => Ok(tag),
        }
    }

    // This letter of the magic.
    //
    // Errors: M1, M3.
    fn letter(&mut self, letter: u8) -> Result<(), SpdError>
        ensures { Gives (λ _. (letter, self.new.rest.now)) result
            (field_at (magic_field letter) byte_value self.old.rest.now) }
    {
        if self.byte()? != letter {
            return Err(SpdError::BadMagic);
        }
        Ok(())
    }

    // The version that the magic names.
    //
    // Errors: M1, M3.
    #[tactic(auto, unfolding(crate::specs::Reading::magic_at))]
    pub(crate) fn magic(&mut self) -> Result<Version, SpdError>
        ensures { Reads result self.new.rest.now (magic_at self.old.rest.now) }
    {
        self.letter(b'S')?;
        self.letter(b'P')?;
        self.letter(b'D')?;
        match self.byte()? {
            b'1' => Ok(Version::First),
            b'2' => Ok(Version::Second),
            _ => Err(SpdError::BadMagic),
        }
    }

    // The connectivity.
    //
    // Errors: M2, M3.
    #[tactic(auto, unfolding(crate::specs::Reading::conn_at))]
    pub(crate) fn conn(&mut self) -> Result<Conn, SpdError>
        ensures { Reads result self.new.rest.now (conn_at self.old.rest.now) }
    {
        match self.byte()? {
            4 => Ok(Conn::Four),
            8 => Ok(Conn::Eight),
            _ => Err(SpdError::BadConn),
        }
    }

    // The fingerprint.
    //
    // Errors: M3.
    #[tactic(auto, unfolding(crate::specs::Reading::print_at))]
    pub(crate) fn print(&mut self) -> Result<Print, SpdError>
        ensures { Reads result self.new.rest.now (print_at self.old.rest.now) }
    {
        let Some((front, rest)) = self.rest.split_first_chunk::<32>() else {
            return Err(SpdError::Truncated);
        };
        self.rest = rest;
        Ok(Print::from_bytes(*front))
    }

    // What the stroke behind is painted on. The first version has runs alone, and takes no byte to say so.
    //
    // Errors: M3, M5 with S8.
    #[tactic(auto, unfolding(crate::specs::Reading::kind_at))]
    pub(crate) fn kind(&mut self, version: Version) -> Result<Kind, SpdError>
        ensures { Reads result self.new.rest.now (kind_at version self.old.rest.now) }
    {
        if version == Version::First {
            return Ok(Kind::Runs);
        }
        match self.byte()? {
            0 => Ok(Kind::Runs),
            1 => Ok(Kind::Disc),
            _ => Err(SpdError::BadStroke(StrokeError::BadKind)),
        }
    }

    // Nothing is left.
    //
    // Errors: M7.
    #[tactic(auto, unfolding(crate::specs::Reading::end_at))]
    pub(crate) fn end(&self) -> Result<(), SpdError>
        ensures { Gives (λ _. tt) result (end_at self.now.rest.now) }
    {
        match self.rest {
            [] => Ok(()),
            [_, ..] => Err(SpdError::Trailing),
        }
    }
}
