ghost use Rattle.std.specs.Prelude.{◌≡◌, ℕ, ◌<◌, ◌^◌, Some, None, IfOk, IfErr, string_bytes};
ghost use Rattle.stroke_core.specs.declared.error.StrokeError.TheVariants.{BadTag, Memory};
ghost use Rattle.stroke_core.specs.Tag.{tag_of, text_of};

use crate::error::StrokeError;
use std::alloc::Global;
use std::marker::Model;
use uuid::Uuid;

/// The name of a stroke: a UUID (RFC 9562) as a number of 128 bits, its first byte the highest.
#[derive(Clone, Copy, Debug, PartialEq, Eq, PartialOrd, Ord)]
pub struct Tag(pub u128);

impl Model for Tag {
    ghost Value = { ℕ };

    ghost view = { λ t. t.0 };

    ghost inverse = { λ n. record { 0 = n } };
}

impl Tag {
    /// Reads a UUID in its simple, hyphenated, URN or braced form, in digits of either case.
    ///
    /// Errors: S5 where the text is none. It takes no memory.
    pub fn parse(text: &str) -> Result<Tag, StrokeError>
        ensures ok { IfOk result (λ t. tag_of text.now ≡ Some t) }
        ensures bad { IfErr result (λ e. (e ≡ BadTag) × (tag_of text.now ≡ None)) }
    {
        Tag::parse_ascii(text.as_bytes())
    }

    /// Reads a UUID from the bytes of its simple, hyphenated, URN or braced form, in digits of either case.
    ///
    /// Errors: S5 where the bytes are no such text. It takes no memory.
    pub fn parse_ascii(text: &[u8]) -> Result<Tag, StrokeError>
        ensures ok { IfOk result (λ t. tag_of text.now ≡ Some t) }
        ensures bad { IfErr result (λ e. (e ≡ BadTag) × (tag_of text.now ≡ None)) }
    {
        match Uuid::try_parse_ascii(text) {
            Ok(uuid) => Ok(Tag(uuid.as_u128())),
            Err(_) => Err(StrokeError::BadTag),
        }
    }

    /// The hyphenated form, in lower case.
    ///
    /// Errors: S6.
    pub fn text(self, alloc: Global) -> Result<String, StrokeError>
        ensures text { IfOk result (λ s. string_bytes s ≡ text_of self) }
        ensures memory { IfErr result (λ e. e ≡ Memory) }
    {
        let mut buffer = Uuid::encode_buffer();
        let text = Uuid::from_u128(self.0)
            .hyphenated()
            .encode_lower(&mut buffer);
        Ok(String::from_str(alloc, text)?)
    }
}

/// The text of each number of 128 bits stands for that number.
pub fn text_parses_back()
    ensures { (n : ℕ) → n < 2 ^ 128 → tag_of (text_of n) ≡ Some n }
{}
