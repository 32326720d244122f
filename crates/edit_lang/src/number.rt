//! Numbers in decimal digits.

ghost use Rattle.std.specs.Prelude.{◌≡◌};
ghost use Rattle.edit_lang.specs.Numbers.{number_of, coordinate_of};

/// The most digits that a number may have.
const MAX_DIGITS: usize = 5;

/// The number that one to five digits write, or `None` where the word is something else.
pub(crate) fn parse_number(word: &[u8]) -> Option<u32>
    ensures { result ≡ number_of word.now }
{
    if word.is_empty() || word.len() > MAX_DIGITS {
        return None;
    }
    let mut value = 0;
    for byte in word {
        if !byte.is_ascii_digit() {
            return None;
        }
        value = value * 10 + u32::from(*byte - b'0');
    }
    Some(value)
}

/// The row, the column or the radius that the word writes, or `None` where it is no number up to 65535.
#[tactic(auto, unfolding(crate::specs::Numbers::coordinate_of))]
pub(crate) fn parse_coordinate(word: &[u8]) -> Option<u16>
    ensures { result ≡ coordinate_of word.now }
{
    let value = parse_number(word)?;
    u16::try_from(value).ok()
}
