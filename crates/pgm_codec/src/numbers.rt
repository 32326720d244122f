//! Gaps and decimal numbers, read from the left.
ghost use Rattle.std.specs.Prelude.{◌≡◌, ◌≤◌, false, IfOk};
ghost use Rattle.pgm_codec.specs.Spelling.{is_white, is_line_end, opens_comment};
ghost use Rattle.pgm_codec.specs.Reading.{Gives, after_gap, digits_after, number_at, too_great};

use crate::error::PgmError;
use crate::grammar::Section;

// What each greater number is read as: past every side, maxval and sample that may stand in a file.
const TOO_GREAT: u32 = 65_536;

// Whether the byte is CR or LF.
fn is_line_end(b: u8) -> bool
    ensures { result ≡ is_line_end b }
{
    matches!(b, b'\r' | b'\n')
}

// Whether the byte is blank, TAB, CR or LF.
pub(crate) fn is_white(b: u8) -> bool
    ensures { result ≡ is_white b }
{
    matches!(b, b' ' | b'\t') || is_line_end(b)
}

// Whether a comment begins with the byte.
fn opens_comment(place: Section, b: u8) -> bool
    ensures { result ≡ opens_comment place b }
{
    match place {
        Section::Header => b == b'#',
        Section::Raster => false,
    }
}

// The text behind its leading gap: whitespace, and in the header comments.
#[tactic(auto, unfolding(crate::specs::Reading::after_gap))]
pub(crate) fn after_gap(place: Section, text: &[u8]) -> &[u8]
    ensures { result.now ≡ after_gap place false text.now }
{
    let mut rest = text;
    let mut inside = false;
    while let [b, after @ ..] = rest {
        if inside {
            inside = !is_line_end(*b);
        } else if !is_white(*b) {
            if !opens_comment(place, *b) {
                break;
            }
            inside = true;
        }
        rest = after;
    }
    rest
}

// The number that the leading digits write, at most `TOO_GREAT`, and the text behind them.
#[tactic(auto, unfolding(crate::specs::Reading::digits_after))]
fn digits(text: &[u8]) -> (u32, &[u8])
    ensures read { (result.0, result.1.now) ≡ digits_after 0 text.now }
    ensures capped { result.0 ≤ too_great }
{
    let mut value = 0;
    let mut rest = text;
    while let [b, after @ ..] = rest {
        if !b.is_ascii_digit() {
            break;
        }
        value = TOO_GREAT.min(value * 10 + u32::from(*b - b'0'));
        rest = after;
    }
    (value, rest)
}

// The number that stands behind a leading gap, and the text behind its digits.
//
// Errors: `stray` where a byte that is no digit stands in its place, P6 where nothing does.
#[tactic(auto, unfolding(crate::specs::Reading::number_at))]
pub(crate) fn number(place: Section, text: &[u8], stray: PgmError) -> Result<(u32, &[u8]), PgmError>
    ensures read { Gives (λ x. (x.0, x.1.now)) result (number_at stray (after_gap place false text.now)) }
    ensures capped { IfOk result (λ x. x.0 ≤ too_great) }
{
    let text = after_gap(place, text);
    match text {
        [] => Err(PgmError::Truncated),
        [b, ..] if b.is_ascii_digit() => Ok(digits(text)),
        [_, ..] => Err(stray),
    }
}
