//! Lines: from the words of a line to its delta.

ghost use Rattle.std.specs.Prelude.{◌≡◌, Ok, Err, Some, IfOk, option_map};
ghost use Rattle.edit_lang.specs.Lines.{words_of};
ghost use Rattle.edit_lang.specs.Edit.{Withdraw, three_of, runs_edit, disc_edit, withdrawal};
ghost use Rattle.edit_lang.specs.Edit.{runs_placement, disc_placement, edit_named, AnswersEdit, AnswersLine};

use crate::error::EditError;
use crate::line_delta::LineDelta;
use crate::number::parse_number;
use crate::shape::{Circle, parse_disc, parse_runs};
use crate::words::first_word;
use std::alloc::{AllocError, Global};
use stroke_core::{Run, Stroke, Tag};

/// What the line of this number means: a delta, or nothing.
///
/// Errors, in this order: E1 where it is no line of the language, E2 where the tag is no UUID, E3 where
/// the level and the runs or the disc make no stroke. E4 may come in place of any.
#[tactic(auto, unfolding(crate::specs::Edit::edit_of))]
pub(crate) fn parse_line(
    alloc: Global,
    number: u64,
    line: &[u8],
) -> Result<Option<LineDelta>, EditError>
    ensures { AnswersLine number line.now result }
{
    let Some((first, others)) = first_word(line) else {
        return Ok(None);
    };
    if first.starts_with(b";") {
        return Ok(None);
    }
    let delta = parse_edit(alloc, number, first, others)?;
    Ok(Some(delta))
}

/// What a first word asks for with the words behind it.
#[tactic(auto, unfolding(crate::specs::Edit::edit_named))]
fn parse_edit(
    alloc: Global,
    number: u64,
    first: &[u8],
    others: &[u8],
) -> Result<LineDelta, EditError>
    ensures { AnswersEdit number (edit_named first.now (words_of others.now)) result }
{
    if first == b"place".as_slice() {
        parse_placement(alloc, number, others)
    } else if first == b"disc".as_slice() {
        parse_disc_placement(number, others)
    } else if first == b"withdraw".as_slice() {
        parse_withdrawal(number, others)
    } else {
        Err(EditError::BadLine(number))
    }
}

/// The delta of `TAG LEVEL RUNS`.
fn parse_placement(alloc: Global, number: u64, words: &[u8]) -> Result<LineDelta, EditError>
    ensures { AnswersEdit number (runs_edit (words_of words.now)) result }
{
    let Some((tag, level, runs)) = runs_words(alloc, words)? else {
        return Err(EditError::BadLine(number));
    };
    match (Tag::parse_ascii(tag), Stroke::new(level, runs)) {
        (Err(_), _) => Err(EditError::BadTag(number)),
        (Ok(_), Err(refused)) => Err(EditError::BadStroke(number, refused.why)),
        (Ok(tag), Ok(stroke)) => Ok(LineDelta::placed(tag, stroke)),
    }
}

/// The delta of `TAG LEVEL DISC`.
fn parse_disc_placement(number: u64, words: &[u8]) -> Result<LineDelta, EditError>
    ensures { AnswersEdit number (disc_edit (words_of words.now)) result }
{
    let Some((tag, level, disc)) = disc_words(words) else {
        return Err(EditError::BadLine(number));
    };
    let stroke = Stroke::disc(level, disc.x, disc.y, u32::from(disc.r));
    match (Tag::parse_ascii(tag), stroke) {
        (Err(_), _) => Err(EditError::BadTag(number)),
        (Ok(_), Err(why)) => Err(EditError::BadStroke(number, why)),
        (Ok(tag), Ok(stroke)) => Ok(LineDelta::placed(tag, stroke)),
    }
}

/// The delta of `TAG`.
fn parse_withdrawal(number: u64, words: &[u8]) -> Result<LineDelta, EditError>
    ensures { AnswersEdit number (withdrawal (words_of words.now)) result }
{
    let Some(tag) = one_word(words) else {
        return Err(EditError::BadLine(number));
    };
    match Tag::parse_ascii(tag) {
        Ok(tag) => Ok(LineDelta::withdrawn(tag)),
        Err(_) => Err(EditError::BadTag(number)),
    }
}

/// The word of the tag, the level and the runs, or `None` where the words are others.
///
/// Errors: out of memory.
#[tactic(auto, unfolding(crate::specs::Edit::runs_edit))]
fn runs_words(alloc: Global, words: &[u8]) -> Result<Option<(&[u8], u32, Vec<Run>)>, AllocError>
    ensures { IfOk result (λ found.
        option_map (λ p. runs_placement p.0.now p.1 p.2.items) found ≡ runs_edit (words_of words.now)) }
{
    let Some((tag, level, runs)) = three_words(words) else {
        return Ok(None);
    };
    let Some(level) = parse_number(level) else {
        return Ok(None);
    };
    match parse_runs(alloc, runs)? {
        Some(runs) => Ok(Some((tag, level, runs))),
        None => Ok(None),
    }
}

/// The word of the tag, the level and the disc, or `None` where the words are others.
#[tactic(auto, unfolding(crate::specs::Edit::disc_edit))]
fn disc_words(words: &[u8]) -> Option<(&[u8], u32, Circle)>
    ensures { option_map (λ p. disc_placement p.0.now p.1 p.2.x p.2.y p.2.r) result ≡ disc_edit (words_of words.now) }
{
    let (tag, level, disc) = three_words(words)?;
    let level = parse_number(level)?;
    let disc = parse_disc(disc)?;
    Some((tag, level, disc))
}

/// The word of a line that has one, or `None` where it has more or none.
#[tactic(auto, unfolding(crate::specs::Edit::withdrawal))]
fn one_word(line: &[u8]) -> Option<&[u8]>
    ensures { option_map (λ word. Withdraw word.now) result ≡ withdrawal (words_of line.now) }
{
    let (word, rest) = first_word(line)?;
    match first_word(rest) {
        None => Some(word),
        Some(_) => None,
    }
}

/// The words of a line that has three, or `None` where it has more or fewer.
#[tactic(auto, unfolding(crate::specs::Edit::three_of))]
fn three_words(line: &[u8]) -> Option<(&[u8], &[u8], &[u8])>
    ensures { option_map (λ words. (words.0.now, words.1.now, words.2.now)) result ≡ three_of (words_of line.now) }
{
    let (first, rest) = first_word(line)?;
    let (second, rest) = first_word(rest)?;
    let (third, behind) = first_word(rest)?;
    match first_word(behind) {
        None => Some((first, second, third)),
        Some(_) => None,
    }
}
