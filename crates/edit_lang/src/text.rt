//! Texts: line after line, each with its number.

ghost use Rattle.std.specs.Prelude.{◌≡◌, List, ◌⊎◌, IfOk, IfErr, MatchResult};
ghost use Rattle.edit_lang.specs.declared.error.EditError.TheVariants as errors;
ghost use Rattle.stroke_lattice.specs.State.{State as Strokes};
ghost use Rattle.edit_lang.specs.Edit.{EditSpells, IsFirstFault, OneMeaning};

use crate::error::EditError;
use crate::line::parse_line;
use crate::line_delta::LineDelta;
use crate::words::first_line;
use std::alloc::Global;
use stroke_core::one_refusal;
use stroke_lattice::Delta;

/// The deltas that an edit text spells, in the order of its lines.
///
/// A line ends with LF, the last one also with the text; one CR before that end is dropped. Words stand
/// between blanks and TABs. A line without words and one whose first word begins with `;` mean nothing.
/// Any other is one of these:
///
/// - `place TAG LEVEL RUNS`: a state with this stroke. RUNS are runs `y:x0-x1` with one `,` between two.
/// - `disc TAG LEVEL y:x+r`: a state with the disc of radius `r` round the pixel in row `y` and column `x`.
/// - `withdraw TAG`: a state with this tombstone.
///
/// TAG is a UUID, LEVEL has one to five digits, and so has each other number, which is at most 65535.
///
/// Errors, those of the first line that has one, counted from 1: E1 where the line has another form, else
/// E2 where the tag is no UUID, else E3 with the reason for which the level and the runs or the disc make no
/// stroke (S1, S3, S4 or S7). E4 where a growth was refused, in place of any.
///
/// What is read is what the lines spell, and what they spell is read, unless memory runs out. An error is that of the
/// first faulty line, unless memory runs out.
pub fn parse(alloc: Global, text: &[u8]) -> Result<Vec<Delta>, EditError>
    ensures spelled { IfOk result (λ deltas. EditSpells text.now deltas.items) }
    ensures only { (deltas : List Strokes) → EditSpells text.now deltas
        → MatchResult result (λ found. found.items ≡ deltas) (λ e. e ≡ errors.Memory) }
    ensures refused { IfErr result (λ e. (e ≡ errors.Memory) ⊎ IsFirstFault text.now e) }
{
    // What is read is all that the text spells.
    one_meaning();
    let lines = parse_lines(alloc, text)?;
    deltas_of(alloc, &lines)
}

/// The deltas that an edit text spells, in the order of its lines, as [`parse`] reads them: each is held as a line's.
///
/// Errors: those of [`parse`].
pub fn parse_lines(alloc: Global, text: &[u8]) -> Result<Vec<LineDelta>, EditError>
    ensures spelled { IfOk result (λ deltas. EditSpells text.now deltas.items) }
    ensures refused { IfErr result (λ e. (e ≡ errors.Memory) ⊎ IsFirstFault text.now e) }
{
    let mut deltas = Vec::new(alloc);
    let mut number = 0;
    let mut rest = text;
    while !rest.is_empty() {
        let (line, after) = first_line(rest);
        number += 1;
        if let Some(delta) = parse_line(alloc, number, line)? {
            deltas.push(delta)?;
        }
        rest = after;
    }
    Ok(deltas)
}

/// The deltas of lines, as states.
///
/// Errors: E4.
fn deltas_of(alloc: Global, lines: &[LineDelta]) -> Result<Vec<Delta>, EditError>
    ensures { MatchResult result (λ deltas. deltas.items ≡ lines.now) (λ e. e ≡ errors.Memory) }
{
    let mut deltas = Vec::with_capacity(alloc, lines.len())?;
    for line in lines {
        let Ok(delta) = line.to_state(alloc) else {
            return Err(EditError::Memory);
        };
        deltas.push(delta)?;
    }
    Ok(deltas)
}

/// A text spells one list of deltas or has one first fault, and not both.
pub fn one_meaning()
    ensures { OneMeaning }
{
    one_refusal();
}
