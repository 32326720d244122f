//! Runs and discs in words.

ghost use Rattle.std.specs.Prelude.{◌≡◌, IfOk, option_map};
ghost use Rattle.stroke_core.specs.Seed.{Disc};
ghost use Rattle.edit_lang.specs.Shapes.{run_between, run_of, runs_of, disc_round, disc_of};

use crate::number::parse_coordinate;
use crate::words::cut_at;
use std::alloc::{AllocError, Global};
use stroke_core::Run;

/// The runs that the word writes, with one comma between two, or `None` where it is something else.
///
/// Errors: out of memory.
pub(crate) fn parse_runs(alloc: Global, word: &[u8]) -> Result<Option<Vec<Run>>, AllocError>
    ensures { IfOk result (λ found. option_map (λ runs. runs.items) found ≡ runs_of word.now) }
{
    let commas = word.iter().filter(|byte| **byte == b',').count();
    let mut runs = Vec::with_capacity(alloc, commas + 1)?;
    let mut rest = word;
    while let Some((piece, after)) = cut_at(rest, b',') {
        let Some(run) = parse_run(piece) else {
            return Ok(None);
        };
        runs.push(run)?;
        rest = after;
    }
    let Some(last) = parse_run(rest) else {
        return Ok(None);
    };
    runs.push(last)?;
    Ok(Some(runs))
}

/// The run that `y:x0-x1` writes, or `None` where the word is something else.
#[tactic(auto, unfolding(crate::specs::Shapes::run_of))]
fn parse_run(word: &[u8]) -> Option<Run>
    ensures { result ≡ run_of word.now }
{
    let (row, columns) = cut_at(word, b':')?;
    let (first, last) = cut_at(columns, b'-')?;
    run_between(row, first, last)
}

/// The run of a row and two columns, or `None` where one of the words is none.
#[tactic(auto, unfolding(crate::specs::Shapes::run_between))]
fn run_between(row: &[u8], first: &[u8], last: &[u8]) -> Option<Run>
    ensures { result ≡ run_between row.now first.now last.now }
{
    let y = parse_coordinate(row)?;
    let x0 = parse_coordinate(first)?;
    let x1 = parse_coordinate(last)?;
    Some(Run { y, x0, x1 })
}

/// The column and the row of a centre, and a radius that is not judged yet.
#[derive(Clone, Copy)]
pub(crate) struct Circle {
    pub x: u16,
    pub y: u16,
    pub r: u16,
}

/// The disc that `y:x+r` writes, or `None` where the word is something else.
#[tactic(auto, unfolding(crate::specs::Shapes::disc_of))]
pub(crate) fn parse_disc(word: &[u8]) -> Option<Circle>
    ensures { option_map (λ d. Disc d.x d.y d.r) result ≡ disc_of word.now }
{
    let (row, others) = cut_at(word, b':')?;
    let (column, radius) = cut_at(others, b'+')?;
    disc_round(row, column, radius)
}

/// The disc of a row, a column and a radius, or `None` where one of the words is none.
#[tactic(auto, unfolding(crate::specs::Shapes::disc_round))]
fn disc_round(row: &[u8], column: &[u8], radius: &[u8]) -> Option<Circle>
    ensures { option_map (λ d. Disc d.x d.y d.r) result ≡ disc_round row.now column.now radius.now }
{
    let y = parse_coordinate(row)?;
    let x = parse_coordinate(column)?;
    let r = parse_coordinate(radius)?;
    Some(Circle { x, y, r })
}
