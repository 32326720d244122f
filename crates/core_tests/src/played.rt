//! Tables of lines that are played one after another, where memory may be wanting once.

use std::test::Fail;

/// What lines are played on.
pub trait Stage<L> {
    /// What is there, in one number.
    fn sum(&self) -> u64;

    /// Has happen what the line says, and answers whether it is as the line says; nothing where memory was wanting.
    fn play(&mut self, line: &L) -> Option<bool>;
}

/// What became of a table.
#[derive(Clone, Copy)]
pub enum Outcome {
    /// Each line is so.
    Right,
    /// There was no memory for what it is played on.
    NoMemory,
    /// The line of this number, from 0, is not so.
    Wrong(usize),
    /// Memory was wanting in this line, and not all is as before, or it was wanting once more.
    Changed(usize),
}

// Whether a line is so. Where memory was wanting and all is as before, it is played once more.
fn is_so<L, S: Stage<L>>(stage: &mut S, line: &L) -> Option<bool> {
    let before = stage.sum();
    match stage.play(line) {
        None if stage.sum() == before => stage.play(line),
        told => told,
    }
}

// What becomes of these lines.
fn played<L, S: Stage<L>>(stage: &mut S, lines: &[L]) -> Outcome {
    let mut number: usize = 0;
    for line in lines {
        match is_so(stage, line) {
            Some(true) => number = number.saturating_add(1),
            Some(false) => return Outcome::Wrong(number),
            None => return Outcome::Changed(number),
        }
    }
    Outcome::Right
}

/// What becomes of lines on a stage that there may be no memory for.
pub fn play<L, S: Stage<L> + Drop>(stage: Option<S>, lines: &[L]) -> Outcome {
    match stage {
        Some(mut stage) => played(&mut stage, lines),
        None => Outcome::NoMemory,
    }
}

/// The result of a test that played a table of this name.
pub fn told(name: &str, played: Outcome) -> Result<(), Fail> {
    match played {
        Outcome::Right => Ok(()),
        Outcome::NoMemory => Err(Fail::new("no memory to begin with")),
        Outcome::Wrong(line) => Err(Fail::new(format_args!(
            "{name}: line {line}, from 0, is not so"
        ))),
        Outcome::Changed(line) => {
            Err(Fail::new(format_args!("{name}: line {line}, from 0, was changed by a refusal")))
        }
    }
}
