//! Writing: strokes and withdrawals as lines of the language.

ghost use Rattle.std.specs.Prelude.{◌≡◌, [], ◌∷◌, ◌^◌, ◌<◌, ◌++◌, decimal, IfOk, OnOk, OnErr, IsOkUnless};
ghost use Rattle.std.specs.List.{AllByRecursion, flat_map};
ghost use Rattle.stroke_core.specs.Seed.{Runs, Disc, seed_of};
ghost use Rattle.stroke_core.specs.Tag.{text_of};
ghost use Rattle.edit_lang.specs.declared.error.EditError.TheVariants as errors;
ghost use Rattle.edit_lang.specs.Lines.{blank};
ghost use Rattle.edit_lang.specs.Shapes.{comma};
ghost use Rattle.edit_lang.specs.Writing.{run_text, shape_text, disc_seed, placement_text, withdrawal_text};
ghost use Rattle.edit_lang.specs.Writing.{live_of, live_text, HasCoordinates, ShapeHasCoordinates, IsHeld, SpellsLive};
ghost use Rattle.edit_lang.specs.Writing.{PlacementIsRead, WithdrawalIsRead, LinesAreRead, LiveIsRead};

use crate::error::EditError;
use crate::lengths::{TAG_LEN, live_len, placement_len};
use crate::shape::Circle;
use itoa::Buffer;
use std::alloc::{AllocError, Global};
use stroke_core::{Kind, Run, Stroke, Tag};
use stroke_lattice::State;
use uuid::Uuid;

/// Puts a line behind the text: the placement of a stroke under its tag, as [`parse`](crate::parse) reads it.
///
/// A stroke of runs is written `place TAG LEVEL RUNS`, the runs `y:x0-x1` with one `,` between two, and a disc
/// `disc TAG LEVEL y:x+r`. One blank stands between two words, and LF at the end. The tag is in its hyphenated
/// form (RFC 9562) in lower case, and numbers are in decimal without leading zeros.
///
/// Errors: E4. The text is then as it was.
pub fn push_placement(out: &mut Vec<u8>, tag: Tag, stroke: &Stroke) -> Result<(), EditError>
    ensures text { OnOk result (out.new.items ≡ out.old.items ++ placement_text tag stroke.now) }
    ensures held { OnOk result (IsHeld (tag, stroke.now)) }
    ensures kept { OnErr result (out.new.items ≡ out.old.items) }
    ensures only_memory { IsOkUnless result errors.Memory }
{
    let line = placement_line(*out.allocator(), tag, stroke)?;
    out.extend_from_slice(&line)?;
    Ok(())
}

/// Puts a line behind the text: `withdraw TAG`, in the form of [`push_placement`].
///
/// Errors: E4. The text is then as it was.
pub fn push_withdrawal(out: &mut Vec<u8>, tag: Tag) -> Result<(), EditError>
    ensures text { OnOk result (out.new.items ≡ out.old.items ++ withdrawal_text tag) }
    ensures tag { tag < 2 ^ 128 }
    ensures kept { OnErr result (out.new.items ≡ out.old.items) }
    ensures only_memory { IsOkUnless result errors.Memory }
{
    let line = withdrawal_line(*out.allocator(), tag)?;
    out.extend_from_slice(&line)?;
    Ok(())
}

/// The live strokes of a state as a text: a line for each, in the form of [`push_placement`], rising by tag.
/// [`parse`](crate::parse) reads from it deltas whose join has these strokes, and nothing else. Memory of its exact
/// length is taken.
///
/// Errors: E4.
pub fn live_lines(alloc: Global, state: &State) -> Result<Vec<u8>, EditError>
    ensures text { IfOk result (λ v. v.items ≡ live_text state.now) }
    ensures spells { IfOk result (λ v. SpellsLive v.items state.now) }
    ensures only_memory { IsOkUnless result errors.Memory }
{
    let mut out = Vec::with_capacity(alloc, live_len(state))?;
    put_live(&mut out, state)?;
    Ok(out)
}

/// What is written of a placement, of a withdrawal, of any list of these, and of the live strokes of a state is read
/// as what it was written of.
pub fn what_is_written_is_read()
    ensures placement { PlacementIsRead }
    ensures withdrawal { WithdrawalIsRead }
    ensures lines { LinesAreRead }
    ensures live { LiveIsRead }
{}

// ---- lines

// Puts a line for each live stroke of a state.
fn put_live(out: &mut Vec<u8>, state: &State) -> Result<(), AllocError>
    ensures text { OnOk result (out.new.items ≡ out.old.items ++ live_text state.now) }
    ensures held { OnOk result (AllByRecursion IsHeld (live_of state.now)) }
{
    for (tag, stroke) in state.live() {
        put_placement(out, *tag, stroke)?;
    }
    Ok(())
}

// Puts the line of a placement.
fn put_placement(out: &mut Vec<u8>, tag: Tag, stroke: &Stroke) -> Result<(), AllocError>
    ensures text { OnOk result (out.new.items ≡ out.old.items ++ placement_text tag stroke.now) }
    ensures held { OnOk result (IsHeld (tag, stroke.now)) }
{
    let level = stroke.level();
    match stroke.kind() {
        Kind::Runs => put_runs_line(out, tag, level, stroke.runs()),
        Kind::Disc { x, y, r } => {
            let r = u16::from(r);
            put_disc_line(out, tag, level, Circle { x, y, r })
        }
    }
}

// The line of a placement.
fn placement_line(alloc: Global, tag: Tag, stroke: &Stroke) -> Result<Vec<u8>, AllocError>
    ensures text { IfOk result (λ v. v.items ≡ placement_text tag stroke.now) }
    ensures held { OnOk result (IsHeld (tag, stroke.now)) }
{
    let mut line = Vec::with_capacity(alloc, placement_len(tag, stroke))?;
    put_placement(&mut line, tag, stroke)?;
    Ok(line)
}

// Puts the line that places runs.
#[tactic(auto, unfolding(crate::specs::Writing::placement_text))]
fn put_runs_line(out: &mut Vec<u8>, tag: Tag, level: u16, runs: &[Run]) -> Result<(), AllocError>
    ensures text { OnOk result (out.new.items ≡ out.old.items ++ placement_text tag (seed_of level runs.now)) }
    ensures tag { OnOk result (tag < 2 ^ 128) }
    ensures coordinates { OnOk result (AllByRecursion HasCoordinates runs.now) }
{
    out.extend_from_slice(b"place ")?;
    put_tag_and_level(out, tag, level)?;
    put_runs(out, runs)?;
    out.push(b'\n')?;
    Ok(())
}

// Puts the line that places a disc.
#[tactic(auto, unfolding(crate::specs::Writing::placement_text))]
fn put_disc_line(out: &mut Vec<u8>, tag: Tag, level: u16, disc: Circle) -> Result<(), AllocError>
    ensures text { OnOk result
        (out.new.items ≡ out.old.items ++ placement_text tag (disc_seed level disc.x disc.y disc.r)) }
    ensures tag { OnOk result (tag < 2 ^ 128) }
    ensures coordinates { ShapeHasCoordinates (Disc disc.x disc.y disc.r) }
{
    out.extend_from_slice(b"disc ")?;
    put_tag_and_level(out, tag, level)?;
    put_disc(out, disc)?;
    out.push(b'\n')?;
    Ok(())
}

// The line of a withdrawal.
#[tactic(auto, unfolding(crate::specs::Writing::withdrawal_text))]
fn withdrawal_line(alloc: Global, tag: Tag) -> Result<Vec<u8>, AllocError>
    ensures text { IfOk result (λ v. v.items ≡ withdrawal_text tag) }
    ensures tag { tag < 2 ^ 128 }
{
    let word = b"withdraw ";
    let mut line = Vec::with_capacity(alloc, word.len() + TAG_LEN + 1)?;
    line.extend_from_slice(word)?;
    put_tag(&mut line, tag)?;
    line.push(b'\n')?;
    Ok(line)
}

// ---- words

// Puts a tag and a level, each with a blank behind it.
fn put_tag_and_level(out: &mut Vec<u8>, tag: Tag, level: u16) -> Result<(), AllocError>
    ensures text { OnOk result
        (out.new.items ≡ out.old.items ++ text_of tag ++ blank ∷ (decimal level ++ blank ∷ [])) }
    ensures fits { tag < 2 ^ 128 }
{
    put_tag(out, tag)?;
    out.push(b' ')?;
    put_number(out, level)?;
    out.push(b' ')?;
    Ok(())
}

// Puts a tag.
fn put_tag(out: &mut Vec<u8>, tag: Tag) -> Result<(), AllocError>
    ensures text { OnOk result (out.new.items ≡ out.old.items ++ text_of tag) }
    ensures fits { tag < 2 ^ 128 }
{
    let mut buffer = Uuid::encode_buffer();
    let text = Uuid::from_u128(tag.0)
        .hyphenated()
        .encode_lower(&mut buffer);
    out.extend_from_slice(text.as_bytes())
}

// Puts runs, with one comma between two.
fn put_runs(out: &mut Vec<u8>, runs: &[Run]) -> Result<(), AllocError>
    ensures text { OnOk result (out.new.items ≡ out.old.items ++ shape_text (Runs runs.now)) }
    ensures coordinates { OnOk result (AllByRecursion HasCoordinates runs.now) }
{
    match runs {
        [] => Ok(()),
        [first, others @ ..] => {
            put_run(out, *first)?;
            put_runs_behind(out, others)
        }
    }
}

// Puts runs, each with a comma before it.
fn put_runs_behind(out: &mut Vec<u8>, runs: &[Run]) -> Result<(), AllocError>
    ensures text { OnOk result (out.new.items ≡ out.old.items ++ flat_map (λ run. comma ∷ run_text run) runs.now) }
    ensures coordinates { OnOk result (AllByRecursion HasCoordinates runs.now) }
{
    for run in runs {
        out.push(b',')?;
        put_run(out, *run)?;
    }
    Ok(())
}

// Puts a run.
fn put_run(out: &mut Vec<u8>, run: Run) -> Result<(), AllocError>
    ensures text { OnOk result (out.new.items ≡ out.old.items ++ run_text run) }
    ensures coordinates { HasCoordinates run }
{
    put_number(out, run.y)?;
    out.push(b':')?;
    put_number(out, run.x0)?;
    out.push(b'-')?;
    put_number(out, run.x1)
}

// Puts a disc.
fn put_disc(out: &mut Vec<u8>, disc: Circle) -> Result<(), AllocError>
    ensures { OnOk result (out.new.items ≡ out.old.items ++ shape_text (Disc disc.x disc.y disc.r)) }
{
    put_number(out, disc.y)?;
    out.push(b':')?;
    put_number(out, disc.x)?;
    out.push(b'+')?;
    put_number(out, disc.r)
}

// Puts a number in decimal, without leading zeros.
fn put_number(out: &mut Vec<u8>, number: u16) -> Result<(), AllocError>
    ensures { OnOk result (out.new.items ≡ out.old.items ++ decimal number) }
{
    let mut digits = Buffer::new();
    out.extend_from_slice(digits.format(number).as_bytes())
}
