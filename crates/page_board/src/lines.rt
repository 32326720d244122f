//! Lines of what changed.

ghost use Rattle.std.specs.Prelude.{◌≡◌, ◌++◌, ◌∷◌, [], OnOk, decimal};
ghost use Rattle.std.specs.List.{flat_map};
ghost use Rattle.page_board.specs.Changes.{rect_line, tag_line};

use edit_lang::{push_placement, push_withdrawal};
use grid_core::{Memory, Rect};
use itoa::Buffer;
use stroke_core::Tag;
use stroke_lattice::State;

/// Adds a line for each rectangle.
///
/// Errors: out of memory.
pub(crate) fn push_rects(out: &mut Vec<u8>, rects: &[Rect]) -> Result<(), Memory>
    ensures { OnOk result (out.new.items ≡ out.old.items ++ flat_map rect_line rects.now) }
{
    for rect in rects {
        push_rect(out, *rect)?;
    }
    Ok(())
}

// Adds the line of a rectangle.
fn push_rect(out: &mut Vec<u8>, rect: Rect) -> Result<(), Memory>
    ensures { OnOk result (out.new.items ≡ out.old.items ++ rect_line rect) }
{
    push_number(out, rect.x, b' ')?;
    push_number(out, rect.y, b' ')?;
    push_number(out, rect.w, b' ')?;
    push_number(out, rect.h, b'\n')?;
    Ok(())
}

// Adds a number in decimal, and a byte behind it.
fn push_number(out: &mut Vec<u8>, number: u32, behind: u8) -> Result<(), Memory>
    ensures { OnOk result (out.new.items ≡ out.old.items ++ decimal number ++ behind ∷ []) }
{
    let mut digits = Buffer::new();
    out.extend_from_slice(digits.format(number).as_bytes())?;
    out.push(behind)?;
    Ok(())
}

/// Adds a line for each tag: that its stroke is withdrawn, or placed.
///
/// Errors: out of memory.
pub(crate) fn push_tags(out: &mut Vec<u8>, state: &State, tags: &[Tag]) -> Result<(), Memory>
    ensures { OnOk result (out.new.items ≡ out.old.items ++ flat_map (tag_line state.now) tags.now) }
{
    for tag in tags {
        push_tag(out, state, *tag)?;
    }
    Ok(())
}

// Adds the line of a tag.
fn push_tag(out: &mut Vec<u8>, state: &State, tag: Tag) -> Result<(), Memory>
    ensures { OnOk result (out.new.items ≡ out.old.items ++ tag_line state.now tag) }
{
    if state.has_tombstone(tag) {
        push_withdrawal(out, tag).map_err(|_| Memory)?;
        return Ok(());
    }
    match state.stroke(tag) {
        Some(stroke) => push_placement(out, tag, stroke).map_err(|_| Memory),
        None => Ok(()),
    }
}
