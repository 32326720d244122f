//! Edit lines joined into the bytes of a state file, without an image.

ghost use Rattle.std.specs.Prelude.{◌≡◌, ◌⊎◌, List, ℕ, IfErr, IfOk, length};
ghost use Rattle.grid_core.specs.Raster.{IsImageSize};
ghost use Rattle.run_faults.specs.RunError.{IsMemory};
ghost use Rattle.seedpaint_c.specs.Buffers.{HasNoOther, IsEndedBy, IsHandedOut};
ghost use Rattle.seedpaint_c.specs.Cells.{HoldsUnder};
ghost use Rattle.seedpaint_c.specs.Merged.{IsMergeCode, IsMergedInto, MergingIsRefused};

use crate::buffers::{Lengths, hand_out, tell};
use crate::cells::conn_of;
use crate::codes::{BAD_CONNECTIVITY, BAD_LENGTH, BAD_SIZE};
use edit_lang::parse_lines;
use grid_core::{Conn, is_image_size};
use run_faults::RunError;
use spd_codec::{Print, write_frames};
use std::alloc::Global;
use view_session::kept::frames_for;
use view_session::merging::merge_all;

/// Joins the strokes and withdrawals of edit lines into those that the old bytes of a state file keep: puts the new
/// bytes into the front of `state`. The mask is known by its sides and by its fingerprint, the SHA-256 of its raw PGM
/// file: 32 bytes. `conn` is 4 or 8. Its time goes by the lines and the bytes, and not by the pixels.
///
/// It answers 0, or why `state` is as it was: 2 where `conn` is another number, 5 where no image has such sides, 6
/// where a fingerprint has not 32 bytes; 1 where lines or bytes are refused (E1 to E3, M1 to M7, D1, C1, C2) and 3 for
/// want of memory, and then the front of `fault` has the line that the program would write, without an LF, if it fits;
/// 4 where `state` is too short. `lengths` tells how many bytes the new state and the line have. Where memory is
/// wanting for a line, it is 3 with a line of no bytes.
#[unsafe(no_mangle)]
pub extern "C" fn seedpaint_merge(
    alloc: Global,
    edits: &[u8],
    old: &[u8],
    print: &[u8],
    w: u32,
    h: u32,
    conn: u32,
    state: &mut [u8],
    fault: &mut [u8],
    lengths: &mut Lengths,
) -> u32
    ensures merged { (result ≡ 0) ⊎ (result ≡ 4) → HoldsUnder conn (λ c. (new : List ℕ)
        × IsMergedInto c print.now w h old.now edits.now new
        × IsHandedOut state.old state.new lengths.new.state new result) }
    ensures ended { (result ≡ 1) ⊎ (result ≡ 3) → HoldsUnder conn (λ c.
        IsEndedBy (MergingIsRefused c print.now w h old.now edits.now) IsMemory
        fault.old fault.new lengths.new.fault result) }
    ensures sides { (result ≡ 2 → ⊥) → (result ≡ 5 → ⊥) → IsImageSize w h }
    ensures print { (result ≡ 2 → ⊥) → (result ≡ 5 → ⊥) → (result ≡ 6 → ⊥) → length print.now ≡ 32 }
    ensures code { IsMergeCode conn w h print.now result }
    ensures lengths { HasNoOther lengths.new result × (lengths.new.out ≡ 0) }
    ensures untouched { (result ≡ 0 → ⊥) → state.new ≡ state.old }
    ensures quiet { (result ≡ 1 → ⊥) → (result ≡ 3 → ⊥) → fault.new ≡ fault.old }
{
    lengths.clear();
    let Some(connectivity) = conn_of(conn) else {
        return BAD_CONNECTIVITY;
    };
    if !is_image_size(w, h) {
        return BAD_SIZE;
    }
    let Ok(bytes) = <[u8; 32]>::try_from(print) else {
        return BAD_LENGTH;
    };
    let print = Print::from_bytes(bytes);
    match merge(alloc, edits, old, &Mask { print, w, h }, connectivity) {
        Ok(new) => hand_out(&new, state, &mut lengths.state),
        Err(error) => tell(alloc, &error, fault, &mut lengths.fault),
    }
}

// What is known of a mask: its fingerprint, columns and rows.
#[derive(Drop)]
struct Mask {
    print: Print,
    w: u32,
    h: u32,
}

// The new bytes.
//
// Errors, the first that is met: E1 to E3 of the lines; M1 to M7 of the old bytes; D1 where a frame of them is meant
// for another connectivity or mask; C1 or C2 at the first delta that meets it. E4, M8 or C4 for want of memory.
fn merge(
    alloc: Global,
    edits: &[u8],
    old: &[u8],
    mask: &Mask,
    conn: Conn,
) -> Result<Vec<u8>, RunError>
    ensures merged { IfOk result (λ new.
        IsMergedInto conn mask.now.print mask.now.w mask.now.h old.now edits.now new.items) }
    ensures ended { IfErr result (λ e.
        MergingIsRefused conn mask.now.print mask.now.w mask.now.h old.now edits.now e ⊎ IsMemory e) }
{
    let deltas = parse_lines(alloc, edits)?;
    let frames = frames_for(alloc, old, conn, &mask.print)?;
    let state = merge_all(alloc, &frames, &deltas, mask.w, mask.h)?;
    let new = write_frames(alloc, conn, &mask.print, &state)?;
    Ok(new)
}
