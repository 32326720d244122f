//! The frames that a state file keeps for a mask.

ghost use Rattle.std.specs.Prelude.{◌≡◌, ◌<◌, ◌⊎◌, ◌↔◌, length, IsTrue, All, IfOk, IfErr, IsErrOf};
ghost use Rattle.spd_codec.specs.StateFile.{IsFileFault};
ghost use Rattle.spd_codec.specs.declared.error.SpdError.{SpdError};
ghost use Rattle.spd_codec.specs.declared.error.SpdError.TheVariants as spd;
ghost use Rattle.view_session.specs.Kept.{IsFrameFor, FileSpells, FileIsOfAnother, deltas_of};

use grid_core::Conn;
use run_faults::RunError;
use spd_codec::{Frame, Print, read_frames};
use std::alloc::Global;

/// The frames that the bytes of a state file spell, where each of them is meant for this connectivity and fingerprint.
///
/// Errors: M1 to M7 of the bytes; D1 where a frame is meant for another. M8 for want of memory, where there are bytes.
pub fn frames_for(
    alloc: Global,
    old: &[u8],
    conn: Conn,
    print: &Print,
) -> Result<Vec<Frame>, RunError>
    ensures spelled { IfOk result (λ frames. FileSpells conn print.now old.now (deltas_of frames.items)) }
    ensures refused { IfErr result (λ e. (e ≡ RunError.Spd spd.Memory)
        ⊎ ((why : SpdError) × (e ≡ RunError.Spd why) × IsFileFault old.now why)
        ⊎ ((e ≡ RunError.OtherMask) × FileIsOfAnother conn print.now old.now)) }
    ensures some { IsErrOf result (RunError.Spd spd.Memory) → 0 < length old.now }
{
    let frames = read_frames(alloc, old)?;
    own_frames(frames, conn, print)
}

// These frames, where each of them is meant for this connectivity and fingerprint. It takes no memory: D1 is the only
// refusal.
fn own_frames(frames: Vec<Frame>, conn: Conn, print: &Print) -> Result<Vec<Frame>, RunError>
    ensures same { IfOk result (λ own. own.items ≡ frames.items) }
    ensures all { IfOk result (λ _. All (IsFrameFor conn print.now) frames.items) }
    ensures another { IfErr result (λ e. (e ≡ RunError.OtherMask)
        × (All (IsFrameFor conn print.now) frames.items → ⊥)) }
{
    if !are_all_for(&frames, conn, print) {
        return Err(RunError::OtherMask);
    }
    Ok(frames)
}

// Whether each frame is meant for this connectivity and fingerprint.
fn are_all_for(frames: &[Frame], conn: Conn, print: &Print) -> bool
    ensures { IsTrue result ↔ All (IsFrameFor conn print.now) frames.now }
{
    for frame in frames {
        if !frame.is_for(conn, print) {
            return false;
        }
    }
    true
}
