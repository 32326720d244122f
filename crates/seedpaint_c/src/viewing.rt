//! What an input shows, from bytes to bytes, as the program shows it.

ghost use Rattle.std.specs.Prelude.{◌≡◌, ◌⊎◌, List, ℕ, IfErr, IfOk};
ghost use Rattle.byte_devices.specs.MemoryDevice.{fresh_input};
ghost use Rattle.stroke_lattice.specs.State.{State, nothing};
ghost use Rattle.run_faults.specs.RunError.{IsReadingFault};
ghost use Rattle.seedpaint_c.specs.Buffers.{AreHandedOut, HasNoOther, IsAnswerCode, IsEndedBy, IsHandedOut, IsShortage};
ghost use Rattle.seedpaint_c.specs.Cells.{HoldsUnder};
ghost use Rattle.view_session.specs.Kept.{IsKeptView, KeptIsRefused};
ghost use Rattle.view_session.specs.View.{InputIsRefused, IsView};

use crate::buffers::{Lengths, hand_out, hand_out_both, tell};
use crate::cells::conn_of;
use crate::codes::BAD_CONNECTIVITY;
use byte_devices::{MemorySink, MemorySource};
use grid_core::Conn;
use pgm_codec::PgmError;
use run_faults::RunError;
use std::alloc::Global;
use view_session::view::{view_kept, view_run};

// The side of tiles for a view, on which nothing depends that it answers.
const SIDE: u32 = 64;

/// Shows an input, which is edit lines, a line `image` and a PGM file: puts the raw PGM file of the reconstruction by
/// dilation of its mask from its live strokes (Vincent 1993) into the front of `out`. `conn` is 4 or 8.
///
/// It answers 0, or why `out` is as it was: 2 where `conn` is another number; 1 where the input is refused (V1, E1 to
/// E3, P1 to P9, C1, C2) and 3 for want of memory, and then the front of `fault` has the line that the program would
/// write, without an LF, if it fits; 4 where `out` is too short. `lengths` tells how many bytes the file and the line
/// have: with 4, how many `out` has to have. Where memory is wanting for a line, it is 3 with a line of no bytes.
#[unsafe(no_mangle)]
pub extern "C" fn seedpaint_view(
    alloc: Global,
    input: &[u8],
    conn: u32,
    out: &mut [u8],
    fault: &mut [u8],
    lengths: &mut Lengths,
) -> u32
    ensures shown { (result ≡ 0) ⊎ (result ≡ 4) → HoldsUnder conn (λ c. (state : State) × (text : List ℕ)
        × IsView c nothing input.now state text × IsHandedOut out.old out.new lengths.new.out text result) }
    ensures ended { (result ≡ 1) ⊎ (result ≡ 3)
        → IsEndedBy (InputIsRefused nothing input.now) IsShortage fault.old fault.new lengths.new.fault result }
    ensures code { IsAnswerCode conn result }
    ensures lengths { HasNoOther lengths.new result × (lengths.new.state ≡ 0) }
    ensures untouched { (result ≡ 0 → ⊥) → out.new ≡ out.old }
    ensures quiet { (result ≡ 1 → ⊥) → (result ≡ 3 → ⊥) → fault.new ≡ fault.old }
{
    lengths.clear();
    let Some(connectivity) = conn_of(conn) else {
        return BAD_CONNECTIVITY;
    };
    match show(alloc, input, connectivity) {
        Ok(sink) => hand_out(sink.written(), out, &mut lengths.out),
        Err(error) => tell(alloc, &error, fault, &mut lengths.fault),
    }
}

// Shows an input in a sink.
fn show(alloc: Global, input: &[u8], conn: Conn) -> Result<MemorySink, RunError>
    ensures shown { IfOk result (λ sink. (state : State) × IsView conn nothing input.now state sink.written) }
    ensures ended { IfErr result (λ e. InputIsRefused nothing input.now e ⊎ IsShortage e) }
{
    let mut source = source_of(alloc, input)?;
    let mut sink = MemorySink::new(alloc);
    view_run(alloc, &mut source, conn, &mut sink)?;
    Ok(sink)
}

/// Shows an input over the old bytes of a state file, which may be empty: puts the raw PGM file of the reconstruction
/// from the join of the strokes of both into the front of `out`, and the new bytes of the state file, which keep that
/// join, into the front of `state`. `conn` is 4 or 8.
///
/// It answers 0, or why `out` and `state` are as they were, as [`seedpaint_view`] does, and 1 also where the old bytes
/// are refused (M1 to M7, D1); 4 where one of both is too short. `lengths` tells how many bytes the file, the new state
/// and the line of a fault have.
#[unsafe(no_mangle)]
pub extern "C" fn seedpaint_view_kept(
    alloc: Global,
    input: &[u8],
    old: &[u8],
    conn: u32,
    out: &mut [u8],
    state: &mut [u8],
    fault: &mut [u8],
    lengths: &mut Lengths,
) -> u32
    ensures shown { (result ≡ 0) ⊎ (result ≡ 4) → HoldsUnder conn (λ c. (text new : List ℕ)
        × IsKeptView c old.now input.now text new
        × AreHandedOut out.old out.new lengths.new.out text state.old state.new lengths.new.state new result) }
    ensures ended { (result ≡ 1) ⊎ (result ≡ 3) → HoldsUnder conn (λ c.
        IsEndedBy (KeptIsRefused c old.now input.now) IsShortage fault.old fault.new lengths.new.fault result) }
    ensures code { IsAnswerCode conn result }
    ensures lengths { HasNoOther lengths.new result }
    ensures untouched { (result ≡ 0 → ⊥) → (out.new ≡ out.old) × (state.new ≡ state.old) }
    ensures quiet { (result ≡ 1 → ⊥) → (result ≡ 3 → ⊥) → fault.new ≡ fault.old }
{
    lengths.clear();
    let Some(connectivity) = conn_of(conn) else {
        return BAD_CONNECTIVITY;
    };
    match keep(alloc, input, old, connectivity) {
        Ok((new, sink)) => hand_out_both(sink.written(), &new, out, state, lengths),
        Err(error) => tell(alloc, &error, fault, &mut lengths.fault),
    }
}

// Shows an input over old bytes in a sink, and gives the new bytes.
fn keep(
    alloc: Global,
    input: &[u8],
    old: &[u8],
    conn: Conn,
) -> Result<(Vec<u8>, MemorySink), RunError>
    ensures shown { IfOk result (λ kept. IsKeptView conn old.now input.now kept.1.written kept.0.items) }
    ensures ended { IfErr result (λ e. KeptIsRefused conn old.now input.now e ⊎ IsShortage e) }
{
    let mut source = source_of(alloc, input)?;
    let mut sink = MemorySink::new(alloc);
    let new = view_kept(alloc, &mut source, old, conn, SIDE, &mut sink)?;
    Ok((new, sink))
}

// A source of these bytes.
//
// Errors: P10.
fn source_of(alloc: Global, input: &[u8]) -> Result<MemorySource, RunError>
    ensures source { IfOk result (λ source. source ≡ fresh_input input.now usize.MAX) }
    ensures memory { IfErr result IsReadingFault }
{
    let Ok(bytes) = Vec::from_slice(alloc, input) else {
        return Err(RunError::Pgm(PgmError::Memory));
    };
    Ok(MemorySource::new(bytes))
}
