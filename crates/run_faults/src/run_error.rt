//! Why a run ended, and how the program says so.

ghost use Rattle.std.specs.Prelude.{◌≡◌, IfOk, string_bytes};
ghost use Rattle.byte_devices.specs.Transfer.{PutsAll};
ghost use Rattle.run_faults.specs.RunError.{HasStatus, code_of, core_detail, detail_of, edit_detail, error_line};
ghost use Rattle.run_faults.specs.RunError.{fault_text, frame_detail, studio_code};
ghost use Rattle.run_faults.specs.declared.run_error.RunError.TheVariants as errors;

use crate::detail::Detail;
use byte_devices::{Fault, Sink, put_all};
use core_rules::CoreError;
use edit_lang::EditError;
use grid_core::Memory;
use pgm_codec::PgmError;
use spd_codec::SpdError;
use std::alloc::Global;
use thiserror::Error;

/// Why a run ended without its image.
#[derive(Clone, Copy, Debug, PartialEq, Eq, Error)]
pub enum RunError {
    /// The words of the command line ask for nothing that the program does.
    #[error("usage")]
    Usage,
    /// V1: the input has no line `image`.
    #[error("V1: there is no image line")]
    NoImage,
    /// E1 to E4: the edit text before that line.
    #[error("{0}")]
    Edit(EditError),
    /// P1 to P11: the image file behind it, or the one that something is derived from, or a device.
    #[error("{0}")]
    Pgm(PgmError),
    /// C1 to C4: the strokes and withdrawals can not all be merged. C5: tiles have no such side.
    #[error("{0}")]
    Core(CoreError),
    /// M1 to M8: the state file, or the one that is to be written.
    #[error("{0}")]
    Spd(SpdError),
    /// D1: a frame of the state file is meant for another mask or connectivity.
    #[error("D1: the state file is for another image")]
    OtherMask,
    /// V2: the state file can not be read or written.
    #[error("V2: the state file can not be read or written")]
    StateFile,
    /// Out of memory elsewhere: in words, in loading a state file, in growing or deriving an image, and for a page.
    #[error("out of memory")]
    Memory,
    /// U1 to U3, B1 to B3: no studio was opened, or it was not closed.
    #[error("{0}")]
    Studio(StudioFault),
    /// D3: a link could not be opened.
    #[error("D3: the link could not be opened")]
    Link,
}

/// Why a studio was not opened, or not closed.
#[derive(Clone, Copy, Debug, PartialEq, Eq, Error)]
pub enum StudioFault {
    /// U1: a count is none of 1 to 16.
    #[error("U1: not 1 to 16 of each")]
    BadCounts,
    /// U2: out of memory in opening.
    #[error("U2: out of memory")]
    OpenMemory,
    /// U3: a place for an eye was refused.
    #[error("U3: no place")]
    NoPlace,
    /// B1: the end of a pen is missing.
    #[error("B1: an end is missing")]
    EndMissing,
    /// B2: out of memory in closing.
    #[error("B2: out of memory")]
    CloseMemory,
    /// B3: a count is spent.
    #[error("B3: a count is spent")]
    CountSpent,
}

impl StudioFault {
    /// The code, as documents name it.
    pub fn code(self) -> &'static str
        ensures { result.now ≡ studio_code self }
    {
        match self {
            StudioFault::BadCounts => "U1",
            StudioFault::OpenMemory => "U2",
            StudioFault::NoPlace => "U3",
            StudioFault::EndMissing => "B1",
            StudioFault::CloseMemory => "B2",
            StudioFault::CountSpent => "B3",
        }
    }
}

impl From<EditError> for RunError {
    ghost from_gives = { λ e f. f ≡ errors.Edit e };

    fn from(e: EditError) -> RunError {
        RunError::Edit(e)
    }
}

impl From<PgmError> for RunError {
    ghost from_gives = { λ e f. f ≡ errors.Pgm e };

    fn from(e: PgmError) -> RunError {
        RunError::Pgm(e)
    }
}

impl From<CoreError> for RunError {
    ghost from_gives = { λ e f. f ≡ errors.Core e };

    fn from(e: CoreError) -> RunError {
        RunError::Core(e)
    }
}

impl From<SpdError> for RunError {
    ghost from_gives = { λ e f. f ≡ errors.Spd e };

    fn from(e: SpdError) -> RunError {
        RunError::Spd(e)
    }
}

impl From<Memory> for RunError {
    ghost from_gives = { λ _ f. f ≡ errors.Memory };

    fn from(_e: Memory) -> RunError {
        RunError::Memory
    }
}

impl RunError {
    // The code, as documents name it, or the word of what has none.
    fn code(&self) -> &'static str
        ensures { result.now ≡ code_of self.now }
    {
        match self {
            RunError::Usage => "usage",
            RunError::NoImage => "V1",
            RunError::Edit(e) => e.code(),
            RunError::Pgm(e) => e.code(),
            RunError::Core(e) => e.code(),
            RunError::Spd(e) => e.code(),
            RunError::OtherMask => "D1",
            RunError::StateFile => "V2",
            RunError::Memory => "memory",
            RunError::Studio(why) => why.code(),
            RunError::Link => "D3",
        }
    }

    // What is told beside it.
    fn detail(&self) -> Detail
        ensures { result ≡ detail_of self.now }
    {
        match self {
            RunError::Edit(e) => edit_detail(e),
            RunError::Core(e) => core_detail(e),
            RunError::Spd(e) => frame_detail(e),
            RunError::Usage
            | RunError::NoImage
            | RunError::Pgm(_)
            | RunError::OtherMask
            | RunError::StateFile
            | RunError::Memory
            | RunError::Studio(_)
            | RunError::Link => Detail::Nothing,
        }
    }
}

// Of a fault in the edit text: the number of its line, and of a stroke why it is refused.
fn edit_detail(error: &EditError) -> Detail
    ensures { result ≡ edit_detail error.now }
{
    match error {
        EditError::BadLine(n) | EditError::BadTag(n) => Detail::Line(*n),
        EditError::BadStroke(n, why) => Detail::LineAndStroke(*n, *why),
        EditError::Memory => Detail::Nothing,
    }
}

// Of a core's refusal: the tag that is named, if one is.
fn core_detail(error: &CoreError) -> Detail
    ensures { result ≡ core_detail error.now }
{
    match error {
        CoreError::OutOfImage(tag) => Detail::Named(*tag),
        CoreError::Conflict(tag) => Detail::Named(*tag),
        CoreError::GenerationsSpent | CoreError::Memory | CoreError::BadSide => Detail::Nothing,
    }
}

// Of a fault in a state file: why a stroke is refused, if one is.
fn frame_detail(error: &SpdError) -> Detail
    ensures { result ≡ frame_detail error.now }
{
    match error {
        SpdError::BadStroke(why) => Detail::Stroke(*why),
        SpdError::BadMagic
        | SpdError::BadConn
        | SpdError::Truncated
        | SpdError::TagOrder
        | SpdError::TooLong
        | SpdError::Trailing
        | SpdError::Memory => Detail::Nothing,
    }
}

/// The one line that the program writes on standard error, without its LF: `seedpaint: ` and the code.
/// After E1 and E2 a blank and the number of the line, after E3 also a blank and the code of the stroke,
/// after M5 a blank and the code of the stroke, after C1 and C2 a blank and the tag's text.
///
/// Errors: out of memory.
pub fn fault_line(alloc: Global, error: &RunError) -> Result<String, Memory>
    ensures { IfOk result (λ line. string_bytes line ≡ fault_text error.now) }
{
    let mut line = String::from_str(alloc, "seedpaint: ")?;
    line.push_str(error.code())?;
    error.detail().push_to(alloc, &mut line)?;
    Ok(line)
}

/// Puts the line of a fault into a sink, as [`fault_line`] gives it, with its LF. It takes no memory.
///
/// Errors: the sink failed. It took a front of the line.
pub fn put_fault<K: Sink>(error: &RunError, sink: &mut K) -> Result<(), Fault>
    ensures { PutsAll result (K.seen sink.old) (K.seen sink.new) (error_line error.now) }
{
    put_all(sink, b"seedpaint: ")?;
    put_all(sink, error.code().as_bytes())?;
    error.detail().put_to(sink)?;
    put_all(sink, b"\n")
}

/// The exit status of the program: 1 for an input, a state file, a side of tiles or a count of hands that is refused, 2
/// for words on the command line, 3 for want of memory, for a studio that is not opened or not closed for another
/// reason, and for a device that failed, a file that is not read or written and a link among them. A run that writes
/// its image, and its state file where it has one, has status 0.
pub fn status(error: &RunError) -> u8
    ensures { HasStatus error.now result }
{
    match error {
        RunError::Usage => 2,
        RunError::Memory
        | RunError::Edit(EditError::Memory)
        | RunError::Pgm(PgmError::Memory)
        | RunError::Core(CoreError::Memory)
        | RunError::Spd(SpdError::Memory) => 3,
        RunError::StateFile | RunError::Link | RunError::Pgm(PgmError::Device) => 3,
        RunError::NoImage | RunError::OtherMask | RunError::Studio(StudioFault::BadCounts) => 1,
        RunError::Studio(_) => 3,
        RunError::Edit(_) | RunError::Pgm(_) | RunError::Core(_) | RunError::Spd(_) => 1,
    }
}
