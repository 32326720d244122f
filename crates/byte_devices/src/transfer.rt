//! Whole texts from a source and to a sink.
ghost use Rattle.std.specs.Prelude.{◌≡◌, ◌+◌, ◌<◌, ◌≤◌, length, take, drop, vec_len, IfOk, OnOk};
ghost use Rattle.byte_devices.specs.Device.{Pulls};
ghost use Rattle.byte_devices.specs.Transfer.{most_pulls, IsInputOf, ReadsToEnd, PutsAll};
ghost use Rattle.byte_devices.specs.declared.fault.TransferError.TheVariants as errors;

use crate::fault::{Fault, TransferError};
use crate::sink::Sink;
use crate::source::Source;
use std::alloc::{AllocError, Global};

/// How many pulls a source has to reach its end.
pub const MOST_PULLS: u64 = 1 << 28;

// How many bytes the first pull has room for.
const FIRST_ROOM: usize = 65_536;

// How many bytes of room are made where a pull has none.
const MORE_ROOM: usize = 262_144;

/// Everything that the source has left, up to its end.
///
/// Errors: where memory is refused; where a pull failed, or where the source had not ended after
/// [`MOST_PULLS`] pulls. What was pulled before an error is lost.
pub fn read_all<S: Source>(alloc: Global, source: &mut S) -> Result<Vec<u8>, TransferError>
    ensures bytes { IfOk result (λ v. IsInputOf (S.seen source.old).remaining v.items) }
    ensures to_end { ReadsToEnd (λ e. e ≡ errors.Memory) (λ e. e ≡ errors.Device) most_pulls result
        (S.seen source.old) (S.seen source.new) }
{
    read_all_within(alloc, source, MOST_PULLS)
}

/// Everything that the source has left, up to its end, which it has to reach in this number of pulls. The pull that
/// finds the end is one of them.
///
/// Errors: where memory is refused; where a pull failed, or where the source had not ended after so many pulls. What
/// was pulled before an error is lost.
pub fn read_all_within<S: Source>(
    alloc: Global,
    source: &mut S,
    pulls: u64,
) -> Result<Vec<u8>, TransferError>
    ensures bytes { IfOk result (λ v. IsInputOf (S.seen source.old).remaining v.items) }
    ensures to_end { ReadsToEnd (λ e. e ≡ errors.Memory) (λ e. e ≡ errors.Device) pulls result
        (S.seen source.old) (S.seen source.new) }
{
    let mut bytes = zeros(alloc, FIRST_ROOM)?;
    let mut filled = 0;
    for _pull in 0..pulls {
        make_room(&mut bytes, filled)?;
        let n = pull_behind(source, &mut bytes, filled)?;
        if n == 0 {
            bytes.truncate(filled);
            return Ok(bytes);
        }
        filled += n;
    }
    Err(TransferError::Device)
}

// Room behind the first `filled` bytes, which stay. No more of it is made than a few pulls fill: the memory
// behind it stays untouched.
fn make_room(bytes: &mut Vec<u8>, filled: usize) -> Result<(), AllocError>
    requires within { filled ≤ vec_len bytes.old }
    requires some { 0 < vec_len bytes.old }
    ensures room { OnOk result (filled < vec_len bytes.new) }
    ensures front { OnOk result (take filled bytes.new.items ≡ take filled bytes.old.items) }
{
    let len = bytes.len();
    if filled == len {
        bytes.resize(len.saturating_add(MORE_ROOM), 0)?;
    }
    Ok(())
}

// One pull behind the first `filled` bytes, which stay.
fn pull_behind<S: Source>(source: &mut S, bytes: &mut [u8], filled: usize) -> Result<usize, Fault>
    requires { filled < length bytes.old }
    ensures len { length bytes.new ≡ length bytes.old }
    ensures front { take filled bytes.new ≡ take filled bytes.old }
    ensures pulls { Pulls (S.seen source.old) (S.seen source.new) result (drop filled bytes.new) }
{
    source.pull(&mut bytes[filled..])
}

// So many zeros, as room for a pull.
fn zeros(alloc: Global, len: usize) -> Result<Vec<u8>, AllocError>
    ensures { IfOk result (λ v. vec_len v ≡ len) }
{
    vec![in alloc; 0; len]
}

/// Puts all of the bytes. After a fault some front of them was taken.
pub fn put_all<K: Sink>(sink: &mut K, bytes: &[u8]) -> Result<(), Fault>
    ensures { PutsAll result (K.seen sink.old) (K.seen sink.new) bytes.now }
{
    let mut rest = bytes;
    while !rest.is_empty() {
        let n = sink.put(rest)?;
        rest = &rest[n..];
    }
    Ok(())
}
