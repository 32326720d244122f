//! Numbers that are new with each start, from the system's source of random bytes.

ghost use Rattle.std.specs.Prelude.{◌≡◌, ◌/◌, ◌≤◌, ◌<◌, ◌^◌, max, IfOk};
ghost use Rattle.std.specs.Int.{from_be_bytes, w64, w128};

use std::io;
use std::random::RandomSource;

/// The number of a run: at least 1, and below 2^53, so that a script of a page has it exactly.
///
/// Errors: there are no random bytes.
pub(crate) fn run_number<R: RandomSource>(rt: &R) -> io::Result<u64>
    ensures some { IfOk result (λ run. 1 ≤ run) }
    ensures small { IfOk result (λ run. run < 2 ^ 53) }
{
    let mut bytes = [0u8; 8];
    rt.fill_bytes(&mut bytes)?;
    Ok(run_of(bytes))
}

// The number that eight bytes make: their highest 53 bits, or 1 where those are 0.
fn run_of(bytes: [u8; 8]) -> u64
    ensures run { result ≡ max (from_be_bytes w64 bytes / 2 ^ 11) 1 }
    ensures small { result < 2 ^ 53 }
{
    (u64::from_be_bytes(bytes) >> 11).max(1)
}

/// 128 bits that nobody knows.
///
/// Errors: there are no random bytes.
pub(crate) fn key_bits<R: RandomSource>(rt: &R) -> io::Result<u128>
    ensures { IfOk result (λ bits. bits < 2 ^ 128) }
{
    let mut bytes = [0u8; 16];
    rt.fill_bytes(&mut bytes)?;
    Ok(bits_of(bytes))
}

// The bits of sixteen bytes, all of them, the first byte highest.
fn bits_of(bytes: [u8; 16]) -> u128
    ensures { result ≡ from_be_bytes w128 bytes }
{
    u128::from_be_bytes(bytes)
}
