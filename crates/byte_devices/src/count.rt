//! Counts of calls, which stop at the greatest number of 64 bits.
ghost use Rattle.std.specs.Prelude.{◌≡◌};
ghost use Rattle.byte_devices.specs.Device.{count_after};

/// Counts one more, up to `u64::MAX`.
pub fn count_one(count: &mut u64)
    ensures { count.new ≡ count_after count.old 1 }
{
    *count = count.saturating_add(1);
}
