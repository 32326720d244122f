//! What gives bytes.
ghost use Rattle.std.specs.Prelude.{◌<◌, length};
ghost use Rattle.byte_devices.specs.Device.{SourceSeen, Pulls};

use crate::fault::Fault;

/// A device that gives bytes, piece by piece. It counts its pulls, those that failed, and those that
/// found the end. A count stops at `u64::MAX`.
pub trait Source {
    // The bytes still to come, where they are known, and the counts.
    ghost seen: { Self → SourceSeen };

    /// Puts the next bytes at the front of `buf`, which is not empty, and answers how many they are:
    /// 0 at the end. What stands behind them is left open. A pull that fails takes no byte.
    fn pull(&mut self, buf: &mut [u8]) -> Result<usize, Fault>
        requires { 0 < length buf.old }
        ensures { Pulls (seen self.old) (seen self.new) result buf.new };
}
