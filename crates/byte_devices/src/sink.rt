//! What takes bytes.
ghost use Rattle.byte_devices.specs.Device.{SinkSeen, Puts};

use crate::fault::Fault;

/// A device that takes bytes, as many of them at once as it likes. It counts the puts that failed. The
/// count stops at `u64::MAX`.
pub trait Sink {
    // The bytes taken so far, where they are known, and the count.
    ghost seen: { Self → SinkSeen };

    /// Takes bytes from the front of `bytes`, and answers how many they are: at least one, unless
    /// `bytes` is empty. A put that fails takes no byte.
    fn put(&mut self, bytes: &[u8]) -> Result<usize, Fault>
        ensures { Puts (seen self.old) (seen self.new) result bytes.now };
}
