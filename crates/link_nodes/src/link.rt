//! What carries datagrams.

ghost use Rattle.link_nodes.specs.Links.{LinkSeen, Polls, Sends};

use byte_devices::Fault;

/// How many bytes a poll has room for: one more than a frame may have, so that a longer datagram is seen to be too
/// long ([`too_long_is_refused`](crate::too_long_is_refused)).
pub const BUFFER_BYTES: usize = 1401;

/// What sends datagrams and gives those that came. Any datagram may be lost, doubled or late. A link counts its polls
/// and its sends, and those that failed. A count stops at `u64::MAX`.
pub trait Link {
    // The datagrams that polls gave and those that were sent, where they are known, and the counts.
    ghost seen: { Self → LinkSeen };

    /// Sends a datagram.
    ///
    /// Errors: a fault, where the link failed.
    fn send(&mut self, datagram: &[u8]) -> Result<(), Fault>
        ensures { Sends (seen self.old) (seen self.new) result datagram.now };

    /// Puts the next datagram at the front of the buffer, and answers how many bytes it has; `None` where none is
    /// there. Of a datagram that is longer than the buffer it gives as many bytes as have room. What stands behind
    /// them is left open. It waits for nobody.
    ///
    /// Errors: a fault, where the link failed.
    fn poll(&mut self, buffer: &mut [u8; BUFFER_BYTES]) -> Result<Option<usize>, Fault>
        ensures { Polls (seen self.old) (seen self.new) result buffer.new };
}
