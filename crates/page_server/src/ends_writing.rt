//! Streams of which one side can end before the other.

ghost use Rattle.std.specs.Io.KnownBytes.{Keeps};

use std::io::Write;

/// A stream whose writing side can end, so that who reads at the other side finds the end while it may still send.
pub trait EndsWriting: Write {
    /// Ends the writing side, where that is possible. Sends nothing.
    fn end_writing(&mut self)
        ensures { Keeps (Self.contents self.old) (Self.contents self.new) };
}
