//! Frames as they are read.

ghost use Rattle.std.specs.Prelude.{◌≡◌, ◌↔◌, IsTrue};

use crate::print::Print;
use grid_core::Conn;
use stroke_lattice::Delta;

/// Strokes and tombstones, and the image that they are meant for.
#[derive(Drop)]
pub struct Frame {
    /// Which pixels of the image are neighbours.
    pub conn: Conn,
    /// The fingerprint of the image.
    pub print: Print,
    /// The strokes and tombstones.
    pub delta: Delta,
}

impl Frame {
    /// Whether the frame is meant for the image of this fingerprint, with these neighbours.
    pub fn is_for(&self, conn: Conn, print: &Print) -> bool
        ensures { IsTrue result ↔ ((self.now.conn ≡ conn) × (self.now.print ≡ print.now)) }
    {
        self.conn == conn && self.print.is_same(print)
    }
}
