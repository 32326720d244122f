//! Packets.

ghost use Rattle.std.specs.Prelude.{◌≡◌};

use std::marker::Model;

// The bytes of a frame that was sent.
#[derive(Drop)]
pub struct Packet {
    bytes: Vec<u8>,
}

impl Model for Packet {
    ghost use Rattle.std.specs.Prelude.{List, ℕ};

    ghost Value = { List ℕ };

    ghost view = { λ p. p.bytes.items };
}

impl Packet {
    // The packet of these bytes.
    pub fn new(bytes: Vec<u8>) -> Packet
        ensures { result ≡ bytes.items }
    {
        Packet { bytes }
    }

    // Its bytes.
    pub fn bytes(&self) -> &[u8]
        ensures { result.now ≡ self.now }
    {
        &self.bytes
    }
}
