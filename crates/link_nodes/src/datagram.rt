//! Datagrams that are kept.

ghost use Rattle.std.specs.Prelude.{◌≡◌, IfOk};

use std::alloc::{AllocError, Global};
use std::marker::Model;

/// The bytes of a datagram. It is seen as their list.
#[derive(Drop)]
pub struct Datagram {
    bytes: Vec<u8>,
}

impl Model for Datagram {
    ghost use Rattle.std.specs.Prelude.{ℕ, List};

    ghost Value = { List ℕ };

    ghost view = { λ d. d.bytes.items };
}

impl Datagram {
    /// A datagram of these bytes.
    pub(crate) fn of(alloc: Global, bytes: &[u8]) -> Result<Datagram, AllocError>
        ensures { IfOk result (λ d. d ≡ bytes.now) }
    {
        let bytes = bytes.to_vec(alloc)?;
        Ok(Datagram { bytes })
    }

    /// The bytes.
    pub fn bytes(&self) -> &[u8]
        ensures { result.now ≡ self.now }
    {
        &self.bytes
    }
}
