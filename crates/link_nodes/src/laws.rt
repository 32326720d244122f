//! What holds of all datagrams, said by a function that does nothing.

ghost use Rattle.std.specs.Prelude.{◌≡◌, ℕ, ◌+◌, ◌≤◌, List, length};
ghost use Rattle.spd_codec.specs.Spelling.{max_bytes};
ghost use Rattle.link_nodes.specs.declared.link.TheConstants.{BUFFER_BYTES};
ghost use Rattle.link_nodes.specs.MemoryLinks.{front_of};
ghost use Rattle.link_nodes.specs.Hearing.{TooLongIsRefused};

/// A poll has room for one byte more than a frame may have. So a datagram that may be a frame is given whole; and of
/// one with more bytes so much is given that a node refuses it as too long (D2, M6), whatever it begins with.
pub fn too_long_is_refused()
    ensures room { BUFFER_BYTES ≡ max_bytes + 1 }
    ensures whole { (datagram : List ℕ) → length datagram ≤ max_bytes → front_of datagram ≡ datagram }
    ensures too_long { TooLongIsRefused }
{}
