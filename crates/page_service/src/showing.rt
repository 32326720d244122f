//! Whether the first bytes of a connection show the key.

ghost use Rattle.std.specs.Prelude.{◌≡◌, ◌↔◌, ◌==◌, position, IsTrue};
ghost use Rattle.page_service.specs.Showing.{ShowsKey};

use crate::key::Key;

/// Whether the first bytes of a connection show the key in the path of a request.
pub fn shows_key(key: &Key, bytes: &[u8]) -> bool
    ensures { IsTrue result ↔ ShowsKey key.now bytes.now }
{
    match first_space(bytes) {
        Some(at) => key.rest_of(&bytes[at + 1..]).is_some(),
        None => false,
    }
}

// Where the first space is, if there is one.
fn first_space(bytes: &[u8]) -> Option<usize>
    ensures { result ≡ position (λ b. b == 32) bytes.now }
{
    bytes.iter().position(|byte| *byte == b' ')
}
