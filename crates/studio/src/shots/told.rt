//! What a show hands out.

ghost use Rattle.std.specs.Prelude.{◌≡◌};

use crate::shots::prefix::Prefix;

/// The receipt of a show, for any eye of its studio to learn. It says that the chain up to that show is published. It
/// may go to other threads, and has no bytes but a number.
#[derive(Drop)]
pub struct Told {
    pub(crate) prefix: Prefix,
}

impl Told {
    /// The same, for one more eye. It takes no memory.
    pub fn again(&self) -> Told
        ensures { result ≡ self.now }
    {
        Told {
            prefix: self.prefix.again(),
        }
    }
}
