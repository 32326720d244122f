//! The key of an address.

ghost use Rattle.std.specs.Prelude.{◌≡◌, ◌++◌, ℕ, List, IfOk, IfSome, IfNone};
ghost use Rattle.std.specs.Int.{w128, to_be_bytes};
ghost use Rattle.hex.specs.Hex.{encode_lower};
ghost use Rattle.page_service.specs.Table.{IsBehindKey};

use std::alloc::{AllocError, Global};
use std::marker::Model;

/// 128 bits that the address has, and nobody knows who was not told. It is seen as its digits.
#[derive(Debug, Drop)]
pub struct Key {
    digits: String,
}

impl Model for Key {
    ghost use Rattle.std.specs.Prelude.{ℕ, List, string_bytes};

    ghost Value = { List ℕ };

    ghost view = { λ k. string_bytes k.digits };
}

impl Key {
    /// The key of these bits, as 32 hexadecimal digits in lower case, the highest bits first.
    ///
    /// Errors: out of memory.
    pub fn new(alloc: Global, bits: u128) -> Result<Key, AllocError>
        ensures { IfOk result (λ key. key ≡ encode_lower (to_be_bytes w128 bits)) }
    {
        let digits = hex::encode(alloc, bits.to_be_bytes())?;
        Ok(Key { digits })
    }

    /// The same key once more.
    ///
    /// Errors: out of memory.
    pub fn copy(&self, alloc: Global) -> Result<Key, AllocError>
        ensures { IfOk result (λ key. key ≡ self.now) }
    {
        let digits = String::from_str(alloc, self.digits.as_str())?;
        Ok(Key { digits })
    }

    /// The digits.
    pub fn as_str(&self) -> &str
        ensures { result.now ≡ self.now }
    {
        self.digits.as_str()
    }

    /// What stands in a path behind `/`, the key and `/`, or `None` where it does not begin so.
    pub fn rest_of<'a>(&self, path: &'a [u8]) -> Option<&'a [u8]>
        ensures some { IfSome result (λ rest. IsBehindKey self.now path.now rest.now) }
        ensures none { IfNone result ((rest : List ℕ) → IsBehindKey self.now path.now rest → ⊥) }
    {
        let keyed = behind(path, b"/")?;
        let slashed = behind(keyed, self.digits.as_bytes())?;
        behind(slashed, b"/")
    }
}

/// What stands behind a front, or `None` where the text does not begin with it.
fn behind<'a>(text: &'a [u8], front: &[u8]) -> Option<&'a [u8]>
    ensures some { IfSome result (λ rest. text.now ≡ front.now ++ rest.now) }
    ensures none { IfNone result ((rest : List ℕ) → text.now ≡ front.now ++ rest → ⊥) }
{
    text.strip_prefix(front)
}
