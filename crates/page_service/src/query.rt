//! Queries.

ghost use Rattle.std.specs.Prelude.{ℕ, Some, IfSome, IfNone};
ghost use Rattle.page_service.specs.Table.{IsDecimal, Spells};
ghost use Rattle.page_service.specs.declared.table.Moment.{Moment as Since};

use crate::table::Moment;
use form_urlencoded::raw_pairs;
use std::str;

/// The number below 2^64 that the decimal digits write, or `None` where they are something else.
#[tactic(auto, using(crate::proofs::Numbers::first_is_digit, crate::proofs::Numbers::numeral_is_text))]
fn read_number(digits: &[u8]) -> Option<u64>
    ensures some { IfSome result (λ n. IsDecimal digits.now n) }
    ensures none { IfNone result ((n : ℕ) → IsDecimal digits.now n → ⊥) }
{
    // A sign is no digit.
    if digits.is_empty() || digits[0] == b'+' {
        return None;
    }
    let text = str::from_utf8(digits).ok()?;
    text.parse::<u64>().ok()
}

/// The moment that the query spells, a form with the fields `run` and `since` in this order and no other.
pub(crate) fn read_moment(query: &str) -> Option<Moment>
    ensures some { IfSome result (λ moment. Spells query.now moment) }
    ensures none { IfNone result ((moment : Since) → Spells query.now moment → ⊥) }
{
    let mut fields = raw_pairs(query.as_bytes());
    let (first, run) = fields.next()?;
    let (second, since) = fields.next()?;
    if fields.next().is_some() {
        return None;
    }
    if first != b"run".as_slice() || second != b"since".as_slice() {
        return None;
    }
    Some(Moment {
        run: read_number(run)?,
        step: read_number(since)?,
    })
}
