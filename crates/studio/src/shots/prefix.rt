//! Beginnings of the history.

ghost use Rattle.std.specs.Prelude.{◌≡◌, ◌+◌, ◌<◌, ◌^◌, [], ◌∷◌, ◌++◌, ◌⊎◌, length, None, MatchBool};
ghost use mathlib.Core.List.{IsPrefix};
ghost use Rattle.studio.specs.Chains.{Begins};
ghost use Rattle.studio.specs.History.{confirmed, head_of, whole};

use crate::shots::history::{Add, Entry, Head, History, Nothing};
use logbook::{Offer, Plain, Seen, Start, Word};
use std::sync::Wait;

/// A beginning of the history: what had happened at some moment. It has no bytes but its length.
#[derive(Drop)]
pub struct Prefix {
    pub(crate) reached: Seen<Entry, u64, History>,
    pub(crate) count: u64,
    ghost counted: { count ≡ length reached.log },
}

impl Prefix {
    /// The same once more.
    pub fn again(&self) -> Prefix
        ensures { result ≡ self.now }
    {
        Prefix {
            reached: self.reached.again(),
            count: self.count,
        }
    }

    /// The longer of two beginnings of one history, which the other begins.
    pub fn longer(&self, other: &Prefix) -> Prefix
        requires { other.now.reached.book ≡ self.now.reached.book }
        ensures book { result.reached.book ≡ self.now.reached.book }
        ensures this { IsPrefix self.now.reached.log result.reached.log }
        ensures that { IsPrefix other.now.reached.log result.reached.log }
        ensures one { (result ≡ self.now) ⊎ (result ≡ other.now) }
    {
        let mut both = self.reached.again();
        both.learn(&other.reached);
        if self.count < other.count {
            other.again()
        } else {
            self.again()
        }
    }

    /// Whether this lacks more of what was learnt than the last entry.
    pub fn is_behind(&self, learnt: &Prefix) -> bool
        requires { self.now.reached.book ≡ learnt.now.reached.book }
        ensures { MatchBool result (length self.now.reached.log + 1 < length learnt.now.reached.log)
            (Begins (whole self.now.reached.log) (confirmed learnt.now.reached.log)) }
    {
        if learnt.count.saturating_sub(self.count) > 1 {
            return true;
        }
        let mut both = self.reached.again();
        both.learn(&learnt.reached);
        false
    }
}

/// A new history, with its only word.
pub fn open_history() -> (Head, Prefix)
    ensures { (result.0 ≡ head_of result.1.reached.book) × (result.1.reached.log ≡ []) }
{
    let (reached, mut first, _second) = Seen::open(Start::alone(), 0, 0);
    let head = Word::tracked(0, &mut first);
    (head, Prefix { reached, count: 0 })
}

/// Adds an entry to the whole history. It waits for ever where the prefix is not the whole, which whoever owns the only
/// word, and gives what was added last, never meets.
pub fn add<X, M: Plain<X, Entry, u64>, R: Wait>(
    rt: &R,
    head: &Head,
    prefix: &Prefix,
    about: &X,
) -> Prefix
    requires head { head.now ≡ head_of prefix.now.reached.book }
    requires room { prefix.now.count < 2 ^ 63 }
    requires fresh { M.state about.now ≡ None }
    ensures book { result.reached.book ≡ prefix.now.reached.book }
    ensures log { result.reached.log ≡ prefix.now.reached.log ++ M.ask about.now ∷ [] }
{
    let mut reached = prefix.reached.again();
    let mut offer: Offer<Entry, u64, History, Nothing> = reached.plain::<Nothing, X, M>(about);
    let mut pen = reached.no_pen();
    let count = prefix.count;
    let found = head.compare_exchange::<Add, Nothing>(
        count,
        count + 1,
        &mut reached,
        &mut offer,
        &mut pen,
    );
    if found == count {
        return Prefix {
            reached,
            count: count + 1,
        };
    }
    for _ in rt.forever() {}
    unreachable!()
}
