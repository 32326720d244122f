//! The history of what was announced and confirmed, and its rule: one word is its length.

ghost use Rattle.studio.specs.History.{IsCounted, Adds};

use crate::shots::shot::Shot;
use logbook::{Gain, Plain, Play, Rule, Word};

/// A shot is announced before it is published, and confirmed once it is. One that is not confirmed next was never
/// published. No value of it is made.
#[derive(Drop)]
pub enum Entry {
    /// The shot is about to be published.
    Announced(Shot),
    /// The shot that was announced last is published.
    Confirmed,
}

/// The rule of the history.
pub struct History;

impl Rule<Entry, u64> for History {
    ghost use Rattle.std.specs.Prelude.{[]};
    ghost use base.Fml.{ftrue};

    ghost holds = { λ cells log. IsCounted cells log };

    ghost first = { [] };

    ghost hinted = { λ n log. Unit {0} };

    ghost shows = { λ log. [] };

    ghost keeps = { λ names log. ftrue };

    ghost moves = { λ ask before after answer. Unit {0} };
}

/// The word that is the length of the history. Who has it is the only one to add entries.
pub type Head = Word<Entry, u64, History>;

/// What a step trades with its caller: nothing.
pub struct Nothing;

impl Gain<Entry, u64> for Nothing {
    ghost use base.Fml.{ftrue};

    ghost after = { λ names about answer. ftrue };
}

/// A step that adds an entry.
pub struct Add;

impl Play<Entry, u64> for Add {
    ghost then = { Adds };
}

/// The entry that announces a shot.
pub struct Announce;

impl Plain<Shot, Entry, u64> for Announce {
    ghost use Rattle.std.specs.Prelude.{None};
    ghost use Rattle.studio.specs.declared.shots.history.Entry.TheVariants.{Announced};

    ghost ask = { λ shot. Announced shot };

    ghost state = { λ shot. None };
}

/// The entry that confirms the shot that was announced last.
pub struct Confirm;

impl Plain<(), Entry, u64> for Confirm {
    ghost use Rattle.std.specs.Prelude.{None};
    ghost use Rattle.studio.specs.declared.shots.history.Entry.TheVariants.{Confirmed};

    ghost ask = { λ _. Confirmed };

    ghost state = { λ _. None };
}
