//! What a merge tells: births and deaths.

ghost use Rattle.std.specs.Prelude.{◌≡◌};

use std::marker::Model;
use stroke_core::Tag;

/// What a merge changed: the tags that are live after it and were not before, and those that were live
/// before it and are not after. Both rise.
#[derive(Debug, Drop)]
pub struct Change {
    born: Vec<Tag>,
    dead: Vec<Tag>,
}

impl Model for Change {
    ghost use Rattle.stroke_lattice.specs.Change.{Turnover};

    ghost Value = { Turnover };

    ghost view = { λ c. record { born = c.born.items; dead = c.dead.items } };
}

impl Change {
    pub(crate) fn new(born: Vec<Tag>, dead: Vec<Tag>) -> Change
        ensures { result ≡ record { born = born.items; dead = dead.items } }
    {
        Change { born, dead }
    }

    /// The tags that became live, rising.
    pub fn born(&self) -> &[Tag]
        ensures { result.now ≡ self.now.born }
    {
        &self.born
    }

    /// The tags that ceased to be live, rising.
    pub fn dead(&self) -> &[Tag]
        ensures { result.now ≡ self.now.dead }
    {
        &self.dead
    }
}
