//! The rule of what is published, and what each step tells.

ghost use Rattle.studio.specs.Publishing.{IsShown, Looks, Shows, newcomer};

use crate::shots::prefix::Prefix;
use crate::shots::shot::Shot;
use crate::shots::shown::Shown;
use atomic_table::{Join, Split};
use crossbeam_utils::rule::{Outcome, Protocol};
use std::collections::LinkedList;

/// What a thread knows. No value of it is made.
pub struct ChainView {
    /// Beginnings of the history, which say which history it is.
    pub(crate) prefixes: LinkedList<Prefix>,
    /// A chain that it has seen.
    pub(crate) seen: LinkedList<Shot>,
}

/// The last of a chain is published, which only grows.
pub struct Shots;

impl Protocol<Shown, ChainView> for Shots {
    ghost holds = { IsShown };

    ghost first = { newcomer };
}

/// The writer published a shot.
pub struct Show;

impl Outcome<Shown, ChainView> for Show {
    ghost then = { Shows };
}

/// A reader looked.
pub struct Look;

impl Outcome<Shown, ChainView> for Look {
    ghost then = { Looks };
}

/// A new reader knows what the writer knows.
pub struct Birth;

impl Split<ChainView> for Birth {
    ghost left = { λ v. v };

    ghost right = { λ v. v };
}

impl Join<ChainView> for Birth {
    ghost both = { λ v w. w };

    ghost spent = { newcomer };
}
