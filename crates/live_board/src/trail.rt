//! What a hand has raised and has still to spread.

ghost use Rattle.std.specs.Prelude.{◌<◌, ◌⊎◌, Contains, IfSome, MatchOption, [], ◌≡◌, ◌≤◌};
ghost use Rattle.live_board.specs.Following.{IsLeft, IsNamed, KeepsLeft};
ghost use Rattle.live_board.specs.Words.{max_board};

use crate::fact::Fact;
use grid_core::Memory;
use std::alloc::Global;

/// How many facts wait at most.
const ROOM: usize = 4096;

/// Facts that wait to be spread, the last of them first, and the rows of those for which there was no room: from
/// `first` to before `end`, none where these are the same.
#[derive(Drop)]
pub(crate) struct Trail {
    pub(crate) waiting: Vec<Fact>,
    pub(crate) first: u32,
    pub(crate) end: u32,
}

impl Trail {
    /// An empty one.
    ///
    /// Errors: out of memory.
    pub(crate) fn new(alloc: Global) -> Result<Trail, Memory> {
        match Vec::with_capacity(alloc, ROOM) {
            Ok(waiting) => Ok(Trail {
                waiting,
                first: 0,
                end: 0,
            }),
            Err(_) => Err(Memory),
        }
    }

    /// Lets a fact wait, or names its row where there is no room for it.
    pub(crate) fn note(&mut self, fact: Fact)
        requires { fact.pixel.y < max_board }
        ensures kept { KeepsLeft self.old self.new }
        ensures left { IsLeft self.new fact }
        ensures only { (f : _) → Contains self.new.waiting.items f
            → Contains self.old.waiting.items f ⊎ (fact ≡ f) }
        ensures within { (h : _) → fact.pixel.y < h → self.old.end ≤ h → self.new.end ≤ h }
    {
        if self.waiting.len() >= ROOM || self.waiting.push(fact).is_err() {
            self.name(fact.pixel.y);
        }
    }

    /// Names a row.
    pub(crate) fn name(&mut self, y: u32)
        requires { y < max_board }
        ensures waiting { self.new.waiting ≡ self.old.waiting }
        ensures named { IsNamed self.new y }
        ensures kept { (z : _) → IsNamed self.old z → IsNamed self.new z }
        ensures within { (h : _) → y < h → self.old.end ≤ h → self.new.end ≤ h }
    {
        if self.first < self.end {
            self.first = self.first.min(y);
            self.end = self.end.max(y + 1);
        } else {
            self.first = y;
            self.end = y + 1;
        }
    }

    /// Lets nothing wait, and names no row.
    pub(crate) fn clear(&mut self)
        ensures waiting { self.new.waiting.items ≡ [] }
        ensures end { self.new.end ≡ 0 }
    {
        self.waiting.clear();
        self.first = 0;
        self.end = 0;
    }

    /// Takes out the fact that waits last.
    pub(crate) fn next(&mut self) -> Option<Fact>
        ensures left { (f : _) → IsLeft self.old f → IsLeft self.new f ⊎ MatchOption result ⊥ (λ g. g ≡ f) }
        ensures taken { IfSome result (Contains self.old.waiting.items) }
        ensures only { (f : _) → Contains self.new.waiting.items f → Contains self.old.waiting.items f }
        ensures end { self.new.end ≡ self.old.end }
    {
        self.waiting.pop()
    }

    /// Names the row of each fact that waits, so that none does.
    pub(crate) fn name_all(&mut self, height: u32)
        requires on { (f : _) → Contains self.old.waiting.items f → f.pixel.y < height }
        requires end { self.old.end ≤ height }
        requires height { height ≤ max_board }
        ensures named { (f : _) → IsLeft self.old f → IsNamed self.new f.pixel.y }
        ensures end { self.new.end ≤ height }
    {
        // For its clause alone: no row lies behind the last one.
        let _ = height;
        for place in 0..self.waiting.len() {
            let row = self.waiting[place].pixel.y;
            self.name(row);
        }
    }
}
