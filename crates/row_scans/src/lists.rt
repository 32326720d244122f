//! Lists of cells, one for each strip of rows.

ghost use Rattle.std.specs.Prelude.{◌≡◌, ◌<◌, ◌≤◌, ◌⊎◌, [], length, IsTrue, IfOk, MatchBool, MatchOption};
ghost use Rattle.row_scans.specs.Waiting.{AreAllEmpty, AreEmptyLists, AreEmptyWithin, AreOneMore, HasCellAt};

use std::alloc::{AllocError, Global};
use std::collections::VecDeque;
use std::marker::Model;

/// A list of cells for each strip of rows, first in, first out, with room for so many that it never grows.
///
/// The lists are served down and up again: each until it is empty, and then the next one in the same direction that has
/// a cell. So cells that are near one another are served one after another. Into which list a cell is put is a matter
/// of speed alone.
#[derive(Drop)]
pub struct Lists {
    strips: Vec<VecDeque<u32>>,
    // The list that is served, and whether those below it come next.
    at: usize,
    downwards: bool,
}

impl Model for Lists {
    ghost use Rattle.std.specs.Prelude.{List, ℕ};
    ghost use Rattle.row_scans.specs.Waiting.{AreServed, cells_of};

    ghost Value = { List ℕ };

    ghost view = { λ w. cells_of w.strips.items };

    ghost invariant = { λ w. AreServed w.strips.items w.at };
}

impl Lists {
    /// So many lists without a cell, each with room for so many.
    ///
    /// Errors: out of memory.
    pub fn new(alloc: Global, strips: usize, room: usize) -> Result<Lists, AllocError>
        requires strips { 0 < strips }
        requires room { 0 < room }
        ensures { IfOk result (λ w. w ≡ []) }
    {
        Ok(Lists {
            strips: empty_lists(alloc, strips, room)?,
            at: 0,
            downwards: true,
        })
    }

    /// Puts a cell into the list of a strip, and says whether there was room for it. A strip that has no list shares
    /// that of the last one.
    #[inline(always)]
    pub fn push(&mut self, strip: usize, cell: u32) -> bool
        ensures added { MatchBool result (AreOneMore cell self.old self.new) (self.new ≡ self.old) }
        ensures full { IsTrue result ⊎ (0 < length self.old) }
    {
        let last = self.strips.len() - 1;
        let list = &mut self.strips[strip.min(last)];
        if list.len() >= list.capacity() {
            return false;
        }
        list.push_back_reserved(cell);
        true
    }

    /// Takes a cell out.
    #[inline(always)]
    pub fn pop(&mut self) -> Option<u32>
        ensures { MatchOption result (self.old ≡ []) (λ cell. AreOneMore cell self.new self.old) }
    {
        if self.strips[self.at].is_empty() {
            return self.pop_next();
        }
        let cell = self.strips[self.at].pop_front()?;
        Some(cell)
    }

    // Takes a cell out of the next list that has one.
    #[inline(never)]
    fn pop_next(&mut self) -> Option<u32>
        ensures { MatchOption result (self.old ≡ []) (λ cell. AreOneMore cell self.new self.old) }
    {
        let (at, downwards) = next_list(&self.strips, self.at, self.downwards)?;
        self.at = at;
        self.downwards = downwards;
        let cell = self.strips[at].pop_front()?;
        Some(cell)
    }

    /// Whether the list that is served has a cell.
    #[inline(always)]
    pub fn has_near(&self) -> bool {
        !self.strips[self.at].is_empty()
    }

    /// Takes all cells out.
    pub fn clear(&mut self)
        ensures { self.new ≡ [] }
    {
        for list in self.strips.iter_mut() {
            list.clear();
        }
        self.at = 0;
        self.downwards = true;
    }
}

// So many lists with no cell, each with room for so many.
fn empty_lists(alloc: Global, count: usize, room: usize) -> Result<Vec<VecDeque<u32>>, AllocError>
    requires { 0 < room }
    ensures { IfOk result (λ lists. AreEmptyLists lists.items count) }
{
    let mut lists = Vec::with_capacity(alloc, count)?;
    for _ in 0..count {
        lists.push_reserved(VecDeque::with_capacity(alloc, room)?);
    }
    Ok(lists)
}

// The nearest list with a cell in this direction from the list `at`, and where there is none, in the other; and the
// direction in which it was found.
fn next_list(lists: &[VecDeque<u32>], at: usize, downwards: bool) -> Option<(usize, bool)>
    requires { at < length lists.now }
    ensures { MatchOption result (AreAllEmpty lists.now) (λ next. HasCellAt lists.now next.0) }
{
    if downwards {
        if let Some(next) = first_from(lists, at) {
            return Some((next, true));
        }
        let next = last_before(lists, at)?;
        return Some((next, false));
    }
    if let Some(next) = last_before(lists, at) {
        return Some((next, false));
    }
    let next = first_from(lists, at)?;
    Some((next, true))
}

// The first list that has a cell, of those from `start` on.
fn first_from(lists: &[VecDeque<u32>], start: usize) -> Option<usize>
    ensures { MatchOption result (AreEmptyWithin lists.now start (length lists.now)) (HasCellAt lists.now) }
{
    for at in start..lists.len() {
        if !lists[at].is_empty() {
            return Some(at);
        }
    }
    None
}

// The last list that has a cell, of those before `end`.
fn last_before(lists: &[VecDeque<u32>], end: usize) -> Option<usize>
    requires { end ≤ length lists.now }
    ensures { MatchOption result (AreEmptyWithin lists.now 0 end) (HasCellAt lists.now) }
{
    for at in (0..end).rev() {
        if !lists[at].is_empty() {
            return Some(at);
        }
    }
    None
}
