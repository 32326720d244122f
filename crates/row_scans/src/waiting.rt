//! The queue of the cells whose neighbours are still to be raised.

ghost use Rattle.std.specs.Prelude.{◌≡◌, ◌<◌, ◌⊎◌, [], length, IsTrue, IfOk, MatchBool, MatchOption};
ghost use Rattle.row_scans.specs.Waiting.{AreOneMore};

use crate::lists::Lists;
use std::alloc::{AllocError, Global};
use std::marker::Model;

// How many rows make a strip.
const STRIP_ROWS: u32 = 32;

/// The strip of the rectangle's row `row`, counted from its first row.
#[inline(always)]
pub fn strip_of(row: u32) -> usize {
    (row / STRIP_ROWS) as usize
}

/// A queue of cells: a list for each strip of rows, first in, first out, and before them the one cell that was put in
/// first since a cell was taken out.
///
/// So what a cell has raised is served next, while its neighbours are still at hand: a way that does not branch is
/// walked to its end. In which order cells are taken out is a matter of speed alone.
#[derive(Drop)]
pub struct Waiting {
    next: Option<u32>,
    lists: Lists,
}

impl Model for Waiting {
    ghost use Rattle.std.specs.Prelude.{List, ℕ};
    ghost use Rattle.row_scans.specs.Waiting.{next_and};

    ghost Value = { List ℕ };

    ghost view = { λ w. next_and w.next w.lists };
}

impl Waiting {
    /// An empty queue of so many lists, each with room for so many cells.
    ///
    /// Errors: out of memory.
    pub fn new(alloc: Global, strips: usize, room: usize) -> Result<Waiting, AllocError>
        requires strips { 0 < strips }
        requires room { 0 < room }
        ensures { IfOk result (λ w. w ≡ []) }
    {
        let lists = Lists::new(alloc, strips, room)?;
        Ok(Waiting { next: None, lists })
    }

    /// An empty queue for so many rows of this width: a list for each strip of them, with room for each 8th cell.
    ///
    /// Errors: out of memory.
    pub fn for_rows(alloc: Global, width: u32, rows: u32) -> Result<Waiting, AllocError>
        requires { 0 < rows }
        ensures { IfOk result (λ w. w ≡ []) }
    {
        let strips = rows.div_ceil(STRIP_ROWS) as usize;
        let room = (width as usize * STRIP_ROWS as usize / 8).max(1024);
        Waiting::new(alloc, strips, room)
    }

    /// Puts a cell into the list of a strip, or before all of them, and says whether there was room for it. A strip
    /// that has no list shares that of the last one.
    #[inline(always)]
    pub fn push(&mut self, strip: usize, cell: u32) -> bool
        ensures added { MatchBool result (AreOneMore cell self.old self.new) (self.new ≡ self.old) }
        ensures full { IsTrue result ⊎ (0 < length self.old) }
    {
        match self.next {
            None => {
                self.next = Some(cell);
                true
            }
            Some(_) => self.lists.push(strip, cell),
        }
    }

    /// Takes a cell out.
    #[inline(always)]
    pub fn pop(&mut self) -> Option<u32>
        ensures { MatchOption result (self.old ≡ []) (λ cell. AreOneMore cell self.new self.old) }
    {
        if let Some(cell) = self.next {
            self.next = None;
            return Some(cell);
        }
        self.lists.pop()
    }

    /// Whether the list that is served has a cell.
    #[inline(always)]
    pub fn has_near(&self) -> bool {
        self.lists.has_near()
    }

    /// Takes all cells out.
    pub fn clear(&mut self)
        ensures { self.new ≡ [] }
    {
        self.next = None;
        self.lists.clear();
    }
}
