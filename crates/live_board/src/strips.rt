//! Strips of rows that wait for a hand.

ghost use Rattle.std.specs.Prelude.{◌<◌, IfOk, IfSome, ◌≡◌, ◌≤◌};
ghost use Rattle.live_board.specs.Bands.{ArePartOf};
ghost use Rattle.live_board.specs.Floods.{IsStripsOf};

use crate::board::Board;
use grid_core::Memory;
use std::alloc::Global;
use std::sync::atomic::{AtomicBool, Ordering};

/// Rows from the first to before the end.
#[derive(Clone, Copy)]
pub(crate) struct Rows {
    pub(crate) first: u32,
    pub(crate) end: u32,
}

/// What a hand does next with a strip of its band.
#[derive(Clone, Copy)]
pub(crate) enum Work {
    /// It looks what others have raised.
    Look,
    /// It grows the rows again.
    Grow,
    /// It raises the pixels to what the rows have grown to.
    Give,
}

// What is still to be done with a strip, and whether a hand has it in its band.
#[derive(Drop)]
struct Strip {
    waits: AtomicBool,
    grows: AtomicBool,
    gives: AtomicBool,
    is_held: AtomicBool,
}

impl Strip {
    // One that waits.
    fn new() -> Strip {
        Strip {
            waits: AtomicBool::new(true),
            grows: AtomicBool::new(false),
            gives: AtomicBool::new(false),
            is_held: AtomicBool::new(false),
        }
    }

    // The mark of this work.
    fn mark(&self, work: Work) -> &AtomicBool {
        match work {
            Work::Look => &self.waits,
            Work::Grow => &self.grows,
            Work::Give => &self.gives,
        }
    }

    // Takes the mark of this work away, and says whether there was one.
    fn unmark(&self, work: Work) -> bool {
        let mark = self.mark(work);
        mark.load(Ordering::SeqCst) && mark.swap(false, Ordering::SeqCst)
    }

    // Takes the strip where it waits and no hand has it, and says whether it did.
    fn hold(&self) -> bool {
        if !self.waits.load(Ordering::SeqCst) || self.is_held.load(Ordering::SeqCst) {
            return false;
        }
        if self.is_held.swap(true, Ordering::SeqCst) {
            return false;
        }
        let waited = self.unmark(Work::Look);
        if !waited {
            self.release();
        }
        waited
    }

    // Lets others take the strip.
    fn release(&self) {
        self.is_held.store(false, Ordering::SeqCst);
    }
}

/// The rows of a board in strips, each with a mark where it waits to be flooded. All of them wait at first.
///
/// Hands take them and mark others, from any thread. Where each hand that marks a strip looks for one afterwards, none
/// waits once the last of them is gone. In which order they are flooded is a matter of speed alone.
#[derive(Drop)]
pub struct Strips {
    strips: Vec<Strip>,
    // How many rows a strip has; the last one may have fewer.
    each: u32,
    height: u32,
}

impl Board {
    /// The strips of this board, each of so many rows. Of none is taken as one.
    ///
    /// Errors: out of memory.
    pub fn strips(&self, alloc: Global, each: u32) -> Result<Strips, Memory>
        ensures { IfOk result (IsStripsOf self.now) }
    {
        let (height, each) = (self.height(), each.max(1));
        let mut strips = Vec::new(alloc);
        for _ in 0..height.div_ceil(each) {
            if strips.push(Strip::new()).is_err() {
                drop(strips);
                return Err(Memory);
            }
        }
        Ok(Strips {
            strips,
            each,
            height,
        })
    }
}

impl Strips {
    /// How many there are.
    pub fn count(&self) -> usize {
        self.strips.len()
    }

    /// Marks each strip that has one of the rows from `first` to before `end`.
    pub fn mark(&self, first: u32, end: u32) {
        self.ask(Rows { first, end }, Work::Look);
    }

    /// Marks each strip that has one of these rows for this work.
    pub(crate) fn ask(&self, rows: Rows, work: Work) {
        let each = self.each.max(1);
        if rows.first < rows.end {
            for strip in rows.first / each..(rows.end - 1) / each + 1 {
                if let Some(strip) = self.strips.get(strip as usize) {
                    strip.mark(work).store(true, Ordering::SeqCst);
                }
            }
        }
    }

    /// Takes all marks of strips that wait away.
    pub(crate) fn clear(&self) {
        for strip in 0..self.count() {
            self.unmark(strip);
        }
    }

    /// Takes strips as [`Strips::take`] does, but none that another hand has, and until it lets them go no hand takes
    /// them so.
    pub(crate) fn hold(&self, near: usize, most: usize) -> Option<Rows>
        ensures { IfSome result (λ rows. (rows.first < rows.end) × (rows.end ≤ self.now.height)) }
    {
        let first = match self.seek_free(near, self.count()) {
            Some(strip) => strip,
            None => self.seek_free(0, near)?,
        };
        let mut end = first + 1;
        for strip in first + 1..first.saturating_add(most) {
            if !self.holds(strip) {
                break;
            }
            end = strip + 1;
        }
        let (first, end) = self.rows(first, end)?;
        Some(Rows { first, end })
    }

    /// Lets the strips of these rows go.
    pub(crate) fn release(&self, rows: Rows) {
        let each = self.each.max(1);
        if rows.first < rows.end {
            for strip in rows.first / each..(rows.end - 1) / each + 1 {
                if let Some(strip) = self.strips.get(strip as usize) {
                    strip.release();
                }
            }
        }
    }

    /// What is next to be done in a band, and with which of its rows.
    pub(crate) fn next(&self, band: Rows) -> Option<(Work, Rows)>
        requires { (band.first < band.end) × (band.end ≤ self.now.height) }
        ensures { IfSome result (λ task. ArePartOf band task.1) }
    {
        if let Some(rows) = self.marked(band, Work::Look) {
            return Some((Work::Look, rows));
        }
        if let Some(rows) = self.marked(band, Work::Grow) {
            return Some((Work::Grow, rows));
        }
        let rows = self.marked(band, Work::Give)?;
        Some((Work::Give, rows))
    }

    // The rows of the first strip of a band that is marked for this work, whose mark it takes away.
    fn marked(&self, band: Rows, work: Work) -> Option<Rows>
        requires { (band.first < band.end) × (band.end ≤ self.now.height) }
        ensures { IfSome result (ArePartOf band) }
    {
        let each = self.each.max(1);
        for strip in band.first / each..(band.end - 1) / each + 1 {
            if self.is_marked(strip as usize, work) {
                return self.rows_in(band, strip as usize);
            }
        }
        None
    }

    // Takes a strip's mark for this work away, and says whether there was one.
    fn is_marked(&self, strip: usize, work: Work) -> bool {
        match self.strips.get(strip) {
            Some(strip) => strip.unmark(work),
            None => false,
        }
    }

    // The rows of a strip that lie in a band.
    fn rows_in(&self, band: Rows, strip: usize) -> Option<Rows>
        requires { band.end ≤ self.now.height }
        ensures { IfSome result (ArePartOf band) }
    {
        let (first, end) = self.rows(strip, strip.saturating_add(1))?;
        let (first, end) = (first.max(band.first), end.min(band.end));
        if first < end {
            Some(Rows { first, end })
        } else {
            None
        }
    }

    // Takes the first strip that waits and is free, from `first` to before `end`.
    fn seek_free(&self, first: usize, end: usize) -> Option<usize>
        ensures { IfSome result (λ strip. strip < end) }
    {
        for strip in first..end {
            if self.holds(strip) {
                return Some(strip);
            }
        }
        None
    }

    // Takes a strip where it waits and is free, and says whether it did.
    fn holds(&self, strip: usize) -> bool {
        match self.strips.get(strip) {
            Some(strip) => strip.hold(),
            None => false,
        }
    }

    /// Takes the first strip that is marked, from the strip `near` on and then from the start, and those behind it as
    /// long as they are marked, at most so many. It gives their rows, from the first to before the end.
    pub fn take(&self, near: usize, most: usize) -> Option<(u32, u32)>
        ensures { IfSome result (λ rows. (rows.0 < rows.1) × (rows.1 ≤ self.now.height)) }
    {
        let first = match self.seek(near, self.count()) {
            Some(strip) => strip,
            None => self.seek(0, near)?,
        };
        let mut end = first + 1;
        for strip in first + 1..first.saturating_add(most) {
            if !self.unmark(strip) {
                break;
            }
            end = strip + 1;
        }
        self.rows(first, end)
    }

    // Takes the first marked strip from `first` to before `end`.
    fn seek(&self, first: usize, end: usize) -> Option<usize>
        ensures { IfSome result (λ strip. strip < end) }
    {
        for strip in first..end {
            if self.unmark(strip) {
                return Some(strip);
            }
        }
        None
    }

    // Takes a strip's mark away, and says whether there was one.
    fn unmark(&self, strip: usize) -> bool {
        self.is_marked(strip, Work::Look)
    }

    // The rows of the strips from `first` to before `end`.
    fn rows(&self, first: usize, end: usize) -> Option<(u32, u32)>
        ensures { IfSome result (λ rows. (rows.0 < rows.1) × (rows.1 ≤ self.now.height)) }
    {
        let (each, height) = (self.each as usize, self.height as usize);
        let start = first.saturating_mul(each).min(height);
        let stop = end.saturating_mul(each).min(height);
        if start < stop {
            Some((start as u32, stop as u32))
        } else {
            None
        }
    }
}
