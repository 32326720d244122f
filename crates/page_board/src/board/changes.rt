//! What changed.

ghost use Rattle.std.specs.Prelude.{◌≡◌, IfOk};
ghost use Rattle.core_rules.specs.Counting.{dirty_tiles};
ghost use Rattle.page_board.specs.Board.{IsWhole, since_of};
ghost use Rattle.page_board.specs.Changes.{AreChanges, IsQuietDigit, numbers_line};

use super::PageBoard;
use crate::lines::{push_rects, push_tags};
use crate::raw::{pixel_count, push_pixels};
use crate::strips::strips_since;
use crate::turning::tags_since;
use grid_core::Memory;
use grid_core::laws::each_pixel_in_one_tile;
use pgm_codec::{below_keeps_maxval, sample_len};
use std::alloc::Global;

impl PageBoard {
    /// What a page is told that was told this step of this run: a line `RUN VERSION STEP QUIET TILES-LEFT`, a line
    /// `x y w h` for each rectangle of tiles that changed since, a line for each tag whose stroke came or went, rising
    /// by tag (`withdraw`, or as it is placed), an empty line, and the samples of the image in the rectangles, as raw
    /// files have them. QUIET is 1 where no work is left and else 0, TILES-LEFT how many tiles are dirty. For a page of
    /// another run all tiles and all live strokes are news.
    ///
    /// It takes a time of about the number of tiles and of news, and of the samples that are told.
    ///
    /// Errors: out of memory.
    pub fn changes(&self, alloc: Global, run: u64, since: u64) -> Result<Vec<u8>, Memory>
        ensures changes { IfOk result (λ v. AreChanges self.now run since v.items) }
        ensures whole { IsWhole self.now }
    {
        below_keeps_maxval();
        each_pixel_in_one_tile();
        let since = self.since_of(run, since);
        let rects = strips_since(alloc, &self.core.tiling(), &self.shown, since)?;
        let tags = tags_since(alloc, &self.news, since)?;
        let mut out = self.numbers(alloc)?;
        push_rects(&mut out, &rects)?;
        push_tags(&mut out, self.core.state(), &tags)?;
        out.push(b'\n')?;
        out.reserve_exact(pixel_count(&rects).saturating_mul(sample_len(self.maxval)))?;
        push_pixels(&mut out, self.core.image(), self.maxval, &rects)?;
        Ok(out)
    }

    // From which step on such a page has to be told what changed.
    fn since_of(&self, run: u64, since: u64) -> u64
        ensures { result ≡ since_of self.now run since }
    {
        if run == self.run && self.step < u64::MAX {
            since
        } else {
            0
        }
    }

    // The line of numbers.
    fn numbers(&self, alloc: Global) -> Result<Vec<u8>, Memory>
        ensures { IfOk result (λ v. (digit : _) × IsQuietDigit self.now.core digit
            × (v.items ≡ numbers_line self.now digit)) }
    {
        let (run, version, step) = (self.run, self.version, self.step);
        let quiet = self.quiet_digit();
        let left = self.dirty_count();
        let line = format!(in alloc; "{run} {version} {step} {quiet} {left}\n")?;
        Ok(line.into_bytes())
    }

    // 1 where no work is left, else 0.
    fn quiet_digit(&self) -> u8
        ensures { IsQuietDigit self.now.core result }
    {
        if self.core.is_quiet() { 1 } else { 0 }
    }

    // How many tiles are dirty.
    fn dirty_count(&self) -> usize
        ensures { result ≡ dirty_tiles self.now.core }
    {
        let mut count = 0;
        for tile in 0..self.core.tiles() {
            if self.core.is_dirty(tile) {
                count += 1;
            }
        }
        count
    }
}
