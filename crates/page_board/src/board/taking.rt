//! Edit texts and state files that are taken.

ghost use Rattle.std.specs.Prelude.{◌≡◌, ◌⊎◌, OnOk, OnErr, IfErr};
ghost use Rattle.core_rules.specs.declared.error.CoreError.TheVariants as core;
ghost use Rattle.core_rules.specs.Merge.{IsRefused};
ghost use Rattle.run_faults.specs.RunError.{IsMemory};
ghost use Rattle.page_board.specs.Keeping.{HasAllIn};
ghost use Rattle.page_board.specs.Later.{IsLater};
ghost use Rattle.page_board.specs.Taking.{IsTaken, TextIsTaken, TextIsRefused, FileIsTaken, FileIsRefused};

use super::PageBoard;
use crate::marking::note;
use crate::news::News;
use core_rules::CoreError;
use core_rules::laws::merge_changes_dirty_tiles;
use edit_lang::parse_lines;
use run_faults::RunError;
use spd_codec::Frame;
use std::alloc::Global;
use stroke_lattice::State;
use view_session::kept::frames_for;
use view_session::merging::merge_all;

impl PageBoard {
    /// Takes an edit text: the core merges the join of all that its lines ask for, in one event. Nothing is settled.
    ///
    /// Errors: E1 to E3 of the first faulty line; else C1 or C2 at the first line whose delta those before it do not
    /// take; else, of the join, C2 where another stroke of the board has one of its tags, else C3. E4, C4 or plain want
    /// of memory. The board is then as it was.
    pub fn take_edits(&mut self, alloc: Global, text: &[u8]) -> Result<(), RunError>
        ensures taken { OnOk result (TextIsTaken self.old text.now self.new) }
        ensures refused { IfErr result (λ e. IsMemory e ⊎ TextIsRefused self.old text.now e) }
        ensures err { OnErr result (self.new ≡ self.old) }
        ensures later { IsLater self.old self.new }
    {
        let lines = parse_lines(alloc, text)?;
        let (width, height) = self.size();
        let all = merge_all::<Frame>(alloc, &[], &lines, width, height)?;
        self.take_delta(alloc, &all)?;
        Ok(())
    }

    /// Takes the bytes of a state file: the core merges the join of its frames, in one event. Nothing is settled.
    ///
    /// Errors: M1 to M7 of the bytes; D1 where a frame is for another mask or connectivity; else C1 or C2 at the first
    /// frame whose delta those before it do not take; else, of the join, C2 where another stroke of the board has one
    /// of its tags, else C3. M8, C4 or plain want of memory. The board is then as it was.
    pub fn take_file(&mut self, alloc: Global, bytes: &[u8]) -> Result<(), RunError>
        ensures taken { OnOk result (FileIsTaken self.old bytes.now self.new) }
        ensures has_all { OnOk result (HasAllIn self.new bytes.now) }
        ensures refused { IfErr result (λ e. IsMemory e ⊎ FileIsRefused self.old bytes.now e) }
        ensures err { OnErr result (self.new ≡ self.old) }
        ensures later { IsLater self.old self.new }
    {
        let frames = frames_for(alloc, bytes, self.core.conn(), &self.print)?;
        let (width, height) = self.size();
        let all = merge_all(alloc, &frames, &[], width, height)?;
        self.take_delta(alloc, &all)?;
        Ok(())
    }

    // The mask's numbers of columns and rows.
    fn size(&self) -> (u32, u32)
        ensures { result ≡ (self.now.core.mask.width, self.now.core.mask.height) }
    {
        let mask = self.core.mask();
        (mask.width(), mask.height())
    }

    // Merges a delta into the core, counts it, and keeps its news.
    //
    // Errors: C1 to C3 as the core refuses it, C4. The board is then as it was.
    fn take_delta(&mut self, alloc: Global, delta: &State) -> Result<(), CoreError>
        ensures taken { OnOk result (IsTaken self.old delta.now self.new) }
        ensures refused { IfErr result (λ e. (e ≡ core.Memory) ⊎ IsRefused self.old.core delta.now e) }
        ensures err { OnErr result (self.new ≡ self.old) }
        ensures later { IsLater self.old self.new }
    {
        merge_changes_dirty_tiles();
        self.news.reserve(1).map_err(|_| CoreError::Memory)?;
        let change = self.core.merge(alloc, delta)?;
        self.core.add_dirty(&mut self.marks);
        self.version = self.version.saturating_add(1);
        self.step = self.step.saturating_add(1);
        note(&mut self.shown, &mut self.marks, self.step);
        self.news.push_reserved(News {
            step: self.step,
            change,
        });
        Ok(())
    }
}
