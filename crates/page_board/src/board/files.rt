//! Files of a board.

ghost use Rattle.std.specs.Prelude.{◌≡◌, IfOk};
ghost use Rattle.edit_lang.specs.Writing.{live_text};
ghost use Rattle.core_rules.specs.Work.{IsQuiet};
ghost use Rattle.core_rules.specs.Invariant.{HasLawfulImage, HasReconstruction};
ghost use Rattle.pgm_codec.specs.Writing.{raw_text};
ghost use Rattle.view_session.specs.Kept.{kept_text};
ghost use Rattle.page_board.specs.Board.{mask_of, image_of};
ghost use Rattle.page_board.specs.Keeping.{KeepsBoard, HasAllIn};

use super::PageBoard;
use crate::raw::raw_of;
use edit_lang::live_lines;
use grid_core::Memory;
use pgm_codec::below_keeps_maxval;
use spd_codec::write_frames;
use std::alloc::Global;
use stroke_lattice::pieces_join;

impl PageBoard {
    /// The raw file of the mask. Memory of its exact length is taken.
    ///
    /// Errors: out of memory.
    pub fn mask_file(&self, alloc: Global) -> Result<Vec<u8>, Memory>
        ensures { IfOk result (λ v. v.items ≡ raw_text (mask_of self.now)) }
    {
        raw_of(alloc, self.core.mask(), self.maxval)
    }

    /// The raw file of the image as it is now. It lies between the marker of the strokes and the reconstruction of the
    /// mask from it, and where no work is left it is that reconstruction. Memory of its exact length is taken.
    ///
    /// Errors: out of memory.
    pub fn image_file(&self, alloc: Global) -> Result<Vec<u8>, Memory>
        ensures text { IfOk result (λ v. v.items ≡ raw_text (image_of self.now)) }
        ensures lawful { HasLawfulImage self.now.core }
        ensures quiet { IsQuiet self.now.core → HasReconstruction self.now.core }
    {
        below_keeps_maxval();
        raw_of(alloc, self.core.image(), self.maxval)
    }

    /// The bytes of a state file that keeps the strokes and tombstones: all of them, and no others.
    ///
    /// Errors: out of memory.
    pub fn state_file(&self, alloc: Global) -> Result<Vec<u8>, Memory>
        ensures text { IfOk result
            (λ v. v.items ≡ kept_text self.now.core.conn (mask_of self.now) self.now.core.state) }
        ensures keeps { IfOk result (λ v. KeepsBoard self.now v.items) }
        ensures no_more { IfOk result (λ v. HasAllIn self.now v.items) }
    {
        pieces_join();
        match write_frames(alloc, self.core.conn(), &self.print, self.core.state()) {
            Ok(file) => Ok(file),
            Err(_) => Err(Memory),
        }
    }

    /// A line of the edit language for each live stroke, rising by tag.
    ///
    /// Errors: out of memory.
    pub fn strokes(&self, alloc: Global) -> Result<Vec<u8>, Memory>
        ensures { IfOk result (λ v. v.items ≡ live_text self.now.core.state) }
    {
        live_lines(alloc, self.core.state()).map_err(|_| Memory)
    }
}
