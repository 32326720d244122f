//! Files that are made once for a moment and shared.

ghost use Rattle.std.specs.Prelude.{◌≡◌, IfOk};
ghost use Rattle.pgm_codec.specs.Writing.{raw_text};
ghost use Rattle.page_board.specs.Board.{mask_of};
ghost use Rattle.page_service.specs.Painting.{IsImageFile};

use super::Painting;
use bytes::Bytes;
use std::alloc::AllocError;

impl Painting {
    // The raw file of the mask.
    pub(super) fn mask_file(&mut self) -> Result<Bytes, AllocError>
        ensures file { IfOk result (λ bytes. bytes ≡ raw_text (mask_of self.old.board)) }
        ensures same { self.new ≡ self.old }
    {
        if let Some(made) = &self.mask {
            return made.clone();
        }
        let made = self.made_mask()?;
        match made.clone() {
            Ok(shared) => {
                self.mask = Some(made);
                Ok(shared)
            }
            Err(why) => {
                drop(made);
                Err(why)
            }
        }
    }

    // The raw file of the mask, made anew.
    fn made_mask(&self) -> Result<Bytes, AllocError>
        ensures { IfOk result (λ bytes. bytes ≡ raw_text (mask_of self.now.board)) }
    {
        let Ok(file) = self.board.mask_file(self.alloc) else {
            return Err(AllocError);
        };
        Ok(Bytes::from_vec(file)?)
    }

    // The raw file of the image as it is now.
    pub(super) fn image_file(&mut self) -> Result<Bytes, AllocError>
        ensures file { IfOk result (IsImageFile self.old.board) }
        ensures same { self.new ≡ self.old }
    {
        if let Some(made) = &self.image {
            return made.clone();
        }
        let made = self.made_image()?;
        match self.unread.share(&made) {
            Ok(shared) => {
                self.image = Some(made);
                Ok(shared)
            }
            Err(why) => {
                drop(made);
                Err(why)
            }
        }
    }

    // The raw file of the image as it is now, made anew.
    fn made_image(&self) -> Result<Bytes, AllocError>
        ensures { IfOk result (IsImageFile self.now.board) }
    {
        let Ok(file) = self.board.image_file(self.alloc) else {
            return Err(AllocError);
        };
        Ok(Bytes::from_vec(file)?)
    }
}
