//! Images of zeros, made before they are wanted.

ghost use Rattle.std.specs.Prelude.{◌≡◌, length, replicate, IfOk, IfSome};

use crate::grower::Grower;
use grid_core::Grid;
use std::alloc::{AllocError, Global};

/// Memory of zeros for some images, made before they are wanted.
///
/// To touch memory for the first time takes as long as to grow an image in it. So it pays to do this in other threads
/// while an input is read.
#[derive(Drop)]
pub struct Blanks {
    images: Vec<Blank>,
}

// The cells of one image, each 0.
#[derive(Drop)]
struct Blank {
    cells: Vec<u16>,
    ghost zeros: { cells.items ≡ replicate (length cells.items) 0 },
}

impl Blanks {
    /// Memory for no image. It takes none.
    pub fn none(alloc: Global) -> Blanks {
        Blanks {
            images: Vec::new(alloc),
        }
    }

    /// Does some work, and meanwhile makes memory for so many images of so many pixels, in threads of their own where
    /// `grower` has some. Where memory is wanting it is for fewer.
    #[cycle(beside)]
    pub fn beside<G: Grower, T, F: FnOnce() -> T>(
        grower: &G,
        alloc: Global,
        images: usize,
        pixels: usize,
        work: F,
    ) -> (T, Blanks)
        requires { F.pre work }
        ensures { F.post work result.0 }
    {
        if images == 0 {
            return (work(), Blanks::none(alloc));
        }
        let others = images - 1;
        let work_and_others = move || -> (T, Blanks)
            requires { F.pre work }
            ensures { F.post work result.0 }
        { Blanks::beside(grower, alloc, others, pixels, work) };
        let ((done, blanks), zeros) = grower.zeros_beside(alloc, pixels, work_and_others);
        (done, blanks.with(zeros))
    }

    // The same and these zeros, where there was memory for them and there is some to keep them.
    fn with(mut self, zeros: Result<Vec<u16>, AllocError>) -> Blanks
        requires { IfOk zeros (λ cells. cells.items ≡ replicate (length cells.items) 0) }
    {
        if let Ok(cells) = zeros {
            let _is_kept = self.images.push(Blank { cells }).is_ok();
        }
        self
    }

    /// An image of zeros of a mask's size, in memory that is there, where there is some for one of that size.
    pub fn take(&mut self, mask: &Grid) -> Option<Grid>
        ensures { IfSome result (λ image. image ≡ record {
          width = mask.now.width;
          height = mask.now.height;
          cells = replicate (length mask.now.cells) 0;
        }) }
    {
        let Blank { cells } = self.images.pop()?;
        if cells.len() != mask.cells().len() {
            return None;
        }
        Some(Grid::from_cells(mask.width(), mask.height(), cells))
    }
}
