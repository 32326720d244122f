//! Boards that are closed.

ghost use Rattle.std.specs.Prelude.{◌+◌, IfErr, IfOk, ◌≡◌};
ghost use Rattle.core.specs.Mem.Slots.{IsFull, slots_items, slots_len};
ghost use Rattle.live_board.specs.Closing.{IsImageOf, IsValueIn};
ghost use Rattle.live_board.specs.Reading.{IsEnding, IsReadOff, IsWithin};
ghost use Rattle.live_board.specs.Seats.{IsKeeperOf, ground_of, keeper_view};
ghost use Rattle.live_board.specs.Words.{mask_of, size_of};

use crate::board::Board;
use crate::fact::LEVELS;
use crate::keeper::KeeperSeat;
use crate::rule::Ground;
use atomic_table::Closed;
use grid_core::{Grid, Pixel};
use pgm_codec::{Image, below_keeps_maxval};
use raster_sweeps::is_closed;
use std::alloc::Global;

impl Board {
    /// The image of the present generation, with the maxval of the mask, and whether no pixel can raise another in it.
    /// A pixel has the value of its word, or 0 where that is of an older generation. So none is less than the keeper
    /// found there in this one. Where none can raise another and none is below the marker, the image is the
    /// reconstruction of the mask from the marker.
    ///
    /// Errors: out of memory, with the board and the seat handed back.
    pub fn close(
        self,
        alloc: Global,
        keeper: KeeperSeat,
    ) -> Result<(Image, bool), (Board, KeeperSeat)>
        requires { IsKeeperOf self keeper }
        ensures image { IfOk result (λ r. IsImageOf (ground_of self) (keeper_view keeper) r.0 r.1) }
        ensures returned { IfErr result (λ e. (e.0 ≡ self) × (e.1 ≡ keeper)) }
    {
        match self.base.mask.grid().copy(alloc) {
            Ok(image) => Ok(finish(self, keeper, image)),
            Err(_) => Err((self, keeper)),
        }
    }
}

// The image of a board, and whether no pixel can raise another in it. The values of `image` are written over.
fn finish(board: Board, keeper: KeeperSeat, image: Grid) -> (Image, bool)
    requires keeper { IsKeeperOf board keeper }
    requires image { image ≡ mask_of (ground_of board) }
    ensures { IsImageOf (ground_of board) (keeper_view keeper) result.0 result.1 }
{
    // For its clause alone: the marker has a value for each pixel.
    let _ = keeper.marker.width();
    let Board { table, base } = board;
    let KeeperSeat {
        seat,
        generation,
        marker: _,
        is_planted: _,
    } = keeper;
    let closed = table.close_with(seat);
    let mut image = image;
    read_off(&closed, &base, generation, &mut image);
    closed.free();
    ending(&base, image)
}

// The image with the mask's maxval, and whether no pixel can raise another in it.
fn ending(base: &Ground, image: Grid) -> (Image, bool)
    requires { IsWithin (mask_of base.now) image }
    ensures { IsEnding base.now image result.0 result.1 }
{
    below_keeps_maxval();
    let is_done = is_closed(base.mask.grid(), &image, base.conn);
    (Image::over(image, base.mask.maxval()), is_done)
}

// Gives each pixel the value of its word, or 0 where that is of another generation.
fn read_off(closed: &Closed<u8, Global>, base: &Ground, generation: u64, image: &mut Grid)
    requires words { IsFull closed.now.words × (slots_len closed.now.words ≡ size_of base.now + 1) }
    requires image { image.old ≡ mask_of base.now }
    ensures { IsReadOff base.now generation (slots_items closed.now.words) (size_of base.now) image.new }
{
    let width = image.width() as usize;
    for cell in 0..base.mask.samples().len() {
        let pixel = Pixel {
            x: (cell % width) as u32,
            y: (cell / width) as u32,
        };
        image.set(pixel, value_in(closed.word(cell + 1), generation));
    }
}

// The value of a word, or 0 where it is of another generation.
pub(crate) fn value_in(word: u64, generation: u64) -> u16
    ensures { IsValueIn generation word result }
{
    if word / LEVELS == generation {
        (word % LEVELS) as u16
    } else {
        0
    }
}
