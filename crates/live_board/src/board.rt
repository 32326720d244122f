//! The board.

ghost use Rattle.std.specs.Coded.{Coded-set};
ghost use Rattle.std.specs.Prelude.{◌+◌, ◌≡◌, ◌≤◌};
ghost use Rattle.live_board.specs.Stored.{ground_code};
ghost use Rattle.live_board.specs.Words.{max_board, size_of};

use crate::rule::{Ground, Law, SeatView};
use atomic_table::Table;
use grid_core::{Conn, Grid, Pixel};
use std::alloc::Global;

/// The greatest number of pixels of a board.
pub const MAX_BOARD: u32 = 1 << 20;

/// A word for each pixel of a mask, and one for the generation. Threads share it by `&`, each with a seat of its own.
#[derive(Drop)]
pub struct Board {
    pub(crate) table: Table<u8, SeatView, Ground, Law, Global>,
    pub(crate) base: Ground,
    ghost about: { table.shared.key ≡ base } by { Coded-set ground_code _ _ },
    ghost small: { size_of base ≤ max_board },
    ghost sized: { table.shared.table_id.words ≡ size_of base + 1 },
    ghost slotless: { table.shared.table_id.slots ≡ 0 },
}

impl Board {
    ghost use Rattle.std.specs.Coded.{Coded-set};
    ghost use Rattle.std.specs.Prelude.{◌+◌, ◌<◌, IsTrue, ◌↔◌, ◌≡◌, ◌≤◌};
    ghost use Rattle.grid_core.specs.{Raster.value_at, Rows.has_diagonals};
    ghost use Rattle.live_board.specs.Seats.{ground_of, table_of};
    ghost use Rattle.live_board.specs.Stored.{ground_code};
    ghost use Rattle.live_board.specs.Words.{IsOn, mask_of, place_of, size_of};
    ghost use Rattle.pgm_codec.specs.Graymap.{IsGraymap};

    /// Whether the board stands on this mask, with this connectivity. It takes no memory.
    pub fn is_of(&self, mask: &Grid, conn: Conn) -> bool
        ensures { IsTrue result ↔ ((mask_of (ground_of self.now) ≡ mask.now) × ((ground_of self.now).conn ≡ conn)) }
    {
        self.base.mask.grid().is_same(mask) && self.base.conn == conn
    }

    // The word of a pixel.
    pub(crate) fn place(&self, pixel: Pixel) -> usize
        requires { IsOn (ground_of self.now) pixel }
        ensures value { result ≡ place_of (ground_of self.now) pixel }
        ensures within { result < (table_of self.now).words }
    {
        pixel.y as usize * self.base.mask.width() as usize + pixel.x as usize + 1
    }

    // The mask at a pixel.
    pub(crate) fn mask_at(&self, pixel: Pixel) -> u16
        requires { IsOn (ground_of self.now) pixel }
        ensures { result ≡ value_at (mask_of (ground_of self.now)) pixel }
    {
        self.base.mask.grid().get(pixel)
    }

    // The number of columns.
    pub(crate) fn width(&self) -> u32
        ensures value { result ≡ (mask_of (ground_of self.now)).width }
        ensures sized { IsGraymap (ground_of self.now).mask }
    {
        self.base.mask.width()
    }

    // The number of rows.
    pub(crate) fn height(&self) -> u32
        ensures value { result ≡ (mask_of (ground_of self.now)).height }
        ensures sized { IsGraymap (ground_of self.now).mask }
    {
        self.base.mask.height()
    }

    // The number of pixels.
    pub(crate) fn size(&self) -> usize
        ensures { result ≡ size_of (ground_of self.now) }
    {
        self.base.mask.samples().len()
    }

    // Whether pixels that share only a corner are neighbours.
    pub(crate) fn has_diagonals(&self) -> bool
        ensures { result ≡ has_diagonals (ground_of self.now).conn }
    {
        match self.base.conn {
            Conn::Four => false,
            Conn::Eight => true,
        }
    }
}
