//! What whole rows are grown under.

ghost use Rattle.std.specs.Prelude.{◌≡◌};
ghost use Rattle.band_growth.specs.Bands as bands;

use grid_core::{Conn, Rect};
use raster_sweeps::steps::Size;

/// What whole rows are grown under: their mask, how many columns and rows there are, and which pixels are neighbours.
#[derive(Clone, Copy)]
pub struct Limits<'a> {
    pub mask: &'a [u16],
    pub size: Size,
    pub conn: Conn,
}

/// The rectangle of all pixels of whole rows.
pub fn all_of(size: Size) -> Rect
    ensures { result ≡ bands.all_of size }
{
    Rect {
        x: 0,
        y: 0,
        w: size.w,
        h: size.h,
    }
}
