//! Growing in the caller's cells.

ghost use Rattle.std.specs.Prelude.{◌≡◌, length};
ghost use Rattle.grid_core.specs.Raster.{IsSized};
ghost use Rattle.raster_sweeps.specs.Regrowth.{IsRegrown};
ghost use Rattle.seedpaint_c.specs.Cells.{HoldsUnder, IsGrowFault, image_of};

use crate::cells::{are_below, conn_of, test_size};
use crate::codes::{ABOVE_MASK, BAD_CONNECTIVITY, BAD_LENGTH, NO_MEMORY, OK};
use grid_core::Rect;
use raster_sweeps::steps::{Size, Waiting, close};
use std::alloc::Global;

/// Raises an image until it is the reconstruction by dilation of `mask` from what it was (Vincent 1993), in place.
///
/// `mask` and `image` have `w * h` cells each, levels from 0 to 65535, row by row from the top, each row from the left.
/// `w` and `h` are 1 to 16384, with at most 2^26 pixels. `conn` is 4 or 8, the number of neighbours of a pixel. It
/// takes memory of about half a byte a pixel, and at least 4 KiB for each 32 rows, and copies neither of both.
///
/// It answers 0, or why the image is as it was: 2 where `conn` is another number, 5 where no image has such sides, 6
/// where there are more or fewer cells, 7 where the image is above the mask somewhere, 3 for want of memory.
#[unsafe(no_mangle)]
pub extern "C" fn seedpaint_grow(
    alloc: Global,
    mask: &[u16],
    image: &mut [u16],
    w: u32,
    h: u32,
    conn: u32,
) -> u32
    ensures grown { result ≡ 0 → HoldsUnder conn
        (λ c. IsRegrown c (image_of w h mask.now) (image_of w h image.old) (image_of w h image.new)) }
    ensures sized { result ≡ 0 → IsSized (image_of w h image.old) }
    ensures mask_sized { result ≡ 0 → length mask.now ≡ length image.old }
    ensures refused { (result ≡ 0 → ⊥) → IsGrowFault conn w h mask.now image.old result }
    ensures untouched { (result ≡ 0 → ⊥) → image.new ≡ image.old }
{
    let Some(connectivity) = conn_of(conn) else {
        return BAD_CONNECTIVITY;
    };
    if let Err(code) = test_size(image, w, h) {
        return code;
    }
    if mask.len() != image.len() {
        return BAD_LENGTH;
    }
    if !are_below(image, mask) {
        return ABOVE_MASK;
    }
    let Ok(mut waiting) = Waiting::for_rows(alloc, w, h) else {
        return NO_MEMORY;
    };
    let size = Size { w, h };
    let whole = Rect { x: 0, y: 0, w, h };
    close(mask, image, size, whole, connectivity, &mut waiting);
    OK
}
