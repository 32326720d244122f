//! What is derived from an image, in the caller's cells.

ghost use Rattle.std.specs.Prelude.{◌≡◌};
ghost use Rattle.grid_core.specs.Path.{domain_of};
ghost use Rattle.derived_views.specs.HMaxima.{IsHMaxima};
ghost use Rattle.derived_views.specs.Holes.{IsFill};
ghost use Rattle.derived_views.specs.Plateaus.{IsRegionalMaxima};
ghost use Rattle.derived_views.specs.Views.{IsView};
ghost use Rattle.seedpaint_c.specs.Cells.{HoldsUnder, IsCellsFault, image_of, picture_of};

use crate::cells::{conn_of, picture};
use crate::codes::{BAD_CONNECTIVITY, NO_MEMORY, OK};
use derived_views::{h_maxima, into_filled, regional_maxima};
use raster_sweeps::OneThread;
use std::alloc::Global;

/// Fills the holes of an image: each pixel becomes the least level at which a path leads from it to the border, with no
/// value on the path above that level (Soille, "Morphological Image Analysis").
///
/// `image` has `w * h` cells, levels from 0 to 65535, row by row from the top, each row from the left. `w` and `h` are
/// 1 to 16384, with at most 2^26 pixels. `conn` is 4 or 8. It takes memory of about two more images.
///
/// It answers 0, or why the image is as it was: 2 where `conn` is another number, 5 where no image has such sides, 6
/// where there are more or fewer cells, 3 for want of memory.
#[unsafe(no_mangle)]
pub extern "C" fn seedpaint_fill(alloc: Global, image: &mut [u16], w: u32, h: u32, conn: u32) -> u32
    ensures filled { result ≡ 0 → HoldsUnder conn (λ c. IsView (picture_of w h 65535 image.old) 65535
        (IsFill (domain_of (image_of w h image.old) c)) (picture_of w h 65535 image.new)) }
    ensures refused { (result ≡ 0 → ⊥) → IsCellsFault conn w h image.old result }
    ensures untouched { (result ≡ 0 → ⊥) → image.new ≡ image.old }
{
    let Some(connectivity) = conn_of(conn) else {
        return BAD_CONNECTIVITY;
    };
    let whole = match picture(alloc, image, w, h) {
        Ok(whole) => whole,
        Err(code) => return code,
    };
    let Ok(filled) = into_filled(&OneThread, alloc, whole, connectivity) else {
        return NO_MEMORY;
    };
    image.copy_from_slice(filled.samples());
    OK
}

/// Cuts the domes of an image down: it becomes its reconstruction from itself less `height`, where no value falls below
/// 0 (Vincent 1993). `height` is 0 to 65535; with 0 the image stays as it is.
///
/// `image` has `w * h` cells, levels from 0 to 65535, row by row from the top, each row from the left. `w` and `h` are
/// 1 to 16384, with at most 2^26 pixels. `conn` is 4 or 8. It takes memory of about two more images.
///
/// It answers 0, or why the image is as it was: 2 where `conn` is another number, 5 where no image has such sides, 6
/// where there are more or fewer cells, 3 for want of memory.
#[unsafe(no_mangle)]
pub extern "C" fn seedpaint_hmax(
    alloc: Global,
    image: &mut [u16],
    w: u32,
    h: u32,
    height: u16,
    conn: u32,
) -> u32
    ensures cut { result ≡ 0 → HoldsUnder conn (λ c. IsView (picture_of w h 65535 image.old) 65535
        (IsHMaxima (domain_of (image_of w h image.old) c) height) (picture_of w h 65535 image.new)) }
    ensures refused { (result ≡ 0 → ⊥) → IsCellsFault conn w h image.old result }
    ensures untouched { (result ≡ 0 → ⊥) → image.new ≡ image.old }
{
    let Some(connectivity) = conn_of(conn) else {
        return BAD_CONNECTIVITY;
    };
    let whole = match picture(alloc, image, w, h) {
        Ok(whole) => whole,
        Err(code) => return code,
    };
    let Ok(cut) = h_maxima(&OneThread, alloc, &whole, height, connectivity) else {
        return NO_MEMORY;
    };
    image.copy_from_slice(cut.samples());
    OK
}

/// Marks the regional maxima of an image: each pixel becomes 1 on a plateau that strictly lower pixels surround, and 0
/// elsewhere (Vincent 1993). A plateau that is the whole image counts.
///
/// `image` has `w * h` cells, levels from 0 to 65535, row by row from the top, each row from the left. `w` and `h` are
/// 1 to 16384, with at most 2^26 pixels. `conn` is 4 or 8. It takes memory of about two more images.
///
/// It answers 0, or why the image is as it was: 2 where `conn` is another number, 5 where no image has such sides, 6
/// where there are more or fewer cells, 3 for want of memory.
#[unsafe(no_mangle)]
pub extern "C" fn seedpaint_regmax(
    alloc: Global,
    image: &mut [u16],
    w: u32,
    h: u32,
    conn: u32,
) -> u32
    ensures marked { result ≡ 0 → HoldsUnder conn (λ c. IsView (picture_of w h 65535 image.old) 1
        (IsRegionalMaxima (domain_of (image_of w h image.old) c)) (picture_of w h 1 image.new)) }
    ensures refused { (result ≡ 0 → ⊥) → IsCellsFault conn w h image.old result }
    ensures untouched { (result ≡ 0 → ⊥) → image.new ≡ image.old }
{
    let Some(connectivity) = conn_of(conn) else {
        return BAD_CONNECTIVITY;
    };
    let whole = match picture(alloc, image, w, h) {
        Ok(whole) => whole,
        Err(code) => return code,
    };
    let Ok(maxima) = regional_maxima(&OneThread, alloc, &whole, connectivity) else {
        return NO_MEMORY;
    };
    image.copy_from_slice(maxima.samples());
    OK
}
