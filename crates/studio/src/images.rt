//! Copies of images that are shared.

ghost use Rattle.std.specs.Prelude.{◌≡◌, IfOk};
ghost use Rattle.std.specs.Arc.{arc_value};

use grid_core::{Grid, Memory};
use std::alloc::Global;
use std::sync::Arc;

/// A copy of an image, to be shared, in a spare one where there is one of its size.
///
/// Errors: out of memory.
pub(crate) fn shared_copy(
    alloc: Global,
    spare: Option<Grid>,
    image: &Grid,
) -> Result<Arc<Grid>, Memory>
    ensures { IfOk result (λ copy. arc_value copy ≡ image.now) }
{
    let copy = match spare {
        Some(spare) => copy_into(alloc, spare, image)?,
        None => image.copy(alloc)?,
    };
    Ok(Arc::new(alloc, copy)?)
}

// A copy of an image, in a spare one where that has its size.
//
// Errors: out of memory.
fn copy_into(alloc: Global, spare: Grid, image: &Grid) -> Result<Grid, Memory>
    ensures { IfOk result (λ copy. copy ≡ image.now) }
{
    let mut spare = spare;
    if spare.width() != image.width() || spare.height() != image.height() {
        return image.copy(alloc);
    }
    spare.assign(image);
    Ok(spare)
}
