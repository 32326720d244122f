//! Marks on tiles, and the queue of those that were newly marked.

ghost use Rattle.std.specs.Prelude.{◌≡◌, ◌<◌, length};
ghost use Rattle.tile_work.specs.Marks.{Adds};

use crate::TileSet;

/// Marks a tile, and puts it into the queue where it was not marked.
pub(super) fn mark(marks: &mut TileSet, queue: &mut TileSet, tile: usize)
    requires tile { tile < length marks.old }
    requires queue { length queue.old ≡ length marks.old }
    ensures { Adds (λ t. t ≡ tile) marks.old queue.old marks.new queue.new }
{
    if !marks.contains(tile) {
        marks.insert(tile);
        queue.insert(tile);
    }
}
