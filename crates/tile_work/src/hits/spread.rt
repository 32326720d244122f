//! The walk from marked tiles to those that are linked.

ghost use Rattle.std.specs.Prelude.{◌↔◌, ℕ};
ghost use Rattle.tile_work.specs.Linking.{CanMark, IsLinkedBy};
ghost use Rattle.tile_work.specs.Marks.{IsSpread};
ghost use Rattle.tile_work.specs.TileSet.{Has};

use crate::TileSet;
use crate::hits::links::Links;

/// Marks the tiles to which links lead from the marked ones, which wait in the queue. The queue is empty then.
pub(super) fn spread(links: &Links, marks: &mut TileSet, queue: &mut TileSet)
    requires parts { CanMark links.now marks.old queue.old }
    requires waiting { (t : ℕ) → Has queue.old t ↔ Has marks.old t }
    ensures { IsSpread (IsLinkedBy links.now) marks.old queue.old marks.new queue.new }
{
    while let Some(tile) = queue.first_from(0) {
        queue.remove(tile);
        links.mark_linked(marks, queue, tile);
    }
}
