//! The last copies of an image that were given out, and which of its tiles changed since.

ghost use Rattle.std.specs.Prelude.{◌≡◌, ◌<◌, length, IfOk, IfSome, Some};
ghost use Rattle.std.specs.Arc.{arc_value};
ghost use Rattle.tile_generations.specs.CutMasks.{cut_mask};
ghost use Rattle.tile_work.specs.TileSet.{Has};
ghost use Rattle.tiled_image.specs.SharedCopies.{HaveChanged, IsKeptLast, IsOldestTaken, no_copies};

use grid_core::{Grid, Memory};
use std::alloc::Global;
use std::marker::Model;
use std::mem;
use std::sync::Arc;
use tile_work::TileSet;

/// The last three copies of an image that were given out, and the tiles that may have changed since each was made.
#[derive(Drop)]
pub(crate) struct SharedCopies {
    last: Option<Arc<Grid>>,
    older: Option<Arc<Grid>>,
    oldest: Option<Arc<Grid>>,
    // The tiles that changed since the last copy was made.
    changed: TileSet,
    // The tiles that changed between the older copy and the last one.
    older_changed: TileSet,
    // The tiles that changed between the oldest copy and the last one.
    oldest_changed: TileSet,
}

impl Model for SharedCopies {
    ghost use Rattle.tile_generations.specs.CutMasks.{cut_mask};
    ghost use Rattle.tiled_image.specs.SharedCopies.{Copies};

    ghost Value = { Copies };

    ghost view = { λ c. record {
      last = cut_mask c.last;
      older = cut_mask c.older;
      oldest = cut_mask c.oldest;
      changed = c.changed;
      older_changed = c.older_changed;
      oldest_changed = c.oldest_changed;
    } };
}

impl SharedCopies {
    /// No copy of an image of so many tiles.
    ///
    /// Errors: out of memory.
    pub(crate) fn none(alloc: Global, count: usize) -> Result<SharedCopies, Memory>
        ensures { IfOk result (λ copies. copies ≡ no_copies count) }
    {
        Ok(SharedCopies {
            last: None,
            older: None,
            oldest: None,
            changed: TileSet::empty(alloc, count)?,
            older_changed: TileSet::empty(alloc, count)?,
            oldest_changed: TileSet::empty(alloc, count)?,
        })
    }

    /// A tile of the image changes. It takes no memory.
    pub(crate) fn mark(&mut self, tile: usize)
        requires { tile < length self.old.changed }
        ensures { HaveChanged (λ t. t ≡ tile) self.old self.new }
    {
        self.changed.insert(tile);
    }

    /// These tiles of the image change. It takes no memory.
    pub(crate) fn mark_all(&mut self, tiles: &TileSet)
        requires { length tiles.now ≡ length self.old.changed }
        ensures { HaveChanged (Has tiles.now) self.old self.new }
    {
        self.changed.insert_all(tiles);
    }

    /// Takes the oldest copy out, and answers it where nobody else holds it. The stale tiles are then those that
    /// changed since it was made. It takes no memory.
    pub(crate) fn take_oldest(&mut self) -> Option<Grid>
        requires { length self.old.changed ≡ length self.old.oldest_changed }
        ensures { IsOldestTaken self.old result self.new }
    {
        self.oldest_changed.insert_all(&self.changed);
        unshared(self.oldest.take())
    }

    /// The tiles that changed since the copy was made that was taken out.
    pub(crate) fn stale(&self) -> &TileSet
        ensures { result.now ≡ self.now.oldest_changed }
    {
        &self.oldest_changed
    }

    /// Keeps a copy of the image as it is as the last one, and lets the oldest one go. It takes no memory.
    pub(crate) fn keep(&mut self, copy: Arc<Grid>)
        requires { length self.old.changed ≡ length self.old.older_changed }
        ensures { IsKeptLast (arc_value copy) self.old self.new }
    {
        self.oldest = mem::replace(&mut self.older, mem::replace(&mut self.last, Some(copy)));
        self.older_changed.insert_all(&self.changed);
        self.oldest_changed.clear();
        mem::swap(&mut self.oldest_changed, &mut self.older_changed);
        mem::swap(&mut self.older_changed, &mut self.changed);
    }
}

// The image, where it is there and nobody else holds it.
fn unshared(image: Option<Arc<Grid>>) -> Option<Grid>
    ensures { IfSome result (λ own. cut_mask image ≡ Some own) }
{
    Arc::try_unwrap(image?).ok()
}
