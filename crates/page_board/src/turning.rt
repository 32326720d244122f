//! The tags that turned: that became live, or ceased to be.

ghost use Rattle.std.specs.Prelude.{ℕ, ◌↔◌, Contains, IfOk};
ghost use Rattle.stroke_lattice.specs.Growth.{AreTags};
ghost use Rattle.page_board.specs.Board.{HasTurnedIn};

use crate::news::News;
use grid_core::Memory;
use std::alloc::Global;
use stroke_core::Tag;

/// The tags that turned after a step, rising.
///
/// Errors: out of memory.
pub(crate) fn tags_since(alloc: Global, news: &[News], since: u64) -> Result<Vec<Tag>, Memory>
    ensures { IfOk result (λ tags. AreTags (HasTurnedIn news.now since) tags.items) }
{
    let mut tags = turned_since(alloc, news, since)?;
    tags.sort_unstable();
    tags.dedup();
    Ok(tags)
}

// The tags that turned after a step, each as often as it did.
fn turned_since(alloc: Global, news: &[News], since: u64) -> Result<Vec<Tag>, Memory>
    ensures { IfOk result (λ tags. (tag : ℕ) → Contains tags.items tag ↔ HasTurnedIn news.now since tag) }
{
    let mut tags = Vec::new(alloc);
    for told in news {
        if since < told.step {
            tags.extend_from_slice(told.change.born())?;
            tags.extend_from_slice(told.change.dead())?;
        }
    }
    Ok(tags)
}
