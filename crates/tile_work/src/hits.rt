//! The tiles that taking a delta resets.

ghost use Rattle.std.specs.Prelude.{◌≡◌, ◌↔◌, ℕ, false, length, replicate, IsTrue};
ghost use Rattle.grid_core.specs.Tiles.{count_of};
ghost use Rattle.tile_generations.specs.Generations.{max_generation};
ghost use Rattle.border_queues.specs.OpenEdges.{IsOnTiling};
ghost use Rattle.border_queues.specs.TileWork.{work_of};
ghost use Rattle.tile_work.specs.Marks.{AreHits};
ghost use Rattle.tile_work.specs.TileSet.{Has};

mod links;
mod losses;
mod marking;
mod spread;

use crate::{TileSet, WorkTable};
use grid_core::{Conn, Grid, Tiling};
use links::Links;
use losses::mark_losses;
use spread::spread;
use stroke_lattice::{Delta, State};
use tile_generations::MAX_GENERATION;

/// Marks the tiles that taking the delta resets: those with a pixel that a dying stroke covers, and those to which
/// links lead from them, from tile to tile over neighbouring pixels at both of which the image is above 0. A stroke
/// dies where it is live in the state and the delta has a tombstone for its tag. It takes no memory.
///
/// It costs the spans of the strokes that die, and the borders of the tiles that are marked.
pub fn mark_hits(
    marks: &mut TileSet,
    queue: &mut TileSet,
    image: &Grid,
    tiling: &Tiling,
    conn: Conn,
    state: &State,
    delta: &Delta,
)
    requires on_tiling { IsOnTiling tiling.now image.now }
    requires marks { marks.old ≡ replicate (count_of tiling.now) false }
    requires queue { queue.old ≡ replicate (count_of tiling.now) false }
    ensures marks { AreHits tiling.now image.now conn state.now delta.now marks.new }
    ensures count { length marks.new ≡ count_of tiling.now }
    ensures queue { queue.new ≡ queue.old }
{
    mark_losses(marks, queue, tiling, state, delta);
    let links = Links {
        tiling: *tiling,
        conn,
        image,
    };
    spread(&links, marks, queue);
}

/// Whether one of the marked tiles has spent its generations.
pub fn is_one_spent(marks: &TileSet, work: &WorkTable) -> bool
    requires { length marks.now ≡ length work.now }
    ensures { IsTrue result
        ↔ ((t : ℕ) × Has marks.now t × ((work_of work.now t).generation ≡ max_generation)) }
{
    // For its clause alone: the number of tiles is a usize.
    let _ = marks.len();
    let mut start = 0;
    while let Some(tile) = marks.first_from(start) {
        if work.generation(tile) == MAX_GENERATION {
            return true;
        }
        start = tile + 1;
    }
    false
}
