//! Cores that begin with strokes and tombstones.

use crate::pictures::{HILLS, mask_of};
use crate::played::{Stage, play, told};
use crate::states::state_of;
use crate::sums::{START, with_cells, with_state};
use grid_core::{Conn, Grid};
use raster_sweeps::{Blanks, OneThread};
use reset_core::{Core, CoreError, RefusedMask};
use std::alloc::Global;
use std::test::Fail;
use stroke_lattice::State;

// Two strokes that are live, one that is withdrawn, and a tombstone of none.
const EDITS: &str =
    "place #01 9 0:1-1\nplace #02 3 0:4-4\ndisc #03 7 0:2+1\nwithdraw #03\nwithdraw #4d";

// What grows from them.
const GROWN: &[u16] = &[3, 5, 2, 3, 3];

// A mask and a state that a core is to begin with.
#[derive(Drop)]
struct Beginning {
    alloc: Global,
    mask: Option<Grid>,
    state: State,
}

fn opened(alloc: Global) -> Option<Beginning> {
    match (mask_of(alloc, &HILLS), state_of(alloc, EDITS)) {
        (Some(mask), Some(state)) => Some(Beginning {
            alloc,
            mask: Some(mask),
            state,
        }),
        _ => None,
    }
}

// The core that begins with a state, with so many zeros made before for its marker and its image. C1 where a stroke
// does not fit.
fn begun(alloc: Global, mask: Grid, count: usize, state: &State) -> Result<Core, RefusedMask> {
    let ((), mut blanks) = Blanks::beside(&OneThread, alloc, 2, count, || ());
    match state.outside(mask.width(), mask.height()) {
        Some(tag) => Err(RefusedMask {
            mask,
            why: CoreError::OutOfImage(tag),
        }),
        None => Core::over_state(
            &OneThread,
            alloc,
            mask,
            &mut blanks,
            Conn::Four,
            8,
            4,
            state,
        ),
    }
}

// Whether the core has this state and what grows from it, its tile the generation that it began with, and no work left.
fn is_fresh(core: &Core, state: &State) -> bool {
    core.is_quiet()
        && core.tiles() == 1
        && core.generation(0) == 4
        && core.state().is_same(state)
        && core.image().cells() == GROWN
}

impl Stage<usize> for Beginning {
    fn sum(&self) -> u64 {
        let sum = with_state(START, &self.state);
        match &self.mask {
            Some(mask) => with_cells(sum, mask.cells()),
            None => sum,
        }
    }

    // The mask comes back from the core, or where there is none.
    fn play(&mut self, count: &usize) -> Option<bool> {
        match begun(self.alloc, self.mask.take()?, *count, &self.state) {
            Ok(core) => {
                let is_right = is_fresh(&core, &self.state);
                let (mask, _, _) = core.into_parts();
                self.mask = Some(mask);
                Some(is_right)
            }
            Err(refused) => {
                self.mask = Some(refused.mask);
                if refused.why == CoreError::Memory {
                    None
                } else {
                    Some(false)
                }
            }
        }
    }
}

// No zeros were made before, too few, as many as there are pixels, and too many.
#[test]
fn cores_begin_with_strokes_tried_again(rt: HostRuntime) -> Result<(), Fail> {
    told("zeros made before", play(opened(rt.alloc()), &[0, 4, 5, 6]))
}
