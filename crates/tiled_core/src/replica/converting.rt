//! Cores whose image is cut into tiles, and put together again.

ghost use Rattle.std.specs.Prelude.{◌≡◌, ◌+◌, ◌*◌, IfErr, IfOk, vec_len};
ghost use Rattle.core_rules.specs.Work.{tiling as tiling_of};
ghost use Rattle.reset_core.specs.Replica.{core_of, stored_as, IsStored};
ghost use Rattle.tiled_core.specs.Stored.{IsBeside};

use super::TiledCore;
use super::sweeping::MOST_BLOCKS;
use crate::beside::BesideJobs;
use crate::shared_states::SharedStates;
use grid_core::{Grid, Memory, Tiling};
use reset_core::{Core, CoreParts};
use std::alloc::Global;
use tile_generations::Block;
use tiled_image::{Rims, TiledImage};

impl TiledCore {
    /// The core, whose image is cut into tiles from now on: each tile is copied out of mask and image.
    ///
    /// Errors: out of memory, with the core handed back.
    pub fn over(alloc: Global, core: Core) -> Result<TiledCore, (Core, Memory)>
        ensures value { IfOk result (λ tiled. tiled ≡ core) }
        ensures returned { IfErr result (λ e. e.0 ≡ core) }
    {
        let tiling = core.tiling();
        match Beside::of(alloc, &tiling, core.mask()) {
            Ok(beside) => over_parts(alloc, tiling, core.into_stored(), beside),
            Err(why) => Err((core, why)),
        }
    }

    /// The core with its image in rows. It takes no memory.
    pub fn into_core(self) -> Core
        ensures { result ≡ self }
    {
        let TiledCore {
            conn,
            state,
            markers,
            image,
            work,
            bounds,
            masks,
            serial,
            marks,
            queue,
            ..
        } = self;
        let parts = CoreParts {
            conn,
            state,
            markers,
            image: image.into_rows(),
            work,
            bounds,
            masks,
            serial,
            marks,
            queue,
        };
        parts.into_core()
    }
}

// What a tiled core keeps besides what a core does.
#[derive(Drop)]
struct Beside {
    jobs: BesideJobs,
    ring: Vec<u16>,
    mask_rims: Rims,
    limits: Vec<u16>,
    blocks: Vec<Block>,
}

impl Beside {
    // What is kept besides, for a mask that is cut so.
    //
    // Errors: out of memory.
    fn of(alloc: Global, tiling: &Tiling, mask: &Grid) -> Result<Beside, Memory>
        requires width { mask.now.width ≡ tiling.now.width }
        requires height { mask.now.height ≡ tiling.now.height }
        ensures { IfOk result (λ beside. IsBeside tiling.now mask.now beside) }
    {
        Ok(Beside {
            jobs: BesideJobs::none(alloc, tiling.count())?,
            ring: room_around(alloc, tiling)?,
            mask_rims: Rims::of(alloc, tiling, mask)?,
            limits: room_around(alloc, tiling)?,
            blocks: Vec::with_capacity(alloc, MOST_BLOCKS)?,
        })
    }
}

// The core that is stored as these parts, with its image cut into tiles.
//
// Errors: out of memory, with the core handed back.
fn over_parts(
    alloc: Global,
    tiling: Tiling,
    parts: CoreParts,
    beside: Beside,
) -> Result<TiledCore, (Core, Memory)>
    requires stored { IsStored (stored_as parts) }
    requires tiling { tiling ≡ tiling_of (core_of (stored_as parts)) }
    requires beside { IsBeside tiling parts.markers.mask beside }
    ensures value { IfOk result (λ tiled. tiled ≡ core_of (stored_as parts)) }
    ensures returned { IfErr result (λ e. e.0 ≡ core_of (stored_as parts)) }
{
    match TiledImage::new(alloc, tiling, parts.image) {
        Ok(image) => {
            let tiled = TiledCore {
                conn: parts.conn,
                state: parts.state,
                markers: parts.markers,
                image,
                work: parts.work,
                bounds: parts.bounds,
                masks: parts.masks,
                serial: parts.serial,
                marks: parts.marks,
                queue: parts.queue,
                beside: beside.jobs,
                ring: beside.ring,
                mask_rims: beside.mask_rims,
                limits: beside.limits,
                states: SharedStates::none(),
                blocks: beside.blocks,
            };
            tiled.cut(alloc)
        }
        Err((image, why)) => Err((CoreParts { image, ..parts }.into_core(), why)),
    }
}

// Room for a tile and the pixels around it.
//
// Errors: out of memory.
fn room_around(alloc: Global, tiling: &Tiling) -> Result<Vec<u16>, Memory>
    ensures { IfOk result (λ cells. vec_len cells ≡ (tiling.now.side + 2) * (tiling.now.side + 2)) }
{
    let side = tiling.side() as usize + 2;
    let cells = vec![in alloc; 0; side * side]?;
    Ok(cells)
}
