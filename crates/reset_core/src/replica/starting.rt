//! Cores that begin with strokes and tombstones.

ghost use Rattle.std.specs.Prelude.{◌≡◌, ◌≤◌, IfOk, IfErr, IfSome, OnOk};
ghost use Rattle.grid_core.specs.Raster.{IsFilled, IsOfSize};
ghost use Rattle.stroke_lattice.specs.State.{StateFits, nothing};
ghost use Rattle.marker_tiles.specs.Kept.{IsMarkerOf};
ghost use Rattle.marker_tiles.specs.UnderTags.{IsBlankOn};
ghost use Rattle.core_rules.specs.declared.error.CoreError.TheVariants as errors;
ghost use Rattle.tile_generations.specs.Generations.{max_generation};
ghost use Rattle.raster_sweeps.specs.Regrowth.{IsRegrown};
ghost use Rattle.reset_core.specs.Answers.{IsNotOpened};
ghost use Rattle.reset_core.specs.Starting.{BegunIsAsSettled, IsBeginningOf, IsBegunWith};

use super::{Beginning, Core, RefusedMask, tiling_of};
use border_queues::laws::edges_are_open;
use core_rules::CoreError;
use grid_core::{Conn, Grid, Memory, is_tile_side};
use marker_tiles::Markers;
use raster_sweeps::{Blanks, Grower};
use std::alloc::Global;
use stroke_lattice::{State, StateError};

/// A core that was opened, merged a state and settled shows what a core shows that begins with the state
/// ([`over_state`](Core::over_state)). It does nothing.
pub fn begun_is_as_settled()
    ensures { BegunIsAsSettled }
{
    edges_are_open();
}

impl Core {
    /// A core that begins with strokes and tombstones. It is as one of [`over`](Core::over), but that it has them and,
    /// as its image, the reconstruction of the mask from their marker, which `grower` grows at once. So no work is left
    /// at it, and it shows what a core shows that was opened, merged them and settled ([`begun_is_as_settled`]).
    ///
    /// Each stroke, live or not, has to fit the mask, as [`State::outside`] tells. The mask is taken over, without a
    /// copy, and the state is copied. Marker and image take memory of the blanks, where these have it for two images of
    /// the mask's size.
    ///
    /// Errors: C5 where the side is less than 8 or more than 256, else C4, with the mask handed back.
    pub fn over_state<G: Grower>(
        grower: &G,
        alloc: Global,
        mask: Grid,
        blanks: &mut Blanks,
        conn: Conn,
        side: u32,
        first: u64,
        state: &State,
    ) -> Result<Core, RefusedMask>
        requires first { first ≤ max_generation }
        requires fits { StateFits mask.width mask.height state.now }
        ensures begun { IfOk result (IsBegunWith mask conn side first state.now) }
        ensures refused { IfErr result (λ refused. IsNotOpened side refused.why × (refused.mask ≡ mask)) }
    {
        if !is_tile_side(side) {
            return Err(RefusedMask {
                mask,
                why: CoreError::BadSide,
            });
        }
        let Some((marker, image)) = blank_images(grower, alloc, &mask, blanks) else {
            return Err(RefusedMask {
                mask,
                why: CoreError::Memory,
            });
        };
        let tiling = tiling_of(&mask, side);
        let markers = Markers::over_blank(mask, marker, tiling);
        begin(grower, alloc, markers, image, conn, first, state)
    }
}

// Two images of zeros of the mask's size, in memory of the blanks or, where they have too little, in other. None where
// memory is wanting.
fn blank_images<G: Grower>(
    grower: &G,
    alloc: Global,
    mask: &Grid,
    blanks: &mut Blanks,
) -> Option<(Grid, Grid)>
    ensures { IfSome result (λ both. IsBlankOn mask.now both.0 × IsBlankOn mask.now both.1) }
{
    if let Some(both) = two_of(blanks, mask) {
        return Some(both);
    }
    let ((), mut made) = Blanks::beside(grower, alloc, 2, mask.cells().len(), || ());
    two_of(&mut made, mask)
}

// Two images of zeros of the mask's size, in memory of the blanks, where they have so much.
fn two_of(blanks: &mut Blanks, mask: &Grid) -> Option<(Grid, Grid)>
    ensures { IfSome result (λ both. IsBlankOn mask.now both.0 × IsBlankOn mask.now both.1) }
{
    // For its clause alone: the mask has as many cells as its sides say.
    let _cells = mask.cells();
    let marker = blanks.take(mask)?;
    let image = blanks.take(mask)?;
    Some((marker, image))
}

// The core that begins with a state, over markers that have no stroke yet, with its image in the memory of another one.
//
// Errors: C4, with the mask handed back.
fn begin<G: Grower>(
    grower: &G,
    alloc: Global,
    mut markers: Markers,
    image: Grid,
    conn: Conn,
    first: u64,
    state: &State,
) -> Result<Core, RefusedMask>
    requires first { first ≤ max_generation }
    requires fits { StateFits markers.mask.width markers.mask.height state.now }
    requires blank { IsMarkerOf markers.mask nothing markers.marker }
    requires image { IsOfSize markers.mask image }
    ensures begun { IfOk result (IsBegunWith markers.mask conn markers.tiling.side first state.now) }
    ensures why { IfErr result (λ refused. refused.why ≡ errors.Memory) }
    ensures returned { IfErr result (λ refused. refused.mask ≡ markers.mask) }
{
    match paint_and_grow(grower, alloc, &mut markers, image, conn, first, state) {
        Ok(beginning) => Ok(beginning.with_markers(conn, markers)),
        Err(_) => {
            let (mask, _) = markers.into_grids();
            Err(RefusedMask {
                mask,
                why: CoreError::Memory,
            })
        }
    }
}

// Makes the blank markers those of a state, and what the core begins with beside them.
fn paint_and_grow<G: Grower>(
    grower: &G,
    alloc: Global,
    markers: &mut Markers,
    image: Grid,
    conn: Conn,
    first: u64,
    state: &State,
) -> Result<Beginning, StateError>
    requires first { first ≤ max_generation }
    requires fits { StateFits markers.old.mask.width markers.old.mask.height state.now }
    requires blank { IsMarkerOf markers.old.mask nothing markers.old.marker }
    requires image { IsOfSize markers.old.mask image }
    ensures mask { markers.new.mask ≡ markers.old.mask }
    ensures tiling { markers.new.tiling ≡ markers.old.tiling }
    ensures beginning { IfOk result (IsBeginningOf conn first state.now markers.new) }
{
    let state = paint(alloc, markers, state)?;
    let image = grown(grower, alloc, markers, image, conn)?;
    let count = markers.tiling().count();
    Ok(Beginning::with(alloc, state, image, count, first)?)
}

// Makes the blank markers those of a state, and a copy of it.
fn paint(alloc: Global, markers: &mut Markers, state: &State) -> Result<State, StateError>
    requires fits { StateFits markers.old.mask.width markers.old.mask.height state.now }
    requires blank { IsMarkerOf markers.old.mask nothing markers.old.marker }
    ensures mask { markers.new.mask ≡ markers.old.mask }
    ensures tiling { markers.new.tiling ≡ markers.old.tiling }
    ensures marks { OnOk result (IsMarkerOf markers.old.mask state.now markers.new.marker) }
    ensures copy { IfOk result (λ copy. copy ≡ state.now) }
{
    let mut copy = State::empty(alloc)?;
    let change = copy.join(alloc, state)?;
    markers.apply(&copy, &change);
    Ok(copy)
}

// The image that grows from the marker, in the memory of another one.
fn grown<G: Grower>(
    grower: &G,
    alloc: Global,
    markers: &Markers,
    image: Grid,
    conn: Conn,
) -> Result<Grid, Memory>
    requires { IsOfSize markers.now.mask image }
    ensures grown { IfOk result (IsRegrown conn markers.now.mask markers.now.marker) }
    ensures filled { OnOk result (IsFilled markers.now.mask) }
{
    let mut image = image;
    image.assign(markers.marker());
    grower.grow(alloc, markers.mask(), &mut image, conn)?;
    Ok(image)
}
