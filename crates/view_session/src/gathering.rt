//! What a run begins with: the strokes of an input and of a state file, joined.

ghost use Rattle.std.specs.Prelude.{◌≡◌, ◌⊎◌, IfOk, IfErr};
ghost use Rattle.stroke_lattice.specs.State.{StateFits};
ghost use Rattle.view_session.specs.Kept.{print_of, IsGathered, KeptStops};
ghost use Rattle.run_faults.specs.RunError.{IsReadingFault};

use crate::input::{mask_pixels_in, read_input};
use crate::kept::frames_for;
use crate::merging::merge_all;
use grid_core::Conn;
use pgm_codec::Image;
use raster_sweeps::{Blanks, Grower};
use run_faults::RunError;
use spd_codec::Print;
use std::alloc::Global;
use stroke_lattice::State;

/// What a run begins with: a mask, its fingerprint, and the join of the old strokes and of the input's.
#[derive(Drop)]
pub struct Gathered {
    /// The mask behind the input's lines.
    pub mask: Image,
    /// Its fingerprint.
    pub print: Print,
    /// The join of the strokes and tombstones.
    pub state: State,
}

/// Reads an input and the old bytes of a state file, and merges the strokes and tombstones of the old bytes and then
/// the input's.
///
/// Errors: those of [`view_kept`](crate::view::view_kept) but the devices' and C5, up to the merging.
pub fn gather(alloc: Global, input: &[u8], old: &[u8], conn: Conn) -> Result<Gathered, RunError>
    ensures gathered { IfOk result (λ g. IsGathered conn old.now input.now g.mask g.state) }
    ensures print { IfOk result (λ g. g.print ≡ print_of g.mask) }
    ensures fits { IfOk result (λ g. StateFits g.mask.raster.width g.mask.raster.height g.state) }
    ensures refused { IfErr result (λ e. IsReadingFault e ⊎ KeptStops conn old.now input.now e) }
{
    let (deltas, mask) = read_input(alloc, input)?;
    let print = spd_codec::print_of(&mask);
    let frames = frames_for(alloc, old, conn, &print)?;
    let state = merge_all(alloc, &frames, &deltas, mask.width(), mask.height())?;
    Ok(Gathered { mask, print, state })
}

/// What a run begins with, as [`gather`] gives it, and memory for so many images of as many pixels as the input's
/// header says that the mask has, made meanwhile by `grower`.
///
/// Errors: as [`gather`].
pub fn gather_beside<G: Grower>(
    grower: &G,
    alloc: Global,
    images: usize,
    input: &[u8],
    old: &[u8],
    conn: Conn,
) -> Result<(Gathered, Blanks), RunError>
    ensures gathered { IfOk result (λ parts. IsGathered conn old.now input.now parts.0.mask parts.0.state) }
    ensures print { IfOk result (λ parts. parts.0.print ≡ print_of parts.0.mask) }
    ensures fits { IfOk result (λ parts.
        StateFits parts.0.mask.raster.width parts.0.mask.raster.height parts.0.state) }
    ensures refused { IfErr result (λ e. IsReadingFault e ⊎ KeptStops conn old.now input.now e) }
{
    let pixels = mask_pixels_in(input);
    let gather_all = || -> Result<Gathered, RunError>
        ensures { IfOk result (λ g. IsGathered conn old.entry.now input.entry.now g.mask g.state)
            × IfOk result (λ g. g.print ≡ print_of g.mask)
            × IfOk result (λ g. StateFits g.mask.raster.width g.mask.raster.height g.state)
            × IfErr result (λ e. IsReadingFault e ⊎ KeptStops conn old.entry.now input.entry.now e) }
    { gather(alloc, input, old, conn) };
    let (gathered, blanks) = Blanks::beside(grower, alloc, images, pixels, gather_all);
    Ok((gathered?, blanks))
}
