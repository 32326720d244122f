//! A mask, and its marker kept up to date.

ghost use Rattle.std.specs.Prelude.{◌≡◌, ◌<◌, IfOk, IfErr, MatchResult};
ghost use Rattle.grid_core.specs.Raster.{IsInside, IsSized, IsBelow, value_at};
ghost use Rattle.grid_core.specs.Rects.{IsPart};
ghost use Rattle.grid_core.specs.Tiles.{count_of, rect_of};
ghost use Rattle.stroke_lattice.specs.State.{StateFits};
ghost use Rattle.marker_tiles.specs.Kept.{HasGrown, AreFresh, AreRenewed};
ghost use Rattle.marker_tiles.specs.UnderTags.{IsBlankOn};
ghost use Rattle.marker_tiles.specs.declared.error.MarkersError.TheVariants as errors;

use crate::error::MarkersError;
use crate::from_state::blank;
use crate::renew::renew;
use grid_core::{Grid, Pixel, Tiling};
use std::alloc::Global;
use std::marker::Model;
use stroke_lattice::{Change, State, contents_of_nothing};

/// The marker of a mask and a state, kept up to date while the state changes.
///
/// It holds the mask and the marker, each of `w * h` cells, and how both are cut into tiles. At first the marker
/// is that of the state without strokes, 0 everywhere. After each change of the state it takes one
/// [`apply`](Markers::apply).
#[derive(Debug, Drop)]
pub struct Markers {
    mask: Grid,
    marker: Grid,
    tiling: Tiling,
}

impl Model for Markers {
    ghost use Rattle.marker_tiles.specs.Kept.{Kept};
    ghost use Rattle.marker_tiles.specs.InOrder.{IsInOrder};

    ghost Value = { Kept };

    ghost view = { λ m. record { mask = m.mask; marker = m.marker; tiling = m.tiling } };

    ghost invariant = { λ m. IsInOrder (record { mask = m.mask; marker = m.marker; tiling = m.tiling }) };
}

impl Markers {
    /// The marker of a mask and the state without strokes. The mask is copied.
    ///
    /// Errors: K1.
    pub fn new(alloc: Global, mask: &Grid, tiling: &Tiling) -> Result<Markers, MarkersError>
        requires width { tiling.now.width ≡ mask.now.width }
        requires height { tiling.now.height ≡ mask.now.height }
        ensures { MatchResult result (AreFresh mask.now tiling.now) (λ e. e ≡ errors.Memory) }
    {
        let mask = mask.copy(alloc)?;
        match Markers::over(alloc, mask, *tiling) {
            Ok(markers) => Ok(markers),
            Err((_, why)) => Err(why),
        }
    }

    /// The marker of a mask and the state without strokes. The mask is taken over, without a copy.
    ///
    /// Errors: K1, with the mask handed back.
    pub fn over(alloc: Global, mask: Grid, tiling: Tiling) -> Result<Markers, (Grid, MarkersError)>
        requires width { tiling.width ≡ mask.width }
        requires height { tiling.height ≡ mask.height }
        ensures { MatchResult result (AreFresh mask tiling) (λ e. (e.0 ≡ mask) × (e.1 ≡ errors.Memory)) }
    {
        match blank(alloc, &mask) {
            Ok(blank) => Ok(Markers::over_blank(mask, blank, tiling)),
            Err(e) => Err((mask, e.into())),
        }
    }

    /// The marker of a mask and the state without strokes, in the memory of an image of zeros of the mask's size. Both
    /// are taken over, without a copy. It takes no memory.
    pub fn over_blank(mask: Grid, blank: Grid, tiling: Tiling) -> Markers
        requires blank { IsBlankOn mask blank }
        requires width { tiling.width ≡ mask.width }
        requires height { tiling.height ≡ mask.height }
        ensures { AreFresh mask tiling result }
    {
        contents_of_nothing();
        // For its clause alone: the mask has as many cells as its sides say.
        let _cells = mask.cells();
        Markers {
            mask,
            marker: blank,
            tiling,
        }
    }

    /// Makes the marker that of the state after a change. It takes no memory.
    ///
    /// The state is the one after the change, and each of its strokes, live or not, has to fit the mask. The
    /// marker has to be that of the state before, which only grew: each stroke and each tombstone of it still
    /// stands. Both hold of a state that is merged into, and of the change that
    /// [`merge`](stroke_lattice::State::merge) answers.
    ///
    /// It looks at the pixels of the strokes that were born or died, and, where a stroke died, at those of each live
    /// stroke within windows round the dead ones: one round each, or one round all where more than 16 died. Where 256
    /// or more were born, blocks of the image that single discs cover whole are painted once, and not for each disc.
    pub fn apply(&mut self, state: &State, change: &Change)
        requires fits { StateFits self.old.mask.width self.old.mask.height state.now }
        requires known { HasGrown self.old.mask self.old.marker state.now change.now }
        ensures { AreRenewed state.now self.old self.new }
    {
        renew(
            &mut self.marker,
            &self.mask,
            state,
            change.born(),
            change.dead(),
        );
    }

    /// The marker at a pixel.
    pub fn at(&self, p: Pixel) -> u16
        requires { IsInside self.now.mask.width self.now.mask.height p }
        ensures { result ≡ value_at self.now.marker p }
    {
        self.marker.get(p)
    }

    /// The marker on a tile, as an image of the tile's width and height.
    ///
    /// Errors: K1.
    pub fn tile(&self, alloc: Global, tile: usize) -> Result<Grid, MarkersError>
        requires { tile < count_of self.now.tiling }
        ensures part { IfOk result (IsPart (rect_of self.now.tiling tile) self.now.marker) }
        ensures memory { IfErr result (λ e. e ≡ errors.Memory) }
    {
        Ok(self.marker.cut(alloc, self.tiling.rect(tile))?)
    }

    /// The marker.
    pub fn marker(&self) -> &Grid
        ensures value { result.now ≡ self.now.marker }
        ensures below { IsBelow self.now.marker self.now.mask }
        ensures sized { IsSized self.now.marker }
    {
        &self.marker
    }

    /// The mask.
    pub fn mask(&self) -> &Grid
        ensures value { result.now ≡ self.now.mask }
        ensures sized { IsSized self.now.mask }
    {
        &self.mask
    }

    /// How mask and marker are cut into tiles.
    pub fn tiling(&self) -> Tiling
        ensures value { result ≡ self.now.tiling }
        ensures width { self.now.tiling.width ≡ self.now.mask.width }
        ensures height { self.now.tiling.height ≡ self.now.mask.height }
    {
        self.tiling
    }

    /// The mask and the marker, without the tiles. It takes no memory.
    pub fn into_grids(self) -> (Grid, Grid)
        ensures mask { result.0 ≡ self.mask }
        ensures marker { result.1 ≡ self.marker }
    {
        let Markers { mask, marker, .. } = self;
        (mask, marker)
    }
}
