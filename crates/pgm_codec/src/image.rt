//! Greyscale images.
ghost use Rattle.std.specs.Prelude.{◌≡◌, ◌<◌, ◌↔◌, ◌⊎◌, Any, IfOk, IfErr, IsErrOf, IsOkUnless};
ghost use Rattle.pgm_codec.specs.declared.error.PgmError.TheVariants as errors;
ghost use Rattle.pgm_codec.specs.Graymap.{IsGraymap, BelowKeepsMaxval};

use crate::error::PgmError;
use crate::samples::is_any_above;
use grid_core::Grid;
use std::alloc::Global;
use std::marker::Model;

/// A greyscale image: `w * h` samples, row by row from the top, each row from the left. Sides are 1 to
/// [`grid_core::MAX_SIDE`], with at most [`grid_core::MAX_PIXELS`] pixels, `maxval` is 1 to 65535, and no
/// sample is above it. The samples are the cells of a grid.
#[derive(Debug, Drop)]
pub struct Image {
    grid: Grid,
    maxval: u16,
}

impl Model for Image {
    ghost use Rattle.pgm_codec.specs.Graymap.{Graymap, IsGraymap};

    ghost Value = { Graymap };

    ghost view = { λ i. record { raster = i.grid; maxval = i.maxval } };

    ghost invariant = { λ i. IsGraymap (record { raster = i.grid; maxval = i.maxval }) };
}

impl Image {
    /// The image whose samples are the grid's cells. It takes no memory, and reads no cell: where it is not
    /// known that no cell is above `maxval`, [`Image::from_grid`] is the test.
    pub fn over(grid: Grid, maxval: u16) -> Image
        requires { IsGraymap (record { raster = grid; maxval = maxval }) }
        ensures { result ≡ record { raster = grid; maxval = maxval } }
    {
        Image { grid, maxval }
    }

    /// The image of a grid's values. Its samples are the cells.
    ///
    /// Errors: P5 where `maxval` is 0, else P7 where a cell is above it, else P10.
    #[tactic(auto, using(crate::proofs::Maxval::some_above))]
    pub fn from_grid(alloc: Global, grid: &Grid, maxval: u16) -> Result<Image, PgmError>
        ensures value { IfOk result (λ image. image ≡ record { raster = grid.now; maxval = maxval }) }
        ensures bad_maxval { IsErrOf result errors.BadMaxval ↔ (maxval ≡ 0) }
        ensures above { IsErrOf result errors.SampleRange ↔ ((0 < maxval) × Any (λ c. maxval < c) grid.now.cells) }
        ensures others { IfErr result (λ e. (e ≡ errors.BadMaxval) ⊎ (e ≡ errors.SampleRange) ⊎ (e ≡ errors.Memory)) }
    {
        if maxval == 0 {
            return Err(PgmError::BadMaxval);
        }
        if is_any_above(grid.cells(), maxval) {
            return Err(PgmError::SampleRange);
        }
        let grid = grid.copy(alloc)?;
        Ok(Image { grid, maxval })
    }

    /// The grid of the image's samples, as another grid.
    ///
    /// Errors: P10.
    pub fn to_grid(&self, alloc: Global) -> Result<Grid, PgmError>
        ensures value { IfOk result (λ grid. grid ≡ self.now.raster) }
        ensures only_memory { IsOkUnless result errors.Memory }
    {
        Ok(self.grid.copy(alloc)?)
    }

    /// The grid of the image's samples, without the image. It takes no memory.
    pub fn into_grid(self) -> Grid
        ensures { result ≡ self.raster }
    {
        let Image { grid, .. } = self;
        grid
    }

    /// The grid of the image's samples.
    pub fn grid(&self) -> &Grid
        ensures value { result.now ≡ self.now.raster }
        ensures is_graymap { IsGraymap self.now }
    {
        &self.grid
    }

    /// The number of columns, at least 1.
    pub fn width(&self) -> u32
        ensures value { result ≡ self.now.raster.width }
        ensures is_graymap { IsGraymap self.now }
    {
        self.grid.width()
    }

    /// The number of rows, at least 1.
    pub fn height(&self) -> u32
        ensures value { result ≡ self.now.raster.height }
        ensures is_graymap { IsGraymap self.now }
    {
        self.grid.height()
    }

    /// The greatest sample that the image may have, 1 to 65535.
    pub fn maxval(&self) -> u16
        ensures value { result ≡ self.now.maxval }
        ensures is_graymap { IsGraymap self.now }
    {
        self.maxval
    }

    /// The samples, row by row from the top.
    pub fn samples(&self) -> &[u16]
        ensures value { result.now ≡ self.now.raster.cells }
        ensures is_graymap { IsGraymap self.now }
    {
        self.grid.cells()
    }
}

/// A grid that is nowhere above the samples of an image keeps the image's maxval, as [`Image::over`] asks.
pub fn below_keeps_maxval()
    ensures { BelowKeepsMaxval }
{}
