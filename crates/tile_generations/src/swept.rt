//! Swept tiles.

ghost use Rattle.std.specs.Prelude.{◌≡◌, IfOk, IfErr};
ghost use Rattle.std.specs.Arc.{arc_value};
ghost use Rattle.tile_generations.specs.Jobs.{IsSwept};
ghost use Rattle.tile_generations.specs.Rims.{IsRimOf};

use crate::block::Block;
use crate::job::Job;
use crate::rim::Rim;
use crate::ticket::Ticket;
use grid_core::{Conn, Grid, Memory};
use std::alloc::Global;
use std::marker::Model;
use std::sync::Arc;

/// A job that was done, and the pixels that it gave: the reconstruction of the job's mask from its base, the tile taken
/// as an image by itself. They may be shared with others. Their rim stands apart.
#[derive(Debug, Drop)]
pub struct Swept {
    job: Job,
    pixels: Arc<Grid>,
    rim: Rim,
}

impl Model for Swept {
    ghost use Rattle.std.specs.Arc.{arc_value};
    ghost use Rattle.tile_generations.specs.Jobs.{Swept as Result, IsKeptSwept};

    ghost Value = { Result };

    ghost view = { λ s. record { job = s.job; pixels = arc_value s.pixels } };

    ghost invariant = { λ s. IsKeptSwept (record { job = s.job; pixels = arc_value s.pixels }) s.rim };
}

impl Swept {
    /// The job with the pixels that its sweep gave, and their rim, in the memory of a spare one, where there is one.
    ///
    /// Errors: out of memory, with the job handed back.
    pub(crate) fn new(
        alloc: Global,
        job: Job,
        pixels: Grid,
        spare: Option<Rim>,
    ) -> Result<Swept, (Job, Memory)>
        requires { IsSwept (record { job = job; pixels = pixels }) }
        ensures job { IfOk result (λ swept. swept.job ≡ job) }
        ensures swept { IfOk result IsSwept }
        ensures returned { IfErr result (λ e. e.0 ≡ job) }
    {
        let Ok(rim) = Rim::over(alloc, spare, &pixels) else {
            return Err((job, Memory));
        };
        match Arc::new(alloc, pixels) {
            Ok(pixels) => Ok(Swept { job, pixels, rim }),
            Err(_) => Err((job, Memory)),
        }
    }

    /// Which job it was.
    pub fn ticket(&self) -> Ticket
        ensures { result ≡ self.now.job.ticket }
    {
        self.job.ticket()
    }

    /// Which pixels are neighbours.
    pub fn conn(&self) -> Conn
        ensures { result ≡ self.now.job.conn }
    {
        self.job.conn()
    }

    /// The pixels of the tile when the job was taken.
    pub fn base(&self) -> &Grid
        ensures { result.now ≡ self.now.job.base }
    {
        self.job.base()
    }

    /// The mask of the tile.
    pub fn mask(&self) -> &Grid
        ensures { result.now ≡ self.now.job.mask }
    {
        self.job.mask()
    }

    /// What the sweep gave.
    pub fn pixels(&self) -> &Grid
        ensures value { result.now ≡ self.now.pixels }
        ensures swept { IsSwept self.now }
    {
        &self.pixels
    }

    /// The rim of what the sweep gave. Who looks at the border alone need not look at the pixels.
    pub fn rim(&self) -> &Rim
        ensures { IsRimOf self.now.pixels result.now }
    {
        &self.rim
    }

    /// What the sweep gave, to be shared: the pixels have an owner more, and are not copied.
    ///
    /// Errors: out of memory.
    pub fn shared_pixels(&self) -> Result<Arc<Grid>, Memory>
        ensures { IfOk result (λ shared. arc_value shared ≡ self.now.pixels) }
    {
        Ok(Arc::try_clone(&self.pixels)?)
    }

    /// What is left of it once it was given back, for a sweep to come: its rim, and the pixels of its job, where these
    /// were shared. None where they were not. It takes no memory.
    pub fn into_block(self) -> Option<Block> {
        let Swept { job, rim, .. } = self;
        let pixels = job.into_shared()?;
        Some(Block { pixels, rim })
    }

    /// A copy, which shares what the sweep gave.
    ///
    /// Errors: out of memory.
    pub fn copy(&self, alloc: Global) -> Result<Swept, Memory>
        ensures { IfOk result (λ s. s ≡ self.now) }
    {
        let pixels = Arc::try_clone(&self.pixels)?;
        let job = self.job().copy(alloc)?;
        let rim = self.rim.copy(alloc)?;
        Ok(Swept { job, pixels, rim })
    }

    // The job.
    fn job(&self) -> &Job
        ensures { result.now ≡ self.now.job }
    {
        &self.job
    }
}
