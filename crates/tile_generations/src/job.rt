//! Jobs.

ghost use Rattle.std.specs.Prelude.{◌≡◌, IfOk, IfErr};
ghost use Rattle.std.specs.Arc.{arc_value};
ghost use Rattle.grid_core.specs.Raster.{IsBelow, IsSized};
ghost use Rattle.tile_generations.specs.Bases.{raster_of};
ghost use Rattle.tile_generations.specs.Jobs.{AreBoundsOf, IsJob, IsSwept, all_of};

use crate::block::Block;
use crate::pixels::Base;
use crate::rim::Rim;
use crate::swept::Swept;
use crate::ticket::Ticket;
use grid_core::laws::cells_given_back;
use grid_core::{Bounds, Conn, Grid, Memory, Rect};
use raster_sweeps::steps::{Size, grow_rows_from_bounds};
use raster_sweeps::{Room, grow};
use std::alloc::Global;
use std::marker::Model;
use std::sync::Arc;

/// A tile to be swept: its ticket, the connectivity, and the tile's pixels and mask, each as an image by itself. The
/// pixels, which are called the base, are at most the mask. Both may be shared with others.
#[derive(Debug, Drop)]
pub struct Job {
    ticket: Ticket,
    conn: Conn,
    base: Base,
    mask: Arc<Grid>,
    // A pixel of the base that can raise a neighbour in the tile lies within them.
    bounds: Bounds,
    // What the sweep may write into.
    block: Option<Block>,
}

impl Model for Job {
    ghost use Rattle.std.specs.Arc.{arc_value};
    ghost use Rattle.tile_generations.specs.Jobs.{Job as Task, IsKeptJob};

    ghost Value = { Task };

    ghost use Rattle.tile_generations.specs.Bases.{raster_of};

    ghost view = { λ j. record {
      ticket = j.ticket;
      conn = j.conn;
      base = raster_of j.base;
      mask = arc_value j.mask;
    } };

    ghost invariant = { λ j. IsKeptJob (record {
      ticket = j.ticket;
      conn = j.conn;
      base = raster_of j.base;
      mask = arc_value j.mask;
    }) j.bounds };
}

impl Job {
    /// A job on a tile, whose mask may be shared with others. It takes no memory.
    pub fn new(ticket: Ticket, conn: Conn, base: Grid, mask: Arc<Grid>) -> Job
        requires { IsBelow base (arc_value mask) }
        ensures { result ≡ record { ticket = ticket; conn = conn; base = base; mask = arc_value mask } }
    {
        let bounds = Bounds::of(whole(&base));
        Job::bounded(ticket, conn, base, mask, bounds)
    }

    /// A job on a tile of which only pixels within the bounds can raise a neighbour in the tile: where it was grown
    /// before, and since then pixels within them have risen. They are counted from the tile's upper left corner. It
    /// takes no memory.
    pub fn bounded(ticket: Ticket, conn: Conn, base: Grid, mask: Arc<Grid>, bounds: Bounds) -> Job
        requires below { IsBelow base (arc_value mask) }
        requires bounds { AreBoundsOf
            (record { ticket = ticket; conn = conn; base = base; mask = arc_value mask }) bounds }
        ensures { result ≡ record { ticket = ticket; conn = conn; base = base; mask = arc_value mask } }
    {
        Job::of_base(ticket, conn, Base::Own(base), mask, bounds)
    }

    /// A job as [`bounded`](Job::bounded) makes it, on pixels that may be shared with others. It takes no memory.
    pub fn shared(
        ticket: Ticket,
        conn: Conn,
        base: Arc<Grid>,
        mask: Arc<Grid>,
        bounds: Bounds,
    ) -> Job
        requires below { IsBelow (arc_value base) (arc_value mask) }
        requires bounds { AreBoundsOf
            (record { ticket = ticket; conn = conn; base = arc_value base; mask = arc_value mask }) bounds }
        ensures { result ≡ record { ticket = ticket; conn = conn; base = arc_value base; mask = arc_value mask } }
    {
        Job::of_base(ticket, conn, Base::Shared(base), mask, bounds)
    }

    // A job on a tile, whoever owns its pixels.
    fn of_base(ticket: Ticket, conn: Conn, base: Base, mask: Arc<Grid>, bounds: Bounds) -> Job
        requires below { IsBelow (raster_of base) (arc_value mask) }
        requires bounds { AreBoundsOf
            (record { ticket = ticket; conn = conn; base = raster_of base; mask = arc_value mask }) bounds }
        ensures { result ≡ record { ticket = ticket; conn = conn; base = raster_of base; mask = arc_value mask } }
    {
        // For their clauses alone: base and mask have as many cells as their sides say.
        let _cells = base.grid().cells();
        let _limits = mask.cells();
        Job {
            ticket,
            conn,
            base,
            mask,
            bounds,
            block: None,
        }
    }

    /// The job, with memory for its sweep. It takes none.
    pub fn with_block(self, block: Block) -> Job
        ensures { result ≡ self }
    {
        Job {
            block: Some(block),
            ..self
        }
    }

    /// Which job it is.
    pub fn ticket(&self) -> Ticket
        ensures { result ≡ self.now.ticket }
    {
        self.ticket
    }

    /// Which pixels are neighbours.
    pub fn conn(&self) -> Conn
        ensures { result ≡ self.now.conn }
    {
        self.conn
    }

    /// The pixels of the tile when the job was taken.
    pub fn base(&self) -> &Grid
        ensures value { result.now ≡ self.now.base }
        ensures job { IsJob self.now }
    {
        self.base.grid()
    }

    /// The mask of the tile.
    pub fn mask(&self) -> &Grid
        ensures value { result.now ≡ self.now.mask }
        ensures job { IsJob self.now }
    {
        &self.mask
    }

    /// A copy.
    ///
    /// Errors: out of memory.
    pub(crate) fn copy(&self, alloc: Global) -> Result<Job, Memory>
        ensures { IfOk result (λ j. j ≡ self.now) }
    {
        let base = self.base().copy(alloc)?;
        let mask = Arc::try_clone(&self.mask)?;
        let bounds = self.bounds();
        Ok(Job::bounded(self.ticket(), self.conn(), base, mask, bounds))
    }

    /// Sweeps the tile: its pixels become the reconstruction of its mask from its base.
    ///
    /// Errors: out of memory, with the job handed back.
    pub fn sweep(self, alloc: Global) -> Result<Swept, (Job, Memory)>
        ensures job { IfOk result (λ swept. swept.job ≡ self) }
        ensures swept { IfOk result IsSwept }
        ensures returned { IfErr result (λ e. e.0 ≡ self) }
    {
        let mask = self.mask();
        let base = self.base();
        let conn = self.conn();
        match grow(alloc, mask, base, conn) {
            Ok(pixels) => Swept::new(alloc, self, pixels, None),
            Err(why) => Err((self, why)),
        }
    }

    /// Sweeps the tile as [`sweep`](Job::sweep) does, in a room that is used for one job after another. It looks at
    /// first only at pixels within the bounds, where the job has some. It takes memory for the pixels, which are then
    /// shared, and for their rim, and for nothing else, and for these only where the job has no block of its size that
    /// is nobody else's.
    ///
    /// Errors: out of memory, with the job handed back.
    pub fn sweep_in(mut self, alloc: Global, room: &mut Room) -> Result<Swept, (Job, Memory)>
        ensures job { IfOk result (λ swept. swept.job ≡ self) }
        ensures swept { IfOk result IsSwept }
        ensures returned { IfErr result (λ e. e.0 ≡ self) }
    {
        let (spare, rim) = self.take_block();
        match self.copy_of_base(alloc, spare) {
            Ok(mut pixels) => {
                self.raise(room, &mut pixels);
                Swept::new(alloc, self, pixels, rim)
            }
            Err(why) => Err((self, why)),
        }
    }

    /// The pixels that it began with, where these are shared with others. It takes no memory.
    pub(crate) fn into_shared(self) -> Option<Arc<Grid>> {
        let Job { base, .. } = self;
        match base {
            Base::Shared(pixels) => Some(pixels),
            Base::Own(_) => None,
        }
    }

    // Takes its memory out, if it has some: pixels that are nobody else's, and a rim.
    fn take_block(&mut self) -> (Option<Grid>, Option<Rim>)
        ensures { self.new ≡ self.old }
    {
        match self.block.take() {
            Some(block) => block.into_parts(),
            None => (None, None),
        }
    }

    // A copy of the base, in the spare image where there is one of its size.
    //
    // Errors: out of memory.
    fn copy_of_base(&self, alloc: Global, spare: Option<Grid>) -> Result<Grid, Memory>
        ensures { IfOk result (λ copy. copy ≡ self.now.base) }
    {
        let base = self.base();
        match spare {
            Some(mut copy) if copy.width() == base.width() && copy.height() == base.height() => {
                copy.assign(base);
                Ok(copy)
            }
            _ => base.copy(alloc),
        }
    }

    // Raises a copy of the base until it is what a sweep gives.
    fn raise(&self, room: &mut Room, pixels: &mut Grid)
        requires { pixels.old ≡ self.now.base }
        ensures { IsSwept (record { job = self.now; pixels = pixels.new }) }
    {
        cells_given_back();
        let mask = self.mask();
        let conn = self.conn();
        let bounds = self.bounds();
        let size = Size::of(pixels);
        let rect = whole(pixels);
        let limits = mask.cells();
        let cells = pixels.cells_mut();
        let _ = grow_rows_from_bounds(room, limits, cells, size, rect, conn, bounds);
    }

    // A pixel of the base that can raise a neighbour in the tile lies within them.
    fn bounds(&self) -> Bounds
        ensures { AreBoundsOf self.now result }
    {
        self.bounds
    }
}

/// All of an image, as a rectangle of it.
pub(crate) fn whole(image: &Grid) -> Rect
    ensures rect { result ≡ all_of image.now }
    ensures sized { IsSized image.now }
{
    Rect {
        x: 0,
        y: 0,
        w: image.width(),
        h: image.height(),
    }
}
