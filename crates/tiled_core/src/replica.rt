//! A core whose image is kept in tiles.

ghost use Rattle.std.specs.Prelude.{◌≡◌, ◌≤◌, ◌↔◌, ◌≢◌, length, IfOk, IsTrue, None};
ghost use Rattle.std.specs.Arc.{arc_value};
ghost use Rattle.grid_core.specs.Raster.{IsInside, IsSized, value_at};
ghost use Rattle.grid_core.specs.Tiles.{IsTiled, count_of};
ghost use Rattle.marker_tiles.specs.Kept.{IsMarkerOf};
ghost use Rattle.tile_generations.specs.Generations.{max_generation};
ghost use Rattle.tile_work.specs.Least.{IsLeastFrom};
ghost use Rattle.tile_work.specs.WorkTable.{HasJobOut};
ghost use Rattle.core_rules.specs.Invariant.{IsSound};
ghost use Rattle.core_rules.specs.Runs.{HasHints, ticket_out};
ghost use Rattle.core_rules.specs.Sweeps.{IsReady};
ghost use Rattle.core_rules.specs.Work.{IsQuiet, IsTile, tiling, work_at};
ghost use Rattle.reset_core.specs.Answers.{IsImageOf};

use crate::beside::BesideJobs;
use crate::shared_states::SharedStates;
use grid_core::{Conn, Grid, Memory, Pixel, Tiling};
use marker_tiles::Markers;
use std::alloc::Global;
use std::marker::Model;
use std::sync::Arc;
use stroke_lattice::State;
use tile_generations::{Block, Ticket, TileMasks};
use tile_work::{OpenBounds, TileSet, WorkTable};
use tiled_image::{Rims, TiledImage};

mod abandoning;
mod converting;
mod cutting;
mod handing;
mod merging;
mod settling;
mod sweeping;

/// One replica, as [`Core`](reset_core::Core) is one, whose image is kept in tiles: a job that is taken shares its
/// tile, and a swept tile that is given back is put in, without a copy of either.
///
/// It is for who gives jobs to others, and settles in bands where much is left. It shows its image as a copy.
#[derive(Drop)]
pub struct TiledCore {
    conn: Conn,
    state: State,
    markers: Markers,
    image: TiledImage,
    work: WorkTable,
    // An open pair begins within the bounds of the tile of its first pixel, or a hint waits for it.
    bounds: OpenBounds,
    // The masks that jobs share.
    masks: TileMasks,
    serial: u64,
    // Both are empty but within a merge.
    marks: TileSet,
    queue: TileSet,
    // The tiles beside those of which a job is out.
    beside: BesideJobs,
    // Room for the pixels beside a tile, which is used for one tile after another.
    ring: Vec<u16>,
    // The rims of the mask's tiles, which never change.
    mask_rims: Rims,
    // Room for the mask beside a tile, as `ring` is for the image.
    limits: Vec<u16>,
    // The last copies of the strokes that were given out.
    states: SharedStates,
    // What is left of results that were joined, for the sweeps of jobs to come.
    blocks: Vec<Block>,
}

impl Model for TiledCore {
    ghost use Rattle.stroke_core.specs.contracts.stroke.Stroke as stroke;
    ghost use Rattle.core_rules.specs.Work.{Core as Replica};
    ghost use Rattle.core_rules.specs.Stored.{core_code};
    ghost use Rattle.tiled_core.specs.Stored.{core_of, IsStored};

    ghost Value = { Replica };

    ghost coded = { core_code stroke.the_row.coded };

    ghost view = { core_of };

    ghost invariant = { IsStored };
}

impl TiledCore {
    /// Whether no work is left: no tile is dirty, no job is out, and no hint waits.
    pub fn is_quiet(&self) -> bool
        ensures { IsTrue result ↔ IsQuiet self.now }
    {
        self.work.is_quiet()
    }

    /// The image at a pixel.
    pub fn pixel(&self, p: Pixel) -> u16
        requires { IsInside self.now.mask.width self.now.mask.height p }
        ensures { result ≡ value_at self.now.image p }
    {
        self.image.get(p)
    }

    /// The strokes and tombstones.
    pub fn state(&self) -> &State
        ensures { result.now ≡ self.now.state }
    {
        &self.state
    }

    /// The number of tiles.
    pub fn tiles(&self) -> usize
        ensures { result ≡ length self.now.tiles }
    {
        self.work.len()
    }

    /// The generation of a tile, which each reset raises by 1.
    pub fn generation(&self, tile: usize) -> u64
        requires { IsTile self.now tile }
        ensures value { result ≡ (work_at self.now tile).generation }
        ensures bounded { result ≤ max_generation }
    {
        self.work.generation(tile)
    }

    /// Whether a tile is to be swept.
    pub fn is_dirty(&self, tile: usize) -> bool
        requires { IsTile self.now tile }
        ensures { result ≡ (work_at self.now tile).dirty }
    {
        self.work.is_dirty(tile)
    }

    /// Whether a job of the tile is out.
    pub fn is_out(&self, tile: usize) -> bool
        requires { IsTile self.now tile }
        ensures { IsTrue result ↔ ((work_at self.now tile).out ≢ None) }
    {
        self.work.out(tile).is_some()
    }

    /// The ticket of the job of the tile that is out, if one is.
    pub fn ticket_out(&self, tile: usize) -> Option<Ticket>
        requires { IsTile self.now tile }
        ensures { result ≡ ticket_out tile (work_at self.now tile) }
    {
        let serial = self.work.out(tile)?;
        Some(Ticket {
            tile,
            generation: self.work.generation(tile),
            serial,
        })
    }

    /// How many hints wait for the tile.
    pub fn waiting(&self, tile: usize) -> usize
        requires { IsTile self.now tile }
        ensures { result ≡ length (work_at self.now tile).inbox }
    {
        self.work.waiting(tile)
    }

    /// The least tile, from `from` on, that can be taken: it is dirty, and no job of it is out. None where there is no
    /// such tile from there on; `from` may be past the last tile.
    pub fn next_dirty(&self, from: usize) -> Option<usize>
        ensures { IsLeastFrom (IsReady self.now) from result }
    {
        self.work.next_ready(from)
    }

    /// The least tile, from `from` on, at which a hint waits. None where there is no such tile from there on; `from`
    /// may be past the last tile.
    pub fn next_waiting(&self, from: usize) -> Option<usize>
        ensures { IsLeastFrom (HasHints self.now) from result }
    {
        self.work.next_waiting(from)
    }

    /// The least tile, from `from` on, of which a job is out. None where there is no such tile from there on; `from`
    /// may be past the last tile.
    pub fn next_out(&self, from: usize) -> Option<usize>
        ensures { IsLeastFrom (HasJobOut self.now.tiles) from result }
    {
        self.work.next_out(from)
    }

    /// A copy of the image. At every moment it lies between the marker of the strokes and the reconstruction of the
    /// mask from it, and where no work is left it is that reconstruction.
    ///
    /// Errors: out of memory.
    pub fn image(&self, alloc: Global) -> Result<Grid, Memory>
        ensures { IfOk result (IsImageOf self.now) }
    {
        self.image.copy(alloc)
    }

    /// Copies the image into one of the same width and height. It takes no memory.
    pub fn copy_into(&self, image: &mut Grid)
        requires width { image.old.width ≡ self.now.image.width }
        requires height { image.old.height ≡ self.now.image.height }
        ensures { image.new ≡ self.now.image }
    {
        self.image.copy_into(image);
    }

    /// A copy of the image, to be shared. Where nobody else holds the oldest of the last three of these copies any
    /// more, only the tiles that changed since it was made are copied into it. Else the whole image is copied, into the
    /// spare one where that is there and of the image's size.
    ///
    /// Errors: out of memory.
    pub fn shared_image(&mut self, alloc: Global, spare: Option<Grid>) -> Result<Arc<Grid>, Memory>
        ensures image { IfOk result (λ copy. arc_value copy ≡ self.old.image) }
        ensures same { self.new ≡ self.old }
    {
        self.image.shared_copy(alloc, spare)
    }

    /// A copy of the strokes, to be shared. Where nobody else holds the oldest of the last three of these copies any
    /// more, it is brought up to date by what was merged since it was made. Else all are copied.
    ///
    /// Errors: out of memory.
    pub fn shared_state(&mut self, alloc: Global) -> Result<Arc<State>, Memory>
        ensures state { IfOk result (λ copy. arc_value copy ≡ self.old.state) }
        ensures same { self.new ≡ self.old }
    {
        self.states.next(alloc, &self.state)
    }

    /// The image lies between the marker of the strokes and the reconstruction of the mask from it, and where no work
    /// is left it is that reconstruction. It does nothing.
    pub fn image_is_lawful(&self)
        ensures { IsImageOf self.now self.now.image }
    {
        // A look at a field opens the core, so that what each core keeps is known.
        let _conn = self.conn;
    }

    /// The core is sound: its image is supported by the strokes, the hints that wait are valid, and each pair of
    /// neighbours that is still open has work. It does nothing.
    pub fn is_sound(&self)
        ensures { IsSound self.now }
    {
        // A look at a field opens the core, so that what each core keeps is known.
        let _conn = self.conn;
    }

    /// The marker of the strokes.
    pub fn marker(&self) -> &Markers
        ensures mask { result.now.mask ≡ self.now.mask }
        ensures tiling { result.now.tiling ≡ tiling self.now }
        ensures marks { IsMarkerOf self.now.mask self.now.state result.now.marker }
    {
        // For its clauses alone: the tiling is of the mask.
        let _ = self.markers.tiling();
        &self.markers
    }

    /// The mask.
    pub fn mask(&self) -> &Grid
        ensures value { result.now ≡ self.now.mask }
        ensures sized { IsSized self.now.mask }
    {
        self.markers.mask()
    }

    /// Which pixels are neighbours.
    pub fn conn(&self) -> Conn
        ensures { result ≡ self.now.conn }
    {
        self.conn
    }

    /// How the image is cut into tiles.
    pub fn tiling(&self) -> Tiling
        ensures value { result ≡ tiling self.now }
        ensures tiled { IsTiled (tiling self.now) }
        ensures count { length self.now.tiles ≡ count_of (tiling self.now) }
    {
        self.markers.tiling()
    }
}
