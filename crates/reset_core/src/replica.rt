//! The core.

ghost use Rattle.std.specs.Prelude.{◌≡◌, ◌<◌, ◌≤◌, ◌↔◌, ◌≢◌, false, length, replicate, None, IfOk, IfErr, IsTrue};
ghost use Rattle.grid_core.specs.Raster.{IsFilled, IsInside, IsSized, value_at};
ghost use Rattle.grid_core.specs.Bounds.{no_bounds};
ghost use Rattle.grid_core.specs.Tiles.{IsTiled, IsTileSide, count_of};
ghost use Rattle.marker_tiles.specs.Kept.{IsMarkerOf};
ghost use Rattle.tile_generations.specs.Generations.{max_generation};
ghost use Rattle.core_rules.specs.declared.error.CoreError.TheVariants as errors;
ghost use Rattle.core_rules.specs.Work.{IsTile, IsQuiet, tiling, work_at};
ghost use Rattle.core_rules.specs.Invariant.{IsSound};
ghost use Rattle.core_rules.specs.Opening.{opened};
ghost use Rattle.border_queues.specs.TileWork.{fresh};
ghost use Rattle.reset_core.specs.Answers.{IsImageOf, IsNotOpened, IsOpened};
ghost use Rattle.reset_core.specs.Replica.{core_of, IsStored, at_first, begun, with_image};
ghost use Rattle.core_rules.specs.Runs.{ticket_out, HasHints};
ghost use Rattle.core_rules.specs.Sweeps.{IsReady};
ghost use Rattle.tile_work.specs.Least.{IsLeastFrom};
ghost use Rattle.tile_work.specs.WorkTable.{HasJobOut};

use core_rules::CoreError;
use grid_core::{Conn, Grid, Memory, Pixel, TILE_SIDE, Tiling, is_tile_side};
use marker_tiles::Markers;
use pgm_codec::Image;
use std::alloc::Global;
use std::marker::Model;
use stroke_lattice::{State, StateError};
use tile_generations::{Ticket, TileMasks};
use tile_work::{OpenBounds, TileSet, WorkTable};

mod bands;
mod cutting;
mod handing;
mod in_place;
mod judging;
mod merging;
mod scheduling;
mod settling;
mod settling_in_bands;
mod sharing;
mod starting;
mod stored;
mod sweeping;

pub use merging::renew;
pub use scheduling::Ran;
pub use settling::{Count, Slice};
pub use starting::begun_is_as_settled;
pub use stored::CoreParts;

/// A mask of which no core was opened.
#[derive(Debug, Drop)]
pub struct RefusedMask {
    /// Why.
    pub why: CoreError,
    /// The mask.
    pub mask: Grid,
}

/// One replica: a mask, the strokes on it, the image that grows from them, and the work that is left at each tile.
///
/// The image is cut into square tiles of one side, numbered row by row from 0.
#[derive(Drop)]
pub struct Core {
    conn: Conn,
    state: State,
    markers: Markers,
    image: Grid,
    work: WorkTable,
    // An open pair begins within the bounds of the tile of its first pixel, or a hint waits for it.
    bounds: OpenBounds,
    // The masks that jobs share.
    masks: TileMasks,
    serial: u64,
    // Both are empty but within a merge.
    marks: TileSet,
    queue: TileSet,
}

impl Model for Core {
    ghost use Rattle.stroke_core.specs.contracts.stroke.Stroke as stroke;
    ghost use Rattle.core_rules.specs.Work.{Core as Replica};
    ghost use Rattle.core_rules.specs.Stored.{core_code};
    ghost use Rattle.reset_core.specs.Replica.{core_of, IsStored};

    ghost Value = { Replica };

    ghost coded = { core_code stroke.the_row.coded };

    ghost view = { core_of };

    ghost invariant = { IsStored };
}

impl Core {
    /// A core of the image as its mask, with tiles of side 64.
    ///
    /// Errors: C4.
    pub fn open(alloc: Global, mask: &Image, conn: Conn) -> Result<Core, CoreError>
        ensures value { IfOk result (λ core. core ≡ opened mask.now.raster conn 64 0) }
        ensures memory { IfErr result (λ e. e ≡ errors.Memory) }
    {
        Core::open_at(alloc, mask, conn, 0)
    }

    /// A core of the image as its mask, with tiles of side 64, whose generations begin at `first`.
    ///
    /// Errors: C4.
    pub fn open_at(alloc: Global, mask: &Image, conn: Conn, first: u64) -> Result<Core, CoreError>
        requires { first ≤ max_generation }
        ensures value { IfOk result (λ core. core ≡ opened mask.now.raster conn 64 first) }
        ensures memory { IfErr result (λ e. e ≡ errors.Memory) }
    {
        Core::open_tiled(alloc, mask, conn, TILE_SIDE, first)
    }

    /// A core of the image as its mask, with tiles of this side, whose generations begin at `first`. The mask is
    /// copied.
    ///
    /// Errors: C5 where the side is less than 8 or more than 256, else C4.
    pub fn open_tiled(
        alloc: Global,
        mask: &Image,
        conn: Conn,
        side: u32,
        first: u64,
    ) -> Result<Core, CoreError>
        requires { first ≤ max_generation }
        ensures opened { IfOk result (IsOpened mask.now.raster conn side first) }
        ensures why { IfErr result (IsNotOpened side) }
    {
        if !is_tile_side(side) {
            return Err(CoreError::BadSide);
        }
        let mask = mask.grid().copy(alloc)?;
        match Core::over(alloc, mask, conn, side, first) {
            Ok(core) => Ok(core),
            Err(refused) => Err(refused.why),
        }
    }

    /// As [`open_tiled`](Core::open_tiled), with the mask taken over, without a copy.
    ///
    /// Errors: C5 where the side is less than 8 or more than 256, else C4, with the mask handed back.
    pub fn over(
        alloc: Global,
        mask: Grid,
        conn: Conn,
        side: u32,
        first: u64,
    ) -> Result<Core, RefusedMask>
        requires { first ≤ max_generation }
        ensures opened { IfOk result (IsOpened mask conn side first) }
        ensures refused { IfErr result (λ refused. IsNotOpened side refused.why × (refused.mask ≡ mask)) }
    {
        if !is_tile_side(side) {
            return Err(RefusedMask {
                mask,
                why: CoreError::BadSide,
            });
        }
        let tiling = tiling_of(&mask, side);
        let beginning = match Beginning::new(alloc, &mask, tiling.count(), first) {
            Ok(beginning) => beginning,
            Err(_) => {
                return Err(RefusedMask {
                    mask,
                    why: CoreError::Memory,
                });
            }
        };
        match Markers::over(alloc, mask, tiling) {
            Ok(markers) => Ok(beginning.with_markers(conn, markers)),
            Err((mask, _)) => {
                drop(beginning);
                Err(RefusedMask {
                    mask,
                    why: CoreError::Memory,
                })
            }
        }
    }

    /// Whether no work is left: no tile is dirty, no job is out, and no hint waits.
    pub fn is_quiet(&self) -> bool
        ensures { IsTrue result ↔ IsQuiet self.now }
    {
        self.work.is_quiet()
    }

    /// The image at a pixel.
    pub fn pixel(&self, p: Pixel) -> u16
        requires { IsInside self.now.mask.width self.now.mask.height p }
        ensures { result ≡ value_at self.now.image p }
    {
        self.image.get(p)
    }

    /// The strokes and tombstones.
    pub fn state(&self) -> &State
        ensures { result.now ≡ self.now.state }
    {
        &self.state
    }

    /// The number of tiles.
    pub fn tiles(&self) -> usize
        ensures { result ≡ length self.now.tiles }
    {
        self.work.len()
    }

    /// The generation of a tile, which each reset raises by 1.
    pub fn generation(&self, tile: usize) -> u64
        requires { IsTile self.now tile }
        ensures value { result ≡ (work_at self.now tile).generation }
        ensures bounded { result ≤ max_generation }
    {
        self.work.generation(tile)
    }

    /// Whether a tile is to be swept.
    pub fn is_dirty(&self, tile: usize) -> bool
        requires { IsTile self.now tile }
        ensures { result ≡ (work_at self.now tile).dirty }
    {
        self.work.is_dirty(tile)
    }

    /// Whether a job of the tile is out.
    pub fn is_out(&self, tile: usize) -> bool
        requires { IsTile self.now tile }
        ensures { IsTrue result ↔ ((work_at self.now tile).out ≢ None) }
    {
        self.work.out(tile).is_some()
    }

    /// The ticket of the job of the tile that is out, if one is.
    pub fn ticket_out(&self, tile: usize) -> Option<Ticket>
        requires { IsTile self.now tile }
        ensures { result ≡ ticket_out tile (work_at self.now tile) }
    {
        let serial = self.work.out(tile)?;
        Some(Ticket {
            tile,
            generation: self.work.generation(tile),
            serial,
        })
    }

    /// How many hints wait for the tile.
    pub fn waiting(&self, tile: usize) -> usize
        requires { IsTile self.now tile }
        ensures { result ≡ length (work_at self.now tile).inbox }
    {
        self.work.waiting(tile)
    }

    /// The least tile, from `from` on, that can be taken: it is dirty, and no job of it is out. None where there is no
    /// such tile from there on; `from` may be past the last tile.
    pub fn next_dirty(&self, from: usize) -> Option<usize>
        ensures { IsLeastFrom (IsReady self.now) from result }
    {
        self.work.next_ready(from)
    }

    /// The least tile, from `from` on, at which a hint waits. None where there is no such tile from there on; `from`
    /// may be past the last tile.
    pub fn next_waiting(&self, from: usize) -> Option<usize>
        ensures { IsLeastFrom (HasHints self.now) from result }
    {
        self.work.next_waiting(from)
    }

    /// The least tile, from `from` on, of which a job is out. None where there is no such tile from there on; `from`
    /// may be past the last tile.
    pub fn next_out(&self, from: usize) -> Option<usize>
        ensures { IsLeastFrom (HasJobOut self.now.tiles) from result }
    {
        self.work.next_out(from)
    }

    /// The image. At every moment it lies between the marker of the strokes and the reconstruction of the mask from it,
    /// and where no work is left it is that reconstruction.
    pub fn image(&self) -> &Grid
        ensures { IsImageOf self.now result.now }
    {
        &self.image
    }

    /// The marker of the strokes.
    pub fn marker(&self) -> &Markers
        ensures mask { result.now.mask ≡ self.now.mask }
        ensures tiling { result.now.tiling ≡ tiling self.now }
        ensures marks { IsMarkerOf self.now.mask self.now.state result.now.marker }
    {
        // For its clauses alone: the tiling is of the mask.
        let _ = self.markers.tiling();
        &self.markers
    }

    /// The mask.
    pub fn mask(&self) -> &Grid
        ensures value { result.now ≡ self.now.mask }
        ensures sized { IsSized self.now.mask }
    {
        self.markers.mask()
    }

    /// Which pixels are neighbours.
    pub fn conn(&self) -> Conn
        ensures { result ≡ self.now.conn }
    {
        self.conn
    }

    /// How the image is cut into tiles.
    pub fn tiling(&self) -> Tiling
        ensures value { result ≡ tiling self.now }
        ensures tiled { IsTiled (tiling self.now) }
        ensures count { length self.now.tiles ≡ count_of (tiling self.now) }
    {
        self.markers.tiling()
    }

    // Each core is sound. It does nothing.
    fn soundness(&self)
        ensures { IsSound self.now }
    {
        // A look at a field opens the core, so that what each core keeps is known.
        let _conn = self.conn;
    }

    /// The mask, the image and the strokes, without the rest. It takes no memory.
    pub fn into_parts(self) -> (Grid, Grid, State)
        ensures mask { result.0 ≡ self.mask }
        ensures image { result.1 ≡ self.image }
        ensures state { result.2 ≡ self.state }
    {
        let Core {
            markers,
            image,
            state,
            work,
            bounds,
            masks,
            marks,
            queue,
            ..
        } = self;
        drop(work);
        drop(bounds);
        drop(masks);
        drop(marks);
        drop(queue);
        let (mask, _) = markers.into_grids();
        (mask, image, state)
    }
}

// What a core begins with beside its markers.
#[derive(Drop)]
struct Beginning {
    state: State,
    image: Grid,
    work: WorkTable,
    bounds: OpenBounds,
    masks: TileMasks,
    marks: TileSet,
    queue: TileSet,
}

impl Beginning {
    // No strokes, an image of zeros of the mask's size, and so many tiles without work.
    fn new(alloc: Global, mask: &Grid, count: usize, first: u64) -> Result<Beginning, StateError>
        requires { first ≤ max_generation }
        ensures value { IfOk result (λ b. b ≡ at_first mask.now count first) }
        ensures filled { IsFilled mask.now }
    {
        let cells = vec![in alloc; 0; mask.cells().len()]?;
        let image = Grid::from_cells(mask.width(), mask.height(), cells);
        let state = State::empty(alloc)?;
        Ok(Beginning::with(alloc, state, image, count, first)?)
    }

    // These strokes, this image, and so many tiles without work.
    fn with(
        alloc: Global,
        state: State,
        image: Grid,
        count: usize,
        first: u64,
    ) -> Result<Beginning, Memory>
        requires { first ≤ max_generation }
        ensures { IfOk result (λ b. b ≡ with_image state image count first) }
    {
        match blank_tiles(alloc, count, first) {
            Ok((work, bounds, masks, marks, queue)) => Ok(Beginning {
                state,
                image,
                work,
                bounds,
                masks,
                marks,
                queue,
            }),
            Err(why) => {
                drop(state);
                drop(image);
                Err(why)
            }
        }
    }

    // The core that begins so.
    fn with_markers(self, conn: Conn, markers: Markers) -> Core
        requires { IsStored (begun self conn markers) }
        ensures { result ≡ core_of (begun self conn markers) }
    {
        let Beginning {
            state,
            image,
            work,
            bounds,
            masks,
            marks,
            queue,
        } = self;
        Core {
            conn,
            state,
            markers,
            image,
            work,
            bounds,
            masks,
            serial: 0,
            marks,
            queue,
        }
    }
}

// So many tiles at which no work is left, without bounds and masks, and two sets that hold none of them. What holds the
// most is made last, so that little is let go where memory is wanting.
fn blank_tiles(
    alloc: Global,
    count: usize,
    first: u64,
) -> Result<(WorkTable, OpenBounds, TileMasks, TileSet, TileSet), Memory>
    requires { first ≤ max_generation }
    ensures { IfOk result (λ made. made ≡ (
      replicate count (fresh first),
      replicate count no_bounds,
      replicate count None,
      replicate count false,
      replicate count false,
    )) }
{
    let bounds = OpenBounds::none(alloc, count)?;
    let masks = TileMasks::none(alloc, count)?;
    let marks = TileSet::empty(alloc, count)?;
    let queue = TileSet::empty(alloc, count)?;
    let work = WorkTable::new(alloc, count, first)?;
    Ok((work, bounds, masks, marks, queue))
}

// The tiles of this side of a mask.
fn tiling_of(mask: &Grid, side: u32) -> Tiling
    requires { IsTileSide side }
    ensures { result ≡ record { width = mask.now.width; height = mask.now.height; side = side } }
{
    match Tiling::new(mask.width(), mask.height(), side) {
        Ok(tiling) => tiling,
        Err(_) => unreachable!(),
    }
}
