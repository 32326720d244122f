//! Boards as they are opened: without strokes, or with those that a state file keeps.

ghost use Rattle.std.specs.Prelude.{◌≡◌, ◌⊎◌, [], false, replicate, IfOk, IfErr};
ghost use Rattle.grid_core.specs.Tiles.{IsTileSide};
ghost use Rattle.stroke_lattice.specs.State.{StateFits};
ghost use Rattle.view_session.specs.Kept.{print_of, OldIsRefused};
ghost use Rattle.run_faults.specs.RunError.{IsMemory};
ghost use Rattle.page_board.specs.Keeping.{KeepsBoard, HasAllIn};
ghost use Rattle.page_board.specs.Opening.{IsOpenedBoard, IsOpenedOver, IsNotOpened, IsNotOpenedOver};
ghost use Rattle.page_board.specs.Opening.{AreFirstNews, IsBegunBoard, IsKeptFor};

use super::PageBoard;
use crate::news::News;
use core_rules::CoreError;
use grid_core::{Conn, Memory, is_tile_side};
use pgm_codec::Image;
use raster_sweeps::{Blanks, Grower};
use reset_core::Core;
use run_faults::RunError;
use spd_codec::print_of;
use std::alloc::Global;
use stroke_lattice::State;
use tile_work::TileSet;
use view_session::gathering::Gathered;
use view_session::kept::frames_for;
use view_session::merging::merge_all;

impl PageBoard {
    /// The board of a mask without strokes, with tiles of this side. Its run is a number by which pages tell it from
    /// another board.
    ///
    /// Errors: C5 where the side is less than 8 or more than 256, else C4 or plain want of memory.
    pub fn open(
        alloc: Global,
        mask: Image,
        conn: Conn,
        side: u32,
        run: u64,
    ) -> Result<PageBoard, RunError>
        ensures opened { IfOk result (IsOpenedBoard mask conn side run) }
        ensures refused { IfErr result (IsNotOpened side) }
    {
        let maxval = mask.maxval();
        let print = print_of(&mask);
        let core = match Core::over(alloc, mask.into_grid(), conn, side, 0) {
            Ok(core) => core,
            Err(refused) => return Err(RunError::Core(refused.why)),
        };
        let tiles = core.tiling().count();
        let Ok((shown, marks)) = first_steps(alloc, tiles) else {
            drop(core);
            return Err(RunError::Memory);
        };
        Ok(PageBoard {
            core,
            maxval,
            print,
            run,
            version: 0,
            step: 1,
            shown,
            news: Vec::new(alloc),
            marks,
        })
    }

    /// The board of a mask with the strokes and tombstones that the bytes of a state file keep for it. A state file
    /// that is not there has no bytes. The image grows at once, by `grower`: it is the reconstruction of the mask from
    /// the strokes, and no work is left.
    ///
    /// The strokes count as one file that was taken, at step 1.
    ///
    /// Errors, the first that is met: C5 where the side is less than 8 or more than 256; M1 to M7 of the bytes; D1
    /// where a frame of them is for another mask or connectivity; C1 or C2 at the first frame whose delta those before
    /// it do not take. M8, C4 or plain want of memory.
    pub fn open_kept<G: Grower>(
        grower: &G,
        alloc: Global,
        mask: Image,
        conn: Conn,
        side: u32,
        run: u64,
        old: &[u8],
    ) -> Result<PageBoard, RunError>
        ensures opened { IfOk result (IsOpenedOver mask conn side run old.now) }
        ensures kept { IfOk result (λ board. KeepsBoard board old.now) }
        ensures has_all { IfOk result (λ board. HasAllIn board old.now) }
        ensures refused { IfErr result (IsNotOpenedOver mask conn side old.now) }
    {
        if !is_tile_side(side) {
            return Err(RunError::Core(CoreError::BadSide));
        }
        let (gathered, mut blanks) = kept_beside(grower, alloc, mask, conn, old)?;
        PageBoard::begun(grower, alloc, gathered, &mut blanks, conn, side, run)
    }

    // The board of a mask as it begins with a state, in memory of the blanks.
    //
    // Errors: C4 or plain want of memory.
    fn begun<G: Grower>(
        grower: &G,
        alloc: Global,
        gathered: Gathered,
        blanks: &mut Blanks,
        conn: Conn,
        side: u32,
        run: u64,
    ) -> Result<PageBoard, RunError>
        requires side { IsTileSide side }
        requires fits { StateFits gathered.mask.raster.width gathered.mask.raster.height gathered.state }
        requires print { gathered.print ≡ print_of gathered.mask }
        ensures begun { IfOk result (IsBegunBoard gathered.mask conn side run gathered.state) }
        ensures memory { IfErr result IsMemory }
    {
        let Gathered { mask, print, state } = gathered;
        let maxval = mask.maxval();
        let news = first_news(alloc, &state)?;
        let core = match Core::over_state(
            grower,
            alloc,
            mask.into_grid(),
            blanks,
            conn,
            side,
            0,
            &state,
        ) {
            Ok(core) => core,
            Err(refused) => return Err(RunError::Core(refused.why)),
        };
        let Ok((shown, marks)) = first_steps(alloc, core.tiles()) else {
            drop(core);
            return Err(RunError::Memory);
        };
        Ok(PageBoard {
            core,
            maxval,
            print,
            run,
            version: 1,
            step: 1,
            shown,
            news,
            marks,
        })
    }
}

// What `kept_for` gives, and memory for marker and image of a core over the mask, made meanwhile.
//
// Errors: as `kept_for`.
fn kept_beside<G: Grower>(
    grower: &G,
    alloc: Global,
    mask: Image,
    conn: Conn,
    old: &[u8],
) -> Result<(Gathered, Blanks), RunError>
    ensures mask { IfOk result (λ parts. parts.0.mask ≡ mask) }
    ensures print { IfOk result (λ parts. parts.0.print ≡ print_of mask) }
    ensures kept { IfOk result (λ parts. IsKeptFor mask conn old.now parts.0.state) }
    ensures fits { IfOk result (λ parts. StateFits mask.raster.width mask.raster.height parts.0.state) }
    ensures refused { IfErr result (λ e. IsMemory e ⊎ OldIsRefused conn old.now [] mask e) }
{
    let pixels = mask.samples().len();
    let gather_kept = || -> Result<Gathered, RunError>
        ensures { IfOk result (λ gathered. gathered.mask ≡ mask)
            × IfOk result (λ gathered. gathered.print ≡ print_of mask)
            × IfOk result (λ gathered. IsKeptFor mask conn old.entry.now gathered.state)
            × IfOk result (λ gathered. StateFits mask.raster.width mask.raster.height gathered.state)
            × IfErr result (λ e. IsMemory e ⊎ OldIsRefused conn old.entry.now [] mask e) }
    { kept_for(alloc, mask, conn, old) };
    let (gathered, blanks) = Blanks::beside(grower, alloc, 2, pixels, gather_kept);
    Ok((gathered?, blanks))
}

// A mask, its fingerprint, and the join of what the bytes of a state file keep for it.
//
// Errors: M1 to M7 of the bytes; D1 where a frame of them is for another mask or connectivity; C1 or C2 at the first
// frame whose delta those before it do not take. M8 or C4 for want of memory.
fn kept_for(alloc: Global, mask: Image, conn: Conn, old: &[u8]) -> Result<Gathered, RunError>
    ensures mask { IfOk result (λ gathered. gathered.mask ≡ mask) }
    ensures print { IfOk result (λ gathered. gathered.print ≡ print_of mask) }
    ensures kept { IfOk result (λ gathered. IsKeptFor mask conn old.now gathered.state) }
    ensures fits { IfOk result (λ gathered. StateFits mask.raster.width mask.raster.height gathered.state) }
    ensures refused { IfErr result (λ e. IsMemory e ⊎ OldIsRefused conn old.now [] mask e) }
{
    let print = print_of(&mask);
    let frames = frames_for(alloc, old, conn, &print)?;
    let state = merge_all(alloc, &frames, &[], mask.width(), mask.height())?;
    Ok(Gathered { mask, print, state })
}

// Step 1 for each of so many tiles, and the empty set of them.
fn first_steps(alloc: Global, tiles: usize) -> Result<(Vec<u64>, TileSet), Memory>
    ensures shown { IfOk result (λ both. both.0.items ≡ replicate tiles 1) }
    ensures marks { IfOk result (λ both. both.1 ≡ replicate tiles false) }
{
    let shown = vec![in alloc; 1; tiles]?;
    let marks = TileSet::empty(alloc, tiles)?;
    Ok((shown, marks))
}

// The news, at step 1, that each live stroke of a state came.
fn first_news(alloc: Global, state: &State) -> Result<Vec<News>, Memory>
    ensures { IfOk result (λ news. AreFirstNews state.now news.items) }
{
    let Ok(mut copy) = State::empty(alloc) else {
        return Err(Memory);
    };
    let change = copy.join(alloc, state)?;
    let mut news = Vec::new(alloc);
    news.push(News { step: 1, change })?;
    Ok(news)
}
