//! Bands cut out of the tables of a core, and put back.

ghost use Rattle.std.specs.Prelude.{◌≡◌, ◌+◌, ◌^◌, ◌<◌, ◌≤◌, [], length, map, IfOk, OnOk};
ghost use Rattle.grid_core.specs.Tiles.{rows_of};
ghost use Rattle.tile_work.specs.Cutting.{in_whole, with_part};
ghost use Rattle.tile_work.specs.TileSet.{HasGained};
ghost use Rattle.reset_core.specs.Bands.{rows_above, tiles_above};
ghost use Rattle.reset_core.specs.BandParts.{AreBandsCut, IsBandCut, IsTilingOf, IsUntouched};
ghost use Rattle.reset_core.specs.PuttingBack.{AreFit, CanTake, IsFit, IsInBand, IsInBands};
ghost use Rattle.reset_core.specs.PuttingBack.{bounds_in, jobs_in, works_in};

use super::bands::{Band, columns_of, rows_of};
use super::in_place::inbox_for;
use grid_core::{Conn, Memory, Tiling};
use raster_sweeps::Room;
use std::alloc::Global;
use tile_work::{OpenBounds, TileSet, WorkTable};

/// Cuts bands out, from the first row of tiles on: a new one begins at each of these rows. A row that is not below the
/// one before, or is not there, is passed over. Each band may sweep so many tiles, and sweeps at least so many before
/// it ends because another one has nothing left.
///
/// Errors: out of memory.
pub(super) fn cut_bands(
    alloc: Global,
    tiling: &Tiling,
    conn: Conn,
    work: &WorkTable,
    bounds: &OpenBounds,
    cuts: &[u32],
    limit: u64,
    least: u64,
) -> Result<Vec<Band>, Memory>
    requires untouched { IsUntouched tiling.now work.now bounds.now }
    ensures cut { IfOk result (λ bands.
        AreBandsCut tiling.now conn limit work.now bounds.now 0 bands.items (rows_of tiling.now)) }
    ensures few { IfOk result (λ bands. length bands.items ≤ length cuts.now + 1) }
{
    let mut bands = Vec::with_capacity(alloc, cuts.len() + 1)?;
    match cut_into(
        &mut bands, alloc, tiling, conn, work, bounds, cuts, limit, least,
    ) {
        Ok(()) => Ok(bands),
        Err(why) => {
            drop(bands);
            Err(why)
        }
    }
}

// Cuts the bands out, and puts them into a list that was empty.
fn cut_into(
    bands: &mut Vec<Band>,
    alloc: Global,
    tiling: &Tiling,
    conn: Conn,
    work: &WorkTable,
    bounds: &OpenBounds,
    cuts: &[u32],
    limit: u64,
    least: u64,
) -> Result<(), Memory>
    requires untouched { IsUntouched tiling.now work.now bounds.now }
    requires empty { bands.old.items ≡ [] }
    ensures cut { OnOk result (AreBandsCut tiling.now conn limit work.now bounds.now 0 bands.new.items
        (rows_of tiling.now)) }
    ensures few { OnOk result (length bands.new.items ≤ length cuts.now + 1) }
{
    let rows = rows_of(tiling);
    let mut above = 0;
    for &below in cuts {
        if above < below && below < rows {
            let band = cut_band(
                alloc, tiling, conn, work, bounds, above, below, limit, least,
            )?;
            bands.push(band)?;
            above = below;
        }
    }
    let band = cut_band(alloc, tiling, conn, work, bounds, above, rows, limit, least)?;
    bands.push(band)?;
    Ok(())
}

// Cuts out the band of the rows of tiles from `above` on and before `below`. What holds the most is made last, so that
// little is let go where memory is wanting.
fn cut_band(
    alloc: Global,
    tiling: &Tiling,
    conn: Conn,
    work: &WorkTable,
    bounds: &OpenBounds,
    above: u32,
    below: u32,
    limit: u64,
    least: u64,
) -> Result<Band, Memory>
    requires untouched { IsUntouched tiling.now work.now bounds.now }
    requires some { above < below }
    requires within { below ≤ rows_of tiling.now }
    ensures cut { IfOk result (IsBandCut tiling.now conn limit work.now bounds.now above) }
    ensures rows { IfOk result (λ band. above + rows_of band.tiling ≡ below) }
{
    let top = above * tiling.side();
    let band = band_tiling(tiling, above, below);
    let first = above as usize * columns_of(tiling) as usize;
    let end = first + band.count();
    let bounds = bounds.cut(alloc, first, end, top)?;
    let told = inbox_for(alloc, &band)?;
    let swept = TileSet::empty(alloc, band.count())?;
    let room = Room::new(alloc, band.side() * band.side())?;
    let work = work.cut(alloc, first, end)?;
    Ok(Band {
        conn,
        tiling: band,
        work,
        bounds,
        swept,
        jobs: 0,
        limit,
        least,
        room,
        told,
    })
}

/// Puts bands that stand one below another, from the first row of tiles on down to the last, back into the tables, puts
/// the tiles that were swept in them into the set, and says how often tiles were swept.
pub(super) fn put_back(
    tiling: &Tiling,
    bands: &[Band],
    work: &mut WorkTable,
    bounds: &mut OpenBounds,
    swept: &mut TileSet,
) -> u64
    requires tables { CanTake tiling.now 0 work.old bounds.old swept.old }
    requires fit { AreFit tiling.now work.old 0 bands.now }
    requires few { jobs_in bands.now < 2 ^ 64 }
    ensures work { work.new ≡ works_in bands.now }
    ensures bounds { bounds.new ≡ bounds_in tiling.now 0 bands.now }
    ensures swept { HasGained swept.old (IsInBands tiling.now 0 bands.now) swept.new }
    ensures jobs { result ≡ jobs_in bands.now }
{
    let mut above = 0;
    let mut jobs = 0;
    for band in bands {
        put_band(tiling, above, band, work, bounds, swept);
        above += rows_of(&band.tiling);
        jobs += band.jobs;
    }
    jobs
}

// Puts back a band above which so many rows of tiles stand.
fn put_band(
    tiling: &Tiling,
    above: u32,
    band: &Band,
    work: &mut WorkTable,
    bounds: &mut OpenBounds,
    swept: &mut TileSet,
)
    requires tables { CanTake tiling.now above work.old bounds.old swept.old }
    requires fit { IsFit tiling.now work.old above band.now }
    ensures work { work.new ≡ with_part (tiles_above tiling.now above) band.now.work work.old }
    ensures bounds { bounds.new ≡ with_part (tiles_above tiling.now above)
        (map (in_whole (rows_above tiling.now above)) band.now.bounds) bounds.old }
    ensures swept { HasGained swept.old (IsInBand tiling.now above band.now) swept.new }
{
    let first = above as usize * columns_of(tiling) as usize;
    work.put_dirty(first, &band.work);
    bounds.put(first, above * tiling.side(), &band.bounds);
    swept.insert_from(first, &band.swept);
}

// The tiling of the rows of tiles from `above` on and before `below`.
fn band_tiling(tiling: &Tiling, above: u32, below: u32) -> Tiling
    requires some { above < below }
    requires within { below ≤ rows_of tiling.now }
    ensures { IsTilingOf tiling.now above below result }
{
    let top = above * tiling.side();
    let height = (below * tiling.side()).min(tiling.height()) - top;
    match Tiling::new(tiling.width(), height, tiling.side()) {
        Ok(band) => band,
        Err(_) => unreachable!(),
    }
}
