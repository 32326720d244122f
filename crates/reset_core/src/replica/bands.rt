//! Bands of rows of tiles: each is an image by itself, and is swept in a thread of its own.

ghost use Rattle.std.specs.Prelude.{◌≡◌, ◌+◌, ◌*◌, ◌<◌, ◌≤◌, ◌↔◌, length};
ghost use Rattle.grid_core.specs.Tiles.{columns_of, rows_of};
ghost use Rattle.reset_core.specs.Bands.{AreSomewhere, IsBandOf, IsInner, IsSomewhere};
ghost use Rattle.reset_core.specs.BandParts.{AreBandsSwept, AreReady, IsBandSwept, IsReady, strip_of, strips_of};

use super::in_place::sweep_one;
use border_queues::Inbox;
use border_queues::laws::edges_are_open;
use grid_core::{Conn, Tiling};
use raster_sweeps::Room;
use std::marker::Sync;
use std::sync::atomic::{AtomicBool, Ordering};
use std::thread::{Threads, join_mut};
use tile_work::{OpenBounds, TileSet, WorkTable};

/// Some rows of tiles, with what is left to do at them and what sweeping them takes.
#[derive(Drop)]
pub(super) struct Band {
    pub(super) conn: Conn,
    /// Its own tiling: row 0 is the band's first.
    pub(super) tiling: Tiling,
    pub(super) work: WorkTable,
    pub(super) bounds: OpenBounds,
    /// The tiles that were swept.
    pub(super) swept: TileSet,
    /// How many tiles were swept, each as often as it was, and at most how many may be.
    pub(super) jobs: u64,
    pub(super) limit: u64,
    /// How many are swept at least before the band ends because another one has nothing left.
    pub(super) least: u64,
    pub(super) room: Room,
    pub(super) told: Inbox,
}

impl Band {
    // Sweeps tiles until none is dirty of those that may be swept, so many were swept as it says, or another band has
    // nothing left. The flag says that one has.
    //
    // A tile whose hints go to another band is left: all tiles that touch a swept one stand in the band.
    fn sweep(
        &mut self,
        whole: &Tiling,
        above: u32,
        mask: &[u16],
        image: &mut [u16],
        is_near_end: &AtomicBool,
    )
        requires somewhere { IsSomewhere whole.now above (strip_of self.old mask.now image.old) }
        requires sized { length mask.now ≡ length image.old }
        requires ready { IsReady self.old }
        ensures { IsBandSwept whole.now above mask.now self.old image.old self.new image.new }
    {
        edges_are_open();
        let (first, end) = inner_tiles(whole, above, &self.tiling);
        while self.jobs < self.limit {
            if self.jobs >= self.least && is_near_end.load(Ordering::SeqCst) {
                return;
            }
            let Some(tile) = self.work.next_ready(first) else {
                is_near_end.store(true, Ordering::SeqCst);
                return;
            };
            if tile >= end {
                is_near_end.store(true, Ordering::SeqCst);
                return;
            }
            sweep_one(
                mask,
                image,
                &mut self.work,
                &mut self.bounds,
                &self.tiling,
                tile,
                self.conn,
                &mut self.room,
                &mut self.told,
            );
            self.swept.insert(tile);
            self.jobs += 1;
        }
    }

    // Whether a tile is dirty, one that may be swept or one that touches another band.
    fn is_dirty(&self) -> bool {
        self.work.next_ready(0).is_some()
    }

    // How many pixels the band has.
    fn cells(&self) -> usize
        ensures { result ≡ self.now.tiling.width * self.now.tiling.height }
    {
        self.tiling.width() as usize * self.tiling.height() as usize
    }
}

/// Sweeps bands that stand one below another, where `above` rows of tiles stand above the first: each band that has
/// dirty tiles in a thread of its own, where there are two of them or more. Mask and image are those of the bands
/// alone.
pub(super) fn sweep_bands<R: Threads + Sync>(
    rt: &R,
    whole: &Tiling,
    above: u32,
    mask: &[u16],
    image: &mut [u16],
    bands: &mut [Band],
)
    requires somewhere { AreSomewhere whole.now above (strips_of mask.now image.old bands.old) }
    requires sized { length mask.now ≡ length image.old }
    requires ready { AreReady bands.old }
    ensures { AreBandsSwept whole.now above mask.now image.old bands.old image.new bands.new }
{
    let in_threads = are_two_dirty(bands);
    let is_near_end = &AtomicBool::new(false);
    sweep_downwards(
        rt,
        whole,
        above,
        mask,
        image,
        bands,
        in_threads,
        is_near_end,
    );
}

// Whether two bands at least have dirty tiles.
fn are_two_dirty(bands: &[Band]) -> bool {
    let mut is_one = false;
    for band in bands {
        if band.is_dirty() {
            if is_one {
                return true;
            }
            is_one = true;
        }
    }
    false
}

// Sweeps the bands in this thread, or in threads those that have dirty tiles.
//
// This thread sweeps no such band beside others: one that it has just made may have been put on its processor, and
// begins there only when this one waits.
#[cycle(bands)]
fn sweep_downwards<R: Threads + Sync>(
    rt: &R,
    whole: &Tiling,
    above: u32,
    mask: &[u16],
    image: &mut [u16],
    bands: &mut [Band],
    in_threads: bool,
    is_near_end: &AtomicBool,
)
    requires somewhere { AreSomewhere whole.now above (strips_of mask.now image.old bands.old) }
    requires sized { length mask.now ≡ length image.old }
    requires ready { AreReady bands.old }
    ensures { AreBandsSwept whole.now above mask.now image.old bands.old image.new bands.new }
{
    let Some((band, rest)) = bands.split_first_mut() else {
        return;
    };
    let cells = band.cells();
    let below = above + rows_of(&band.tiling);
    let (mask_here, mask_below) = mask.split_at(cells);
    let (here, image_below) = image.split_at_mut(cells);
    if in_threads && band.is_dirty() {
        sweep_both(
            rt,
            whole,
            above,
            mask_here,
            here,
            band,
            below,
            mask_below,
            image_below,
            rest,
            is_near_end,
        );
        return;
    }
    band.sweep(whole, above, mask_here, here, is_near_end);
    sweep_downwards(
        rt,
        whole,
        below,
        mask_below,
        image_below,
        rest,
        in_threads,
        is_near_end,
    );
}

// Sweeps a band and, beside it, those below.
#[cycle(bands)]
fn sweep_both<R: Threads + Sync>(
    rt: &R,
    whole: &Tiling,
    above: u32,
    mask: &[u16],
    image: &mut [u16],
    band: &mut Band,
    below: u32,
    mask_below: &[u16],
    image_below: &mut [u16],
    rest: &mut [Band],
    is_near_end: &AtomicBool,
)
    requires here { IsSomewhere whole.now above (strip_of band.old mask.now image.old) }
    requires sized { length mask.now ≡ length image.old }
    requires ready { IsReady band.old }
    requires somewhere { AreSomewhere whole.now below (strips_of mask_below.now image_below.old rest.old) }
    requires sized_below { length mask_below.now ≡ length image_below.old }
    requires ready_below { AreReady rest.old }
    ensures here { IsBandSwept whole.now above mask.now band.old image.old band.new image.new }
    ensures below { AreBandsSwept whole.now below mask_below.now image_below.old rest.old image_below.new rest.new }
{
    join_mut(
        rt,
        &mut || -> ()
            requires { IsSomewhere whole.now above (strip_of band.now mask.now image.now)
                × (length mask.now ≡ length image.now) × IsReady band.now }
            ensures { IsBandSwept whole.entry.now above mask.entry.now band.entry.now image.entry.now band.exit.now
                image.exit.now }
        { band.sweep(whole, above, mask, image, is_near_end) },
        &mut || -> ()
            requires { AreSomewhere whole.now below (strips_of mask_below.now image_below.now rest.now)
                × (length mask_below.now ≡ length image_below.now) × AreReady rest.now }
            ensures { AreBandsSwept whole.entry.now below mask_below.entry.now image_below.entry.now rest.entry.now
                image_below.exit.now rest.exit.now }
        {
            sweep_downwards(
                rt,
                whole,
                below,
                mask_below,
                image_below,
                rest,
                true,
                is_near_end,
            )
        },
    );
}

// The first tile of a band that may be swept, and the first behind those: all tiles that touch one of them stand in the
// band. There are none where the band has one row of tiles, or two that both have others beyond.
fn inner_tiles(whole: &Tiling, above: u32, band: &Tiling) -> (usize, usize)
    requires { IsBandOf whole.now above band.now }
    ensures inner { (t : _) → ((result.0 ≤ t) × (t < result.1)) ↔ IsInner whole.now above band.now t }
{
    let columns = columns_of(band) as usize;
    let first = if above == 0 { 0 } else { columns };
    let below = above * whole.side() + band.height();
    let end = if below == whole.height() {
        band.count()
    } else {
        band.count() - columns
    };
    (first, end)
}

/// How many tiles stand side by side.
pub(super) fn columns_of(tiling: &Tiling) -> u32
    ensures { result ≡ columns_of tiling.now }
{
    tiling.width().div_ceil(tiling.side())
}

/// How many rows of tiles there are.
pub(super) fn rows_of(tiling: &Tiling) -> u32
    ensures { result ≡ rows_of tiling.now }
{
    tiling.height().div_ceil(tiling.side())
}
