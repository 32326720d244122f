//! Rims of many tiles, taken over from an image by several threads.

ghost use Rattle.std.specs.Prelude.{◌≡◌, ◌+◌, ◌*◌, ◌<◌, ◌≤◌, length};
ghost use Rattle.grid_core.specs.Tiles.{count_of};
ghost use Rattle.tile_work.specs.TileSet.{Has};
ghost use Rattle.tiled_image.specs.Rims.{AreTaken, room_of};
ghost use Rattle.tiled_image.specs.OwnRims.{ArePartTaken, CanTakePart, IsEdgeTaken, IsOwnRimOf};

use super::{Edge, Rims, rank_of, strip_at};
use crate::copies::copy_cells;
use grid_core::{Grid, Rect, Tiling};
use std::marker::Sync;
use std::thread::{Threads, join_mut};
use tile_work::TileSet;

impl Rims {
    /// Takes over the rims of these tiles from the whole image, by up to so many threads, each of which takes those of
    /// tiles that stand one behind another. It costs about all tiles. It takes no memory.
    pub(crate) fn take_all<R: Threads + Sync>(
        &mut self,
        rt: &R,
        threads: usize,
        tiling: &Tiling,
        image: &Grid,
        tiles: &TileSet,
    )
        requires count { length self.old ≡ room_of tiling.now }
        requires tiles { length tiles.now ≡ count_of tiling.now }
        requires width { image.now.width ≡ tiling.now.width }
        requires height { image.now.height ≡ tiling.now.height }
        ensures { AreTaken (Has tiles.now) tiling.now image.now self.old self.new }
    {
        take_tiles(rt, threads, &mut self.values, tiling, image, tiles);
    }
}

// The same, where the values are those of all tiles.
fn take_tiles<R: Threads + Sync>(
    rt: &R,
    threads: usize,
    values: &mut [u16],
    tiling: &Tiling,
    image: &Grid,
    tiles: &TileSet,
)
    requires count { length values.old ≡ room_of tiling.now }
    requires tiles { length tiles.now ≡ count_of tiling.now }
    requires width { image.now.width ≡ tiling.now.width }
    requires height { image.now.height ≡ tiling.now.height }
    ensures { AreTaken (Has tiles.now) tiling.now image.now values.old values.new }
{
    // Beside other threads this one takes no rims: one that it has just made may have been put on its processor, and
    // begins there only when this one waits.
    let all = if threads < 2 {
        1
    } else {
        threads.saturating_add(1)
    };
    let count = tiling.count();
    take_part(rt, all, values, 0, count, tiling, image, tiles);
}

// Takes over the rims of those of `count` tiles from `first` on that are in the set, in so many threads, of which this
// one is the last and takes what the others leave: nothing, where there are others. The values are those of these tiles
// alone.
#[cycle(parts)]
fn take_part<R: Threads + Sync>(
    rt: &R,
    threads: usize,
    values: &mut [u16],
    first: usize,
    count: usize,
    tiling: &Tiling,
    image: &Grid,
    tiles: &TileSet,
)
    requires { CanTakePart tiling.now image.now (length tiles.now) first count (length values.old) }
    ensures { ArePartTaken (Has tiles.now) tiling.now image.now first count values.old values.new }
{
    if threads < 2 {
        take_each(values, first, count, tiling, image, tiles);
        return;
    }
    let part = count / (threads - 1);
    let room = 4 * tiling.side() as usize;
    let (here, behind) = values.split_at_mut(part * room);
    take_both(
        rt,
        threads - 1,
        here,
        behind,
        first,
        part,
        first + part,
        count - part,
        tiling,
        image,
        tiles,
    );
}

// Takes over the rims of `part` tiles from `first` on in a new thread and, beside it, of `rest` tiles from `next` on in
// so many threads.
#[cycle(parts)]
fn take_both<R: Threads + Sync>(
    rt: &R,
    threads: usize,
    here: &mut [u16],
    behind: &mut [u16],
    first: usize,
    part: usize,
    next: usize,
    rest: usize,
    tiling: &Tiling,
    image: &Grid,
    tiles: &TileSet,
)
    requires here { CanTakePart tiling.now image.now (length tiles.now) first part (length here.old) }
    requires behind { CanTakePart tiling.now image.now (length tiles.now) next rest (length behind.old) }
    ensures here { ArePartTaken (Has tiles.now) tiling.now image.now first part here.old here.new }
    ensures behind { ArePartTaken (Has tiles.now) tiling.now image.now next rest behind.old behind.new }
{
    join_mut(
        rt,
        &mut || -> ()
            requires { CanTakePart tiling.now image.now (length tiles.now) first part (length here.now) }
            ensures { ArePartTaken (Has tiles.entry.now) tiling.entry.now image.entry.now first part here.entry.now
                here.exit.now }
        { take_each(here, first, part, tiling, image, tiles) },
        &mut || -> ()
            requires { CanTakePart tiling.now image.now (length tiles.now) next rest (length behind.now) }
            ensures { ArePartTaken (Has tiles.entry.now) tiling.entry.now image.entry.now next rest behind.entry.now
                behind.exit.now }
        { take_part(rt, threads, behind, next, rest, tiling, image, tiles) },
    );
}

// The same in this thread, tile by tile.
fn take_each(
    values: &mut [u16],
    first: usize,
    count: usize,
    tiling: &Tiling,
    image: &Grid,
    tiles: &TileSet,
)
    requires { CanTakePart tiling.now image.now (length tiles.now) first count (length values.old) }
    ensures { ArePartTaken (Has tiles.now) tiling.now image.now first count values.old values.new }
{
    let room = 4 * tiling.side() as usize;
    for n in 0..count {
        if tiles.contains(first + n) {
            let start = n * room;
            let end = start + room;
            take_own(&mut values[start..end], tiling, first + n, image);
        }
    }
}

// Takes over the rim of a tile from the whole image. The values are its own alone.
fn take_own(own: &mut [u16], tiling: &Tiling, tile: usize, image: &Grid)
    requires count { length own.old ≡ 4 * tiling.now.side }
    requires tile { tile < count_of tiling.now }
    requires width { image.now.width ≡ tiling.now.width }
    requires height { image.now.height ≡ tiling.now.height }
    ensures { IsOwnRimOf tiling.now image.now tile own.new }
{
    // For its clause alone: how the image is cut into tiles.
    let _ = tiling.side();
    take_edge(own, tiling, tile, Edge::Top, image);
    take_edge(own, tiling, tile, Edge::Bottom, image);
    take_edge(own, tiling, tile, Edge::Left, image);
    take_edge(own, tiling, tile, Edge::Right, image);
}

// Takes over a row or a column of a tile from the whole image.
fn take_edge(own: &mut [u16], tiling: &Tiling, tile: usize, edge: Edge, image: &Grid)
    requires count { length own.old ≡ 4 * tiling.now.side }
    requires tile { tile < count_of tiling.now }
    requires width { image.now.width ≡ tiling.now.width }
    requires height { image.now.height ≡ tiling.now.height }
    ensures { IsEdgeTaken tiling.now image.now tile edge own.old own.new }
{
    let side = tiling.side() as usize;
    let strip = strip_at(edge, tiling.rect(tile));
    let whole = Rect {
        x: 0,
        y: 0,
        w: image.width(),
        h: image.height(),
    };
    let start = rank_of(edge) * side;
    let end = start + side;
    copy_cells(strip, image.cells(), whole, &mut own[start..end], strip);
}
