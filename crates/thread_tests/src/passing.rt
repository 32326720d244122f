//! Tiles that wait for those beside them, in one thread.

use crate::outcome::succeeded;
use crate::pictures::{Edit, Mask};
use core_dispatch::{Books, Dispatcher, OpenedBooks};
use grid_core::Conn;
use reset_core::Core;
use std::alloc::Global;
use std::test::Fail;
use steal_pool::{Hand, Open, Pool};
use tiled_core::TiledCore;

// A core of a row of tiles that are all dirty.
fn core_of_many_tiles(alloc: Global) -> Option<Core> {
    let mut core = Mask::ManyTiles.core(alloc, Conn::Four)?;
    if spreads(alloc, &mut core) {
        return Some(core);
    }
    drop(core);
    None
}

// Whether a stroke over all tiles is merged.
fn spreads(alloc: Global, core: &mut Core) -> bool {
    match Edit::Spread.delta(alloc) {
        Some(spread) => {
            let is_merged = succeeded(core.merge(alloc, &spread));
            drop(spread);
            is_merged
        }
        None => false,
    }
}

// Books over it, without their pen.
fn books_on_many_tiles(alloc: Global) -> Option<Books> {
    match Books::open(alloc, core_of_many_tiles(alloc)?, 1) {
        Ok(OpenedBooks { books, pens }) => {
            drop(pens);
            Some(books)
        }
        Err(refused) => {
            drop(refused);
            None
        }
    }
}

// A pool of one hand, with room for two jobs; and which of the tiles 1, 2 and 3 are out at the end.
fn play(alloc: Global) -> Option<[bool; 3]> {
    let books = books_on_many_tiles(alloc)?;
    let Ok(pool) = Pool::open(alloc, 1, 2) else {
        return None;
    };
    let Pool { owner, mut hands } = pool;
    let mut dispatcher = Dispatcher::new(alloc, books, owner);
    Some(plays(&mut dispatcher, &mut hands))
}

// The first two jobs fill the pool. Once the first is swept there is room for one more.
fn plays(dispatcher: &mut Dispatcher, hands: &mut Vec<Hand>) -> [bool; 3] {
    dispatcher.turn();
    if let Some(hand) = hands.first_mut() {
        hand.turn(&Open);
    }
    dispatcher.turn();
    let core = dispatcher.books().core();
    [is_out(core, 1), is_out(core, 2), is_out(core, 3)]
}

// Whether the core has such a tile, and a job of it is out.
fn is_out(core: &TiledCore, tile: usize) -> bool {
    tile < core.tiles() && core.is_out(tile)
}

// While the job of tile 1 is out, tile 2 is passed over, and tile 3 has its turn.
#[test]
fn a_tile_waits_while_a_job_beside_it_is_out(rt: HostRuntime) -> Result<(), Fail> {
    assert!(rt; play(rt.alloc()) == Some([true, false, true]));
    Ok(())
}
