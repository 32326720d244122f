//! The keeper.

ghost use Rattle.std.specs.Prelude.{◌≡◌};
ghost use Rattle.std.specs.Arc.{arc_value};
ghost use Rattle.std.specs.Coded.{Coded-set, coded_bool, coded_option};
ghost use Rattle.std.proofs.Props.{props};
ghost use Rattle.grid_core.specs.Stored.{raster_code, conn_code};
ghost use Rattle.stroke_core.specs.contracts.stroke.Stroke as stroke;
ghost use Rattle.stroke_lattice.specs.Stored.{state_code};
ghost use Rattle.studio.specs.Words.{last_by};
ghost use Rattle.core_dispatch.specs.Dispatching.{core_by};
ghost use Rattle.studio.specs.Following.{Follows};

use crate::shots::Publisher;
use core_dispatch::{Dispatcher, Refusal};
use grid_core::Grid;
use std::alloc::Global;
use std::sync::Arc;
use tile_generations::Ticket;
use tiled_core::TiledCore;

mod closing;
mod mirroring;
mod settling;
mod showing;
mod turning;

/// Who keeps a core under running threads. It mostly stands in a thread of its own. End it by [`Keeper::close`] or
/// [`Keeper::end`].
pub struct Keeper {
    pub(crate) alloc: Global,
    pub(crate) dispatcher: Dispatcher,
    pub(crate) publisher: Publisher,
    // What all shots share.
    pub(crate) mask: Arc<Grid>,
    // Whether the strokes are those of the last shot, and whether the image is that of the last shot.
    pub(crate) has_state: bool,
    pub(crate) has_image: bool,
    ghost mask_is: { arc_value mask ≡ (core_by dispatcher).mask } by { Coded-set raster_code _ _ },
    ghost follows: { Follows (last_by publisher) (core_by dispatcher) has_state
        has_image } by { Prim.hlevel (
          props,
          Coded-set coded_bool,
          Coded-set raster_code,
          Coded-set conn_code,
          Coded-set (state_code stroke.the_row.coded),
          Coded-set (coded_option stroke.the_row.coded),
        ) },
}

impl Keeper {
    ghost use Rattle.std.specs.Prelude.{◌≡◌, length};
    ghost use Rattle.core_rules.specs.Sweeps.{IsAbandoned};
    ghost use Rattle.core_rules.specs.Runs.{IsRun, NoneOut, abandoned, tickets_out};
    ghost use Rattle.core_dispatch.specs.Books.{IsFaithful, KeepsRest, ledger};
    ghost use Rattle.studio.specs.Keeping.{core_of, books_of, owner_of, IsUntouched};

    /// The core.
    pub fn core(&self) -> &TiledCore
        ensures value { result.now ≡ core_of self.now }
        ensures faithful { IsFaithful (ledger (books_of self.now)) }
    {
        self.dispatcher.core()
    }

    /// The edits that were taken and not merged, in the order in which they were taken.
    pub fn refusals(&self) -> &[Refusal]
        ensures { result.now ≡ (books_of self.now).refusals }
    {
        self.dispatcher.books().refusals()
    }

    /// Abandons a job that is out: the tile is then not out, and dirty. It says whether the job was out. It takes no
    /// memory, and waits for nobody.
    pub fn abandon(&mut self, ticket: Ticket) -> bool
        ensures abandoned { IsAbandoned (core_of self.old) ticket result (core_of self.new) }
        ensures rest { KeepsRest (books_of self.old) (books_of self.new) }
        ensures owner { owner_of self.new ≡ owner_of self.old }
        ensures untouched { IsUntouched self.old self.new }
    {
        self.dispatcher.abandon(ticket)
    }

    /// Abandons each job that is out, tile by tile, and says how many there were. It takes no memory, and waits for
    /// nobody. A report of such a job changes nothing when it comes.
    pub fn recall(&mut self) -> u64
        ensures run { IsRun (core_of self.old) (abandoned (tickets_out 0 (core_of self.old).tiles)) (core_of self.new) }
        ensures count { result ≡ length (tickets_out 0 (core_of self.old).tiles) }
        ensures none_out { NoneOut (core_of self.new) }
        ensures rest { KeepsRest (books_of self.old) (books_of self.new) }
        ensures owner { owner_of self.new ≡ owner_of self.old }
        ensures untouched { IsUntouched self.old self.new }
    {
        self.dispatcher.recall()
    }
}
