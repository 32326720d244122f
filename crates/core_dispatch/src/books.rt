//! The books of whoever keeps a core.

ghost use Rattle.std.specs.Prelude.{◌≡◌, ◌≤◌, ◌<◌, ◌+◌, ℕ, [], length, map, replicate, IfOk, IfErr, OnOk};
ghost use Rattle.core_dispatch.specs.Books.{IsFaithful, ledger};
ghost use Rattle.core_dispatch.specs.Pens.{submitted, HasItsDesk, AreRings};

use crate::desk::PenDesk;
use crate::pen::{Pen, RING};
use crate::refusal::Refusal;
use grid_core::Memory;
use reset_core::Core;
use rtrb::RingBuffer;
use std::alloc::Global;
use std::marker::Model;
use stroke_lattice::{Delta, State};
use tiled_core::TiledCore;

mod events;
mod handing;
mod resting;
mod showing;
mod taking;

/// The core, the strokes that it had at opening, the keeper's end of each pen's ring, and the edits that were refused.
///
/// Each book is faithful: the strokes of the core are those at opening, joined with each edit that was taken and is not
/// listed; and each edit that is listed is the pen's edit of its number, and is refused for a reason that stands still.
#[derive(Drop)]
pub struct Books {
    // In a box, so that whoever owns books moves and lets go a place, and not each field of a core.
    core: Box<TiledCore>,
    opening: State,
    desks: Vec<PenDesk>,
    refusals: Vec<Refusal>,
}

impl Model for Books {
    ghost use Rattle.std.specs.Box.{box_value};
    ghost use Rattle.tiled_core.specs.contracts.replica.TiledCore as replica;
    ghost use Rattle.stroke_lattice.specs.contracts.state.State as strokes;
    ghost use Rattle.core_dispatch.specs.contracts.desk.PenDesk as desk;
    ghost use Rattle.core_dispatch.specs.contracts.refusal.Refusal as refusal;
    ghost use Rattle.core_dispatch.specs.Books.{BooksView, IsFaithful, ledger, books_code};

    ghost Value = { BooksView };

    ghost coded = { books_code replica.the_row.coded strokes.the_row.coded desk.the_row.coded refusal.the_row.coded };

    ghost view = { λ b. record {
      core = box_value b.core;
      opening = b.opening;
      desks = b.desks.items;
      refusals = b.refusals.items;
    } };

    ghost invariant = { λ b. IsFaithful (ledger (record {
      core = box_value b.core;
      opening = b.opening;
      desks = b.desks.items;
      refusals = b.refusals.items;
    })) };
}

/// Books and the pens that belong to them, which go their own ways.
#[derive(Drop)]
pub struct OpenedBooks {
    /// The books.
    pub books: Books,
    /// The pens. The books call them by their index here, which is their number.
    pub pens: Vec<Pen>,
}

// Both ends of some rings, in the same order.
#[derive(Drop)]
struct Rings {
    desks: Vec<PenDesk>,
    pens: Vec<Pen>,
}

impl Books {
    /// Books over a core, with 1 to 16 pens that submitted nothing yet. Its image is cut into tiles from now on.
    ///
    /// Errors: out of memory, with the core handed back as it was.
    pub fn open(alloc: Global, core: Core, pens: usize) -> Result<OpenedBooks, (Core, Memory)>
        requires some { 1 ≤ pens }
        requires few { pens ≤ 16 }
        ensures core { IfOk result (λ o. o.books.core ≡ core) }
        ensures opening { IfOk result (λ o. o.books.opening ≡ core.state) }
        ensures refusals { IfOk result (λ o. o.books.refusals ≡ []) }
        ensures taken { IfOk result (λ o. (ledger o.books).taken ≡ replicate pens []) }
        ensures sent { IfOk result (λ o. map submitted o.pens.items ≡ replicate pens []) }
        ensures rings { IfOk result (λ o. (i : ℕ) → i < pens → HasItsDesk o.pens.items o.books.desks i) }
        ensures returned { IfErr result (λ e. e.0 ≡ core) }
    {
        let Rings { desks, pens } = match Rings::new(alloc, pens) {
            Ok(rings) => rings,
            Err(why) => return Err((core, why)),
        };
        let opening = match core.state().copy(alloc) {
            Ok(opening) => opening,
            Err(_) => return Err((core, Memory)),
        };
        let core = match TiledCore::over(alloc, core) {
            Ok(core) => core,
            Err(returned) => return Err(returned),
        };
        match Box::new(alloc, core) {
            Ok(core) => Ok(OpenedBooks {
                books: Books {
                    core,
                    opening,
                    desks,
                    refusals: Vec::new(alloc),
                },
                pens,
            }),
            Err(failed) => Err((failed.value.into_core(), Memory)),
        }
    }

    /// The core.
    pub fn core(&self) -> &TiledCore
        ensures value { result.now ≡ self.now.core }
        ensures faithful { IsFaithful (ledger self.now) }
    {
        &self.core
    }

    /// The edits that were taken and not merged, in the order in which they were taken.
    pub fn refusals(&self) -> &[Refusal]
        ensures { result.now ≡ self.now.refusals }
    {
        self.refusals.as_slice()
    }

    /// How many pens there are.
    pub(crate) fn pens(&self) -> usize
        ensures { result ≡ length self.now.desks }
    {
        self.desks.len()
    }

    /// The core, with its image in rows, and the list of refusals, without the rest. It takes no memory.
    pub fn into_parts(self) -> (Core, Vec<Refusal>)
        ensures core { result.0 ≡ self.core }
        ensures refusals { result.1.items ≡ self.refusals }
    {
        let Books { core, refusals, .. } = self;
        (Box::into_inner(core).into_core(), refusals)
    }
}

impl Rings {
    // So many rings into which nothing was sent.
    //
    // Errors: out of memory.
    fn new(alloc: Global, count: usize) -> Result<Rings, Memory>
        ensures { IfOk result (λ r. AreRings count r.desks.items r.pens.items) }
    {
        let mut rings = Rings {
            desks: Vec::new(alloc),
            pens: Vec::new(alloc),
        };
        for number in 0..count {
            rings.add(alloc, number)?;
        }
        Ok(rings)
    }

    // One ring more, for the pen of this number.
    //
    // Errors: out of memory.
    fn add(&mut self, alloc: Global, number: usize) -> Result<(), Memory>
        requires { AreRings number self.old.desks.items self.old.pens.items }
        ensures { OnOk result (AreRings (number + 1) self.new.desks.items self.new.pens.items) }
    {
        self.desks.reserve(1)?;
        self.pens.reserve(1)?;
        let (producer, consumer) = RingBuffer::<Delta>::new(alloc, RING)?;
        self.desks.push_reserved(PenDesk::new(consumer));
        self.pens.push_reserved(Pen::new(producer, number));
        Ok(())
    }
}
