//! The dispatcher.

ghost use Rattle.std.specs.Prelude.{◌≡◌, length};
ghost use Rattle.core_dispatch.specs.Books.{IsFaithful, ledger};
ghost use Rattle.core_dispatch.specs.Dispatching.{books_by, core_by, owner_by};

use crate::books::Books;
use crate::serials::Serials;
use std::alloc::Global;
use std::marker::Model;
use steal_pool::Owner;
use tiled_core::TiledCore;

mod closing;
mod jobs;
mod keeping;
mod reports;
mod turning;

/// Who keeps a core under running threads: it owns the books of the core, and the pool that its jobs go to.
///
/// As long as the serials of the jobs that were pushed rise, a report of one that is out is of the very job that the
/// core gave, so that nothing of it has to be compared with the core.
#[derive(Drop)]
pub struct Dispatcher {
    alloc: Global,
    books: Books,
    owner: Owner,
    // Of the jobs that were taken to be pushed.
    serials: Serials,
}

impl Model for Dispatcher {
    ghost use Rattle.std.specs.Prelude.{IsTrue};
    ghost use Rattle.steal_pool.specs.contracts.owner.Owner as pool;
    ghost use Rattle.core_dispatch.specs.contracts.books.Books as kept;
    ghost use Rattle.core_dispatch.specs.Dispatching.{Dispatcher as View, dispatcher_code};
    ghost use Rattle.core_dispatch.specs.Genuine.{AreGenuine};

    ghost Value = { View };

    ghost coded = { dispatcher_code kept.the_row.coded pool.the_row.coded };

    ghost view = { λ d. record { books = d.books; owner = d.owner } };

    ghost invariant = { λ d. IsTrue d.serials.rise → AreGenuine d.books.core d.serials.bound d.owner.pushed };
}

impl Dispatcher {
    /// A dispatcher over books, and the owner of a pool.
    pub fn new(alloc: Global, books: Books, owner: Owner) -> Dispatcher
        ensures books { books_by result ≡ books }
        ensures owner { owner_by result ≡ owner }
    {
        let serials = Serials::behind(&owner);
        Dispatcher {
            alloc,
            books,
            owner,
            serials,
        }
    }

    /// The books of the core.
    pub fn books(&self) -> &Books
        ensures { result.now ≡ books_by self.now }
    {
        &self.books
    }

    /// The core.
    pub fn core(&self) -> &TiledCore
        ensures value { result.now ≡ core_by self.now }
        ensures faithful { IsFaithful (ledger (books_by self.now)) }
    {
        self.books.core()
    }

    // How many pens there are.
    fn pens(&self) -> usize
        ensures { result ≡ length (books_by self.now).desks }
    {
        self.books.pens()
    }

    // How many hands there are.
    fn hands(&self) -> usize
        ensures { result ≡ length (owner_by self.now).collected }
    {
        self.owner.hands()
    }

    // How many tiles the core has.
    fn tiles(&self) -> usize
        ensures { result ≡ length (core_by self.now).tiles }
    {
        self.core().tiles()
    }

    /// The books of the core, without the rest.
    pub fn into_books(self) -> Books
        ensures { result ≡ books_by self }
    {
        let Dispatcher { books, .. } = self;
        books
    }
}
