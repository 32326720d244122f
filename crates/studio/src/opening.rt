//! Studios that are opened.

ghost use Rattle.std.specs.Prelude.{◌≡◌, ◌≤◌, ◌↔◌, IsTrue, IfOk, IfErr, OnOk};
ghost use Rattle.studio.specs.declared.refused.OpenError.TheVariants as errors;
ghost use Rattle.studio.specs.Opening.{AreCounts, IsOpened, IsOver};

use crate::keeper::Keeper;
use crate::refused::{NotOpened, OpenError};
use crate::shots::Eye;
use core_dispatch::{Books, Dispatcher, OpenedBooks, Pen};
use raster_sweeps::Blanks;
use reset_core::Core;
use std::alloc::Global;
use std::sync::Wait;
use steal_pool::{Hand, Pool};

/// How many pushed jobs surely find a place.
const JOBS: usize = 4096;

/// How many pens, hands or eyes a studio has at most.
const MOST: usize = 16;

/// A keeper, with its pens, hands and eyes, which go their own ways. The keeper has to be ended, by
/// [`Keeper::close`] or [`Keeper::end`].
pub struct Studio {
    /// Who owns the core.
    pub keeper: Keeper,
    /// The pens. The keeper calls them by their index here.
    pub pens: Vec<Pen>,
    /// The hands. The keeper calls them by their index here.
    pub hands: Vec<Hand>,
    /// The eyes.
    pub eyes: Vec<Eye>,
}

impl Studio {
    /// A studio of the core, with so many pens, hands and eyes, 1 to 16 each. The first shot is of the core as it is.
    ///
    /// Errors: U1 where a count is none of 1 to 16, else U2 or U3, with the core handed back as it was.
    pub fn open<R: Wait>(
        rt: &R,
        alloc: Global,
        core: Core,
        pens: usize,
        hands: usize,
        eyes: usize,
    ) -> Result<Studio, NotOpened>
        ensures counts { IfErr result (λ e. (e.why ≡ errors.BadCounts) ↔ (AreCounts pens hands eyes → ⊥)) }
        ensures counted { OnOk result (AreCounts pens hands eyes) }
        ensures opened { IfOk result (IsOpened core pens hands eyes) }
        ensures returned { IfErr result (λ e. e.core ≡ core) }
    {
        Studio::open_over(rt, alloc, core, Blanks::none(alloc), pens, hands, eyes)
    }

    /// As [`open`](Studio::open). All shots share a copy of the mask, and the first has one of the image: they take
    /// memory of the blanks, where these have it for images of their size.
    ///
    /// Errors: as [`open`](Studio::open).
    pub fn open_over<R: Wait>(
        rt: &R,
        alloc: Global,
        core: Core,
        blanks: Blanks,
        pens: usize,
        hands: usize,
        eyes: usize,
    ) -> Result<Studio, NotOpened>
        ensures counts { IfErr result (λ e. (e.why ≡ errors.BadCounts) ↔ (AreCounts pens hands eyes → ⊥)) }
        ensures counted { OnOk result (AreCounts pens hands eyes) }
        ensures opened { IfOk result (IsOpened core pens hands eyes) }
        ensures returned { IfErr result (λ e. e.core ≡ core) }
    {
        if !are_counts(pens, hands, eyes) {
            return Err(NotOpened {
                core,
                why: OpenError::BadCounts,
            });
        }
        let opened = match Books::open(alloc, core, pens) {
            Ok(opened) => opened,
            Err((core, _)) => {
                return Err(NotOpened {
                    core,
                    why: OpenError::Memory,
                });
            }
        };
        let OpenedBooks { books, pens } = opened;
        match over_books(rt, alloc, books, blanks, hands, eyes) {
            Ok(over) => Ok(over.with_pens(pens)),
            Err((books, why)) => Err(NotOpened {
                core: books.into_parts().0,
                why,
            }),
        }
    }
}

// Whether each count is one of 1 to 16.
fn are_counts(pens: usize, hands: usize, eyes: usize) -> bool
    ensures { IsTrue result ↔ AreCounts pens hands eyes }
{
    1 <= pens && pens <= MOST && 1 <= hands && hands <= MOST && 1 <= eyes && eyes <= MOST
}

// A studio without its pens.
pub(crate) struct Over {
    keeper: Keeper,
    hands: Vec<Hand>,
    eyes: Vec<Eye>,
}

impl Over {
    // The studio of these and the pens.
    fn with_pens(self, pens: Vec<Pen>) -> Studio
        ensures { result ≡ record {
          keeper = self.keeper;
          pens = pens;
          hands = self.hands;
          eyes = self.eyes;
        } }
    {
        let Over {
            keeper,
            hands,
            eyes,
        } = self;
        Studio {
            keeper,
            pens,
            hands,
            eyes,
        }
    }
}

// A studio over books, without the pens.
//
// Errors: out of memory, or a place for an eye was refused, with the books handed back as they were.
fn over_books<R: Wait>(
    rt: &R,
    alloc: Global,
    books: Books,
    blanks: Blanks,
    hands: usize,
    eyes: usize,
) -> Result<Over, (Books, OpenError)>
    requires hands { (1 ≤ hands) × (hands ≤ 16) }
    requires eyes { (1 ≤ eyes) × (eyes ≤ 16) }
    ensures over { IfOk result (IsOver books hands eyes) }
    ensures returned { IfErr result (λ e. e.0 ≡ books) }
    ensures counts { IfErr result (λ e. e.1 ≡ errors.BadCounts → ⊥) }
{
    let Ok(pool) = Pool::open(alloc, hands, JOBS) else {
        return Err((books, OpenError::Memory));
    };
    let Pool { owner, hands } = pool;
    let dispatcher = Dispatcher::new(alloc, books, owner);
    let mut keeper = match Keeper::open(rt, alloc, dispatcher, blanks, eyes) {
        Ok(keeper) => keeper,
        Err(dispatcher) => return Err((dispatcher.into_books(), OpenError::Memory)),
    };
    match keeper.eyes(eyes) {
        Ok(eyes) => Ok(Over {
            keeper,
            hands,
            eyes,
        }),
        Err(why) => Err((keeper.into_books(rt), why)),
    }
}
