#![tactic(auto)]
//! Whoever keeps a core under running threads: edits come in from pens, jobs go out to hands, and their reports come
//! back.
//!
//! A [`Pen`] is one writer's end of a ring of 64 places. It may stand in a thread of its own. The [`Books`] are the
//! keeper's: the core, the strokes that it had at opening, the other end of each pen's ring, and the list of the edits
//! that the core refused. A [`Dispatcher`] owns the books, and the pool that the core's jobs go to. One
//! [`turn`](Dispatcher::turn) takes at most one edit of each pen and one report of each hand, hands over each hint that
//! waits, and pushes the job of each tile that is dirty and not out ([`take_in`](Dispatcher::take_in) is a turn that
//! pushes none):
//!
//! ```text
//! let OpenedBooks { books, mut pens } = Books::open(alloc, core, 2)?;
//! let mut dispatcher = Dispatcher::new(alloc, books, owner);
//! pens[0].submit(delta)?;            // in whichever thread: the first 64 edits of a pen succeed
//! dispatcher.turn();                 // edits: 1, jobs: 1
//! hand.turn(&Open);                  // in whichever thread
//! dispatcher.turn();                 // results: 1, and the image has risen
//! ```
//!
//! At each moment the strokes of the core are those at opening, joined with each edit that was taken and not listed;
//! each edit that is listed is the pen's edit of its number, and the reason why it was refused stands for good. That is
//! `IsFaithful` in `specs/Books.antt`, which every book keeps. What a turn does to the core is a list of its events, so
//! it keeps all that each core keeps. A report that comes too late changes nothing: the core knows by generation and
//! serial which jobs are out.
//!
//! A pen knows its number among those of its books, and so does what is left of it once it has finished:
//! [`Pen::number`] and [`PenEnd::number`]. Then [`Dispatcher::take_rest`] takes all that the pens submitted and that
//! was not taken yet.
//!
//! No call waits for anybody; [`Books::settle_in_bands`] waits for the threads that it starts itself. Nothing is
//! promised of when an edit or a report is seen, while its pen has not finished.
//!
//! Read on in `specs/Books.antt`; in `specs/Pens.antt`, which says which pen belongs to which desk; in
//! `specs/Taking.antt`, which says what becomes of an edit; in `specs/Turns.antt`, which says what a turn does, in
//! `specs/Reports.antt` and `specs/Jobs.antt` for its parts; and in `specs/Closing.antt` for what is taken at the end.

mod books;
mod desk;
mod dispatcher;
mod error;
mod pen;
mod refusal;
mod serials;
mod taken;
mod turned;

pub use books::{Books, OpenedBooks};
pub use dispatcher::Dispatcher;
pub use error::CloseError;
pub use pen::{Full, Pen, PenEnd};
pub use refusal::Refusal;
pub use turned::Turned;
