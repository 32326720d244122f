#![tactic(auto)]
//! One replica's core: a mask, the strokes on it, the image that grows from them tile by tile, and the work that is
//! left at each tile.
//!
//! ```text
//! let mut core = Core::open(alloc, &mask, Conn::Four)?;
//! core.merge(alloc, &State::placed(alloc, Tag(1), stroke)?)?;
//! core.settle(alloc)?;                     // no work is left
//! core.image();                            // the reconstruction of the mask from the marker of the stroke
//! ```
//!
//! [`Core::settle`] works by itself until nothing is left to do, and [`Core::settle_in_bands`] shares the work among
//! threads. A keeper that gives work to others takes a job ([`Core::take`]), has it swept, gives the result back
//! ([`Core::give_back`]), late, twice or never, and hands over the hints that wait ([`Core::hand`]). A withdrawal
//! resets the tiles that the stroke's growth can have reached, and raises their generations, so that results and hints
//! from before are known.
//!
//! A core can begin with strokes ([`Core::over_state`]): its image is grown at once, and no work is left at it. It
//! shows what one shows that was opened, merged the strokes and settled ([`begun_is_as_settled`]). The memory for that
//! can be made while the mask is read ([`Blanks`](raster_sweeps::Blanks)).
//!
//! What a core is, what can happen to it and what each event answers is one table, in the crate `core_rules`, which the
//! contracts here cite; [`laws`] are that crate's.
//!
//! In the code, `replica` has the core, with a module below it for each kind of event, for cores that begin with
//! strokes, for settling, alone or in bands of rows of tiles, and for a list of events that is run and judged.
//! [`parts`] has pieces of an image. They stand on the crate `tile_work`: the work at each tile, which tiles a
//! withdrawal resets, and what a merge does to image and work.

pub mod parts;
mod replica;

pub use core_rules::{Back, CoreError, Handed, Step, laws};
pub use grid_core::TILE_SIDE;
pub use replica::{Core, CoreParts, Count, Ran, RefusedMask, Slice, begun_is_as_settled, renew};
pub use tile_work::TileSet;
