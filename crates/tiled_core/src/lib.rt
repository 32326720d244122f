#![tactic(auto)]
//! A core whose image is kept in tiles, which are lent and put in without a copy.
//!
//! A [`TiledCore`] is one replica, as a `Core` of `reset_core` is, over an image of `tiled_image`: the same core as far
//! as contracts see, for keepers that give jobs to others. It is made of a `Core`, and is one again in the end:
//!
//! ```text
//! let mut tiled = TiledCore::over(alloc, core)?;        // each tile is cut out of mask and image
//! let job = tiled.take(alloc, tile)?;                   // it shares the tile's pixels and mask
//! tiled.give_back(alloc, swept)?;                       // what the job grew them to is put in
//! tiled.shared_image(alloc, None)?;                     // a copy that others hold while the core goes on
//! tiled.into_core();                                    // with its image in rows
//! ```
//!
//! Copies of its strokes are shared as copies of the image are, and the last ones are brought up to date where nobody
//! else holds them ([`TiledCore::shared_state`]).
//!
//! Read on in `specs/Stored.antt`, which says which core is kept; in `specs/Passing.antt` and `specs/Handing.antt` for
//! what is done to many tiles or hints at once; and in `specs/SharedStates.antt` for the copies of the strokes.

mod beside;
mod replica;
mod shared_states;

pub use replica::TiledCore;
