#![tactic(auto)]
//! The board behind a page: one replica's core, what a page may do to it, and what it is told.
//!
//! ```text
//! let mut board = PageBoard::open(alloc, mask, Conn::Four, 64, run)?;
//! board.take_edits(alloc, b"place 67e55044-10b1-426f-9247-bb680e5fe0c8 9 0:0-4\n")?;
//! while !board.grow_in_bands(&rt, alloc, 4, 256)? {}   // no work is left
//! board.image_file(alloc)?;                // the reconstruction, as a raw file
//! board.changes(alloc, run, 1)?;           // what changed since step 1: numbers, rectangles, strokes, pixels
//! ```
//!
//! A [`PageBoard`] has no handle, no clock and no connection: it is the state of a service, and whoever answers
//! requests calls it, and lends it the handle by whose threads it grows. Each change has a step. For each tile the
//! board keeps the step at which it last changed, and for each merge the tags that came and went with it. So a page
//! that was told a step is told later what is new since then, and all that is told in one answer is of one moment.
//!
//! A board opens without strokes, or with those that a state file keeps ([`PageBoard::open_kept`]). Then its image has
//! grown at once, and no work is left.
//!
//! In the code, `board` has the board: `opening`, `taking` (texts and state files), `growing`, `files` and `changes`.
//! `raw` has raw spellings, `lines` the lines of what changed, `marking` the steps of tiles, `strips` the rectangles of
//! tiles that changed, `turning` the tags that came or went. [`laws`] says that no difference is left out.

mod board;
pub mod laws;
mod lines;
mod marking;
mod news;
mod raw;
mod strips;
mod turning;

pub use board::PageBoard;
pub use news::News;
