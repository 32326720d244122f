#![tactic(auto)]
//! The edit language of Seedpaint: a text that places strokes, as runs of pixels or as discs, and
//! withdraws them, one edit a line.
//!
//! ```text
//! ; runs y:x0-x1 of level 9 on row 0, a disc y:x+r of level 5, and the first stroke taken back
//! place 00000000-0000-0000-0000-000000000001 9 0:1-2,0:4-4
//! disc 00000000-0000-0000-0000-000000000002 5 2:2+1
//! withdraw 00000000-0000-0000-0000-000000000001
//! ```
//!
//! [`parse`] reads such a text into one delta an edit, to be merged in order. It answers exactly what the
//! text spells, or an [`EditError`], which tells the fault of the first faulty line. That a text spells one
//! list of deltas or has one first fault is [`one_meaning`]. [`parse_lines`] reads the same into [`LineDelta`]s, which
//! take less memory than states, and are merged without being made into any.
//!
//! [`live_lines`] writes the live strokes of a state as such a text, and [`push_placement`] and
//! [`push_withdrawal`] put one line. What is written is read as what it was written of: [`what_is_written_is_read`].
//!
//! What a text means stands in `specs/Edit.antt`: the words of a line (`Lines`) ask for an edit, in which
//! `Numbers` and `Shapes` say what a number, a run and a disc look like, and the edit means a state of one
//! stroke or one tombstone (`stroke_lattice`), or a fault. In the code `text` goes from line to line, `line`
//! from a line to its delta, and `words`, `number` and `shape` read its parts. `specs/Writing.antt` says which
//! lines are written, `writing` writes them, and `lengths` says how long they are.

mod error;
mod lengths;
mod line;
mod line_delta;
mod number;
mod shape;
mod text;
mod words;
mod writing;

pub use error::EditError;
pub use line_delta::LineDelta;
pub use text::{one_meaning, parse, parse_lines};
pub use writing::{live_lines, push_placement, push_withdrawal, what_is_written_is_read};
