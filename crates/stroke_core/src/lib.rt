#![tactic(auto)]
//! Seed strokes: a grey level painted on runs of pixels or on a disc, and the tags that name them.
//!
//! A [`Stroke`] is what one touch of the brush leaves: a level, and either [`Run`]s of pixels or the disc round
//! a pixel. Only canonical strokes can be made, so that one list of runs, or one disc, is one stroke:
//!
//! ```text
//! let runs = vec![in alloc; Run { y: 0, x0: 1, x1: 2 }]?;
//! let line = Stroke::new(9, runs)?;       // covers (1, 0) and (2, 0)
//! let spot = Stroke::disc(9, 2, 0, 0)?;   // covers (2, 0)
//! let name = Tag::parse("00000000-0000-0000-0000-000000000001")?;
//! ```
//!
//! Pixels are counted from 0, columns from the left and rows from the top. A stroke knows nothing of an image:
//! [`Stroke::fits`] asks whether it lies in one. A [`Tag`] is a UUID. What is refused is a [`StrokeError`],
//! whose codes are S1 to S8.
//!
//! Read on in `specs/Seed.antt`, which says what canonical strokes are, which pixels they cover, and why runs or
//! a disc are refused; in `specs/Spans.antt` for the rows of a stroke as [`Span`]s; in `specs/Tag.antt` for the
//! texts of tags; and then at [`Stroke`].

mod error;
mod kind;
mod run;
mod shape;
mod span;
mod stroke;
mod tag;

pub use error::{RefusedRuns, StrokeError};
pub use kind::Kind;
pub use run::Run;
pub use span::Span;
pub use stroke::{MAX_RADIUS, MAX_RUNS, Stroke, one_refusal, spans_cover};
pub use tag::{Tag, text_parses_back};
