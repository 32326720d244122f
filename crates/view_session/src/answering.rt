//! Runs that read a source to its end, work out one image, and write its file.

ghost use Rattle.std.specs.Prelude.{◌⊎◌, List, ℕ, IfOk, IfErr};
ghost use Rattle.pgm_codec.specs.Writing.{raw_text};
ghost use Rattle.view_session.specs.Answering.{Answers};
ghost use Rattle.run_faults.specs.RunError.{IsReadingFault, IsTransferFault};

use byte_devices::{Sink, Source};
use pgm_codec::{Image, read_all, write_to};
use run_faults::RunError;
use std::alloc::Global;

/// What answers an input with an image, and with a value. The text of the answer is the image's raw file.
pub trait Responder {
    ghost use Rattle.run_faults.specs.declared.run_error.RunError.{RunError};

    type Value: Drop;

    // The value and the text answer an input.
    ghost answers: { Self → List ℕ → Self.Value → List ℕ → Type 0 };

    // An input is stopped by an error.
    ghost stops: { Self → List ℕ → RunError → Type 0 };

    /// The value and the image that answer an input.
    fn answer(&self, alloc: Global, input: &[u8]) -> Result<(Self::Value, Image), RunError>
        ensures answered { IfOk result (λ parts. answers self.now input.now parts.0 (raw_text parts.1)) }
        ensures refused { IfErr result (λ e. IsReadingFault e ⊎ stops self.now input.now e) }
        ensures no_device { IfErr result (λ e. IsTransferFault e → ⊥) };
}

/// Reads the source to its end, and writes the raw file of the image that answers what it had left, block by block.
/// Answers the value.
///
/// Errors: those of the answer; P10 where memory is refused; P11 where a device failed, or where the source had not
/// ended after [`MOST_PULLS`](byte_devices::MOST_PULLS) pulls. Nothing is written, unless the sink failed: then a front
/// of the file.
pub(crate) fn respond<R: Responder, S: Source, K: Sink>(
    alloc: Global,
    responder: &R,
    source: &mut S,
    sink: &mut K,
) -> Result<R::Value, RunError>
    ensures { Answers (R.answers responder.now) (R.stops responder.now)
        result S.seen source.old source.new K.seen sink.old sink.new }
{
    let input = read_all(alloc, source)?;
    let (value, image) = responder.answer(alloc, &input)?;
    write_to(alloc, &image, sink)?;
    Ok(value)
}
