//! An image derived from one image file: from bytes in to bytes out.

ghost use Rattle.std.specs.Prelude.{◌≡◌, ℕ, List, IfOk};
ghost use Rattle.grid_core.specs.declared.conn.Conn.{Conn};
ghost use Rattle.view_session.specs.Answering.{Answers};
ghost use Rattle.view_session.specs.Derive.{DerivationStops, FileIsRefused, IsDerivation, IsDerived};
ghost use Rattle.view_session.specs.declared.derive.Derivation.{Derivation};
ghost use Rattle.run_faults.specs.declared.run_error.RunError.{RunError};

use crate::answering::{Responder, respond};
use byte_devices::{Sink, Source};
use derived_views::laws::{at_most_one_fill, at_most_one_regional_maxima};
use derived_views::{h_maxima, into_filled, regional_maxima};
use grid_core::laws::{at_most_one_reconstruction, equal_pixels_equal_images};
use grid_core::{Conn, Memory};
use pgm_codec::{Image, one_fault, one_image, read};
use raster_sweeps::{Grower, OneThread};
use run_faults::RunError;
use std::alloc::Global;

/// What can be derived from an image.
#[derive(Clone, Copy, Debug, PartialEq, Eq)]
pub enum Derivation {
    /// Its holes filled (Soille).
    Fill,
    /// Its h-maxima (Vincent 1993).
    HMax,
    /// Its regional maxima (Vincent 1993).
    RegMax,
}

/// Reads one PGM file, all that the source has, and writes what is derived from its image as a raw PGM file: the image
/// with its holes filled, its h-maxima for this `h`, or its regional maxima, under this connectivity. `h` is 0 to
/// 65535, and of use for h-maxima alone. The file has the maxval of the one that was read, and for regional maxima 1.
///
/// Errors, the first that is met: P1 to P9 of the file. P11 where a device failed or the source did not end; P10 in
/// place of any answer, or plain want of memory where the file has no fault. Nothing is written, unless the sink
/// failed: then a front of the file.
pub fn derive_run<S: Source, K: Sink>(
    alloc: Global,
    source: &mut S,
    kind: Derivation,
    h: u16,
    conn: Conn,
    sink: &mut K,
) -> Result<(), RunError>
    ensures { Answers (λ input _ text. IsDerivation kind h conn input text) DerivationStops
        result S.seen source.old source.new K.seen sink.old sink.new }
{
    derive_run_by(&OneThread, alloc, source, kind, h, conn, sink)
}

/// As [`derive_run`], and grows by `grower`.
///
/// Errors: as [`derive_run`].
pub fn derive_run_by<G: Grower, S: Source, K: Sink>(
    grower: &G,
    alloc: Global,
    source: &mut S,
    kind: Derivation,
    h: u16,
    conn: Conn,
    sink: &mut K,
) -> Result<(), RunError>
    ensures { Answers (λ input _ text. IsDerivation kind h conn input text) DerivationStops
        result S.seen source.old source.new K.seen sink.old sink.new }
{
    let deriver = Deriver {
        grower,
        kind,
        h,
        conn,
    };
    respond(alloc, &deriver, source, sink)
}

// Derives images of one kind.
#[derive(Drop)]
struct Deriver<'a, G: Grower> {
    grower: &'a G,
    kind: Derivation,
    h: u16,
    conn: Conn,
}

impl<'a, G: Grower> Responder for Deriver<'a, G> {
    type Value = ();

    ghost answers = { λ d input _ text. IsDerivation d.kind d.h d.conn input text };

    ghost stops = { λ _ input e. DerivationStops input e };

    fn answer(&self, alloc: Global, input: &[u8]) -> Result<((), Image), RunError> {
        one_fault();
        let image = read(alloc, input)?;
        let derived = derived_image(self.grower, alloc, image, self.kind, self.h, self.conn)?;
        Ok(((), derived))
    }
}

// The image that is derived from another, some in its memory.
fn derived_image<G: Grower>(
    grower: &G,
    alloc: Global,
    image: Image,
    kind: Derivation,
    h: u16,
    conn: Conn,
) -> Result<Image, Memory>
    ensures { IfOk result (IsDerived kind h conn image) }
{
    match kind {
        Derivation::Fill => into_filled(grower, alloc, image, conn),
        Derivation::HMax => h_maxima(grower, alloc, &image, h, conn),
        Derivation::RegMax => regional_maxima(grower, alloc, &image, conn),
    }
}

/// At most one image of a kind is derived from an input. An input is refused for at most one reason, and then nothing
/// is derived from it.
pub fn one_derivation()
    ensures text { (kind : Derivation) (h : ℕ) (conn : Conn) (input a b : List ℕ) → IsDerivation kind h conn input a
        → IsDerivation kind h conn input b → a ≡ b }
    ensures refusal { (input : List ℕ) (d e : RunError) → FileIsRefused input d → FileIsRefused input e → d ≡ e }
    ensures none { (kind : Derivation) (h : ℕ) (conn : Conn) (input text : List ℕ) (e : RunError)
        → IsDerivation kind h conn input text → FileIsRefused input e → ⊥ }
{
    one_image();
    one_fault();
    at_most_one_fill();
    at_most_one_regional_maxima();
    at_most_one_reconstruction();
    equal_pixels_equal_images();
}
