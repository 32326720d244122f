//! What holds of all frames, said by functions that do nothing.
ghost use Rattle.std.specs.Prelude.{◌≡◌, ℕ, List};
ghost use Rattle.spd_codec.specs.declared.frame.Frame.{Frame};
ghost use Rattle.spd_codec.specs.Spelling.{SpellsFrame};
ghost use Rattle.spd_codec.specs.Faults.{IsFault};
ghost use Rattle.spd_codec.specs.Laws.{HaveOneFault, SpellOrHaveFault, OneSpelling, NoSpellingBeginsAnother};
ghost use Rattle.spd_codec.specs.Laws.{FrameTextHasItsLength, FrameTextIsRead};

/// Bytes spell at most one frame, in whichever version.
pub fn at_most_one_frame()
    ensures { (bytes : List ℕ) (a b : Frame) → SpellsFrame bytes a → SpellsFrame bytes b → a ≡ b }
{}

/// Bytes have at most one fault, the first, and none where they spell a frame. Want of memory is no fault of
/// theirs.
pub fn one_fault()
    ensures { HaveOneFault SpellsFrame IsFault }
{}

/// All bytes spell a frame or have a fault.
pub fn every_text()
    ensures { SpellOrHaveFault SpellsFrame IsFault }
{}

/// A frame has at most one spelling in each version.
pub fn one_spelling()
    ensures { OneSpelling }
{}

/// No spelling begins another, in whichever version: where bytes that spell a frame begin others that do, these
/// are the same.
pub fn no_spelling_begins_another()
    ensures { NoSpellingBeginsAnother }
{}

/// The text of a frame in the second version, which [`encode`](crate::encode) writes, has as many bytes as its strokes
/// and tombstones say: those of the head, of each stroke ([`Stroke::byte_len`](stroke_core::Stroke::byte_len)) and of
/// each tombstone.
pub fn frame_text_has_its_length()
    ensures { FrameTextHasItsLength }
{}

/// The text of a frame in a version spells that frame and no other, where it is not too long, the version has
/// each of the strokes, and tags have 16 bytes. So decoding gives back what was encoded.
pub fn frame_text_is_read()
    ensures { FrameTextIsRead }
{}
