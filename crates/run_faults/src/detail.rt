//! What is told of a fault beside its code.

ghost use Rattle.std.specs.Prelude.{◌≡◌, ◌++◌, OnOk, codes, decimal, string_bytes};
ghost use Rattle.byte_devices.specs.Transfer.{PutsAll};
ghost use Rattle.stroke_core.specs.Tag.{text_of};
ghost use Rattle.run_faults.specs.RunError.{detail_text};

use byte_devices::{Fault, Sink, put_all};
use grid_core::Memory;
use itoa::Buffer;
use std::alloc::Global;
use stroke_core::{StrokeError, Tag};
use uuid::Uuid;

/// What is told of a fault beside its code.
#[derive(Clone, Copy)]
pub enum Detail {
    /// Nothing.
    Nothing,
    /// The number of a line.
    Line(u64),
    /// The number of a line, and why its stroke is refused.
    LineAndStroke(u64, StrokeError),
    /// Why a stroke is refused.
    Stroke(StrokeError),
    /// The tag of a stroke.
    Named(Tag),
}

impl Detail {
    /// Adds it to a text, each part behind a blank.
    ///
    /// Errors: out of memory.
    pub(crate) fn push_to(self, alloc: Global, text: &mut String) -> Result<(), Memory>
        ensures { OnOk result (string_bytes text.new ≡ string_bytes text.old ++ detail_text self) }
    {
        match self {
            Detail::Nothing => Ok(()),
            Detail::Line(n) => push_number(alloc, text, n),
            Detail::LineAndStroke(n, why) => {
                push_number(alloc, text, n)?;
                push_word(text, why.code())
            }
            Detail::Stroke(why) => push_word(text, why.code()),
            Detail::Named(tag) => push_tag(alloc, text, tag),
        }
    }

    /// Puts it into a sink, each part behind a blank. It takes no memory.
    ///
    /// Errors: the sink failed.
    pub(crate) fn put_to<K: Sink>(self, sink: &mut K) -> Result<(), Fault>
        ensures { PutsAll result (K.seen sink.old) (K.seen sink.new) (detail_text self) }
    {
        match self {
            Detail::Nothing => Ok(()),
            Detail::Line(n) => put_number(sink, n),
            Detail::LineAndStroke(n, why) => {
                put_number(sink, n)?;
                put_word(sink, why.code())
            }
            Detail::Stroke(why) => put_word(sink, why.code()),
            Detail::Named(tag) => put_tag(sink, tag),
        }
    }
}

// ---- into a text

// Adds a blank and a word.
fn push_word(text: &mut String, word: &str) -> Result<(), Memory>
    ensures { OnOk result (string_bytes text.new ≡ string_bytes text.old ++ codes " " ++ word.now) }
{
    text.push_str(" ")?;
    text.push_str(word)?;
    Ok(())
}

// Adds a blank and the text of a tag.
fn push_tag(alloc: Global, text: &mut String, tag: Tag) -> Result<(), Memory>
    ensures { OnOk result (string_bytes text.new ≡ string_bytes text.old ++ codes " " ++ text_of tag) }
{
    text.push_str(" ")?;
    let name = tag.text(alloc).map_err(|_| Memory)?;
    text.push_str(name.as_str())?;
    Ok(())
}

// Adds a blank and a number in decimal.
fn push_number(alloc: Global, text: &mut String, n: u64) -> Result<(), Memory>
    ensures { OnOk result (string_bytes text.new ≡ string_bytes text.old ++ codes " " ++ decimal n) }
{
    text.push_str(" ")?;
    let digits = n.to_string(alloc)?;
    text.push_str(digits.as_str())?;
    Ok(())
}

// ---- into a sink

// Puts a blank and a word.
fn put_word<K: Sink>(sink: &mut K, word: &str) -> Result<(), Fault>
    ensures { PutsAll result (K.seen sink.old) (K.seen sink.new) (codes " " ++ word.now) }
{
    put_all(sink, b" ")?;
    put_all(sink, word.as_bytes())
}

// Puts a blank and the text of a tag.
fn put_tag<K: Sink>(sink: &mut K, tag: Tag) -> Result<(), Fault>
    ensures { PutsAll result (K.seen sink.old) (K.seen sink.new) (codes " " ++ text_of tag) }
{
    let mut buffer = Uuid::encode_buffer();
    let name = Uuid::from_u128(tag.0)
        .hyphenated()
        .encode_lower(&mut buffer);
    put_word(sink, name)
}

// Puts a blank and a number in decimal.
fn put_number<K: Sink>(sink: &mut K, n: u64) -> Result<(), Fault>
    ensures { PutsAll result (K.seen sink.old) (K.seen sink.new) (codes " " ++ decimal n) }
{
    let mut digits = Buffer::new();
    put_word(sink, digits.format(n))
}
