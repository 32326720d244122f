//! Texts of faults.

use border_queues::QueueError;
use edit_lang::EditError;
use grid_core::GridError;
use marker_tiles::MarkersError;
use pgm_codec::PgmError::{
    BadHeader, BadMagic, BadMaxval, BadSample, Device, Memory, SampleRange, TooLarge, Trailing,
    Truncated, ZeroSize,
};
use reset_core::CoreError::{self, BadSide, Conflict, GenerationsSpent, OutOfImage};
use std::alloc::Global;
use std::fmt::Display;
use stroke_core::{StrokeError, Tag};

// Whether a message is a code, a colon and more.
fn begins_with<E: Display>(alloc: Global, error: &E, code: &str) -> bool {
    let message = error.to_string(alloc);
    matches!(message, Ok(text) if text.strip_prefix(code).unwrap_or("").starts_with(": "))
}

#[test]
fn messages_begin_with_codes(rt: HostRuntime) {
    for error in &[BadMagic, BadHeader, ZeroSize, TooLarge, BadMaxval] {
        assert!(rt; begins_with(rt.alloc(), error, error.code()), "{error}");
    }
    for error in &[Truncated, SampleRange, BadSample, Trailing, Memory, Device] {
        assert!(rt; begins_with(rt.alloc(), error, error.code()), "{error}");
    }
    let (memory, tag) = (CoreError::Memory, Tag(1));
    for error in &[
        OutOfImage(tag),
        Conflict(tag),
        GenerationsSpent,
        memory,
        BadSide,
    ] {
        assert!(rt; begins_with(rt.alloc(), error, error.code()), "{error}");
    }
    for error in &[GridError::ZeroSize, GridError::TooLarge, GridError::Memory] {
        assert!(rt; begins_with(rt.alloc(), error, error.code()), "{error}");
    }
    assert!(rt; begins_with(rt.alloc(), &QueueError::Memory, "Q1"));
    assert!(rt; begins_with(rt.alloc(), &tile_generations::GenerationsSpent, "N1"));
    assert!(rt; begins_with(rt.alloc(), &MarkersError::Memory, "K1"));
    let fault = EditError::BadStroke(7, StrokeError::BadRadius);
    assert!(rt; begins_with(rt.alloc(), &fault, "E3 7 S7"));
}
