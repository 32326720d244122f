//! A view beside a core that is opened, merges the same deltas one by one, and settles: it has the same image. The
//! inputs look random, and are the same each time.

use byte_devices::{MemorySink, MemorySource};
use core_rules::CoreError;
use edit_lang::parse;
use grid_core::{Conn, Memory};
use pgm_codec::{Image, read, write_raw};
use reset_core::Core;
use run_faults::RunError;
use std::alloc::Global;
use std::test::Fail;
use stroke_lattice::State;
use view_session::input::split;
use view_session::view::view_tiled;

// The next number of a fixed series, below `end`, or 0 where `end` is 0.
fn draw(seed: &mut u64, end: u16) -> u16 {
    *seed = seed
        .wrapping_mul(6_364_136_223_846_793_005)
        .wrapping_add(1_442_695_040_888_963_407);
    ((*seed >> 40) % u64::from(end.max(1))) as u16
}

// Adds twenty edits on an image of this size: a stroke and behind it a withdrawal, ten times.
fn push_edits(input: &mut String, seed: &mut u64, w: u16, h: u16) -> Result<(), Memory> {
    for tag in 100..110 {
        let (x, y) = (draw(seed, w), draw(seed, h));
        let end = x.saturating_add(draw(seed, w.saturating_sub(x)));
        let level = draw(seed, 11).saturating_add(1);
        let gone = draw(seed, 30).saturating_add(100);
        write!(
            input,
            "place 00000000-0000-0000-0000-000000000{tag} {level} {y}:{x}-{end}\n\
             withdraw 00000000-0000-0000-0000-000000000{gone}\n"
        )?;
    }
    Ok(())
}

// Adds a line `image` and a mask of this size and maxval 9.
fn push_mask(input: &mut String, seed: &mut u64, w: u16, h: u16) -> Result<(), Memory> {
    let depth = draw(seed, 10);
    write!(input, "image\nP2\n{w} {h}\n9\n")?;
    for _ in 0..u32::from(w).saturating_mul(u32::from(h)) {
        let sample = 9u16.saturating_sub(draw(seed, depth));
        write!(input, "{sample} ")?;
    }
    Ok(())
}

// Adds edits and an image of 8 to 80 columns and rows.
fn push_input(input: &mut String, seed: &mut u64) -> Result<(), Memory> {
    let w = draw(seed, 73).saturating_add(8);
    let h = draw(seed, 73).saturating_add(8);
    push_edits(input, seed, w, h)?;
    push_mask(input, seed, w, h)
}

// Merges deltas, one by one.
fn merge(alloc: Global, core: &mut Core, deltas: &[State]) -> Result<(), CoreError> {
    for delta in deltas {
        core.merge(alloc, delta)?;
    }
    Ok(())
}

// The raw file of what a core shows once it has merged the deltas of edits, one by one, and has settled.
fn shown_by(alloc: Global, core: &mut Core, edits: &[u8]) -> Result<Vec<u8>, RunError> {
    let deltas = parse(alloc, edits)?;
    let merged = merge(alloc, core, &deltas);
    drop(deltas);
    merged?;
    core.settle(alloc)?;
    let image = Image::from_grid(alloc, core.image(), 9)?;
    Ok(write_raw(alloc, &image)?)
}

// The same of a core that is opened with tiles of this side for the mask of an input.
fn shown(alloc: Global, input: &[u8], conn: Conn, side: u32) -> Result<Vec<u8>, RunError> {
    let (edits, file) = split(input).ok_or(RunError::NoImage)?;
    let mask = read(alloc, file)?;
    let mut core = Core::open_tiled(alloc, &mask, conn, side, 0)?;
    let shown = shown_by(alloc, &mut core, edits);
    drop(core);
    shown
}

// Whether a view of an input, for tiles of this side, writes what a core shows.
fn is_the_same(alloc: Global, input: &[u8], conn: Conn, side: u32) -> Result<bool, Fail> {
    let shown = shown(alloc, input, conn, side)?;
    let bytes = Vec::from_slice(alloc, input).or(Err(Memory))?;
    let none = State::empty(alloc).or(Err(Memory))?;
    let mut source = MemorySource::new(bytes);
    let mut sink = MemorySink::new(alloc);
    let viewed = view_tiled(alloc, &mut source, &none, conn, side, &mut sink);
    Ok(viewed.is_ok() && sink.written() == shown.as_slice())
}

#[test]
fn a_view_shows_what_a_core_shows(rt: HostRuntime) -> Result<(), Fail> {
    let mut seed: u64 = 1;
    for side in [8, 9, 64, 256] {
        for conn in [Conn::Four, Conn::Eight] {
            let mut input = String::new(rt.alloc());
            push_input(&mut input, &mut seed)?;
            let is_so = is_the_same(rt.alloc(), input.as_bytes(), conn, side)?;
            assert!(rt; is_so, "tiles of {side}, {conn:?}");
        }
    }
    Ok(())
}
