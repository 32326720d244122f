//! The words behind `paint`.

ghost use Rattle.std.specs.Prelude.{◌≡◌, codes, option_map, Some, IfOk};
ghost use Rattle.clap.specs.Words.{found_of, rows_of};
ghost use Rattle.command_line.specs.Words.{paint_command, IsLocal, IsCall, Reads, KeptFileIs, PagePortIs};

use super::node::number_within;
use super::{Call, conn_of, side_of, viewing_command, with_option};
use clap::{Arg, ArgMatches, Command};
use grid_core::Memory;
use page_server::{FileName, PaintCall};
use run_faults::RunError;
use std::alloc::{AllocError, Global};
use view_session::store::StatePath;

/// The subcommand `paint`.
pub(super) fn paint_command<'a>(alloc: Global) -> Result<Command<'a>, AllocError>
    ensures { IfOk result (IsLocal paint_command) }
{
    let paint = viewing_command(alloc, "paint")?;
    let paint = with_option(alloc, paint, "port")?;
    let paint = with_option(alloc, paint, "forward")?;
    paint.arg(Arg::new(alloc, "mask"))
}

/// The painting that its word and options ask for.
pub(super) fn paint_of(alloc: Global, paint: &ArgMatches<'_>) -> Result<Call, RunError>
    ensures { Reads (IsCall (Some (codes "paint", rows_of (found_of paint.now)))) result }
{
    let Some(name) = paint.get_str("mask") else {
        return Err(RunError::Usage);
    };
    let conn = conn_of(paint.get_str("conn"))?;
    let side = side_of(alloc, paint.get_str("tile"))?;
    let port = page_port_of(alloc, paint.get_str("port"))?;
    let file = kept_file_of(alloc, name, paint.get_str("state"))?;
    let forward = forward_of(alloc, paint.get_str("forward"))?;
    let mask = FileName::new(alloc, name)?;
    Ok(Call::Paint(PaintCall {
        mask,
        file,
        conn,
        side,
        port,
        forward,
    }))
}

// The port by the value of `--port`, where there is one.
fn page_port_of(alloc: Global, value: Option<&str>) -> Result<Option<u16>, RunError>
    ensures { Reads (PagePortIs (option_map (λ text. text.now) value.entry)) result }
{
    let Some(text) = value else {
        return Ok(None);
    };
    match number_within(alloc, Some(text), None, 0, 65_535) {
        Ok(port) => Ok(Some(port as u16)),
        Err(error) => Err(error),
    }
}

// The file that forwards, by the value of `--forward`.
fn forward_of(alloc: Global, value: Option<&str>) -> Result<Option<FileName>, Memory>
    ensures { IfOk result (λ file. file ≡ option_map (λ text. text.now) value.entry) }
{
    match value {
        Some(name) => Ok(Some(FileName::new(alloc, name)?)),
        None => Ok(None),
    }
}

// The state file of a painting by the value of `--state`.
fn kept_file_of(alloc: Global, mask: &str, value: Option<&str>) -> Result<StatePath, Memory>
    ensures { IfOk result (KeptFileIs mask.now (option_map (λ text. text.now) value.entry)) }
{
    match value {
        Some(name) => StatePath::new(alloc, name),
        None => {
            let mut name = String::from_str(alloc, mask)?;
            name.push_str(".spd")?;
            StatePath::new(alloc, name.as_str())
        }
    }
}
