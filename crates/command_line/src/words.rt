//! The words of the command line, and the call that they say.

ghost use Rattle.std.specs.Prelude.{◌≡◌, ◌≢◌, ◌<◌, ◌^◌, ◌⊎◌, ◌↔◌, decimal, IsTrue, [], List, ℕ, Ok, Err};
ghost use Rattle.std.specs.Prelude.{map, drop, option_map, string_bytes, codes, Some, IfOk, IfErr};
ghost use Rattle.std.specs.IoError.{error_kind};
ghost use Rattle.std.specs.Iterator.{Drains};
ghost use Rattle.std.specs.Vec.Iter.{into_iter_steps};
ghost use Rattle.std.specs.declared.io.ErrorKind.TheVariants.{OutOfMemory};
ghost use Rattle.clap.specs.Words.{app_of, found_of, kind_of, rows_of, subcommand_rows_of};
ghost use Rattle.clap.specs.declared.error.kind.ErrorKind.TheVariants as parse;
ghost use Rattle.grid_core.specs.declared.conn.Conn.TheVariants.{Four};
ghost use Rattle.command_line.specs.Words.{program, derive_command, viewing_command, AddsOption, IsLocal};
ghost use Rattle.command_line.specs.Words.{IsCall, Says, ProcessSays, ProcessSaysNone, Reads, IsRefusalOfWords};
ghost use Rattle.command_line.specs.Words.{ConnIs, NamesNoConn, SideIs, KindIs, NamesNoKind, HIs};
ghost use Rattle.command_line.specs.declared.words.Call.{Call};
ghost use Rattle.command_line.specs.declared.words.Call.TheVariants as call;
ghost use Rattle.run_faults.specs.declared.run_error.RunError.TheVariants as errors;

mod node;
mod paint;

use clap::{Arg, ArgMatches, Command};
use grid_core::{Conn, Memory, TILE_SIDE, is_tile_side};
pub use node::Peers;
use node::{node_command, node_of};
use page_server::PaintCall;
use paint::{paint_command, paint_of};
use run_faults::RunError;
use std::alloc::{AllocError, Global};
use std::{env, io};
use view_session::derive::Derivation;
use view_session::store::StatePath;

/// What the program is called to do.
#[derive(Drop)]
pub enum Call {
    /// Writes the image that standard input asks for.
    View {
        /// Which pixels are neighbours.
        conn: Conn,
        /// The side of the tiles, 8 to 256.
        side: u32,
        /// The file that keeps its strokes, where there is one.
        file: Option<StatePath>,
    },
    /// Writes the image that standard input asks for and that a node shares with its peers.
    Node {
        /// Which pixels are neighbours.
        conn: Conn,
        /// The side of the tiles, 8 to 256.
        side: u32,
        /// The port that the node listens at, 1 to 65535.
        port: u16,
        /// How many ticks it makes, 1 to 100000.
        ticks: u32,
        /// How many hands sweep meanwhile, 1 to 16.
        hands: usize,
        /// Whom it tells.
        peers: Peers,
        /// The file that keeps its strokes, where there is one.
        file: Option<StatePath>,
    },
    /// Writes the image that is derived from the one on standard input.
    Derive {
        /// What is derived.
        kind: Derivation,
        /// How much each dome loses at its top, for h-maxima.
        h: u16,
        /// Which pixels are neighbours.
        conn: Conn,
    },
    /// Serves a page to paint on.
    Paint(PaintCall),
}

// What a refusal of `clap` is: want of memory, or usage.
fn refusal_of(error: &clap::Error) -> RunError
    ensures { ((kind_of error.now ≡ parse.OutOfMemory) × (result ≡ errors.Memory))
        ⊎ ((kind_of error.now ≢ parse.OutOfMemory) × (result ≡ errors.Usage)) }
{
    match error.kind() {
        clap::error::ErrorKind::OutOfMemory => RunError::Memory,
        _ => RunError::Usage,
    }
}

/// Reads the words behind the program's name: no word at all, `view [--conn 4|8] [--tile N] [--state FILE]`,
/// `node --port PORT --ticks N [--hands N] [--conn 4|8] [--tile N] [--state FILE] PEER..`,
/// `derive KIND [--h N] [--conn 4|8]`, or
/// `paint MASK [--state FILE] [--port N] [--forward FILE] [--conn 4|8] [--tile N]`.
///
/// Without `--conn` the connectivity is that of four neighbours. The N of `--tile` is 8 to 256, and 64 where it is not
/// given. FILE is any text. PORT and each PEER, of which there are 1 to 8, are 1 to 65535. The N of `--ticks` is 1 to
/// 100000, that of `--hands` 1 to 16, and 2 where it is not given. KIND is `fill`, `hmax` or `regmax`. The N of `--h`
/// is 0 to 65535 with each KIND, and 1 where it is not given. MASK is any text; where behind `paint` no `--state` is
/// given, its FILE is MASK with `.spd` behind it. The N of `--port` there is 0 to 65535; where it is not given, the
/// call says no port.
///
/// `--conn=8`, the options in another order and a `--` at the end are taken too, as `clap` does. A value is its very
/// text: `08` is no value. There is no help and no version.
///
/// Errors: usage for all other words; out of memory.
pub fn read_words(alloc: Global, words: &[String]) -> Result<Call, RunError>
    ensures reads { Reads (Says (map string_bytes words.now)) result }
    ensures no_word { words.now ≡ [] → result ≡ Ok (call.View Four 64 None) }
{
    if words.is_empty() {
        return Ok(Call::View {
            conn: Conn::Four,
            side: TILE_SIDE,
            file: None,
        });
    }
    let Ok(program) = program(alloc) else {
        return Err(RunError::Memory);
    };
    match program.try_get_matches_from(words) {
        Ok(matches) => call_of(alloc, &matches),
        Err(error) => Err(refusal_of(&error)),
    }
}

/// Reads the words of the process, as `env::args` gives them, the program's name first.
///
/// Errors: usage as [`read_words`], and for a word that is not UTF-8; out of memory.
pub fn read_process_words(alloc: Global, args: io::Result<env::Args>) -> Result<Call, RunError>
    ensures says { IfOk result (ProcessSays args) }
    ensures usage { result ≡ Err errors.Usage → ProcessSaysNone args }
    ensures refused { IfErr result IsRefusalOfWords }
    ensures memory { IfErr args (λ e. error_kind e ≡ OutOfMemory → result ≡ Err errors.Memory) }
    ensures not_text { IfErr args (λ e. error_kind e ≢ OutOfMemory → result ≡ Err errors.Usage) }
{
    match args {
        Ok(args) => {
            let all = all_words(alloc, args)?;
            read_words(alloc, behind_name(&all))
        }
        Err(error) if error.kind() == io::ErrorKind::OutOfMemory => Err(RunError::Memory),
        Err(_) => Err(RunError::Usage),
    }
}

/// Words say at most one call.
pub fn at_most_one_call()
    ensures { (words : List (List ℕ)) (a b : Call) → Says words a → Says words b → a ≡ b }
{}

// The program as `clap` parses its words.
fn program<'a>(alloc: Global) -> Result<Command<'a>, AllocError>
    ensures { IfOk result (λ command. app_of command ≡ program) }
{
    let view = viewing_command(alloc, "view")?;
    let seedpaint = Command::new(alloc, "seedpaint")
        .no_binary_name(true)
        .disable_help_flag(true)
        .disable_help_subcommand(true)
        .subcommand_required(true)
        .subcommand(view)?;
    let derive = derive_command(alloc)?;
    let seedpaint = seedpaint.subcommand(derive)?;
    let node = node_command(alloc)?;
    let seedpaint = seedpaint.subcommand(node)?;
    let paint = paint_command(alloc)?;
    seedpaint.subcommand(paint)
}

// A subcommand with the options of a view.
fn viewing_command<'a>(alloc: Global, name: &'a str) -> Result<Command<'a>, AllocError>
    ensures { IfOk result (IsLocal (viewing_command name.entry.now)) }
{
    let view = with_option(alloc, Command::new(alloc, name), "conn")?;
    let view = with_option(alloc, view, "tile")?;
    with_option(alloc, view, "state")
}

// The subcommand `derive`.
fn derive_command<'a>(alloc: Global) -> Result<Command<'a>, AllocError>
    ensures { IfOk result (IsLocal derive_command) }
{
    let derive = Command::new(alloc, "derive").arg(Arg::new(alloc, "kind"))?;
    let derive = with_option(alloc, derive, "h")?;
    with_option(alloc, derive, "conn")
}

// The command with one more option, which takes one value.
fn with_option<'a>(
    alloc: Global,
    command: Command<'a>,
    name: &'a str,
) -> Result<Command<'a>, AllocError>
    ensures { IfOk result (AddsOption command.entry name.entry.now) }
{
    command.arg(Arg::new(alloc, name).long(name))
}

// The call that `clap` read.
fn call_of(alloc: Global, matches: &ArgMatches<'_>) -> Result<Call, RunError>
    ensures { Reads (IsCall (subcommand_rows_of matches.now)) result }
{
    if let Some(view) = matches.subcommand_matches("view") {
        return view_of(alloc, view);
    }
    if let Some(node) = matches.subcommand_matches("node") {
        return node_of(alloc, node);
    }
    if let Some(paint) = matches.subcommand_matches("paint") {
        return paint_of(alloc, paint);
    }
    match matches.subcommand_matches("derive") {
        Some(derive) => derive_of(alloc, derive),
        None => Err(RunError::Usage),
    }
}

// The view that its options ask for.
fn view_of(alloc: Global, view: &ArgMatches<'_>) -> Result<Call, RunError>
    ensures { Reads (IsCall (Some (codes "view", rows_of (found_of view.now)))) result }
{
    let conn = conn_of(view.get_str("conn"))?;
    let side = side_of(alloc, view.get_str("tile"))?;
    let file = file_of(alloc, view.get_str("state"))?;
    Ok(Call::View { conn, side, file })
}

// The derivation that its word and its options ask for.
fn derive_of(alloc: Global, derive: &ArgMatches<'_>) -> Result<Call, RunError>
    ensures { Reads (IsCall (Some (codes "derive", rows_of (found_of derive.now)))) result }
{
    let kind = kind_of(derive.get_str("kind"))?;
    let h = h_of(alloc, derive.get_str("h"))?;
    let conn = conn_of(derive.get_str("conn"))?;
    Ok(Call::Derive { kind, h, conn })
}

// What the word behind `derive` names.
fn kind_of(word: Option<&str>) -> Result<Derivation, RunError>
    ensures ok { IfOk result (KindIs (option_map (λ text. text.now) word.entry)) }
    ensures err { IfErr result (λ e. (e ≡ errors.Usage) × NamesNoKind (option_map (λ text. text.now) word.entry)) }
{
    match word {
        Some("fill") => Ok(Derivation::Fill),
        Some("hmax") => Ok(Derivation::HMax),
        Some("regmax") => Ok(Derivation::RegMax),
        None | Some(_) => Err(RunError::Usage),
    }
}

// The connectivity by the value of `--conn`.
fn conn_of(value: Option<&str>) -> Result<Conn, RunError>
    ensures ok { IfOk result (ConnIs (option_map (λ text. text.now) value.entry)) }
    ensures err { IfErr result (λ e. (e ≡ errors.Usage) × NamesNoConn (option_map (λ text. text.now) value.entry)) }
{
    match value {
        None | Some("4") => Ok(Conn::Four),
        Some("8") => Ok(Conn::Eight),
        Some(_) => Err(RunError::Usage),
    }
}

// The side of the tiles by the value of `--tile`.
fn side_of(alloc: Global, value: Option<&str>) -> Result<u32, RunError>
    ensures { Reads (SideIs (option_map (λ text. text.now) value.entry)) result }
{
    let Some(text) = value else {
        return Ok(TILE_SIDE);
    };
    let side = number_of(alloc, text)?;
    if is_tile_side(side) {
        return Ok(side);
    }
    Err(RunError::Usage)
}

// The state file by the value of `--state`.
fn file_of(alloc: Global, value: Option<&str>) -> Result<Option<StatePath>, Memory>
    ensures { IfOk result (λ file. file ≡ option_map (λ text. text.now) value.entry) }
{
    match value {
        Some(name) => Ok(Some(StatePath::new(alloc, name)?)),
        None => Ok(None),
    }
}

// How much domes lose, by the value of `--h`.
#[tactic(auto, using(crate::proofs::Subcommands::no_greater_h))]
fn h_of(alloc: Global, value: Option<&str>) -> Result<u16, RunError>
    ensures { Reads (HIs (option_map (λ text. text.now) value.entry)) result }
{
    let Some(text) = value else {
        return Ok(1);
    };
    let h = number_of(alloc, text)?;
    if h > 65_535 {
        return Err(RunError::Usage);
    }
    Ok(h as u16)
}

// The number of 32 bits that the text is in decimal.
fn number_of(alloc: Global, text: &str) -> Result<u32, RunError>
    ensures { Reads (λ n. (n < 2 ^ 32) × (text.now ≡ decimal n)) result }
{
    let Ok(n) = text.parse::<u32>() else {
        return Err(RunError::Usage);
    };
    if is_decimal(alloc, text, n)? {
        return Ok(n);
    }
    Err(RunError::Usage)
}

// Whether the text is the number in decimal.
fn is_decimal(alloc: Global, text: &str, n: u32) -> Result<bool, Memory>
    ensures { IfOk result (λ same. IsTrue same ↔ (text.now ≡ decimal n)) }
{
    let written = n.to_string(alloc)?;
    Ok(text == written.as_str())
}

// All that the process was given, in order.
fn all_words(alloc: Global, args: env::Args) -> Result<Vec<String>, Memory>
    ensures { IfOk result (λ all. Drains into_iter_steps args all.items) }
{
    let all = args.collect(alloc)?;
    Ok(all)
}

// The words behind the first.
fn behind_name(all: &[String]) -> &[String]
    ensures { result.now ≡ drop 1 all.now }
{
    match all.split_first() {
        Some((_name, words)) => words,
        None => all,
    }
}
