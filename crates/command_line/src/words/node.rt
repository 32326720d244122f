//! The words behind `node`.

ghost use Rattle.std.specs.Prelude.{◌≡◌, codes, map, option_map, None, Some, IfOk};
ghost use Rattle.clap.specs.Words.{found_of, rows_of};
ghost use Rattle.command_line.specs.Words.{node_command, IsLocal, IsCall, Reads, NumberIs, PortIs, ArePorts, PeersAre};

use super::{Call, conn_of, file_of, number_of, side_of, viewing_command, with_option};
use clap::{Arg, ArgAction, ArgMatches, Command};
use run_faults::RunError;
use std::alloc::{AllocError, Global};
use std::marker::Model;

/// The ports of a node's peers, in the order of the words. They are seen as the list of them.
#[derive(Drop)]
pub struct Peers {
    ports: Vec<u16>,
}

impl Model for Peers {
    ghost use Rattle.std.specs.Prelude.{ℕ, List};

    ghost Value = { List ℕ };

    ghost view = { λ peers. peers.ports.items };
}

impl Peers {
    /// The ports.
    pub fn into_ports(self) -> Vec<u16>
        ensures { result.items ≡ self }
    {
        self.ports
    }
}

/// The subcommand `node`.
pub(super) fn node_command<'a>(alloc: Global) -> Result<Command<'a>, AllocError>
    ensures { IfOk result (IsLocal node_command) }
{
    let node = viewing_command(alloc, "node")?;
    let node = with_option(alloc, node, "port")?;
    let node = with_option(alloc, node, "ticks")?;
    let node = with_option(alloc, node, "hands")?;
    node.arg(Arg::new(alloc, "peer").action(ArgAction::Append))
}

/// The node that its words and options ask for.
pub(super) fn node_of(alloc: Global, node: &ArgMatches<'_>) -> Result<Call, RunError>
    ensures { Reads (IsCall (Some (codes "node", rows_of (found_of node.now)))) result }
{
    let conn = conn_of(node.get_str("conn"))?;
    let side = side_of(alloc, node.get_str("tile"))?;
    let port = port_of(alloc, node.get_str("port"))?;
    let ticks = number_within(alloc, node.get_str("ticks"), None, 1, 100_000)?;
    let hands = number_within(alloc, node.get_str("hands"), Some(2), 1, 16)?;
    let peers = peers_of(alloc, node.get_strs("peer"))?;
    let file = file_of(alloc, node.get_str("state"))?;
    Ok(Call::Node {
        conn,
        side,
        port,
        ticks,
        hands: hands as usize,
        peers,
        file,
    })
}

// The peers by the words behind `node`.
fn peers_of(alloc: Global, words: Option<&[&str]>) -> Result<Peers, RunError>
    ensures { Reads (PeersAre (option_map (λ texts. map (λ text. text.now) texts.now) words.entry)) result }
{
    match words {
        Some(texts) if 1 <= texts.len() && texts.len() <= 8 => ports_of(alloc, texts),
        _ => Err(RunError::Usage),
    }
}

// The ports that the texts are.
fn ports_of(alloc: Global, texts: &[&str]) -> Result<Peers, RunError>
    ensures { Reads (ArePorts (map (λ text. text.now) texts.now)) result }
{
    let mut ports = Vec::new(alloc);
    for text in texts {
        let port = port_of(alloc, Some(*text))?;
        if ports.push(port).is_err() {
            return Err(RunError::Memory);
        }
    }
    Ok(Peers { ports })
}

// The port that a value is.
fn port_of(alloc: Global, value: Option<&str>) -> Result<u16, RunError>
    ensures { Reads (PortIs (option_map (λ text. text.now) value.entry)) result }
{
    match number_within(alloc, value, None, 1, 65_535) {
        Ok(port) => Ok(port as u16),
        Err(error) => Err(error),
    }
}

/// The number that a value is in decimal, in this range, or the default, if there is one.
///
/// Errors: usage where it is no such number; out of memory.
pub(super) fn number_within(
    alloc: Global,
    value: Option<&str>,
    default: Option<u32>,
    least: u32,
    most: u32,
) -> Result<u32, RunError>
    ensures { Reads (NumberIs default least most (option_map (λ text. text.now) value.entry)) result }
{
    let Some(text) = value else {
        return default.ok_or(RunError::Usage);
    };
    let n = number_of(alloc, text)?;
    if least <= n && n <= most {
        return Ok(n);
    }
    Err(RunError::Usage)
}
