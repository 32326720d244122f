//! A view that is shared by a node, over a state file or over none.

ghost use Rattle.std.specs.Prelude.{◌≡◌, option_map, IfErr, IsErrOf};
ghost use Rattle.grid_core.specs.Tiles.{IsTileSide};
ghost use Rattle.view_session.specs.Serving.{AnswersOverStore};
ghost use Rattle.run_faults.specs.declared.run_error.RunError.TheVariants as errors;
ghost use Rattle.node_session.specs.Network.{Binds, IsBound, TellsNetwork};
ghost use Rattle.node_session.specs.Stored.{IsNodeFault, IsShownNode, IsStoredNode, LoadsFor, SavesFor};
ghost use Rattle.node_session.specs.Stored.{StoredNodeStops};

use crate::network::Network;
use crate::running::node_strokes;
use byte_devices::{Fault, Sink, Source};
use grid_core::Conn;
use run_faults::RunError;
use std::alloc::Global;
use std::sync::Wait;
use std::thread::Threads;
use std::time::Clock;
use view_session::joining::Strokes;
use view_session::store::{StatePath, StateStore};

/// What a node is called to do.
#[derive(Drop)]
pub struct NodeCall<'a> {
    /// Which pixels are neighbours.
    pub conn: Conn,
    /// The side of the tiles.
    pub side: u32,
    /// How many hands sweep, 1 to 16.
    pub hands: usize,
    /// How many ticks the node makes.
    pub ticks: u32,
    /// The port that it listens at.
    pub port: u16,
    /// The ports of its peers.
    pub peers: Vec<u16>,
    /// The file that keeps its strokes, where there is one.
    pub file: Option<&'a StatePath>,
}

/// The run of a node over the strokes of a state file: the file is loaded from the store, and the port bound, before
/// the source is read; the image is written as [`node_run`](crate::node_run) writes it, and then its strokes are saved,
/// joined with what the file has by then. Without a file nothing is loaded and nothing kept.
///
/// Errors: V2 where the file could not be loaded, and D3 where the port could not be bound, with source and sink as
/// they were; those of [`node_run`](crate::node_run). After the image was written: V2 where the file could not be
/// saved; M1 to M8, D1, C1, C2 or C4 of what it has by then; plain want of memory. After each the files are as they
/// were.
pub fn node_stored<R: Threads + Wait + Clock + Sync, S: Source, T: StateStore, N: Network, K: Sink>(
    rt: &R,
    alloc: Global,
    source: &mut S,
    call: NodeCall<'_>,
    store: &mut T,
    network: &mut N,
    sink: &mut K,
) -> Result<(), RunError>
    requires { IsTileSide call.side }
    ensures runs { AnswersOverStore
        (IsStoredNode N.Link.seen call.entry.conn call.entry.hands call.entry.ticks
        (option_map (λ path. path.now) call.entry.file))
        (IsShownNode N.Link.seen call.entry.conn call.entry.hands call.entry.ticks
        (option_map (λ path. path.now) call.entry.file))
        (StoredNodeStops N.Link.seen call.entry.conn call.entry.hands call.entry.ticks
        (option_map (λ path. path.now) call.entry.file))
        (IsNodeFault (option_map (λ path. path.now) call.entry.file)) result
        S.seen source.old source.new T.seen store.old store.new K.seen sink.old sink.new }
    ensures network { TellsNetwork (IsBound call.entry.port call.entry.peers.items) result
        (N.seen network.old) (N.seen network.new) }
    ensures unread { IsErrOf result errors.Link → source.new ≡ source.old }
{
    let NodeCall {
        conn,
        side,
        hands,
        ticks,
        port,
        peers,
        file,
    } = call;
    let old = load_for(alloc, file, store)?;
    let mut link = open(network, port, peers)?;
    let mut strokes = node_strokes(
        rt, alloc, source, &old, conn, side, hands, ticks, &mut link, sink,
    )?;
    save_for(alloc, file, store, &mut strokes)?;
    Ok(())
}

// The bytes of the file, if there is one.
fn load_for<T: StateStore>(
    alloc: Global,
    file: Option<&StatePath>,
    store: &mut T,
) -> Result<Vec<u8>, RunError>
    ensures { LoadsFor (λ v. v.items) (T.seen store.old) (T.seen store.new) result
        (option_map (λ path. path.now) file.entry) }
{
    match file {
        Some(path) => store.load(alloc, path),
        None => Ok(Vec::new(alloc)),
    }
}

// Saves the strokes in the file, if there is one, and answers what it has then.
fn save_for<T: StateStore>(
    alloc: Global,
    file: Option<&StatePath>,
    store: &mut T,
    strokes: &mut Strokes,
) -> Result<Vec<u8>, RunError>
    ensures { SavesFor (λ v. v.items) (T.seen store.old) (T.seen store.new) strokes.old strokes.new result
        (option_map (λ path. path.now) file.entry) }
{
    match file {
        Some(path) => store.save(alloc, path, strokes),
        None => Ok(Vec::new(alloc)),
    }
}

// A link at the port, or D3.
fn open<N: Network>(network: &mut N, port: u16, peers: Vec<u16>) -> Result<N::Link, RunError>
    ensures binds { Binds (N.seen network.old) (N.seen network.new) result port peers.items }
    ensures link { IfErr result (λ e. e ≡ errors.Link) }
{
    match network.bind(port, peers) {
        Ok(link) => Ok(link),
        Err(Fault) => Err(RunError::Link),
    }
}
