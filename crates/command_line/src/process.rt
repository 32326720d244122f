//! The run of a process: its words, its input, and what it says at the end.

ghost use Rattle.std.specs.Prelude.{◌≡◌, IsErrOf, MatchResult};
ghost use Rattle.std.specs.Process.{exit_status};
ghost use Rattle.run_faults.specs.RunError.{HasStatus, error_line};
ghost use Rattle.view_session.specs.Serving.{AnswersOverStore};
ghost use Rattle.node_session.specs.Network.{TellsNetwork};
ghost use Rattle.command_line.specs.Run.{CanBeMade, EndsEarly, IsAnswer, IsShownBy, Leaves, StopsOn};
ghost use Rattle.command_line.specs.Run.{IfEnded, IfHandedBack, IsSaid, Tells, TellsLine};
ghost use Rattle.command_line.specs.Run.{RunAnswers, RunEndsEarly, RunLeaves, RunShows, RunStops};
ghost use Rattle.command_line.specs.Words.{ProcessSaysNone};
ghost use Rattle.command_line.specs.declared.words.Call.TheVariants as call;
ghost use Rattle.grid_core.specs.Tiles.{IsTileSide};

use crate::words::{Call, read_process_words};
use band_growth::ManyThreads;
use byte_devices::{Sink, Source};
use node_session::network::Network;
use node_session::stored::{NodeCall, node_stored};
use page_server::PaintCall;
use run_faults::{RunError, put_fault, status};
use std::alloc::Global;
use std::process::ExitCode;
use std::sync::Wait;
use std::thread::Threads;
use std::time::Clock;
use std::{env, io};
use view_session::derive::derive_run_by;
use view_session::store::StateStore;
use view_session::stored::view_stored_by;
use view_session::view::view_run_by;

/// Makes the call that the words of the process say, as `env::args` gives them, from the source to the sink. The state
/// file of a view or a node that has one is loaded from the store before the source is read; after the image is written
/// its strokes are saved, joined with what the file has by then. A node binds its port on the network, between the load
/// and the reading. A painting is handed back, with source, store, network and sink as they were. A view and a
/// derivation of a large image are grown in threads ([`ManyThreads`]).
///
/// Errors: usage or want of memory for the words, with source, store, network and sink as they were; else those of the
/// call ([`view_run_by`], [`view_stored_by`], [`node_stored`], [`derive_run_by`]). After each the files are as they
/// were.
pub fn run<R: Threads + Wait + Clock + Sync, S: Source, T: StateStore, N: Network, K: Sink>(
    rt: &R,
    alloc: Global,
    args: io::Result<env::Args>,
    source: &mut S,
    store: &mut T,
    network: &mut N,
    sink: &mut K,
) -> Result<Option<PaintCall>, RunError>
    ensures runs { IfEnded result (λ ended. AnswersOverStore (RunAnswers N.Link.seen args) (RunShows N.Link.seen args)
        (RunStops N.Link.seen args) (RunEndsEarly args) ended S.seen source.old source.new T.seen store.old store.new
        K.seen sink.old sink.new) }
    ensures network { IfEnded result (λ ended. TellsNetwork (RunLeaves args (N.seen network.old)) ended
        (N.seen network.old) (N.seen network.new)) }

    // A painting that the words say.
    ensures painting { IfHandedBack result (λ painting. IsSaid args (λ said. said ≡ call.Paint painting)) }
    ensures side { IfHandedBack result (λ painting. IsTileSide painting.side) }
    ensures untouched { IfHandedBack result (λ _. (source.new ≡ source.old) × (store.new ≡ store.old)
        × (network.new ≡ network.old) × (sink.new ≡ sink.old)) }

    // Words that say no call are usage, and leave the source alone. So does a port that could not be bound.
    ensures usage { IsErrOf result RunError.Usage → ProcessSaysNone args }
    ensures unread { IsErrOf result RunError.Usage → source.new ≡ source.old }
    ensures unbound { IsErrOf result RunError.Link → source.new ≡ source.old }
{
    let said = read_process_words(alloc, args)?;
    match said {
        Call::Paint(painting) => Ok(Some(painting)),
        call => {
            make(rt, alloc, source, call, store, network, sink)?;
            Ok(None)
        }
    }
}

// Makes a call that is no painting, from the source to the sink.
fn make<R: Threads + Wait + Clock + Sync, S: Source, T: StateStore, N: Network, K: Sink>(
    rt: &R,
    alloc: Global,
    source: &mut S,
    call: Call,
    store: &mut T,
    network: &mut N,
    sink: &mut K,
) -> Result<(), RunError>
    requires can_be { CanBeMade call }
    ensures runs { AnswersOverStore (IsAnswer N.Link.seen call) (IsShownBy N.Link.seen call)
        (StopsOn N.Link.seen call) (EndsEarly call) result
        S.seen source.old source.new T.seen store.old store.new K.seen sink.old sink.new }
    ensures network { TellsNetwork (Leaves call (N.seen network.old)) result
        (N.seen network.old) (N.seen network.new) }
    ensures no_usage { IsErrOf result RunError.Usage → ⊥ }
    ensures unbound { IsErrOf result RunError.Link → source.new ≡ source.old }
{
    let grower = ManyThreads::new(rt);
    match call {
        Call::View { conn, side, file } => match file {
            None => view_run_by(&grower, alloc, source, conn, sink),
            Some(path) => view_stored_by(&grower, alloc, source, conn, side, &path, store, sink),
        },
        Call::Node {
            conn,
            side,
            port,
            ticks,
            hands,
            peers,
            file,
        } => {
            let call = NodeCall {
                conn,
                side,
                hands,
                ticks,
                port,
                peers: peers.into_ports(),
                file: file.as_ref(),
            };
            node_stored(rt, alloc, source, call, store, network, sink)
        }
        Call::Derive { kind, h, conn } => derive_run_by(
            &grower, alloc, source, kind, h, conn, sink,
        ),
        Call::Paint(_) => unreachable!(),
    }
}

/// The exit status of a run, told with its line on the sink of errors where it ended in a fault. A failure to
/// write that line can be told to nobody. It takes no memory, so that each fault is told by its own line.
pub fn conclude<K: Sink>(outcome: &Result<(), RunError>, errors: &mut K) -> ExitCode
    ensures status { MatchResult outcome.now (λ _. exit_status result ≡ 0) (λ e. HasStatus e (exit_status result)) }
    ensures told { Tells outcome.now (K.seen errors.old) (K.seen errors.new) }
{
    match outcome {
        Ok(()) => ExitCode::SUCCESS,
        Err(error) => {
            tell(error, errors);
            ExitCode::from(status(error))
        }
    }
}

// Puts the line of a fault. A failure can be told to nobody.
fn tell<K: Sink>(error: &RunError, errors: &mut K)
    ensures { TellsLine (K.seen errors.old) (K.seen errors.new) (error_line error.now) }
{
    let _ = put_fault(error, errors);
}
