//! The server of a page.

ghost use Rattle.std.specs.Prelude.{◌≡◌, ◌⊎◌, ◌↔◌, ◌/◌, ◌-◌, ◌^◌, [], min, ℕ, List, IfOk, IfErr, OnOk, IsTrue};
ghost use Rattle.std.specs.Prelude.{IsFalse};
ghost use Rattle.std.specs.Duration.{as_nanos};
ghost use Rattle.std.specs.Io.KnownBytes.{Appends};
ghost use Rattle.grid_core.specs.Tiles.{IsTileSide};
ghost use Rattle.view_session.specs.Store.{AreSame};
ghost use Rattle.run_faults.specs.declared.run_error.RunError.TheVariants as errors;
ghost use Rattle.page_board.specs.Board.{PageBoard as BoardSeen};
ghost use Rattle.page_server.specs.Hall.{guests_of};
ghost use Rattle.page_server.specs.Peers.{most_of, peers_of};
ghost use Rattle.page_server.specs.Caller.{front_of};
ghost use Rattle.page_server.specs.Serving.{IsKeptIn, IsServed, IsNotServed, address_line};
ghost use Rattle.page_server.specs.Slices.{AreFewThreads};
ghost use Rattle.page_service.specs.Showing.{ShowsKey};
ghost use Rattle.page_service.specs.MaskName.{naming_at};
ghost use Rattle.page_server.specs.Turning.{IsNewServer, AreRounds, LetsIn, TakesTurn, TakesAllTurns, WasServed, scene};
ghost use Rattle.page_server.specs.declared.site.Site.{Site as SiteSeen};

use crate::call::PaintCall;
use crate::caller::Caller;
use crate::chance::run_number;
use crate::door::Door;
use crate::forward::remove_forward;
use crate::hall::Hall;
use crate::mask_file::MaskFile;
use crate::opening::{KeptBoard, open_board};
use crate::page::Page;
use crate::peers::PeerList;
use crate::rounds::round;
use crate::site::Site;
use crate::slices::{jobs_of, threads_of};
use byte_devices::{Sink, StdSource};
use grid_core::Memory;
use http_server::Connection;
use mio::net::TcpStream;
use page_service::{Key, StateKeeper, config};
use raster_sweeps::Grower;
use run_faults::RunError;
use std::alloc::Global;
use std::hash::RandomState;
use std::io;
use std::marker::Sync;
use std::net::Net;
use std::random::RandomSource;
use std::rt::Files;
use std::thread::Threads;
use std::time::{Clock, Duration, Instant};
use view_session::store::{StatePath, StateStore};

// How many connections may be open.
const MOST_PEERS: usize = 64;

// How many are let in or turned away in a turn.
const MOST_COMERS: u32 = 64;

// How many rounds are made before the board settles again.
const MOST_ROUNDS: u32 = 16;

// For how many milliseconds a peer may move no byte.
const PATIENCE: u64 = 30_000;

// For how many milliseconds a request may be unfinished.
const MOST_TIME: u64 = 60_000;

/// Serves the page of a mask and of the state file that keeps its strokes, on 127.0.0.1, until the process is ended.
/// Puts one line into the sink, the address of the page; before that it writes the file that forwards there, where one
/// is asked for, which is gone while the start lasts. The image grows by `grower` before both, and later in at most
/// four threads of `starter`. It ends without an error only behind as many turns as can be counted.
///
/// Errors, the first that is met: P11 where an earlier file that forwards could not be removed; D3 where there are no
/// random bytes; V2 where the state file could not be loaded; P1 to P9 of the mask's file; M1 to M7 of the state file;
/// D1 where it is for another mask or connectivity; C1 or C2 at the first frame that those before it do not take; D3
/// where the port could not be bound, or where the system refused to tell the time or who is ready. P11 where the
/// mask's file could not be read, or where the line or the file that forwards could not be written; P10, M8, C4 or
/// plain want of memory.
pub fn paint<
    R: Net + Files + Clock + RandomSource,
    H: Threads + Sync,
    G: Grower,
    T: StateStore + Drop,
    K: Sink,
>(
    rt: &R,
    starter: &H,
    grower: &G,
    alloc: Global,
    call: PaintCall,
    store: T,
    sink: &mut K,
) -> Result<(), RunError>
    requires { IsTileSide call.side }
    ensures served { OnOk result ((site : SiteSeen) × (board : BoardSeen) × (kept : List ℕ) × (stored : T)
        × AreSame (T.seen store).held (T.seen stored).held
        × Appends (K.seen sink.old).written (K.seen sink.new).written (address_line site.hosts site.key)
        × (site.name ≡ naming_at call.mask)
        × IsServed call.conn call.side kept board × IsKeptIn (T.seen store).held call.file kept board
        × WasServed T.seen site board kept call.side stored call.file) }
    ensures refused { IfErr result (IsNotServed call.conn (T.seen store).held call.file) }
{
    let mut store = store;
    let opened = opened_for(rt, grower, alloc, &call, &mut store)?;
    match Site::told(rt, alloc, &call, sink) {
        Ok(site) => serve(
            rt, starter, alloc, site, opened, call.side, store, call.file,
        ),
        Err(why) => {
            drop(opened);
            Err(why)
        }
    }
}

// The board of a call, under a new number. A file that forwards to an earlier start is gone before.
fn opened_for<R: Files + RandomSource, G: Grower, T: StateStore>(
    rt: &R,
    grower: &G,
    alloc: Global,
    call: &PaintCall,
    store: &mut T,
) -> Result<KeptBoard, RunError>
    requires { IsTileSide call.now.side }
    ensures opened { IfOk result (λ o. IsServed call.now.conn call.now.side o.kept.items o.board) }
    ensures kept { IfOk result (λ o. IsKeptIn (T.seen store.old).held call.now.file o.kept.items o.board) }
    ensures refused { IfErr result (IsNotServed call.now.conn (T.seen store.old).held call.now.file) }
    ensures files { AreSame (T.seen store.old).held (T.seen store.new).held }
{
    if let Err(why) = remove_forward(rt, &call.forward) {
        return Err(why);
    }
    let Ok(run) = run_number(rt) else {
        return Err(RunError::Link);
    };
    let mut source = StdSource::new(MaskFile::<R>::open(rt, call.mask.as_str()));
    open_board(
        grower,
        alloc,
        &mut source,
        &call.file,
        store,
        call.conn,
        call.side,
        run,
    )
}

// Serves a board at a site, for as long as anybody counts.
fn serve<R: Clock + RandomSource, H: Threads + Sync, T: StateStore + Drop>(
    rt: &R,
    starter: &H,
    alloc: Global,
    site: Site,
    opened: KeptBoard,
    side: u32,
    store: T,
    file: StatePath,
) -> Result<(), RunError>
    requires side { IsTileSide side }
    requires kept { IsKeptIn (T.seen store).held file opened.kept.items opened.board }
    ensures served { OnOk result (WasServed T.seen site opened.board opened.kept.items side store file) }
    ensures ended { IfErr result (λ e. (e ≡ errors.Link) ⊎ (e ≡ errors.Memory)) }
{
    let threads = threads_of(starter);
    let mut server = Server::new(alloc, site, opened, side, threads, store, file)?;
    match server.serve(rt, starter) {
        Ok(()) => {
            drop(server);
            Ok(())
        }
        Err(_) => {
            drop(server);
            Err(RunError::Link)
        }
    }
}

// A server: the door, the hall behind it, those who have a place, and what answers them.
#[derive(Drop)]
pub(crate) struct Server<T> {
    alloc: Global,
    door: Door,
    hall: Hall<TcpStream>,
    keeper: StateKeeper<Page, T>,
    peers: PeerList<Caller<TcpStream>>,
    is_busy: bool,
}

impl<T: StateStore + Drop> Server<T> {
    // The server of a board, whose state file the store has under this name already, and which settles by so many
    // threads.
    pub(crate) fn new(
        alloc: Global,
        site: Site,
        opened: KeptBoard,
        side: u32,
        threads: usize,
        store: T,
        file: StatePath,
    ) -> Result<Server<T>, Memory>
        requires side { IsTileSide side }
        requires threads { AreFewThreads threads }
        requires kept { IsKeptIn (T.seen store).held file opened.kept.items opened.board }
        ensures { IfOk result (IsNewServer T.seen site opened.board opened.kept.items side store file) }
    {
        match places(alloc, &site.key) {
            Ok((hall, peers)) => {
                let Site {
                    door,
                    hosts,
                    key,
                    name,
                } = site;
                let KeptBoard { board, kept } = opened;
                let jobs = jobs_of(side, threads);
                let page = Page::new(alloc, board, hosts, key, name, threads, jobs);
                Ok(Server {
                    alloc,
                    door,
                    hall,
                    keeper: StateKeeper::new(alloc, page, kept, store, file),
                    peers,
                    is_busy: true,
                })
            }
            Err(why) => {
                drop(site);
                drop(opened);
                Err(why)
            }
        }
    }

    // Takes turns, for as long as anybody counts.
    pub(crate) fn serve<R: Clock + RandomSource, H: Threads + Sync>(
        &mut self,
        rt: &R,
        starter: &H,
    ) -> io::Result<()>
        ensures { OnOk result (TakesAllTurns T.seen self.old self.new) }
    {
        let start = Instant::now(rt)?;
        for _ in 0..u64::MAX {
            self.door.wait(patience(self.is_busy))?;
            let now = start.elapsed(rt)?;
            self.turn(rt, starter, millis(now));
        }
        Ok(())
    }

    // A turn: who has shown the key is let in, bytes come and go, who is still or slow goes, and the board settles a
    // little.
    fn turn<R: RandomSource, H: Threads + Sync>(&mut self, rt: &R, starter: &H, now: u64)
        ensures { TakesTurn T.seen now self.old self.new }
    {
        let is_crowded = self.let_in(rt, now);
        let is_moving = self.make_rounds(now);
        self.peers.sweep(now, PATIENCE, MOST_TIME);
        self.hall.sweep(now);
        let is_working = self.keeper.work(starter);
        self.is_busy = is_any(is_moving, is_working, is_crowded);
    }

    // Lets in who came: into the hall, and from there to a place as soon as the key is shown. Says whether more may
    // stand at the door, of whom nothing is told anew: so it is where each try let somebody in.
    fn let_in<R: RandomSource>(&mut self, rt: &R, now: u64) -> bool
        ensures { LetsIn now self.old self.new }
    {
        for _ in 0..MOST_COMERS {
            let has_come = self.receive(now);
            let is_seated = self.seat(rt, now);
            if !has_come && !is_seated {
                return false;
            }
        }
        true
    }

    // Lets one who came into the hall. Says whether somebody did.
    fn receive(&mut self, now: u64) -> bool
        ensures { LetsIn now self.old self.new }
    {
        match self.door.accept() {
            Ok(stream) => {
                self.hall.admit(stream, now);
                true
            }
            Err(_) => false,
        }
    }

    // Gives a place to one in the hall who has shown the key, where there is one and a place is free. Says whether it
    // did.
    fn seat<R: RandomSource>(&mut self, rt: &R, now: u64) -> bool
        ensures { LetsIn now self.old self.new }
    {
        self.hall.listen();
        if self.peers.len() >= MOST_PEERS {
            return false;
        }
        match self.hall.next() {
            Some((heard, stream)) => self.admit(rt, Caller::new(heard, stream), now),
            None => false,
        }
    }

    // Gives a place to one who has shown the key. Says whether it did.
    fn admit<R: RandomSource>(&mut self, rt: &R, caller: Caller<TcpStream>, now: u64) -> bool
        requires { ShowsKey self.old.hall.key (front_of caller) }
        ensures { LetsIn now self.old self.new }
    {
        match RandomState::new(rt) {
            Ok(keys) => {
                let connection = Connection::new(self.alloc, keys, config());
                self.peers.admit(caller, connection, now)
            }
            Err(_) => false,
        }
    }

    // Makes rounds while bytes move. Says whether more may be there to do.
    fn make_rounds(&mut self, now: u64) -> bool
        ensures rounds { AreRounds now 16 result (scene T.seen self.old) (scene T.seen self.new) }
        ensures most { most_of self.new.peers ≡ most_of self.old.peers }
        ensures hall { self.new.hall ≡ self.old.hall }
    {
        for _ in 0..MOST_ROUNDS {
            if !round(&mut self.keeper, &mut self.peers, now).moved {
                return false;
            }
        }
        true
    }
}

// The hall before the places, where this key is to be shown, and the places. All are empty.
fn places(
    alloc: Global,
    key: &Key,
) -> Result<(Hall<TcpStream>, PeerList<Caller<TcpStream>>), Memory>
    ensures key { IfOk result (λ both. both.0.key ≡ key.now) }
    ensures empty { IfOk result (λ both. guests_of both.0 ≡ []) }
    ensures nobody { IfOk result (λ both. peers_of both.1 ≡ []) }
    ensures most { IfOk result (λ both. most_of both.1 ≡ 64) }
{
    let hall = Hall::new(alloc, key.copy(alloc)?);
    match PeerList::new(alloc, MOST_PEERS) {
        Ok(peers) => Ok((hall, peers)),
        Err(why) => {
            drop(hall);
            Err(why)
        }
    }
}

// How long to wait at most where nobody is ready: not at all where there is something to do, else for a second, so that
// those are dropped who are still for too long.
fn patience(is_busy: bool) -> Duration
    ensures busy { IsTrue is_busy → as_nanos result ≡ 0 }
    ensures idle { IsFalse is_busy → as_nanos result ≡ 1_000_000_000 }
{
    if is_busy {
        Duration::ZERO
    } else {
        Duration::from_secs(1)
    }
}

// Whether bytes moved, work is left, or more may stand at the door.
fn is_any(is_moving: bool, is_working: bool, is_crowded: bool) -> bool
    ensures { IsTrue result ↔ (IsTrue is_moving ⊎ IsTrue is_working ⊎ IsTrue is_crowded) }
{
    is_moving || is_working || is_crowded
}

// The time in milliseconds, or `u64::MAX` where there are more.
fn millis(time: Duration) -> u64
    ensures { result ≡ min (as_nanos time / 1_000_000) (2 ^ 64 - 1) }
{
    time.as_secs()
        .saturating_mul(1000)
        .saturating_add(time.subsec_millis() as u64)
}
