//! A session: a board over a state file in memory, and rounds of those who ask.

use crate::client::Client;
use crate::files::FOUR;
use crate::host::Host;
use crate::served::Served;
use crate::spelling::{KEY, OURS, Request, begins};
use byte_devices::MemorySource;
use grid_core::{Conn, Memory};
use http_server::Connection;
use page_server::opening::{KeptBoard, open_board};
use page_server::{PeerList, round};
use page_service::{Hosts, Key, MaskName, Painting, StateKeeper, config};
use raster_sweeps::OneThread;
use run_faults::RunError;
use std::alloc::Global;
use std::cell::RefCell;
use std::hash::RandomState;
use view_session::memory_store::MemoryStore;
use view_session::store::StatePath;

/// The key of all sessions, as bits.
const BITS: u128 = 0x0123_4567_89ab_cdef_0011_2233_4455_6677;

/// The path of the mask of all sessions.
const MASK: &str = "../plates/1+1 \"cells\" 50%_é'~.pgm";

/// What one says that looks on.
const LOOK: &[u8] =
    b"GET /0123456789abcdef0011223344556677/mask HTTP/1.1\r\nHost: localhost:8080\r\n\r\n";

/// What a session begins with: the files of the mask and of the strokes, and the numbers of the pull of the mask's file
/// and of the call of the store that fail.
#[derive(Clone, Copy, Drop)]
pub struct Scene {
    pub mask: &'static [u8],
    pub kept: &'static [u8],
    pub failing_pull: u64,
    pub failing_call: u64,
}

/// Four pixels in a row without strokes, where nothing fails.
pub const BLANK: Scene = Scene {
    mask: FOUR,
    kept: b"",
    failing_pull: 1000,
    failing_call: 1000,
};

/// A board at port 8080, whose run is 5 and whose tiles have the side 8, with its file, and what those were told who
/// asked last and looked on.
#[derive(Drop)]
pub struct Session {
    keeper: StateKeeper<Served, MemoryStore>,
    name: StatePath,
    told: RefCell<Vec<u8>>,
    seen: RefCell<Vec<u8>>,
    unseen: u32,
}

// What is made before a board is opened: the name of its file, twice, who may ask, how the mask is called, and the
// store.
#[derive(Drop)]
struct Setting {
    path: StatePath,
    name: StatePath,
    hosts: Hosts,
    key: Key,
    mask: MaskName,
    store: MemoryStore,
}

fn setting_of(alloc: Global, scene: &Scene) -> Result<Setting, Memory> {
    let path = StatePath::new(alloc, "strokes")?;
    let name = StatePath::new(alloc, "strokes")?;
    let hosts = Hosts::new(alloc, 8080)?;
    let key = Key::new(alloc, BITS)?;
    let mask = MaskName::new(alloc, MASK)?;
    let store = MemoryStore::new(alloc).with_file(&path, scene.kept)?;
    Ok(Setting {
        path,
        name,
        hosts,
        key,
        mask,
        store: store.failing_at(scene.failing_call),
    })
}

fn board_of(alloc: Global, setting: &mut Setting, scene: &Scene) -> Result<KeptBoard, RunError> {
    let mask = Vec::from_slice(alloc, scene.mask).or(Err(Memory))?;
    let mut source = MemorySource::new(mask).failing_at(scene.failing_pull);
    let (conn, path, store) = (Conn::Four, &setting.path, &mut setting.store);
    open_board(&OneThread, alloc, &mut source, path, store, conn, 8, 5)
}

/// Takes a client in. Whether there is memory for its connection.
pub fn admit<'a>(rt: &impl Host, peers: &mut PeerList<Client<'a>>, client: Client<'a>) -> bool {
    match RandomState::new(rt) {
        Ok(keys) => peers.admit(client, Connection::new(rt.alloc(), keys, config()), 0),
        Err(_) => false,
    }
}

// Rounds while bytes move and all is kept.
fn rounds(keeper: &mut StateKeeper<Served, MemoryStore>, peers: &mut PeerList<Client<'_>>) {
    for _ in 0..16 {
        let end = round(keeper, peers, 0);
        if !end.kept || !end.moved {
            return;
        }
    }
}

impl Session {
    /// A session that begins so.
    ///
    /// Errors: those of a board that is opened.
    pub fn open(alloc: Global, scene: &Scene) -> Result<Session, RunError> {
        let mut setting = setting_of(alloc, scene)?;
        match board_of(alloc, &mut setting, scene) {
            Ok(opened) => Ok(Session::over(alloc, setting, opened)),
            Err(why) => {
                drop(setting);
                Err(why)
            }
        }
    }

    fn over(alloc: Global, setting: Setting, opened: KeptBoard) -> Session {
        let Setting {
            path,
            name,
            hosts,
            key,
            mask,
            store,
        } = setting;
        let KeptBoard { board, kept } = opened;
        let policy = "default-src 'self'";
        let painting = Painting::new(alloc, board, hosts, key, mask, b"page", policy);
        let served = Served { alloc, painting };
        Session {
            keeper: StateKeeper::new(alloc, served, kept, store, path),
            name,
            told: RefCell::new(Vec::new(alloc)),
            seen: RefCell::new(Vec::new(alloc)),
            unseen: 0,
        }
    }

    /// Lets a client ask this while another looks at the mask, and then the board settle.
    pub fn ask(&mut self, rt: &impl Host, request: &Request<'_>) {
        self.told.get_mut().clear();
        self.seen.get_mut().clear();
        if let Ok(asked) = request.spelled(rt.alloc(), KEY) {
            self.turn(rt, &asked);
        }
        if !begins(self.seen.get_mut(), b"200") {
            self.unseen = self.unseen.saturating_add(1);
        }
        if self.keeper.work(rt) {
            self.keeper.work(rt);
        }
    }

    /// The same of a request with our fields.
    pub fn ask_ours(&mut self, rt: &impl Host, line: &str, body: &[u8]) {
        let fields = OURS;
        self.ask(rt, &Request { line, fields, body });
    }

    // Makes rounds with one who asks this, and one who looks on.
    fn turn(&mut self, rt: &impl Host, asked: &[u8]) {
        let Ok(mut peers) = PeerList::new(rt.alloc(), 2) else {
            return;
        };
        let asking = Client::new(asked, usize::MAX, &self.told);
        let looking = Client::ready(LOOK, &self.seen);
        if admit(rt, &mut peers, asking) && admit(rt, &mut peers, looking) {
            rounds(&mut self.keeper, &mut peers);
        }
        drop(peers);
    }

    /// A round at this moment, behind which those go who are still or slow.
    pub fn turn_at(&mut self, peers: &mut PeerList<Client<'_>>, now: u64) {
        round(&mut self.keeper, peers, now);
        peers.sweep(now, 30_000, 60_000);
    }

    /// What the last client was told that asked.
    pub fn told(&mut self) -> &[u8] {
        self.told.get_mut()
    }

    /// How often one that looked on was not told the mask.
    pub fn unseen(&self) -> u32 {
        self.unseen
    }

    /// How many texts and files were taken, with that of the beginning.
    pub fn version(&self) -> u64 {
        self.keeper.version()
    }

    /// Whether the file is these bytes.
    pub fn has_file(&self, bytes: &[u8]) -> bool {
        self.keeper.store().file(&self.name) == bytes
    }

    /// How many bytes the file has.
    pub fn file_len(&self) -> usize {
        self.keeper.store().file(&self.name).len()
    }
}
