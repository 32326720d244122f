//! A round of all peers.
//!
//! One thread serves many peers, and all that they ask is answered by one service, whose state a file keeps. A round
//! takes in what has come from each peer, saves the file once if what is kept may have changed, and only then sends:
//!
//! ```text
//! let last = store.load(alloc, &path)?;
//! let service = ..;   // has what the file has
//! let mut keeper = StateKeeper::new(alloc, service, last, store, path);
//! let mut peers = PeerList::new(alloc, 64);
//! peers.admit(stream, Connection::new(alloc, keys, config), now);
//! loop {
//!     // .. wait for the streams
//!     while round(&mut keeper, &mut peers, now).moved {}
//!     // Those that are closed, those that said nothing for half a minute, and those whose request takes a minute.
//!     peers.sweep(now, 30_000, 60_000);
//! }
//! ```
//!
//! Others may write the same file. So a save first takes in what is found there, and what replaces it keeps both. The
//! bytes that the store answered last are remembered: where they are found again there is nothing to take in.
//!
//! Where the save fails, each peer whose calls in the round changed what is kept is closed, and nothing is sent to it;
//! those that only read are answered. The service keeps what it took, is told why it is not kept, and the next round
//! saves again.

ghost use Rattle.std.specs.Prelude.{◌≡◌, ◌↔◌, ◌⊎◌, IsTrue};
ghost use Rattle.page_service.specs.Keeping.{IsHeld, IsInFile, IsTracked};
ghost use Rattle.page_service.specs.Keeper.{keeping};
ghost use Rattle.page_server.specs.Peers.{peers_of, most_of};
ghost use Rattle.page_server.specs.Round.{IsRound};

use crate::ends_writing::EndsWriting;
use crate::peers::PeerList;
use page_service::{Kept, StateKeeper};
use std::io::Read;
use view_session::store::StateStore;

/// What a round did.
#[derive(Clone, Copy, Debug, PartialEq, Eq)]
pub struct RoundEnd {
    /// Whether all its answers stand, since the file keeps the state of the service.
    pub kept: bool,
    /// Whether bytes came or went. Then more may be there to do at once.
    pub moved: bool,
}

/// Takes in what has come from each peer, and lets the service answer; saves the file once, where what is kept may
/// have changed; and then sends what waits. Where the file is not kept, the peers whose calls in the round changed what
/// is kept are closed unanswered, and the service keeps what it took. Those whose calls only read are answered.
///
/// It reads at most 64 times from a peer and writes as often to it. `now` is the moment, in milliseconds.
pub fn round<S: Kept, T: StateStore, C: Read + EndsWriting + Drop>(
    keeper: &mut StateKeeper<S, T>,
    peers: &mut PeerList<C>,
    now: u64,
) -> RoundEnd
    ensures round { IsRound S.answers S.version S.spells S.has S.takes S.notes now result.kept result.moved
        (keeping T.seen keeper.old) (keeping T.seen keeper.new) (peers_of peers.old) (peers_of peers.new) }
    ensures most { most_of peers.new ≡ most_of peers.old }
    ensures tracked { IsTracked S.version S.spells S.has (keeping T.seen keeper.old)
        → IsTracked S.version S.spells S.has (keeping T.seen keeper.new) }
    ensures held { IsHeld (keeping T.seen keeper.old) → IsHeld (keeping T.seen keeper.new) }
    ensures in_file { IsTracked S.version S.spells S.has (keeping T.seen keeper.old)
        → IsTrue result.kept → IsInFile S.spells (keeping T.seen keeper.new) }
{
    let came = peers.take_in(keeper, now);
    let kept = keeper.keep();
    let went = peers.finish(kept, now);
    RoundEnd {
        kept,
        moved: has_moved(came, went),
    }
}

// Whether bytes came or went.
fn has_moved(came: bool, went: bool) -> bool
    ensures { IsTrue result ↔ (IsTrue came ⊎ IsTrue went) }
{
    came || went
}
