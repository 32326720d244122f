//! Nodes.

ghost use Rattle.std.specs.Prelude.{◌≡◌, None, IfOk, IfErr};
ghost use Rattle.studio.specs.Chains.{Begins};
ghost use Rattle.studio.specs.Words.{told_by, told_studio};

use crate::error::NodeError;
use crate::hearing::hear;
use crate::link::Link;
use crate::sight::{Next, Request, Sight, look_for_next};
use crate::ticked::{Sent, Ticked};
use byte_devices::Fault;
use core::mem::replace_with;
use core_dispatch::Pen;
use grid_core::{Conn, Memory};
use spd_codec::Print;
use std::alloc::Global;
use studio::{Eye, Told};

/// Who tells the strokes of a studio to other nodes, and brings theirs, for one image. It has a pen and an eye of the
/// studio.
#[derive(Drop)]
pub struct Node {
    pub(crate) pen: Pen,
    pub(crate) sight: Sight,
    pub(crate) conn: Conn,
    pub(crate) print: Print,
    // The piece that was sent last.
    pub(crate) last: Option<usize>,
}

impl Node {
    ghost use Rattle.core_dispatch.specs.Pens.{free_places};
    ghost use Rattle.link_nodes.specs.declared.ticked.Heard.TheVariants as heards;
    ghost use Rattle.link_nodes.specs.Sending.{HasPiece, IsNext};
    ghost use Rattle.link_nodes.specs.Ticking.{SendsNext, Ticks, HasLooked};
    ghost use Rattle.link_nodes.specs.Nodes.{pen_of, eye_of, conn_of, print_of, last_sent, vain_looks};
    ghost use Rattle.link_nodes.specs.Nodes.{chain_seen, chain_learnt, node_studio, IsSameNode};

    /// A node that sent nothing yet, for the image of this fingerprint, with these neighbours.
    pub fn new(pen: Pen, eye: Eye, conn: Conn, print: Print) -> Node
        ensures pen { pen_of result ≡ pen }
        ensures eye { eye_of result ≡ eye }
        ensures image { (conn_of result ≡ conn) × (print_of result ≡ print) }
        ensures last { last_sent result ≡ None }
        ensures vain { vain_looks result ≡ 0 }
    {
        Node {
            pen,
            sight: Sight::new(eye),
            conn,
            print,
            last: None,
        }
    }

    /// Learns of a show of its studio: from now on it sends pieces of the shot that was shown, or of a later one. It
    /// takes no memory, and waits for nobody.
    pub fn learn(&mut self, told: Told)
        requires studio { told_studio told ≡ node_studio self.old }
        ensures told { Begins (chain_learnt self.new) (told_by told) }
        ensures kept { Begins (chain_learnt self.new) (chain_learnt self.old) }
        ensures seen { chain_seen self.new ≡ chain_seen self.old }
        ensures pen { pen_of self.new ≡ pen_of self.old }
        ensures last { last_sent self.new ≡ last_sent self.old }
        ensures same { IsSameNode self.old self.new }
    {
        self.sight.learn(told);
    }

    /// Polls once, and submits the strokes of the frame that came, if it is for this image; then looks, and sends the
    /// frame of one piece of what is seen: of the piece behind the one sent last, or of piece 0 where there is none
    /// such. It waits for nobody.
    ///
    /// What is refused changes nothing: D1 for a frame of another image, D2 for other bytes, with the reason (M6 for
    /// more than 1400 bytes), D3 where the link failed, D4 for want of memory. Strokes for which no place in the pen's
    /// ring is seen to be free are dropped. A piece that was not sent is the next one still. A look that gives no
    /// glimpse is counted.
    pub fn tick<L: Link>(&mut self, alloc: Global, link: &mut L) -> Ticked
        ensures ticks { Ticks self.old self.new (L.seen link.old) (L.seen link.new) result }
        ensures full { result.heard ≡ heards.Full → free_places (pen_of self.new) ≡ 0 }
        ensures looked { HasLooked self.old self.new }
    {
        let heard = hear(alloc, link, self.conn, &self.print, &mut self.pen);
        let sent = self.send_next(alloc, link);
        Ticked { heard, sent }
    }

    // Looks, and sends the next piece of what is seen.
    fn send_next<L: Link>(&mut self, alloc: Global, link: &mut L) -> Sent
        ensures sent { SendsNext self.old self.new (L.seen link.old) (L.seen link.new) result }
        ensures looked { HasLooked self.old self.new }
        ensures pen { pen_of self.new ≡ pen_of self.old }
    {
        let next = match self.look(alloc) {
            Ok(Some(next)) => next,
            Ok(None) => return Sent::Nothing,
            Err(Memory) => return Sent::Refused(NodeError::Memory),
        };
        match link.send(&next.frame) {
            Ok(()) => {
                self.last = Some(next.piece);
                Sent::Piece(next.piece)
            }
            Err(Fault) => Sent::Refused(NodeError::Device),
        }
    }

    // Looks, and makes the frame of the next piece.
    fn look(&mut self, alloc: Global) -> Result<Option<Next>, Memory>
        ensures next { IfOk result (IsNext (conn_of self.old) (print_of self.old) (chain_learnt self.old)
            (vain_looks self.old) (vain_looks self.new) (chain_seen self.old) (chain_seen self.new)
            (last_sent self.old)) }
        ensures wanted { IfErr result (λ _. HasPiece (chain_seen self.new)) }
        ensures looked { HasLooked self.old self.new }
        ensures pen { pen_of self.new ≡ pen_of self.old }
        ensures last { last_sent self.new ≡ last_sent self.old }
    {
        let request = Request {
            alloc,
            conn: self.conn,
            print: self.print,
            last: self.last,
        };
        replace_with(&mut self.sight, request, look_for_next)
    }

    /// How many of its looks gave no glimpse. The count stops at `u64::MAX`.
    pub fn vain_looks(&self) -> u64
        ensures { result ≡ vain_looks self.now }
    {
        self.sight.vain
    }

    /// The pen and the eye.
    pub fn leave(self) -> (Pen, Eye)
        ensures pen { result.0 ≡ pen_of self }
        ensures eye { result.1 ≡ eye_of self }
    {
        let Node {
            pen,
            sight,
            conn: _,
            print: _,
            last: _,
        } = self;
        (pen, sight.leave())
    }
}
