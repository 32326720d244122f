//! Nodes over links in memory.

ghost use Rattle.std.specs.Prelude.{IfSome};
ghost use Rattle.link_nodes.specs.Nodes.{IsSameNode, pen_of};
ghost use Rattle.core_dispatch.specs.Pens.{IsOf};
ghost use Rattle.studio.specs.Keeping.{books_of};
ghost use Rattle.thread_tests.specs.Company.{IsCompany};

use crate::frames::{FIRST, OF_ANOTHER_IMAGE};
use crate::outcome::succeeded;
use crate::pictures::{BOTH, Edit, Mask, settles};
use crate::scene::{Scene, close_keeper, ends_of, open};
use grid_core::Conn;
use link_nodes::{Heard, Link, MemoryLink, Node, NodeError, Sent};
use reset_core::Core;
use spd_codec::{Print, SpdError};
use std::alloc::Global;
use std::sync::Wait;
use std::test::Fail;
use studio::Keeper;

// The fingerprint of the row, which stands in a frame.
fn print_of_row() -> Print {
    let mut print = [0; 32];
    for (byte, told) in print.iter_mut().zip(FIRST.iter().skip(5)) {
        *byte = *told;
    }
    Print::from_bytes(print)
}

// The keeper of a studio, and a node for the row.
fn node_of(scene: Scene) -> (Keeper, Node)
    requires { IsCompany scene }
    ensures { IsOf (pen_of result.1) (books_of result.0) }
{
    let Scene {
        keeper,
        pen,
        eye,
        hands,
    } = scene;
    drop(hands);
    (keeper, Node::new(pen, eye, Conn::Four, print_of_row()))
}

// Whether the core takes the edit.
fn takes(alloc: Global, core: &mut Core, edit: Edit) -> bool {
    match edit.delta(alloc) {
        Some(delta) => {
            let is_taken = succeeded(core.merge(alloc, &delta));
            drop(delta);
            is_taken
        }
        None => false,
    }
}

// A core with these strokes, and the tombstones of so many tags from 100 on.
fn core_with(alloc: Global, edits: &[Edit], buried: u16) -> Option<Core> {
    let mut core = Mask::Row.core(alloc, Conn::Four)?;
    let mut are_in = true;
    for edit in edits {
        are_in = takes(alloc, &mut core, *edit) & are_in;
    }
    for number in 0..buried {
        let edit = Edit::Withdraw(u128::from(number) + 100);
        are_in = takes(alloc, &mut core, edit) & are_in;
    }
    are_in.then_some(core)
}

// The keeper of a new studio of such a core, and its node.
fn open_node<R: Wait>(rt: &R, alloc: Global, edits: &[Edit], buried: u16) -> Option<(Keeper, Node)>
    ensures { IfSome result (λ desk. IsOf (pen_of desk.1) (books_of desk.0)) }
{
    let scene = open(rt, alloc, core_with(alloc, edits, buried)?, 1)?;
    Some(node_of(scene))
}

// Whether the link can be fed the datagrams that the other sent, at these places.
fn carries(to: &mut MemoryLink, from: &MemoryLink, places: &[usize]) -> bool {
    for place in places {
        if *place >= from.sent().len() || to.carry(from, &[*place]).is_err() {
            return false;
        }
    }
    true
}

// Whether the ticks of a node come to these.
fn ticks(alloc: Global, node: &mut Node, link: &mut MemoryLink, all: &[(Heard, Sent)]) -> bool
    ensures { IsSameNode node.old node.new }
{
    let mut are_so = true;
    for (heard, sent) in all {
        let ticked = node.tick(alloc, link);
        are_so = (ticked.heard == *heard) & (ticked.sent == *sent) & are_so;
    }
    are_so
}

const TAKEN: Heard = Heard::Submitted;

const FAILED: Heard = Heard::Refused(NodeError::Device);

const TOO_LONG: Heard = Heard::Refused(NodeError::Spd(SpdError::TooLong));

// What comes of a frame for the image, of one for another, of one that is too long, and of nothing.
const HEARD: &[&[(Heard, Sent)]] = &[&[
    (TAKEN, Sent::Nothing),
    (Heard::Refused(NodeError::OtherMask), Sent::Nothing),
    (TOO_LONG, Sent::Nothing),
    (Heard::Nothing, Sent::Nothing),
]];

const UNSENT: Sent = Sent::Refused(NodeError::Device);

// What comes of two ticks where the call of number 1 fails, that of number 2, and so on. At each tick a poll comes
// before a send, and there are three pieces to send, one after another.
const FAILING: &[&[(Heard, Sent)]] = &[
    &[(FAILED, Sent::Piece(0)), (TAKEN, Sent::Piece(1))],
    &[(TAKEN, UNSENT), (TAKEN, Sent::Piece(2))],
    &[(TAKEN, Sent::Piece(0)), (FAILED, Sent::Piece(1))],
    &[(TAKEN, Sent::Piece(2)), (TAKEN, UNSENT)],
];

// Whether the relay can send these datagrams, and the link be fed them.
fn feeds(link: &mut MemoryLink, relay: &mut MemoryLink, fed: &[&[u8]]) -> bool {
    for (place, datagram) in fed.iter().enumerate() {
        if relay.send(datagram).is_err() || !carries(link, relay, &[place]) {
            return false;
        }
    }
    true
}

/// A link that is fed these datagrams, and whose call of a number fails.
pub fn link_with(alloc: Global, fed: &[&[u8]], fails_at: Option<u64>) -> Option<MemoryLink> {
    let mut link = MemoryLink::new(alloc, fails_at);
    let mut relay = MemoryLink::new(alloc, None);
    let is_fed = feeds(&mut link, &mut relay, fed);
    drop(relay);
    is_fed.then_some(link)
}

// Whether the ticks of a node come to these over the link, if it is there.
fn ticks_over(
    alloc: Global,
    node: &mut Node,
    link: Option<MemoryLink>,
    all: &[(Heard, Sent)],
) -> bool {
    match link {
        Some(mut link) => {
            let are_so = ticks(alloc, node, &mut link, all);
            drop(link);
            are_so
        }
        None => false,
    }
}

// Whether the ticks of the node of a new studio, whose core has so many tombstones, come to these over one link after
// another, each of which is fed these datagrams; the first call of the first link fails, the second of the second, and
// so on, or none; and whether no look was in vain.
fn goes<R: Wait>(
    rt: &R,
    alloc: Global,
    buried: u16,
    fed: &[&[u8]],
    fails: bool,
    links: &[&[(Heard, Sent)]],
) -> bool {
    let Some((keeper, mut node)) = open_node(rt, alloc, &[], buried) else {
        return false;
    };
    let mut are_so = true;
    let mut call: u64 = 0;
    for all in links {
        call = call.saturating_add(1);
        let link = link_with(alloc, fed, fails.then_some(call));
        are_so = ticks_over(alloc, &mut node, link, all) & are_so;
    }
    let has_seen = node.vain_looks() == 0;
    drop(node);
    drop(keeper.end(rt));
    are_so & has_seen
}

#[test]
fn a_frame_for_the_image_is_submitted(rt: HostRuntime) -> Result<(), Fail> {
    let fed: &[&[u8]] = &[FIRST, OF_ANOTHER_IMAGE, &[0; 1401]];
    assert!(rt; goes(&rt, rt.alloc(), 0, fed, false, HEARD));
    Ok(())
}

#[test]
fn a_link_that_fails_once_costs_one_poll_or_one_send(rt: HostRuntime) -> Result<(), Fail> {
    assert!(rt; goes(&rt, rt.alloc(), 200, &[FIRST, FIRST], true, FAILING));
    Ok(())
}

// ---- two nodes

const SPOKEN: &[(Heard, Sent)] = &[
    (Heard::Nothing, Sent::Piece(0)),
    (Heard::Nothing, Sent::Piece(1)),
    (Heard::Nothing, Sent::Piece(0)),
    (Heard::Nothing, Sent::Piece(1)),
];

const LISTENED: &[(Heard, Sent)] = &[
    (TAKEN, Sent::Piece(0)),
    (TAKEN, Sent::Piece(1)),
    (TAKEN, Sent::Piece(0)),
    (Heard::Nothing, Sent::Piece(1)),
];

// Whether two nodes tell each other their strokes, in two pieces each, of which each is sent twice. The one hears the
// second piece twice and then the first, and the other the first twice and then the second. The others are lost, and no
// look is in vain.
fn tell(alloc: Global, one: &mut Node, two: &mut Node) -> bool
    ensures one { IsSameNode one.old one.new }
    ensures two { IsSameNode two.old two.new }
{
    let mut here = MemoryLink::new(alloc, None);
    let mut there = MemoryLink::new(alloc, None);
    let are_told = ticks(alloc, one, &mut here, SPOKEN) & ticks(alloc, two, &mut there, SPOKEN);
    let to = carries(&mut there, &here, &[3, 3, 0]);
    let from = carries(&mut here, &there, &[2, 2, 1]);
    let are_heard = ticks(alloc, one, &mut here, LISTENED)
        & ticks(alloc, two, &mut there, LISTENED);
    drop(here);
    drop(there);
    let have_seen = (one.vain_looks() == 0) & (two.vain_looks() == 0);
    are_told & to & from & are_heard & have_seen
}

fn close<R: Wait>(rt: &R, alloc: Global, desk: (Keeper, Node)) -> Option<Core>
    requires { IsOf (pen_of desk.1) (books_of desk.0) }
{
    let (keeper, node) = desk;
    let (pen, eye) = node.leave();
    drop(eye);
    close_keeper(rt, keeper, ends_of(alloc, pen))
}

fn are_equal(one: &Option<Core>, two: &Option<Core>) -> bool {
    matches!((one, two), (Some(one), Some(two)) if one.state().is_same(two.state()))
}

// Whether two nodes that tell each other their strokes end equal.
fn meet<R: Wait>(rt: &R, alloc: Global, one: (Keeper, Node), two: (Keeper, Node)) -> bool
    requires one { IsOf (pen_of one.1) (books_of one.0) }
    requires two { IsOf (pen_of two.1) (books_of two.0) }
{
    let (here, mut first) = one;
    let (there, mut second) = two;
    let is_told = tell(alloc, &mut first, &mut second);
    let one = close(rt, alloc, (here, first));
    let two = close(rt, alloc, (there, second));
    let are_equal = are_equal(&one, &two);
    let are_grown = settles(alloc, one, Some(BOTH)) & settles(alloc, two, Some(BOTH));
    is_told & are_grown & are_equal
}

#[test]
fn two_nodes_end_equal(rt: HostRuntime) -> Result<(), Fail> {
    let Some(one) = open_node(&rt, rt.alloc(), &[Edit::Place(1, 9, 1)], 100) else {
        return Err(Fail::new("no studio"));
    };
    let Some(two) = open_node(&rt, rt.alloc(), &[Edit::Place(2, 3, 4)], 100) else {
        drop(close(&rt, rt.alloc(), one));
        return Err(Fail::new("no other studio"));
    };
    assert!(rt; meet(&rt, rt.alloc(), one, two));
    Ok(())
}
