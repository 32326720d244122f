//! A keeper that settles in bands what hands were to do.

ghost use Rattle.thread_tests.specs.Company.{IsCompany};

use crate::company::Scene;
use crate::outcome::{NO_MEMORY, Outcome, right_if, told};
use crate::pictures::{Edit, Mask, settles};
use crate::playing::{hand_turn, submits, turn};
use crate::scene::{close, open_on};
use grid_core::Conn;
use reset_core::Count;
use std::alloc::Global;
use std::marker::Sync;
use std::sync::Wait;
use std::test::Fail;
use std::thread::Threads;
use steal_pool::{Open, Turn};
use studio::Keeper;

// Whether the keeper settles in bands, by three threads, and this is what that took.
fn settles_by<R: Threads + Sync>(rt: &R, scene: &mut Scene, count: Count) -> bool
    requires { IsCompany scene.old }
    ensures { IsCompany scene.new }
{
    match scene.keeper.settle_in_bands(rt, 3, u64::MAX) {
        Ok(slice) => slice.is_quiet & (slice.count == count),
        Err(_) => false,
    }
}

// Whether the keeper is for bands by two threads and not by three: some tiles are left, and fewer than 256.
fn is_for_two(keeper: &Keeper) -> bool {
    keeper.is_for_bands(2) & !keeper.is_for_bands(3)
}

// Whether the edit that waits is taken in, and no job is out for what it leaves.
fn takes_in(scene: &mut Scene) -> bool
    requires { IsCompany scene.old }
    ensures { IsCompany scene.new }
{
    let taken = scene.keeper.take_in();
    let is_alone = (taken.edits == 1) & (taken.results == 0) & (taken.jobs == 0);
    is_alone & scene.keeper.core().next_out(0).is_none() & is_for_two(&scene.keeper)
}

// An edit is taken in, and the turn behind it pushes 65 jobs. They are out when the keeper settles: all are abandoned,
// and each tile is swept once. What a hand does with one of them then changes nothing.
fn plays<R: Threads + Sync>(rt: &R, alloc: Global, scene: &mut Scene) -> bool
    requires { IsCompany scene.old }
    ensures { IsCompany scene.new }
{
    let is_in = submits(scene, Edit::Spread.delta(alloc)) & takes_in(scene);
    let are_out = (turn(scene).jobs == 65) & is_for_two(&scene.keeper);
    let is_settled = settles_by(
        rt,
        scene,
        Count {
            jobs: 65,
            abandons: 65,
        },
    );
    let is_late = matches!(hand_turn(scene, &Open), Turn::Worked(_));
    let is_taken = turn(scene).results == 1;
    let is_quiet = scene.keeper.core().is_quiet() & !scene.keeper.is_for_bands(2);
    is_in & are_out & is_settled & is_late & is_taken & is_quiet
}

fn settles_at_once<R: Threads + Wait + Sync>(rt: &R, alloc: Global) -> Outcome {
    let Some(mut scene) = open_on(rt, alloc, Mask::ManyTiles, Conn::Four, 1) else {
        return Err(NO_MEMORY);
    };
    let is_played = plays(rt, alloc, &mut scene);
    let is_grown = settles(alloc, close(rt, alloc, scene), None);
    right_if(is_played & is_grown, "a keeper that settles in bands")
}

#[test]
fn a_keeper_settles_what_hands_were_to_do(rt: HostRuntime) -> Result<(), Fail> {
    told(settles_at_once(&rt, rt.alloc()))
}
