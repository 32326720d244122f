//! Studios with one pen and one eye, from their opening to their end.

ghost use Rattle.std.specs.Prelude.{◌≡◌, All, IfSome};
ghost use Rattle.core_dispatch.specs.Closing.{AreEndsOf};
ghost use Rattle.core_dispatch.specs.Books.{BooksView as Books};
ghost use Rattle.core_dispatch.specs.Pens.{IsOf};
ghost use Rattle.studio.specs.Words.{eye_studio, told_studio};
ghost use Rattle.studio.specs.Keeping.{books_of, studio_of};
ghost use Rattle.thread_tests.specs.Company.{IsCompany};

pub use crate::company::Scene;
use crate::outcome::{CHANGED, Outcome, right_if};
use crate::pictures::Mask;
use core::mem::replace_with;
use core_dispatch::{Pen, PenEnd};
use grid_core::Conn;
use reset_core::Core;
use std::alloc::Global;
use std::sync::Wait;
use stroke_core::Tag;
use studio::{Closed, Eye, Keeper, NotClosed, Studio, Told};

/// A studio on this mask with so many hands, where there is memory.
pub fn open_on<R: Wait>(rt: &R, alloc: Global, on: Mask, conn: Conn, hands: usize) -> Option<Scene>
    ensures { IfSome result IsCompany }
{
    open(rt, alloc, on.core(alloc, conn)?, hands)
}

/// A studio of this core with so many hands, where there is memory.
pub fn open<R: Wait>(rt: &R, alloc: Global, core: Core, hands: usize) -> Option<Scene>
    ensures { IfSome result IsCompany }
{
    match Studio::open(rt, alloc, core, 1, hands, 1) {
        Ok(studio) => scene_of(rt, studio),
        Err(refused) => {
            drop(refused);
            None
        }
    }
}

/// The scene of a studio that has one pen and one eye.
pub fn scene_of<R: Wait>(rt: &R, studio: Studio) -> Option<Scene>
    requires pens { All (λ pen. IsOf pen (books_of studio.keeper)) studio.pens.items }
    requires eyes { All (λ eye. eye_studio eye ≡ studio_of studio.keeper) studio.eyes.items }
    ensures { IfSome result IsCompany }
{
    let Studio {
        keeper,
        mut pens,
        hands,
        mut eyes,
    } = studio;
    match (pens.pop(), eyes.pop()) {
        (Some(pen), Some(eye)) => {
            drop(pens);
            drop(eyes);
            Some(Scene {
                keeper,
                pen,
                eye,
                hands,
            })
        }
        (pen, eye) => {
            drop((pens, eyes, pen, eye, hands));
            drop(keeper.end(rt));
            None
        }
    }
}

/// Ends a studio, and lets its core go.
pub fn stop<R: Wait>(rt: &R, scene: Scene) {
    let Scene {
        keeper,
        pen,
        eye,
        hands,
    } = scene;
    drop((pen, eye, hands));
    drop(keeper.end(rt));
}

/// The keeper, and what is left of the pen. The eye and the hands are let go.
pub fn leave(alloc: Global, scene: Scene) -> (Keeper, Vec<PenEnd>)
    requires { IsCompany scene }
    ensures { AreEndsOf result.1.items (books_of result.0) }
{
    let Scene {
        keeper,
        pen,
        eye,
        hands,
    } = scene;
    drop(eye);
    drop(hands);
    (keeper, ends_of(alloc, pen))
}

/// Closes a studio, and gives its core, where no edit was refused.
pub fn close<R: Wait>(rt: &R, alloc: Global, scene: Scene) -> Option<Core>
    requires { IsCompany scene }
{
    let (keeper, ends) = leave(alloc, scene);
    close_keeper(rt, keeper, ends)
}

/// Closes a studio, and says whether that was done and its eye, which is left, looks in vain then.
pub fn closes_before_eye<R: Wait>(rt: &R, alloc: Global, scene: Scene) -> bool
    requires { IsCompany scene }
{
    let Scene {
        keeper,
        pen,
        eye,
        hands,
    } = scene;
    drop(hands);
    let core = close_keeper(rt, keeper, ends_of(alloc, pen));
    let is_closed = core.is_some();
    drop(core);
    looks_in_vain(eye) & is_closed
}

/// Whether the core is shown so often, in a studio that then ends.
pub fn shows_often<R: Wait>(rt: &R, scene: Scene, times: u32) -> bool {
    let Scene {
        mut keeper,
        pen,
        eye,
        hands,
    } = scene;
    drop(hands);
    drop(eye);
    drop(pen);
    let mut are_shown = true;
    for _ in 0..times {
        are_shown = are_shown & keeper.show(rt).is_ok();
    }
    drop(keeper.end(rt));
    are_shown
}

// Whether a look gives no glimpse.
fn looks_in_vain(eye: Eye) -> bool {
    match eye.look() {
        Ok(glimpse) => {
            drop(glimpse.leave());
            false
        }
        Err(eye) => {
            drop(eye);
            true
        }
    }
}

/// Closes a studio, and gives its core, where no edit was refused. Else the studio is ended.
pub fn close_keeper<R: Wait>(rt: &R, keeper: Keeper, ends: Vec<PenEnd>) -> Option<Core>
    requires { AreEndsOf ends.items (books_of keeper) }
{
    match keeper.close(rt, ends) {
        Ok(Closed { core, refusals }) => refusals.is_empty().then_some(core),
        Err(not_closed) => {
            give_up(rt, not_closed);
            None
        }
    }
}

/// Ends a studio that was not closed.
pub fn give_up<R: Wait>(rt: &R, not_closed: NotClosed) {
    let NotClosed {
        keeper,
        ends,
        why: _,
    } = not_closed;
    drop(ends);
    drop(keeper.end(rt));
}

/// What is left of a pen, in a list. It is empty where memory is wanting.
pub fn ends_of(alloc: Global, pen: Pen) -> Vec<PenEnd>
    ensures { (books : Books) → IsOf pen books → AreEndsOf result.items books }
{
    let mut ends = Vec::new(alloc);
    if let Some(end) = pen.finish() {
        let _is_added = ends.push(end).is_ok();
    }
    ends
}

// The image of a row of two tiles without strokes.
const NOTHING: &[u16] = &[0; 128];

// The eye, and whether it sees a quiet shot of this image, with the stroke of tag 1 live in it or not.
fn look(eye: Eye, shot: (&'static [u16], bool)) -> (Eye, bool)
    ensures { eye_studio result.0 ≡ eye_studio eye }
{
    let (image, is_live) = shot;
    match eye.look() {
        Ok(glimpse) => {
            let is_image = glimpse.shot().image().cells() == image;
            let is_so = is_image & (glimpse.state().is_live(Tag(1)) == is_live);
            let is_quiet = glimpse.quiet();
            (glimpse.leave(), is_so & is_quiet)
        }
        Err(eye) => (eye, false),
    }
}

// Whether the eye, which learns of a show, sees that.
fn sees_shown(eye: &mut Eye, told: Told, image: &'static [u16]) -> Outcome
    requires { told_studio told ≡ eye_studio eye.old }
    ensures { eye_studio eye.new ≡ eye_studio eye.old }
{
    eye.learn(told);
    let is_seen = replace_with(eye, (image, true), look);
    right_if(is_seen, "what is seen of a show")
}

// Whether the eye sees the image without strokes that it saw before a show that found no memory, and then the core,
// which is shown again.
fn shows_anew<R: Wait>(rt: &R, keeper: &mut Keeper, eye: &mut Eye, image: &'static [u16]) -> Outcome
    requires { eye_studio eye.old ≡ studio_of keeper.old }
    ensures eye { eye_studio eye.new ≡ eye_studio eye.old }
    ensures studio { studio_of keeper.new ≡ studio_of keeper.old }
    ensures books { books_of keeper.new ≡ books_of keeper.old }
{
    let is_kept = replace_with(eye, (NOTHING, false), look);
    match keeper.show(rt) {
        Ok(told) => right_if(is_kept, CHANGED).and(sees_shown(eye, told, image)),
        Err(_) => Err("a show is refused again"),
    }
}

// Shows the core, and says whether the eye sees that.
fn shows_to<R: Wait>(rt: &R, keeper: &mut Keeper, eye: &mut Eye, image: &'static [u16]) -> Outcome
    requires { eye_studio eye.old ≡ studio_of keeper.old }
    ensures eye { eye_studio eye.new ≡ eye_studio eye.old }
    ensures studio { studio_of keeper.new ≡ studio_of keeper.old }
    ensures books { books_of keeper.new ≡ books_of keeper.old }
{
    match keeper.show(rt) {
        Ok(told) => sees_shown(eye, told, image),
        Err(_) => shows_anew(rt, keeper, eye, image),
    }
}

/// Shows the core, whose image is this, and says whether the eye sees that once it learns of it. Where there is no
/// memory for it, the eye sees the image without strokes that it saw before, and the core is shown again.
pub fn shows<R: Wait>(rt: &R, scene: &mut Scene, image: &'static [u16]) -> Outcome
    requires { IsCompany scene.old }
    ensures { IsCompany scene.new }
{
    shows_to(rt, &mut scene.keeper, &mut scene.eye, image)
}
