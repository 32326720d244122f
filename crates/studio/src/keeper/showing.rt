//! Shots of the core, and who looks at them.

ghost use Rattle.std.specs.Prelude.{◌≡◌, ◌≤◌, true, IfOk, IfErr, OnOk, MatchResult};
ghost use Rattle.std.specs.Arc.{arc_value};
ghost use Rattle.core_dispatch.specs.Dispatching.{core_by};
ghost use Rattle.studio.specs.Shots.{IsSound};
ghost use Rattle.studio.specs.Words.{told_by, told_studio};
ghost use Rattle.studio.specs.Keeping.{core_of, books_of, owner_of, chain_of, studio_of};
ghost use Rattle.studio.specs.Keeping.{HasShown, IsShotOf, ShowsOneMore};
ghost use Rattle.studio.specs.declared.refused.OpenError.TheVariants as errors;
ghost use Rattle.studio.specs.Opening.{IsFirst, IsEyeOf, AreEyesOf, HasOneMore, ShowsTheSame};

use super::Keeper;
use crate::images::shared_copy;
use crate::refused::OpenError;
use crate::shots::{Eye, Publisher, Shot, Told};
use core_dispatch::Dispatcher;
use grid_core::{Grid, Memory};
use raster_sweeps::Blanks;
use std::alloc::Global;
use std::sync::{Arc, Wait};
use stroke_lattice::State;
use tiled_core::TiledCore;

impl Keeper {
    /// A keeper that shows the core as it is, with places for so many eyes. Mask and image are copied into memory of
    /// the blanks, where these have it for images of their size.
    ///
    /// Errors: out of memory, with the dispatcher handed back.
    pub(crate) fn open<R: Wait>(
        rt: &R,
        alloc: Global,
        dispatcher: Dispatcher,
        blanks: Blanks,
        eyes: usize,
    ) -> Result<Keeper, Dispatcher>
        requires eyes { (1 ≤ eyes) × (eyes ≤ 16) }
        ensures first { IfOk result (IsFirst dispatcher) }
        ensures returned { IfErr result (λ d. d ≡ dispatcher) }
    {
        let mut dispatcher = dispatcher;
        let mut blanks = blanks;
        let for_mask = blanks.take(dispatcher.core().mask());
        let Ok(mask) = shared_copy(alloc, for_mask, dispatcher.core().mask()) else {
            return Err(dispatcher);
        };
        let for_image = blanks.take(dispatcher.core().mask());
        let Ok(shot) = first_shot(for_image, &mask, &mut dispatcher) else {
            return Err(dispatcher);
        };
        match Publisher::open(rt, alloc, shot, eyes) {
            Ok(publisher) => Ok(Keeper {
                alloc,
                dispatcher,
                publisher,
                mask,
                has_state: true,
                has_image: true,
            }),
            Err(_) => Err(dispatcher),
        }
    }

    /// So many eyes, which have seen and learnt all that was shown.
    ///
    /// Errors: out of memory, or a place was refused.
    pub(crate) fn eyes(&mut self, count: usize) -> Result<Vec<Eye>, OpenError>
        ensures eyes { IfOk result (λ eyes. AreEyesOf self.old.publisher count eyes.items) }
        ensures why { IfErr result (λ why. why ≡ errors.BadCounts → ⊥) }
        ensures shows { ShowsTheSame self.old.publisher self.new.publisher }
        ensures dispatcher { self.new.dispatcher ≡ self.old.dispatcher }
    {
        eyes_of(self.alloc, &mut self.publisher, count)
    }

    /// Shows the core as it is: the chain of shots is longer by one. Each glimpse of who learns of the receipt is that
    /// shot or a later one. It may wait for glimpses that are held.
    ///
    /// The strokes are copied only where an edit was merged since the last show, and the image only where an edit was
    /// merged, a report was taken, a hint was handed over, or a core that was not quiet settled in bands. Where nobody
    /// holds the third last copy any more, it is brought up to date: of the strokes only those are copied that were
    /// merged since it was made, and of the image only the tiles that changed. The mask is never copied.
    ///
    /// Errors: out of memory. The chain is as it was then.
    #[tactic(auto, using(crate::proofs::Following::may_follow, crate::proofs::Following::shot_follows))]
    pub fn show<R: Wait>(&mut self, rt: &R) -> Result<Told, Memory>
        ensures shown { MatchResult result (λ _. ShowsOneMore self.old self.new)
            (λ _. chain_of self.new ≡ chain_of self.old) }
        ensures told { IfOk result (λ told. told_by told ≡ chain_of self.new) }
        ensures abreast { IfOk result (HasShown self.new) }
        ensures told_studio { IfOk result (λ told. told_studio told ≡ studio_of self.old) }
        ensures studio { studio_of self.new ≡ studio_of self.old }
        ensures books { books_of self.new ≡ books_of self.old }
        ensures owner { owner_of self.new ≡ owner_of self.old }
    {
        let state = self.next_state()?;
        let image = self.next_image()?;
        let shot = self.next_shot(state, image)?;
        let told = self.publisher.show(rt, shot)?;
        self.has_state = true;
        self.has_image = true;
        Ok(told)
    }

    // A shot of the core as it is, whose strokes and image are these.
    //
    // Errors: out of memory.
    fn next_shot(&self, state: Arc<State>, image: Arc<Grid>) -> Result<Shot, Memory>
        requires state { arc_value state ≡ (core_of self.now).state }
        requires image { arc_value image ≡ (core_of self.now).image }
        ensures shot { IfOk result (IsShotOf (core_of self.now)) }
        ensures sound { IfOk result IsSound }
    {
        let mask = Arc::try_clone(&self.mask)?;
        Ok(shot_of(self.dispatcher.core(), mask, state, image))
    }

    // The strokes of the core: those of the last shot, where they are the same.
    //
    // Errors: out of memory.
    fn next_state(&mut self) -> Result<Arc<State>, Memory>
        ensures state { IfOk result (λ state. arc_value state ≡ (core_of self.old).state) }
        ensures dispatcher { self.new.dispatcher ≡ self.old.dispatcher }
        ensures publisher { self.new.publisher ≡ self.old.publisher }
    {
        if self.has_state {
            return Ok(Arc::try_clone(self.publisher.last().state())?);
        }
        self.dispatcher.shared_state()
    }

    // The image of the core: that of the last shot, where it is the same.
    //
    // Errors: out of memory.
    fn next_image(&mut self) -> Result<Arc<Grid>, Memory>
        ensures image { IfOk result (λ image. arc_value image ≡ (core_of self.old).image) }
        ensures dispatcher { self.new.dispatcher ≡ self.old.dispatcher }
        ensures publisher { self.new.publisher ≡ self.old.publisher }
    {
        if self.has_image {
            return Ok(Arc::try_clone(self.publisher.last().image())?);
        }
        self.dispatcher.shared_image(None)
    }
}

// So many eyes of a publisher.
//
// Errors: out of memory, or a place was refused.
fn eyes_of(alloc: Global, publisher: &mut Publisher, count: usize) -> Result<Vec<Eye>, OpenError>
    ensures eyes { IfOk result (λ eyes. AreEyesOf publisher.old count eyes.items) }
    ensures why { IfErr result (λ why. why ≡ errors.BadCounts → ⊥) }
    ensures shows { ShowsTheSame publisher.old publisher.new }
{
    let mut eyes = Vec::new(alloc);
    for _eye in 0..count {
        add_eye(publisher, &mut eyes)?;
    }
    Ok(eyes)
}

// One eye of a publisher more.
//
// Errors: out of memory, or a place was refused.
fn add_eye(publisher: &mut Publisher, eyes: &mut Vec<Eye>) -> Result<(), OpenError>
    ensures added { OnOk result (HasOneMore publisher.old eyes.old.items eyes.new.items) }
    ensures why { IfErr result (λ why. why ≡ errors.BadCounts → ⊥) }
    ensures shows { ShowsTheSame publisher.old publisher.new }
{
    if eyes.reserve(1).is_err() {
        return Err(OpenError::Memory);
    }
    let eye = eye_of(publisher)?;
    eyes.push_reserved(eye);
    Ok(())
}

// An eye of a publisher.
//
// Errors: a place was refused.
fn eye_of(publisher: &mut Publisher) -> Result<Eye, OpenError>
    ensures eye { IfOk result (IsEyeOf publisher.old) }
    ensures why { IfErr result (λ why. why ≡ errors.NoPlace) }
    ensures shows { ShowsTheSame publisher.old publisher.new }
{
    match publisher.eye() {
        Ok(eye) => Ok(eye),
        Err(_) => Err(OpenError::NoPlace),
    }
}

// The first shot of a core, with the image in a spare one where that is there and of its size.
//
// Errors: out of memory.
fn first_shot(
    spare: Option<Grid>,
    mask: &Arc<Grid>,
    dispatcher: &mut Dispatcher,
) -> Result<Shot, Memory>
    requires { arc_value mask.now ≡ (core_by dispatcher.old).mask }
    ensures shot { IfOk result (IsShotOf (core_by dispatcher.old)) }
    ensures sound { IfOk result IsSound }
    ensures same { dispatcher.new ≡ dispatcher.old }
{
    let shared = Arc::try_clone(mask)?;
    let state = dispatcher.shared_state()?;
    let image = dispatcher.shared_image(spare)?;
    Ok(shot_of(dispatcher.core(), shared, state, image))
}

// The shot of a core, over these.
#[tactic(auto, using(crate::proofs::Showing::sound_shot, crate::proofs::Showing::one_size))]
fn shot_of(core: &TiledCore, mask: Arc<Grid>, state: Arc<State>, image: Arc<Grid>) -> Shot
    requires mask { arc_value mask ≡ core.now.mask }
    requires state { arc_value state ≡ core.now.state }
    requires image { arc_value image ≡ core.now.image }
    ensures shot { IsShotOf core.now result }
    ensures sound { IsSound result }
{
    // For its clauses alone: the image has the size of the mask, is lawful, and where no work is left it is the
    // reconstruction.
    core.image_is_lawful();
    let quiet = core.is_quiet();
    Shot::new(mask, core.conn(), state, image, quiet)
}
