//! Steps of the writer.

ghost use Rattle.std.specs.Prelude.{◌≡◌, ◌<◌, ◌≤◌, ◌⊎◌, [], ◌∷◌, fold, drop, MatchResult, IfOk};
ghost use Rattle.std.specs.Arc.{arc_value};
ghost use Rattle.left_right.specs.Sides.{view};
ghost use Rattle.studio.specs.Shots.{IsSound};
ghost use Rattle.studio.specs.History.{whole};
ghost use Rattle.studio.specs.Publishing.{published, informed, taken, IsNext};

use crate::shots::prefix::Prefix;
use crate::shots::rule::{ChainView, Shots, Show};
use crate::shots::shot::Shot;
use crate::shots::shown::Shown;
use left_right::writer::Writer;
use std::alloc::{AllocError, Global};
use std::sync::{Arc, Wait};

/// The writer of what is published. End it by `take`.
pub type Writing = Writer<Shown, Shown, ChainView, Shots>;

// Publishes what is pending, or once more what is published. Where memory runs out readers see what they saw.
fn publish<R: Wait>(writing: Writing, rt: &R) -> (Writing, Result<(), AllocError>)
    requires next { (drop writing.behind writing.log.items ≡ [])
        ⊎ IsNext (published writing.desk.shown.value)
        (fold taken (published writing.desk.shown.value) (drop writing.behind writing.log.items)) }
    ensures values { MatchResult result.1
        (λ _. published result.0.desk.shown.value
        ≡ fold taken (published writing.desk.shown.value) (drop writing.behind writing.log.items))
        (λ _. result.0.desk.shown.value ≡ writing.desk.shown.value) }
    ensures known { MatchResult result.1
        (λ _. view result.0.desk.place ≡ informed (published result.0.desk.shown.value))
        (λ _. view result.0.desk.place ≡ view writing.desk.place) }
{
    writing.publish_as::<Show, R>(rt)
}

/// Publishes the next shot. Where memory runs out readers see what they saw.
#[tactic(auto, using(crate::proofs::Keeping::fold_last))]
pub fn show_next<R: Wait>(writing: Writing, next: (&R, Shown)) -> (Writing, Result<(), AllocError>)
    requires next { IsNext (published writing.desk.shown.value) (published next.1) }
    ensures values { MatchResult result.1
        (λ _. published result.0.desk.shown.value ≡ taken (published writing.desk.shown.value) next.entry.1)
        (λ _. result.0.desk.shown.value ≡ writing.desk.shown.value) }
    ensures known { MatchResult result.1
        (λ _. view result.0.desk.place ≡ informed (published result.0.desk.shown.value))
        (λ _. view result.0.desk.place ≡ view writing.desk.place) }
{
    let mut writing = writing;
    let (rt, shown) = next;
    if let Err(_) = writing.append(shown) {
        return (writing, Err(AllocError));
    }
    publish(writing, rt)
}

// Publishes what is published once more, so that the writer knows it.
fn publish_again<R: Wait>(writing: Writing, rt: &R) -> (Writing, Result<(), AllocError>)
    requires idle { drop writing.behind writing.log.items ≡ [] }
    ensures value { published result.0.desk.shown.value ≡ published writing.desk.shown.value }
    ensures known { MatchResult result.1
        (λ _. view result.0.desk.place ≡ informed (published result.0.desk.shown.value))
        (λ _. Unit {0}) }
{
    publish(writing, rt)
}

/// A writer that shows the first shot of the history.
pub fn open_writing<R: Wait>(
    rt: &R,
    alloc: Global,
    shot: Arc<Shot>,
    prefix: &Prefix,
    eyes: usize,
) -> Result<Writing, AllocError>
    requires eyes { (0 < eyes) × (eyes ≤ 16) }
    requires sound { IsSound (arc_value shot) }
    requires prefix { whole prefix.now.reached.log ≡ arc_value shot ∷ [] }
    ensures value { IfOk result (λ w. published w.desk.shown.value
        ≡ record { shot = arc_value shot; prefix = prefix.now }) }
    ensures known { IfOk result (λ w. view w.desk.place ≡ informed (published w.desk.shown.value)) }
{
    let first = Shown {
        shot: Arc::try_clone(&shot)?,
        prefix: prefix.again(),
    };
    let second = Shown {
        shot,
        prefix: prefix.again(),
    };
    let writing: Writing = Writer::new(alloc, first, second, eyes)?;
    let (writing, published) = publish_again(writing, rt);
    if published.is_err() {
        writing.take(rt);
        return Err(AllocError);
    }
    Ok(writing)
}
