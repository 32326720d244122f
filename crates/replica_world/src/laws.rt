//! Laws of worlds. Each is the contract of a function that does nothing.

ghost use Rattle.replica_world.specs.Headline.{SameContentGivesEqualStates, EqualImagesWhereQuiet};
ghost use Rattle.replica_world.specs.Laws.{DoneIsNamed, DoneIsNotTurnedDown, OneReason};

use core_rules::laws::{merged_is_acceptable, one_refusal, refused_is_not_acceptable};
use grid_core::laws::{at_most_one_reconstruction, equal_pixels_equal_images};
use marker_tiles::laws::every_state_has_a_marker;
use spd_codec::at_most_one_frame;
use stroke_lattice::contents_decide_a_state;

/// Replicas that took the same strokes and withdrawals, in any order and with repeats, hold equal strokes.
pub fn same_content_gives_equal_states()
    ensures { SameContentGivesEqualStates }
{
    contents_decide_a_state();
}

/// Replicas that took the same strokes and withdrawals, in any order and with repeats, have equal images where no work
/// is left at either.
pub fn equal_images_where_quiet()
    ensures { EqualImagesWhereQuiet }
{
    same_content_gives_equal_states();
    every_state_has_a_marker();
    at_most_one_reconstruction();
    equal_pixels_equal_images();
}

/// Each number of an event that comes to pass names something.
#[tactic(auto, using(crate::proofs::Outcomes::done_named))]
pub fn done_is_named()
    ensures { DoneIsNamed }
{}

/// An event that comes to pass could not be refused, want of memory aside.
pub fn done_is_not_turned_down()
    ensures { DoneIsNotTurnedDown }
{
    at_most_one_frame();
    merged_is_acceptable();
    refused_is_not_acceptable();
}

/// An event is refused for one reason, want of memory aside.
pub fn one_reason()
    ensures { OneReason }
{
    at_most_one_frame();
    one_refusal();
}
