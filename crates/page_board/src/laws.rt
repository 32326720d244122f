//! Laws of boards. Each is the contract of a function that does nothing.

ghost use Rattle.page_board.specs.Laws.{EachIsLater, LaterGoesOn, ChangesTellAll, AnotherRunIsToldAll};
ghost use Rattle.page_board.specs.Laws.{LaterHasAll, SameStateIsKept, AllIsKept};

use grid_core::laws::each_pixel_in_one_tile;

/// A board is itself, later.
pub fn each_is_later()
    ensures { EachIsLater }
{}

/// What is later than a later board is later.
pub fn later_goes_on()
    ensures { LaterGoesOn }
{}

/// What is later than a board has all that the board had of a state file.
pub fn later_has_all()
    ensures { LaterHasAll }
{}

/// A state file that keeps a board keeps a later one with the same strokes and tombstones.
pub fn same_state_is_kept()
    ensures { SameStateIsKept }
{}

/// A state file that keeps a board keeps all that the board has of another one.
pub fn all_is_kept()
    ensures { AllIsKept }
{}

/// What a page is told covers each pixel that differs from what it was at the step that the page was told, and each
/// stroke that came or went since then.
pub fn changes_tell_all()
    ensures { ChangesTellAll }
{
    each_pixel_in_one_tile();
}

/// A page of another run is told each pixel and each live stroke.
pub fn another_run_is_told_all()
    ensures { AnotherRunIsToldAll }
{
    each_pixel_in_one_tile();
}
