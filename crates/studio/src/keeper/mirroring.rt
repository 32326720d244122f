//! A board that follows the core.

ghost use Rattle.std.specs.Prelude.{IfErr, IfOk, IsErrOf, IsTrue, OnErr, ◌↔◌, ◌≡◌};
ghost use Rattle.grid_core.specs.Raster.{IsBelow};
ghost use Rattle.live_board.specs.Closing.{AreAllPlanted};
ghost use Rattle.live_board.specs.Seats.{IsKeeperOf, ground_of, keeper_view};
ghost use Rattle.live_board.specs.Words.{mask_of, max_generation};
ghost use Rattle.studio.specs.Keeping.{core_of};
ghost use Rattle.studio.specs.Mirroring.{HasMirrored, IsBoardOf, IsBrought, IsSpent};
ghost use Rattle.studio.specs.declared.mirrored.MirrorError.TheVariants as errors;

use super::Keeper;
use crate::mirrored::{MirrorError, Mirrored};
use grid_core::Grid;
use live_board::{Board, KeeperSeat, Spent};

impl Keeper {
    /// Brings the marker of the core's strokes to a board, and plants it at each pixel. Where the marker before is
    /// below it the generation stays, else the next one begins. So what a peek finds live in it, a state that the core
    /// had supports. It waits for nobody, and changes nothing of the core.
    ///
    /// Errors: X4 where the board is of another mask or connectivity, else X3, else X5 where there is no next
    /// generation. The seat is as it was then.
    pub fn mirror(&mut self, board: &Board, seat: &mut KeeperSeat) -> Result<Mirrored, MirrorError>
        requires seat { IsKeeperOf board.now seat.old }
        ensures seat { IsKeeperOf board.now seat.new }
        ensures keeper { self.new ≡ self.old }
        ensures mirrored { IfOk result (λ mirrored. HasMirrored (ground_of board.now) (core_of self.old) mirrored
            (keeper_view seat.old) (keeper_view seat.new)) }
        ensures refused { OnErr result (seat.new ≡ seat.old) }
        ensures other { IsErrOf result errors.OtherMask ↔ (IsBoardOf (ground_of board.now) (core_of self.old) → ⊥) }
        ensures spent { IsErrOf result errors.Spent → IsSpent (core_of self.old) (keeper_view seat.old) }
    {
        let core = self.dispatcher.core();
        if !board.is_of(core.mask(), core.conn()) {
            return Err(MirrorError::OtherMask);
        }
        let marker = core.marker().marker().copy(self.alloc)?;
        let advanced = bring(board, seat, marker)?;
        let is_planted = !advanced;
        if is_planted {
            return Ok(Mirrored { advanced });
        }
        seat.plant_all(board);
        Ok(Mirrored { advanced })
    }
}

// Brings a marker, and says whether a generation began for it; where none began each pixel is planted. Errors: there is
// no next generation.
fn bring(board: &Board, seat: &mut KeeperSeat, marker: Grid) -> Result<bool, MirrorError>
    requires seat { IsKeeperOf board.now seat.old }
    requires below { IsBelow marker (mask_of (ground_of board.now)) }
    ensures seat { IsKeeperOf board.now seat.new }
    ensures brought { IfOk result
        (λ advanced. IsBrought marker advanced (keeper_view seat.old) (keeper_view seat.new)) }
    ensures planted { IfOk result
        (λ advanced. (IsTrue advanced → ⊥) → AreAllPlanted (ground_of board.now) (keeper_view seat.new)) }
    ensures refused { OnErr result (seat.new ≡ seat.old) }
    ensures spent { IfErr result (λ e. (e ≡ errors.Spent) × ((keeper_view seat.old).generation ≡ max_generation)
        × (IsBelow (keeper_view seat.old).marker marker → ⊥)) }
{
    if seat.is_below(&marker) {
        seat.raise_planted(board, marker);
        return Ok(false);
    }
    match seat.advance(board, marker) {
        Ok(()) => Ok(true),
        Err(Spent { marker: _ }) => Err(MirrorError::Spent),
    }
}
