//! The end of a studio.

ghost use Rattle.std.specs.Prelude.{◌≡◌, All, IfOk, IfErr};
ghost use Rattle.core_dispatch.specs.Pens.{all_submitted, submitted, IsOf};
ghost use Rattle.core_dispatch.specs.Closing.{AreEndsOf};
ghost use Rattle.core_dispatch.specs.Books.{BooksView as Books};
ghost use Rattle.studio.specs.Keeping.{books_of};
ghost use Rattle.run_faults.specs.RunError.{IsStudioFault};
ghost use Rattle.run_faults.specs.declared.run_error.RunError.TheVariants as errors;
ghost use Rattle.node_session.specs.Shared.{closing_fault};
ghost use Rattle.node_session.specs.Working.{HasItsPen, IsLeftBy, IsClosedTo};

use crate::desk::Desk;
use crate::faults::close_fault;
use core_dispatch::{Pen, PenEnd};
use reset_core::Core;
use run_faults::RunError;
use std::alloc::Global;
use std::sync::Wait;
use studio::{Closed, Keeper, NotClosed};

/// Closes the studio, and gives its core.
///
/// Errors: B1 where the pen's end could not be had; B2 and B3. The studio is then ended, and its core let go.
pub(crate) fn close<R: Wait>(rt: &R, alloc: Global, desk: Desk) -> Result<Core, RunError>
    requires { HasItsPen desk }
    ensures left { IfOk result (IsLeftBy desk) }
    ensures refused { IfErr result IsStudioFault }
{
    let Desk { keeper, node } = desk;
    let (pen, eye) = node.leave();
    drop(eye);
    close_with(rt, keeper, ends_of(alloc, pen))
}

// What is left of a pen, in a list. It is empty where the pen's books are no more, or where memory is wanting.
fn ends_of(alloc: Global, pen: Pen) -> Vec<PenEnd>
    ensures submitted { All (λ end. all_submitted end ≡ submitted pen) result.items }
    ensures books { (books : Books) → IsOf pen books → AreEndsOf result.items books }
{
    let mut ends = Vec::new(alloc);
    if let Some(end) = pen.finish() {
        let _is_added = ends.push(end).is_ok();
    }
    ends
}

// Closes a studio with these ends, or ends it.
fn close_with<R: Wait>(rt: &R, keeper: Keeper, ends: Vec<PenEnd>) -> Result<Core, RunError>
    requires { AreEndsOf ends.items (books_of keeper) }
    ensures closed { IfOk result (IsClosedTo keeper ends.items) }
    ensures refused { IfErr result IsStudioFault }
{
    match keeper.close(rt, ends) {
        Ok(closed) => Ok(core_of(closed)),
        Err(not_closed) => Err(give_up(rt, not_closed)),
    }
}

// The core that a studio leaves. The list of refusals is let go.
fn core_of(closed: Closed) -> Core
    ensures { result ≡ closed.core }
{
    let Closed { core, refusals } = closed;
    drop(refusals);
    core
}

// Ends a studio that was not closed, lets its core go, and says why it was not.
fn give_up<R: Wait>(rt: &R, not_closed: NotClosed) -> RunError
    ensures fault { result ≡ errors.Studio (closing_fault not_closed.why) }
    ensures studio { IsStudioFault result }
{
    let NotClosed { keeper, ends, why } = not_closed;
    drop(ends);
    drop(keeper.end(rt));
    close_fault(why)
}
