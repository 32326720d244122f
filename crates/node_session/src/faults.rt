//! What the refusals of a studio are to a run.

ghost use Rattle.std.specs.Prelude.{◌≡◌};
ghost use Rattle.run_faults.specs.RunError.{IsStudioFault};
ghost use Rattle.run_faults.specs.declared.run_error.RunError.TheVariants as errors;
ghost use Rattle.node_session.specs.Shared.{opening_fault, closing_fault};

use core_dispatch::CloseError;
use run_faults::{RunError, StudioFault};
use studio::OpenError;

/// U1 to U3.
pub(crate) fn open_fault(why: OpenError) -> RunError
    ensures { result ≡ errors.Studio (opening_fault why) }
{
    RunError::Studio(match why {
        OpenError::BadCounts => StudioFault::BadCounts,
        OpenError::Memory => StudioFault::OpenMemory,
        OpenError::NoPlace => StudioFault::NoPlace,
    })
}

/// B1 to B3.
pub(crate) fn close_fault(why: CloseError) -> RunError
    ensures fault { result ≡ errors.Studio (closing_fault why) }
    ensures studio { IsStudioFault result }
{
    RunError::Studio(match why {
        CloseError::EndMissing => StudioFault::EndMissing,
        CloseError::Memory => StudioFault::CloseMemory,
        CloseError::CountSpent => StudioFault::CountSpent,
    })
}
