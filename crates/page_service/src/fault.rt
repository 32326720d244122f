//! Want of memory among faults.

ghost use Rattle.std.specs.Prelude.{◌↔◌, IsTrue};
ghost use Rattle.run_faults.specs.RunError.{IsMemory};

use core_rules::CoreError;
use edit_lang::EditError;
use pgm_codec::PgmError;
use run_faults::RunError;
use spd_codec::SpdError;

/// Whether it is want of memory, under any of its codes.
pub(crate) fn is_memory(fault: &RunError) -> bool
    ensures { IsTrue result ↔ IsMemory fault.now }
{
    matches!(
        fault,
        RunError::Memory
            | RunError::Edit(EditError::Memory)
            | RunError::Pgm(PgmError::Memory)
            | RunError::Core(CoreError::Memory)
            | RunError::Spd(SpdError::Memory)
    )
}
