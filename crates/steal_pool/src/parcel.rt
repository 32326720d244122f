//! What goes through the ring of a hand.

use crate::report::Report;
use crate::rule::EndView;
use crossbeam_deque::Pass;
use rtrb::Protocol;
use tile_generations::{Job, Ticket};

/// A report, and the pass by which its job was got. The pass takes no bytes.
#[derive(Drop)]
pub(crate) struct Parcel {
    pub(crate) report: Report,
    pub(crate) pass: Pass<Job, EndView>,
}

/// What is sent first is a header, by whose pass no job was got: it tells of which deque the ring is. Each parcel
/// behind it has a pass of that deque by which one job was got, and the report of that job.
pub(crate) struct Reporting;

impl Protocol<Parcel> for Reporting {
    ghost use Rattle.steal_pool.specs.Parcels.{Follows};

    ghost allows = { Follows };
}

impl Parcel {
    ghost use Rattle.std.specs.Prelude.{◌≡◌};

    /// A header with this pass. Nobody reads its report.
    pub(crate) fn header(pass: Pass<Job, EndView>) -> Parcel
        ensures { result.pass ≡ pass }
    {
        let nothing = Ticket {
            tile: 0,
            generation: 0,
            serial: 0,
        };
        Parcel {
            report: Report::Failed(nothing),
            pass,
        }
    }
}
