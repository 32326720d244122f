//! The serials of the jobs that were taken to be pushed.

ghost use Rattle.std.specs.Prelude.{◌≡◌, ◌<◌, ◌≤◌, [], IsTrue};

use steal_pool::Owner;

/// Whether the serials of the jobs that were taken to be pushed rise, so that no two are the same, and a bound that is
/// above each of them then. Serials begin anew behind 2^64 of them.
#[derive(Clone, Copy)]
pub(crate) struct Serials {
    pub(crate) rise: bool,
    pub(crate) bound: u64,
}

impl Serials {
    /// Those of the jobs of an owner. They are taken to rise only where it pushed none yet.
    pub(crate) fn behind(owner: &Owner) -> Serials
        ensures { IsTrue result.rise → owner.now.pushed ≡ [] }
    {
        Serials {
            rise: owner.has_pushed_none(),
            bound: 0,
        }
    }

    /// These, and that of one job more.
    pub(crate) fn and(self, serial: u64) -> Serials
        ensures rise { IsTrue result.rise → IsTrue self.rise × (self.bound ≤ serial) }
        ensures bound { IsTrue result.rise → serial < result.bound }
    {
        if self.rise && self.bound <= serial && serial < u64::MAX {
            Serials {
                rise: true,
                bound: serial + 1,
            }
        } else {
            Serials {
                rise: false,
                bound: 0,
            }
        }
    }
}
