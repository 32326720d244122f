//! Deltas that are judged, and not merged.

ghost use Rattle.std.specs.Prelude.{◌≡◌, IfErr, OnOk};
ghost use Rattle.core_rules.specs.Merge.{IsRefused, IsAcceptable};

use super::Core;
use core_rules::CoreError;
use stroke_lattice::Delta;
use tile_work::{is_one_spent, mark_hits};

impl Core {
    /// Says whether the core takes a delta, want of memory aside. It takes no memory, and the core stays as it is.
    ///
    /// Errors: C1 to C3, as [`merge`](Core::merge) answers them.
    pub fn judge(&mut self, delta: &Delta) -> Result<(), CoreError>
        ensures acceptable { OnOk result (IsAcceptable self.old delta.now) }
        ensures refused { IfErr result (IsRefused self.old delta.now) }
        ensures same { self.new ≡ self.old }
    {
        self.check(delta)?;
        let tiling = self.markers.tiling();
        mark_hits(
            &mut self.marks,
            &mut self.queue,
            &self.image,
            &tiling,
            self.conn,
            &self.state,
            delta,
        );
        let is_spent = is_one_spent(&self.marks, &self.work);
        self.marks.clear();
        if is_spent {
            return Err(CoreError::GenerationsSpent);
        }
        Ok(())
    }
}
