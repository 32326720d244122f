//! Deltas that are merged.

ghost use Rattle.std.specs.Prelude.{◌≡◌, IfErr, IfOk, IsErrOf, OnErr, OnOk};
ghost use Rattle.core_rules.specs.declared.error.CoreError.{CoreError};
ghost use Rattle.core_rules.specs.Merge.{IsMerged, IsRefused};
ghost use Rattle.reset_core.specs.Answers.{IsNotMerged};
ghost use Rattle.stroke_lattice.specs.State.{AreCompatible, StateFits};

use super::TiledCore;
use core_rules::CoreError;
use std::alloc::Global;
use stroke_lattice::{Change, Delta};
use tile_work::{is_one_spent, mark_hits};

impl TiledCore {
    /// Merges a delta, as [`Core::merge`](reset_core::Core::merge) does. The tiles that were put in or raised since the
    /// last merge are written into rows first, so that it costs them too.
    ///
    /// Errors: C1 where a stroke of the delta does not fit the image, live or not, else C2 where another stroke of the
    /// core has one of its tags, else C3 where a tile that is hit has spent its generations, else C4. The core is then
    /// as it was.
    pub fn merge(&mut self, alloc: Global, delta: &Delta) -> Result<Change, CoreError>
        ensures merged { IfOk result (λ change. IsMerged self.old delta.now change self.new) }
        ensures refused { IfErr result (IsNotMerged self.old delta.now) }
        ensures exactly { (e : CoreError) → IsRefused self.old delta.now e → IsErrOf result e }
        ensures err { OnErr result (self.new ≡ self.old) }
    {
        self.check(delta)?;
        let tiling = self.markers.tiling();
        mark_hits(
            &mut self.marks,
            &mut self.queue,
            self.image.rows(),
            &tiling,
            self.conn,
            &self.state,
            delta,
        );
        if is_one_spent(&self.marks, &self.work) {
            self.marks.clear();
            return Err(CoreError::GenerationsSpent);
        }
        match self.state.join(alloc, delta) {
            Ok(change) => {
                self.beside.forget();
                self.states.mark(alloc, delta);
                self.image.renew(
                    &mut self.marks,
                    &mut self.markers,
                    &mut self.work,
                    &mut self.bounds,
                    &self.state,
                    &change,
                );
                Ok(change)
            }
            Err(why) => {
                self.marks.clear();
                Err(why.into())
            }
        }
    }

    // Looks whether the delta's strokes fit the image and the core's strokes.
    //
    // Errors: C1, else C2.
    fn check(&self, delta: &Delta) -> Result<(), CoreError>
        ensures fits { OnOk result (StateFits self.now.mask.width self.now.mask.height delta.now) }
        ensures compatible { OnOk result (AreCompatible self.now.state delta.now) }
        ensures refused { IfErr result (IsRefused self.now delta.now) }
    {
        let tiling = self.markers.tiling();
        if let Some(tag) = delta.outside(tiling.width(), tiling.height()) {
            return Err(CoreError::OutOfImage(tag));
        }
        match self.state.clash(delta) {
            Some(tag) => Err(CoreError::Conflict(tag)),
            None => Ok(()),
        }
    }
}
