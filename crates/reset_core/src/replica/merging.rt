//! Deltas that are merged.

ghost use Rattle.std.specs.Prelude.{◌≡◌, length, IfOk, IfErr, IsErrOf, OnOk, OnErr};
ghost use Rattle.reset_core.specs.Answers.{IsNotMerged};
ghost use Rattle.reset_core.specs.MergeSteps.{CanRenew, AreRenewed};
ghost use Rattle.core_rules.specs.declared.error.CoreError.{CoreError};
ghost use Rattle.stroke_lattice.specs.State.{StateFits, AreCompatible};
ghost use Rattle.core_rules.specs.Merge.{IsMerged, IsRefused};
ghost use Rattle.grid_core.specs.Tiles.{count_of};
ghost use Rattle.reset_core.specs.Bounding.{FollowResets};

use super::Core;
use core_rules::CoreError;
use grid_core::Grid;
use marker_tiles::Markers;
use std::alloc::Global;
use stroke_lattice::{Change, Delta, State};
use tile_work::{
    OpenBounds, TileSet, WorkTable, is_one_spent, mark_hits, raise_to_marker, reset_marked,
};

impl Core {
    /// Merges a delta: the strokes become the join, the tiles that a withdrawal hits are reset, and the image is raised
    /// to the new marker elsewhere. It answers the tags that became live, and those that ceased to be.
    ///
    /// A tile is hit where a stroke that dies covers a pixel of it, or where links lead to it from such a tile: from
    /// tile to tile over neighbouring pixels at both of which the image is above 0.
    ///
    /// Errors: C1 where a stroke of the delta does not fit the image, live or not, else C2 where another stroke of the
    /// core has one of its tags, else C3 where a tile that is hit has spent its generations, else C4. The core is then
    /// as it was.
    pub fn merge(&mut self, alloc: Global, delta: &Delta) -> Result<Change, CoreError>
        ensures merged { IfOk result (λ change. IsMerged self.old delta.now change self.new) }
        ensures refused { IfErr result (IsNotMerged self.old delta.now) }
        ensures exactly { (e : CoreError) → IsRefused self.old delta.now e → IsErrOf result e }
        ensures err { OnErr result (self.new ≡ self.old) }
    {
        self.check(delta)?;
        let tiling = self.markers.tiling();
        mark_hits(
            &mut self.marks,
            &mut self.queue,
            &self.image,
            &tiling,
            self.conn,
            &self.state,
            delta,
        );
        if is_one_spent(&self.marks, &self.work) {
            self.marks.clear();
            return Err(CoreError::GenerationsSpent);
        }
        match self.state.join(alloc, delta) {
            Ok(change) => {
                renew(
                    &mut self.marks,
                    &mut self.image,
                    &mut self.markers,
                    &mut self.work,
                    &mut self.bounds,
                    &self.state,
                    &change,
                );
                Ok(change)
            }
            Err(why) => {
                self.marks.clear();
                Err(why.into())
            }
        }
    }

    // Looks whether the delta's strokes fit the image and the core's strokes.
    //
    // Errors: C1, else C2.
    pub(super) fn check(&self, delta: &Delta) -> Result<(), CoreError>
        ensures fits { OnOk result (StateFits self.now.mask.width self.now.mask.height delta.now) }
        ensures compatible { OnOk result (AreCompatible self.now.state delta.now) }
        ensures refused { IfErr result (IsRefused self.now delta.now) }
    {
        let tiling = self.markers.tiling();
        if let Some(tag) = delta.outside(tiling.width(), tiling.height()) {
            return Err(CoreError::OutOfImage(tag));
        }
        match self.state.clash(delta) {
            Some(tag) => Err(CoreError::Conflict(tag)),
            None => Ok(()),
        }
    }
}

/// Makes marker, image and work those of the strokes as they are now, where the tiles that are reset are marked. No
/// mark is left.
pub fn renew(
    marks: &mut TileSet,
    image: &mut Grid,
    markers: &mut Markers,
    work: &mut WorkTable,
    bounds: &mut OpenBounds,
    state: &State,
    change: &Change,
)
    requires renew { CanRenew markers.old marks.old image.old work.old state.now change.now }
    requires bounds { length bounds.old ≡ count_of markers.old.tiling }
    ensures renewed { AreRenewed markers.old marks.old image.old work.old state.now change.now markers.new marks.new
        image.new work.new }
    ensures bounds { (conn : _) → FollowResets markers.old.tiling conn marks.old image.old image.new bounds.old
        bounds.new }
{
    let tiling = markers.tiling();
    // The side tells the prover that the tiling is one.
    let _ = tiling.side();
    markers.apply(state, change);
    let marker = markers.marker();
    reset_marked(marks, image, marker, &tiling, work, bounds);
    raise_to_marker(image, marker, &tiling, work, bounds, state, change.born());
}
