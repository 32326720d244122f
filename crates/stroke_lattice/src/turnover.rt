//! Births and deaths, and what else is new in a delta: the tags of which a merge takes a stroke or a tombstone, and
//! those that become live or cease to be. Each list rises.

ghost use Rattle.std.specs.Prelude.{◌↔◌, IfOk, IsTrue};
ghost use Rattle.stroke_lattice.specs.Growth.{IsNewStroke, IsNewTombstone, IsVacant, IsBirth, IsDeath, AreTags};

use crate::state::{Delta, State};
use grid_core::Memory;
use std::alloc::Global;
use stroke_core::Tag;

impl State {
    pub(crate) fn new_strokes(&self, alloc: Global, delta: &Delta) -> Result<Vec<Tag>, Memory>
        ensures { IfOk result (λ tags. AreTags (IsNewStroke self.now delta.now) tags.items) }
    {
        let mut tags = Vec::new(alloc);
        for (tag, _) in delta.strokes() {
            if !self.has_stroke(*tag) {
                tags.push(*tag)?;
            }
        }
        Ok(tags)
    }

    pub(crate) fn new_tombstones(&self, alloc: Global, delta: &Delta) -> Result<Vec<Tag>, Memory>
        ensures { IfOk result (λ tags. AreTags (IsNewTombstone self.now delta.now) tags.items) }
    {
        let mut tags = Vec::new(alloc);
        for tag in delta.tombstones() {
            if !self.has_tombstone(*tag) {
                tags.push(*tag)?;
            }
        }
        Ok(tags)
    }

    pub(crate) fn births(&self, alloc: Global, delta: &Delta) -> Result<Vec<Tag>, Memory>
        ensures { IfOk result (λ tags. AreTags (IsBirth self.now delta.now) tags.items) }
    {
        let mut tags = Vec::new(alloc);
        for (tag, _) in delta.strokes() {
            if self.is_vacant(*tag, delta) {
                tags.push(*tag)?;
            }
        }
        Ok(tags)
    }

    pub(crate) fn deaths(&self, alloc: Global, delta: &Delta) -> Result<Vec<Tag>, Memory>
        ensures { IfOk result (λ tags. AreTags (IsDeath self.now delta.now) tags.items) }
    {
        let mut tags = Vec::new(alloc);
        for tag in delta.tombstones() {
            if self.is_live(*tag) {
                tags.push(*tag)?;
            }
        }
        Ok(tags)
    }

    fn is_vacant(&self, tag: Tag, delta: &Delta) -> bool
        ensures { IsTrue result ↔ IsVacant self.now delta.now tag }
    {
        !self.has_stroke(tag) && !self.has_tombstone(tag) && !delta.has_tombstone(tag)
    }
}
