//! Jobs that are taken, given back and abandoned.

ghost use Rattle.std.specs.Prelude.{◌≡◌, ◌↔◌, [], IfOk, IfErr, OnOk, OnErr, IsTrue};
ghost use Rattle.std.specs.Arc.{arc_value};
ghost use Rattle.core_rules.specs.Image.{IsPart};
ghost use Rattle.core_rules.specs.Work.{IsTile};
ghost use Rattle.core_rules.specs.Sweeps.{IsReady, IsNextJob, IsTaken, IsKnown, IsOut, IsUnchanged};
ghost use Rattle.core_rules.specs.Sweeps.{IsJoined, IsGivenBack, IsAbandoned, tile_rect};
ghost use Rattle.reset_core.specs.Answers.{IsJoinable};
ghost use Rattle.reset_core.specs.Parts.{IsRaisedPart};
ghost use Rattle.reset_core.specs.Sweeping.{IsJudged, AreHintsOnceJoined};
ghost use Rattle.grid_core.specs.Rects.{RectFits};

use super::Core;
use crate::parts::{bounds_above, counted_from, is_at_most_part, is_part, raise_part, raised_part};
use border_queues::laws::{edges_are_open, same_image_same_edges};
use border_queues::{Inbox, open_edges};
use core_rules::Back;
use core_rules::laws::{abandon_keeps_sound, give_back_keeps_sound, take_keeps_sound};
use grid_core::{Grid, Memory, Rect};
use std::alloc::Global;
use std::sync::Arc;
use tile_generations::{Job, Swept, Ticket};

impl Core {
    /// The job of a tile that is dirty and not out: with the tile's pixels and mask as they stand, and with the next
    /// serial. The tile is then out, and not dirty. None where there is no such tile, or it is clean or out.
    ///
    /// Errors: out of memory; nothing has changed then.
    pub fn take(&mut self, alloc: Global, tile: usize) -> Result<Option<Job>, Memory>
        ensures taken { IfOk result (λ job. IsTaken self.old tile job self.new) }
        ensures memory { OnErr result (IsReady self.old tile) }
        ensures err { OnErr result (self.new ≡ self.old) }
    {
        take_keeps_sound();
        if !self.is_ready(tile) {
            return Ok(None);
        }
        let mask = self.mask_of(alloc, tile)?;
        let job = self.next_job(alloc, tile, mask)?;
        self.work.take(tile, self.serial);
        self.serial = self.serial.wrapping_add(1);
        Ok(Some(job))
    }

    /// Gives back a swept tile. Where its job is out, and the tile is as it was or has only risen since, the image is
    /// raised to the pixels, the tile is no longer out, and the hints of its open edges wait at the tiles beside it.
    ///
    /// Errors: out of memory, with the swept tile handed back; nothing has changed then.
    pub fn give_back(&mut self, alloc: Global, swept: Swept) -> Result<Back, (Swept, Memory)>
        ensures given { IfOk result (λ back. IsGivenBack self.old swept back self.new) }
        ensures memory { OnErr result (IsJoinable self.old swept.job) }
        ensures err { OnErr result (self.new ≡ self.old) }
        ensures returned { IfErr result (λ e. e.0 ≡ swept) }
    {
        match self.judge_and_join(alloc, &swept) {
            Ok(back) => {
                drop(swept);
                Ok(back)
            }
            Err(why) => Err((swept, why)),
        }
    }

    /// Abandons a job that is out: the tile is then not out, and dirty. It says whether the job was out. It takes no
    /// memory.
    pub fn abandon(&mut self, ticket: Ticket) -> bool
        ensures { IsAbandoned self.old ticket result self.new }
    {
        abandon_keeps_sound();
        let was_out = self.has_out(ticket);
        if was_out {
            self.work.abandon(ticket.tile);
        }
        was_out
    }

    // Whether the tile can be taken.
    fn is_ready(&self, tile: usize) -> bool
        ensures { IsTrue result ↔ IsReady self.now tile }
    {
        tile < self.work.len() && self.work.is_dirty(tile) && self.work.out(tile).is_none()
    }

    // The mask of a tile, which all jobs on it share.
    //
    // Errors: out of memory.
    fn mask_of(&mut self, alloc: Global, tile: usize) -> Result<Arc<Grid>, Memory>
        requires { IsTile self.old tile }
        ensures part { IfOk result (λ mask. IsPart (tile_rect self.old tile) self.old.mask (arc_value mask)) }
        ensures same { self.new ≡ self.old }
    {
        let tiling = self.markers.tiling();
        self.masks.share(alloc, self.markers.mask(), &tiling, tile)
    }

    // The job on a tile as the core stands.
    //
    // Errors: out of memory.
    fn next_job(&self, alloc: Global, tile: usize, mask: Arc<Grid>) -> Result<Job, Memory>
        requires is_tile { IsTile self.now tile }
        requires mask { IsPart (tile_rect self.now tile) self.now.mask (arc_value mask) }
        ensures { IfOk result (IsNextJob self.now tile) }
    {
        let rect = self.rect(tile);
        let base = self.image.cut(alloc, rect)?;
        let ticket = Ticket {
            tile,
            generation: self.work.generation(tile),
            serial: self.serial,
        };
        let bounds = counted_from(rect, self.bounds.get(tile));
        Ok(Job::bounded(ticket, self.conn, base, mask, bounds))
    }

    // The rectangle of a tile.
    fn rect(&self, tile: usize) -> Rect
        requires { IsTile self.now tile }
        ensures rect { result ≡ tile_rect self.now tile }
        ensures mask { RectFits self.now.mask.width self.now.mask.height result }
        ensures image { RectFits self.now.image.width self.now.image.height result }
    {
        self.markers.tiling().rect(tile)
    }

    // Whether the job of the ticket is out.
    fn has_out(&self, ticket: Ticket) -> bool
        ensures { IsTrue result ↔ IsOut self.now ticket }
    {
        let tile = ticket.tile;
        tile < self.work.len()
            && self.work.generation(tile) == ticket.generation
            && self.work.out(tile) == Some(ticket.serial)
    }

    // Whether the job may be one of this core.
    fn knows(&self, swept: &Swept) -> bool
        ensures { IsTrue result ↔ IsKnown self.now swept.now.job }
    {
        let ticket = swept.ticket();
        ticket.tile < self.work.len()
            && ticket.generation <= self.work.generation(ticket.tile)
            && swept.conn() == self.conn
            && self.has_mask(ticket.tile, swept.mask())
    }

    // Whether the piece is the mask of the tile. A mask that was cut out lies close together in memory, so that to
    // compare with it is cheaper than with the whole mask.
    fn has_mask(&self, tile: usize, piece: &Grid) -> bool
        requires { IsTile self.now tile }
        ensures { IsTrue result ↔ IsPart (tile_rect self.now tile) self.now.mask piece.now }
    {
        let rect = self.rect(tile);
        match self.masks.get(tile) {
            Some(mask) => is_part(mask, Rect { x: 0, y: 0, ..rect }, piece),
            None => is_part(self.markers.mask(), rect, piece),
        }
    }

    // What becomes of a swept tile that is given back, if memory lasts.
    fn answer_to(&self, swept: &Swept) -> Back
        ensures { IsJudged self.now swept.now.job result }
    {
        let tile = swept.ticket().tile;
        if !self.knows(swept) {
            return Back::Stranger;
        }
        if !self.has_out(swept.ticket()) {
            return Back::Stale;
        }
        if self.work.is_dirty(tile) {
            if is_at_most_part(&self.image, self.rect(tile), swept.base()) {
                return Back::Again;
            }
        } else if is_part(&self.image, self.rect(tile), swept.base()) {
            return Back::Joined;
        }
        Back::Stranger
    }

    // Joins a swept tile that is given back into the image, where it is to be, and says what became of it.
    //
    // Errors: out of memory; nothing has changed then.
    fn judge_and_join(&mut self, alloc: Global, swept: &Swept) -> Result<Back, Memory>
        ensures given { IfOk result (λ back. IsGivenBack self.old swept.now back self.new) }
        ensures memory { OnErr result (IsJoinable self.old swept.now.job) }
        ensures err { OnErr result (self.new ≡ self.old) }
    {
        let back = self.answer_to(swept);
        match back {
            Back::Joined | Back::Again => {
                self.join(alloc, swept, back == Back::Joined)?;
                Ok(back)
            }
            Back::Stale | Back::Stranger => Ok(back),
        }
    }

    // Joins a swept tile into the image. Where the tile is as it was when it was taken, the pixels are nowhere below
    // it, so that they are the raised tile. A pixel can raise another of the tile then only where it was above what the
    // sweep gave; what it can raise beyond the tile is told.
    //
    // Errors: out of memory; nothing has changed then.
    fn join(&mut self, alloc: Global, swept: &Swept, is_unchanged: bool) -> Result<(), Memory>
        requires joinable { IsJoinable self.old swept.now.job }
        requires unchanged { IsTrue is_unchanged → IsUnchanged self.old swept.now.job }
        ensures joined { OnOk result (IsJoined self.old swept.now self.new) }
        ensures err { OnErr result (self.new ≡ self.old) }
    {
        give_back_keeps_sound();
        edges_are_open();
        let tile = swept.ticket().tile;
        let rect = self.rect(tile);
        let inbox = self.empty_inbox(alloc);
        let hints = self.hints_once_joined(alloc, swept, is_unchanged, inbox)?;
        let tiling = self.markers.tiling();
        self.work.receive(&tiling, tile, hints.as_slice())?;
        let pixels = swept.pixels();
        let above = bounds_above(&self.image, rect, pixels, is_unchanged);
        raise_part(&mut self.image, rect, pixels, is_unchanged);
        self.bounds.set(tile, above);
        self.work.end_job(tile);
        self.work.keep_inbox(hints);
        Ok(())
    }

    // An inbox without hints, with the room of the one that was kept last. It takes no memory.
    fn empty_inbox(&mut self, alloc: Global) -> Inbox
        ensures empty { result.hints ≡ [] }
        ensures same { self.new ≡ self.old }
    {
        self.work.lend_inbox(alloc)
    }

    // The hints of the tile's open edges, as they are once the swept tile is joined, in an inbox that was empty.
    //
    // Errors: out of memory.
    fn hints_once_joined(
        &self,
        alloc: Global,
        swept: &Swept,
        is_unchanged: bool,
        inbox: Inbox,
    ) -> Result<Inbox, Memory>
        requires known { IsKnown self.now swept.now.job }
        requires unchanged { IsTrue is_unchanged → IsUnchanged self.now swept.now.job }
        requires empty { inbox.hints ≡ [] }
        ensures { IfOk result (λ told. AreHintsOnceJoined self.now swept.now told.hints) }
    {
        let pixels = swept.pixels();
        if is_unchanged {
            return self.hints_by(swept, pixels, inbox);
        }
        let raised = raised_part(alloc, &self.image, self.rect(swept.ticket().tile), pixels)?;
        self.hints_by(swept, &raised, inbox)
    }

    // The hints of the tile's open edges, as they are once the swept tile is joined and the tile is as `raised` says,
    // in an inbox that was empty.
    //
    // Errors: out of memory.
    fn hints_by(&self, swept: &Swept, raised: &Grid, mut inbox: Inbox) -> Result<Inbox, Memory>
        requires known { IsKnown self.now swept.now.job }
        requires raised { IsRaisedPart (tile_rect self.now swept.now.job.ticket.tile) self.now.image swept.now.pixels
            raised.now }
        requires empty { inbox.hints ≡ [] }
        ensures { IfOk result (λ told. AreHintsOnceJoined self.now swept.now told.hints) }
    {
        edges_are_open();
        same_image_same_edges();
        let tile = swept.ticket().tile;
        let mask = self.markers.mask();
        let tiling = self.markers.tiling();
        let generation = self.work.generation(tile);
        match open_edges(
            raised,
            &self.image,
            mask,
            &tiling,
            tile,
            generation,
            self.conn,
            &mut inbox,
        ) {
            Ok(()) => Ok(inbox),
            Err(_) => Err(Memory),
        }
    }
}
