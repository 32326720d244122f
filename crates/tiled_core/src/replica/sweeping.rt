//! Jobs that are taken, and swept tiles that are given back.

ghost use Rattle.std.specs.Prelude.{◌≡◌, ◌*◌, ◌≤◌, ◌↔◌, [], length, IfErr, IfOk, IsTrue, OnErr, OnOk};
ghost use Rattle.std.specs.Arc.{arc_value};
ghost use Rattle.grid_core.specs.declared.conn.Conn.TheVariants.{Four};
ghost use Rattle.grid_core.specs.Raster.{IsImageSize};
ghost use Rattle.grid_core.specs.Rects.{RectFits};
ghost use Rattle.tile_generations.specs.Rims.{IsRimOf};
ghost use Rattle.core_rules.specs.Image.{IsAtMostPart, IsPart};
ghost use Rattle.core_rules.specs.Work.{IsTile};
ghost use Rattle.core_rules.specs.Sweeps.{IsGivenBack, IsJoined, IsKnown, IsNextJob, IsOut, IsReady, IsTaken};
ghost use Rattle.core_rules.specs.Sweeps.{IsUnchanged, tile_rect};
ghost use Rattle.reset_core.specs.Answers.{IsJoinable};
ghost use Rattle.reset_core.specs.Parts.{AreBoundsAbove, IsRaisedPart};
ghost use Rattle.reset_core.specs.Sweeping.{AreHintsOnceJoined, IsJudged};
ghost use Rattle.tiled_image.specs.Raising.{IsBelowInside, RaisesAs};
ghost use Rattle.tiled_image.specs.Shown.{value_in};
ghost use Rattle.tiled_image.specs.Sides.{HasSides};
ghost use Rattle.tiled_core.specs.Joining.{IsRaising};
ghost use Rattle.tiled_core.specs.Owning.{IsOwn};
ghost use Rattle.tiled_core.specs.Patches.{patch_of};

use super::TiledCore;
use border_queues::laws::{edges_are_open, same_image_same_edges};
use border_queues::{Inbox, View, open_edges_around};
use core_rules::Back;
use core_rules::laws::{give_back_keeps_sound, take_keeps_sound};
use grid_core::{Bounds, Conn, Grid, Memory, Rect};
use reset_core::parts::{counted_from, is_part};
use std::alloc::Global;
use std::sync::Arc;
use tile_generations::{Job, Rim, Swept, Ticket};
use tiled_image::around_of;

/// How many blocks of memory are kept for the sweeps of jobs to come, at most.
pub(super) const MOST_BLOCKS: usize = 256;

impl TiledCore {
    /// The job of a tile that is dirty and not out: it shares the tile's pixels and mask, and has the next serial. The
    /// tile is then out, and not dirty. None where there is no such tile, or it is clean or out.
    ///
    /// Errors: out of memory; nothing has changed then.
    pub fn take(&mut self, alloc: Global, tile: usize) -> Result<Option<Job>, Memory>
        ensures taken { IfOk result (λ job. IsTaken self.old tile job self.new) }
        ensures memory { OnErr result (IsReady self.old tile) }
        ensures err { OnErr result (self.new ≡ self.old) }
    {
        take_keeps_sound();
        if !self.is_ready(tile) {
            return Ok(None);
        }
        let mask = self.mask_of(alloc, tile)?;
        let job = self.next_job(alloc, tile, mask)?;
        let job = self.with_kept_block(job);
        let tiling = self.markers.tiling();
        self.beside.enter(&tiling, tile);
        self.work.take(tile, self.serial);
        self.serial = self.serial.wrapping_add(1);
        Ok(Some(job))
    }

    /// Gives back a swept tile, as [`Core::give_back`](reset_core::Core::give_back) does. What the sweep gave is put in
    /// without a copy where the tile is as it was, but for its rim.
    ///
    /// Errors: out of memory, with the swept tile handed back; nothing has changed then.
    pub fn give_back(&mut self, alloc: Global, swept: Swept) -> Result<Back, (Swept, Memory)>
        ensures given { IfOk result (λ back. IsGivenBack self.old swept back self.new) }
        ensures memory { OnErr result (IsJoinable self.old swept.job) }
        ensures err { OnErr result (self.new ≡ self.old) }
        ensures returned { IfErr result (λ e. e.0 ≡ swept) }
    {
        let back = self.answer_to(&swept);
        self.take_back(alloc, swept, back)
    }

    /// Gives back a swept tile as [`give_back`](TiledCore::give_back) does, where it is known that a job of this ticket
    /// that is out is one that this core gave: neither mask nor base are then compared.
    ///
    /// Errors: out of memory, with the swept tile handed back; nothing has changed then.
    pub fn give_back_own(&mut self, alloc: Global, swept: Swept) -> Result<Back, (Swept, Memory)>
        requires own { IsOwn self.old swept.job }
        ensures given { IfOk result (λ back. IsGivenBack self.old swept back self.new) }
        ensures memory { OnErr result (IsJoinable self.old swept.job) }
        ensures err { OnErr result (self.new ≡ self.old) }
        ensures returned { IfErr result (λ e. e.0 ≡ swept) }
    {
        let back = self.answer_to_own(&swept);
        self.take_back(alloc, swept, back)
    }

    // Gives back a swept tile that was judged.
    //
    // Errors: out of memory, with the swept tile handed back; nothing has changed then.
    fn take_back(
        &mut self,
        alloc: Global,
        swept: Swept,
        back: Back,
    ) -> Result<Back, (Swept, Memory)>
        requires judged { IsJudged self.old swept.job back }
        ensures given { IfOk result (λ back. IsGivenBack self.old swept back self.new) }
        ensures memory { OnErr result (IsJoinable self.old swept.job) }
        ensures err { OnErr result (self.new ≡ self.old) }
        ensures returned { IfErr result (λ e. e.0 ≡ swept) }
    {
        match back {
            Back::Joined | Back::Again => match self.join(alloc, &swept, back == Back::Joined) {
                Ok(()) => {
                    self.keep_block(swept);
                    Ok(back)
                }
                Err(why) => Err((swept, why)),
            },
            Back::Stale | Back::Stranger => Ok(back),
        }
    }

    // Whether the tile can be taken.
    fn is_ready(&self, tile: usize) -> bool
        ensures { IsTrue result ↔ IsReady self.now tile }
    {
        tile < self.work.len() && self.work.is_dirty(tile) && self.work.out(tile).is_none()
    }

    // The mask of a tile, which all jobs on it share.
    //
    // Errors: out of memory.
    pub(super) fn mask_of(&mut self, alloc: Global, tile: usize) -> Result<Arc<Grid>, Memory>
        requires { IsTile self.old tile }
        ensures part { IfOk result (λ mask. IsPart (tile_rect self.old tile) self.old.mask (arc_value mask)) }
        ensures same { self.new ≡ self.old }
    {
        let tiling = self.markers.tiling();
        self.masks.share(alloc, self.markers.mask(), &tiling, tile)
    }

    // The job on a tile as the core stands.
    //
    // Errors: out of memory.
    fn next_job(&mut self, alloc: Global, tile: usize, mask: Arc<Grid>) -> Result<Job, Memory>
        requires is_tile { IsTile self.old tile }
        requires mask { IsPart (tile_rect self.old tile) self.old.mask (arc_value mask) }
        ensures job { IfOk result (IsNextJob self.old tile) }
        ensures same { self.new ≡ self.old }
    {
        let rect = self.rect(tile);
        let base = self.image.share(alloc, tile)?;
        let ticket = Ticket {
            tile,
            generation: self.work.generation(tile),
            serial: self.serial,
        };
        let bounds = counted_from(rect, self.bounds.get(tile));
        Ok(Job::shared(ticket, self.conn, base, mask, bounds))
    }

    // The job, with memory for its sweep where some is kept. It takes none.
    fn with_kept_block(&mut self, job: Job) -> Job
        ensures job { result ≡ job }
        ensures same { self.new ≡ self.old }
    {
        match self.blocks.pop() {
            Some(block) => job.with_block(block),
            None => job,
        }
    }

    // Keeps what is left of a swept tile that was joined, for the sweep of a job to come.
    fn keep_block(&mut self, swept: Swept)
        ensures { self.new ≡ self.old }
    {
        if self.blocks.len() < MOST_BLOCKS
            && let Some(block) = swept.into_block()
        {
            // Where there is no room for it, its memory is let go.
            let _ = self.blocks.push(block);
        }
    }

    // The rectangle of a tile.
    fn rect(&self, tile: usize) -> Rect
        requires { IsTile self.now tile }
        ensures rect { result ≡ tile_rect self.now tile }
        ensures mask { RectFits self.now.mask.width self.now.mask.height result }
        ensures image { RectFits self.now.image.width self.now.image.height result }
    {
        self.markers.tiling().rect(tile)
    }

    // Whether the job of the ticket is out.
    pub(super) fn has_out(&self, ticket: Ticket) -> bool
        ensures { IsTrue result ↔ IsOut self.now ticket }
    {
        let tile = ticket.tile;
        tile < self.work.len()
            && self.work.generation(tile) == ticket.generation
            && self.work.out(tile) == Some(ticket.serial)
    }

    // Whether the job may be one of this core.
    fn knows(&self, swept: &Swept) -> bool
        ensures { IsTrue result ↔ IsKnown self.now swept.now.job }
    {
        let ticket = swept.ticket();
        ticket.tile < self.work.len()
            && ticket.generation <= self.work.generation(ticket.tile)
            && swept.conn() == self.conn
            && self.has_mask(ticket.tile, swept.mask())
    }

    // Whether the piece is the mask of the tile.
    fn has_mask(&self, tile: usize, piece: &Grid) -> bool
        requires { IsTile self.now tile }
        ensures { IsTrue result ↔ IsPart (tile_rect self.now tile) self.now.mask piece.now }
    {
        let rect = self.rect(tile);
        match self.masks.get(tile) {
            Some(mask) => is_part(mask, Rect { x: 0, y: 0, ..rect }, piece),
            None => is_part(self.markers.mask(), rect, piece),
        }
    }

    // Whether the piece is the tile.
    fn has_pixels(&self, tile: usize, piece: &Grid) -> bool
        requires { IsTile self.now tile }
        ensures { IsTrue result ↔ IsPart (tile_rect self.now tile) self.now.image piece.now }
    {
        self.image.is_part(tile, piece)
    }

    // Whether the piece is nowhere above the tile.
    fn has_at_least(&self, tile: usize, piece: &Grid) -> bool
        requires { IsTile self.now tile }
        ensures { IsTrue result ↔ IsAtMostPart (tile_rect self.now tile) self.now.image piece.now }
    {
        self.image.is_at_most_part(tile, piece)
    }

    // What becomes of a swept tile that is given back, if memory lasts.
    fn answer_to(&self, swept: &Swept) -> Back
        ensures { IsJudged self.now swept.now.job result }
    {
        let tile = swept.ticket().tile;
        if !self.knows(swept) {
            return Back::Stranger;
        }
        if !self.has_out(swept.ticket()) {
            return Back::Stale;
        }
        if self.work.is_dirty(tile) {
            if self.has_at_least(tile, swept.base()) {
                return Back::Again;
            }
        } else if self.has_pixels(tile, swept.base()) {
            return Back::Joined;
        }
        Back::Stranger
    }

    // What becomes of a swept tile that is given back, if memory lasts, where a job of its ticket that is out is the
    // core's own.
    fn answer_to_own(&self, swept: &Swept) -> Back
        requires own { IsOwn self.now swept.now.job }
        ensures { IsJudged self.now swept.now.job result }
    {
        let ticket = swept.ticket();
        if !self.has_out(ticket) {
            return self.answer_to(swept);
        }
        if self.work.is_dirty(ticket.tile) {
            Back::Again
        } else {
            Back::Joined
        }
    }

    // Joins a swept tile into the image. Where the tile is as it was when its job was taken, but for its rim, what the
    // sweep gave is put in, and is shared then. Else the tile is copied, raised, and put in.
    //
    // Errors: out of memory; nothing has changed then.
    fn join(&mut self, alloc: Global, swept: &Swept, is_unchanged: bool) -> Result<(), Memory>
        requires joinable { IsJoinable self.old swept.now.job }
        requires unchanged { IsTrue is_unchanged → IsUnchanged self.old swept.now.job }
        ensures joined { OnOk result (IsJoined self.old swept.now self.new) }
        ensures err { OnErr result (self.new ≡ self.old) }
    {
        let tile = swept.ticket().tile;
        let pixels = swept.pixels();
        if is_unchanged || self.image.has_below(tile, swept.base()) {
            let shared = swept.shared_pixels()?;
            let above = self.bounds_over(swept, is_unchanged);
            return self.join_raised(alloc, swept, shared, swept.rim(), above);
        }
        self.image.fold(alloc, tile);
        let above = self.image.bounds_above(tile, pixels);
        let (held, rim) = self.raised_by(alloc, tile, pixels)?;
        self.join_raised(alloc, swept, held, &rim, above)
    }

    // Bounds of the pixels of a tile where it is above what its sweep gave, where that is so at most on its rim: none
    // where it is as it was when its job was taken.
    fn bounds_over(&self, swept: &Swept, is_unchanged: bool) -> Bounds
        requires known { IsKnown self.now swept.now.job }
        requires unchanged { IsTrue is_unchanged → IsUnchanged self.now swept.now.job }
        requires inside { IsBelowInside (tile_rect self.now swept.now.job.ticket.tile) self.now.image
            (value_in (tile_rect self.now swept.now.job.ticket.tile) swept.now.pixels) }
        ensures { AreBoundsAbove (tile_rect self.now swept.now.job.ticket.tile)
            (tile_rect self.now swept.now.job.ticket.tile).h self.now.image swept.now.pixels result }
    {
        // For its clause alone: what the sweep gave. A look at a field opens the core.
        let _pixels = swept.pixels();
        let _conn = self.conn;
        if is_unchanged {
            return Bounds::none();
        }
        let tile = swept.ticket().tile;
        self.image.bounds_over(tile, swept.rim())
    }

    // Joins a swept tile, where `part`, an image with this rim, raises the tile as the sweep does, and is put in. A
    // pixel can raise another of the tile then only where it was above what the sweep gave; what it can raise beyond
    // the tile is told.
    //
    // Errors: out of memory; nothing has changed then.
    fn join_raised(
        &mut self,
        alloc: Global,
        swept: &Swept,
        part: Arc<Grid>,
        rim: &Rim,
        above: Bounds,
    ) -> Result<(), Memory>
        requires joinable { IsJoinable self.old swept.now.job }
        requires raising { IsRaising self.old swept.now (arc_value part) rim.now above }
        ensures joined { OnOk result (IsJoined self.old swept.now self.new) }
        ensures err { OnErr result (self.new ≡ self.old) }
    {
        match self.conn {
            Conn::Four => self.join_along(swept, part, rim, above),
            Conn::Eight => self.join_around(alloc, swept, part, rim, above),
        }
    }

    // Does so with four neighbours: what the tile can raise is told by the rims of the tiles beside it.
    //
    // Errors: out of memory; nothing has changed then.
    fn join_along(
        &mut self,
        swept: &Swept,
        part: Arc<Grid>,
        rim: &Rim,
        above: Bounds,
    ) -> Result<(), Memory>
        requires four { self.old.conn ≡ Four }
        requires joinable { IsJoinable self.old swept.now.job }
        requires raising { IsRaising self.old swept.now (arc_value part) rim.now above }
        ensures joined { OnOk result (IsJoined self.old swept.now self.new) }
        ensures err { OnErr result (self.new ≡ self.old) }
    {
        give_back_keeps_sound();
        edges_are_open();
        same_image_same_edges();
        let tile = swept.ticket().tile;
        self.image
            .tell_along(&self.mask_rims, tile, rim, &mut self.work)?;
        let tiling = self.markers.tiling();
        self.image.raise(tile, part, rim);
        self.bounds.set(tile, above);
        self.beside.leave(&tiling, tile);
        self.work.end_job(tile);
        Ok(())
    }

    // Does so by the pixels around the tile.
    //
    // Errors: out of memory; nothing has changed then.
    fn join_around(
        &mut self,
        alloc: Global,
        swept: &Swept,
        part: Arc<Grid>,
        rim: &Rim,
        above: Bounds,
    ) -> Result<(), Memory>
        requires joinable { IsJoinable self.old swept.now.job }
        requires raising { IsRaising self.old swept.now (arc_value part) rim.now above }
        ensures joined { OnOk result (IsJoined self.old swept.now self.new) }
        ensures err { OnErr result (self.new ≡ self.old) }
    {
        give_back_keeps_sound();
        edges_are_open();
        let tile = swept.ticket().tile;
        let inbox = self.empty_inbox(alloc);
        let hints = self.hints_once_joined(swept, rim, inbox)?;
        let tiling = self.markers.tiling();
        self.work.receive(&tiling, tile, hints.as_slice())?;
        self.image.raise(tile, part, rim);
        self.bounds.set(tile, above);
        self.beside.leave(&tiling, tile);
        self.work.end_job(tile);
        self.work.keep_inbox(hints);
        Ok(())
    }

    // The tile, raised to the piece, which has its size, and the rim of that.
    //
    // Errors: out of memory.
    fn raised_by(
        &self,
        alloc: Global,
        tile: usize,
        piece: &Grid,
    ) -> Result<(Arc<Grid>, Rim), Memory>
        requires is_tile { IsTile self.now tile }
        requires width { piece.now.width ≡ (tile_rect self.now tile).w }
        requires height { piece.now.height ≡ (tile_rect self.now tile).h }
        ensures raised { IfOk result (λ r. IsRaisedPart (tile_rect self.now tile) self.now.image piece.now
            (arc_value r.0)) }
        ensures rim { IfOk result (λ r. IsRimOf (arc_value r.0) r.1) }
    {
        let raised = self.image.raised_part(alloc, tile, piece)?;
        let rim = Rim::of(alloc, &raised)?;
        let held = Arc::new(alloc, raised)?;
        Ok((held, rim))
    }

    // An inbox without hints, with the room of the one that was kept last. It takes no memory.
    fn empty_inbox(&mut self, alloc: Global) -> Inbox
        ensures empty { result.hints ≡ [] }
        ensures same { self.new ≡ self.old }
    {
        self.work.lend_inbox(alloc)
    }

    // The hints of the tile's open edges, as they are once the swept tile is joined, in an inbox that was empty. An
    // image with this rim raises the tile as the sweep does.
    //
    // Errors: out of memory.
    fn hints_once_joined(
        &mut self,
        swept: &Swept,
        rim: &Rim,
        mut inbox: Inbox,
    ) -> Result<Inbox, Memory>
        requires known { IsKnown self.old swept.now.job }
        requires rim { HasSides (tile_rect self.old swept.now.job.ticket.tile) rim.now }
        requires empty { inbox.hints ≡ [] }
        ensures told { IfOk result (λ told. (part : _) → IsRimOf part rim.now
            → RaisesAs (tile_rect self.old swept.now.job.ticket.tile) self.old.image swept.now.pixels part
            → AreHintsOnceJoined self.old swept.now told.hints) }
        ensures same { self.new ≡ self.old }
    {
        edges_are_open();
        same_image_same_edges();
        let tile = swept.ticket().tile;
        let tiling = self.markers.tiling();
        let generation = self.work.generation(tile);
        let around = around_of(&tiling, tile);
        self.image.fill_raised_ring(tile, rim, &mut self.ring);
        self.mask_rims.fill_ring(&tiling, tile, &mut self.limits);
        let ring = patch(&self.ring, around);
        let limits = patch(&self.limits, around);
        let Ok(()) = open_edges_around(
            &ring, &limits, &tiling, tile, generation, self.conn, &mut inbox,
        ) else {
            return Err(Memory);
        };
        Ok(inbox)
    }
}

// The first of the cells, which show the rectangle row by row.
fn patch(cells: &[u16], rect: Rect) -> View<'_>
    requires size { IsImageSize rect.w rect.h }
    requires room { rect.w * rect.h ≤ length cells.now }
    ensures { result ≡ patch_of rect cells.now }
{
    let count = rect.w as usize * rect.h as usize;
    View::over(rect.w, rect.h, &cells[..count])
}
