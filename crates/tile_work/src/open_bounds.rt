//! For each tile bounds outside which nothing open begins.

ghost use Rattle.std.specs.Prelude.{◌≡◌, ◌+◌, ◌^◌, ◌<◌, ◌≤◌, ◌⊎◌, length, map, replicate, slice_range, slice_set, IfOk};
ghost use Rattle.grid_core.specs.Bounds.{AreEmpty, joined, no_bounds};
ghost use Rattle.tile_work.specs.Cutting.{in_band, in_whole, with_part, BeginFrom, EndWithin};
ghost use Rattle.tile_work.specs.OpenBounds.{bounds_for};

use grid_core::{Bounds, Memory};
use std::alloc::Global;
use std::marker::Model;

/// For each tile of an image bounds of the pixels in it that may still raise a neighbour, in the tile or in another.
#[derive(Debug, Drop)]
pub struct OpenBounds {
    tiles: Vec<Bounds>,
}

impl Model for OpenBounds {
    ghost use Rattle.std.specs.Prelude.{List};
    ghost use Rattle.grid_core.specs.declared.bounds.Bounds.{Bounds as Area};

    ghost Value = { List Area };

    ghost view = { λ b. b.tiles.items };
}

impl OpenBounds {
    /// So many tiles, in each of which no pixel can raise a neighbour.
    ///
    /// Errors: out of memory.
    pub fn none(alloc: Global, count: usize) -> Result<OpenBounds, Memory>
        ensures { IfOk result (λ table. table ≡ replicate count no_bounds) }
    {
        let tiles = vec![in alloc; Bounds::none(); count]?;
        Ok(OpenBounds { tiles })
    }

    /// The number of tiles.
    pub fn len(&self) -> usize
        ensures { result ≡ length self.now }
    {
        self.tiles.len()
    }

    /// The bounds of a tile.
    pub fn get(&self, tile: usize) -> Bounds
        requires { tile < length self.now }
        ensures { result ≡ bounds_for self.now tile }
    {
        self.tiles[tile]
    }

    /// The tile has these bounds from now on.
    pub fn set(&mut self, tile: usize, bounds: Bounds)
        requires { tile < length self.old }
        ensures { self.new ≡ slice_set self.old tile bounds }
    {
        self.tiles[tile] = bounds;
    }

    /// The tile's bounds have these within them from now on.
    pub fn widen(&mut self, tile: usize, bounds: Bounds)
        requires { tile < length self.old }
        ensures { self.new ≡ slice_set self.old tile (joined (bounds_for self.old tile) bounds) }
    {
        self.tiles[tile] = self.tiles[tile].joined(bounds);
    }
    /// The bounds of the tiles from `first` on and before `end`, in an image whose row 0 is the row `rows` of this one.
    /// Those that no pixel lies within are [`Bounds::none`] there.
    ///
    /// Errors: out of memory.
    pub fn cut(
        &self,
        alloc: Global,
        first: usize,
        end: usize,
        rows: u32,
    ) -> Result<OpenBounds, Memory>
        requires order { first ≤ end }
        requires within { end ≤ length self.now }
        requires rows { BeginFrom rows self.now first end }
        ensures { IfOk result (λ band. band ≡ map (in_band rows) (slice_range self.now first end)) }
    {
        let mut tiles = Vec::with_capacity(alloc, end - first)?;
        for bounds in &self.tiles[first..end] {
            tiles.push(in_band(*bounds, rows))?;
        }
        Ok(OpenBounds { tiles })
    }

    /// The tiles from `first` on have the bounds of the band's tiles from now on. Row 0 of the band is the row `rows`
    /// of this image. Those that no pixel lies within are [`Bounds::none`] here. It takes no memory.
    pub fn put(&mut self, first: usize, rows: u32, band: &OpenBounds)
        requires within { first + length band.now ≤ length self.old }
        requires rows { EndWithin rows band.now }
        ensures { self.new ≡ with_part first (map (in_whole rows) band.now) self.old }
    {
        // For its clause alone: there are no more tiles than a `usize` counts.
        let _ = self.len();
        for place in 0..band.len() {
            self.set(first + place, in_whole(band.get(place), rows));
        }
    }
}

// The bounds, in an image whose row 0 is this row.
fn in_band(bounds: Bounds, rows: u32) -> Bounds
    requires { AreEmpty bounds ⊎ (rows ≤ bounds.top) }
    ensures { result ≡ in_band rows bounds }
{
    if bounds.is_empty() {
        return Bounds::none();
    }
    Bounds {
        top: bounds.top - rows,
        bottom: bounds.bottom - rows,
        ..bounds
    }
}

// The bounds of such an image, in the one that it is a part of.
fn in_whole(bounds: Bounds, rows: u32) -> Bounds
    requires { AreEmpty bounds ⊎ (rows + bounds.bottom < 2 ^ 32) }
    ensures { result ≡ in_whole rows bounds }
{
    if bounds.is_empty() {
        return Bounds::none();
    }
    Bounds {
        top: rows + bounds.top,
        bottom: rows + bounds.bottom,
        ..bounds
    }
}
