//! Images in tiles.

ghost use Rattle.std.specs.Prelude.{◌≡◌, ◌<◌, ◌≤◌, IfErr, IfOk, IfSome, MatchBool};
ghost use Rattle.std.specs.Arc.{arc_value};
ghost use Rattle.std.specs.Borrow.{sem};
ghost use Rattle.grid_core.specs.Raster.{IsInside, value_at, with_value};
ghost use Rattle.grid_core.specs.Rects.{IsInRect, IsPart, IsPatch};
ghost use Rattle.grid_core.specs.Tiles.{count_of, rect_of};
ghost use Rattle.tile_generations.specs.Rims.{IsRimOf};
ghost use Rattle.tiled_image.specs.Lending.{StaysSame};
ghost use Rattle.core_rules.specs.Image.{IsJoinedWith};
ghost use Rattle.tiled_image.specs.RaisedTiles.{IsInner};
ghost use Rattle.tiled_image.specs.Raising.{IsBelowInside};
ghost use Rattle.tiled_image.specs.Rims.{strip_at};
ghost use Rattle.tiled_image.specs.Shown.{Shows, value_in};
ghost use Rattle.tiled_image.specs.TiledImage.{IsOfTiling, tiled_raster};

use crate::copies::place_in;
use crate::folding::{fold_one, write_all};
use crate::keeping::{set_value, share_part};
use crate::rims::{Edge, Rims, edge_at};
use crate::shared_copies::SharedCopies;
use crate::tile_parts::TileParts;
use grid_core::{Grid, Memory, Pixel, Rect, Tiling};
use std::alloc::Global;
use std::marker::Model;
use std::sync::Arc;
use tile_generations::Rim;
use tile_work::TileSet;

mod comparing;
mod copying;
mod renewing;
mod ring;
mod telling;

pub use ring::around_of;

/// An image whose tiles can be lent and put in without a copy.
#[derive(Drop)]
pub struct TiledImage {
    tiling: Tiling,
    // The image, but for the tiles that are newer and the rims of those that are raised.
    rows: Grid,
    // Of each tile its part of the image, once it was cut out or put in, but for the rim of a raised one.
    parts: TileParts,
    // The tiles whose part is not in `rows` yet.
    newer: TileSet,
    // The last copies that were given out.
    copies: SharedCopies,
    // The tiles whose rim is in `rims` alone.
    raised: TileSet,
    // Of each tile its first and last row and column, for what lies around a tile.
    rims: Rims,
}

impl Model for TiledImage {
    ghost use Rattle.tiled_image.specs.AllKept.{IsKeptWithAll};
    ghost use Rattle.tiled_image.specs.RaisedTiles.{whole_of};
    ghost use Rattle.tiled_image.specs.TiledImage.{TiledRaster, tiled_raster};

    ghost Value = { TiledRaster };

    ghost view = { λ i. tiled_raster i.tiling (whole_of i.tiling i.rows i.parts i.newer i.rims) };

    ghost invariant = { λ i. IsKeptWithAll i.tiling i.rows i.parts i.newer i.copies i.raised i.rims };
}

impl TiledImage {
    /// The image of these rows, of which no tile was cut out.
    ///
    /// Errors: out of memory, with the rows handed back.
    pub fn new(alloc: Global, tiling: Tiling, rows: Grid) -> Result<TiledImage, (Grid, Memory)>
        requires width { rows.width ≡ tiling.width }
        requires height { rows.height ≡ tiling.height }
        ensures image { IfOk result (λ image. image ≡ tiled_raster tiling rows) }
        ensures returned { IfErr result (λ e. e.0 ≡ rows) }
    {
        // For its clause alone: the rows have a value for each pixel.
        let _ = rows.width();
        let count = tiling.count();
        let parts = match TileParts::none(alloc, count) {
            Ok(parts) => parts,
            Err(why) => return Err((rows, why)),
        };
        let rims = match Rims::of(alloc, &tiling, &rows) {
            Ok(rims) => rims,
            Err(why) => return Err((rows, why)),
        };
        let raised = match TileSet::empty(alloc, count) {
            Ok(raised) => raised,
            Err(why) => return Err((rows, why)),
        };
        let newer = match TileSet::empty(alloc, count) {
            Ok(newer) => newer,
            Err(why) => return Err((rows, why)),
        };
        match SharedCopies::none(alloc, count) {
            Ok(copies) => Ok(TiledImage {
                tiling,
                rows,
                parts,
                newer,
                copies,
                raised,
                rims,
            }),
            Err(why) => Err((rows, why)),
        }
    }

    /// How the image is cut into tiles.
    pub fn tiling(&self) -> Tiling
        ensures value { result ≡ self.now.tiling }
        ensures of_tiling { IsOfTiling self.now.tiling self.now.image }
    {
        self.tiling
    }

    /// The value at a pixel.
    pub fn get(&self, p: Pixel) -> u16
        requires { IsInside self.now.image.width self.now.image.height p }
        ensures { result ≡ value_at self.now.image p }
    {
        let (tile, rect) = self.home(p);
        self.get_in(tile, rect, p)
    }

    /// The value at a pixel of a tile that has this rectangle.
    pub fn get_in(&self, tile: usize, rect: Rect, p: Pixel) -> u16
        requires tile { tile < count_of self.now.tiling }
        requires rect { rect ≡ rect_of self.now.tiling tile }
        requires inside { IsInRect rect p }
        ensures { result ≡ value_at self.now.image p }
    {
        match self.rims.get(&self.tiling, tile, rect, p) {
            Some(value) => value,
            None => self.get_inner(tile, rect, p),
        }
    }

    /// Gives a pixel another value. It takes no memory: where others hold the part of its tile, they keep it, and the
    /// image has none of that tile any more. On the rim of its tile the pixel is written into rows and part of the tile
    /// no sooner than these are needed.
    pub fn set(&mut self, p: Pixel, value: u16)
        requires { IsInside self.old.image.width self.old.image.height p }
        ensures { self.new ≡ tiled_raster self.old.tiling (with_value self.old.image p value) }
    {
        let (tile, rect) = self.home(p);
        self.set_in(tile, rect, p, value);
    }

    /// Gives a pixel of a tile that has this rectangle another value, as [`set`](TiledImage::set) does.
    pub fn set_in(&mut self, tile: usize, rect: Rect, p: Pixel, value: u16)
        requires tile { tile < count_of self.old.tiling }
        requires rect { rect ≡ rect_of self.old.tiling tile }
        requires inside { IsInRect rect p }
        ensures { self.new ≡ tiled_raster self.old.tiling (with_value self.old.image p value) }
    {
        match edge_at(rect, p) {
            Some(edge) => self.set_on_rim(tile, rect, edge, p, value),
            None => self.set_inner(tile, rect, p, value),
        }
    }

    /// Raises a pixel of a tile that has this rectangle to a value, as [`set`](TiledImage::set) does, and says whether
    /// it was below it: else nothing changes. It takes no memory.
    pub fn raise_in(&mut self, tile: usize, rect: Rect, p: Pixel, value: u16) -> bool
        requires tile { tile < count_of self.old.tiling }
        requires rect { rect ≡ rect_of self.old.tiling tile }
        requires inside { IsInRect rect p }
        ensures was { MatchBool result (value_at self.old.image p < value) (value ≤ value_at self.old.image p) }
        ensures changed { MatchBool result
            (self.new ≡ tiled_raster self.old.tiling (with_value self.old.image p value)) (self.new ≡ self.old) }
    {
        match edge_at(rect, p) {
            Some(edge) => self.raise_on_rim(tile, rect, edge, p, value),
            None => self.raise_inner(tile, rect, p, value),
        }
    }

    /// Writes the rim of a tile into rows and part of the tile, where it is not there yet. Where others hold the part,
    /// they keep it, and the image has a copy of it if memory lasts, else none any more.
    pub fn fold(&mut self, alloc: Global, tile: usize)
        requires { tile < count_of self.old.tiling }
        ensures { self.new ≡ self.old }
    {
        fold_one(
            Some(alloc),
            &self.tiling,
            &mut self.rows,
            &mut self.parts,
            &mut self.newer,
            &mut self.raised,
            &self.rims,
            tile,
        );
    }

    /// The part of the image in a tile, if it was cut out or put in, and its rim was not changed since.
    pub fn part(&self, tile: usize) -> Option<&Grid>
        requires { tile < count_of self.now.tiling }
        ensures { IfSome result (λ part. IsPart (rect_of self.now.tiling tile) self.now.image part.now) }
    {
        if self.raised.contains(tile) {
            return None;
        }
        self.parts.part(tile)
    }

    /// The part of the image in a tile, to be shared. It is cut out where it is not there yet.
    ///
    /// Errors: out of memory.
    pub fn share(&mut self, alloc: Global, tile: usize) -> Result<Arc<Grid>, Memory>
        requires { tile < count_of self.old.tiling }
        ensures part { IfOk result (λ part.
            IsPart (rect_of self.old.tiling tile) self.old.image (arc_value part)) }
        ensures same { self.new ≡ self.old }
    {
        fold_one(
            Some(alloc),
            &self.tiling,
            &mut self.rows,
            &mut self.parts,
            &mut self.newer,
            &mut self.raised,
            &self.rims,
            tile,
        );
        share_part(
            alloc,
            &self.tiling,
            &self.rows,
            &mut self.parts,
            &self.newer,
            tile,
        )
    }

    /// Puts in what a tile is from now on, an image of the tile's width and height, of which this is the rim. It takes
    /// no memory.
    pub fn put(&mut self, tile: usize, part: Arc<Grid>, rim: &Rim)
        requires tile { tile < count_of self.old.tiling }
        requires width { (arc_value part).width ≡ (rect_of self.old.tiling tile).w }
        requires height { (arc_value part).height ≡ (rect_of self.old.tiling tile).h }
        requires rim { IsRimOf (arc_value part) rim.now }
        ensures tiling { self.new.tiling ≡ self.old.tiling }
        ensures part { IsPart (rect_of self.old.tiling tile) self.new.image (arc_value part) }
        ensures patch { IsPatch (rect_of self.old.tiling tile) self.old.image self.new.image }
    {
        // For its clause alone: the part has a value for each pixel.
        let _ = part.width();
        self.rims.take_rim(&self.tiling, tile, rim);
        self.parts.put(tile, part);
        self.newer.insert(tile);
        self.raised.remove(tile);
        self.copies.mark(tile);
    }

    /// Raises a tile to an image of its width and height, of which this is the rim, and which is put in. The tile is
    /// above that image at most on its own rim. It takes no memory.
    pub fn raise(&mut self, tile: usize, part: Arc<Grid>, rim: &Rim)
        requires tile { tile < count_of self.old.tiling }
        requires width { (arc_value part).width ≡ (rect_of self.old.tiling tile).w }
        requires height { (arc_value part).height ≡ (rect_of self.old.tiling tile).h }
        requires rim { IsRimOf (arc_value part) rim.now }
        requires inside { IsBelowInside (rect_of self.old.tiling tile) self.old.image
            (value_in (rect_of self.old.tiling tile) (arc_value part)) }
        ensures tiling { self.new.tiling ≡ self.old.tiling }
        ensures joined { IsJoinedWith (rect_of self.old.tiling tile) (arc_value part) self.old.image self.new.image }
    {
        // For its clause alone: the part has a value for each pixel.
        let _ = part.width();
        if self.rims.bounds_over(&self.tiling, tile, rim).is_empty() {
            self.put(tile, part, rim);
        } else {
            self.rims.raise(&self.tiling, tile, rim);
            self.parts.put(tile, part);
            self.newer.insert(tile);
            self.raised.insert(tile);
            self.copies.mark(tile);
        }
    }

    /// The image, as rows, into which what was put in and the rims of raised tiles are written first. It takes no
    /// memory.
    pub fn rows(&mut self) -> &Grid
        ensures* same { sem 𝓛 (StaysSame self.entry) }
        ensures rows { result.now ≡ self.old.image }
    {
        write_all(
            &self.tiling,
            &mut self.rows,
            &mut self.parts,
            &mut self.newer,
            &mut self.raised,
            &self.rims,
        );
        &self.rows
    }

    /// The image, as rows, without the tiles. It takes no memory.
    pub fn into_rows(self) -> Grid
        ensures { result ≡ self.image }
    {
        let TiledImage {
            tiling,
            mut rows,
            mut parts,
            mut newer,
            mut raised,
            rims,
            ..
        } = self;
        write_all(
            &tiling,
            &mut rows,
            &mut parts,
            &mut newer,
            &mut raised,
            &rims,
        );
        rows
    }

    // The value at a pixel of a tile that does not lie on its rim.
    fn get_inner(&self, tile: usize, rect: Rect, p: Pixel) -> u16
        requires tile { tile < count_of self.now.tiling }
        requires rect { rect ≡ rect_of self.now.tiling tile }
        requires inside { IsInRect rect p }
        requires inner { IsInner rect p }
        ensures { result ≡ value_at self.now.image p }
    {
        match self.parts.part(tile) {
            Some(part) => part.get(place_in(rect, p)),
            None => self.rows.get(p),
        }
    }

    // Raises a pixel on the rim of a tile to a value, there alone, and says whether it was below it.
    fn raise_on_rim(&mut self, tile: usize, rect: Rect, edge: Edge, p: Pixel, value: u16) -> bool
        requires tile { tile < count_of self.old.tiling }
        requires rect { rect ≡ rect_of self.old.tiling tile }
        requires inside { IsInRect rect p }
        requires at { IsInRect (strip_at edge rect) p }
        ensures was { MatchBool result (value_at self.old.image p < value) (value ≤ value_at self.old.image p) }
        ensures changed { MatchBool result
            (self.new ≡ tiled_raster self.old.tiling (with_value self.old.image p value)) (self.new ≡ self.old) }
    {
        if !self.rims.raise_at(&self.tiling, tile, rect, edge, p, value) {
            return false;
        }
        self.raised.insert(tile);
        self.copies.mark(tile);
        true
    }

    // Raises a pixel of a tile that does not lie on its rim to a value, and says whether it was below it.
    fn raise_inner(&mut self, tile: usize, rect: Rect, p: Pixel, value: u16) -> bool
        requires tile { tile < count_of self.old.tiling }
        requires rect { rect ≡ rect_of self.old.tiling tile }
        requires inside { IsInRect rect p }
        requires inner { IsInner rect p }
        ensures was { MatchBool result (value_at self.old.image p < value) (value ≤ value_at self.old.image p) }
        ensures changed { MatchBool result
            (self.new ≡ tiled_raster self.old.tiling (with_value self.old.image p value)) (self.new ≡ self.old) }
    {
        if self.get_inner(tile, rect, p) >= value {
            return false;
        }
        self.set_inner(tile, rect, p, value);
        true
    }

    // Gives a pixel on the rim of a tile another value, there alone.
    fn set_on_rim(&mut self, tile: usize, rect: Rect, edge: Edge, p: Pixel, value: u16)
        requires tile { tile < count_of self.old.tiling }
        requires rect { rect ≡ rect_of self.old.tiling tile }
        requires inside { IsInRect rect p }
        requires at { IsInRect (strip_at edge rect) p }
        ensures { self.new ≡ tiled_raster self.old.tiling (with_value self.old.image p value) }
    {
        self.raised.insert(tile);
        self.copies.mark(tile);
        self.rims.set(&self.tiling, tile, rect, p, value);
    }

    // Gives a pixel of a tile that does not lie on its rim another value.
    fn set_inner(&mut self, tile: usize, rect: Rect, p: Pixel, value: u16)
        requires tile { tile < count_of self.old.tiling }
        requires rect { rect ≡ rect_of self.old.tiling tile }
        requires inside { IsInRect rect p }
        requires inner { IsInner rect p }
        ensures { self.new ≡ tiled_raster self.old.tiling (with_value self.old.image p value) }
    {
        set_value(
            &self.tiling,
            &mut self.rows,
            &mut self.parts,
            &mut self.newer,
            tile,
            rect,
            p,
            value,
        );
        self.copies.mark(tile);
    }

    // The tile that a pixel lies in, and its rectangle.
    fn home(&self, p: Pixel) -> (usize, Rect)
        requires { IsInside self.now.image.width self.now.image.height p }
        ensures tile { result.0 < count_of self.now.tiling }
        ensures rect { result.1 ≡ rect_of self.now.tiling result.0 }
        ensures inside { IsInRect result.1 p }
    {
        let tiling = self.tiling();
        let tile = tiling.tile_of(p);
        (tile, tiling.rect(tile))
    }

    // What has the values of a tile, behind the rectangle that it shows: the tile's part if there is one, else the
    // rows. None where the tile is raised.
    fn source(&self, tile: usize) -> Option<(Rect, &Grid)>
        requires { tile < count_of self.now.tiling }
        ensures { IfSome result (λ source.
            Shows (rect_of self.now.tiling tile) self.now.image source.1.now source.0) }
    {
        if self.raised.contains(tile) {
            return None;
        }
        match self.parts.part(tile) {
            Some(part) => Some((self.tiling.rect(tile), part)),
            None => Some((
                Rect {
                    x: 0,
                    y: 0,
                    w: self.rows.width(),
                    h: self.rows.height(),
                },
                &self.rows,
            )),
        }
    }
}
