//! Tiles that are compared with pieces of their size.

ghost use Rattle.std.specs.Prelude.{◌≡◌, ◌+◌, ◌<◌, ◌↔◌, IfOk, IfSome, IsTrue};
ghost use Rattle.grid_core.specs.Bounds.{LieIn};
ghost use Rattle.grid_core.specs.Rects.{IsAtMostPart, IsPart};
ghost use Rattle.grid_core.specs.Tiles.{count_of, rect_of};
ghost use Rattle.reset_core.specs.Parts.{AreBoundsAbove, IsPieceFor, IsRaisedPart};
ghost use Rattle.tile_generations.specs.Rims.{IsRimOf};
ghost use Rattle.tiled_image.specs.Raising.{IsBelowInside, IsBelowRim};
ghost use Rattle.tiled_image.specs.Shown.{AreInWhole, HasPartAt, IsRowWithin, IsWithin, IsWithinPart, value_in};
ghost use Rattle.tiled_image.specs.Sides.{HasSides};

use super::TiledImage;
use grid_core::{Bounds, Grid, Memory, Pixel, Rect};
use reset_core::parts::{bounds_above, counted_from, is_at_most_part, is_part, raised_part};
use std::alloc::Global;
use tile_generations::Rim;

impl TiledImage {
    /// Whether the piece is the part of the image in a tile.
    pub fn is_part(&self, tile: usize, piece: &Grid) -> bool
        requires { tile < count_of self.now.tiling }
        ensures { IsTrue result ↔ IsPart (rect_of self.now.tiling tile) self.now.image piece.now }
    {
        match self.tile_source(tile) {
            Some((own, source)) => is_part(source, own, piece),
            None => self.is_within_tile(tile, piece, true),
        }
    }

    /// Whether the piece is at most the part of the image in a tile.
    pub fn is_at_most_part(&self, tile: usize, piece: &Grid) -> bool
        requires { tile < count_of self.now.tiling }
        ensures { IsTrue result ↔ IsAtMostPart (rect_of self.now.tiling tile) self.now.image piece.now }
    {
        match self.tile_source(tile) {
            Some((own, source)) => is_at_most_part(source, own, piece),
            None => self.has_below(tile, piece) || self.is_within_tile(tile, piece, false),
        }
    }

    /// Whether the piece is the part that is kept below a tile's rim, and that rim is nowhere below the piece. The
    /// piece is at most the tile then, and is the tile but on the rim. Where the answer is no, it may be so all the
    /// same.
    pub fn has_below(&self, tile: usize, piece: &Grid) -> bool
        requires { tile < count_of self.now.tiling }
        ensures { IsTrue result → IsBelowRim (rect_of self.now.tiling tile) self.now.image piece.now }
    {
        let whole = Rect {
            x: 0,
            y: 0,
            ..self.tiling.rect(tile)
        };
        match self.parts.part(tile) {
            Some(part) => is_part(part, whole, piece)
                && self.rims.is_nowhere_below(&self.tiling, tile, piece),
            None => false,
        }
    }

    /// Bounds of the pixels of a tile where the image is above a piece of its size, of which this is the rim, where the
    /// image is above that piece at most on the tile's own rim.
    pub fn bounds_over(&self, tile: usize, rim: &Rim) -> Bounds
        requires tile { tile < count_of self.now.tiling }
        requires rim { HasSides (rect_of self.now.tiling tile) rim.now }
        ensures { (piece : _) → IsPieceFor (rect_of self.now.tiling tile) self.now.image piece → IsRimOf piece rim.now
            → IsBelowInside (rect_of self.now.tiling tile) self.now.image
            (value_in (rect_of self.now.tiling tile) piece)
            → AreBoundsAbove (rect_of self.now.tiling tile) (rect_of self.now.tiling tile).h self.now.image piece
            result }
    {
        self.rims.bounds_over(&self.tiling, tile, rim)
    }

    /// The part of the image in a tile, raised to the piece, as an image by itself. Where the rim of the tile is not
    /// [folded](TiledImage::fold), the whole image is copied for that.
    ///
    /// Errors: out of memory.
    pub fn raised_part(&self, alloc: Global, tile: usize, piece: &Grid) -> Result<Grid, Memory>
        requires tile { tile < count_of self.now.tiling }
        requires piece { IsPieceFor (rect_of self.now.tiling tile) self.now.image piece.now }
        ensures { IfOk result (IsRaisedPart (rect_of self.now.tiling tile) self.now.image piece.now) }
    {
        if let Some((own, source)) = self.tile_source(tile) {
            return raised_part(alloc, source, own, piece);
        }
        let copy = self.copy(alloc)?;
        raised_part(alloc, &copy, self.tiling().rect(tile), piece)
    }

    /// Bounds of the pixels of a tile where the image is above the piece. They are all of a tile whose rim is not
    /// [folded](TiledImage::fold).
    pub fn bounds_above(&self, tile: usize, piece: &Grid) -> Bounds
        requires tile { tile < count_of self.now.tiling }
        requires piece { IsPieceFor (rect_of self.now.tiling tile) self.now.image piece.now }
        ensures { AreBoundsAbove (rect_of self.now.tiling tile) (rect_of self.now.tiling tile).h self.now.image
            piece.now result }
    {
        let tiling = self.tiling();
        let rect = tiling.rect(tile);
        let Some((own, source)) = self.tile_source(tile) else {
            return Bounds::of(rect);
        };
        let bounds = bounds_above(source, own, piece, false);
        in_whole(rect, counted_from(own, bounds))
    }

    // What has the values of a tile, behind the rectangle of it in which they stand. None where the tile is raised.
    fn tile_source(&self, tile: usize) -> Option<(Rect, &Grid)>
        requires { tile < count_of self.now.tiling }
        ensures { IfSome result (λ source.
            HasPartAt (rect_of self.now.tiling tile) self.now.image source.1.now source.0) }
    {
        let tiling = self.tiling();
        let rect = tiling.rect(tile);
        let (shown, source) = self.source(tile)?;
        let x = rect.x - shown.x;
        let y = rect.y - shown.y;
        Some((Rect { x, y, ..rect }, source))
    }

    // Whether the piece is the part of the image in a tile, or is at most that, pixel by pixel.
    fn is_within_tile(&self, tile: usize, piece: &Grid, is_equal: bool) -> bool
        requires { tile < count_of self.now.tiling }
        ensures { IsTrue result ↔ IsWithinPart is_equal (rect_of self.now.tiling tile) self.now.image piece.now }
    {
        // For its clause alone: the piece has a value for each pixel.
        let _ = piece.cells();
        let tiling = self.tiling();
        let rect = tiling.rect(tile);
        if piece.width() != rect.w || piece.height() != rect.h {
            return false;
        }
        for y in 0..rect.h {
            if !self.is_row_within(tile, rect, y, piece, is_equal) {
                return false;
            }
        }
        true
    }

    // So with a row of a tile that has this rectangle.
    fn is_row_within(&self, tile: usize, rect: Rect, y: u32, piece: &Grid, is_equal: bool) -> bool
        requires tile { tile < count_of self.now.tiling }
        requires rect { rect ≡ rect_of self.now.tiling tile }
        requires width { piece.now.width ≡ rect.w }
        requires height { piece.now.height ≡ rect.h }
        requires row { y < rect.h }
        ensures { IsTrue result ↔ IsRowWithin is_equal rect self.now.image piece.now y rect.w }
    {
        // For its clause alone: the tiles lie in the image.
        let _ = self.tiling().rect(tile);
        for x in 0..rect.w {
            let p = Pixel {
                x: rect.x + x,
                y: rect.y + y,
            };
            let own = self.get_in(tile, rect, p);
            if !is_within(piece.get(Pixel { x, y }), own, is_equal) {
                return false;
            }
        }
        true
    }
}

// Whether the value is the other one, or is at most that.
fn is_within(value: u16, own: u16, is_equal: bool) -> bool
    ensures { IsTrue result ↔ IsWithin is_equal value own }
{
    if is_equal { value == own } else { value <= own }
}

// The bounds, which are counted from a rectangle's upper left corner, in the whole image.
fn in_whole(rect: Rect, bounds: Bounds) -> Bounds
    requires lie { LieIn bounds (record rect { x = 0; y = 0 }) }
    requires columns { rect.x + rect.w < 4294967296 }
    requires rows { rect.y + rect.h < 4294967296 }
    ensures { AreInWhole rect bounds result }
{
    if bounds.is_empty() {
        return Bounds::none();
    }
    let left = rect.x + bounds.left;
    let right = rect.x + bounds.right;
    let top = rect.y + bounds.top;
    let bottom = rect.y + bounds.bottom;
    Bounds {
        left,
        right,
        top,
        bottom,
    }
}
