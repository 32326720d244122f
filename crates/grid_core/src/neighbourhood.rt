//! The pixels beside a pixel.

ghost use Rattle.std.specs.Prelude.{◌≡◌, ◌+◌, ◌<◌, ◌≤◌, ◌↔◌, [], ◌∷◌, ◌++◌, length, Contains};
ghost use Rattle.grid_core.specs.Raster.{IsInside};
ghost use Rattle.grid_core.specs.Neighbours.{AreNeighbours, IsInRasterOrder};
ghost use Rattle.grid_core.specs.Rows.{has_diagonals, row_around, rows_around};

use crate::conn::Conn;
use crate::pixel::Pixel;
use std::marker::Model;

/// Up to eight pixels, in raster order.
#[derive(Debug, Drop)]
pub struct Neighbourhood {
    pixels: [Pixel; 8],
    len: usize,
}

impl Model for Neighbourhood {
    ghost use Rattle.std.specs.Prelude.{◌≤◌, List, take};
    ghost use Rattle.grid_core.specs.declared.pixel.Pixel.{Pixel};

    ghost Value = { List Pixel };

    ghost view = { λ n. take n.len n.pixels };

    ghost invariant = { λ n. n.len ≤ 8 };
}

impl Neighbourhood {
    /// The pixels, in raster order.
    pub fn as_slice(&self) -> &[Pixel]
        ensures pixels { result.now ≡ self.now }
        ensures few { length self.now ≤ 8 }
    {
        &self.pixels[..self.len]
    }

    fn push(&mut self, p: Pixel)
        requires { length self.old < 8 }
        ensures { self.new ≡ self.old ++ p ∷ [] }
    {
        self.pixels[self.len] = p;
        self.len += 1;
    }

    // Adds the pixels of row `y` beside column `x` if `sides`, and the one at it if `middle`.
    fn push_row(&mut self, width: u32, x: u32, y: u32, sides: bool, middle: bool)
        requires column { x < width }
        requires room { length self.old + length (row_around width x y sides middle) ≤ 8 }
        ensures { self.new ≡ self.old ++ row_around width x y sides middle }
    {
        if sides && x > 0 {
            self.push(Pixel { x: x - 1, y });
        }
        if middle {
            self.push(Pixel { x, y });
        }
        if sides && x + 1 < width {
            self.push(Pixel { x: x + 1, y });
        }
    }
}

fn diagonals(conn: Conn) -> bool
    ensures { result ≡ has_diagonals conn }
{
    match conn {
        Conn::Four => false,
        Conn::Eight => true,
    }
}

fn rows(w: u32, h: u32, conn: Conn, p: Pixel) -> Neighbourhood
    requires { IsInside w h p }
    ensures { result ≡ rows_around conn w h p }
{
    let sides = diagonals(conn);
    let mut found = Neighbourhood {
        pixels: [p; 8],
        len: 0,
    };
    if p.y > 0 {
        found.push_row(w, p.x, p.y - 1, sides, true);
    }
    found.push_row(w, p.x, p.y, true, false);
    if p.y + 1 < h {
        found.push_row(w, p.x, p.y + 1, sides, true);
    }
    found
}

/// The neighbours of a pixel in an image of `w * h` pixels, in raster order (Vincent 1993).
pub fn neighbours(w: u32, h: u32, conn: Conn, p: Pixel) -> Neighbourhood
    requires { IsInside w h p }
    ensures members { (q : _) → Contains result q ↔ (AreNeighbours conn p q × IsInside w h q) }
    ensures order { IsInRasterOrder result }
{
    rows(w, h, conn, p)
}
