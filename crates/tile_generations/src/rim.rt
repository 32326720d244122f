//! Rims of images.

ghost use Rattle.std.specs.Prelude.{◌≡◌, ◌-◌, ◌<◌, ◌++◌, IfOk, OnOk};
ghost use Rattle.grid_core.specs.Raster.{value_at};
ghost use Rattle.grid_core.specs.Rects.{IsRowOf};
ghost use Rattle.tile_generations.specs.Rims.{IsRimOf, column_of};

use crate::job::whole;
use grid_core::{Grid, Memory, Pixel};
use std::alloc::Global;
use std::marker::Model;

/// The values of an image in its first row, its last row, its first column and its last column: a small copy, beside an
/// image that is large, or whose cells lie far apart.
#[derive(Debug, Drop)]
pub struct Rim {
    w: u32,
    h: u32,
    // The two rows and the two columns, one behind another.
    values: Vec<u16>,
}

impl Model for Rim {
    ghost use Rattle.std.specs.Prelude.{◌≡◌, ◌+◌, ◌*◌, length};
    ghost use Rattle.tile_generations.specs.Rims.{Rim as Strips, strips_of};

    ghost Value = { Strips };

    ghost view = { λ r. strips_of r.w r.h r.values.items };

    ghost invariant = { λ r. length r.values.items ≡ 2 * (r.w + r.h) };
}

impl Rim {
    /// The rim of an image. It takes memory for its values, and for nothing else.
    ///
    /// Errors: out of memory.
    pub fn of(alloc: Global, image: &Grid) -> Result<Rim, Memory>
        ensures { IfOk result (IsRimOf image.now) }
    {
        let length = 2 * (image.width() as usize + image.height() as usize);
        Rim::filled(Vec::with_capacity(alloc, length)?, image)
    }

    /// The rim of an image, in the memory of a spare one, where there is one. It takes memory only where that does not
    /// last.
    ///
    /// Errors: out of memory.
    pub(crate) fn over(alloc: Global, spare: Option<Rim>, image: &Grid) -> Result<Rim, Memory>
        ensures { IfOk result (IsRimOf image.now) }
    {
        match spare {
            Some(rim) => Rim::filled(rim.values, image),
            None => Rim::of(alloc, image),
        }
    }

    // The rim of an image, in the room of a list.
    //
    // Errors: out of memory.
    fn filled(mut values: Vec<u16>, image: &Grid) -> Result<Rim, Memory>
        ensures { IfOk result (IsRimOf image.now) }
    {
        let w = image.width();
        let h = image.height();
        values.clear();
        values.extend_from_slice(row(image, 0))?;
        values.extend_from_slice(row(image, h - 1))?;
        push_column(&mut values, image, 0)?;
        push_column(&mut values, image, w - 1)?;
        Ok(Rim { w, h, values })
    }

    /// The first row, from the left.
    pub fn top(&self) -> &[u16]
        ensures { result.now ≡ self.now.top }
    {
        &self.values[..self.w as usize]
    }

    /// The last row, from the left.
    pub fn bottom(&self) -> &[u16]
        ensures { result.now ≡ self.now.bottom }
    {
        let width = self.w as usize;
        &self.values[width..2 * width]
    }

    /// The first column, from the top.
    pub fn left(&self) -> &[u16]
        ensures { result.now ≡ self.now.left }
    {
        let start = 2 * self.w as usize;
        &self.values[start..start + self.h as usize]
    }

    /// The last column, from the top.
    pub fn right(&self) -> &[u16]
        ensures { result.now ≡ self.now.right }
    {
        let start = 2 * self.w as usize + self.h as usize;
        &self.values[start..start + self.h as usize]
    }

    /// A copy.
    ///
    /// Errors: out of memory.
    pub(crate) fn copy(&self, alloc: Global) -> Result<Rim, Memory>
        ensures { IfOk result (λ r. r ≡ self.now) }
    {
        let values = Vec::from_slice(alloc, &self.values)?;
        Ok(Rim {
            w: self.w,
            h: self.h,
            values,
        })
    }
}

// The values of row `y` of an image, from the left.
fn row(image: &Grid, y: u32) -> &[u16]
    requires { y < image.now.height }
    ensures { IsRowOf image.now.width (value_at image.now) y result.now }
{
    image.row_in(whole(image), y)
}

// Puts the values of column `x` of an image, from the top, behind those that are there.
//
// Errors: out of memory.
fn push_column(values: &mut Vec<u16>, image: &Grid, x: u32) -> Result<(), Memory>
    requires { x < image.now.width }
    ensures { OnOk result (values.new.items ≡ values.old.items ++ column_of image.now x) }
{
    for y in 0..image.height() {
        values.push(image.get(Pixel { x, y }))?;
    }
    Ok(())
}
