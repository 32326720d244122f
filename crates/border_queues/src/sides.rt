//! Values along the sides of a tile, and beyond.

ghost use Rattle.std.specs.Prelude.{◌≡◌, ◌↔◌, false};
ghost use Rattle.border_queues.specs.Sides.{HasLength, NoneCanRise};

/// Values along one side of a tile, one for each of its pixels there: from the left, or from the top.
#[derive(Clone, Copy)]
pub struct Side<'a> {
    /// Of an image on the tile.
    pub own: &'a [u16],
    /// What the image rose to there meanwhile: its value is the greater of both.
    pub risen: &'a [u16],
    /// Of the image, beyond the tile.
    pub beyond: &'a [u16],
    /// Of the mask, beyond the tile.
    pub limits: &'a [u16],
}

impl Side<'_> {
    /// Whether any of the first `count` pixels beyond the side can rise.
    pub fn is_open(&self, count: usize) -> bool
        requires { HasLength count self.now }
        ensures { (result ≡ false) ↔ NoneCanRise self.now count }
    {
        let own = &self.own[..count];
        let risen = &self.risen[..count];
        let beyond = &self.beyond[..count];
        let limits = &self.limits[..count];
        let mut any = false;
        for i in 0..count {
            any |= beyond[i] < own[i].max(risen[i]).min(limits[i]);
        }
        any
    }
}

/// The values along the sides of a tile. Those of a side where the image ends do not matter.
#[derive(Clone, Copy)]
pub struct Sides<'a> {
    /// Of its first row, and of the row above it.
    pub above: Side<'a>,
    /// Of its last row, and of the row below it.
    pub below: Side<'a>,
    /// Of its first column, and of the column left of it.
    pub left: Side<'a>,
    /// Of its last column, and of the column right of it.
    pub right: Side<'a>,
}
