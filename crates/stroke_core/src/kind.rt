/// Of which kind a stroke is, and of a disc where it lies. Of runs, [`Stroke::runs`](crate::Stroke::runs)
/// tells the rest.
#[derive(Clone, Copy, Debug, PartialEq, Eq)]
pub enum Kind {
    /// Runs of pixels.
    Runs,
    /// The disc round the pixel in column `x` from the left and row `y` from the top, both counted from 0, with
    /// the radius `r` in pixels.
    Disc { x: u16, y: u16, r: u8 },
}
