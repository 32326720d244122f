//! What is answered where a swept tile is given back, and where a hint is handed over.

/// What became of a swept tile that was given back.
#[derive(Clone, Copy, Debug, PartialEq, Eq)]
pub enum Back {
    /// It was joined into the image.
    Joined,
    /// It was joined into the image, and the tile is to be swept again.
    Again,
    /// Its job is not out: nothing happened.
    Stale,
    /// It is of no job of this core: nothing happened.
    Stranger,
}

/// What became of a hint.
#[derive(Clone, Copy, Debug, PartialEq, Eq)]
pub enum Handed {
    /// It raised its pixel.
    Raised,
    /// Its pixel has that value already.
    Same,
    /// The tile that told it was reset since then.
    Stale,
    /// There is no such hint.
    Nothing,
}
