//! The kinds of parts that a PGM file has.

/// How the samples are written.
#[derive(Clone, Copy, PartialEq, Eq, Debug)]
pub(crate) enum Encoding {
    /// In decimal numbers: magic `P2`.
    Plain,
    /// In one or two bytes: magic `P5`.
    Raw,
}

/// Where a number stands.
#[derive(Clone, Copy, PartialEq, Eq, Debug)]
pub(crate) enum Section {
    /// In the header, with comments before it.
    Header,
    /// In a plain raster.
    Raster,
}
