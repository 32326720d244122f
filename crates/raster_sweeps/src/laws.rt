//! Laws of rectangles whose open pairs begin within bounds. Each is the contract of a function that does nothing.

ghost use Rattle.raster_sweeps.specs.Laws.{ReconstructionBeginsNowhere, SamePartKeepsBounds};

/// Where an image is in a rectangle the reconstruction of the mask there, its open pairs begin within whatever bounds:
/// it has none.
pub fn reconstruction_begins_nowhere()
    ensures { ReconstructionBeginsNowhere }
{}

/// Whether open pairs begin within bounds is a matter of the values inside the rectangle alone.
pub fn same_part_keeps_bounds()
    ensures { SamePartKeepsBounds }
{}
