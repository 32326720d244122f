//! Laws of images and of their reconstruction. Each is the contract of a function that does nothing.

ghost use Rattle.grid_core.specs.Laws.{AtMostOneReconstruction, ReachRisesWithMarker, ReachBeside};
ghost use Rattle.grid_core.specs.Laws.{LevelLaws, LawfulLaws, OwedLaws};
ghost use Rattle.grid_core.specs.Lending.{CellsGivenBack};
ghost use Rattle.grid_core.specs.TileLaws.{EachPixelInOneTile, TilesLieInside, NeighboursLieInTouchingTiles};
ghost use Rattle.grid_core.specs.TileLaws.{RectPixelsLieInRect, RectLaws};
ghost use Rattle.grid_core.specs.RasterLaws.{PixelLaws, EqualPixelsEqualImages, NeighboursByRows};

/// An image is known by its values at pixels: a new value is read back there, every other pixel stays, and of images of
/// one size one is below the other just where its values are.
pub fn pixel_laws()
    ensures { PixelLaws }
{}

/// A pixel reaches level 0, each level below one that it reaches, and none above its mask.
pub fn level_laws()
    ensures { LevelLaws }
{}

/// A raise keeps an image lawful, a lawful image lies between the marker and the reconstruction, and one that no raise
/// can change is the reconstruction.
pub fn lawful_laws()
    ensures { LawfulLaws }
{}

/// To each lawful image one number is owed, which is 0 just where the image is the reconstruction.
pub fn owed_laws()
    ensures { OwedLaws }
{}

/// The pixels of a rectangle lie in the image that it fits, those of a tile's are the tile's, and pixels are neighbours
/// in a rectangle where they are in the image.
pub fn rect_laws()
    ensures { RectLaws }
{}

/// An image whose cells were lent to be changed has afterwards just the values that are then in them.
pub fn cells_given_back()
    ensures { CellsGivenBack }
{}

/// Images of one size with equal values at each pixel are equal.
pub fn equal_pixels_equal_images()
    ensures { EqualPixelsEqualImages }
{}

/// A mask and a marker have at most one reconstruction.
pub fn at_most_one_reconstruction()
    ensures { AtMostOneReconstruction }
{}

/// A pixel reaches under a greater marker what it reaches under a lesser.
pub fn reach_rises_with_marker()
    ensures { ReachRisesWithMarker }
{}

/// A pixel beside one that reaches a level reaches it too, where its mask is no less than the level.
pub fn reach_beside()
    ensures { ReachBeside }
{}

/// Each pixel of the image lies in the rectangle of its tile and of no other.
pub fn each_pixel_in_one_tile()
    ensures { EachPixelInOneTile }
{}

/// Each tile has a pixel, and lies in the image.
pub fn tiles_lie_inside()
    ensures { TilesLieInside }
{}

/// Two neighbouring pixels lie in one tile or in tiles that touch.
pub fn neighbours_lie_in_touching_tiles()
    ensures { NeighboursLieInTouchingTiles }
{}

/// The pixels of a rectangle are those of the image that lie in it.
pub fn rect_pixels_lie_in_rect()
    ensures { RectPixelsLieInRect }
{}

/// The neighbours of a pixel row by row: just these, in raster order.
pub fn neighbours_by_rows()
    ensures { NeighboursByRows }
{}
