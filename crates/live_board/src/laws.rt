//! What the rule of a board says, as contracts of functions that do nothing.

ghost use Rattle.live_board.specs.{Floods.FloodedIsGrown, Floods.SpreadIsGrown, Floods.SpreadLasts, Laws.BoardLaws};

/// While a board keeps its rule: the word of a pixel is no less than what a seat knows of it or found there. What a
/// seat knows of the keeper's generation, the pixel reaches from the keeper's marker. So does a live value that a peek
/// finds, at the peek's last step. A round reads each pixel, raises each neighbour of one with a value, and counts the
/// pixels that rose, each as often as it did: what a hand knows before it and after it leaves no other count.
pub fn board_laws()
    ensures { BoardLaws }
{}

/// An image of a board whose keeper has planted each pixel, where hands have flooded each pixel's row, and nobody has
/// raised it since, is the reconstruction of the mask from the keeper's marker.
pub fn flooded_is_grown()
    ensures { FloodedIsGrown }
{}

/// An image of a board whose keeper has planted each pixel, where of each a hand knows a fact that has spread, and
/// nobody has raised it above that, is the reconstruction of the mask from the keeper's marker. What has spread has
/// spread as long as the hand stays in its generation: so it may have flooded other rows since.
pub fn spread_is_grown()
    ensures grown { SpreadIsGrown }
    ensures lasts { SpreadLasts }
{}
