//! Laws of images that are grown in two halves. Each is the contract of a function that does nothing.

ghost use Rattle.band_growth.specs.Laws.{HalvesHaveTheReconstruction, OpenPairsLieAcross};

/// Where the rows above a cut and those below it are lawful images, each by itself, the reconstruction of all rows from
/// what they are together is the one from what they were (Vincent 1993 for what a reconstruction is).
pub fn halves_have_the_reconstruction()
    ensures { HalvesHaveTheReconstruction }
{}

/// Where no pixel above the cut can raise a neighbour there, and none below it one there, each pair of neighbours that
/// is still open lies across the cut. So the queue of Vincent 1993 has to begin at the cut alone.
pub fn open_pairs_lie_across()
    ensures { OpenPairsLieAcross }
{}
