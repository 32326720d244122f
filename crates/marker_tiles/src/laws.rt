//! Laws of markers. Each is the contract of a function that does nothing.

ghost use Rattle.marker_tiles.specs.Laws.{AtMostOneMarker, EveryStateHasAMarker, MarkerIsWithinMask};

/// A mask and a state have at most one marker.
pub fn at_most_one_marker()
    ensures { AtMostOneMarker }
{}

/// A mask and a state have a marker.
pub fn every_state_has_a_marker()
    ensures { EveryStateHasAMarker }
{}

/// A marker is at most its mask.
pub fn marker_is_within_mask()
    ensures { MarkerIsWithinMask }
{}
