//! Laws of the views. Each is the contract of a function that does nothing.

ghost use Rattle.derived_views.specs.Laws.{AtMostOneFill, AtMostOneRegionalMaxima, NoGreaterBeside};

/// An image has at most one fill.
pub fn at_most_one_fill()
    ensures { AtMostOneFill }
{}

/// An image has its regional maxima in one way at most.
pub fn at_most_one_regional_maxima()
    ensures { AtMostOneRegionalMaxima }
{}

/// A plateau is a regional maximum exactly where no pixel beside it is greater.
pub fn no_greater_beside()
    ensures { NoGreaterBeside }
{}
