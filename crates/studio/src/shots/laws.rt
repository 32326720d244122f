//! What follows of chains.

ghost use Rattle.studio.specs.Laws.{BeginningsLeadToLast, LastIsSound, LaterLeadsOn};

/// The last shot of a chain is sound: its image is lawful for its own strokes, and where it is marked as quiet the
/// reconstruction.
pub fn the_last_of_a_chain_is_sound()
    ensures { LastIsSound }
{}

/// Each shot that a chain begins with leads to its last one: so what an eye saw or learnt leads to what it glimpses.
pub fn what_a_chain_begins_with_leads_to_its_last()
    ensures { BeginningsLeadToLast }
{}

/// Where a chain begins with another, the last shot of that one leads to its last: so no glimpse goes back behind an
/// earlier one.
pub fn the_last_of_a_longer_chain_is_later()
    ensures { LaterLeadsOn }
{}
