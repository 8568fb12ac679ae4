ghost use Rattle.core_seats.specs.Laws.{StandingViewsAreSound};

/// Each view of a valid machine is sound, where the action is lawful, its start is one that it takes, and the tree
/// has a depth that it may have.
pub fn standing_views_are_sound()
    ensures { StandingViewsAreSound }
{}
