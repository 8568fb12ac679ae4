ghost use Rattle.slide_move.specs.Laws.{LimitIsKnown, FreeSlideGoesAll, SideIsSidewaysHit, GoesOnWhereNotStopped};
ghost use Rattle.slide_move.specs.Laws.{EndsStillWhereStopped, AtMostThreeTraces, ShiftIsPart, VelocityIsKeptOrStopped};
ghost use Rattle.slide_move.specs.Laws.{BodiesAreFree, EndsAtLastBody, BodiesAreInRange, ReachSuffices};
ghost use Rattle.slide_move.specs.Laws.{SlideStaysInside};
ghost use Rattle.slide_move.specs.FreeWays.{FreeSlidesGoByTheirVelocity};

/// No part of a slide's velocity is more than 600,000 from 0.
pub fn limit_is_known()
    ensures { LimitIsKnown }
{}

/// A slide of which the whole way is free goes all of it, keeps its velocity, and runs into nothing on x or y.
pub fn free_slide_goes_all()
    ensures { FreeSlideGoesAll }
{}

/// `side` comes exactly where some trace of the slide runs into a solid on x or y.
pub fn side_is_sideways_hit()
    ensures { SideIsSidewaysHit }
{}

/// On an axis on which no trace stops it, a slide goes the whole way and keeps its velocity.
pub fn goes_on_where_not_stopped()
    ensures { GoesOnWhereNotStopped }
{}

/// On an axis on which a trace stops it, a slide ends without velocity.
pub fn ends_still_where_stopped()
    ensures { EndsStillWhereStopped }
{}

/// A slide makes at most three traces, since it runs into at most one solid on each axis.
pub fn at_most_three_traces()
    ensures { AtMostThreeTraces }
{}

/// On no axis does a slide go farther than the velocity does in the open, or the other way.
pub fn shift_is_part()
    ensures { ShiftIsPart }
{}

/// A slide leaves each part of the velocity as it was or 0.
pub fn velocity_is_kept_or_stopped()
    ensures { VelocityIsKeptOrStopped }
{}

/// No solid overlaps the body anywhere on its slide but perhaps at the start.
pub fn bodies_are_free()
    ensures { BodiesAreFree }
{}

/// The last of the places on a slide is where it ends.
pub fn ends_at_last_body()
    ensures { EndsAtLastBody }
{}

/// A body that is in range at the start, and would be at the end in the open, is in range everywhere on its slide.
pub fn bodies_are_in_range()
    ensures { BodiesAreInRange }
{}

/// A box that stays in range when it grows by 30,000 sub-units on both sides of each axis is in range wherever a
/// velocity of a slide would take it.
pub fn reach_suffices()
    ensures { ReachSuffices }
{}

/// A body that lies inside the arena, the faces counted, lies inside everywhere on its slide and at its end, where the
/// solids block what the walls of the arena block.
pub fn slide_stays_inside()
    ensures { SlideStaysInside }
{}

/// A slide of which the whole way is free goes on each axis by its velocity times the time by 1,000, cut toward 0.
pub fn free_slides_go_by_their_velocity()
    ensures { FreeSlidesGoByTheirVelocity }
{}
