ghost use Rattle.speed_rules.specs.Laws.{AreQuakesNumbers, FrictionShortens, FrictionKeepsZeros, FrictionSlows};
ghost use Rattle.speed_rules.specs.Laws.{FrictionStops, AccelerationIsBounded, AccelerationStopsAtTheCap};
ghost use Rattle.speed_rules.specs.Laws.{AccelerationReachesTheCap, AccelerationActsBelowTheCap};
ghost use Rattle.speed_rules.specs.Laws.{AccelerationActsAlongTheWish};
ghost use Rattle.speed_rules.specs.Laws.{GravityPullsDown, JumpsPushUp};
ghost use Rattle.speed_rules.specs.Laws.{ClampKeepsWhatIsInRange, ClampIsIdempotent, WhatEntersTheClampIsNear};
ghost use Rattle.speed_rules.specs.Together.{HeightsAreKnown, FliersKeepTheirCourse, WalkersAreSlowed};
ghost use Rattle.speed_rules.specs.Together.{WishesAreFollowed};

/// The rules' numbers are Quake's, in sub-units, and they take velocities within 600,000.
pub fn numbers_are_quakes()
    ensures { AreQuakesNumbers }
{}

/// Friction never turns a component's sign nor lengthens it.
pub fn friction_shortens()
    ensures { FrictionShortens }
{}

/// Friction keeps what is 0: a part on x or y, and all of a velocity without speed over the ground.
pub fn friction_keeps_zeros()
    ensures { FrictionKeepsZeros }
{}

/// Friction leaves the slowed speed over the ground, of which the cuts lose at most 2 more. The slowed speed is less
/// than the speed while there is one.
pub fn friction_slows()
    ensures { FrictionSlows }
{}

/// Friction stops a player over the ground: it takes at least 102 sub-units a second of its speed each time, so 251
/// times stop one that isn't faster than 25,600.
pub fn friction_stops()
    ensures { FrictionStops }
{}

/// Acceleration adds at most what the time allows at the greatest wish, and nothing on z.
pub fn acceleration_is_bounded()
    ensures { AccelerationIsBounded }
{}

/// Acceleration pushes the velocity's part along the wish no farther than the cap and than the time allows, but for 1
/// that the cuts may add.
pub fn acceleration_stops_at_the_cap()
    ensures { AccelerationStopsAtTheCap }
{}

/// Acceleration brings the velocity's part along the wish to the cap, or as near to it as the time allows, but for at
/// most 3 that the cuts lose.
pub fn acceleration_reaches_the_cap()
    ensures { AccelerationReachesTheCap }
{}

/// Acceleration keeps a velocity whose part along the wish is at the cap, and gains along the wish where 2 or more are
/// missing.
pub fn acceleration_acts_below_the_cap()
    ensures { AccelerationActsBelowTheCap }
{}

/// Acceleration acts along the wish: a velocity never loses of its product with the wish, and changes by less than 1 at
/// a right angle to it.
pub fn acceleration_acts_along_the_wish()
    ensures { AccelerationActsAlongTheWish }
{}

/// Gravity takes 204,800 * time / 1000, cut toward 0, from z, and keeps x and y.
pub fn gravity_pulls_down()
    ensures { GravityPullsDown }
{}

/// A jump adds 69,120 to z, and keeps x and y.
pub fn jumps_push_up()
    ensures { JumpsPushUp }
{}

/// The clamp keeps each part that is in range, and takes each other part to the end of the range that it is beyond.
pub fn clamp_keeps_what_is_in_range()
    ensures { ClampKeepsWhatIsInRange }
{}

/// To clamp a velocity again changes nothing.
pub fn clamp_is_idempotent()
    ensures { ClampIsIdempotent }
{}

/// What enters the clamp is within 600,000 where the move began with a record's velocity, which is within 512,000.
pub fn what_enters_the_clamp_is_near()
    ensures { WhatEntersTheClampIsNear }
{}

/// Whatever a player wishes, its z falls in the air by 204,800 * time / 1000, down to -512,000. A jump adds 69,120 to it,
/// less that fall, up to 512,000. Where the player walks, z stays.
pub fn heights_are_known()
    ensures { HeightsAreKnown }
{}

/// A player that is in the air or jumps, and wishes nothing, keeps x and y: no friction acts on it.
pub fn fliers_keep_their_course()
    ensures { FliersKeepTheirCourse }
{}

/// A player that walks and wishes nothing is slowed by friction alone: x and y keep their share of the speed less
/// time * 4 / 1000 of itself, or of 25,600 where that is more.
pub fn walkers_are_slowed()
    ensures { WalkersAreSlowed }
{}

/// A wish leads a player along it to the wish's length, at most 81,920 where the player walks and 7,680 where it jumps or
/// is in the air, or as near to that as the time allows. The part along the wish comes at most 1 past it, and at most 3
/// short of it, and the velocity at a right angle to it changes by less than 1. So where the velocity is at most 471,040 on x
/// and on y: faster ones may be cut at 512,000.
pub fn wishes_are_followed()
    ensures { WishesAreFollowed }
{}
