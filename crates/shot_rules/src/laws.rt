ghost use Rattle.shot_rules.specs.Laws.{NumbersAreKnown, ShotsTakeAmmunition, HitsAreInTheWay, AtMostOneIsHit};
ghost use Rattle.shot_rules.specs.Laws.{WhoIsFirstIsMet, DamageGrows, OnlyTheWayMatters, FiringIsKnown};
ghost use Rattle.shot_rules.specs.Laws.{ShootersStayThemselves, ShotsStayNear, ShotsStayInRange};
ghost use Rattle.shot_rules.specs.Laws.{ShotsFollowTheWish, WhoStandsFirstIsHit};

/// The numbers of shots: bit 1 of the buttons fires, and no shot is fired where bit 1 of the flags is set; a shot's box
/// reaches 256 to each side and goes 65,536; a hit does 25 of damage, with 100 a player falls, and it is down for 40
/// frames.
pub fn numbers_are_known()
    ensures { NumbersAreKnown }
{}

/// A shot is fired exactly where bit 1 of the buttons is set and bit 1 of the flags isn't, the player has ammunition, its
/// wish isn't (0, 0), and it took fewer than 8 items in this move.
pub fn firing_is_known()
    ensures { FiringIsKnown }
{}

/// A shot needs ammunition and takes one, whatever it meets. Where none is fired nothing changes.
pub fn shots_take_ammunition()
    ensures { ShotsTakeAmmunition }
{}

/// A shot changes nothing of who fires but its ammunition and its score, which grows by 1 at most and ends at
/// 4,294,967,295.
pub fn shooters_stay_themselves()
    ensures { ShootersStayThemselves }
{}

/// A shot goes where the wish points, as the box of 256 sub-units around the player's origin: exactly 65,536 along an axis;
/// else straight along the wish and as far, but for less than a sub-unit on each axis and for the length of the wish, which
/// is rounded down.
pub fn shots_follow_the_wish()
    ensures { ShotsFollowTheWish }
{}

/// A shot stays within 65,792 sub-units of the shooter's origin on x and y, its box counted, and within 256 on z.
pub fn shots_stay_near()
    ensures { ShotsStayNear }
{}

/// At each step of its way the box of a shot is in its range.
pub fn shots_stay_in_range()
    ensures { ShotsStayInRange }
{}

/// A shot hits nobody, or one player that isn't down: its body is the first that the box of the shot overlaps on its
/// way, and no wall, no block and no other solid is in the way before.
pub fn hits_are_in_the_way()
    ensures { HitsAreInTheWay }
{}

/// A shot hits at most one: no other record gets a new state, and no other id is put first.
pub fn at_most_one_is_hit()
    ensures { AtMostOneIsHit }
{}

/// A shot meets who is first in its way.
pub fn who_is_first_is_met()
    ensures { WhoIsFirstIsMet }
{}

/// A player with a state below 100 that is first in the way of a shot is hit: its damage grows by 25, or it is down
/// until 40 frames after this one and who fired gets a point.
pub fn who_stands_first_is_hit()
    ensures { WhoStandsFirstIsHit }
{}

/// Damage only grows: by 25 as long as it stays below 100; else the player falls, and is down in this frame and the 39
/// after it.
pub fn damage_grows()
    ensures { DamageGrows }
{}

/// What a shot meets depends on what is in its way alone.
pub fn only_the_way_matters()
    ensures { OnlyTheWayMatters }
{}
