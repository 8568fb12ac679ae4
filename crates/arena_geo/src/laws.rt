ghost use Rattle.arena_geo.specs.Laws.{HullIsLeast, TouchIsCommonPoint, ContainmentIsAllPoints, OverlapIsCommonCube};
ghost use Rattle.arena_geo.specs.Laws.{OverlapIsTouch, ContainedIsTouched, RootIsGreatest};

/// The hull of two boxes contains both, and lies in each box that contains both.
pub fn hull_is_least()
    ensures { HullIsLeast }
{}

/// Boxes touch exactly where they have a common point, the faces counted.
pub fn touch_is_common_point()
    ensures { TouchIsCommonPoint }
{}

/// A box contains another exactly where each point of the other lies in it.
pub fn containment_is_all_points()
    ensures { ContainmentIsAllPoints }
{}

/// Boxes that are flat on no axis overlap exactly where some cube of side 1 lies in both.
pub fn overlap_is_common_cube()
    ensures { OverlapIsCommonCube }
{}

/// Boxes that overlap touch.
pub fn overlap_is_touch()
    ensures { OverlapIsTouch }
{}

/// A box touches each box that contains it.
pub fn contained_is_touched()
    ensures { ContainedIsTouched }
{}

/// The root of a number is the greatest number whose square is at most that number.
pub fn root_is_greatest()
    ensures { RootIsGreatest }
{}
