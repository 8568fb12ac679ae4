ghost use Rattle.box_trace.specs.Laws.{LimitsAreKnown, TraceIsUnique, StepsStayInRange, StepsAreFree, FreeWayIsGone};
ghost use Rattle.box_trace.specs.Laws.{NamedSolidStops, AxisIsMovedAlong, FirstAxisIsNamed, WallsLeaveInsideFree};
ghost use Rattle.box_trace.specs.Laws.{WaysAreStraight, TraceStaysInside};

/// A displacement has no part that is more than 65,536 from 0, and there are at most 65,535 solids.
pub fn limits_are_known()
    ensures { LimitsAreKnown }
{}

/// Each body, displacement and list of solids has one trace.
pub fn trace_is_unique()
    ensures { TraceIsUnique }
{}

/// A body goes straight along its displacement, in as many steps as the greatest part of it has sub-units, signs left
/// out: at each step each axis has come by its share of the steps, cut toward 0.
pub fn ways_are_straight()
    ensures { WaysAreStraight }
{}

/// A body in range stays in range at every step exactly where it is in range at the end of its way.
pub fn steps_stay_in_range()
    ensures { StepsStayInRange }
{}

/// No solid overlaps the body at a step that its trace goes.
pub fn steps_are_free()
    ensures { StepsAreFree }
{}

/// A trace of which the whole way is free goes all of it.
pub fn free_way_is_gone()
    ensures { FreeWayIsGone }
{}

/// A trace that isn't whole is stopped by the solid that it names: the first in the list that overlaps the body at the
/// next step.
pub fn named_solid_stops()
    ensures { NamedSolidStops }
{}

/// A body is stopped on an axis along which it moves.
pub fn axis_is_moved_along()
    ensures { AxisIsMovedAlong }
{}

/// The axis that a trace names is the first of x, y and z on which the body and the solid that stops it don't overlap at
/// the last step gone, and it names none where the two overlap on all three.
pub fn first_axis_is_named()
    ensures { FirstAxisIsNamed }
{}

/// The walls of an arena block no body that lies inside it, the faces counted.
pub fn walls_leave_inside_free()
    ensures { WallsLeaveInsideFree }
{}

/// A body that lies inside the arena, the faces counted, lies inside at each step of its trace, where the solids block
/// what the walls of the arena block.
pub fn trace_stays_inside()
    ensures { TraceStaysInside }
{}
