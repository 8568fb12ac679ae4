ghost use Rattle.player_move.specs.Laws.{LimitsAreKnown, MoveEndsFree, MoveGoesNoLessFar, MoveReach};
ghost use Rattle.player_move.specs.Laws.{MoveLooksWithin, MoveStaysInside, MoveStaysSlow, StairsAreTaken};
ghost use Rattle.player_move.specs.Laws.{GroundIsTested, OnGroundIsStanding, StairsGoUpAndDown};
ghost use Rattle.player_move.specs.FreeMoves.{FreeMovesGoByTheRules, FreePlayersFall, FreePlayersJump};
ghost use Rattle.player_move.specs.FreeMoves.{FreePlayersSlowDown};

/// The farthest from 0 that a move ends on an axis is 1,074,176, and a stair is 4,608 high, in sub-units.
pub fn limits_are_known()
    ensures { LimitsAreKnown }
{}

/// A body that overlaps no solid at the start overlaps none at the end.
pub fn move_ends_free()
    ensures { MoveEndsFree }
{}

/// A move goes no less far over the ground than its plain slide. It is that slide, or it walks, the slide runs into a
/// solid on x or y, and the move goes strictly farther, ends on the ground and has no velocity on z left.
pub fn move_goes_no_less_far()
    ensures { MoveGoesNoLessFar }
{}

/// Over the ground stairs are the level slide from as far up as the body comes, which is at most the height of a stair.
/// They end no lower than they begin and no higher than that slide, with no solid in between, on the ground or as high as
/// they begin.
pub fn stairs_go_up_and_down()
    ensures { StairsGoUpAndDown }
{}

/// A move takes the stairs exactly where it begins on the ground and doesn't jump, its plain slide runs into a solid on x
/// or y, and the stairs lead strictly farther over the ground, to a place on the ground. Else it is the slide.
pub fn stairs_are_taken()
    ensures { StairsAreTaken }
{}

/// A move says whether the record was on the ground before it.
pub fn ground_is_tested()
    ensures { GroundIsTested }
{}

/// A body that overlaps no solid is on the ground exactly where it stands on one: its bottom is level with the solid's
/// top, and the two overlap on x and y. The body and the solids are longer than 0 on each axis.
pub fn on_ground_is_standing()
    ensures { OnGroundIsStanding }
{}

/// How far a move reaches: on each axis what the greatest speed on it goes in the time, which is the record's own
/// speed on that axis and 81,920 sub-units a second more, but at most 512,000; and on z 4,608 sub-units more.
pub fn move_reach()
    ensures { MoveReach }
{}

/// A move looks no farther than it reaches: solids that don't overlap the body, larger by the reach on each axis and on
/// z by 4,609 sub-units more for the stairs and the ground test, change nothing of it.
pub fn move_looks_within()
    ensures { MoveLooksWithin }
{}

/// A body that starts inside the arena, faces counted, ends inside it, over solids that have the arena's walls.
pub fn move_stays_inside()
    ensures { MoveStaysInside }
{}

/// After a move no part of the velocity is more than 512,000 sub-units a second from 0.
pub fn move_stays_slow()
    ensures { MoveStaysSlow }
{}

/// A move of which the whole way is free goes on each axis by velocity * time / 1000, cut toward 0, at the velocity that
/// the rules of speed give, which it keeps.
pub fn free_moves_go_by_the_rules()
    ensures { FreeMovesGoByTheRules }
{}

/// A player in the air that wishes nothing, and whose way is free, keeps its velocity on x and y, and falls: 204,800 *
/// time / 1000 is taken from z, down to -512,000.
pub fn free_players_fall()
    ensures { FreePlayersFall }
{}

/// A player on the ground that jumps and wishes nothing, and whose way is free, keeps its velocity on x and y, and 69,120
/// is added to z, less that fall, up to 512,000.
pub fn free_players_jump()
    ensures { FreePlayersJump }
{}

/// A player on the ground that neither jumps nor wishes anything, and whose way is free, goes on at what friction leaves
/// of its velocity.
pub fn free_players_slow_down()
    ensures { FreePlayersSlowDown }
{}
