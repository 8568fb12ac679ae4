ghost use Rattle.arena_outcomes.specs.Worlds.{ValidRecordsAreTaken, TakenRecordsAreValid};
ghost use Rattle.arena_outcomes.specs.Laws.{PlayersStayOnMaps, MovesKeepWhoMoves, PlayersStayFree};
ghost use Rattle.arena_outcomes.specs.Laws.{MovesTakeWhatIsThere, NewStatesAreApart, RepliedIdsRise};
ghost use Rattle.arena_outcomes.specs.Laws.{RepliesHaveTheOrigin, MovesAreMade, PlayersAreWhereTheyMoved};
ghost use Rattle.arena_outcomes.specs.Laws.{TouchingFollowsMoves, RegionsAreNear};
ghost use Rattle.arena_outcomes.specs.Flags.{FlagsAreKnown};
ghost use Rattle.arena_outcomes.specs.ShotLaws.{RoomsAreKnown, DownPlayersLie, DownPlayersRise, ShotsFollowMoves};
ghost use Rattle.arena_outcomes.specs.ShotLaws.{MapsDecide, MoversStayThemselves, MoversStayOnMaps, MoversStayFree};
ghost use Rattle.arena_outcomes.specs.ShotLaws.{RepliesAreShort};

/// A player's record stays within its bounds, and its body inside the arena.
pub fn players_stay_on_maps()
    ensures { PlayersStayOnMaps }
{}

/// A player keeps its id, its kind, its shape and its state, and has the number of the command.
pub fn moves_keep_who_moves()
    ensures { MovesKeepWhoMoves }
{}

/// Where a player touches nothing after its move, the outcome is its whole move among the walls, the blocks and the
/// bodies of the other solids, and nothing else.
pub fn moves_are_made()
    ensures { MovesAreMade }
{}

/// A player that touches no teleporter after its move is where it moved, as fast as the move left it.
pub fn players_are_where_they_moved()
    ensures { PlayersAreWhereTheyMoved }
{}

/// After its move a player touches what it touches where it moved to, and the reply has its origin then and the ids of
/// what it got.
pub fn touching_follows_moves()
    ensures { TouchingFollowsMoves }
{}

/// Bit 0 of a player's flags after its move says that a wall, a block or another solid was under it before the move, bit 1
/// that it touched a teleporter with a free destination where it moved to; no other bit is set, whatever was set before.
pub fn flags_are_known()
    ensures { FlagsAreKnown }
{}

/// A player whose body overlaps no wall, no block and no body of another solid overlaps none after its move.
pub fn players_stay_free()
    ensures { PlayersStayFree }
{}

/// What a player got was there in state 0 and is touched where it moved to, and its new state is the frame plus its
/// delay. Nothing else changes state. The reply has the ids of what it got, at most 8.
pub fn moves_take_what_is_there()
    ensures { MovesTakeWhatIsThere }
{}

/// No record gets two new states, where the ids of the records rise.
pub fn new_states_are_apart()
    ensures { NewStatesAreApart }
{}

/// The ids in a reply rise, where those of the records do.
pub fn replied_ids_rise()
    ensures { RepliedIdsRise }
{}

/// The reply has the player's origin after the move.
pub fn replies_have_the_origin()
    ensures { RepliesHaveTheOrigin }
{}

/// Each record of a world that is valid for a map is one that the map's action takes.
pub fn valid_records_are_taken()
    ensures { ValidRecordsAreTaken }
{}

/// Each record that the action of a map takes, in a state of its kind, is valid for the map, and as the line of its
/// thing says.
pub fn taken_records_are_valid()
    ensures { TakenRecordsAreValid }
{}

/// Each box of the region of a move is near its player: it lies around it, as far as the player may go in the time and
/// the room more that there is, or around the place where a teleporter as near puts it.
pub fn regions_are_near()
    ensures { RegionsAreNear }
{}

/// The room around where a player may be is 16,384, and where players shoot 65,536 more.
pub fn rooms_are_known()
    ensures { RoomsAreKnown }
{}

/// Where players shoot, one that is down neither moves nor takes nor shoots until its frame comes: it stays where it is, at
/// rest, drops what it carries, and keeps all else.
pub fn down_players_lie()
    ensures { DownPlayersLie }
{}

/// From its frame on a player that was down moves as one without damage.
pub fn down_players_rise()
    ensures { DownPlayersRise }
{}

/// Where players shoot, one that isn't down moves and touches things as in each arena, and then its shot follows, if it
/// fires one. It keeps its damage.
pub fn shots_follow_moves()
    ensures { ShotsFollowMoves }
{}

/// The map says which moves and regions it has: those with shots or those without.
pub fn maps_decide()
    ensures { MapsDecide }
{}

/// On each map a player keeps its id, its kind and its shape, and has the number of the command; the reply has its origin.
pub fn movers_stay_themselves()
    ensures { MoversStayThemselves }
{}

/// On each map a player's record stays within its bounds, and its body inside the arena.
pub fn movers_stay_on_maps()
    ensures { MoversStayOnMaps }
{}

/// On each map a player whose body overlaps no wall, no block and no body of another solid overlaps none after its move.
pub fn movers_stay_free()
    ensures { MoversStayFree }
{}

/// On each map the ids in a reply rise and are at most 8, and no record gets two new states, where the records are within
/// their bounds and their ids rise.
pub fn replies_are_short()
    ensures { RepliesAreShort }
{}
