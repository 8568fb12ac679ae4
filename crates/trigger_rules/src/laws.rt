ghost use Rattle.trigger_rules.specs.Laws.{
  TouchedAreInReach,
  ThingsStayFew,
  ItemsWereThere,
  GotIdsRise,
  ScoresNeverFall,
  LeapsAreFree,
  OnlyLeapsMove,
  PlayersStayThemselves,
  OnlyTouchedMatters,
  PlayersStayOn,
  StatesAreApart,
  TouchedItemsAreTaken,
  PassedTeleportersAreBlocked,
  LeapsAreFromTeleporters,
  AmmunitionIsCounted,
  NoGemIsLost,
  ScoresAreCounted,
  GoalsTakeWhatIsCarried,
  ItemsAreLeftWithoutRoom,
};

/// A player within its bounds touches (`touched_by`) those of the records that are in its reach, each and no others:
/// ammunition and gems with a body that comes as near to its origin as 8,192 on x and y, 6,400 below and 8,448 above; and
/// teleporters and goals with one that comes as near as 4,608 on x and y, 6,656 below and 8,704 above. Their ids rise,
/// where those of the records do.
pub fn touched_are_in_reach()
    ensures { TouchedAreInReach }
{}

/// Nobody's ammunition passes 100, and nobody carries more than 8 gems.
pub fn things_stay_few()
    ensures { ThingsStayFew }
{}

/// What a player got was there in state 0 and is touched, and its new state is the frame plus its delay. Nothing else
/// changes state, and a player gets at most 8 items in a move.
pub fn items_were_there()
    ensures { ItemsWereThere }
{}

/// Each item of the map that a player touches it gets, unless the item is away, 8 were got, or the player has no room
/// for it: it has 100 of ammunition, or had 8 gems, which it carries still or has brought to a goal. This holds where no
/// teleporter moves the player and its score isn't at its end.
pub fn touched_items_are_taken()
    ensures { TouchedItemsAreTaken }
{}

/// The ids of what a player got rise, where those of the records do.
pub fn got_ids_rise()
    ensures { GotIdsRise }
{}

/// Where the ids of the records rise, a player has the ammunition that it had and 20 for each item of it that it got, up to
/// 100, if it had at most that, and carried 8 gems at most.
pub fn ammunition_is_counted()
    ensures { AmmunitionIsCounted }
{}

/// The gems that a player carries and has brought in are those of before and those that it got, where its score is below
/// its end.
pub fn no_gem_is_lost()
    ensures { NoGemIsLost }
{}

/// A player's score is its score of before with the gems that it carried and those that it got, without those that it
/// carries, up to 4,294,967,295.
pub fn scores_are_counted()
    ensures { ScoresAreCounted }
{}

/// A player that touches a goal carries the gems that it got after it, and one that touches none also those that it
/// carried before. This holds where no teleporter moves the player.
pub fn goals_take_what_is_carried()
    ensures { GoalsTakeWhatIsCarried }
{}

/// A player leaves an item of the map that is there only where it has no room for it when it touches it: it has got 8 in
/// this move, or has 100 of ammunition, or carries 8 gems. This holds where no teleporter moves the player.
pub fn items_are_left_without_room()
    ensures { ItemsAreLeftWithoutRoom }
{}

/// No score falls.
pub fn scores_never_fall()
    ensures { ScoresNeverFall }
{}

/// A player that a teleporter has moved is at rest, and its body overlaps no wall, no block and no body of another
/// solid.
pub fn leaps_are_free()
    ensures { LeapsAreFree }
{}

/// Where no teleporter has moved a player, a solid is in the way at the destination of each that it touches.
pub fn passed_teleporters_are_blocked()
    ensures { PassedTeleportersAreBlocked }
{}

/// A player that a teleporter has moved is at the destination of one that it touches, with bit 1 of its flags set. Each
/// that it touches before that one is blocked. It got the items before it, or left them for a reason, and none after it.
pub fn leaps_are_from_teleporters()
    ensures { LeapsAreFromTeleporters }
{}

/// A player that no teleporter has moved is where it was, as fast as it was.
pub fn only_leaps_move()
    ensures { OnlyLeapsMove }
{}

/// A player keeps its id, its kind, its shape, the number of its last command, and its state.
pub fn players_stay_themselves()
    ensures { PlayersStayThemselves }
{}

/// Records that the player doesn't touch change nothing, unless they are in the way at the destination of a teleporter
/// that it touches.
pub fn only_touched_matters()
    ensures { OnlyTouchedMatters }
{}

/// A player's record stays within its bounds, and its body inside the arena.
pub fn players_stay_on()
    ensures { PlayersStayOn }
{}

/// No record gets two new states, where the ids of the records rise.
pub fn states_are_apart()
    ensures { StatesAreApart }
{}
