ghost use Rattle.world_physics.specs.Laws.{ValidWorldsStayValid, IdsStay, PlayersKeepRoom, LiftsStayOnTheirWay};
ghost use Rattle.world_physics.specs.Laws.{OnlyOriginsAndStatesChange, ItemsReturnAtTheirFrame};
ghost use Rattle.world_physics.specs.Laws.{LiftsMakeTheirStep, StepsAreWhole, PlayersGoAlong, OnlyPlayersHoldLifts};
ghost use Rattle.world_physics.specs.Laws.{LiftsStepInTurn};
ghost use Rattle.world_physics.specs.Standing.{StandingIsKnown};

/// A valid world of a map that keeps its rules is valid after a tick.
pub fn worlds_stay_valid()
    ensures { ValidWorldsStayValid }
{}

/// A tick puts in no record and takes none out.
pub fn ids_stay()
    ensures { IdsStay }
{}

/// Where the players have room before a tick, they have room after it: no player's body overlaps a wall or a block, and
/// no bodies of two solids overlap.
pub fn players_keep_room()
    ensures { PlayersKeepRoom }
{}

/// A lift stays between its lowest place and its highest.
pub fn lifts_stay_on_their_way()
    ensures { LiftsStayOnTheirWay }
{}

/// A tick changes the z of players and lifts and the state of items and lifts, and nothing else of any record.
pub fn only_origins_and_states_change()
    ensures { OnlyOriginsAndStatesChange }
{}

/// A taken item is there again after the tick of its frame, and not before.
pub fn items_return_at_their_frame()
    ensures { ItemsReturnAtTheirFrame }
{}

/// A lift is as it was or has made its whole step, and where no player is live it has made it.
pub fn lifts_make_their_step()
    ensures { LiftsMakeTheirStep }
{}

/// In its step a lift moves by its speed, or to the end of its way, and turns there.
pub fn steps_are_whole()
    ensures { StepsAreWhole }
{}

/// On a map with one lift, a player goes as far up or down in a tick as the lift does where it stands on the lift or the
/// lift's box after its step overlaps it, and else it stays.
pub fn players_go_along()
    ensures { PlayersGoAlong }
{}

/// The one lift of a map makes its step, unless a player that goes with it would have no room.
pub fn only_players_hold_lifts()
    ensures { OnlyPlayersHoldLifts }
{}

/// The lifts of a map have their turns one after another, in rising id. In its turn a lift makes its step, and players go
/// along, unless a player that goes with it would have no room: then nothing changes.
pub fn lifts_step_in_turn()
    ensures { LiftsStepInTurn }
{}

/// A player that doesn't overlap a lift stands on it exactly where its origin is 6,144 sub-units above the lift's top and
/// less than 4,096 from the lift's inside on x and y. Any player does exactly where it is there, or as far across but
/// lower, with more than 1 of its body above the lift's bottom.
pub fn standing_is_known()
    ensures { StandingIsKnown }
{}
