ghost use Rattle.plain_server.specs.Laws.{OpeningIsAsTheMapSays};
ghost use Rattle.plain_server.specs.Laws.{MovesKeepWorldsValid, WorldsStayValid, PortsStayApart, PlayersKeepRoom};
ghost use Rattle.plain_server.specs.Laws.{FramesAreInTurn, JournalsAreRightInOrder, OrderLeavesOneJournalEach};
ghost use Rattle.plain_server.specs.Laws.{RightJournalsAreInRange, FramesBeginWithTheirTick, FramesEndWithTheirMoves};
ghost use Rattle.plain_server.specs.Laws.{FramesHaveOneTaker, OnlyItemsAndPlayersAreGot, ItemsHaveOneTaker, TakenItemsStayAway};
ghost use Rattle.plain_server.specs.Kept.{MovesLeaveWhatTheyMade};
ghost use Rattle.plain_server.specs.Numbers.{NumbersRiseAcrossFrames};
ghost use Rattle.plain_server.specs.Hits.{NobodyIsDownForLong, OnlyHitsHurt, EntriesHitOneAtMost};
ghost use Rattle.plain_server.specs.Hits.{JournalsDecideStates, FramesBeginWithStates};

/// Before the first frame nobody is joined, and each thing of the map is live at its id and as at the start, and nothing
/// else is.
pub fn opening_is_as_the_map_says()
    ensures { OpeningIsAsTheMapSays }
{}

/// Moves of live players, in whatever order they run, keep a valid world valid.
pub fn moves_keep_worlds_valid()
    ensures { MovesKeepWorldsValid }
{}

/// After any frames, with whatever journals, the state is one of the map: the world is valid, ports are apart, and the
/// live slots are the live players. So is the state after the moves of a frame, which its replies show.
pub fn worlds_stay_valid()
    ensures { WorldsStayValid }
{}

/// After any frames, with whatever journals, no two live slots share a port.
pub fn ports_stay_apart()
    ensures { PortsStayApart }
{}

/// After any frames, with whatever journals, no player is in a wall, in a block or in another live solid; nor is one
/// after the moves of a frame, where those that leave are still there.
pub fn players_keep_room()
    ensures { PlayersKeepRoom }
{}

/// A frame begins with its tick: its first packet is taken in the world after the tick, and without packets nothing else
/// happens to the world before the moves.
pub fn frames_begin_with_their_tick()
    ensures { FramesBeginWithTheirTick }
{}

/// Frames are played in turn, numbered from 0: each goes on from the state that those before it leave with their
/// journals. Journals are right, or in the order of arrival, exactly where there is one a frame and each is so there.
pub fn frames_are_in_turn()
    ensures { FramesAreInTurn }
{}

/// Any frames have right journals with the moves in the order of arrival.
pub fn journals_are_right_in_order()
    ensures { JournalsAreRightInOrder }
{}

/// Right journals that have the moves in the order of arrival are those that running them in that order gives.
pub fn order_leaves_one_journal_each()
    ensures { OrderLeavesOneJournalEach }
{}

/// The sequence numbers that are accepted since a join rise from frame to frame: as long as a slot's client stays, each
/// one of a later frame is above each one of an earlier one, also where it has no move in the frames between them.
pub fn numbers_rise_across_frames()
    ensures { NumbersRiseAcrossFrames }
{}

/// In a right journal of a frame each entry has its place, a player's slot, a number of 32 bits, an origin at most
/// 1,048,576 sub-units from 0 on each axis, and at most 8 ids of 16 bits, in rising order.
pub fn right_journals_are_in_range()
    ensures { RightJournalsAreInRange }
{}

/// In a right journal of a frame at most one entry takes an item, and where one does, the item's state after the frame is
/// the frame's number plus its delay.
pub fn frames_have_one_taker()
    ensures { FramesHaveOneTaker }
{}

/// In right journals of any frames, each id that an entry got is that of an item of the map, or, on a map with shots, the
/// slot of a player.
pub fn only_items_and_players_are_got()
    ensures { OnlyItemsAndPlayersAreGot }
{}

/// In right journals of any frames, at most one entry of a frame takes an item.
pub fn items_have_one_taker()
    ensures { ItemsHaveOneTaker }
{}

/// In right journals of any frames, an item that an entry took stays away for its delay: in as many frames as the delay
/// says, from that one on, no other entry takes it.
pub fn taken_items_stay_away()
    ensures { TakenItemsStayAway }
{}

/// A frame ends where its moves did. After the moves of a right journal each player with an entry is where the last one
/// reports it, and each other one is as the receive pass left it, on a map with shots but for its state; the replies show
/// these records. The next frame begins with them, but for those of the players that leave.
pub fn frames_end_with_their_moves()
    ensures { FramesEndWithTheirMoves }
{}

/// After the moves of a right journal of a frame the things of the map are as the receive pass left them but for their
/// state, and those that no entry got with their state. The record of a player that moved is what its last move made of it,
/// in the world after the moves before that one, but for its state, which the hits after it may have changed.
pub fn moves_leave_what_they_made()
    ensures { MovesLeaveWhatTheyMade }
{}

/// After any frames, with whatever journals, a player's state is one that hits can make of none: damage below 100, or that
/// of one that fell in one of these frames, which is below 140 and the number of these frames, so that it is down for
/// fewer than 40 frames more, at most in the 39 that follow. So it is after the moves of a frame.
pub fn nobody_is_down_for_long()
    ensures { NobodyIsDownForLong }
{}

/// After the moves of a right journal of a frame, a player without an entry that no entry hits is as the receive pass left
/// it, with its state.
pub fn only_hits_hurt()
    ensures { OnlyHitsHurt }
{}

/// In a right journal of a frame, of the ids that an entry got at most one is that of a player, and it isn't the mover's
/// own.
pub fn entries_hit_one_at_most()
    ensures { EntriesHitOneAtMost }
{}

/// A right journal of a frame decides the state of each player after its moves: from the state before them each of its own
/// entries lets it rise, if it was down until then, and each entry that hits it adds 25 of damage or fells it. Whoever is
/// hit is there, and isn't down.
pub fn journals_decide_states()
    ensures { JournalsDecideStates }
{}

/// Before the moves of a frame a player has the state with which the frame began, and one that has just joined has none.
pub fn frames_begin_with_states()
    ensures { FramesBeginWithStates }
{}
