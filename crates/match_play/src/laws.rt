ghost use Rattle.match_play.specs.Laws.{CountsAreKnown, OrderLeavesOneMatch, MatchesArePlayedAsWritten, LimitsAreKnown};
ghost use Rattle.match_play.specs.Laws.{TotalsAreOfTheOutput, ScoresAreOfTheClients, ItemsAreOfTheMap};
ghost use Rattle.match_play.specs.LostPackets.{LostPacketsLoseNoCommand};

/// In a match of 1 to 64 players each player joins once and each of its moves is accepted, whichever right journals the
/// frames have: so it has as many joins as players, as many moves as players in each frame, and no refusal.
pub fn counts_are_known()
    ensures { CountsAreKnown }
{}

/// Right journals of a match that have the moves in the order of arrival are those of the plain server that runs them
/// in that order: with one worker the seed, the players and the frames decide the totals.
pub fn order_leaves_one_match()
    ensures { OrderLeavesOneMatch }
{}

/// A match plays what its recording would, written out: the text has the map and the frames of the match, journals of
/// the match make an output of it, and those that an output spells are journals of the match.
pub fn matches_are_played_as_written()
    ensures { MatchesArePlayedAsWritten }
{}

/// The limit of a match has the value that the documents say: 2,000 frames.
pub fn limits_are_known()
    ensures { LimitsAreKnown }
{}

/// The totals of frames are those of the lines that are printed for them: the `joined`, `did` and `no` lines, and the
/// items that the `did` lines have.
pub fn totals_are_of_the_output()
    ensures { TotalsAreOfTheOutput }
{}

/// The score is the sum of the scores of the players whose clients are live after the last frame.
pub fn scores_are_of_the_clients()
    ensures { ScoresAreOfTheClients }
{}

/// Of a recording in which commands are resent no command is lost, although two packets of three are: whatever the number
/// of workers, each output has no `no` line, each player's `did` lines over all frames have the numbers 1 to that of the
/// frames, each once and rising, and there are no others.
pub fn lost_packets_lose_no_command()
    ensures { LostPacketsLoseNoCommand }
{}

/// The items of the totals are the items of the map among the ids that all entries got. Where players shoot, the slot of
/// one that was hit isn't counted.
pub fn items_are_of_the_map()
    ensures { ItemsAreOfTheMap }
{}
