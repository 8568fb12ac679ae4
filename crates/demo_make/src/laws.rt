ghost use Rattle.demo_make.specs.Laws.{GeneratedRecordingsReadBack, MapIsKnown, FramesAreKnown, PacketsAreRead};
ghost use Rattle.demo_make.specs.Laws.{WordsAreKnown, GeneratedTextsAreBounded};
ghost use Rattle.demo_make.specs.Laws.{ResentRecordingsReadBack, ResentTextsAreBounded};
ghost use Rattle.demo_make.specs.Accepting.{AllIsAccepted, SpawnsAreClear};
ghost use Rattle.demo_make.specs.Repeating.{CommandsArriveOnce};

/// Each generated recording, of 1 to 64 players and 1 to 100,000 frames, has no fault, and is read as the map and the
/// events that it is made of.
pub fn generated_recordings_read_back()
    ensures { GeneratedRecordingsReadBack }
{}

/// Each recording in which commands are resent, of 1 to 64 players and 1 to 100,000 frames, has no fault, and is read as
/// the map and the events that it is made of.
pub fn resent_recordings_read_back()
    ensures { ResentRecordingsReadBack }
{}

/// The map of generated recordings keeps the rules of maps. It has 101 lines: the arena, 64 spawns, 16 blocks,
/// 16 items, 2 teleporters, a goal and a lift. So its tree has the depth of a map without a line of it, and players can't
/// shoot.
pub fn map_is_known()
    ensures { MapIsKnown }
{}

/// Frame 0 has a join of each player and then a move of each, each later frame a move of each.
pub fn frames_are_known()
    ensures { FramesAreKnown }
{}

/// The text of a generated recording has at most 8,304 bytes for the map and the end, 13 for each join, and in each
/// frame 6 and 33 for each move: so much room is enough to write it.
pub fn generated_texts_are_bounded()
    ensures { GeneratedTextsAreBounded }
{}

/// Where commands are resent a text has at most 8,304 bytes for the map and the end, 13 for each join, and in each frame
/// 6 and 59 for each player.
pub fn resent_texts_are_bounded()
    ensures { ResentTextsAreBounded }
{}

/// The packets of a generated recording are read as joins, and as moves with the numbers that the words give; where
/// commands are resent they are read as those commands, with their numbers.
pub fn packets_are_read()
    ensures { PacketsAreRead }
{}

/// Every join and every move of a generated recording is accepted: in frame 0 where nobody is joined and nothing is at
/// the spawns, and in each later frame whatever the moves before it were.
pub fn all_is_accepted()
    ensures { AllIsAccepted }
{}

/// Of a recording in which commands are resent no packet is refused, and each command is accepted once and in its order,
/// although two packets of three are lost: a packet that arrives has the commands of those before it that were lost, of
/// which the server leaves out what it has.
pub fn commands_arrive_once()
    ensures { CommandsArriveOnce }
{}

/// In a valid world without players no body of a live solid is at a spawn of a generated recording, wherever the lift
/// is.
pub fn spawns_are_clear()
    ensures { SpawnsAreClear }
{}

/// The words that are drawn are those of SplitMix64 from the seed, two published ones among them.
pub fn words_are_known()
    ensures { WordsAreKnown }
{}
