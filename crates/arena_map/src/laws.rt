ghost use Rattle.arena_map.specs.Laws.{LinesKeepTheRules, BrokenRulesAreTheFirst, SolidsHaveWalls, MapLinesReadBack};
ghost use Rattle.arena_map.specs.Laws.{FieldsAreSpaced, DataFollowKinds, LiveRecordsHaveData, OpeningWorldIsValid};
ghost use Rattle.arena_map.specs.Laws.{LiftsStayInside, LimitsAreKnown};
ghost use Rattle.arena_map.specs.LineThings.{LinesGiveTheirThings};
ghost use Rattle.arena_map.specs.LineParts.{LinesChangeTheirParts};

/// A map that lines begin and lengthen without breaking a rule keeps all of them, and lines that give a map which keeps
/// them break none.
pub fn lines_keep_the_rules()
    ensures { LinesKeepTheRules }
{}

/// The rule that a line breaks is the first, in the order of their numbers, that the map with this line breaks.
pub fn broken_rules_are_the_first()
    ensures { BrokenRulesAreTheFirst }
{}

/// The solids of a map block what the walls of its arena block.
pub fn solids_have_walls()
    ensures { SolidsHaveWalls }
{}

/// A text is read as a line exactly where it is what is printed for that line.
pub fn map_lines_read_back()
    ensures { MapLinesReadBack }
{}

/// A text has fields of some forms exactly where it is such fields, each after a space, and nothing more.
pub fn fields_are_spaced()
    ensures { FieldsAreSpaced }
{}

/// An id has a destination, a delay or the data of a lift exactly where it is that of a teleporter, an item or a lift.
pub fn data_follow_kinds()
    ensures { DataFollowKinds }
{}

/// In a valid world each live teleporter has a destination, each live item a delay and each live lift its data.
pub fn live_records_have_data()
    ensures { LiveRecordsHaveData }
{}

/// The world in which only the things of a map are live, as at the start, is valid for the map.
pub fn opening_world_is_valid()
    ensures { OpeningWorldIsValid }
{}

/// A lift between its lowest place and its highest is within the bounds of records and inside the arena.
pub fn lifts_stay_inside()
    ensures { LiftsStayInside }
{}

/// Each line of an item, a teleporter, a goal or a lift gives a thing of its kind in its box, at rest, with nothing and in
/// state 0, with the ids from 64 in the order of the lines; and its id has the delay, the destination or the lift's
/// lowest place, rise and speed that the line says, and no other data. No other id has data.
pub fn lines_give_their_things()
    ensures { LinesGiveTheirThings }
{}

/// The line of an arena begins a map with nothing in it, of depth 4, without shots and with room for 1,024 blocks. The line
/// of a block, a spawn or a thing puts it after those that the map has, that of a depth sets the depth, that of shots lets
/// players shoot, and that of a number of blocks says how many there may be; each changes nothing else. The solids are the
/// walls, and then the blocks in their order.
pub fn lines_change_their_parts()
    ensures { LinesChangeTheirParts }
{}

/// The limits of a map have the values that the documents say: 1,024 blocks, or where a line says so up to 4,096, 64 spawns,
/// 400 items, 16 teleporters, 16 goals and 16 lifts, and so 448 things; and 4 is the depth of the tree where no line names
/// one. That a map keeps them: `IsMap`.
pub fn limits_are_known()
    ensures { LimitsAreKnown }
{}
