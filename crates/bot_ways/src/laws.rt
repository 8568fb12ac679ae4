ghost use Rattle.bot_ways.specs.Laws.{EdgesAreKnown, CertificatesAreLeast, WaysAreUnique};
ghost use Rattle.bot_ways.specs.Laws.{PlansAreRecordings, LengthsAreWritten, MovesAreKnown, PlanTextsAreBounded};
ghost use Rattle.bot_ways.specs.BotMoves.{BotsFollowTheirWays};

/// An edge leads from one waypoint to another exactly where they have one height, are apart, but at most 65,536 from each
/// other on each axis, and no wall or block overlaps a player's body at the one or at a step of its way to the other. Its
/// length is the greater of the distances on x and y.
pub fn edges_are_known()
    ensures { EdgesAreKnown }
{}

/// Lengths are the least ones where waypoint 0 has length 0, no edge leads to a length that is more than the sum of the
/// length where it begins and its own, and each other waypoint with a length has an edge that leads to exactly its length.
pub fn certificates_are_least()
    ensures { CertificatesAreLeast }
{}

/// There is one way to each waypoint.
pub fn ways_are_unique()
    ensures { WaysAreUnique }
{}

/// What is written of a plan is, up to its line `end`, a recording without a fault: it gives the map, but for a
/// line that names the depth which a map has anyway, and the frames in which the bot joins and walks along the way.
pub fn plans_are_recordings()
    ensures { PlansAreRecordings }
{}

/// The length that is written of a way is the sum of the lengths of its edges.
pub fn lengths_are_written()
    ensures { LengthsAreWritten }
{}

/// From one waypoint to the next a bot makes as few moves as cover the distance by 4,096 each, and its packets are read as
/// those moves.
pub fn moves_are_known()
    ensures { MovesAreKnown }
{}

/// A bot joins from port 1, and then follows its way: from each waypoint to the next come as few frames as cover the
/// distance by 4,096 each, and each has one move towards the next waypoint, of 50 milliseconds and without a button. On each
/// axis it wishes the share of 320 that its part of the distance has, cut toward 0 and with the sign of that part.
pub fn bots_follow_their_ways()
    ensures { BotsFollowTheirWays }
{}

/// What is written of a plan has at most 60 bytes for the arena, 8 for the depth, 6 for shots, 60 for each block, 33 for
/// each spawn, 43 for each item, 90 for each teleporter, 59 for each goal and 72 for each lift; 18 for the join, 38 for
/// each move, of which an edge has at most 16, and 4 for the end; and 25 for the certificate, 3 for each waypoint of the
/// way and 8 for each waypoint of the map. So [`MOST_PLAN_BYTES`](crate::MOST_PLAN_BYTES) are room for each.
pub fn plan_texts_are_bounded()
    ensures { PlanTextsAreBounded }
{}
