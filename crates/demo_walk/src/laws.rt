ghost use Rattle.demo_walk.specs.Accepting.{NothingIsRefused};
ghost use Rattle.demo_walk.specs.Laws.{WalksReadBack, EnoughPlacesAreAsMade, PlacesAreKnown, JoinsAreKnown};
ghost use Rattle.demo_walk.specs.Laws.{PacketsAreRead};

/// Each recording, of 1 to 64 players and 1 to 100,000 frames, has no fault, and is read as its map and the frames that
/// it is made of.
pub fn walks_read_back()
    ensures { WalksReadBack }
{}

/// Where the map has places for all players, the packets of each frame are those of the recording that
/// [`demo_make::make`] writes of the seed.
pub fn enough_places_are_as_made()
    ensures { EnoughPlacesAreAsMade }
{}

/// The places are exactly the spawns at which a player overlaps no wall, no block and no player at an earlier spawn,
/// and no lift is at it, above it or below it. No players at two of them overlap.
pub fn places_are_known()
    ensures { PlacesAreKnown }
{}

/// Where the map has S places, min(P, S * (f + 64) / 64) of P players have sent a join by frame f: in frame 0 S of
/// them, or all. Each sends one, and a move in each frame from that of its join on. That a later join is accepted isn't
/// said.
pub fn joins_are_known()
    ensures { JoinsAreKnown }
{}

/// The packets are read as joins, and as moves with the numbers that the words give.
pub fn packets_are_read()
    ensures { PacketsAreRead }
{}

/// In frame 0 every join and every move is accepted, in a valid world where nobody is joined, wherever its lifts are; and
/// where the map has places for all players, so is every move of each later frame.
pub fn nothing_is_refused()
    ensures { NothingIsRefused }
{}
