ghost use Rattle.client_ports.specs.Laws.{
  PortsAreApart,
  SlotIsLeastFree,
  NobodyIsAddedIntoASolid,
  JoinsAreAtTheFirstRoom,
  AcceptedNumbersRise,
  EachPacketHasOneAnswer,
  RefusalsAreKnown,
  FinishTakesLeaversOut,
  FinishKeepsWhoStays,
};
ghost use Rattle.client_ports.specs.Frames.{
  PacketsAreTakenInTurn,
  RefusalsHaveTheirPlaces,
  EachPacketIsAnswered,
  MovesComeOfCommands,
  NumbersRiseInAFrame,
  PlayersHaveFewMoves,
  NumbersAreApart,
  NumbersAreAcceptedOnce,
  MovesAreOfPackets,
  MoversAreLive,
  OpeningIsAServerState,
  ClientsStayApart,
  StatesStayValid,
  OpeningIsClear,
  BodiesStayClear,
};
ghost use Rattle.client_ports.specs.Newcomers.{JoinsAddNewcomers};

/// No two live slots share a port.
pub fn ports_are_apart()
    ensures { PortsAreApart }
{}

/// The slot that a join gets is the least free one.
pub fn slot_is_least_free()
    ensures { SlotIsLeastFree }
{}

/// The body of a player that joins overlaps no wall, no block and no body of a live solid.
pub fn nobody_is_added_into_a_solid()
    ensures { NobodyIsAddedIntoASolid }
{}

/// A player that joins is put at a spawn with room, and no spawn before it in line order has room.
pub fn joins_are_at_the_first_room()
    ensures { JoinsAreAtTheFirstRoom }
{}

/// A join that gets a place adds a player there, in a slot that was free: at rest, without ammunition, gems and score, with
/// no command done, no flag set and in state 0; and a client of its port, of which no number was accepted and no move
/// came. No other record and no other client changes.
pub fn joins_add_newcomers()
    ensures { JoinsAddNewcomers }
{}

/// Of a move packet exactly the commands are accepted whose number is above the last accepted one, also where numbers were
/// passed over before them, all or none: there is one at least, their numbers rise, the last of them becomes the last
/// accepted one, and with the moves of the client that were accepted in the frame before they are at most 8. So numbers
/// rise, and a player has at most 8 moves in a frame.
pub fn accepted_numbers_rise()
    ensures { AcceptedNumbersRise }
{}

/// Each packet has one answer: a refusal, which changes neither clients nor records, a join, a leave, or moves. The
/// last three come only of packets of their kind, a leave and moves change the client of the packet's port, and each
/// accepted command has the fields that the packet says of it.
pub fn each_packet_has_one_answer()
    ensures { EachPacketHasOneAnswer }
{}

/// A packet is refused, for a certain refusal, exactly where this refusal holds and none before it.
pub fn refusals_are_known()
    ensures { RefusalsAreKnown }
{}

/// The end of a frame takes out the clients that leave, with their players, and no other.
pub fn finish_takes_leavers_out()
    ensures { FinishTakesLeaversOut }
{}

/// The end of a frame keeps each client that doesn't leave, with its port and its last accepted number, also where it had
/// no move in the frame; in the next frame it has none yet.
pub fn finish_keeps_who_stays()
    ensures { FinishKeepsWhoStays }
{}

/// The packets of a frame are taken in the order of arrival: each packet finds what those before it came to, and has as
/// its place how many they are.
pub fn packets_are_taken_in_turn()
    ensures { PacketsAreTakenInTurn }
{}

/// A frame's refusals are exactly those of the packets at their places, each the one that holds for its packet
/// after the packets before it. Their places rise, so that each is listed once and in the order of arrival.
pub fn refusals_have_their_places()
    ensures { RefusalsHaveTheirPlaces }
{}

/// As many refusals, joins, packets that give moves and new leavers come of a frame as packets came.
pub fn each_packet_is_answered()
    ensures { EachPacketIsAnswered }
{}

/// The accepted moves of a frame are those that its packets give, in the order of arrival, and no packet gives more moves
/// than it has commands: one of version 1 at most one, and one of version 2 at most three.
pub fn moves_come_of_commands()
    ensures { MovesComeOfCommands }
{}

/// Each accepted move of a frame is a command of one of its packets, from the port of the client in its slot, and has what
/// the packet says of the command.
pub fn moves_are_of_packets()
    ensures { MovesAreOfPackets }
{}

/// A number that comes again is accepted once: no number comes twice among the accepted moves of a slot in a frame, and
/// none of them was accepted before the frame, since its client joined.
pub fn numbers_are_accepted_once()
    ensures { NumbersAreAcceptedOnce }
{}

/// The accepted numbers of each slot rise strictly in a frame, from the last one before it to the last one after it,
/// and the slot's client counts each.
pub fn numbers_rise_in_a_frame()
    ensures { NumbersRiseInAFrame }
{}

/// A player has at most 8 moves in a frame.
pub fn players_have_few_moves()
    ensures { PlayersHaveFewMoves }
{}

/// No two accepted moves of a frame share slot and number.
pub fn numbers_are_apart()
    ensures { NumbersAreApart }
{}

/// The slot of each accepted move is live after the packets of the frame.
pub fn movers_are_live()
    ensures { MoversAreLive }
{}

/// The state in which a server begins, with nobody joined and only the things of the map live, is a server's: ports are
/// apart, the live slots are the live players, and the world is valid.
pub fn opening_is_a_server_state()
    ensures { OpeningIsAServerState }
{}

/// No two live slots share a port after the packets of a frame, nor after its end, where none did before.
pub fn clients_stay_apart()
    ensures { ClientsStayApart }
{}

/// The live slots are the live players of a valid world after the packets of a frame, and after its end, where they
/// were before.
pub fn states_stay_valid()
    ensures { StatesStayValid }
{}

/// In the state in which a server begins no bodies of two live solids overlap: these are the lifts of the map.
pub fn opening_is_clear()
    ensures { OpeningIsClear }
{}

/// Where no player's body overlaps a wall or a block, and no bodies of two live solids overlap, none do after the
/// packets of a frame, with those that joined in it, nor after its end.
pub fn bodies_stay_clear()
    ensures { BodiesStayClear }
{}
