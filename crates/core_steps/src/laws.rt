ghost use Rattle.core_steps.specs.Laws.{StartStands, MadeSeatStands, EndedSeatStands, EndedSeatKeepsItems};
ghost use Rattle.core_steps.specs.Laws.{LoadedCountStands, GivenNodeStands, YieldedNodeStands, YieldedNothingStands};
ghost use Rattle.core_steps.specs.Laws.{TakenNodeStands, RefusedNodeStands, LayoutIsRight, EncodedIsDecoded};
ghost use Rattle.core_steps.specs.Laws.{UnusedWordsAreZero, TableIsKnown, EachTreeFits};
ghost use Rattle.core_steps.specs.Laws.{BegunMoveStands, LoadedOwnStands, LoadedAgainStands, LoadedListStands};
ghost use Rattle.core_steps.specs.Laws.{LoadedPlayerStands, LoadedStateStands, ClaimedNodeStands, StoredNextStands};
ghost use Rattle.core_steps.specs.Laws.{CommittedHeldStands, CommittedFreeStands, NotAllWait};
ghost use Rattle.core_steps.specs.Laws.{ReadIsRightWhileLeavesAreHeld, TakesComeInOrder, PlansComeInOrder};

/// The start is a valid core (`Stands`): seat 0 without a command, no entry, and words that are those of the world.
pub fn start_stands()
    ensures { StartStands }
{}

/// A seat that is made from seat 0 keeps the core valid.
pub fn made_seat_stands()
    ensures { MadeSeatStands }
{}

/// A seat that is ended into seat 0 keeps the core valid.
pub fn ended_seat_stands()
    ensures { EndedSeatStands }
{}

/// The items of all logs are the same, in the same order, after a seat is ended: its log goes under its number to seat
/// 0.
pub fn ended_seat_keeps_items()
    ensures { EndedSeatKeepsItems }
{}

/// A seat that loads the count keeps the core valid.
pub fn loaded_count_stands()
    ensures { LoadedCountStands }
{}

/// A node that is given back keeps the core valid.
pub fn given_node_stands()
    ensures { GivenNodeStands }
{}

/// Giving up: the first node that is given back, at any take before the commit or where the commit comes next, keeps
/// the core valid.
pub fn yielded_node_stands()
    ensures { YieldedNodeStands }
{}

/// Giving up: a seat that gives up and holds nothing loads the count, which keeps the core valid.
pub fn yielded_nothing_stands()
    ensures { YieldedNothingStands }
{}

/// A leaf, an inner node of a visit or a further write node that was free is taken, which keeps the core valid.
pub fn taken_node_stands()
    ensures { TakenNodeStands }
{}

/// A take of a held node: the refused take keeps the core valid.
pub fn refused_node_stands()
    ensures { RefusedNodeStands }
{}

/// The table has 959 words, for 63 nodes and 512 ids: the count first, from 1 on the nodes, from 64 on their lists, from
/// 127 on the records of players, from 447 on the states. There are at most 16 seats, whose numbers have 256 values in a
/// node's word.
pub fn table_is_known()
    ensures { TableIsKnown }
{}

/// The table has words for each node of a tree of each depth that a tree may have.
pub fn each_tree_fits()
    ensures { EachTreeFits }
{}

/// The words lie in the flat table at their indices.
pub fn layout_is_right()
    ensures { LayoutIsRight }
{}

/// The words of nodes that the tree hasn't, of players that aren't live and of ids that aren't live are 0 in the flat
/// table.
pub fn unused_words_are_zero()
    ensures { UnusedWordsAreZero }
{}

/// The five words of a player's record give it back, with the state that is given.
pub fn encoded_is_decoded()
    ensures { EncodedIsDecoded }
{}

/// The first load for a command, with which it enters the view, keeps the core valid.
pub fn begun_move_stands()
    ensures { BegunMoveStands }
{}

/// A further word of the own record that is loaded keeps the core valid.
pub fn loaded_own_stands()
    ensures { LoadedOwnStands }
{}

/// A word of the own record that is loaded again keeps the core valid.
pub fn loaded_again_stands()
    ensures { LoadedAgainStands }
{}

/// A list word that is loaded keeps the core valid.
pub fn loaded_list_stands()
    ensures { LoadedListStands }
{}

/// A word of another player's record that is loaded keeps the core valid.
pub fn loaded_player_stands()
    ensures { LoadedPlayerStands }
{}

/// The state of a thing of the map that is loaded keeps the core valid.
pub fn loaded_state_stands()
    ensures { LoadedStateStands }
{}

/// The first write node, with which the effect enters the view: it keeps the core valid, where the effect is what
/// the action gives on what was loaded.
pub fn claimed_node_stands()
    ensures { ClaimedNodeStands }
{}

/// The next store that is owed, of the own bit or of a word, keeps the core valid.
pub fn stored_next_stands()
    ensures { StoredNextStands }
{}

/// The commit where the write nodes are held: the seat's command joins the history with its entry, at the place that
/// the old count gives, and the core stays valid.
pub fn committed_held_stands()
    ensures { CommittedHeldStands }
{}

/// The commit without write nodes, with which the effect enters the view, does the same, where the effect is what the
/// action gives on what was loaded.
pub fn committed_free_stands()
    ensures { CommittedFreeStands }
{}

/// What a seat has read and needs is as in the run, its effect is the outcome there, and the words that were read at its
/// leaves are still their words, as long as it holds all its leaves and hasn't committed: also while it gives up.
pub fn read_is_right_while_leaves_are_held()
    ensures { ReadIsRightWhileLeavesAreHeld }
{}

/// Where a seat has a command in hand, some seat with a command in hand doesn't wait for a node that another one holds.
pub fn not_all_wait()
    ensures { NotAllWait }
{}

/// A seat that takes a node next holds only nodes that come before it in the order of takes: leaves by number, then
/// inner nodes by number.
pub fn takes_come_in_order()
    ensures { TakesComeInOrder }
{}

/// The nodes that are read for a region come in that order too.
pub fn plans_come_in_order()
    ensures { PlansComeInOrder }
{}
