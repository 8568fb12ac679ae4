ghost use Rattle.core_steps.specs.MachineLaws.{MachineStartStands, GivenCommandStands, NextStepStands, QuittingStands};
ghost use Rattle.core_steps.specs.MachineLaws.{EachMachineStands, NextExists, LogsGrowByCommits, SomeSeatIsFree};
ghost use Rattle.core_steps.specs.MachineLaws.{StepsChangeOneWord, RefusedTakesChangeTheirRecord, RegionMayBeAsked};
ghost use Rattle.core_steps.specs.MachineLaws.{LoadedRecordIsTaken, EffectMayBeAsked, EachPlaceIsLoggedOnce};
ghost use Rattle.core_steps.specs.MachineLaws.{StepsHaveTheirWord, EachViewReadsLittle};
ghost use Rattle.core_steps.specs.MachineLaws.{LogHoldsTheCommandsKept, StepsChangeOneView, CountIsWithinTheRooms};
ghost use Rattle.core_steps.specs.MachineLaws.{RoomsAreThoseGiven, SeatAtATakeMayGiveUp, StepsBringNoCommand};
ghost use Rattle.core_steps.specs.MachineLaws.{EachTakeComesLater, StepsFollowTheirWord};
ghost use Rattle.core_steps.specs.Rows.{FirstView, NearRow};

/// What the machine keeps holds at the start: a seat for each room, no command given, and no history.
pub fn machine_start_stands()
    ensures { MachineStartStands }
{}

/// A command that is given to a seat keeps what holds of the machine.
pub fn given_command_stands()
    ensures { GivenCommandStands }
{}

/// The next step of a seat, whichever it is, keeps what holds of the machine; where it commits, the seat's command with
/// its entry is the last item of the history.
pub fn next_step_stands()
    ensures { NextStepStands }
{}

/// A seat that is asked to give up, at any take before its commit or where the commit comes next, keeps what holds of
/// the machine.
pub fn quitting_stands()
    ensures { QuittingStands }
{}

/// Whatever commands are given, whatever seats make their next steps in whatever order, and whatever seats give up:
/// what the machine keeps holds.
pub fn each_machine_stands()
    ensures { EachMachineStands }
{}

/// A seat has a next step exactly where it has a command in hand.
pub fn next_exists()
    ensures { NextExists }
{}

/// The step that commits appends the seat's command with its entry to the seat's log, and no other step changes a log.
pub fn logs_grow_by_commits()
    ensures { LogsGrowByCommits }
{}

/// Where a seat of the machine has a command in hand, some seat with a command in hand doesn't wait.
pub fn some_seat_is_free()
    ensures { SomeSeatIsFree }
{}

/// A seat of the machine whose next step is a take holds only nodes that come before the node that it takes: leaves by
/// number, then inner nodes by number.
pub fn each_take_comes_later()
    ensures { EachTakeComesLater }
{}

/// A step changes no word of the table but its own.
pub fn steps_change_one_word()
    ensures { StepsChangeOneWord }
{}

/// A step of a seat, also a take that is refused or a load of the count, changes no view but that seat's; giving a seat
/// a command, and asking it to give up, change no view and no word; making or ending a seat changes its own view and
/// that of seat 0 alone.
pub fn steps_change_one_view()
    ensures { StepsChangeOneView }
{}

/// A take of a held node changes nothing but the record of the refused take in the view of its seat.
pub fn refused_takes_change_their_record()
    ensures { RefusedTakesChangeTheirRecord }
{}

/// A seat whose next step is a take may be asked to give up.
pub fn seat_at_a_take_may_give_up()
    ensures { SeatAtATakeMayGiveUp }
{}

/// A command that a seat has in hand after a step, of whichever seat, it had in hand before it.
pub fn steps_bring_no_command()
    ensures { StepsBringNoCommand }
{}

/// The own record of a command that isn't committed, once it is loaded whole, meets the action's condition on its
/// region.
pub fn region_may_be_asked()
    ensures { RegionMayBeAsked }
{}

/// The record of another player, once its last word is loaded, is one that the action takes.
pub fn loaded_record_is_taken()
    ensures { LoadedRecordIsTaken }
{}

/// Once all is read, what was loaded meets the action's condition on its effect.
pub fn effect_may_be_asked()
    ensures { EffectMayBeAsked }
{}

/// Each place below the count of commits is in one log, once, and the places of each log rise.
pub fn each_place_is_logged_once()
    ensures { EachPlaceIsLoggedOnce }
{}

/// The count of commits is at most the sum of the rooms of all seats, those that were ended too.
pub fn count_is_within_the_rooms()
    ensures { CountIsWithinTheRooms }
{}

/// Whatever calls are made from the start on, the rooms under the numbers that were given out are those that were given.
pub fn rooms_are_those_given()
    ensures { RoomsAreThoseGiven }
{}

/// Each step is one on a word of the table: the step's index lies in the table, and its word is there, before it and
/// after it.
pub fn steps_have_their_word()
    ensures { StepsHaveTheirWord }
{}

/// A step follows its seat's view and its own word alone, whatever the other words are: so its word is the one that it
/// loads, and from which it makes the new one.
pub fn steps_follow_their_word()
    ensures { StepsFollowTheirWord }
{}

/// A view has at most as many leaves as the tree, one list word for each node, one record for each slot and one state
/// for each live id.
pub fn each_view_reads_little()
    ensures { EachViewReadsLittle }
{}

/// Worked row: the first view. A seat's first step loads the first word of its player's record, which enters its view
/// with the command.
pub fn first_view_is_right()
    ensures { FirstView }
{}

/// Worked row: two players share leaf 0. Once seat 0 holds node 15, seat 1's take of it is refused, and its view holds
/// what it found: the node, its word, the own record and the leaves wanted.
pub fn refused_take_is_right()
    ensures { NearRow }
{}

/// The commands of a seat's log, and the one that it still pursues, are those that it was given and didn't give up,
/// each once and in its order.
pub fn log_holds_the_commands_kept()
    ensures { LogHoldsTheCommandsKept }
{}
