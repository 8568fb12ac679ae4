ghost use Rattle.core_progress.specs.StepsLeft.{ServedStepsLeaveFewer, SoundViewsCount};
ghost use Rattle.core_progress.specs.Laws.{ServedStepsAreBounded, CommandsTakeFewSteps, SeatsStepOrWait};
ghost use Rattle.core_progress.specs.Laws.{SomeSeatCanStep, RoundsEndAllCommands, FairSchedulesEndAllCommands};
ghost use Rattle.core_progress.specs.Laws.{TurnsAreRounds, TurnsEndAllCommands, CommandsInHandAreSeen};
ghost use Rattle.core_progress.specs.Laws.{BusyRoundsAreFew, EndedCommandsAreLogged};

/// A sound view meets the condition of [`served_steps_leave_fewer`], where the effect in view, if there is one, is the
/// one that is kept.
pub fn sound_views_count()
    ensures { SoundViewsCount }
{}

/// A step of a seat that isn't to give up and has its command in view, and that is no refused take, leaves it fewer
/// steps. Each view of a valid machine meets the condition, by `standing_views_are_sound` of `core_seats` and
/// [`sound_views_count`], so a seat whose takes are served comes to the end of its command.
pub fn served_steps_leave_fewer()
    ensures { ServedStepsLeaveFewer }
{}

/// Whatever calls are made of a machine that stands, in whatever order: the steps that are served, and those that are
/// left after them, are at most those that were left before, and for each command that is given 24,471 and two for each
/// live id. So a served step lowers what is left by one at least, and a refused take doesn't raise it.
pub fn served_steps_are_bounded()
    ensures { ServedStepsAreBounded }
{}

/// Whatever calls are made from the start on: of each command that is given at most 24,471 steps, and two for each live
/// id, are served or left.
pub fn commands_take_few_steps()
    ensures { CommandsTakeFewSteps }
{}

/// The next step of a seat with a command in hand is served, or it is a take of a node that another seat holds; it is
/// never both.
pub fn seats_step_or_wait()
    ensures { SeatsStepOrWait }
{}

/// Where a seat has a command in hand, the next step of some seat with a command in hand is served.
pub fn some_seat_can_step()
    ensures { SomeSeatCanStep }
{}

/// To let each seat go on once, in the order of their numbers, is a round.
pub fn turns_are_rounds()
    ensures { TurnsAreRounds }
{}

/// Whatever calls are made from the start on: after as many turns of all seats as 24,471 and two for each live id for each
/// command that was given, no seat has a command in hand.
pub fn turns_end_all_commands()
    ensures { TurnsEndAllCommands }
{}

/// A round begins with a command in hand wherever any seat has one, whatever its number.
pub fn commands_in_hand_are_seen()
    ensures { CommandsInHandAreSeen }
{}

/// Of any rounds, one after another, at most as many begin with a command in hand as there were steps left, and 24,471
/// and two for each live id for each command that is given in them. In a round each seat that can step as it begins
/// makes its next step at least once, in any order, whether it is served by then or not; commands may be given, and
/// seats asked to give up, at any time.
pub fn busy_rounds_are_few()
    ensures { BusyRoundsAreFew }
{}

/// After as many rounds that give no command as there were steps left, no seat has a command in hand.
pub fn rounds_end_all_commands()
    ensures { RoundsEndAllCommands }
{}

/// On each schedule without end that gives finitely many commands, and by which no seat that can step is left so for
/// ever without making a step, no seat has a command in hand from some call on. That takes be served in some fair order
/// isn't asked.
pub fn fair_schedules_end_all_commands()
    ensures { FairSchedulesEndAllCommands }
{}

/// Whatever calls are made from the start on: once a seat has no command in hand, its log has just the commands that it
/// was given and didn't give up, each once and in its order.
pub fn ended_commands_are_logged()
    ensures { EndedCommandsAreLogged }
{}
