ghost use Rattle.ruled_words.specs.Laws.{StartIsRuled, StepsKeepTheRule, LooksKeepTheRule, MadeSeatsKeepTheRule};
ghost use Rattle.ruled_words.specs.Laws.{EndedSeatsKeepTheRule, RefusedTakesWereServed, ClosedTableIsItsRun};
ghost use Rattle.ruled_words.specs.Laws.{UnusedWordsStayZero, HeldWordsNameTheirHolder};

/// The table at the start, with the words of the world and seat 0, meets the rule.
pub fn start_is_ruled()
    ensures { StartIsRuled }
{}

/// Each step of a seat on one word, of whichever kind, keeps the rule.
pub fn steps_keep_the_rule()
    ensures { StepsKeepTheRule }
{}

/// A seat that rests and looks at the count of commits keeps the rule.
pub fn looks_keep_the_rule()
    ensures { LooksKeepTheRule }
{}

/// A seat that is made from seat 0 keeps the rule.
pub fn made_seats_keep_the_rule()
    ensures { MadeSeatsKeepTheRule }
{}

/// A seat that is ended into seat 0 keeps the rule.
pub fn ended_seats_keep_the_rule()
    ensures { EndedSeatsKeepTheRule }
{}

/// Between any two steps, each word that a seat found where its take was refused was written by a seat whose take of
/// that node was served.
pub fn refused_takes_were_served()
    ensures { RefusedTakesWereServed }
{}

/// Once all other seats are ended into seat 0, the items of all logs are those of a legal history, the words of each
/// live record are those of its run, and each word that was found where a take was refused was written where one was
/// served.
pub fn closed_table_is_its_run()
    ensures { ClosedTableIsItsRun }
{}

/// Between any two steps, the words of nodes that the tree hasn't, of players that aren't live and of ids that aren't
/// live are 0.
pub fn unused_words_stay_zero()
    ensures { UnusedWordsStayZero }
{}

/// The word of a node that a seat holds has the seat's number plus 1 in bits 0 to 7. Above them it has the leaves of the
/// seat's command where the node is a leaf; for an inner node bit 8 is set exactly where it is held to write.
pub fn held_words_name_their_holder()
    ensures { HeldWordsNameTheirHolder }
{}
