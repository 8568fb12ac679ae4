ghost use Rattle.move_journal.specs.Laws.{MergesHaveWholeHistories, MovesInOrderAreRight, OrderLeavesOneJournal};
ghost use Rattle.move_journal.specs.Laws.{MovesKeepRecordsInBounds, NumberedRecordsAreInBounds};

/// The history of a journal that is a merge of the players' moves is whole, where no player sent one number twice: each
/// entry of the journal is in it once, with the one move that it is the entry of, and each move once, each player's in
/// the order sent.
pub fn merges_have_whole_histories()
    ensures { MergesHaveWholeHistories }
{}

/// Moves that run in the order of arrival have a right journal, and it has them in that order, where no player sent
/// one number twice.
pub fn moves_in_order_are_right()
    ensures { MovesInOrderAreRight }
{}

/// A right journal that has the moves in the order of arrival is the one that running them in that order gives.
pub fn order_leaves_one_journal()
    ensures { OrderLeavesOneJournal }
{}

/// A run of moves keeps the records of a world within bounds, with the same live ids, where each move of a live player
/// leaves that player's record its id and within its bounds. It is enough that this holds in worlds all of whose
/// records pass a test that doesn't look at their state, and that the record after the move passes it again.
pub fn moves_keep_records_in_bounds()
    ensures { MovesKeepRecordsInBounds }
{}

/// The records of a world that is made of records within their bounds, whose ids are their places, are within bounds.
pub fn numbered_records_are_in_bounds()
    ensures { NumberedRecordsAreInBounds }
{}
