//! What holds of every board and its passes. Each law is the contract of a function that does nothing: a caller in a
//! proof gets the law by its clause.
ghost use Rattle.event_history.specs.Boards.{IsMade};
ghost use Rattle.event_history.specs.Merging.{ClosedBoardHoldsEvents, PostedEventsStay, PostedEventIsLast};

use crate::board::Board;

/// A board has a queue for each processor of its set, each made for as many tasks as the set has.
pub fn board_is_made(board: &Board)
    ensures { IsMade board.now }
{
    board.check_made();
}

/// What the passes of a closed board posted is just what its history holds: the events of each caller, in the order in
/// which it posted them, and no others. So the history is a merge of what the callers posted.
pub fn closed_board_holds_events()
    ensures { ClosedBoardHoldsEvents }
{}

/// What a pass posted stays so whatever it sees later.
pub fn posted_events_stay()
    ensures { PostedEventsStay }
{}

/// A pass that posts an event has posted it after all others.
pub fn posted_event_is_last()
    ensures { PostedEventIsLast }
{}
