ghost use Rattle.board_core.specs.Laws.{LegalHistoriesKeepPromises, PromisesAreDoneInTime};
ghost use Rattle.board_core.specs.Laws.{LegalHistoriesLeaveGoodFleets};
ghost use Rattle.board_core.specs.Laws.{OpeningBoardsAreGood, EntriesLeaveGoodBoards};
ghost use Rattle.board_core.specs.Laws.{HistoriesLeaveGoodBoards, HistoriesRaiseVersions};
ghost use Rattle.board_core.specs.Laws.{AnswersArePossible, RemovalsArePossible};
ghost use Rattle.board_core.specs.BoardKept.{AreAccepted};
ghost use Rattle.board_core.specs.BoardViews.{board_of};
ghost use Rattle.board_core.specs.Boards.{IsConsistent};
ghost use Rattle.board_core.specs.NamedVehicles.{ChangedVehiclesAreNamed};
ghost use Rattle.board_core.specs.NotedLaws.{ClaimsAreHeld, ClaimsStay, ClosedBoardsWereShut};
ghost use Rattle.board_core.specs.NotedLaws.{HoldersHoldClaims};
ghost use Rattle.board_core.specs.NotedLaws.{HistoriesKeepNumbersApart, HistoriesLeaveOneBoard};
ghost use Rattle.board_core.specs.NotedLaws.{NotedEntriesAreLegal, NotedHistoriesComeInParts};
ghost use Rattle.board_core.specs.NotedLaws.{NotedHistoriesGoOn};
ghost use Rattle.board_core.specs.WaitingLaws.{AreFoundByNumber, HaveOwnNumbers};

use crate::board::Board;
use stop_schedule::FleetIndex;

/// Every legal history keeps its promises, and what was promised for a moment before the clock has happened. It does nothing: the
/// laws are its contract.
pub fn promises_are_kept()
    ensures kept { LegalHistoriesKeepPromises }
    ensures done { PromisesAreDoneInTime }
{}

/// Every legal history leaves a good fleet over its graph. It does nothing: the law is its contract.
pub fn fleets_stay_good()
    ensures { LegalHistoriesLeaveGoodFleets }
{}

/// A board before any entry is good over each graph of its nodes, and lawful entries leave a good board good, one or more, from any
/// good board on. It does nothing: the laws are its contract.
pub fn boards_stay_good()
    ensures opening { OpeningBoardsAreGood }
    ensures entry { EntriesLeaveGoodBoards }
    ensures entries { HistoriesLeaveGoodBoards }
{}

/// A history raises the version by one for each of its entries. It does nothing: the law is its contract.
pub fn versions_rise()
    ensures { HistoriesRaiseVersions }
{}

/// A vehicle whose schedule changed in a history is named by one of its entries: it was assigned, riders were taken out of its list, or
/// it reached a stop. It does nothing: the law is its contract.
pub fn changed_vehicles_are_named()
    ensures { ChangedVehiclesAreNamed }
{}

/// On each board the answers agree with its other parts, so it is good over each graph over which its fleet is. It does nothing: the
/// law is its contract.
pub fn boards_are_consistent<I: FleetIndex>(board: &Board<I>)
    ensures { IsConsistent (board_of board.now) }
{
    let _nodes = board.nodes;
}

/// On each board a request that waits is found by its number, so no two of them have one, and its places are nodes, its riders and its
/// moment in range. It does nothing: the laws are its contract.
pub fn requests_wait_once<I: FleetIndex>(board: &Board<I>)
    ensures once { AreFoundByNumber (board_of board.now).waiting }
    ensures apart { HaveOwnNumbers (board_of board.now).waiting }
    ensures accepted { AreAccepted (board_of board.now) }
{
    board.waiting.are_found();
}

/// Each answer over a graph of a board's nodes is possible on that board, and the direct way of an assignment is shorter than 2^53, in the
/// units of the roads' weights. It does nothing: the law is its contract.
pub fn answers_are_possible()
    ensures { AnswersArePossible }
{}

/// A removal against which nothing stands is possible with least walks of the joined legs, on a board of the graph's nodes whose fleet is
/// good. It does nothing: the law is its contract.
pub fn removals_are_possible()
    ensures { RemovalsArePossible }
{}

/// A history leaves one board alone, it keeps apart the numbers of the requests that wait, and where it leaves a closed board, that was
/// shut. It does nothing: the laws are its contract.
pub fn histories_leave_one_board()
    ensures one { HistoriesLeaveOneBoard }
    ensures apart { HistoriesKeepNumbersApart }
    ensures shut { ClosedBoardsWereShut }
{}

/// A history whose entries stand with the desks that noted them is a history, it goes on and comes in parts as one, a claim stays until
/// its desk ends it, and who holds a request holds its claim by the desk's own entries. It does nothing: the laws are its contract.
pub fn desks_hold_claims()
    ensures legal { NotedEntriesAreLegal }
    ensures goes_on { NotedHistoriesGoOn }
    ensures parts { NotedHistoriesComeInParts }
    ensures held { ClaimsAreHeld }
    ensures stay { ClaimsStay }
    ensures holders { HoldersHoldClaims }
{}
