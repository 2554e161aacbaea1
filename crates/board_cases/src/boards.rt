ghost use Rattle.std.specs.Prelude.{◌≡◌, ◌<◌, ◌≤◌, ◌^◌, Some, IfOk, IsOk, OnOk};
ghost use Rattle.stop_schedule.specs.Fleets.{IsGoodFleet};
ghost use Rattle.stop_schedule.specs.Limits.{latest_moment};
ghost use Rattle.stop_schedule.specs.Rates.{usual};
ghost use Rattle.insertion_cost.specs.Pricers.{IsAnswerOf, IsRequestIn};
ghost use Rattle.board_core.specs.BoardViews.{board_of};
ghost use Rattle.board_core.specs.BoardCalls.{Applies};
ghost use Rattle.board_core.specs.Boards.{as_waiting, opening_board, waiting_of};
ghost use Rattle.board_core.specs.FleetViews.{cars_of};
ghost use Rattle.board_core.specs.Steps.{Step};
ghost use Rattle.board_core.specs.declared.entry.Entry.TheVariants as entry;
ghost use Rattle.board_core.specs.declared.entry.Submitted.{Submitted};
ghost use Rattle.board_core.specs.declared.entry.Submitted.TheVariants.{Accepted};
ghost use Rattle.board_cases.specs.Playing.{IsPlayed};

use crate::fleets::are_vehicles;
use crate::walkers::GraphWalker;
use board_core::{
    Advanced, Board, Cancelled, Fleet, Submitted, answers_are_possible, fleets_stay_good,
};
use insertion_cost::{Decision, PlainPricer};
use ride_base::{NoMemory, RequestNo};
use road_graph::{Graph, Steps};
use std::alloc::Global;
use std::test::Fail;
use stop_schedule::{FleetView, NoIndex, Params, Request, Vehicle};

/// The board of a fleet before any entry, with the usual parameters.
pub fn opened(alloc: Global, graph: &Graph, fleet: &[Vehicle]) -> Result<Board<NoIndex>, Fail>
    ensures played { IfOk result (λ b. IsPlayed graph.now (board_of b)) }
    ensures value { IfOk result
        (λ b. board_of b ≡ opening_board graph.now.nodes usual fleet.now) }
{
    let nodes = graph.nodes();
    if !are_vehicles(nodes, fleet) {
        return Err("no fleet".into());
    }
    Ok(Board::opening(alloc, nodes, Params::usual(), fleet, NoIndex)?)
}

/// Tests that there is room for more entries.
pub fn has_room(board: &Board<NoIndex>) -> Result<(), Fail>
    ensures { IsOk result → (board_of board.now).fleet.version < 2 ^ 20 }
{
    if board.fleet().version() < 1000 {
        Ok(())
    } else {
        Err("too many entries".into())
    }
}

/// Submits a request that has to be accepted.
pub fn wait(graph: &Graph, board: &mut Board<NoIndex>, request: &Request) -> Result<(), Fail>
    requires { IsPlayed graph.now (board_of board.old) }
    ensures played { OnOk result (IsPlayed graph.now (board_of board.new)) }
    ensures entry { OnOk result (Step graph.now (board_of board.old)
        (entry.Submit request.now Accepted) (board_of board.new)) }
    ensures waits { OnOk result
        (waiting_of (board_of board.new) request.now.no ≡ Some (as_waiting request.now)) }
    ensures priced { OnOk result (IsRequestIn graph.now request.now) }
{
    has_room(board)?;
    let submitted = board.submit(*request)?;
    match submitted {
        Submitted::Accepted => Ok(()),
        Submitted::Refused(_) => Err("refused".into()),
    }
}

/// The answer of a fleet to a request, and the length of the direct way.
fn plan(
    alloc: Global,
    graph: &Graph,
    fleet: &Fleet<NoIndex>,
    request: &Request,
    steps: &mut Steps<()>,
) -> Result<(Decision, u64), NoMemory>
    requires good { IsGoodFleet graph.now (cars_of fleet.now) }
    requires request { IsRequestIn graph.now request.now }
    ensures { IfOk result
        (λ both. IsAnswerOf graph.now (cars_of fleet.now) request.now both.0 both.1) }
{
    PlainPricer::new(graph).answer(alloc, fleet, request, steps)
}

/// The answer of a board's fleet to a request that waits, and the length of the direct way.
pub fn decide(
    alloc: Global,
    graph: &Graph,
    board: &Board<NoIndex>,
    request: &Request,
    steps: &mut Steps<()>,
) -> Result<(Decision, u64), Fail>
    requires played { IsPlayed graph.now (board_of board.now) }
    requires priced { IsRequestIn graph.now request.now }
    ensures { IfOk result (λ both. IsAnswerOf graph.now
        (board_of board.now).fleet request.now both.0 both.1) }
{
    fleets_stay_good();
    let both = plan(alloc, graph, board.fleet(), request, steps)?;
    Ok(both)
}

/// Gives a request that waits its answer.
pub fn apply(
    alloc: Global,
    graph: &Graph,
    board: &mut Board<NoIndex>,
    request: &Request,
    decision: Decision,
    direct: u64,
    steps: &mut Steps<()>,
) -> Result<(), Fail>
    requires played { IsPlayed graph.now (board_of board.old) }
    requires waits { waiting_of (board_of board.old) request.now.no
        ≡ Some (as_waiting request.now) }
    requires answer { IsAnswerOf graph.now
        (board_of board.old).fleet request.now decision direct }
    ensures played { OnOk result (IsPlayed graph.now (board_of board.new)) }
    ensures value { OnOk result
        (Applies (board_of board.old) request.now.no decision direct (board_of board.new)) }
{
    answers_are_possible();
    has_room(board)?;
    match board.apply(alloc, request.no, decision, direct, steps) {
        Ok(()) => Ok(()),
        Err(_) => Err("no memory".into()),
    }
}

/// Submits a request and gives it its answer.
pub fn answer(
    alloc: Global,
    graph: &Graph,
    board: &mut Board<NoIndex>,
    request: &Request,
    steps: &mut Steps<()>,
) -> Result<(), Fail>
    requires { IsPlayed graph.now (board_of board.old) }
    ensures { OnOk result (IsPlayed graph.now (board_of board.new)) }
{
    wait(graph, board, request)?;
    let (decision, direct) = decide(alloc, graph, board, request, steps)?;
    apply(alloc, graph, board, request, decision, direct, steps)
}

/// Moves the clock.
pub fn advance(
    alloc: Global,
    graph: &Graph,
    board: &mut Board<NoIndex>,
    now: u64,
    steps: &mut Steps<()>,
) -> Result<Advanced, Fail>
    requires played { IsPlayed graph.now (board_of board.old) }
    requires moment { now ≤ latest_moment }
    ensures { OnOk result (IsPlayed graph.now (board_of board.new)) }
{
    has_room(board)?;
    Ok(board.advance(alloc, now, steps)?)
}

/// Takes the riders of a number off the board, or says why not.
pub fn cancel(
    alloc: Global,
    graph: &Graph,
    board: &mut Board<NoIndex>,
    no: RequestNo,
    steps: &mut Steps<()>,
) -> Result<Cancelled, Fail>
    requires { IsPlayed graph.now (board_of board.old) }
    ensures played { OnOk result (IsPlayed graph.now (board_of board.new)) }
    ensures entry { IfOk result (λ cancelled. Step graph.now (board_of board.old)
        (entry.Cancel no cancelled) (board_of board.new)) }
{
    fleets_stay_good();
    has_room(board)?;
    let walker = GraphWalker::new(graph);
    Ok(board.cancel(alloc, no, &walker, steps)?)
}
