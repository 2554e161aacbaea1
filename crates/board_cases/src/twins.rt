ghost use Rattle.std.specs.Prelude.{◌≡◌, IfOk, OnOk};
ghost use Rattle.board_core.specs.BoardViews.{board_of};
ghost use Rattle.board_cases.specs.Playing.{IsPlayed};

use crate::boards::{apply, cancel, decide, has_room, opened, wait};
use board_core::{Board, Cancelled, fleets_stay_good, removals_are_possible};
use ride_base::RequestNo;
use road_graph::{Graph, Steps};
use std::alloc::Global;
use std::test::Fail;
use stop_removal::Removal;
use stop_schedule::{NoIndex, Request, Vehicle};

/// Two boards of one fleet before any entry.
pub fn opened_twice(
    alloc: Global,
    graph: &Graph,
    fleet: &[Vehicle],
) -> Result<(Board<NoIndex>, Board<NoIndex>), Fail>
    ensures played { IfOk result (λ both. IsPlayed graph.now (board_of both.0)) }
    ensures alike { IfOk result (λ both. board_of both.1 ≡ board_of both.0) }
{
    let one = opened(alloc, graph, fleet)?;
    let other = opened(alloc, graph, fleet)?;
    Ok((one, other))
}

/// Submits a request to two boards that are alike, and gives it one answer on both.
pub fn answer_twice(
    alloc: Global,
    graph: &Graph,
    one: &mut Board<NoIndex>,
    other: &mut Board<NoIndex>,
    request: &Request,
    steps: &mut Steps<()>,
) -> Result<(), Fail>
    requires played { IsPlayed graph.now (board_of one.old) }
    requires alike { board_of other.old ≡ board_of one.old }
    ensures played { OnOk result (IsPlayed graph.now (board_of one.new)) }
    ensures alike { OnOk result (board_of other.new ≡ board_of one.new) }
{
    wait(graph, one, request)?;
    wait(graph, other, request)?;
    let (decision, direct) = decide(alloc, graph, one, request, steps)?;
    let same = decision.share(alloc)?;
    apply(alloc, graph, one, request, decision, direct, steps)?;
    apply(alloc, graph, other, request, same, direct, steps)
}

/// Takes the riders of a number off a board, and with the same removal off another one that is alike.
pub fn cancel_twice(
    alloc: Global,
    graph: &Graph,
    one: &mut Board<NoIndex>,
    other: &mut Board<NoIndex>,
    no: RequestNo,
    steps: &mut Steps<()>,
) -> Result<Removal, Fail>
    requires played { IsPlayed graph.now (board_of one.old) }
    requires alike { board_of other.old ≡ board_of one.old }
    ensures { OnOk result (IsPlayed graph.now (board_of one.new)) }
{
    fleets_stay_good();
    removals_are_possible();
    let Cancelled::Removed(removal) = cancel(alloc, graph, one, no, steps)? else {
        return Err("refused".into());
    };
    let same = removal.share(alloc)?;
    has_room(other)?;
    match other.apply_removal(alloc, no, same, steps) {
        Ok(()) => Ok(removal),
        Err(_) => Err("no memory".into()),
    }
}
