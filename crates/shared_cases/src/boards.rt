ghost use Rattle.std.specs.Prelude.{◌≡◌, ◌+◌, ◌<◌, ◌≤◌, IfOk, IfSome, IsOk, OnOk};
ghost use Rattle.stop_schedule.specs.Limits.{latest_moment};
ghost use Rattle.turn_lock.specs.Desks.{fresh_desks};
ghost use Rattle.fleet_board.specs.Turns.{IsDeskOf};
ghost use Rattle.shared_cases.specs.Ready.{AreReady};

use crate::fleets::are_vehicles;
use crate::walkers::GraphWalker;
use board_core::{Advanced, Board, Cancelled, Fleet, Submitted, boards_stay_good};
use fleet_board::{BoardDesk, Claim, FleetBoard, Noted};
use insertion_cost::{Candidates, Decision, PlainPricer, Pricer};
use ride_base::{NoMemory, RequestNo};
use road_graph::{Graph, Steps};
use std::alloc::{AllocError, Global};
use std::sync::Wait;
use std::test::Fail;
use std::thread::Threads;
use stop_schedule::{NoIndex, Params, Request, Vehicle};

pub type NoIndexBoard<P> = FleetBoard<NoIndex, P>;

pub type PlainBoard<'g> = NoIndexBoard<PlainPricer<'g>>;

/// A shared board of a fleet before any entry, with the usual parameters.
pub fn shared<'g, R: Threads + Sync>(
    rt: &R,
    alloc: Global,
    graph: &'g Graph,
    fleet: &[Vehicle],
    desks: u32,
) -> Result<(PlainBoard<'g>, Vec<BoardDesk>), Fail>
    requires { (0 < desks) × (desks ≤ 65536) }
    ensures ready { IfOk result
        (λ made. AreReady graph.now desks made.0.lock made.1.items) }
    ensures graph { IfOk result (λ made. made.0.pricer.graph.now ≡ graph.now) }
{
    boards_stay_good();
    let nodes = graph.nodes();
    if !are_vehicles(nodes, fleet) {
        return Err("no fleet".into());
    }
    let board = Board::opening(alloc, nodes, Params::usual(), fleet, NoIndex)?;
    match FleetBoard::new(rt, alloc, board, PlainPricer::new(graph), desks) {
        Ok(made) => Ok(made),
        Err(_fault) => Err("no memory".into()),
    }
}

/// Folds the other desk into the first, where its number is the next one.
pub fn fold(board: &PlainBoard<'_>, desk: &mut BoardDesk, other: BoardDesk) -> bool
    requires desk { IsDeskOf board.now.pricer.graph.now board.now.lock desk.old }
    requires other { IsDeskOf board.now.pricer.graph.now board.now.lock other }
    ensures { IsDeskOf board.now.pricer.graph.now board.now.lock desk.new }
{
    if desk.number().checked_add(desk.family()) != Some(other.number()) {
        return false;
    }
    board.join(desk, other);
    true
}

/// Ends a board by the desk into which all others were folded, and gives what was noted.
pub fn ended<'g>(board: PlainBoard<'g>, desk: BoardDesk) -> Result<Vec<Noted>, Fail>
    requires { IsDeskOf board.pricer.graph.now board.lock desk }
{
    match board.finish(desk) {
        Ok((_board, noted)) => Ok(noted),
        Err(_unjoined) => Err("all desks are joined".into()),
    }
}

/// The two desks of a new board.
pub fn two_of(board: &PlainBoard<'_>, mut row: Vec<BoardDesk>) -> (BoardDesk, BoardDesk)
    requires { AreReady board.now.pricer.graph.now 2 board.now.lock row.items }
    ensures zero { IsDeskOf board.now.pricer.graph.now board.now.lock result.0 }
    ensures one { IsDeskOf board.now.pricer.graph.now board.now.lock result.1 }
{
    let zero = row.remove(0);
    let one = row.remove(0);
    (zero, one)
}

/// The three desks of a new board.
pub fn three_of(
    board: &PlainBoard<'_>,
    mut row: Vec<BoardDesk>,
) -> (BoardDesk, BoardDesk, BoardDesk)
    requires { AreReady board.now.pricer.graph.now 3 board.now.lock row.items }
    ensures zero { IsDeskOf board.now.pricer.graph.now board.now.lock result.0 }
    ensures one { IsDeskOf board.now.pricer.graph.now board.now.lock result.1 }
    ensures two { IsDeskOf board.now.pricer.graph.now board.now.lock result.2 }
{
    let zero = row.remove(0);
    let one = row.remove(0);
    let two = row.remove(0);
    (zero, one, two)
}

/// The four desks of a new board.
pub fn four_of(
    board: &PlainBoard<'_>,
    mut row: Vec<BoardDesk>,
) -> (BoardDesk, BoardDesk, BoardDesk, BoardDesk)
    requires { AreReady board.now.pricer.graph.now 4 board.now.lock row.items }
    ensures zero { IsDeskOf board.now.pricer.graph.now board.now.lock result.0 }
    ensures one { IsDeskOf board.now.pricer.graph.now board.now.lock result.1 }
    ensures two { IsDeskOf board.now.pricer.graph.now board.now.lock result.2 }
    ensures three { IsDeskOf board.now.pricer.graph.now board.now.lock result.3 }
{
    let zero = row.remove(0);
    let one = row.remove(0);
    let two = row.remove(0);
    let three = row.remove(0);
    (zero, one, two, three)
}

/// Submits a request.
pub fn submit<R: Wait + Sync, P: Pricer<Fleet<NoIndex>>>(
    rt: &R,
    board: &NoIndexBoard<P>,
    desk: &mut BoardDesk,
    request: Request,
) -> Result<Submitted, NoMemory>
    requires { IsDeskOf (P.graph board.now.pricer) board.now.lock desk.old }
    ensures { IsDeskOf (P.graph board.now.pricer) board.now.lock desk.new }
{
    board.submit(rt, desk, request)
}

/// Moves the clock.
pub fn advance<R: Wait + Threads + Sync, P: Pricer<Fleet<NoIndex>>>(
    rt: &R,
    alloc: Global,
    board: &NoIndexBoard<P>,
    desk: &mut BoardDesk,
    now: u64,
) -> Result<Advanced, NoMemory>
    requires desk { IsDeskOf (P.graph board.now.pricer) board.now.lock desk.old }
    requires moment { now ≤ latest_moment }
    ensures { IsDeskOf (P.graph board.now.pricer) board.now.lock desk.new }
{
    let mut steps = Steps::start(rt, ());
    board.advance(rt, alloc, desk, now, &mut steps)
}

/// Cancels.
pub fn cancel<R: Wait + Threads + Sync, P: Pricer<Fleet<NoIndex>>>(
    rt: &R,
    alloc: Global,
    graph: &Graph,
    board: &NoIndexBoard<P>,
    desk: &mut BoardDesk,
    no: u64,
) -> Result<Cancelled, NoMemory>
    requires graph { graph.now ≡ P.graph board.now.pricer }
    requires desk { IsDeskOf (P.graph board.now.pricer) board.now.lock desk.old }
    ensures { IsDeskOf (P.graph board.now.pricer) board.now.lock desk.new }
{
    let mut steps = Steps::start(rt, ());
    let walker = GraphWalker::new(graph);
    board.cancel(rt, alloc, desk, RequestNo(no), &walker, &mut steps)
}

/// Claims a request, prices it and commits. None where no request could be claimed.
pub fn answer<R: Wait + Threads + Sync, P: Pricer<Fleet<NoIndex>>>(
    rt: &R,
    alloc: Global,
    board: &NoIndexBoard<P>,
    desk: &mut BoardDesk,
) -> Result<Option<(Request, Decision)>, NoMemory>
    requires { IsDeskOf (P.graph board.now.pricer) board.now.lock desk.old }
    ensures { IsDeskOf (P.graph board.now.pricer) board.now.lock desk.new }
{
    match board.claim(rt, alloc, desk)? {
        Claim::Empty { closed: _ } => Ok(None),
        Claim::Work(claimed) => {
            let request = claimed.request;
            let mut steps = Steps::start(rt, ());
            let priced = board
                .pricer()
                .price(alloc, &claimed.snapshot, &request, &mut steps);
            let Ok(candidates) = priced else {
                board.give_back(rt, desk, claimed);
                return Err(AllocError);
            };
            match board.commit(rt, alloc, desk, claimed, candidates, &mut steps) {
                Ok(decision) => Ok(Some((request, decision))),
                Err(_undecided) => Err(AllocError),
            }
        }
    }
}
