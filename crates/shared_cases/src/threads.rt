ghost use Rattle.std.specs.Prelude.{◌≡◌, IfOk};
ghost use Rattle.std.specs.Thread.{IsSync};
ghost use Rattle.fleet_board.specs.Turns.{IsDeskOf};
ghost use Rattle.shared_cases.specs.Ready.{AreReady};

use crate::boards::{
    NoIndexBoard, PlainBoard, advance, answer, cancel, ended, fold, four_of, shared, submit, two_of,
};
use crate::cities::{BOTH_ENDS, line};
use crate::reading::read;
use board_core::Fleet;
use fleet_board::{BoardDesk, Claim};
use insertion_cost::Pricer;
use ride_base::{NoMemory, RequestNo};
use road_graph::{Graph, NodeNo};
use std::alloc::Global;
use std::process::Abort;
use std::sync::Wait;
use std::test::Fail;
use std::thread::{Threads, join};
use stop_schedule::{NoIndex, Request};

/// A request of this number from one node of the line to the next one, or from the last one to the first.
fn request(number: u64, moment: u64) -> Request {
    let from = (number % 4) as u32 + 1;
    Request {
        no: RequestNo(number),
        pickup: NodeNo(from),
        dropoff: NodeNo(from % 4 + 1),
        moment,
        riders: 1,
        spaces: 0,
    }
}

/// Submits a request, and claims the oldest one, which may be given back.
fn submit_and_claim<R: Threads + Wait + Sync, P: Pricer<Fleet<NoIndex>> + Sync>(
    rt: &R,
    alloc: Global,
    board: &NoIndexBoard<P>,
    desk: &mut BoardDesk,
    number: u64,
    back: bool,
) -> Result<(), NoMemory>
    requires { IsDeskOf (P.graph board.now.pricer) board.now.lock desk.old }
    ensures { IsDeskOf (P.graph board.now.pricer) board.now.lock desk.new }
{
    submit(rt, board, desk, request(number, 0))?;
    match board.claim(rt, alloc, desk)? {
        Claim::Work(claimed) if back => board.give_back(rt, desk, claimed),
        _ => {}
    }
    Ok(())
}

/// Submits requests of every second number and claims as many, of which it gives every third one back.
fn claim_all<R: Threads + Wait + Sync, P: Pricer<Fleet<NoIndex>> + Sync>(
    rt: &R,
    alloc: Global,
    board: &NoIndexBoard<P>,
    mut desk: BoardDesk,
    first: u64,
    count: u64,
) -> Result<BoardDesk, NoMemory>
    requires { IsDeskOf (P.graph board.now.pricer) board.now.lock desk }
    ensures { IfOk result (λ after. IsDeskOf (P.graph board.now.pricer) board.now.lock after) }
{
    for k in 0..count {
        let number = k.wrapping_mul(2).wrapping_add(first);
        submit_and_claim(rt, alloc, board, &mut desk, number, k % 3 == 0)?;
    }
    Ok(desk)
}

/// Two desks submit and claim in two threads.
fn claim_beside<R: Threads + Wait + Sync, P: Pricer<Fleet<NoIndex>> + Sync>(
    rt: &R,
    alloc: Global,
    board: &NoIndexBoard<P>,
    zero: BoardDesk,
    one: BoardDesk,
    count: u64,
) -> Result<(BoardDesk, BoardDesk), NoMemory>
    requires zero { IsDeskOf (P.graph board.now.pricer) board.now.lock zero }
    requires one { IsDeskOf (P.graph board.now.pricer) board.now.lock one }
    ensures zero { IfOk result (λ both.
        IsDeskOf (P.graph board.now.pricer) board.now.lock both.0) }
    ensures one { IfOk result (λ both.
        IsDeskOf (P.graph board.now.pricer) board.now.lock both.1) }
{
    let (zero, one) = join(
        rt,
        || -> Result<BoardDesk, NoMemory>
            requires { IsSync R.row × IsSync P.row
                × IsDeskOf (P.graph board.now.pricer) board.now.lock zero }
            ensures { IfOk result (λ after.
                IsDeskOf (P.graph board.entry.now.pricer) board.entry.now.lock after) }
        { claim_all(rt, alloc, board, zero, 0, count) },
        || -> Result<BoardDesk, NoMemory>
            requires { IsSync R.row × IsSync P.row
                × IsDeskOf (P.graph board.now.pricer) board.now.lock one }
            ensures { IfOk result (λ after.
                IsDeskOf (P.graph board.entry.now.pricer) board.entry.now.lock after) }
        { claim_all(rt, alloc, board, one, 1, count) },
    );
    Ok((zero?, one?))
}

/// The two desks of a board take part, and are folded into one.
fn play_claims<R: Threads + Wait + Abort + Sync>(
    rt: &R,
    alloc: Global,
    board: &PlainBoard<'_>,
    row: Vec<BoardDesk>,
) -> Result<BoardDesk, NoMemory>
    requires { AreReady board.now.pricer.graph.now 2 board.now.lock row.items }
    ensures { IfOk result (λ desk. IsDeskOf board.now.pricer.graph.now board.now.lock desk) }
{
    let (zero, one) = two_of(board, row);
    let (mut zero, one) = claim_beside(rt, alloc, board, zero, one, 100)?;
    assert!(rt; fold(board, &mut zero, one));
    Ok(zero)
}

#[test]
fn two_threads_submit_and_claim_in_one_history(rt: HostRuntime) -> Result<(), Fail> {
    let graph = line(rt.alloc())?;
    let (board, row) = shared(&rt, rt.alloc(), &graph, &BOTH_ENDS, 2)?;
    let desk = play_claims(&rt, rt.alloc(), &board, row)?;
    let noted = ended(board, desk)?;
    assert_eq!(&rt; read(rt.alloc(), &noted)?, Some((200, 0)));
    Ok(())
}

/// Submits a request, answers the oldest one, moves the clock, cancels an earlier number, and answers once more.
fn take_part_once<R: Threads + Wait + Sync, P: Pricer<Fleet<NoIndex>> + Sync>(
    rt: &R,
    alloc: Global,
    graph: &Graph,
    board: &NoIndexBoard<P>,
    desk: &mut BoardDesk,
    number: u64,
    moment: u16,
) -> Result<(), NoMemory>
    requires graph { graph.now ≡ P.graph board.now.pricer }
    requires desk { IsDeskOf (P.graph board.now.pricer) board.now.lock desk.old }
    ensures { IsDeskOf (P.graph board.now.pricer) board.now.lock desk.new }
{
    submit(rt, board, desk, request(number, u64::from(moment)))?;
    answer(rt, alloc, board, desk)?;
    advance(rt, alloc, board, desk, u64::from(moment))?;
    cancel(rt, alloc, graph, board, desk, number / 2)?;
    answer(rt, alloc, board, desk)?;
    Ok(())
}

/// Takes part so many times, with requests of every fourth number whose moments rise by 8.
fn take_part<R: Threads + Wait + Sync, P: Pricer<Fleet<NoIndex>> + Sync>(
    rt: &R,
    alloc: Global,
    graph: &Graph,
    board: &NoIndexBoard<P>,
    mut desk: BoardDesk,
    first: u64,
    count: u16,
) -> Result<BoardDesk, NoMemory>
    requires graph { graph.now ≡ P.graph board.now.pricer }
    requires desk { IsDeskOf (P.graph board.now.pricer) board.now.lock desk }
    ensures { IfOk result (λ after. IsDeskOf (P.graph board.now.pricer) board.now.lock after) }
{
    for k in 0..count {
        let number = u64::from(k).wrapping_mul(4).wrapping_add(first);
        let moment = k.wrapping_mul(8);
        take_part_once(rt, alloc, graph, board, &mut desk, number, moment)?;
    }
    Ok(desk)
}

/// Two desks take part in two threads.
fn take_part_beside<R: Threads + Wait + Sync, P: Pricer<Fleet<NoIndex>> + Sync>(
    rt: &R,
    alloc: Global,
    graph: &Graph,
    board: &NoIndexBoard<P>,
    desks: (BoardDesk, BoardDesk),
    first: u64,
    count: u16,
) -> Result<(BoardDesk, BoardDesk), NoMemory>
    requires graph { graph.now ≡ P.graph board.now.pricer }
    requires zero { IsDeskOf (P.graph board.now.pricer) board.now.lock desks.0 }
    requires one { IsDeskOf (P.graph board.now.pricer) board.now.lock desks.1 }
    ensures zero { IfOk result (λ both.
        IsDeskOf (P.graph board.now.pricer) board.now.lock both.0) }
    ensures one { IfOk result (λ both.
        IsDeskOf (P.graph board.now.pricer) board.now.lock both.1) }
{
    let (zero, one) = desks;
    let second = first.wrapping_add(1);
    let (zero, one) = join(
        rt,
        || -> Result<BoardDesk, NoMemory>
            requires { IsSync R.row × IsSync P.row × (graph.now ≡ P.graph board.now.pricer)
                × IsDeskOf (P.graph board.now.pricer) board.now.lock zero }
            ensures { IfOk result (λ after.
                IsDeskOf (P.graph board.entry.now.pricer) board.entry.now.lock after) }
        { take_part(rt, alloc, graph, board, zero, first, count) },
        || -> Result<BoardDesk, NoMemory>
            requires { IsSync R.row × IsSync P.row × (graph.now ≡ P.graph board.now.pricer)
                × IsDeskOf (P.graph board.now.pricer) board.now.lock one }
            ensures { IfOk result (λ after.
                IsDeskOf (P.graph board.entry.now.pricer) board.entry.now.lock after) }
        { take_part(rt, alloc, graph, board, one, second, count) },
    );
    Ok((zero?, one?))
}

/// Four desks take part in four threads.
fn take_part_all<R: Threads + Wait + Sync, P: Pricer<Fleet<NoIndex>> + Sync>(
    rt: &R,
    alloc: Global,
    graph: &Graph,
    board: &NoIndexBoard<P>,
    front: (BoardDesk, BoardDesk),
    back: (BoardDesk, BoardDesk),
    count: u16,
) -> Result<((BoardDesk, BoardDesk), (BoardDesk, BoardDesk)), NoMemory>
    requires graph { graph.now ≡ P.graph board.now.pricer }
    requires zero { IsDeskOf (P.graph board.now.pricer) board.now.lock front.0 }
    requires one { IsDeskOf (P.graph board.now.pricer) board.now.lock front.1 }
    requires two { IsDeskOf (P.graph board.now.pricer) board.now.lock back.0 }
    requires three { IsDeskOf (P.graph board.now.pricer) board.now.lock back.1 }
    ensures zero { IfOk result (λ all.
        IsDeskOf (P.graph board.now.pricer) board.now.lock all.0.0) }
    ensures one { IfOk result (λ all.
        IsDeskOf (P.graph board.now.pricer) board.now.lock all.0.1) }
    ensures two { IfOk result (λ all.
        IsDeskOf (P.graph board.now.pricer) board.now.lock all.1.0) }
    ensures three { IfOk result (λ all.
        IsDeskOf (P.graph board.now.pricer) board.now.lock all.1.1) }
{
    let (front, back) = join(
        rt,
        || -> Result<(BoardDesk, BoardDesk), NoMemory>
            requires { IsSync R.row × IsSync P.row × (graph.now ≡ P.graph board.now.pricer)
                × IsDeskOf (P.graph board.now.pricer) board.now.lock front.0
                × IsDeskOf (P.graph board.now.pricer) board.now.lock front.1 }
            ensures { IfOk result (λ both.
                IsDeskOf (P.graph board.entry.now.pricer) board.entry.now.lock both.0
                × IsDeskOf (P.graph board.entry.now.pricer) board.entry.now.lock both.1) }
        { take_part_beside(rt, alloc, graph, board, front, 0, count) },
        || -> Result<(BoardDesk, BoardDesk), NoMemory>
            requires { IsSync R.row × IsSync P.row × (graph.now ≡ P.graph board.now.pricer)
                × IsDeskOf (P.graph board.now.pricer) board.now.lock back.0
                × IsDeskOf (P.graph board.now.pricer) board.now.lock back.1 }
            ensures { IfOk result (λ both.
                IsDeskOf (P.graph board.entry.now.pricer) board.entry.now.lock both.0
                × IsDeskOf (P.graph board.entry.now.pricer) board.entry.now.lock both.1) }
        { take_part_beside(rt, alloc, graph, board, back, 2, count) },
    );
    Ok((front?, back?))
}

/// The four desks of a board take part, and are folded into one.
fn play_all<R: Threads + Wait + Abort + Sync>(
    rt: &R,
    alloc: Global,
    graph: &Graph,
    board: &PlainBoard<'_>,
    row: Vec<BoardDesk>,
) -> Result<BoardDesk, NoMemory>
    requires graph { graph.now ≡ board.now.pricer.graph.now }
    requires row { AreReady board.now.pricer.graph.now 4 board.now.lock row.items }
    ensures { IfOk result (λ desk. IsDeskOf board.now.pricer.graph.now board.now.lock desk) }
{
    let (zero, one, two, three) = four_of(board, row);
    let all = take_part_all(rt, alloc, graph, board, (zero, one), (two, three), 100)?;
    let ((mut zero, one), (two, three)) = all;
    let one_joined = fold(board, &mut zero, one);
    let two_joined = fold(board, &mut zero, two);
    let three_joined = fold(board, &mut zero, three);
    assert!(rt; one_joined && two_joined && three_joined);
    Ok(zero)
}

#[test]
fn four_threads_take_part_in_one_history(rt: HostRuntime) -> Result<(), Fail> {
    let graph = line(rt.alloc())?;
    let (board, row) = shared(&rt, rt.alloc(), &graph, &BOTH_ENDS, 4)?;
    let desk = play_all(&rt, rt.alloc(), &graph, &board, row)?;
    let noted = ended(board, desk)?;
    let (accepted, answered) = read(rt.alloc(), &noted)?.ok_or("unlawful")?;
    assert!(&rt; 100 <= accepted && answered == accepted);
    Ok(())
}
