ghost use Rattle.std.specs.Prelude.{◌≡◌, ◌≤◌, IfOk};
ghost use Rattle.stop_schedule.specs.Limits.{latest_moment};
ghost use Rattle.fleet_board.specs.Turns.{IsDeskOf};
ghost use Rattle.shared_cases.specs.Ready.{AreReady};

use crate::boards::{
    PlainBoard, advance, answer, cancel, ended, fold, shared, submit, three_of, two_of,
};
use crate::cities::{BOTH_ENDS, CAR, FOUR, ONE, THREE, TWO, line, ride};
use board_core::{Advanced, Cancelled, Entry, Fleet, Submitted};
use fleet_board::{BoardDesk, Claim, Noted, UnjoinedBoard};
use insertion_cost::{Decision, Pricer};
use ride_base::NoMemory;
use road_graph::{Graph, NodeNo, Steps};
use std::alloc::{AllocError, Global};
use std::process::Abort;
use std::sync::Wait;
use std::test::Fail;
use std::thread::Threads;
use stop_schedule::{FleetView, NoIndex};

/// The vehicle, the cost, and when the pickup is left and the dropoff is reached.
fn told(decision: &Decision) -> Option<(u32, u64, u64, u64)> {
    match decision {
        Decision::Assigned(assigned) => {
            let offer = &assigned.offer;
            Some((offer.no.0, offer.cost, offer.leave, offer.arrive))
        }
        Decision::Nobody => None,
    }
}

/// Desk 0 claims and prices at the clock 0, desk 1 moves the clock to 50, and desk 0 commits.
fn commit_later<R: Threads + Wait + Sync>(
    rt: &R,
    alloc: Global,
    board: &PlainBoard<'_>,
    desk: &mut BoardDesk,
    other: &mut BoardDesk,
) -> Result<Option<(u32, u64, u64, u64)>, NoMemory>
    requires desk { IsDeskOf board.now.pricer.graph.now board.now.lock desk.old }
    requires other { IsDeskOf board.now.pricer.graph.now board.now.lock other.old }
{
    let Claim::Work(claimed) = board.claim(rt, alloc, desk)? else {
        return Ok(None);
    };
    let mut steps = Steps::start(rt, ());
    let priced = board
        .pricer()
        .price(alloc, &claimed.snapshot, &claimed.request, &mut steps);
    let moved = advance(rt, alloc, board, other, 50);
    let answer = board.commit(rt, alloc, desk, claimed, priced?, &mut steps);
    moved?;
    match answer {
        Ok(decision) => Ok(told(&decision)),
        Err(_undecided) => Err(AllocError),
    }
}

/// A request that was priced before the clock moved.
fn check_later<R: Threads + Wait + Abort + Sync>(
    rt: &R,
    alloc: Global,
    board: &PlainBoard<'_>,
    row: Vec<BoardDesk>,
) -> Result<(), Fail>
    requires { AreReady board.now.pricer.graph.now 2 board.now.lock row.items }
{
    let (mut zero, mut one) = two_of(board, row);
    let submitted = submit(rt, board, &mut one, ride(9, TWO, THREE));
    let answer = commit_later(rt, alloc, board, &mut zero, &mut one);
    assert_eq!(rt; submitted?, Submitted::Accepted);
    assert_eq!(rt; answer?, Some((1, 108, 62, 72)));
    Ok(())
}

#[test]
fn a_commit_settles_what_was_priced_before_the_clock_moved(rt: HostRuntime) -> Result<(), Fail> {
    let graph = line(rt.alloc())?;
    let (board, row) = shared(&rt, rt.alloc(), &graph, &BOTH_ENDS, 2)?;
    check_later(&rt, rt.alloc(), &board, row)
}

/// The number of the request that a desk claims, and the answer that it gives.
fn answered<R: Threads + Wait + Sync>(
    rt: &R,
    alloc: Global,
    board: &PlainBoard<'_>,
    desk: &mut BoardDesk,
) -> Result<Option<(u64, Option<(u32, u64, u64, u64)>)>, NoMemory>
    requires { IsDeskOf board.now.pricer.graph.now board.now.lock desk.old }
    ensures { IsDeskOf board.now.pricer.graph.now board.now.lock desk.new }
{
    match answer(rt, alloc, board, desk)? {
        Some((request, decision)) => Ok(Some((request.no.0, told(&decision)))),
        None => Ok(None),
    }
}

/// Rider 1 cancels, whose stops are the first and the fourth of the vehicle, and one leg is joined.
fn check_removal<R: Threads + Wait + Abort + Sync>(
    rt: &R,
    alloc: Global,
    graph: &Graph,
    board: &PlainBoard<'_>,
    desk: &mut BoardDesk,
) -> Result<(), Fail>
    requires graph { graph.now ≡ board.now.pricer.graph.now }
    requires desk { IsDeskOf board.now.pricer.graph.now board.now.lock desk.old }
{
    let Cancelled::Removed(removal) = cancel(rt, alloc, graph, board, desk, 1)? else {
        return Err("refused".into());
    };
    assert_eq!(rt; (removal.no.0, removal.pickup, removal.dropoff), (1, 1, 4));
    let [joined] = removal.walks.as_slice() else {
        return Err("one leg is joined".into());
    };
    assert_eq!(rt; joined.nodes(), [ONE, TWO, THREE].as_slice());
    Ok(())
}

/// Two riders are given the vehicle, and the first one cancels.
fn check_cancel<R: Threads + Wait + Abort + Sync>(
    rt: &R,
    alloc: Global,
    graph: &Graph,
    board: &PlainBoard<'_>,
    desk: &mut BoardDesk,
) -> Result<(), Fail>
    requires graph { graph.now ≡ board.now.pricer.graph.now }
    requires desk { IsDeskOf board.now.pricer.graph.now board.now.lock desk.old }
{
    submit(rt, board, desk, ride(1, TWO, FOUR))?;
    answer(rt, alloc, board, desk)?;
    submit(rt, board, desk, ride(2, THREE, FOUR))?;
    let second = answered(rt, alloc, board, desk)?;
    assert_eq!(rt; second, Some((2, Some((1, 10, 24, 34)))));
    check_removal(rt, alloc, graph, board, desk)
}

#[test]
fn the_first_of_two_riders_cancels(rt: HostRuntime) -> Result<(), Fail> {
    let graph = line(rt.alloc())?;
    let (board, row) = shared(&rt, rt.alloc(), &graph, &[CAR], 2)?;
    let (mut zero, _one) = two_of(&board, row);
    check_cancel(&rt, rt.alloc(), &graph, &board, &mut zero)
}

/// The version and the clock of a fleet of one vehicle with two stops, and their nodes.
fn shown(fleet: &Fleet<NoIndex>) -> Option<(u64, u64, NodeNo, NodeNo)> {
    if fleet.count() != 1 {
        return None;
    }
    let [pickup, dropoff] = fleet.schedule(0).stops() else {
        return None;
    };
    Some((fleet.version(), fleet.clock(), pickup.node, dropoff.node))
}

/// What a desk sees of the fleet.
fn looked<R: Threads + Wait + Sync>(
    rt: &R,
    alloc: Global,
    board: &PlainBoard<'_>,
    desk: &mut BoardDesk,
) -> Result<Option<(u64, u64, NodeNo, NodeNo)>, NoMemory>
    requires { IsDeskOf board.now.pricer.graph.now board.now.lock desk.old }
    ensures { IsDeskOf board.now.pricer.graph.now board.now.lock desk.new }
{
    let fleet = board.look(rt, alloc, desk)?;
    Ok(shown(&fleet))
}

/// Whether the clock moves.
fn moves<R: Threads + Wait + Sync>(
    rt: &R,
    alloc: Global,
    board: &PlainBoard<'_>,
    desk: &mut BoardDesk,
    now: u64,
) -> Result<bool, NoMemory>
    requires desk { IsDeskOf board.now.pricer.graph.now board.now.lock desk.old }
    requires moment { now ≤ latest_moment }
    ensures { IsDeskOf board.now.pricer.graph.now board.now.lock desk.new }
{
    let moved = advance(rt, alloc, board, desk, now)?;
    Ok(matches!(moved, Advanced::Moved(_)))
}

/// The number of the request that a desk claims, and then gives back or not; or where it can claim none, whether the board is closed.
fn claim_number<R: Threads + Wait + Sync>(
    rt: &R,
    alloc: Global,
    board: &PlainBoard<'_>,
    desk: &mut BoardDesk,
    back: bool,
) -> Result<(Option<u64>, bool), NoMemory>
    requires { IsDeskOf board.now.pricer.graph.now board.now.lock desk.old }
    ensures { IsDeskOf board.now.pricer.graph.now board.now.lock desk.new }
{
    match board.claim(rt, alloc, desk)? {
        Claim::Empty { closed } => Ok((None, closed)),
        Claim::Work(claimed) => {
            let no = claimed.request.no.0;
            if back {
                board.give_back(rt, desk, claimed);
            }
            Ok((Some(no), false))
        }
    }
}

/// A desk answers a request, moves the clock and closes the board.
fn check_day<R: Threads + Wait + Abort + Sync>(
    rt: &R,
    alloc: Global,
    board: &PlainBoard<'_>,
    desk: &mut BoardDesk,
) -> Result<(), Fail>
    requires { IsDeskOf board.now.pricer.graph.now board.now.lock desk.old }
    ensures { IsDeskOf board.now.pricer.graph.now board.now.lock desk.new }
{
    assert_eq!(rt;
        submit(rt, board, desk, ride(1, TWO, FOUR))?,
        Submitted::Accepted
    );
    let answer = answered(rt, alloc, board, desk)?;
    assert_eq!(rt; answer, Some((1, Some((1, 34, 12, 32)))));
    assert_eq!(rt; claim_number(rt, alloc, board, desk, false)?, (None, false));
    assert_eq!(rt; looked(rt, alloc, board, desk)?, Some((3, 0, TWO, FOUR)));
    assert!(rt; moves(rt, alloc, board, desk, 5)?);
    board.shut(rt, desk);
    board.shut(rt, desk);
    assert_eq!(rt; claim_number(rt, alloc, board, desk, false)?, (None, true));
    Ok(())
}

/// A day of desk 0, into which desk 1 is folded then.
fn play_day<R: Threads + Wait + Abort + Sync>(
    rt: &R,
    alloc: Global,
    board: &PlainBoard<'_>,
    row: Vec<BoardDesk>,
) -> Result<BoardDesk, Fail>
    requires { AreReady board.now.pricer.graph.now 2 board.now.lock row.items }
    ensures { IfOk result (λ desk. IsDeskOf board.now.pricer.graph.now board.now.lock desk) }
{
    let (mut zero, one) = two_of(board, row);
    let checked = check_day(rt, alloc, board, &mut zero);
    let joined = fold(board, &mut zero, one);
    checked?;
    assert!(rt; joined);
    Ok(zero)
}

/// What the entry is of.
fn kind(entry: &Entry) -> &'static str {
    match entry {
        Entry::Submit(_, _) => "submit",
        Entry::Claim(_, _) => "claim",
        Entry::Back(_) => "back",
        Entry::Commit(_, _) => "commit",
        Entry::Advance(_, _) => "advance",
        Entry::Cancel(_, _) => "cancel",
        Entry::Shut => "shut",
    }
}

/// Whether entries are of these kinds, each by its desk.
fn are_of(noted: &[Noted], kinds: &[(u64, &str)]) -> bool {
    if noted.len() != kinds.len() {
        return false;
    }
    for (one, (desk, of)) in noted.iter().zip(kinds) {
        if one.desk != *desk || kind(&one.entry) != *of {
            return false;
        }
    }
    true
}

const DAY: &[(u64, &str)] = &[
    (0, "submit"),
    (0, "claim"),
    (0, "commit"),
    (0, "advance"),
    (0, "shut"),
];

#[test]
fn a_desk_sees_a_whole_day(rt: HostRuntime) -> Result<(), Fail> {
    let graph = line(rt.alloc())?;
    let (board, row) = shared(&rt, rt.alloc(), &graph, &[CAR], 2)?;
    let desk = play_day(&rt, rt.alloc(), &board, row)?;
    let noted = ended(board, desk)?;
    assert!(&rt; are_of(&noted, DAY));
    Ok(())
}

/// Ends a board of which one desk isn't in the family, and then with that desk. It tells how many entries and desks there were, and
/// how many desks were in the family.
fn end_twice<'g>(
    board: PlainBoard<'g>,
    desk: BoardDesk,
    other: BoardDesk,
) -> Result<(usize, u64, u64), Fail>
    requires desk { IsDeskOf board.pricer.graph.now board.lock desk }
    requires other { IsDeskOf board.pricer.graph.now board.lock other }
{
    let Err(unjoined) = board.finish(desk) else {
        return Err("a desk was not joined".into());
    };
    let UnjoinedBoard {
        board,
        mut desk,
        made,
        family,
    } = unjoined;
    if !fold(&board, &mut desk, other) {
        return Err("the desk is the next one".into());
    }
    let noted = ended(board, desk)?;
    Ok((noted.len(), made, family))
}

#[test]
fn a_board_ends_where_all_desks_are_joined(rt: HostRuntime) -> Result<(), Fail> {
    let graph = line(rt.alloc())?;
    let (board, row) = shared(&rt, rt.alloc(), &graph, &[CAR], 3)?;
    let (mut zero, one, two) = three_of(&board, row);
    assert!(&rt; fold(&board, &mut zero, one));
    assert_eq!(&rt; end_twice(board, zero, two)?, (0, 3, 2));
    Ok(())
}

/// Desk 0 gives its first claim back, and desk 1 gets it before a younger one.
fn check_back<R: Threads + Wait + Abort + Sync>(
    rt: &R,
    alloc: Global,
    board: &PlainBoard<'_>,
    desk: &mut BoardDesk,
    other: &mut BoardDesk,
) -> Result<(), Fail>
    requires desk { IsDeskOf board.now.pricer.graph.now board.now.lock desk.old }
    requires other { IsDeskOf board.now.pricer.graph.now board.now.lock other.old }
    ensures desk { IsDeskOf board.now.pricer.graph.now board.now.lock desk.new }
    ensures other { IsDeskOf board.now.pricer.graph.now board.now.lock other.new }
{
    submit(rt, board, desk, ride(5, TWO, FOUR))?;
    submit(rt, board, other, ride(3, TWO, FOUR))?;
    assert_eq!(rt;
        claim_number(rt, alloc, board, desk, true)?,
        (Some(5), false)
    );
    assert_eq!(rt;
        claim_number(rt, alloc, board, other, false)?,
        (Some(5), false)
    );
    assert_eq!(rt;
        claim_number(rt, alloc, board, desk, false)?,
        (Some(3), false)
    );
    Ok(())
}

/// Both desks claim, and are folded into one.
fn play_back<R: Threads + Wait + Abort + Sync>(
    rt: &R,
    alloc: Global,
    board: &PlainBoard<'_>,
    row: Vec<BoardDesk>,
) -> Result<BoardDesk, Fail>
    requires { AreReady board.now.pricer.graph.now 2 board.now.lock row.items }
    ensures { IfOk result (λ desk. IsDeskOf board.now.pricer.graph.now board.now.lock desk) }
{
    let (mut zero, mut one) = two_of(board, row);
    let checked = check_back(rt, alloc, board, &mut zero, &mut one);
    let joined = fold(board, &mut zero, one);
    checked?;
    assert!(rt; joined);
    Ok(zero)
}

const BACK: &[(u64, &str)] = &[
    (0, "submit"),
    (1, "submit"),
    (0, "claim"),
    (0, "back"),
    (1, "claim"),
    (0, "claim"),
];

#[test]
fn a_claim_that_is_given_back_keeps_its_place(rt: HostRuntime) -> Result<(), Fail> {
    let graph = line(rt.alloc())?;
    let (board, row) = shared(&rt, rt.alloc(), &graph, &[CAR], 2)?;
    let desk = play_back(&rt, rt.alloc(), &board, row)?;
    let noted = ended(board, desk)?;
    assert!(&rt; are_of(&noted, BACK));
    Ok(())
}
