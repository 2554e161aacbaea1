ghost use Rattle.std.specs.Prelude.{◌<◌, ◌^◌, IfOk, IsOk, IsTrue, OnOk};
ghost use Rattle.board_core.specs.BoardViews.{board_of};
ghost use Rattle.interleave_core.specs.Worlds.{AreEventsFor, IsEventFor, KeepsSoundness};
ghost use Rattle.commit_cases.specs.Ready.{IsReady};

use crate::cities::{CAR, FOUR, THREE, TWO, line, ride};
use crate::fleets::are_vehicles;
use board_core::{Board, Entry, boards_stay_good};
use insertion_cost::{Decision, PlainPricer};
use interleave_core::{Event, World, run_events};
use road_graph::{Graph, Steps};
use std::alloc::Global;
use std::process::Abort;
use std::test::Fail;
use std::thread::Threads;
use stop_schedule::{FleetView, NoIndex, Params, Vehicle};

/// A world of a fleet before any entry, with the usual parameters.
pub fn opened(
    alloc: Global,
    graph: &Graph,
    fleet: &[Vehicle],
    actors: usize,
) -> Result<World<NoIndex>, Fail>
    ensures { IfOk result (IsReady graph.now actors) }
{
    boards_stay_good();
    let nodes = graph.nodes();
    if !are_vehicles(nodes, fleet) {
        return Err("no fleet".into());
    }
    let board = Board::opening(alloc, nodes, Params::usual(), fleet, NoIndex)?;
    match World::new(alloc, board, actors) {
        Ok(world) => Ok(world),
        Err(_fault) => Err("no memory".into()),
    }
}

/// Whether an event's actor is there, and its moment early enough.
fn is_for(actors: usize, event: &Event) -> bool
    ensures { IsTrue result → IsEventFor actors event.now }
{
    match event {
        Event::Submit(_) | Event::Shut => true,
        Event::Claim(actor) => *actor < actors,
        Event::Price(actor) => *actor < actors,
        Event::Commit(actor) => *actor < actors,
        Event::Back(actor) => *actor < actors,
        Event::Advance(now) => *now <= 1 << 40,
    }
}

/// Whether all events are such.
fn are_for(actors: usize, events: &[Event]) -> bool
    ensures { IsTrue result → AreEventsFor actors events.now }
{
    for event in events {
        if !is_for(actors, event) {
            return false;
        }
    }
    true
}

/// Tests that there is room for the entries of so many events.
fn has_room(world: &World<NoIndex>, events: usize) -> Result<(), Fail>
    ensures few { IsOk result → events < 2 ^ 20 }
    ensures early { IsOk result → (board_of world.now.board).fleet.version < 2 ^ 20 }
{
    if world.board().fleet().version() < 1000 && events < 1000 {
        Ok(())
    } else {
        Err("too many entries".into())
    }
}

/// Plays events for which the memory is enough.
pub fn play(
    alloc: Global,
    graph: &Graph,
    world: &mut World<NoIndex>,
    actors: usize,
    events: &[Event],
    steps: &mut Steps<()>,
) -> Result<(), Fail>
    requires { IsReady graph.now actors world.old }
    ensures ready { IsReady graph.now actors world.new }
    ensures sound { OnOk result (KeepsSoundness graph.now world.old world.new) }
{
    if !are_for(actors, events) {
        return Err("no events for this world".into());
    }
    has_room(world, events.len())?;
    let pricer = PlainPricer::new(graph);
    match run_events(alloc, world, &pricer, events, steps) {
        Ok(()) => Ok(()),
        Err(_stopped) => Err("no memory".into()),
    }
}

/// The number of an answered request and the cost of its answer, as an entry tells them.
fn answer_told(entry: &Entry) -> Option<(u64, u64)> {
    match entry {
        Entry::Commit(no, Decision::Assigned(assigned)) => Some((no.0, assigned.offer.cost)),
        _ => None,
    }
}

/// The number of a claimed request and its desk, as an entry tells them.
fn claim_told(entry: &Entry) -> Option<(u64, u64)> {
    match entry {
        Entry::Claim(no, desk) => Some((no.0, *desk)),
        _ => None,
    }
}

/// Two actors claim and price two requests, and the one who came later commits first.
fn check_turns<R: Threads + Abort>(
    rt: &R,
    alloc: Global,
    graph: &Graph,
    world: &mut World<NoIndex>,
) -> Result<(), Fail>
    requires { IsReady graph.now 2 world.old }
{
    let events = [
        Event::Submit(ride(1, TWO, FOUR)),
        Event::Submit(ride(2, THREE, FOUR)),
        Event::Claim(0),
        Event::Claim(1),
        Event::Price(0),
        Event::Price(1),
        Event::Commit(1),
        Event::Commit(0),
    ];
    play(alloc, graph, world, 2, &events, &mut Steps::start(rt, ()))?;
    let [_, _, first_claim, second_claim, first_answer, second_answer] = world.journal() else {
        return Err("other entries".into());
    };
    assert_eq!(rt; claim_told(first_claim), Some((1, 0)));
    assert_eq!(rt; claim_told(second_claim), Some((2, 1)));
    assert_eq!(rt; answer_told(first_answer), Some((2, 38)));
    assert_eq!(rt; answer_told(second_answer), Some((1, 106)));
    Ok(())
}

#[test]
fn two_actors_commit_in_turn(rt: HostRuntime) -> Result<(), Fail> {
    let graph = line(rt.alloc())?;
    let mut world = opened(rt.alloc(), &graph, &[CAR], 2)?;
    check_turns(&rt, rt.alloc(), &graph, &mut world)
}
