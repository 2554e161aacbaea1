ghost use Rattle.std.specs.Prelude.{◌<◌, ◌≤◌, IsTrue};
ghost use Rattle.commit_cases.specs.Ready.{IsReady};

use crate::cities::{CAR, FOUR, TWO, line};
use crate::distances::Searched;
use crate::worlds::{opened, play};
use board_core::Entry;
use insertion_cost::{Decision, Offer, best_plain};
use interleave_core::{Event, World};
use ride_base::{RequestNo, VehicleNo};
use road_graph::{Graph, NodeNo, Steps};
use std::alloc::Global;
use std::process::Abort;
use std::test::Fail;
use std::thread::Threads;
use stop_schedule::{FleetView, NoIndex, Request, Vehicle};

/// How many actors there are.
const ACTORS: usize = 4;

/// How many lists of events are played, and how many events a list has.
const LISTS: u64 = 200;

const EVENTS: u64 = 80;

/// Three vehicles on the line.
const CARS: [Vehicle; 3] = [
    CAR,
    Vehicle {
        no: VehicleNo(2),
        start: FOUR,
        ..CAR
    },
    Vehicle {
        no: VehicleNo(5),
        start: TWO,
        seats: 1,
        ..CAR
    },
];

/// Numbers that look random, by a linear congruence modulo 2^64.
#[derive(Drop)]
struct Numbers {
    state: u64,
}

impl Numbers {
    /// A number below this one.
    fn draw(&mut self, many: u64) -> u64
        requires { 0 < many }
        ensures { result < many }
    {
        self.state = self
            .state
            .wrapping_mul(6364136223846793005)
            .wrapping_add(1442695040888963407);
        (self.state >> 33) % many
    }

    /// An actor.
    fn actor(&mut self) -> usize {
        self.draw(ACTORS as u64) as usize
    }

    /// How many riders, mostly one.
    fn riders(&mut self) -> u32 {
        match self.draw(8) {
            0 => 0,
            1 | 2 => 2,
            _ => 1,
        }
    }

    /// A request of this number, at about this clock. Some are refused.
    fn request(&mut self, number: u64, clock: u64) -> Request {
        Request {
            no: RequestNo(number),
            pickup: NodeNo(self.draw(4) as u32 + 1),
            dropoff: NodeNo(self.draw(5) as u32 + 1),
            moment: clock.saturating_add(self.draw(20)),
            riders: self.riders(),
            spaces: 0,
        }
    }

    /// An event of a list in which so many came before.
    fn event(&mut self, number: u64, clock: u64) -> Event {
        match self.draw(20) {
            0..=4 => Event::Submit(self.request(number, clock)),
            5..=8 => Event::Claim(self.actor()),
            9..=11 => Event::Price(self.actor()),
            12..=15 => Event::Commit(self.actor()),
            16 => Event::Back(self.actor()),
            17 | 18 => Event::Advance(clock.saturating_add(self.draw(12)).saturating_sub(1)),
            _ if number >= 60 => Event::Shut,
            _ => Event::Claim(self.actor()),
        }
    }
}

/// What an actor holds, as the test follows it.
#[derive(Clone, Copy)]
struct Held {
    request: Option<Request>,
    priced: bool,
}

const NOTHING: Held = Held {
    request: None,
    priced: false,
};

/// The entry that an event should add, as far as it is known before.
#[derive(Clone, Copy)]
enum Due {
    Submit(RequestNo),
    Claim(Request, u64),
    Commit(RequestNo, Option<Offer>),
    Back(RequestNo),
    Advance(u64),
    Shut,
}

/// Whether both nodes of a request are in a graph, and its moment isn't too late.
pub fn is_in(nodes: u32, request: &Request) -> bool
    ensures { IsTrue result → (1 ≤ request.now.pickup.0) × (request.now.pickup.0 ≤ nodes)
        × (1 ≤ request.now.dropoff.0) × (request.now.dropoff.0 ≤ nodes)
        × (request.now.moment ≤ 1099511627776) }
{
    let starts = 1 <= request.pickup.0 && request.pickup.0 <= nodes;
    let ends = 1 <= request.dropoff.0 && request.dropoff.0 <= nodes;
    starts && ends && request.moment <= 1099511627776
}

/// The best insertion into the fleet of a world as it is, by distances alone.
fn best_now<R: Threads>(
    rt: &R,
    alloc: Global,
    graph: &Graph,
    world: &World<NoIndex>,
    request: &Request,
) -> Result<Option<Offer>, Fail>
    requires { IsReady graph.now 4 world.now }
{
    if !is_in(graph.nodes(), request) {
        return Err("a node that isn't there".into());
    }
    let mut distances = Searched::new(rt, graph);
    Ok(best_plain(alloc, world.board().fleet(), request, &mut distances)?)
}

/// The entry that an event should add on a world, where its actor holds this.
fn entry_due<R: Threads>(
    rt: &R,
    alloc: Global,
    graph: &Graph,
    world: &World<NoIndex>,
    held: Held,
    event: &Event,
) -> Result<Option<Due>, Fail>
    requires { IsReady graph.now 4 world.now }
{
    match (event, held.request) {
        (Event::Submit(request), _) => Ok(Some(Due::Submit(request.no))),
        (Event::Advance(now), _) => Ok(Some(Due::Advance(*now))),
        (Event::Shut, _) if world.board().is_closed() => Ok(None),
        (Event::Shut, _) => Ok(Some(Due::Shut)),
        (Event::Claim(actor), None) => match world.board().waiting() {
            Some(request) => Ok(Some(Due::Claim(*request, *actor as u64))),
            None => Ok(None),
        },
        (Event::Commit(_), Some(request)) if held.priced => {
            let best = best_now(rt, alloc, graph, world, &request)?;
            Ok(Some(Due::Commit(request.no, best)))
        }
        (Event::Back(_), Some(request)) => Ok(Some(Due::Back(request.no))),
        _ => Ok(None),
    }
}

/// Whether a decision is the best offer, or nobody where there is none.
fn is_best(decision: &Decision, best: Option<Offer>) -> bool {
    match (decision, best) {
        (Decision::Nobody, None) => true,
        (Decision::Assigned(assigned), Some(offer)) => assigned.offer == offer,
        _ => false,
    }
}

/// Whether an entry is as it should be.
fn is_as_expected(entry: &Entry, expected: Due) -> bool {
    match (entry, expected) {
        (Entry::Submit(request, _), Due::Submit(no)) => request.no == no,
        (Entry::Claim(no, desk), Due::Claim(request, actor)) => {
            *no == request.no && *desk == actor
        }
        (Entry::Commit(no, decision), Due::Commit(number, best)) => {
            *no == number && is_best(decision, best)
        }
        (Entry::Back(no), Due::Back(number)) => *no == number,
        (Entry::Advance(now, _), Due::Advance(moment)) => *now == moment,
        (Entry::Shut, Due::Shut) => true,
        _ => false,
    }
}

/// What an actor holds after an event that it made and what that added.
fn held_after(held: Held, event: &Event, added: Option<Due>) -> Held {
    match (event, added) {
        (Event::Claim(_), Some(Due::Claim(request, _))) => Held {
            request: Some(request),
            priced: false,
        },
        (Event::Price(_), _) => Held {
            request: held.request,
            priced: held.request.is_some(),
        },
        (Event::Commit(_), Some(_)) | (Event::Back(_), Some(_)) => NOTHING,
        _ => held,
    }
}

/// The actor of an event, or the first where it has none.
fn actor_of(event: &Event) -> usize {
    match event {
        Event::Claim(actor) | Event::Price(actor) => *actor,
        Event::Commit(actor) | Event::Back(actor) => *actor,
        Event::Submit(_) | Event::Advance(_) | Event::Shut => 0,
    }
}

/// Whether a journal ends as it should: with the entry that was added, or as it was.
fn ends_as(journal: &[Entry], before: usize, added: Option<Due>) -> bool {
    match (added, journal.last()) {
        (None, _) => journal.len() == before,
        (Some(expected), Some(entry)) => {
            journal.len() == before.saturating_add(1) && is_as_expected(entry, expected)
        }
        (Some(_), None) => false,
    }
}

/// Plays one event, and compares what it adds with what it should. Answers whether it answered a request.
fn check_event<R: Threads + Abort>(
    rt: &R,
    alloc: Global,
    graph: &Graph,
    world: &mut World<NoIndex>,
    held: &mut [Held; 4],
    event: &Event,
) -> Result<bool, Fail>
    requires { IsReady graph.now 4 world.old }
    ensures { IsReady graph.now 4 world.new }
{
    let actor = actor_of(event);
    if actor >= 4 {
        return Err("no such actor".into());
    }
    let before = world.journal().len();
    let added = entry_due(rt, alloc, graph, world, held[actor], event)?;
    play(alloc, graph, world, 4, &[*event], &mut Steps::start(rt, ()))?;
    assert!(rt; ends_as(world.journal(), before, added), "{event:?}");
    held[actor] = held_after(held[actor], event, added);
    Ok(matches!(added, Some(Due::Commit(_, Some(_)))))
}

/// Plays a list of events on a world, and tells how many requests were given a vehicle.
fn play_list<R: Threads + Abort>(
    rt: &R,
    alloc: Global,
    graph: &Graph,
    world: &mut World<NoIndex>,
    list: u64,
) -> Result<u64, Fail>
    requires { IsReady graph.now 4 world.old }
{
    let mut numbers = Numbers { state: list };
    let mut held = [NOTHING; 4];
    let mut answered: u64 = 0;
    'playing: for number in 0..EVENTS {
        let event = numbers.event(number, world.board().fleet().clock());
        if check_event(rt, alloc, graph, world, &mut held, &event)? {
            answered = answered.saturating_add(1);
        }
    }
    Ok(answered)
}

#[test]
fn each_answer_is_the_best_of_its_moment(rt: HostRuntime) -> Result<(), Fail> {
    let graph = line(rt.alloc())?;
    let mut answered: u64 = 0;
    for list in 0..LISTS {
        let mut world = opened(rt.alloc(), &graph, &CARS, ACTORS)?;
        let more = play_list(&rt, rt.alloc(), &graph, &mut world, list)?;
        answered = answered.saturating_add(more);
    }
    assert!(&rt; answered > 300, "{answered} requests were given a vehicle");
    Ok(())
}
