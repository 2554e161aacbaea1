ghost use Rattle.std.specs.Prelude.{◌≡◌, ◌+◌, ◌<◌, ◌≤◌, ◌^◌, length, true, IsTrue, IfOk, IfSome};
ghost use Rattle.insertion_cost.specs.NodeWays.{AreWaysOf, AreWaysTo, IsDistOrNone};
ghost use Rattle.insertion_cost.specs.Spans.{AreSpans};
ghost use Rattle.stop_schedule.specs.Keeping.{keeps as keeps_of};
ghost use Rattle.stop_schedule.specs.Lists.{IsInsertionInto};
ghost use Rattle.stop_schedule.specs.Limits.{end_of_time, latest_front, latest_moment, most_riders};

use crate::cities::line;
use crate::plans::{at, front, promised};
use crate::schedules::are_short;
use crate::searches::is_node;
use insertion_cost::{
    Behind, NodeWays, Offer, PlacedVehicle, Priced, Spans, best_from, first_of_two, price,
};
use plain_search::least_walk;
use ride_base::{RequestNo, VehicleNo};
use road_graph::{Graph, NodeNo, Steps, Walk};
use std::alloc::Global;
use std::process::Abort;
use std::test::Fail;
use stop_schedule::{
    Front, Insertion, NewWalks, Params, Promise, Request, Schedule, StopKind, Vehicle, node_at,
};

/// The nodes of the line upwards, and downwards.
const UP: [NodeNo; 4] = [NodeNo(1), NodeNo(2), NodeNo(3), NodeNo(4)];

const DOWN: [NodeNo; 4] = [NodeNo(4), NodeNo(3), NodeNo(2), NodeNo(1)];

/// Numbers that come one after another, the same in each run.
#[derive(Drop)]
struct Draws {
    state: u32,
}

impl Draws {
    /// The next number, below this one.
    fn below(&mut self, most: u32) -> u32
        requires { 0 < most }
        ensures { result < most }
    {
        self.state = self
            .state
            .wrapping_mul(1_664_525)
            .wrapping_add(1_013_904_223);
        (self.state >> 16) % most
    }

    /// One of the line's nodes.
    fn node(&mut self) -> NodeNo {
        UP[self.below(4) as usize]
    }

    /// A request of one or two riders on seats, or of one in a wheelchair space.
    fn request(&mut self, number: u64) -> Request
        ensures moment { result.moment ≤ latest_moment }
        ensures riders { result.riders ≤ most_riders }
        ensures spaces { result.spaces ≤ most_riders }
    {
        let spaces = self.below(2);
        let riders = if spaces == 1 { 0 } else { 1 + self.below(2) };
        Request {
            no: RequestNo(number),
            pickup: self.node(),
            dropoff: self.node(),
            moment: u64::from(self.below(40)),
            riders,
            spaces,
        }
    }

    /// A pair of places in a list of so many stops.
    fn places(&mut self, stops: usize) -> Insertion
        requires { stops ≤ 64 }
        ensures insertion { IsInsertionInto result stops }
    {
        let j = self.below(stops as u32 + 1);
        let i = self.below(j + 1);
        at(i as usize, j as usize)
    }

    /// A vehicle's schedule with no stop yet.
    fn opened(&mut self, alloc: Global) -> Result<Schedule, Fail> {
        let vehicle = Vehicle {
            no: VehicleNo(1),
            start: self.node(),
            seats: 1 + self.below(3),
            from: u64::from(self.below(20)),
            until: 150 + u64::from(self.below(200)),
            spaces: self.below(3),
        };
        let opened = Schedule::opening(alloc, &vehicle);
        let (node, departure, halt) = (opened.place(), opened.departure(), self.below(2) == 1);
        Ok(Schedule::from_parts(alloc, &opened, node, departure, halt, &[], &[])?)
    }

    /// The limits of a rider's stops.
    fn promise(&mut self) -> Promise
        ensures pickup { result.pickup < end_of_time }
        ensures arrival { result.arrival < end_of_time }
    {
        let pickup = 60 + u64::from(self.below(200));
        Promise {
            pickup,
            arrival: pickup + u64::from(self.below(100)),
        }
    }
}

/// The length of the way along the line.
fn distance(from: NodeNo, to: NodeNo) -> u64
    ensures { result < 2 ^ 53 }
{
    10 * u64::from(from.0.abs_diff(to.0))
}

/// The walk along the line.
fn along(
    alloc: Global,
    graph: &Graph,
    from: NodeNo,
    to: NodeNo,
    steps: &mut Steps<()>,
) -> Result<Walk, Fail> {
    let (first, last) = (from.0 as usize, to.0 as usize);
    if first == 0 || 4 < first || last == 0 || 4 < last {
        return Err("another node".into());
    }
    let nodes = if first <= last {
        &UP[first - 1..last]
    } else {
        &DOWN[4 - first..5 - last]
    };
    match Walk::made(alloc, graph, nodes, steps)? {
        Some(walk) => Ok(walk),
        None => Err("no walk".into()),
    }
}

/// The walks of the legs that a pair of places changes, in their order.
fn changed_walks(
    alloc: Global,
    graph: &Graph,
    schedule: &Schedule,
    front: &Front,
    request: &Request,
    at: Insertion,
    steps: &mut Steps<()>,
) -> Result<NewWalks, Fail>
    requires insertion { IsInsertionInto at (length schedule.now.stops) }
{
    let (pickup, dropoff) = (request.pickup, request.dropoff);
    let mut walks = NewWalks::new(alloc);
    walks.push(along(
        alloc,
        graph,
        node_at(front, schedule.stops(), at.i),
        pickup,
        steps,
    )?);
    if at.i == at.j {
        walks.push(along(alloc, graph, pickup, dropoff, steps)?);
    } else {
        walks.push(along(
            alloc,
            graph,
            pickup,
            node_at(front, schedule.stops(), at.i + 1),
            steps,
        )?);
        walks.push(along(
            alloc,
            graph,
            node_at(front, schedule.stops(), at.j),
            dropoff,
            steps,
        )?);
    }
    if at.j < schedule.stops().len() {
        walks.push(along(
            alloc,
            graph,
            dropoff,
            node_at(front, schedule.stops(), at.j + 1),
            steps,
        )?);
    }
    Ok(walks)
}

/// The list with the request, of which nothing is asked but that it has room.
fn with_request(
    alloc: Global,
    schedule: &Schedule,
    front: &Front,
    request: &Request,
    at: Insertion,
    promise: &Promise,
    walks: &NewWalks,
) -> Result<Schedule, Fail>
    requires insertion { IsInsertionInto at (length schedule.now.stops) }
    requires front { front.now.time ≤ latest_front }
    requires moment { request.now.moment ≤ latest_moment }
    requires riders { request.now.riders ≤ most_riders }
    requires spaces { request.now.spaces ≤ most_riders }
    requires pickup { promise.now.pickup < end_of_time }
    requires arrival { promise.now.arrival < end_of_time }
{
    let stops = schedule.stops().len();
    let into = if at.i == at.j { 2 } else { 3 };
    let changed = if at.j < stops { into + 1 } else { into };
    if stops > 8 || walks.as_slice().len() != changed || !are_short(walks.as_slice()) {
        return Err("other walks".into());
    }
    Ok(schedule.inserted(alloc, front, request, at, promise, walks)?)
}

/// The schedule with one more rider somewhere in its list.
fn with_another(
    alloc: Global,
    graph: &Graph,
    schedule: &Schedule,
    number: u64,
    draws: &mut Draws,
    steps: &mut Steps<()>,
) -> Result<Schedule, Fail> {
    let request = draws.request(number);
    let at = draws.places(schedule.stops().len());
    let front = front(schedule.place(), schedule.departure(), 0);
    let promise = draws.promise();
    let walks = changed_walks(alloc, graph, schedule, &front, &request, at, steps)?;
    with_request(alloc, schedule, &front, &request, at, &promise, &walks)
}

/// A schedule of so many riders.
fn drawn(
    alloc: Global,
    graph: &Graph,
    riders: u64,
    draws: &mut Draws,
    steps: &mut Steps<()>,
) -> Result<Schedule, Fail> {
    let mut schedule = draws.opened(alloc)?;
    for number in 0..riders {
        schedule = with_another(alloc, graph, &schedule, number, draws, steps)?;
    }
    Ok(schedule)
}

/// Its front at a clock, or at the beginning where its next stop is reached before.
fn front_at(schedule: &Schedule, clock: u64) -> Front
    requires { clock ≤ latest_moment }
    ensures time { result.time ≤ latest_front }
    ensures offset { result.offset < 2 ^ 53 }
{
    let begun = front(schedule.place(), schedule.departure(), 0);
    let params = Params::usual();
    if schedule.stops().len() > 0 && schedule.arr(&params, 1) < clock {
        return begun;
    }
    let front = schedule.front(clock);
    if front.time > 1000 || front.offset > 1000 {
        return begun;
    }
    front
}

/// The lengths of the walks.
fn spans_of(walks: &[Walk], stops: usize, at: Insertion) -> Option<Spans>
    requires { at.i ≤ at.j }
    ensures { IfSome result (AreSpans stops at) }
{
    let into = if at.i == at.j { 2 } else { 3 };
    let changed = if at.j < stops { into + 1 } else { into };
    if walks.len() != changed || !are_short(walks) {
        return None;
    }
    Some(Spans {
        before_pickup: walks[0].length(),
        after_pickup: walks[1].length(),
        before_dropoff: if at.i < at.j {
            Some(walks[2].length())
        } else {
            None
        },
        after_dropoff: if at.j < stops {
            Some(walks[into].length())
        } else {
            None
        },
    })
}

/// Whether the list has seats and spaces, keeps its older limits and ends in service, where the new stops stand after these places.
fn keeps(list: &Schedule, params: &Params, at: Insertion) -> bool
    requires { at.j ≤ 64 }
{
    let count = list.stops().len();
    for k in 0..count {
        let stop = list.stops()[k];
        let time = match stop.kind {
            StopKind::Pickup => list.dep(params, k + 1),
            StopKind::Dropoff => list.arr(params, k + 1),
        };
        let is_new = k == at.i || k == at.j + 1;
        if list.aboard(k) > list.seats()
            || list.aboard_spaces(k) > list.spaces()
            || !is_new && time > stop.limit
        {
            return false;
        }
    }
    list.dep(params, count) <= list.until()
}

/// The lengths of the legs and the times of the stops together, of a vehicle that halts there at first, if it does.
fn busy_time(list: &Schedule, params: &Params, halt: Option<NodeNo>) -> u64 {
    let mut halt = halt;
    let mut total = 0u64;
    for k in 0..list.stops().len() {
        let node = list.stops()[k].node;
        let takes = params.stop_at(halt, node);
        total = total.wrapping_add(list.leg(k).length()).wrapping_add(takes);
        halt = Some(node);
    }
    total
}

/// What goes past a limit, weighted.
fn weighted(weight: u64, time: u64, limit: u64) -> u64 {
    weight.wrapping_mul(time.saturating_sub(limit))
}

/// The price by the whole new list.
fn reckoned(
    old: &Schedule,
    new: &Schedule,
    front: &Front,
    request: &Request,
    direct: u64,
    at: Insertion,
) -> Option<Priced>
    requires order { at.i ≤ at.j }
    requires within { at.j + 2 ≤ length new.now.stops }
    requires few { at.j ≤ 64 }
    requires direct { direct < 2 ^ 53 }
    requires moment { request.now.moment ≤ latest_moment }
{
    let params = Params::usual();
    if !keeps(new, &params, at) {
        return None;
    }
    let leave = new.dep(&params, at.i + 1);
    let arrive = new.arr(&params, at.j + 2);
    let waiting = weighted(params.wait_weight(), leave, request.moment + params.wait());
    let latest = request.moment + params.trip_limit(direct);
    let delay = weighted(params.trip_weight(), arrive, latest);
    let driven = if at.i == 0 { front.offset } else { 0 };
    let busy = driven.wrapping_add(busy_time(new, &params, new.halt_at(0)));
    let detour = busy.saturating_sub(busy_time(old, &params, new.halt_at(0)));
    Some(Priced {
        cost: detour.wrapping_add(waiting).wrapping_add(delay),
        leave,
        arrive,
    })
}

/// The request into one pair of places: its price and the reckoned one are the same. Answers whether there is one.
fn check_pair(
    rt: &impl Abort,
    alloc: Global,
    graph: &Graph,
    schedule: &Schedule,
    front: &Front,
    request: &Request,
    at: Insertion,
    steps: &mut Steps<()>,
) -> Result<bool, Fail>
    requires insertion { IsInsertionInto at (length schedule.now.stops) }
    requires front { front.now.time ≤ latest_front }
    requires offset { front.now.offset < 2 ^ 53 }
    requires moment { request.now.moment ≤ latest_moment }
    requires riders { request.now.riders ≤ most_riders }
    requires spaces { request.now.spaces ≤ most_riders }
{
    let stops = schedule.stops().len();
    let walks = changed_walks(alloc, graph, schedule, front, request, at, steps)?;
    let spans = spans_of(walks.as_slice(), stops, at).ok_or("other walks")?;
    let direct = distance(request.pickup, request.dropoff);
    let price = price(
        schedule,
        front,
        &Params::usual(),
        request,
        direct,
        &spans,
        at,
    );
    let promise = promised();
    let new = with_request(alloc, schedule, front, request, at, &promise, &walks)?;
    if new.stops().len() != stops + 2 {
        return Err("another list".into());
    }
    assert_eq!(rt; price, reckoned(schedule, &new, front, request, direct, at));
    Ok(price.is_some())
}

/// The request into all pairs of places. Answers in how many it is feasible.
fn check_pairs(
    rt: &impl Abort,
    alloc: Global,
    graph: &Graph,
    schedule: &Schedule,
    front: &Front,
    request: &Request,
    steps: &mut Steps<()>,
) -> Result<u64, Fail>
    requires front { front.now.time ≤ latest_front }
    requires offset { front.now.offset < 2 ^ 53 }
    requires moment { request.now.moment ≤ latest_moment }
    requires riders { request.now.riders ≤ most_riders }
    requires spaces { request.now.spaces ≤ most_riders }
{
    let mut feasible = 0u64;
    for i in 0..schedule.stops().len() + 1 {
        for j in i..schedule.stops().len() + 1 {
            let at = at(i, j);
            if check_pair(rt, alloc, graph, schedule, front, request, at, steps)? {
                feasible = feasible.saturating_add(1);
            }
        }
    }
    Ok(feasible)
}

/// A drawn request into all pairs of places of a drawn schedule of so many riders.
fn check_drawn(
    rt: &impl Abort,
    alloc: Global,
    graph: &Graph,
    riders: u64,
    draws: &mut Draws,
    steps: &mut Steps<()>,
) -> Result<u64, Fail> {
    let schedule = drawn(alloc, graph, riders, draws, steps)?;
    let front = front_at(&schedule, u64::from(draws.below(40)));
    let request = draws.request(riders);
    check_pairs(rt, alloc, graph, &schedule, &front, &request, steps)
}

#[test]
fn prices_are_those_of_the_whole_new_list(rt: HostRuntime) -> Result<(), Fail> {
    let graph = line(rt.alloc())?;
    let mut steps = Steps::start(&rt, ());
    let mut draws = Draws { state: 1 };
    let mut feasible = 0u64;
    for k in 0..160u64 {
        let found = check_drawn(&rt, rt.alloc(), &graph, k % 4, &mut draws, &mut steps)?;
        feasible = feasible.saturating_add(found);
    }
    // of 2000 pairs some are feasible, and some aren't
    assert!(rt; 100 < feasible && feasible < 1900);
    Ok(())
}

/// Whether the list keeps each limit and the end of service, with no more aboard than there is room for.
fn keeps_all(list: &Schedule, params: &Params) -> bool
    ensures { IsTrue result → keeps_of params.now list.now ≡ true }
{
    let count = list.stops().len();
    for k in 0..count {
        let stop = list.stops()[k];
        let time = stop.kept_time(list.arr(params, k + 1), list.dep(params, k + 1));
        if list.aboard(k) > list.seats()
            || list.aboard_spaces(k) > list.spaces()
            || time > stop.limit
        {
            return false;
        }
    }
    list.dep(params, count) <= list.until()
}

/// The distance from one node to another.
fn between(
    alloc: Global,
    graph: &Graph,
    from: NodeNo,
    to: NodeNo,
    steps: &mut Steps<()>,
) -> Result<Option<u64>, Fail>
    ensures { IfOk result (IsDistOrNone graph.now from to) }
{
    if !is_node(graph, from) || !is_node(graph, to) {
        return Err("another node".into());
    }
    match least_walk(alloc, graph, from, to, steps)? {
        None => Ok(None),
        Some(walk) => Ok(Some(walk.length())),
    }
}

/// The distances between a node and the two nodes of a request.
fn ways_of(
    alloc: Global,
    graph: &Graph,
    request: &Request,
    node: NodeNo,
    steps: &mut Steps<()>,
) -> Result<NodeWays, Fail>
    ensures { IfOk result (AreWaysOf graph.now request.now node) }
{
    let to_pickup = between(alloc, graph, node, request.pickup, steps)?;
    let from_pickup = between(alloc, graph, request.pickup, node, steps)?;
    let to_dropoff = between(alloc, graph, node, request.dropoff, steps)?;
    let from_dropoff = between(alloc, graph, request.dropoff, node, steps)?;
    Ok(NodeWays {
        to_pickup,
        from_pickup,
        to_dropoff,
        from_dropoff,
    })
}

/// The distances of the front's node and of each stop's.
fn ways_along(
    alloc: Global,
    graph: &Graph,
    schedule: &Schedule,
    front: &Front,
    request: &Request,
    steps: &mut Steps<()>,
) -> Result<Vec<NodeWays>, Fail>
    ensures { IfOk result (λ ways. AreWaysTo graph.now request.now front.now schedule.now.stops
        (length schedule.now.stops + 1) ways.items) }
{
    let mut ways = Vec::new(alloc);
    for k in 0..schedule.stops().len() + 1 {
        let node = node_at(front, schedule.stops(), k);
        ways.push(ways_of(alloc, graph, request, node, steps)?)?;
    }
    Ok(ways)
}

/// The best offer of vehicle 1 over all pairs of places, by the price of each.
fn best_of_pairs(
    alloc: Global,
    graph: &Graph,
    schedule: &Schedule,
    front: &Front,
    params: &Params,
    request: &Request,
    steps: &mut Steps<()>,
) -> Result<Option<Offer>, Fail>
    requires front { front.now.time ≤ latest_front }
    requires offset { front.now.offset < 2 ^ 53 }
    requires moment { request.now.moment ≤ latest_moment }
{
    let mut best = None;
    for i in 0..schedule.stops().len() + 1 {
        for j in i..schedule.stops().len() + 1 {
            let offer = offer_of(
                alloc,
                graph,
                schedule,
                front,
                params,
                request,
                at(i, j),
                steps,
            )?;
            best = first_of_two(best, offer);
        }
    }
    Ok(best)
}

/// The offer of vehicle 1 for one pair of places, by its price.
fn offer_of(
    alloc: Global,
    graph: &Graph,
    schedule: &Schedule,
    front: &Front,
    params: &Params,
    request: &Request,
    at: Insertion,
    steps: &mut Steps<()>,
) -> Result<Option<Offer>, Fail>
    requires insertion { IsInsertionInto at (length schedule.now.stops) }
    requires front { front.now.time ≤ latest_front }
    requires offset { front.now.offset < 2 ^ 53 }
    requires moment { request.now.moment ≤ latest_moment }
{
    let walks = changed_walks(alloc, graph, schedule, front, request, at, steps)?;
    let spans = spans_of(walks.as_slice(), schedule.stops().len(), at).ok_or("other walks")?;
    let direct = distance(request.pickup, request.dropoff);
    match price(schedule, front, params, request, direct, &spans, at) {
        None => Ok(None),
        Some(priced) => Ok(Some(Offer {
            cost: priced.cost,
            no: VehicleNo(1),
            place: 0,
            at,
            leave: priced.leave,
            arrive: priced.arrive,
        })),
    }
}

/// The best offer of vehicle 1 from a schedule that keeps, as it is found over all pairs at once.
fn best_at_once(
    alloc: Global,
    graph: &Graph,
    schedule: &Schedule,
    front: &Front,
    params: &Params,
    request: &Request,
    rows: &mut Vec<Behind>,
    steps: &mut Steps<()>,
) -> Result<Option<Offer>, Fail>
    requires kept { keeps_of params.now schedule.now ≡ true }
    requires front { front.now.time ≤ latest_front }
    requires offset { front.now.offset < 2 ^ 53 }
    requires moment { request.now.moment ≤ latest_moment }
{
    let Some(direct) = between(alloc, graph, request.pickup, request.dropoff, steps)? else {
        return Err("no walk".into());
    };
    let ways = ways_along(alloc, graph, schedule, front, request, steps)?;
    let vehicle = PlacedVehicle {
        no: VehicleNo(1),
        place: 0,
    };
    let _ = graph.nodes();
    Ok(best_from(
        vehicle,
        schedule,
        front,
        params,
        request,
        direct,
        ways.as_slice(),
        rows,
    )?)
}

/// A drawn request to a drawn schedule of so many riders, where that keeps: both best offers are the same. Answers whether there is one.
fn check_best(
    rt: &impl Abort,
    alloc: Global,
    graph: &Graph,
    riders: u64,
    draws: &mut Draws,
    rows: &mut Vec<Behind>,
    steps: &mut Steps<()>,
) -> Result<Option<bool>, Fail> {
    let schedule = drawn(alloc, graph, riders, draws, steps)?;
    let front = front_at(&schedule, u64::from(draws.below(40)));
    let request = draws.request(riders);
    let params = Params::usual();
    if !keeps_all(&schedule, &params) {
        return Ok(None);
    }
    let best = best_of_pairs(alloc, graph, &schedule, &front, &params, &request, steps)?;
    let at_once = best_at_once(
        alloc, graph, &schedule, &front, &params, &request, rows, steps,
    )?;
    assert_eq!(rt; at_once, best);
    Ok(Some(best.is_some()))
}

#[test]
fn best_offers_are_those_of_all_pairs(rt: HostRuntime) -> Result<(), Fail> {
    let graph = line(rt.alloc())?;
    let mut steps = Steps::start(&rt, ());
    let mut draws = Draws { state: 7 };
    let mut rows = Vec::new(rt.alloc());
    let mut found = 0u64;
    let mut nobody = 0u64;
    for k in 0..400u64 {
        match check_best(
            &rt,
            rt.alloc(),
            &graph,
            k % 4,
            &mut draws,
            &mut rows,
            &mut steps,
        )? {
            None => {}
            Some(true) => found = found.saturating_add(1),
            Some(false) => nobody = nobody.saturating_add(1),
        }
    }
    // of the schedules that keep some vehicles can take the request, and some can't
    assert!(rt; 50 < found && 10 < nobody);
    Ok(())
}
