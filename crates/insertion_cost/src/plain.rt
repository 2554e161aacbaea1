ghost use Rattle.std.specs.Prelude.{IsOk, IfSome, ◌≡◌, true, ◌+◌, ◌<◌, ◌≤◌, ◌∷◌, ◌++◌, length, option_to_list, IfOk};
ghost use Rattle.road_graph.specs.Graphs.{IsGraph};
ghost use Rattle.road_graph.specs.Limits.{far};
ghost use Rattle.road_graph.specs.Roads.{Roads, IsNode};
ghost use Rattle.road_graph.specs.Walks.{IsLeastWalk, IsLeastWalkOrNone};
ghost use Rattle.stop_schedule.specs.Distances.{AreLeastWalks};
ghost use Rattle.stop_schedule.specs.Fleets.{Car as CarOf, IsGoodView};
ghost use Rattle.stop_schedule.specs.Keeping.{keeps};
ghost use Rattle.stop_schedule.specs.Limits.{latest_moment, latest_front};
ghost use Rattle.stop_schedule.specs.Lists.{IsInsertionInto, changed_ends};
ghost use Rattle.insertion_cost.specs.Pairs.{IsCarOf, IsBestFrom};
ghost use Rattle.insertion_cost.specs.Pricers.{IsAnswerOf, IsRequestIn, IsSearchedFor};
ghost use Rattle.insertion_cost.specs.Pricers.{IsEntryBySearches, IsBestBySearches, HasDistance, HaveDistances};
ghost use Rattle.insertion_cost.specs.Searches.{AreSearchesOf};

use crate::behind::Behind;
use crate::candidates::{Candidate, Candidates, Floor};
use crate::decision::{Assigned, Decision};
use crate::node_ways::NodeWays;
use crate::offer::{Offer, first_of_two};
use crate::pairs::{PlacedVehicle, best_from};
use crate::pricer::Pricer;
use crate::searches::{Searches, gather};
use plain_search::least_walk;
use ride_base::{Items, NoMemory};
use road_graph::{Graph, NodeNo, Steps, Walk};
use std::alloc::Global;
use stop_schedule::{
    FleetView, Front, Insertion, NewWalks, Params, Request, Schedule, Stop, node_at,
};

/// The best offer of a vehicle from a front, by whole searches. None where no pair is feasible.
fn best_by_searches(
    vehicle: PlacedVehicle,
    schedule: &Schedule,
    front: &Front,
    params: &Params,
    request: &Request,
    searches: &Searches,
    ways: &mut Vec<NodeWays>,
    rows: &mut Vec<Behind>,
) -> Result<Option<Offer>, NoMemory>
    requires graph { (g : Roads) × IsGraph g × AreSearchesOf g request.now searches.now }
    requires moment { request.now.moment ≤ latest_moment }
    requires front { front.now.time ≤ latest_front }
    requires offset { front.now.offset < far }
    requires kept { keeps params.now schedule.now ≡ true }
    ensures { IfOk result (λ best. (g : Roads) (car : CarOf) → IsGraph g
        → AreSearchesOf g request.now searches.now → IsCarOf vehicle schedule.now car
        → IsBestFrom g params.now vehicle.place car front.now request.now best) }
{
    gather(searches, front, schedule.stops(), ways)?;
    match searches.from_pickup(request.dropoff) {
        None => Ok(None),
        Some(direct) => best_from(
            vehicle, schedule, front, params, request, direct, ways, rows,
        ),
    }
}

/// The entry of the vehicle in a place of a view, by whole searches.
fn entry_at<F: FleetView>(
    view: &F,
    place: usize,
    request: &Request,
    searches: &Searches,
    ways: &mut Vec<NodeWays>,
    rows: &mut Vec<Behind>,
) -> Result<Candidate, NoMemory>
    requires place { place < length (F.fleet view.now).cars }
    requires searched { IsSearchedFor (F.fleet view.now) request.now searches.now }
    ensures { IfOk result
        (IsEntryBySearches (F.fleet view.now) request.now searches.now place) }
{
    let schedule = view.schedule(place);
    let front = schedule.front(view.clock());
    let vehicle = PlacedVehicle {
        no: view.no(place),
        place,
    };
    let params = view.params();
    let best = best_by_searches(
        vehicle, schedule, &front, params, request, searches, ways, rows,
    )?;
    Ok(Candidate { place, front, best })
}

/// The best offer of all vehicles of a view, by whole searches. None where no insertion is feasible.
fn best_offer<F: FleetView>(
    view: &F,
    request: &Request,
    searches: &Searches,
    ways: &mut Vec<NodeWays>,
    rows: &mut Vec<Behind>,
) -> Result<Option<Offer>, NoMemory>
    requires searched { IsSearchedFor (F.fleet view.now) request.now searches.now }
    ensures { IfOk result
        (IsBestBySearches (F.fleet view.now) request.now searches.now) }
{
    let mut best = None;
    for place in 0..view.count() {
        let entry = entry_at(view, place, request, searches, ways, rows)?;
        best = first_of_two(best, entry.best);
    }
    Ok(best)
}

/// The walks side by side, as many as there are.
fn in_order(
    alloc: Global,
    before_pickup: Walk,
    after_pickup: Walk,
    before_dropoff: Option<Walk>,
    after_dropoff: Option<Walk>,
) -> NewWalks
    ensures { result ≡ before_pickup ∷ after_pickup
        ∷ option_to_list before_dropoff ++ option_to_list after_dropoff }
{
    let mut walks = NewWalks::new(alloc);
    walks.push(before_pickup);
    walks.push(after_pickup);
    match (before_dropoff, after_dropoff) {
        (None, None) => {}
        (Some(walk), None) | (None, Some(walk)) => walks.push(walk),
        (Some(before_dropoff), Some(after_dropoff)) => {
            walks.push(before_dropoff);
            walks.push(after_dropoff);
        }
    }
    walks
}

/// A least walk between two nodes, read off searches for the request where there are some. None where there is no walk.
fn walk_found<L>(
    alloc: Global,
    graph: &Graph,
    searches: Option<&Searches>,
    request: &Request,
    from: NodeNo,
    to: NodeNo,
    steps: &mut Steps<L>,
) -> Result<Option<Walk>, NoMemory>
    requires searches { IfSome searches
        (λ found. AreSearchesOf graph.now request.now found.now) }
    requires from { IsNode graph.now from }
    requires to { IsNode graph.now to }
    ensures walk { IfOk result (IsLeastWalkOrNone graph.now from to) }
    ensures steps { steps.old.0 ≤ steps.new.0 }
    ensures asks { steps.new.1 ≡ steps.old.1 }
{
    match searches {
        Some(searches) => searches.walk(alloc, graph, request, from, to, steps),
        None => least_walk(alloc, graph, from, to, steps),
    }
}

/// A least walk between two nodes of which one reaches the other, read off searches for the request where there are some.
fn walk_between<L>(
    alloc: Global,
    graph: &Graph,
    searches: Option<&Searches>,
    request: &Request,
    from: NodeNo,
    to: NodeNo,
    steps: &mut Steps<L>,
) -> Result<Walk, NoMemory>
    requires searches { IfSome searches
        (λ found. AreSearchesOf graph.now request.now found.now) }
    requires there { HasDistance graph.now from to }
    ensures walk { IfOk result (IsLeastWalk graph.now from to) }
    ensures steps { steps.old.0 ≤ steps.new.0 }
    ensures asks { steps.new.1 ≡ steps.old.1 }
{
    let _ = graph.nodes();
    let walk = walk_found(alloc, graph, searches, request, from, to, steps)?;
    Ok(walk.unwrap())
}

/// Least walks of the legs that an insertion changes, in rising order of leg. Each of them has a walk.
fn changed_walks<L>(
    alloc: Global,
    graph: &Graph,
    searches: Option<&Searches>,
    stops: &[Stop],
    front: &Front,
    request: &Request,
    at: Insertion,
    steps: &mut Steps<L>,
) -> Result<NewWalks, NoMemory>
    requires insertion { IsInsertionInto at (length stops.now) }
    requires there { HaveDistances graph.now (changed_ends stops.now front.now request.now at) }
    requires searches { IfSome searches
        (λ found. AreSearchesOf graph.now request.now found.now) }
    ensures least { IfOk result
        (AreLeastWalks graph.now (changed_ends stops.now front.now request.now at)) }
    ensures steps { steps.old.0 ≤ steps.new.0 }
    ensures asks { steps.new.1 ≡ steps.old.1 }
{
    let before = node_at(front, stops, at.i);
    let before_pickup = walk_between(
        alloc,
        graph,
        searches,
        request,
        before,
        request.pickup,
        steps,
    )?;
    let after_dropoff = if at.j < stops.len() {
        let behind = node_at(front, stops, at.j + 1);
        Some(walk_between(
            alloc,
            graph,
            searches,
            request,
            request.dropoff,
            behind,
            steps,
        )?)
    } else {
        None
    };
    if at.i == at.j {
        let between = walk_between(
            alloc,
            graph,
            searches,
            request,
            request.pickup,
            request.dropoff,
            steps,
        )?;
        return Ok(in_order(alloc, before_pickup, between, None, after_dropoff));
    }
    let next = node_at(front, stops, at.i + 1);
    let after_pickup = walk_between(alloc, graph, searches, request, request.pickup, next, steps)?;
    let last = node_at(front, stops, at.j);
    let before_dropoff = walk_between(
        alloc,
        graph,
        searches,
        request,
        last,
        request.dropoff,
        steps,
    )?;
    Ok(in_order(
        alloc,
        before_pickup,
        after_pickup,
        Some(before_dropoff),
        after_dropoff,
    ))
}

/// The answer of a fleet to a request by searches for it, and the length of the direct way, which is 0 where nobody takes it.
fn answer_by<F: FleetView, L>(
    alloc: Global,
    graph: &Graph,
    view: &F,
    request: &Request,
    searches: &Searches,
    ways: &mut Vec<NodeWays>,
    rows: &mut Vec<Behind>,
    steps: &mut Steps<L>,
) -> Result<(Decision, u64), NoMemory>
    requires view { IsGoodView (F.Index.fits (F.index_of view.now)) graph.now (F.fleet view.now) }
    requires request { IsRequestIn graph.now request.now }
    requires searches { AreSearchesOf graph.now request.now searches.now }
    ensures answer { IfOk result (λ both. IsAnswerOf graph.now
        (F.fleet view.now) request.now both.0 both.1) }
    ensures steps { steps.old.0 ≤ steps.new.0 }
    ensures asks { steps.new.1 ≡ steps.old.1 }
{
    let _ = graph.nodes();
    let Some(offer) = best_offer(view, request, searches, ways, rows)? else {
        return Ok((Decision::Nobody, 0));
    };
    let direct = searches.from_pickup(request.dropoff).unwrap();
    let schedule = view.schedule(offer.place);
    let front = schedule.front(view.clock());
    let walks = changed_walks(
        alloc,
        graph,
        Some(searches),
        schedule.stops(),
        &front,
        request,
        offer.at,
        steps,
    )?;
    Ok((Decision::Assigned(Assigned { offer, walks }), direct))
}

/// Whole searches of a graph for a request, in the memory of those that were kept.
fn searches_for<L>(
    alloc: Global,
    graph: &Graph,
    kept: Option<Searches>,
    request: &Request,
    steps: &mut Steps<L>,
) -> Result<Searches, NoMemory>
    requires pickup { IsNode graph.now request.now.pickup }
    requires dropoff { IsNode graph.now request.now.dropoff }
    ensures searches { IfOk result (AreSearchesOf graph.now request.now) }
    ensures steps { steps.old.0 ≤ steps.new.0 }
    ensures asks { steps.new.1 ≡ steps.old.1 }
{
    match kept {
        Some(searches) => searches.renewed(graph, request, steps),
        None => Searches::of(alloc, graph, request, steps),
    }
}

/// Answers requests one after another as `PlainPricer` does, all in the same memory.
#[derive(Drop)]
pub struct PlainAnswers<'g> {
    graph: &'g Graph,
    searches: Option<Searches>,
    ways: Vec<NodeWays>,
    rows: Vec<Behind>,
}

impl<'g> PlainAnswers<'g> {
    /// Answers over this graph; none was asked for yet.
    pub fn new(alloc: Global, graph: &'g Graph) -> PlainAnswers<'g>
        ensures { result.graph.now ≡ graph.now }
    {
        PlainAnswers {
            graph,
            searches: None,
            ways: Vec::new(alloc),
            rows: Vec::new(alloc),
        }
    }

    /// The answer of a fleet to a request, and the length of the direct way, which is 0 where nobody takes it: the best insertion with least
    /// walks of the legs that it changes, or nobody. After an error it serves on.
    pub fn answer<F: FleetView, L>(
        &mut self,
        alloc: Global,
        view: &F,
        request: &Request,
        steps: &mut Steps<L>,
    ) -> Result<(Decision, u64), NoMemory>
        requires view { IsGoodView
            (F.Index.fits (F.index_of view.now)) self.old.graph.now (F.fleet view.now) }
        requires request { IsRequestIn self.old.graph.now request.now }
        ensures same { self.new.graph.now ≡ self.old.graph.now }
        ensures answer { IfOk result (λ both. IsAnswerOf self.old.graph.now
            (F.fleet view.now) request.now both.0 both.1) }
        ensures steps { steps.old.0 ≤ steps.new.0 }
        ensures asks { IsOk result → steps.new.1 ≡ steps.old.1 + length (F.fleet view.now).cars }
        ensures few { steps.new.1 ≤ steps.old.1 + length (F.fleet view.now).cars }
        ensures kept { steps.old.1 ≤ steps.new.1 }
    {
        let kept = self.searches.take();
        let searches = searches_for(alloc, self.graph, kept, request, steps)?;
        let vehicles = view.count();
        steps.ask(vehicles);
        let answer = answer_by(
            alloc,
            self.graph,
            view,
            request,
            &searches,
            &mut self.ways,
            &mut self.rows,
            steps,
        );
        self.searches = Some(searches);
        answer
    }
}

/// Prices every vehicle of a view by whole searches of a graph.
#[derive(Clone, Copy)]
pub struct PlainPricer<'g> {
    graph: &'g Graph,
}

impl<'g> PlainPricer<'g> {
    /// A pricer over this graph.
    pub fn new(graph: &'g Graph) -> PlainPricer<'g>
        ensures { result.graph.now ≡ graph.now }
    {
        PlainPricer { graph }
    }

    /// The answer of a fleet to a request, and the length of the direct way, which is 0 where nobody takes it: the best insertion with least
    /// walks of the legs that it changes, or nobody. It prices every vehicle, as `price` does, and reads the walks off the same searches.
    pub fn answer<F: FleetView, L>(
        &self,
        alloc: Global,
        view: &F,
        request: &Request,
        steps: &mut Steps<L>,
    ) -> Result<(Decision, u64), NoMemory>
        requires view { IsGoodView
            (F.Index.fits (F.index_of view.now)) self.now.graph.now (F.fleet view.now) }
        requires request { IsRequestIn self.now.graph.now request.now }
        ensures graph { IsGraph self.now.graph.now }
        ensures answer { IfOk result (λ both. IsAnswerOf self.now.graph.now
            (F.fleet view.now) request.now both.0 both.1) }
        ensures steps { steps.old.0 ≤ steps.new.0 }
        ensures asks { IsOk result → steps.new.1 ≡ steps.old.1 + length (F.fleet view.now).cars }
        ensures few { steps.new.1 ≤ steps.old.1 + length (F.fleet view.now).cars }
        ensures kept { steps.old.1 ≤ steps.new.1 }
    {
        let _ = self.graph.nodes();
        let searches = Searches::of(alloc, self.graph, request, steps)?;
        let vehicles = view.count();
        steps.ask(vehicles);
        let (mut ways, mut rows) = (Vec::new(alloc), Vec::new(alloc));
        answer_by(
            alloc, self.graph, view, request, &searches, &mut ways, &mut rows, steps,
        )
    }
}

impl<'g, F: FleetView> Pricer<F> for PlainPricer<'g> {
    ghost graph = { λ p. p.graph.now };

    fn price<L>(
        &self,
        alloc: Global,
        view: &F,
        request: &Request,
        steps: &mut Steps<L>,
    ) -> Result<Candidates, NoMemory> {
        let _ = self.graph.nodes();
        let searches = Searches::of(alloc, self.graph, request, steps)?;
        steps.ask(view.count());
        let mut ways = Vec::new(alloc);
        let mut rows = Vec::new(alloc);
        let mut entries = Items::new(alloc);
        for place in 0..view.count() {
            entries.push(entry_at(view, place, request, &searches, &mut ways, &mut rows)?)?;
        }
        Ok(Candidates {
            base: view.version(),
            entries,
            floor: Floor::All,
        })
    }

    fn one<L>(
        &self,
        alloc: Global,
        view: &F,
        place: usize,
        request: &Request,
        steps: &mut Steps<L>,
    ) -> Result<Option<Offer>, NoMemory> {
        let _ = self.graph.nodes();
        let searches = Searches::of(alloc, self.graph, request, steps)?;
        steps.ask(1);
        let mut ways = Vec::new(alloc);
        let mut rows = Vec::new(alloc);
        let entry = entry_at(view, place, request, &searches, &mut ways, &mut rows)?;
        Ok(entry.best)
    }

    fn direct<L>(
        &self,
        alloc: Global,
        request: &Request,
        steps: &mut Steps<L>,
    ) -> Result<Option<u64>, NoMemory> {
        let _ = self.graph.nodes();
        let walk = least_walk(alloc, self.graph, request.pickup, request.dropoff, steps)?;
        steps.ask(1);
        match walk {
            None => Ok(None),
            Some(walk) => Ok(Some(walk.length())),
        }
    }

    fn walks<L>(
        &self,
        alloc: Global,
        view: &F,
        request: &Request,
        offer: &Offer,
        steps: &mut Steps<L>,
    ) -> Result<NewWalks, NoMemory> {
        let _ = self.graph.nodes();
        steps.ask(1);
        let schedule = view.schedule(offer.place);
        let front = schedule.front(view.clock());
        changed_walks(
            alloc,
            self.graph,
            None,
            schedule.stops(),
            &front,
            request,
            offer.at,
            steps,
        )
    }
}
