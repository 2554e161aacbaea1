ghost use Rattle.std.specs.Prelude.{◌+◌, ◌<◌, ◌≤◌, [], length, IfOk};
ghost use Rattle.stop_schedule.specs.Fleets.{IsGoodView};
ghost use Rattle.insertion_cost.specs.Candidates.{AreSound, Settles, redone};
ghost use Rattle.insertion_cost.specs.Offers.{IsBestOrNone, IsFirst};
ghost use Rattle.insertion_cost.specs.Pricers.{IsRequestIn};
ghost use Rattle.commit_check.specs.Settled.{HoldChanged, IsDecision, IsFirstChanged};
ghost use Rattle.commit_check.specs.Settled.{IsFirstUnchanged, IsKnown, IsTrueEntry};
ghost use Rattle.commit_check.specs.Settled.{changed, changed_at, moved_at};

use insertion_cost::{
    Assigned, Candidate, Candidates, Decision, Offer, Pricer, best_listed, first_of_two, is_decided,
};
use ride_base::NoMemory;
use road_graph::Steps;
use std::alloc::Global;
use stop_schedule::{FleetView, Request};

/// The best offer of the vehicle in a place, priced anew, where its schedule changed after the base. None where it didn't change, or has no
/// feasible insertion.
fn changed_offer<F: FleetView, P: Pricer<F>, L>(
    alloc: Global,
    view: &F,
    base: u64,
    place: usize,
    request: &Request,
    pricer: &P,
    steps: &mut Steps<L>,
) -> Result<Option<Offer>, NoMemory>
    requires view { IsGoodView
        (F.Index.fits (F.index_of view.now)) (P.graph pricer.now) (F.fleet view.now) }
    requires request { IsRequestIn (P.graph pricer.now) request.now }
    requires place { place < length (F.fleet view.now).cars }
    ensures first { IfOk result
        (IsFirstChanged (P.graph pricer.now) (F.fleet view.now) request.now base place) }
    ensures steps { steps.old.0 ≤ steps.new.0 }
    ensures few { steps.new.1 ≤ steps.old.1 + changed_at (F.fleet view.now) base place }
    ensures kept { steps.old.1 ≤ steps.new.1 }
{
    if view.stamp(place) <= base {
        return Ok(None);
    }
    pricer.one(alloc, view, place, request, steps)
}

/// The first offer of all vehicles whose schedules changed after the base, priced anew. They stand in some of these places.
fn first_changed<F: FleetView, P: Pricer<F>, L>(
    alloc: Global,
    view: &F,
    places: &[usize],
    base: u64,
    request: &Request,
    pricer: &P,
    steps: &mut Steps<L>,
) -> Result<Option<Offer>, NoMemory>
    requires view { IsGoodView
        (F.Index.fits (F.index_of view.now)) (P.graph pricer.now) (F.fleet view.now) }
    requires request { IsRequestIn (P.graph pricer.now) request.now }
    requires places { HoldChanged (F.fleet view.now) base places.now }
    ensures first { IfOk result
        (IsFirst (IsKnown (P.graph pricer.now) (F.fleet view.now) request.now base [])) }
    ensures steps { steps.old.0 ≤ steps.new.0 }
    ensures few { steps.new.1 ≤ steps.old.1 + changed (F.fleet view.now) base }
    ensures kept { steps.old.1 ≤ steps.new.1 }
{
    let mut best = None;
    for place in places {
        let offer = changed_offer(alloc, view, base, *place, request, pricer, steps)?;
        best = first_of_two(best, offer);
    }
    Ok(best)
}

/// The best offer of a listed vehicle, where its schedule didn't change after the base: the listed one, if it was priced from where the
/// vehicle can turn now, and else priced anew. None where it changed, or has no feasible insertion.
fn unchanged_offer<F: FleetView, P: Pricer<F>, L>(
    alloc: Global,
    view: &F,
    base: u64,
    entry: &Candidate,
    request: &Request,
    pricer: &P,
    steps: &mut Steps<L>,
) -> Result<Option<Offer>, NoMemory>
    requires view { IsGoodView
        (F.Index.fits (F.index_of view.now)) (P.graph pricer.now) (F.fleet view.now) }
    requires request { IsRequestIn (P.graph pricer.now) request.now }
    requires place { entry.now.place < length (F.fleet view.now).cars }
    requires entry { IsTrueEntry
        (P.graph pricer.now) (F.fleet view.now) request.now base entry.now }
    ensures first { IfOk result (IsFirstUnchanged
        (P.graph pricer.now) (F.fleet view.now) request.now base entry.now.place) }
    ensures steps { steps.old.0 ≤ steps.new.0 }
    ensures few { steps.new.1 ≤ steps.old.1 + moved_at (F.fleet view.now) base entry.now }
    ensures kept { steps.old.1 ≤ steps.new.1 }
{
    if base < view.stamp(entry.place) {
        return Ok(None);
    }
    let front = view.schedule(entry.place).front(view.clock());
    if entry.front == front {
        return Ok(entry.best);
    }
    pricer.one(alloc, view, entry.place, request, steps)
}

/// The first offer of all vehicles of which the candidates don't know by their floor alone: of those whose schedules changed after the
/// base, and of those that are listed.
fn first_known<F: FleetView, P: Pricer<F>, L>(
    alloc: Global,
    view: &F,
    places: &[usize],
    candidates: &Candidates,
    request: &Request,
    pricer: &P,
    steps: &mut Steps<L>,
) -> Result<Option<Offer>, NoMemory>
    requires view { IsGoodView
        (F.Index.fits (F.index_of view.now)) (P.graph pricer.now) (F.fleet view.now) }
    requires request { IsRequestIn (P.graph pricer.now) request.now }
    requires sound { AreSound
        (P.graph pricer.now) (F.fleet view.now) request.now candidates.now }
    requires places { HoldChanged (F.fleet view.now) candidates.now.base places.now }
    ensures first { IfOk result (IsFirst (IsKnown (P.graph pricer.now) (F.fleet view.now)
        request.now candidates.now.base candidates.now.entries)) }
    ensures steps { steps.old.0 ≤ steps.new.0 }
    ensures few { steps.new.1 ≤ steps.old.1 + redone (F.fleet view.now) candidates.now }
    ensures kept { steps.old.1 ≤ steps.new.1 }
{
    let base = candidates.base;
    let mut best = first_changed(alloc, view, places, base, request, pricer, steps)?;
    let entries = candidates.entries.as_slice();
    for entry in entries {
        let listed = unchanged_offer(alloc, view, base, entry, request, pricer, steps)?;
        best = first_of_two(best, listed);
    }
    Ok(best)
}

/// The best insertion of the view as it is now. None where no insertion is feasible.
fn best_now<F: FleetView, P: Pricer<F>, L>(
    alloc: Global,
    view: &F,
    places: &[usize],
    candidates: &Candidates,
    request: &Request,
    pricer: &P,
    steps: &mut Steps<L>,
) -> Result<Option<Offer>, NoMemory>
    requires view { IsGoodView
        (F.Index.fits (F.index_of view.now)) (P.graph pricer.now) (F.fleet view.now) }
    requires request { IsRequestIn (P.graph pricer.now) request.now }
    requires sound { AreSound
        (P.graph pricer.now) (F.fleet view.now) request.now candidates.now }
    requires places { HoldChanged (F.fleet view.now) candidates.now.base places.now }
    ensures best { IfOk result
        (IsBestOrNone (P.graph pricer.now) (F.fleet view.now) request.now) }
    ensures steps { steps.old.0 ≤ steps.new.0 }
    ensures few { Settles (P.graph pricer.now) (F.fleet view.now) request.now candidates.now
        → steps.new.1 ≤ steps.old.1 + redone (F.fleet view.now) candidates.now }
    ensures most { steps.new.1 ≤ steps.old.1 + redone (F.fleet view.now) candidates.now
        + length (F.fleet view.now).cars }
    ensures kept { steps.old.1 ≤ steps.new.1 }
{
    let best = first_known(alloc, view, places, candidates, request, pricer, steps)?;
    if is_decided(candidates.floor, best) {
        return Ok(best);
    }
    let priced = pricer.price(alloc, view, request, steps)?;
    Ok(best_listed(&priced))
}

/// The places of all vehicles whose schedules changed after the base.
fn changed_places<F: FleetView>(alloc: Global, view: &F, base: u64) -> Result<Vec<usize>, NoMemory>
    ensures { IfOk result (λ places. HoldChanged (F.fleet view.now) base places.items) }
{
    let mut places = Vec::new(alloc);
    for place in 0..view.count() {
        if base < view.stamp(place) {
            places.push(place)?;
        }
    }
    Ok(places)
}

/// The answer of a fleet as it is now to a request, by candidates that are sound for it: the best insertion with least walks of the legs
/// that it changes, or nobody exactly where no insertion is feasible. It prices anew each vehicle whose schedule changed after the
/// candidates' base, and each listed one that was priced from elsewhere than where it can turn now; and the whole fleet only where these
/// and the listed offers don't settle the request. What it asks for counts at want of memory too.
pub fn settle<F: FleetView, P: Pricer<F>, L>(
    alloc: Global,
    view: &F,
    candidates: &Candidates,
    request: &Request,
    pricer: &P,
    steps: &mut Steps<L>,
) -> Result<Decision, NoMemory>
    requires view { IsGoodView
        (F.Index.fits (F.index_of view.now)) (P.graph pricer.now) (F.fleet view.now) }
    requires request { IsRequestIn (P.graph pricer.now) request.now }
    requires sound { AreSound
        (P.graph pricer.now) (F.fleet view.now) request.now candidates.now }
    ensures decision { IfOk result
        (IsDecision (P.graph pricer.now) (F.fleet view.now) request.now) }
    ensures steps { steps.old.0 ≤ steps.new.0 }
    ensures few { Settles (P.graph pricer.now) (F.fleet view.now) request.now candidates.now
        → steps.new.1 ≤ steps.old.1 + redone (F.fleet view.now) candidates.now + 1 }
    ensures most { steps.new.1 ≤ steps.old.1 + redone (F.fleet view.now) candidates.now
        + length (F.fleet view.now).cars + 1 }
    ensures kept { steps.old.1 ≤ steps.new.1 }
{
    let places = changed_places(alloc, view, candidates.base)?;
    settle_among(alloc, view, &places, candidates, request, pricer, steps)
}

/// The same, where the vehicles whose schedules changed after the candidates' base are known to stand in some of these places. It looks at
/// no other vehicles but the listed ones, unless the whole fleet is to be priced.
pub fn settle_among<F: FleetView, P: Pricer<F>, L>(
    alloc: Global,
    view: &F,
    places: &[usize],
    candidates: &Candidates,
    request: &Request,
    pricer: &P,
    steps: &mut Steps<L>,
) -> Result<Decision, NoMemory>
    requires view { IsGoodView
        (F.Index.fits (F.index_of view.now)) (P.graph pricer.now) (F.fleet view.now) }
    requires request { IsRequestIn (P.graph pricer.now) request.now }
    requires sound { AreSound
        (P.graph pricer.now) (F.fleet view.now) request.now candidates.now }
    requires places { HoldChanged (F.fleet view.now) candidates.now.base places.now }
    ensures decision { IfOk result
        (IsDecision (P.graph pricer.now) (F.fleet view.now) request.now) }
    ensures steps { steps.old.0 ≤ steps.new.0 }
    ensures few { Settles (P.graph pricer.now) (F.fleet view.now) request.now candidates.now
        → steps.new.1 ≤ steps.old.1 + redone (F.fleet view.now) candidates.now + 1 }
    ensures most { steps.new.1 ≤ steps.old.1 + redone (F.fleet view.now) candidates.now
        + length (F.fleet view.now).cars + 1 }
    ensures kept { steps.old.1 ≤ steps.new.1 }
{
    let Some(offer) = best_now(alloc, view, places, candidates, request, pricer, steps)? else {
        return Ok(Decision::Nobody);
    };
    let walks = pricer.walks(alloc, view, request, &offer, steps)?;
    Ok(Decision::Assigned(Assigned { offer, walks }))
}
