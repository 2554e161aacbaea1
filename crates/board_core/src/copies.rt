ghost use Rattle.std.specs.Prelude.{◌≡◌, ◌+◌, ◌<◌, ◌≤◌, ◌^◌, IfOk, IfSome, IsOk, OnErr, OnOk};
ghost use Rattle.std.specs.Prelude.{option_map};
ghost use Rattle.road_graph.specs.Graphs.{IsGraph};
ghost use Rattle.insertion_cost.specs.Pricers.{IsAnswerOf, IsRequestIn};
ghost use Rattle.board_core.specs.BoardCalls.{FitsOn, IsDecisionFor, IsWaitingFor};
ghost use Rattle.board_core.specs.BoardViews.{board_of, Enters, IsClaimed};
ghost use Rattle.board_core.specs.Steps.{Step};
ghost use Rattle.board_core.specs.declared.entry.Entry.TheVariants as entry;
ghost use Rattle.stop_schedule.specs.Fleets.{IsGoodFleet};
ghost use Rattle.stop_schedule.specs.Limits.{latest_moment};

use crate::board::Board;
use crate::entry::{Advanced, Cancelled};
use crate::fleet::Fleet;
use crate::law::answers_are_possible;
use insertion_cost::{Decision, Pricer};
use ride_base::{Items, NoMemory, RequestNo};
use road_graph::Steps;
use std::alloc::{AllocError, Global};
use stop_removal::Walker;
use stop_schedule::{FleetIndex, FleetView, Request};

// Calls for a caller that keeps what became of an entry and tells it too: all memory is taken before the board changes.

impl<I: FleetIndex + Drop> Board<I> {
    /// Gives a desk the oldest waiting request that none holds, with the fleet as it is behind the claim. Where there is none, nothing
    /// changes, and after an error nothing has changed.
    pub fn claim_with_fleet(
        &mut self,
        alloc: Global,
        desk: u64,
    ) -> Result<Option<(Request, Fleet<I>)>, NoMemory>
        requires { self.old.fleet.version < 2 ^ 62 }
        ensures value { IfOk result (λ claimed. IsClaimed (board_of self.old) desk
            (option_map (λ both. both.0) claimed) (board_of self.new)) }
        ensures fleet { IfOk result (λ claimed.
            IfSome claimed (λ both. both.1 ≡ self.new.fleet)) }
        ensures index { self.new.fleet.index ≡ self.old.fleet.index }
        ensures err { OnErr result (self.new ≡ self.old) }
    {
        let mut fleet = self.fleet.share(alloc)?;
        let Some(request) = self.claim(desk) else {
            return Ok(None);
        };
        fleet.version = self.fleet.version;
        Ok(Some((request, fleet)))
    }

    /// Moves the clock as `advance` does, and gives what became of it twice.
    pub fn advance_with_copy<L>(
        &mut self,
        alloc: Global,
        now: u64,
        steps: &mut Steps<L>,
    ) -> Result<(Advanced, Advanced), NoMemory>
        requires version { (board_of self.old).fleet.version < 2 ^ 62 }
        requires moment { now ≤ latest_moment }
        ensures ok { IfOk result (λ both.
            Enters (board_of self.old) (entry.Advance now both.0) (board_of self.new)) }
        ensures same { IfOk result (λ both. both.1 ≡ both.0) }
        ensures index { IsOk result → FitsOn (I.fits self.old.fleet.index)
            (I.fits self.new.fleet.index) (board_of self.old) (board_of self.new) }
        ensures err { OnErr result (self.new ≡ self.old) }
        ensures steps { steps.old.0 ≤ steps.new.0 }
        ensures asks { steps.new.1 ≡ steps.old.1 }
    {
        let clock = self.fleet.clock;
        if now < clock {
            self.fleet.version += 1;
            return Ok((Advanced::Back { clock }, Advanced::Back { clock }));
        }
        let moved = self.fleet.moved(alloc, &self.arrivals, now, steps)?;
        let copy = Items::from_slice(alloc, moved.served.as_slice())?;
        Ok((self.move_to(now, moved), Advanced::Moved(copy)))
    }

    /// Takes the riders of a number out as `cancel` does, and gives what became of it twice.
    pub fn cancel_with_copy<W: Walker, L>(
        &mut self,
        alloc: Global,
        no: RequestNo,
        walker: &W,
        steps: &mut Steps<L>,
    ) -> Result<(Cancelled, Cancelled), NoMemory>
        requires version { (board_of self.old).fleet.version < 2 ^ 62 }
        requires nodes { (W.graph walker.now).nodes ≡ (board_of self.old).nodes }
        requires good { IsGoodFleet (W.graph walker.now) (board_of self.old).fleet }
        ensures ok { IfOk result (λ both. Step (W.graph walker.now)
            (board_of self.old) (entry.Cancel no both.0) (board_of self.new)) }
        ensures same { IfOk result (λ both. both.1 ≡ both.0) }
        ensures index { IsOk result → FitsOn (I.fits self.old.fleet.index)
            (I.fits self.new.fleet.index) (board_of self.old) (board_of self.new) }
        ensures err { OnErr result (self.new ≡ self.old) }
        ensures steps { steps.old.0 ≤ steps.new.0 }
        ensures asks { steps.new.1 ≡ steps.old.1 }
    {
        if let Some(reason) = self.cancel_refusal(no) {
            self.fleet.version += 1;
            return Ok((Cancelled::Refused(reason), Cancelled::Refused(reason)));
        }
        let removal = self.removal_of(alloc, no, walker, steps)?;
        let copy = removal.share(alloc)?;
        self.remove(alloc, no, &removal, steps)?;
        Ok((Cancelled::Removed(removal), Cancelled::Removed(copy)))
    }

    /// Gives a request that waits its answer over the pricer's graph, the best insertion with least walks or nobody where none is feasible, and
    /// hands a copy of it back. The pricer is asked for the direct way alone. After an error nothing has changed.
    pub fn answer_with_copy<P: Pricer<Fleet<I>>, L>(
        &mut self,
        alloc: Global,
        request: &Request,
        decision: Decision,
        pricer: &P,
        steps: &mut Steps<L>,
    ) -> Result<Decision, NoMemory>
        requires version { (board_of self.old).fleet.version < 2 ^ 62 }
        requires graph { IsGraph (P.graph pricer.now) }
        requires nodes { (P.graph pricer.now).nodes ≡ self.old.nodes }
        requires request { IsRequestIn (P.graph pricer.now) request.now }
        requires waits { IsWaitingFor (board_of self.old) request.now }
        requires decision { IsDecisionFor
            (P.graph pricer.now) (board_of self.old).fleet request.now decision }
        ensures entry { IfOk result (λ told. Step (P.graph pricer.now) (board_of self.old)
            (entry.Commit request.now.no told) (board_of self.new)) }
        ensures told { IfOk result (λ told. told ≡ decision) }
        ensures index { OnOk result (FitsOn (I.fits self.old.fleet.index)
            (I.fits self.new.fleet.index) (board_of self.old) (board_of self.new)) }
        ensures err { OnErr result (self.new ≡ self.old) }
        ensures steps { steps.old.0 ≤ steps.new.0 }
        ensures few { steps.new.1 ≤ steps.old.1 + 1 }
        ensures asks { steps.old.1 ≤ steps.new.1 }
    {
        answers_are_possible();
        let direct = direct_way(alloc, self.fleet(), request, &decision, pricer, steps)?;
        let told = decision.share(alloc)?;
        match self.apply(alloc, request.no, decision, direct, steps) {
            Ok(()) => Ok(told),
            Err(_decision) => Err(AllocError),
        }
    }
}

/// The length of the direct way of an answer, which is 0 where nobody takes the request.
fn direct_way<F: FleetView, P: Pricer<F>, L>(
    alloc: Global,
    fleet: &F,
    request: &Request,
    decision: &Decision,
    pricer: &P,
    steps: &mut Steps<L>,
) -> Result<u64, NoMemory>
    requires request { IsRequestIn (P.graph pricer.now) request.now }
    requires decision { IsDecisionFor
        (P.graph pricer.now) (F.fleet fleet.now) request.now decision.now }
    ensures answer { IfOk result
        (IsAnswerOf (P.graph pricer.now) (F.fleet fleet.now) request.now decision.now) }
    ensures steps { steps.old.0 ≤ steps.new.0 }
    ensures few { steps.new.1 ≤ steps.old.1 + 1 }
    ensures asks { steps.old.1 ≤ steps.new.1 }
{
    match decision {
        Decision::Nobody => Ok(0),
        Decision::Assigned(_) => {
            let direct = pricer.direct(alloc, request, steps)?;
            Ok(direct.unwrap_or(0))
        }
    }
}
