ghost use Rattle.std.specs.Prelude.{◌≡◌, ◌<◌, ◌≤◌, length, IfOk};
ghost use Rattle.interleave_core.specs.Holdings.{IsPricedBy, IsSettledBy, is_free, number_held};
ghost use Rattle.interleave_core.specs.WorldLaws.{EntriesLeaveWorldsOver, OldestIsKnown};
ghost use Rattle.interleave_core.specs.States.{holding_of};
ghost use Rattle.interleave_core.specs.Worlds.{IsWorldOver, state_of};

use crate::holding::Holding;
use crate::world::World;
use board_core::{
    Fleet, boards_are_consistent, boards_stay_good, candidates_stay_sound, requests_wait_once,
    versions_rise,
};
use commit_check::settle;
use insertion_cost::{Candidates, Decision, Pricer};
use ride_base::{NoMemory, RequestNo};
use road_graph::Steps;
use std::alloc::Global;
use stop_schedule::{FleetIndex, Request};

impl<I: FleetIndex> World<I> {
    /// Whether an actor holds nothing.
    pub(crate) fn is_free(&self, actor: usize) -> bool
        requires { actor < length self.now.actors.items }
        ensures { result ≡ is_free (holding_of (state_of self.now) actor) }
    {
        match &self.actors[actor] {
            Holding::Nothing => true,
            Holding::Claimed(_, _) | Holding::Priced(_, _) => false,
        }
    }

    /// The number of the request that an actor holds, priced or not.
    pub(crate) fn number_held(&self, actor: usize) -> Option<RequestNo>
        requires { actor < length self.now.actors.items }
        ensures { result ≡ number_held (holding_of (state_of self.now) actor) }
    {
        match &self.actors[actor] {
            Holding::Nothing => None,
            Holding::Claimed(request, _) => Some(request.no),
            Holding::Priced(request, _) => Some(request.no),
        }
    }

    /// The request that an actor claimed and didn't price yet, if it holds one, with candidates of the fleet that it kept.
    pub(crate) fn priced<P: Pricer<Fleet<I>>, L>(
        &self,
        alloc: Global,
        actor: usize,
        pricer: &P,
        steps: &mut Steps<L>,
    ) -> Result<Option<(Request, Candidates)>, NoMemory>
        requires over { IsWorldOver I.fits (P.graph pricer.now) self.now }
        requires actor { actor < length self.now.actors.items }
        ensures priced { IfOk result
            (IsPricedBy (P.graph pricer.now) (holding_of (state_of self.now) actor)) }
        ensures steps { steps.old.0 ≤ steps.new.0 }
        ensures asks { steps.old.1 ≤ steps.new.1 }
    {
        match &self.actors[actor] {
            Holding::Nothing | Holding::Priced(_, _) => Ok(None),
            Holding::Claimed(request, fleet) => {
                let candidates = pricer.price(alloc, fleet, request, steps)?;
                Ok(Some((*request, candidates)))
            }
        }
    }

    /// The request that an actor priced, if it holds one, with the answer of the fleet as it is.
    pub(crate) fn settled<P: Pricer<Fleet<I>>, L>(
        &self,
        alloc: Global,
        actor: usize,
        pricer: &P,
        steps: &mut Steps<L>,
    ) -> Result<Option<(Request, Decision)>, NoMemory>
        requires over { IsWorldOver I.fits (P.graph pricer.now) self.now }
        requires actor { actor < length self.now.actors.items }
        ensures settled { IfOk result (IsSettledBy (P.graph pricer.now)
            (state_of self.now).board.fleet (holding_of (state_of self.now) actor)) }
        ensures steps { steps.old.0 ≤ steps.new.0 }
        ensures asks { steps.old.1 ≤ steps.new.1 }
    {
        match &self.actors[actor] {
            Holding::Nothing | Holding::Claimed(_, _) => Ok(None),
            Holding::Priced(request, candidates) => {
                let fleet = self.board.fleet();
                let decision = settle(alloc, fleet, candidates, request, pricer, steps)?;
                Ok(Some((*request, decision)))
            }
        }
    }

    /// What each lawful entry leaves of a world over a graph. It does nothing: the law is its contract.
    pub(crate) fn stays_over(&self)
        ensures left { EntriesLeaveWorldsOver I.fits self.now }
        ensures oldest { OldestIsKnown I.fits self.now }
    {
        boards_stay_good();
        versions_rise();
        candidates_stay_sound();
        boards_are_consistent(&self.board);
        requests_wait_once(&self.board);
    }
}
