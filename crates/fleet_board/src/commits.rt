//! How a claim is answered.
ghost use Rattle.std.specs.Prelude.{◌≡◌, ◌≤◌, IfErr, IfOk, OnErr};
ghost use Rattle.insertion_cost.specs.Candidates.{AreFresh, Decides};
ghost use Rattle.board_core.specs.FleetViews.{cars_of};
ghost use Rattle.fleet_board.specs.Turns.{Commits, IsClaimedBy, IsDeskOf, StaysUndecided};

use crate::board::{BoardDesk, FleetBoard};
use crate::claims::Claimed;
use board_core::{Fleet, candidates_stay_sound, desks_hold_claims, histories_leave_one_board};
use insertion_cost::{Candidates, Decision, Pricer};
use ride_base::NoMemory;
use road_graph::Steps;
use std::alloc::{AllocError, Global};
use std::sync::Wait;
use stop_schedule::FleetIndex;

/// There was no memory for an answer. The request stays claimed.
#[derive(Debug, Drop)]
pub struct Undecided<I> {
    /// What was claimed.
    pub claimed: Claimed<I>,
    /// What was found out about the vehicles of its fleet.
    pub candidates: Candidates,
}

impl<I: FleetIndex + Drop, P: Pricer<Fleet<I>>> FleetBoard<I, P> {
    /// Answers a request that the desk claimed, by candidates that are fresh for its snapshot and decide. The answer is the best insertion
    /// of the fleet as it is in this turn, or nobody exactly where none is feasible. Only vehicles that changed since the claim, and listed
    /// ones that can turn elsewhere now, are priced anew, and the whole fleet only where these and the listed offers don't settle the
    /// request. The error is want of memory.
    pub fn commit<R: Wait + Sync, L>(
        &self,
        rt: &R,
        alloc: Global,
        desk: &mut BoardDesk,
        claimed: Claimed<I>,
        candidates: Candidates,
        steps: &mut Steps<L>,
    ) -> Result<Decision, Undecided<I>>
        requires desk { IsDeskOf (P.graph self.now.pricer) self.now.lock desk.old }
        requires claimed { IsClaimedBy self.now.lock desk.old claimed }
        requires fresh { AreFresh (P.graph self.now.pricer)
            (cars_of claimed.snapshot) claimed.request candidates }
        requires decides { Decides candidates }
        ensures ok { IfOk result (λ decision. Commits (P.graph self.now.pricer) self.now.lock
            desk.old claimed.request candidates decision steps.old.1 steps.new.1 desk.new) }
        ensures err { IfErr result (λ u. StaysUndecided (P.graph self.now.pricer) self.now.lock
            desk.old claimed.request candidates steps.old.1 steps.new.1 desk.new) }
        ensures claimed { IfErr result (λ u. (u.claimed ≡ claimed)
            × IsClaimedBy self.now.lock desk.new claimed) }
        ensures candidates { IfErr result (λ u. u.candidates ≡ candidates) }
        ensures desk { IsDeskOf (P.graph self.now.pricer) self.now.lock desk.new }
        ensures steps { steps.old.0 ≤ steps.new.0 }
    {
        match self.decide(rt, alloc, desk, &claimed, &candidates, steps) {
            Ok(decision) => Ok(decision),
            Err(AllocError) => Err(Undecided {
                claimed,
                candidates,
            }),
        }
    }

    /// The same of what is lent.
    fn decide<R: Wait + Sync, L>(
        &self,
        rt: &R,
        alloc: Global,
        desk: &mut BoardDesk,
        claimed: &Claimed<I>,
        candidates: &Candidates,
        steps: &mut Steps<L>,
    ) -> Result<Decision, NoMemory>
        requires desk { IsDeskOf (P.graph self.now.pricer) self.now.lock desk.old }
        requires claimed { IsClaimedBy self.now.lock desk.old claimed.now }
        requires fresh { AreFresh (P.graph self.now.pricer)
            (cars_of claimed.now.snapshot) claimed.now.request candidates.now }
        ensures ok { IfOk result (λ decision. Commits (P.graph self.now.pricer) self.now.lock
            desk.old claimed.now.request candidates.now decision steps.old.1 steps.new.1
            desk.new) }
        ensures err { OnErr result (StaysUndecided (P.graph self.now.pricer) self.now.lock
            desk.old claimed.now.request candidates.now steps.old.1 steps.new.1 desk.new) }
        ensures claimed { OnErr result (IsClaimedBy self.now.lock desk.new claimed.now) }
        ensures desk { IsDeskOf (P.graph self.now.pricer) self.now.lock desk.new }
        ensures steps { steps.old.0 ≤ steps.new.0 }
    {
        desks_hold_claims();
        histories_leave_one_board();
        candidates_stay_sound();
        let by = desk.number();
        let mut turn = self.lock.enter(rt, desk);
        let mut held = turn.take();
        let request = &claimed.request;
        let decision = held.commit(alloc, by, request, candidates, &self.pricer, steps);
        turn.leave(held);
        decision
    }
}
