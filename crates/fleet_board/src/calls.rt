//! What desks do with a shared board, each call in a turn of its own.
ghost use Rattle.std.specs.Prelude.{◌≡◌, ◌≤◌, IfOk, OnErr};
ghost use Rattle.stop_schedule.specs.Limits.{latest_moment};
ghost use Rattle.board_core.specs.declared.entry.Entry.TheVariants as entry;
ghost use Rattle.fleet_board.specs.Turns.{Claims, IsClaimedBy, IsDeskOf, Looks, Notes, Sees, Shuts};

use crate::board::{BoardDesk, FleetBoard};
use crate::claims::{Claim, Claimed};
use board_core::{
    Advanced, Cancelled, Fleet, Submitted, desks_hold_claims, histories_leave_one_board,
};
use insertion_cost::Pricer;
use ride_base::{NoMemory, RequestNo};
use road_graph::Steps;
use std::alloc::Global;
use std::sync::Wait;
use stop_removal::Walker;
use stop_schedule::{FleetIndex, Request};

impl<I: FleetIndex + Drop, P: Pricer<Fleet<I>>> FleetBoard<I, P> {
    /// Submits a request, which waits or is refused. After an error the board is as it was.
    pub fn submit<R: Wait + Sync>(
        &self,
        rt: &R,
        desk: &mut BoardDesk,
        request: Request,
    ) -> Result<Submitted, NoMemory>
        requires desk { IsDeskOf (P.graph self.now.pricer) self.now.lock desk.old }
        ensures ok { IfOk result (λ submitted.
            Notes self.now.lock desk.old desk.new (entry.Submit request submitted)) }
        ensures err { OnErr result (Sees self.now.lock desk.old desk.new) }
        ensures desk { IsDeskOf (P.graph self.now.pricer) self.now.lock desk.new }
    {
        let by = desk.number();
        let mut turn = self.lock.enter(rt, desk);
        let mut held = turn.take();
        let submitted = held.submit(by, request);
        turn.leave(held);
        submitted
    }

    /// Gives the desk the oldest waiting request that no desk holds, with the fleet as it is behind that claim; or says that there is
    /// none. After an error the board is as it was.
    pub fn claim<R: Wait + Sync>(
        &self,
        rt: &R,
        alloc: Global,
        desk: &mut BoardDesk,
    ) -> Result<Claim<I>, NoMemory>
        requires desk { IsDeskOf (P.graph self.now.pricer) self.now.lock desk.old }
        ensures ok { IfOk result (λ claim.
            Claims I.fits (P.graph self.now.pricer) self.now.lock desk.old claim desk.new) }
        ensures err { OnErr result (Sees self.now.lock desk.old desk.new) }
        ensures desk { IsDeskOf (P.graph self.now.pricer) self.now.lock desk.new }
    {
        let by = desk.number();
        let mut turn = self.lock.enter(rt, desk);
        let mut held = turn.take();
        let claim = held.claim(alloc, by);
        turn.leave(held);
        claim
    }

    /// Gives a request that the desk claimed back: it waits again, in its old place. It takes no memory.
    pub fn give_back<R: Wait + Sync>(&self, rt: &R, desk: &mut BoardDesk, claimed: Claimed<I>)
        requires desk { IsDeskOf (P.graph self.now.pricer) self.now.lock desk.old }
        requires claimed { IsClaimedBy self.now.lock desk.old claimed }
        ensures back { Notes self.now.lock desk.old desk.new (entry.Back claimed.request.no) }
        ensures desk { IsDeskOf (P.graph self.now.pricer) self.now.lock desk.new }
    {
        desks_hold_claims();
        histories_leave_one_board();
        let by = desk.number();
        let mut turn = self.lock.enter(rt, desk);
        let mut held = turn.take();
        held.give_back(by, &claimed.request);
        turn.leave(held);
    }

    /// Moves the clock to a moment, at most 2^40, in the units of the roads' weights. After an error the board is as it was.
    pub fn advance<R: Wait + Sync, L>(
        &self,
        rt: &R,
        alloc: Global,
        desk: &mut BoardDesk,
        now: u64,
        steps: &mut Steps<L>,
    ) -> Result<Advanced, NoMemory>
        requires desk { IsDeskOf (P.graph self.now.pricer) self.now.lock desk.old }
        requires moment { now ≤ latest_moment }
        ensures ok { IfOk result (λ advanced.
            Notes self.now.lock desk.old desk.new (entry.Advance now advanced)) }
        ensures err { OnErr result (Sees self.now.lock desk.old desk.new) }
        ensures desk { IsDeskOf (P.graph self.now.pricer) self.now.lock desk.new }
        ensures steps { steps.old.0 ≤ steps.new.0 }
        ensures asks { steps.new.1 ≡ steps.old.1 }
    {
        let by = desk.number();
        let mut turn = self.lock.enter(rt, desk);
        let mut held = turn.take();
        let advanced = held.advance(alloc, by, now, steps);
        turn.leave(held);
        advanced
    }

    /// Takes the riders of a number out of the list of their vehicle, or says why they can't cancel. The walker finds the walks of the
    /// joined legs over the pricer's graph. After an error the board is as it was.
    pub fn cancel<R: Wait + Sync, W: Walker, L>(
        &self,
        rt: &R,
        alloc: Global,
        desk: &mut BoardDesk,
        no: RequestNo,
        walker: &W,
        steps: &mut Steps<L>,
    ) -> Result<Cancelled, NoMemory>
        requires desk { IsDeskOf (P.graph self.now.pricer) self.now.lock desk.old }
        requires walker { W.graph walker.now ≡ P.graph self.now.pricer }
        ensures ok { IfOk result (λ cancelled.
            Notes self.now.lock desk.old desk.new (entry.Cancel no cancelled)) }
        ensures err { OnErr result (Sees self.now.lock desk.old desk.new) }
        ensures desk { IsDeskOf (P.graph self.now.pricer) self.now.lock desk.new }
        ensures steps { steps.old.0 ≤ steps.new.0 }
        ensures asks { steps.new.1 ≡ steps.old.1 }
    {
        let by = desk.number();
        let mut turn = self.lock.enter(rt, desk);
        let mut held = turn.take();
        let cancelled = held.cancel(alloc, by, no, walker, steps);
        turn.leave(held);
        cancelled
    }

    /// Closes the board, which takes no more requests. A closed board stays as it is. It takes no memory.
    pub fn shut<R: Wait + Sync>(&self, rt: &R, desk: &mut BoardDesk)
        requires desk { IsDeskOf (P.graph self.now.pricer) self.now.lock desk.old }
        ensures shut { Shuts self.now.lock desk.old desk.new }
        ensures desk { IsDeskOf (P.graph self.now.pricer) self.now.lock desk.new }
    {
        let by = desk.number();
        let mut turn = self.lock.enter(rt, desk);
        let mut held = turn.take();
        held.shut(by);
        turn.leave(held);
    }

    /// The fleet as it is.
    pub fn look<R: Wait + Sync>(
        &self,
        rt: &R,
        alloc: Global,
        desk: &mut BoardDesk,
    ) -> Result<Fleet<I>, NoMemory>
        requires desk { IsDeskOf (P.graph self.now.pricer) self.now.lock desk.old }
        ensures ok { IfOk result (λ fleet.
            Looks I.fits (P.graph self.now.pricer) self.now.lock desk.old fleet desk.new) }
        ensures err { OnErr result (Sees self.now.lock desk.old desk.new) }
        ensures desk { IsDeskOf (P.graph self.now.pricer) self.now.lock desk.new }
    {
        let mut turn = self.lock.enter(rt, desk);
        let held = turn.take();
        let fleet = held.board.fleet().share(alloc);
        turn.leave(held);
        fleet
    }
}
