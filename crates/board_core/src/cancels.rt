ghost use Rattle.std.specs.Prelude.{◌≡◌, ◌<◌, ◌≤◌, ◌^◌, None, OnOk, OnErr, IfOk, IfErr, IsOk};
ghost use Rattle.board_core.specs.BoardCalls.{Cancels, FitsOn, HasLeastJoins, MayRemove, Removes};
ghost use Rattle.board_core.specs.BoardViews.{board_of};
ghost use Rattle.board_core.specs.Changes.{IsGiven, IsTakenOff};
ghost use Rattle.board_core.specs.Steps.{Step, cancel_refusal};
ghost use Rattle.board_core.specs.declared.entry.Entry.TheVariants as entry;
ghost use Rattle.stop_schedule.specs.Fleets.{IsGoodFleet};

use crate::board::Board;
use crate::changes::{Change, joined, stops_of};
use crate::entry::{CancelReason, Cancelled};
use insertion_cost::{Assigned, Decision};
use ride_base::{NoMemory, RequestNo};
use road_graph::Steps;
use std::alloc::{AllocError, Global};
use stop_removal::{Removal, Walker, joints, removed};
use stop_schedule::{FleetIndex, FleetView};

impl<I: FleetIndex + Drop> Board<I> {
    /// Takes the riders of a number out of the list of their vehicle, over the graph of the walker, which finds the walks of the joined
    /// legs; or says why they can't cancel. After an error nothing has changed.
    pub fn cancel<W: Walker, L>(
        &mut self,
        alloc: Global,
        no: RequestNo,
        walker: &W,
        steps: &mut Steps<L>,
    ) -> Result<Cancelled, NoMemory>
        requires version { (board_of self.old).fleet.version < 2 ^ 62 }
        requires nodes { (W.graph walker.now).nodes ≡ (board_of self.old).nodes }
        requires good { IsGoodFleet (W.graph walker.now) (board_of self.old).fleet }
        ensures ok { IfOk result (λ cancelled. Step (W.graph walker.now)
            (board_of self.old) (entry.Cancel no cancelled) (board_of self.new)) }
        ensures index { IsOk result → FitsOn (I.fits self.old.fleet.index)
            (I.fits self.new.fleet.index) (board_of self.old) (board_of self.new) }
        ensures err { OnErr result (self.new ≡ self.old) }
        ensures steps { steps.old.0 ≤ steps.new.0 }
        ensures asks { steps.new.1 ≡ steps.old.1 }
    {
        if let Some(reason) = self.cancel_refusal(no) {
            self.fleet.version += 1;
            return Ok(Cancelled::Refused(reason));
        }
        let removal = self.removal_of(alloc, no, walker, steps)?;
        self.remove(alloc, no, &removal, steps)?;
        Ok(Cancelled::Removed(removal))
    }

    /// Why the riders of a number can't cancel.
    pub(crate) fn cancel_refusal(&self, no: RequestNo) -> Option<CancelReason>
        ensures { result ≡ cancel_refusal (board_of self.now) no }
    {
        if self.waiting.find(no).is_some() {
            return Some(CancelReason::Waiting);
        }
        match self.answers.get(&no) {
            None => Some(CancelReason::Unknown),
            Some(Decision::Nobody) => Some(CancelReason::Nobody),
            Some(Decision::Assigned(_)) if self.cancelled.contains(&no) => {
                Some(CancelReason::Cancelled)
            }
            Some(Decision::Assigned(assigned)) => {
                if self.fleet.picks_up(assigned.offer.place, no) {
                    None
                } else {
                    Some(CancelReason::Served)
                }
            }
        }
    }

    /// The place of the vehicle that a number was given.
    fn place_of(&self, no: RequestNo) -> usize
        requires { (a : Assigned) × IsGiven (board_of self.now) no a }
        ensures { (a : Assigned) → IsGiven (board_of self.now) no a → result ≡ a.offer.place }
    {
        match self.answers.get(&no) {
            Some(Decision::Assigned(assigned)) => assigned.offer.place,
            _ => unreachable!(),
        }
    }

    /// Which stops the riders of a number have, and least walks of the legs that are joined without them.
    pub(crate) fn removal_of<W: Walker, L>(
        &self,
        alloc: Global,
        no: RequestNo,
        walker: &W,
        steps: &mut Steps<L>,
    ) -> Result<Removal, NoMemory>
        requires nodes { (W.graph walker.now).nodes ≡ (board_of self.now).nodes }
        requires good { IsGoodFleet (W.graph walker.now) (board_of self.now).fleet }
        requires not_refused { cancel_refusal (board_of self.now) no ≡ None }
        ensures possible { IfOk result (MayRemove (board_of self.now) no) }
        ensures least { IfOk result (HasLeastJoins (W.graph walker.now) (board_of self.now) no) }
        ensures steps { steps.old.0 ≤ steps.new.0 }
        ensures asks { steps.new.1 ≡ steps.old.1 }
    {
        let place = self.place_of(no);
        let schedule = self.fleet.schedule(place);
        let (pickup, dropoff) = stops_of(schedule, no);
        let front = self.fleet.front(place);
        let ends = joints(schedule, &front, pickup, dropoff);
        Ok(Removal {
            no: self.fleet.no(place),
            pickup,
            dropoff,
            walks: joined(alloc, walker, ends, steps)?,
        })
    }

    /// Takes the riders of a number out with these walks.
    pub(crate) fn remove<L>(
        &mut self,
        alloc: Global,
        no: RequestNo,
        removal: &Removal,
        steps: &mut Steps<L>,
    ) -> Result<(), NoMemory>
        requires version { self.old.fleet.version < 2 ^ 62 }
        requires possible { MayRemove (board_of self.old) no removal.now }
        ensures value { OnOk result
            (Removes (board_of self.old) no removal.now (board_of self.new)) }
        ensures index { OnOk result (FitsOn (I.fits self.old.fleet.index)
            (I.fits self.new.fleet.index) (board_of self.old) (board_of self.new)) }
        ensures err { OnErr result (self.new ≡ self.old) }
        ensures steps { steps.old.0 ≤ steps.new.0 }
        ensures asks { steps.new.1 ≡ steps.old.1 }
    {
        let change = self.taken_off(alloc, no, removal, steps)?;
        self.cancelled.insert(no)?;
        let (place, next) = (change.place, change.next);
        if let Err(AllocError) = self.fleet.set(alloc, change) {
            self.cancelled.remove(&no);
            return Err(AllocError);
        }
        self.arrivals.set(place, next);
        Ok(())
    }

    /// The vehicle of a number without the stops of a removal.
    fn taken_off<L>(
        &self,
        alloc: Global,
        no: RequestNo,
        removal: &Removal,
        steps: &mut Steps<L>,
    ) -> Result<Change<I>, NoMemory>
        requires version { self.now.fleet.version < 2 ^ 62 }
        requires possible { MayRemove (board_of self.now) no removal.now }
        ensures change { IfOk result (λ c. IsTakenOff (I.fits self.now.fleet.index)
            (I.fits c.index) (board_of self.now) no removal.now c.place c.car c.next) }
        ensures steps { steps.old.0 ≤ steps.new.0 }
        ensures asks { steps.new.1 ≡ steps.old.1 }
    {
        let place = self.place_of(no);
        let front = self.fleet.front(place);
        let new = removed(
            alloc,
            self.fleet.schedule(place),
            &front,
            removal.pickup,
            removal.dropoff,
            &removal.walks,
        )?;
        self.fleet.change(alloc, place, new, steps)
    }

    /// Takes the riders of a number out of the list of their vehicle, with the walks of the joined legs that are handed in. The error is
    /// want of memory: it hands the removal back, and nothing has changed.
    pub fn apply_removal<L>(
        &mut self,
        alloc: Global,
        no: RequestNo,
        removal: Removal,
        steps: &mut Steps<L>,
    ) -> Result<(), Removal>
        requires version { (board_of self.old).fleet.version < 2 ^ 62 }
        requires possible { MayRemove (board_of self.old) no removal }
        ensures value { OnOk result (Removes (board_of self.old) no removal (board_of self.new)) }
        ensures cancels { OnOk result (Cancels (board_of self.old) no removal (board_of self.new)) }
        ensures index { OnOk result (FitsOn (I.fits self.old.fleet.index)
            (I.fits self.new.fleet.index) (board_of self.old) (board_of self.new)) }
        ensures back { IfErr result (λ handed. (handed ≡ removal) × (self.new ≡ self.old)) }
        ensures steps { steps.old.0 ≤ steps.new.0 }
        ensures asks { steps.new.1 ≡ steps.old.1 }
    {
        match self.remove(alloc, no, &removal, steps) {
            Ok(()) => Ok(()),
            Err(AllocError) => Err(removal),
        }
    }
}
