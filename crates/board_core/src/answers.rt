ghost use Rattle.std.specs.Prelude.{◌≡◌, ◌<◌, ◌≤◌, ◌^◌, OnOk, IfOk, IfErr};
ghost use Rattle.road_graph.specs.Limits.{far};
ghost use Rattle.board_core.specs.BoardCalls.{Applies, Commits, FitsOn, MayApply};
ghost use Rattle.board_core.specs.BoardViews.{board_of};
ghost use Rattle.board_core.specs.Changes.{IsTakenOn};
ghost use Rattle.board_core.specs.Steps.{answered};

use crate::board::Board;
use crate::changes::Change;
use insertion_cost::{Assigned, Decision, promise};
use ride_base::{NoMemory, RequestNo};
use road_graph::Steps;
use std::alloc::{AllocError, Global};
use stop_schedule::{FleetIndex, FleetView};

impl<I: FleetIndex + Drop> Board<I> {
    /// Answers a request that waits: it waits no more, and where a vehicle is assigned, that vehicle takes it in, with the limits that
    /// follow from the length of the direct way, in the units of the roads' weights. The index is moved along; the roads that it reads
    /// are counted. The error is want of memory: it hands the decision back, and nothing has changed.
    pub fn apply<L>(
        &mut self,
        alloc: Global,
        no: RequestNo,
        decision: Decision,
        direct: u64,
        steps: &mut Steps<L>,
    ) -> Result<(), Decision>
        requires version { (board_of self.old).fleet.version < 2 ^ 62 }
        requires direct { direct < far }
        requires possible { MayApply (board_of self.old) no decision direct }
        ensures value { OnOk result
            (Applies (board_of self.old) no decision direct (board_of self.new)) }
        ensures commits { OnOk result
            (Commits (board_of self.old) no decision direct (board_of self.new)) }
        ensures index { OnOk result (FitsOn (I.fits self.old.fleet.index)
            (I.fits self.new.fleet.index) (board_of self.old) (board_of self.new)) }
        ensures back { IfErr result (λ handed. (handed ≡ decision) × (self.new ≡ self.old)) }
        ensures steps { steps.old.0 ≤ steps.new.0 }
        ensures asks { steps.new.1 ≡ steps.old.1 }
    {
        match decision {
            Decision::Assigned(assigned) => self.assign(alloc, no, assigned, direct, steps),
            Decision::Nobody => self.turn_down(no),
        }
    }

    /// Answers a request that waits with nobody.
    fn turn_down(&mut self, no: RequestNo) -> Result<(), Decision>
        requires { self.old.fleet.version < 2 ^ 62 }
        ensures value { OnOk result
            (board_of self.new ≡ answered (board_of self.old) no Decision.Nobody) }
        ensures index { OnOk result (self.new.fleet.index ≡ self.old.fleet.index) }
        ensures back { IfErr result
            (λ handed. (handed ≡ Decision.Nobody) × (self.new ≡ self.old)) }
    {
        if let Err(failed) = self.answers.insert(no, Decision::Nobody) {
            return Err(failed.value.1);
        }
        self.waiting.remove(no);
        self.fleet.version += 1;
        Ok(())
    }

    /// Answers a request that waits with an assignment.
    fn assign<L>(
        &mut self,
        alloc: Global,
        no: RequestNo,
        assigned: Assigned,
        direct: u64,
        steps: &mut Steps<L>,
    ) -> Result<(), Decision>
        requires version { self.old.fleet.version < 2 ^ 62 }
        requires direct { direct < far }
        requires possible { MayApply (board_of self.old) no (Decision.Assigned assigned) direct }
        ensures value { OnOk result (Applies (board_of self.old) no (Decision.Assigned assigned)
            direct (board_of self.new)) }
        ensures index { OnOk result (FitsOn (I.fits self.old.fleet.index)
            (I.fits self.new.fleet.index) (board_of self.old) (board_of self.new)) }
        ensures back { IfErr result
            (λ handed. (handed ≡ Decision.Assigned assigned) × (self.new ≡ self.old)) }
        ensures steps { steps.old.0 ≤ steps.new.0 }
        ensures asks { steps.new.1 ≡ steps.old.1 }
    {
        let Ok(change) = self.taken_on(alloc, no, &assigned, direct, steps) else {
            return Err(Decision::Assigned(assigned));
        };
        if let Err(failed) = self.answers.insert(no, Decision::Assigned(assigned)) {
            return Err(failed.value.1);
        }
        let (place, next) = (change.place, change.next);
        if let Err(AllocError) = self.fleet.set(alloc, change) {
            return match self.answers.remove(&no) {
                Some(decision) => Err(decision),
                None => unreachable!(),
            };
        }
        self.arrivals.set(place, next);
        self.waiting.remove(no);
        Ok(())
    }

    /// The vehicle of an assignment with the request taken in.
    fn taken_on<L>(
        &self,
        alloc: Global,
        no: RequestNo,
        assigned: &Assigned,
        direct: u64,
        steps: &mut Steps<L>,
    ) -> Result<Change<I>, NoMemory>
        requires version { self.now.fleet.version < 2 ^ 62 }
        requires direct { direct < far }
        requires possible { MayApply (board_of self.now) no
            (Decision.Assigned assigned.now) direct }
        ensures change { IfOk result (λ c. IsTakenOn (I.fits self.now.fleet.index)
            (I.fits c.index) (board_of self.now) no assigned.now direct c.place c.car c.next) }
        ensures steps { steps.old.0 ≤ steps.new.0 }
        ensures asks { steps.new.1 ≡ steps.old.1 }
    {
        let Some(waiting) = self.waiting.find(no) else {
            unreachable!()
        };
        let offer = assigned.offer;
        let request = &waiting.request;
        let front = self.fleet.front(offer.place);
        let limits = promise(
            self.fleet.params(),
            request,
            direct,
            offer.leave,
            offer.arrive,
        );
        let new = self
            .fleet
            .schedule(offer.place)
            .inserted(alloc, &front, request, offer.at, &limits, &assigned.walks)?;
        self.fleet.change(alloc, offer.place, new, steps)
    }
}
