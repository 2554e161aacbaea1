//! A board with its journal, as it lies under the lock, and what each call does to them in its turn.
ghost use Rattle.std.specs.Prelude.{◌≡◌, ℕ, ◌<◌, ◌≤◌, ◌^◌, length, IfOk, OnErr, OnOk};
ghost use Rattle.road_graph.specs.Roads.{Roads};
ghost use Rattle.stop_schedule.specs.Limits.{latest_moment};
ghost use Rattle.insertion_cost.specs.Candidates.{AreSound};
ghost use Rattle.board_core.specs.BoardCalls.{IsDecisionFor};
ghost use Rattle.board_core.specs.BoardViews.{board_of};
ghost use Rattle.board_core.specs.declared.entry.Entry.TheVariants as entry;
ghost use Rattle.commit_check.specs.Settled.{HoldChanged};
ghost use Rattle.fleet_board.specs.Openings.{Opening};
ghost use Rattle.fleet_board.specs.Records.{AsksFor, ClaimsOn, GoesOn, IsHeldBy, IsRecord};
ghost use Rattle.fleet_board.specs.Records.{IsRecordOf, NotesOn, NotesOver, ShutsOn, StaysOn};

use crate::claims::{Claim, Claimed};
use crate::journal::{Journal, Noted};
use crate::named::named_places;
use crate::origin::Origin;
use board_core::{
    Advanced, Board, Cancelled, Entry, Fleet, Submitted, boards_are_consistent, boards_stay_good,
    changed_vehicles_are_named, desks_hold_claims, requests_wait_once, versions_rise,
};
use commit_check::settle_among;
use insertion_cost::{Candidates, Decision, Pricer};
use ride_base::{NoMemory, RequestNo};
use road_graph::Steps;
use std::alloc::Global;
use stop_removal::Walker;
use stop_schedule::{FleetIndex, Request};
use turn_lock::Recorded;

/// A board with the journal of its entries.
#[derive(Drop)]
pub struct RecordedBoard<I: FleetIndex> {
    pub(crate) board: Board<I>,
    pub(crate) journal: Journal,
}

impl<I: FleetIndex> Recorded for RecordedBoard<I> {
    type Entry = Entry;

    type Origin = Origin;

    ghost use Rattle.fleet_board.specs.Records.{IsRecordOf};

    ghost noted = { λ v. v.journal.noted };

    ghost IsFrom = { λ o v. IsRecordOf I.fits o v };

    fn noted_count(&self) -> u64 {
        self.journal.count()
    }
}

impl<I: FleetIndex + Drop> RecordedBoard<I> {
    /// What each lawful entry leaves. It does nothing: the law is its contract.
    fn goes_on(&self)
        ensures { GoesOn I.fits self.now }
    {
        boards_stay_good();
        versions_rise();
        desks_hold_claims();
        boards_are_consistent(&self.board);
    }

    /// Submits a request. After an error nothing has changed.
    pub(crate) fn submit(&mut self, desk: u64, request: Request) -> Result<Submitted, NoMemory>
        requires few { length self.old.journal.noted < 2 ^ 62 }
        requires record_ { IsRecord I.fits self.old }
        ensures ok { IfOk result (λ submitted.
            NotesOn I.fits self.old desk (entry.Submit request submitted) self.new) }
        ensures err { OnErr result (StaysOn I.fits self.old self.new) }
    {
        self.goes_on();
        self.journal.reserve(1)?;
        let submitted = self.board.submit(request)?;
        self.journal.note(desk, Entry::Submit(request, submitted));
        Ok(submitted)
    }

    /// Gives a desk the oldest request that none holds, with the fleet as it is behind the claim. Where there is none, nothing changes, and
    /// after an error nothing has changed.
    pub(crate) fn claim(&mut self, alloc: Global, desk: u64) -> Result<Claim<I>, NoMemory>
        requires few { length self.old.journal.noted < 2 ^ 62 }
        requires record_ { IsRecord I.fits self.old }
        ensures ok { IfOk result (λ claim. ClaimsOn I.fits self.old desk claim self.new) }
        ensures err { OnErr result (StaysOn I.fits self.old self.new) }
    {
        self.goes_on();
        desks_hold_claims();
        requests_wait_once(&self.board);
        self.journal.reserve(2)?;
        match self.board.claim_with_fleet(alloc, desk)? {
            None => Ok(Claim::Empty {
                closed: self.board.is_closed(),
            }),
            Some((request, snapshot)) => {
                self.journal
                    .note_claim(desk, Entry::Claim(request.no, desk));
                Ok(Claim::Work(Claimed { request, snapshot }))
            }
        }
    }

    /// The places of all vehicles whose schedules changed after a version, and maybe of others. It reads the entries that were noted since
    /// then, and no vehicle that none of them names.
    fn changed_since(&self, alloc: Global, version: u64) -> Result<Vec<usize>, NoMemory>
        requires record_ { IsRecord I.fits self.now }
        requires version { version ≤ (board_of self.now.board).fleet.version }
        ensures { IfOk result (λ places.
            HoldChanged (board_of self.now.board).fleet version places.items) }
    {
        boards_stay_good();
        versions_rise();
        desks_hold_claims();
        changed_vehicles_are_named();
        let since = self.journal.since(version as usize);
        named_places(alloc, self.board.fleet(), since)
    }

    /// Answers a request that a desk holds, by candidates that are sound for the fleet as it is. What its turn takes beside pricing grows
    /// with the entries since the candidates' base, and not with the fleet, unless the whole fleet is to be priced. After an error nothing has changed.
    pub(crate) fn commit<P: Pricer<Fleet<I>>, L>(
        &mut self,
        alloc: Global,
        desk: u64,
        request: &Request,
        candidates: &Candidates,
        pricer: &P,
        steps: &mut Steps<L>,
    ) -> Result<Decision, NoMemory>
        requires few { length self.old.journal.noted < 2 ^ 62 }
        requires record_ { (o : Opening)
            × (o.graph ≡ P.graph pricer.now) × IsRecordOf I.fits o self.old }
        requires held { IsHeldBy (board_of self.old.board) desk request.now }
        requires sound { AreSound (P.graph pricer.now)
            (board_of self.old.board).fleet request.now candidates.now }
        ensures ok { IfOk result (λ decision. NotesOver I.fits (P.graph pricer.now)
            self.old desk (entry.Commit request.now.no decision) self.new) }
        ensures decided { IfOk result (IsDecisionFor (P.graph pricer.now)
            (board_of self.old.board).fleet request.now) }
        ensures err { OnErr result (StaysOn I.fits self.old self.new) }
        ensures steps { steps.old.0 ≤ steps.new.0 }
        ensures asks { AsksFor (P.graph pricer.now) (board_of self.old.board).fleet
            request.now candidates.now steps.old.1 steps.new.1 }
    {
        self.goes_on();
        requests_wait_once(&self.board);
        let places = self.changed_since(alloc, candidates.base)?;
        let decision = settle_among(
            alloc,
            self.board.fleet(),
            &places,
            candidates,
            request,
            pricer,
            steps,
        )?;
        let told = decision.share(alloc)?;
        let noted = self
            .board
            .answer_with_copy(alloc, request, decision, pricer, steps)?;
        self.journal
            .note_owed(desk, Entry::Commit(request.no, noted));
        Ok(told)
    }

    /// Takes a request back from the desk that holds it.
    pub(crate) fn give_back(&mut self, desk: u64, request: &Request)
        requires few { length self.old.journal.noted < 2 ^ 62 }
        requires record_ { IsRecord I.fits self.old }
        requires held { IsHeldBy (board_of self.old.board) desk request.now }
        ensures { NotesOn I.fits self.old desk (entry.Back request.now.no) self.new }
    {
        self.goes_on();
        self.board.back(request.no);
        self.journal.note_owed(desk, Entry::Back(request.no));
    }

    /// Moves the clock to a moment, at most 2^40. After an error nothing has changed.
    pub(crate) fn advance<L>(
        &mut self,
        alloc: Global,
        desk: u64,
        now: u64,
        steps: &mut Steps<L>,
    ) -> Result<Advanced, NoMemory>
        requires few { length self.old.journal.noted < 2 ^ 62 }
        requires record_ { IsRecord I.fits self.old }
        requires moment { now ≤ latest_moment }
        ensures ok { IfOk result (λ advanced.
            NotesOn I.fits self.old desk (entry.Advance now advanced) self.new) }
        ensures err { OnErr result (StaysOn I.fits self.old self.new) }
        ensures steps { steps.old.0 ≤ steps.new.0 }
        ensures asks { steps.new.1 ≡ steps.old.1 }
    {
        self.goes_on();
        self.journal.reserve(1)?;
        let (advanced, noted) = self.board.advance_with_copy(alloc, now, steps)?;
        self.journal.note(desk, Entry::Advance(now, noted));
        Ok(advanced)
    }

    /// Takes the riders of a number out of the list of their vehicle, or says why they can't cancel. After an error nothing has changed.
    pub(crate) fn cancel<W: Walker, L>(
        &mut self,
        alloc: Global,
        desk: u64,
        no: RequestNo,
        walker: &W,
        steps: &mut Steps<L>,
    ) -> Result<Cancelled, NoMemory>
        requires few { length self.old.journal.noted < 2 ^ 62 }
        requires record_ { (o : Opening)
            × (o.graph ≡ W.graph walker.now) × IsRecordOf I.fits o self.old }
        ensures ok { IfOk result (λ cancelled. NotesOver I.fits (W.graph walker.now)
            self.old desk (entry.Cancel no cancelled) self.new) }
        ensures err { OnErr result (StaysOn I.fits self.old self.new) }
        ensures steps { steps.old.0 ≤ steps.new.0 }
        ensures asks { steps.new.1 ≡ steps.old.1 }
    {
        self.goes_on();
        self.journal.reserve(1)?;
        let (cancelled, noted) = self.board.cancel_with_copy(alloc, no, walker, steps)?;
        self.journal.note(desk, Entry::Cancel(no, noted));
        Ok(cancelled)
    }

    /// Closes the board. A closed board stays as it is.
    pub(crate) fn shut(&mut self, desk: u64)
        requires few { length self.old.journal.noted < 2 ^ 62 }
        requires record_ { IsRecord I.fits self.old }
        ensures { ShutsOn I.fits self.old desk self.new }
    {
        if self.board.is_closed() {
            return;
        }
        self.goes_on();
        self.board.shut();
        self.journal.note_owed(desk, Entry::Shut);
    }
}
