ghost use Rattle.std.specs.Prelude.{◌≡◌, ◌<◌, ◌≤◌, ◌^◌, length, IfOk, OnErr, OnOk};
ghost use Rattle.road_graph.specs.Graphs.{IsGraph};
ghost use Rattle.road_graph.specs.Roads.{Roads};
ghost use Rattle.stop_schedule.specs.Limits.{latest_moment};
ghost use Rattle.insertion_cost.specs.Pricers.{IsAnswerOf, IsRequestIn};
ghost use Rattle.commit_check.specs.Settled.{IsDecision};
ghost use Rattle.board_core.specs.BoardCalls.{FitsOn};
ghost use Rattle.board_core.specs.BoardViews.{board_of};
ghost use Rattle.board_core.specs.FleetViews.{cars_of};
ghost use Rattle.board_core.specs.Steps.{Step};
ghost use Rattle.board_core.specs.declared.entry.Entry.TheVariants as entry;
ghost use Rattle.interleave_core.specs.Holdings.{IsWaitingFor};
ghost use Rattle.interleave_core.specs.WorldLaws.{ActsOver, HasActed, IsAsBefore, StaysOver};
ghost use Rattle.interleave_core.specs.Worlds.{IsEventFor, IsWorldOver};
ghost use Rattle.interleave_core.specs.declared.event.Event.TheVariants as event;

use crate::event::Event;
use crate::holding::Holding;
use crate::world::World;
use board_core::{
    Board, Entry, Fleet, answers_are_possible, boards_are_consistent, boards_stay_good,
    candidates_stay_sound,
};
use insertion_cost::{Decision, Pricer};
use ride_base::NoMemory;
use road_graph::Steps;
use std::alloc::{AllocError, Global};
use stop_schedule::{FleetIndex, FleetView, Request};

impl<I: FleetIndex + Drop> World<I> {
    /// Submits a request. After an error nothing has changed.
    fn submit(&mut self, request: Request) -> Result<(), NoMemory>
        requires version { (board_of self.old.board).fleet.version < 2 ^ 62 }
        ensures acted { OnOk result (ActsOver I.fits self.old (event.Submit request) self.new) }
        ensures err { OnErr result (IsAsBefore self.old self.new) }
        ensures over { StaysOver I.fits self.old self.new }
    {
        self.stays_over();
        self.journal.reserve(1)?;
        let submitted = self.board.submit(request)?;
        self.journal
            .push_reserved(Entry::Submit(request, submitted));
        Ok(())
    }

    /// Moves the clock to a moment. After an error nothing has changed.
    fn advance<L>(&mut self, alloc: Global, now: u64, steps: &mut Steps<L>) -> Result<(), NoMemory>
        requires version { (board_of self.old.board).fleet.version < 2 ^ 62 }
        requires moment { now ≤ latest_moment }
        ensures acted { OnOk result (ActsOver I.fits self.old (event.Advance now) self.new) }
        ensures err { OnErr result (IsAsBefore self.old self.new) }
        ensures over { StaysOver I.fits self.old self.new }
        ensures steps { steps.old.0 ≤ steps.new.0 }
        ensures asks { steps.new.1 ≡ steps.old.1 }
    {
        self.stays_over();
        self.journal.reserve(1)?;
        let advanced = self.board.advance(alloc, now, steps)?;
        self.journal.push_reserved(Entry::Advance(now, advanced));
        Ok(())
    }

    /// Closes the board, if it is open. After an error nothing has changed.
    fn shut(&mut self) -> Result<(), NoMemory>
        requires version { (board_of self.old.board).fleet.version < 2 ^ 62 }
        ensures acted { OnOk result (ActsOver I.fits self.old event.Shut self.new) }
        ensures err { OnErr result (IsAsBefore self.old self.new) }
        ensures over { StaysOver I.fits self.old self.new }
    {
        if self.board.is_closed() {
            return Ok(());
        }
        self.stays_over();
        self.journal.reserve(1)?;
        self.board.shut();
        self.journal.push_reserved(Entry::Shut);
        Ok(())
    }

    /// Lets an actor that holds nothing claim the oldest request that no desk holds. After an error nothing has changed.
    fn claim(&mut self, alloc: Global, actor: usize) -> Result<(), NoMemory>
        requires version { (board_of self.old.board).fleet.version < 2 ^ 62 }
        requires actor { actor < length self.old.actors.items }
        ensures acted { OnOk result (ActsOver I.fits self.old (event.Claim actor) self.new) }
        ensures err { OnErr result (IsAsBefore self.old self.new) }
        ensures over { StaysOver I.fits self.old self.new }
    {
        if !self.is_free(actor) || self.board.waiting().is_none() {
            return Ok(());
        }
        self.stays_over();
        self.journal.reserve(1)?;
        let desk = actor as u64;
        if let Some((request, fleet)) = self.board.claim_with_fleet(alloc, desk)? {
            self.journal.push_reserved(Entry::Claim(request.no, desk));
            self.actors[actor] = Holding::Claimed(request, fleet);
        }
        Ok(())
    }

    /// Lets an actor price the request that it claimed. After an error nothing has changed.
    fn price<P: Pricer<Fleet<I>>, L>(
        &mut self,
        alloc: Global,
        actor: usize,
        pricer: &P,
        steps: &mut Steps<L>,
    ) -> Result<(), NoMemory>
        requires over { IsWorldOver I.fits (P.graph pricer.now) self.old }
        requires actor { actor < length self.old.actors.items }
        ensures acted { OnOk result
            (HasActed (P.graph pricer.now) self.old (event.Price actor) self.new) }
        ensures err { OnErr result (IsAsBefore self.old self.new) }
        ensures over { IsWorldOver I.fits (P.graph pricer.now) self.new }
        ensures steps { steps.old.0 ≤ steps.new.0 }
        ensures asks { steps.old.1 ≤ steps.new.1 }
    {
        if let Some((request, candidates)) = self.priced(alloc, actor, pricer, steps)? {
            self.actors[actor] = Holding::Priced(request, candidates);
        }
        Ok(())
    }

    /// Lets an actor commit the request that it priced. After an error nothing has changed.
    fn commit<P: Pricer<Fleet<I>>, L>(
        &mut self,
        alloc: Global,
        actor: usize,
        pricer: &P,
        steps: &mut Steps<L>,
    ) -> Result<(), NoMemory>
        requires version { (board_of self.old.board).fleet.version < 2 ^ 62 }
        requires over { IsWorldOver I.fits (P.graph pricer.now) self.old }
        requires actor { actor < length self.old.actors.items }
        ensures acted { OnOk result
            (HasActed (P.graph pricer.now) self.old (event.Commit actor) self.new) }
        ensures err { OnErr result (IsAsBefore self.old self.new) }
        ensures over { IsWorldOver I.fits (P.graph pricer.now) self.new }
        ensures steps { steps.old.0 ≤ steps.new.0 }
        ensures asks { steps.old.1 ≤ steps.new.1 }
    {
        let Some((request, decision)) = self.settled(alloc, actor, pricer, steps)? else {
            return Ok(());
        };
        self.stays_over();
        self.journal.reserve(1)?;
        let board = &mut self.board;
        let told = answer(alloc, board, &request, decision, pricer, steps)?;
        self.journal.push_reserved(Entry::Commit(request.no, told));
        self.actors[actor] = Holding::Nothing;
        Ok(())
    }

    /// Lets an actor give back the request that it holds. After an error nothing has changed.
    fn give_back(&mut self, actor: usize) -> Result<(), NoMemory>
        requires version { (board_of self.old.board).fleet.version < 2 ^ 62 }
        requires over { (g : Roads) × IsWorldOver I.fits g self.old }
        requires actor { actor < length self.old.actors.items }
        ensures acted { OnOk result (ActsOver I.fits self.old (event.Back actor) self.new) }
        ensures err { OnErr result (IsAsBefore self.old self.new) }
        ensures over { StaysOver I.fits self.old self.new }
    {
        let Some(no) = self.number_held(actor) else {
            return Ok(());
        };
        self.stays_over();
        self.journal.reserve(1)?;
        self.board.back(no);
        self.journal.push_reserved(Entry::Back(no));
        self.actors[actor] = Holding::Nothing;
        Ok(())
    }

    /// Plays an event. After an error nothing has changed.
    pub(crate) fn act<P: Pricer<Fleet<I>>, L>(
        &mut self,
        alloc: Global,
        event: &Event,
        pricer: &P,
        steps: &mut Steps<L>,
    ) -> Result<(), NoMemory>
        requires version { (board_of self.old.board).fleet.version < 2 ^ 62 }
        requires over { IsWorldOver I.fits (P.graph pricer.now) self.old }
        requires event { IsEventFor (length self.old.actors.items) event.now }
        ensures acted { OnOk result (HasActed (P.graph pricer.now) self.old event.now self.new) }
        ensures err { OnErr result (IsAsBefore self.old self.new) }
        ensures over { IsWorldOver I.fits (P.graph pricer.now) self.new }
        ensures steps { steps.old.0 ≤ steps.new.0 }
        ensures asks { steps.old.1 ≤ steps.new.1 }
    {
        match event {
            Event::Submit(request) => self.submit(*request),
            Event::Claim(actor) => self.claim(alloc, *actor),
            Event::Price(actor) => self.price(alloc, *actor, pricer, steps),
            Event::Commit(actor) => self.commit(alloc, *actor, pricer, steps),
            Event::Back(actor) => self.give_back(*actor),
            Event::Advance(now) => self.advance(alloc, *now, steps),
            Event::Shut => self.shut(),
        }
    }
}

/// Gives a request that waits its answer, which is handed back. After an error nothing has changed.
fn answer<I: FleetIndex + Drop, P: Pricer<Fleet<I>>, L>(
    alloc: Global,
    board: &mut Board<I>,
    request: &Request,
    decision: Decision,
    pricer: &P,
    steps: &mut Steps<L>,
) -> Result<Decision, NoMemory>
    requires version { (board_of board.old).fleet.version < 2 ^ 62 }
    requires graph { IsGraph (P.graph pricer.now) }
    requires nodes { (P.graph pricer.now).nodes ≡ board.old.nodes }
    requires request { IsRequestIn (P.graph pricer.now) request.now }
    requires waits { IsWaitingFor (board_of board.old) request.now }
    requires decision { IsDecision
        (P.graph pricer.now) (board_of board.old).fleet request.now decision }
    ensures entry { IfOk result (λ told. Step (P.graph pricer.now) (board_of board.old)
        (entry.Commit request.now.no told) (board_of board.new)) }
    ensures index { OnOk result (FitsOn (I.fits board.old.fleet.index)
        (I.fits board.new.fleet.index) (board_of board.old) (board_of board.new)) }
    ensures err { OnErr result (board.new ≡ board.old) }
    ensures steps { steps.old.0 ≤ steps.new.0 }
    ensures asks { steps.old.1 ≤ steps.new.1 }
{
    answers_are_possible();
    let direct = direct_way(alloc, board.fleet(), request, &decision, pricer, steps)?;
    let told = decision.share(alloc)?;
    match board.apply(alloc, request.no, decision, direct, steps) {
        Ok(()) => Ok(told),
        Err(_decision) => Err(AllocError),
    }
}

/// The length of the direct way of an answer, which is 0 where nobody takes the request.
fn direct_way<F: FleetView, P: Pricer<F>, L>(
    alloc: Global,
    fleet: &F,
    request: &Request,
    decision: &Decision,
    pricer: &P,
    steps: &mut Steps<L>,
) -> Result<u64, NoMemory>
    requires request { IsRequestIn (P.graph pricer.now) request.now }
    requires decision { IsDecision
        (P.graph pricer.now) (F.fleet fleet.now) request.now decision.now }
    ensures answer { IfOk result
        (IsAnswerOf (P.graph pricer.now) (F.fleet fleet.now) request.now decision.now) }
    ensures steps { steps.old.0 ≤ steps.new.0 }
    ensures asks { steps.old.1 ≤ steps.new.1 }
{
    match decision {
        Decision::Nobody => Ok(0),
        Decision::Assigned(_) => {
            let direct = pricer.direct(alloc, request, steps)?;
            Ok(direct.unwrap_or(0))
        }
    }
}
