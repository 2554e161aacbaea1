ghost use Rattle.std.specs.Prelude.{◌≡◌, ◌<◌, ◌≤◌, ◌^◌, Some, [], ◌∷◌, ◌++◌, IfOk, OnOk};
ghost use Rattle.road_graph.specs.Roads.{Roads};
ghost use Rattle.stop_schedule.specs.Fleets.{IsGoodFleet};
ghost use Rattle.stop_schedule.specs.Limits.{latest_moment};
ghost use Rattle.insertion_cost.specs.Pricers.{IsAnswerOf, IsRequestIn};
ghost use Rattle.board_core.specs.BoardViews.{board_of};
ghost use Rattle.board_core.specs.Boards.{waiting_of};
ghost use Rattle.board_core.specs.FleetViews.{cars_of};
ghost use Rattle.board_core.specs.Histories.{Ride, Move, Withdraw};
ghost use Rattle.dispatch_top.specs.Answering.{AreAnswered, IsCommitted, IsReady, IsTold};
ghost use Rattle.dispatch_top.specs.Sums.{AreFew, HasRoom};
ghost use Rattle.board_core.specs.declared.entry.Entry.TheVariants as entry;
ghost use Rattle.journal_text.specs.Printable.{IsPrintable};
ghost use Rattle.dispatch_top.specs.Answering.{answer_told, as_waiting};

use crate::sums::Sums;
use crate::walker::GraphWalker;
use board_core::{Board, Entry, Fleet, Submitted, answers_are_possible};
use insertion_cost::{Decision, PlainAnswers};
use journal_text::render;
use ride_base::{NoMemory, RequestNo};
use road_graph::{Graph, Steps};
use std::alloc::{AllocError, Global};
use stop_schedule::{NoIndex, Request};

/// The answer of a fleet to a request, and the length of the direct way, which is 0 where nobody takes it.
fn decide<L>(
    alloc: Global,
    answers: &mut PlainAnswers<'_>,
    fleet: &Fleet<NoIndex>,
    request: &Request,
    steps: &mut Steps<L>,
) -> Result<(Decision, u64), NoMemory>
    requires good { IsGoodFleet answers.old.graph.now (cars_of fleet.now) }
    requires request { IsRequestIn answers.old.graph.now request.now }
    ensures same { answers.new.graph.now ≡ answers.old.graph.now }
    ensures answer { IfOk result (λ both. IsAnswerOf answers.old.graph.now
        (cars_of fleet.now) request.now both.0 both.1) }
{
    answers.answer(alloc, fleet, request, steps)
}

/// Adds the lines of an entry to a text, and counts the entry.
fn tell(alloc: Global, entry: &Entry, text: &mut Vec<u8>, sums: &mut Sums) -> Result<(), NoMemory>
    requires printable { IsPrintable entry.now }
    requires room { HasRoom sums.old }
    ensures { OnOk result
        (IsTold entry.now text.old.items text.new.items sums.old sums.new) }
{
    render(alloc, entry, text)?;
    sums.count(entry);
    Ok(())
}

/// Tells a request's answer, and hands it back.
fn tell_answer(
    alloc: Global,
    no: RequestNo,
    decision: Decision,
    text: &mut Vec<u8>,
    sums: &mut Sums,
) -> Result<Decision, NoMemory>
    requires printable { IsPrintable (entry.Commit no decision) }
    requires room { HasRoom sums.old }
    ensures answer { IfOk result (λ told. told ≡ decision) }
    ensures told { OnOk result (IsTold (entry.Commit no decision)
        text.old.items text.new.items sums.old sums.new) }
{
    let entry = Entry::Commit(no, decision);
    tell(alloc, &entry, text, sums)?;
    Ok(answer_in(entry).unwrap())
}

/// The answer that an entry tells, where it tells one.
fn answer_in(entry: Entry) -> Option<Decision>
    ensures { result ≡ answer_told entry }
{
    let Entry::Commit(_no, decision) = entry else {
        return None;
    };
    Some(decision)
}

/// Answers a request that waits, and adds the lines of its answer to a text.
fn answer_waiting<L>(
    alloc: Global,
    graph: &Graph,
    answers: &mut PlainAnswers<'_>,
    board: &mut Board<NoIndex>,
    request: &Request,
    text: &mut Vec<u8>,
    sums: &mut Sums,
    steps: &mut Steps<L>,
) -> Result<(), NoMemory>
    requires prices { answers.old.graph.now ≡ graph.now }
    requires version { (board_of board.old).fleet.version < 2 ^ 62 }
    requires nodes { (board_of board.old).nodes ≡ graph.now.nodes }
    requires good { IsGoodFleet graph.now (board_of board.old).fleet }
    requires request { IsRequestIn graph.now request.now }
    requires waits { waiting_of (board_of board.old) request.now.no
        ≡ Some (as_waiting request.now) }
    requires few { AreFew (board_of board.old).fleet.version sums.old }
    ensures same { answers.new.graph.now ≡ answers.old.graph.now }
    ensures committed { OnOk result (IsCommitted graph.now (board_of board.old) request.now.no
        (board_of board.new) text.old.items text.new.items sums.old sums.new) }
{
    answers_are_possible();
    graph.nodes();
    let (decision, direct) = decide(alloc, answers, board.fleet(), request, steps)?;
    let decision = tell_answer(alloc, request.no, decision, text, sums)?;
    match board.apply(alloc, request.no, decision, direct, steps) {
        Ok(()) => Ok(()),
        Err(_) => Err(AllocError),
    }
}

/// Submits a request, and answers it where it is accepted. The lines of its entries are added to an empty text, and they are counted.
/// After an error the board is of no use.
pub(crate) fn answer_ride<L>(
    alloc: Global,
    graph: &Graph,
    answers: &mut PlainAnswers<'_>,
    board: &mut Board<NoIndex>,
    request: &Request,
    text: &mut Vec<u8>,
    sums: &mut Sums,
    steps: &mut Steps<L>,
) -> Result<(), NoMemory>
    requires prices { answers.old.graph.now ≡ graph.now }
    requires ready { IsReady graph.now (board_of board.old) }
    requires few { AreFew (board_of board.old).fleet.version sums.old }
    requires empty { text.old.items ≡ [] }
    ensures same { answers.new.graph.now ≡ answers.old.graph.now }
    ensures answered { OnOk result (AreAnswered graph.now (board_of board.old)
        (Ride request.now ∷ []) (board_of board.new) text.new.items sums.old sums.new) }
{
    let submitted = board.submit(*request)?;
    tell(alloc, &Entry::Submit(*request, submitted), text, sums)?;
    match submitted {
        Submitted::Refused(_) => Ok(()),
        Submitted::Accepted => {
            answer_waiting(alloc, graph, answers, board, request, text, sums, steps)
        },
    }
}

/// Moves the clock. The lines of that entry are added to an empty text. After an error the board is of no use.
pub(crate) fn answer_move<L>(
    alloc: Global,
    board: &mut Board<NoIndex>,
    now: u64,
    text: &mut Vec<u8>,
    sums: &mut Sums,
    steps: &mut Steps<L>,
) -> Result<(), NoMemory>
    requires ready { (g : Roads) × IsReady g (board_of board.old) }
    requires moment { now ≤ latest_moment }
    requires few { AreFew (board_of board.old).fleet.version sums.old }
    requires empty { text.old.items ≡ [] }
    ensures { (g : Roads) → OnOk result (AreAnswered g (board_of board.old) (Move now ∷ [])
        (board_of board.new) text.new.items sums.old sums.new) }
{
    let advanced = board.advance(alloc, now, steps)?;
    tell(alloc, &Entry::Advance(now, advanced), text, sums)
}

/// Takes riders who cancel off the board. The lines of that entry are added to an empty text. After an error the board is of no use.
pub(crate) fn answer_cancel<L>(
    alloc: Global,
    graph: &Graph,
    board: &mut Board<NoIndex>,
    no: RequestNo,
    text: &mut Vec<u8>,
    sums: &mut Sums,
    steps: &mut Steps<L>,
) -> Result<(), NoMemory>
    requires ready { IsReady graph.now (board_of board.old) }
    requires few { AreFew (board_of board.old).fleet.version sums.old }
    requires empty { text.old.items ≡ [] }
    ensures { OnOk result (AreAnswered graph.now (board_of board.old) (Withdraw no ∷ [])
        (board_of board.new) text.new.items sums.old sums.new) }
{
    graph.nodes();
    let walker = GraphWalker::new(graph);
    let cancelled = board.cancel(alloc, no, &walker, steps)?;
    tell(alloc, &Entry::Cancel(no, cancelled), text, sums)
}
