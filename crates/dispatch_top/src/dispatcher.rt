ghost use Rattle.std.specs.Prelude.{◌≡◌, [], IfOk, OnOk};
ghost use Rattle.input_tables.specs.Streams.{IsInRange};
ghost use Rattle.board_core.specs.BoardViews.{board_of};
ghost use Rattle.dispatch_top.specs.Answering.{AreAnswered, IsReady};
ghost use Rattle.dispatch_top.specs.Dispatching.{HistoriesAreGood};
ghost use Rattle.dispatch_top.specs.Streams.{events_said};
ghost use Rattle.dispatch_top.specs.Sums.{AreFew};

use crate::answer::{answer_cancel, answer_move, answer_ride};
use crate::answerer::Answerer;
use crate::reading::Texts;
use crate::sums::Sums;
use board_core::{Board, fleets_stay_good, promises_are_kept};
use input_tables::StreamLine;
use insertion_cost::PlainAnswers;
use ride_base::NoMemory;
use road_graph::{Graph, Steps};
use std::alloc::Global;
use stop_schedule::{NoIndex, Params};

/// Answers each event at once: its graph, what prices over it, the board, and what is counted of the answers.
#[derive(Drop)]
pub(crate) struct Dispatcher<'g> {
    graph: &'g Graph,
    answers: PlainAnswers<'g>,
    board: Board<NoIndex>,
    pub(crate) sums: Sums,
}

impl<'g> Dispatcher<'g> {
    ghost use Rattle.std.specs.Prelude.{IfOk};
    ghost use Rattle.stop_schedule.specs.Bounds.{AreVehicles};
    ghost use Rattle.dispatch_top.specs.Dispatchers.{IsOpened};

    /// Makes one ready over the texts that were read, with all vehicles at their starts.
    pub(crate) fn opening(
        alloc: Global,
        texts: &'g Texts,
        params: Params,
    ) -> Result<Dispatcher<'g>, NoMemory>
        requires { AreVehicles texts.now.graph.nodes texts.now.vehicles }
        ensures { IfOk result (IsOpened texts.now.graph params texts.now.vehicles) }
    {
        let graph = &texts.graph;
        histories_are_good(graph);
        let vehicles = texts.vehicles.as_slice();
        let board = Board::opening(alloc, graph.nodes(), params, vehicles, NoIndex)?;
        Ok(Dispatcher {
            graph,
            answers: PlainAnswers::new(alloc, graph),
            board,
            sums: Sums::new(),
        })
    }
}

/// Every legal history over a graph keeps its promises and leaves a good fleet. It does nothing: the laws are its contract.
fn histories_are_good(graph: &Graph)
    ensures { HistoriesAreGood graph.now }
{
    graph.nodes();
    promises_are_kept();
    fleets_stay_good();
}

/// Answers what a line says. The lines of its entries are added to an empty text, and they are counted. After an error the board is of
/// no use.
fn answer_said<L>(
    alloc: Global,
    graph: &Graph,
    answers: &mut PlainAnswers<'_>,
    board: &mut Board<NoIndex>,
    said: &StreamLine,
    text: &mut Vec<u8>,
    sums: &mut Sums,
    steps: &mut Steps<L>,
) -> Result<(), NoMemory>
    requires prices { answers.old.graph.now ≡ graph.now }
    requires ready { IsReady graph.now (board_of board.old) }
    requires said { IsInRange said.now }
    requires few { AreFew (board_of board.old).fleet.version sums.old }
    requires empty { text.old.items ≡ [] }
    ensures same { answers.new.graph.now ≡ answers.old.graph.now }
    ensures answered { OnOk result (AreAnswered graph.now (board_of board.old)
        (events_said said.now) (board_of board.new) text.new.items sums.old sums.new) }
{
    match said {
        StreamLine::Ride(ride) => {
            answer_ride(alloc, graph, answers, board, ride, text, sums, steps)
        },
        StreamLine::Move(now) => answer_move(alloc, board, *now, text, sums, steps),
        StreamLine::Cancel(no) => { answer_cancel(alloc, graph, board, *no, text, sums, steps) },
        StreamLine::Nothing => Ok(()),
    }
}

impl<'g> Answerer for Dispatcher<'g> {
    ghost use Rattle.std.specs.Prelude.{[]};
    ghost use Rattle.dispatch_top.specs.Dispatchers.{HasDispatched};

    ghost Has = { HasDispatched };

    ghost held = { λ _. [] };

    fn answer<L>(
        &mut self,
        alloc: Global,
        said: &StreamLine,
        text: &mut Vec<u8>,
        steps: &mut Steps<L>,
    ) -> Result<(), NoMemory> {
        histories_are_good(self.graph);
        let (answers, board) = (&mut self.answers, &mut self.board);
        let sums = &mut self.sums;
        answer_said(alloc, self.graph, answers, board, said, text, sums, steps)
    }

    fn finish<L>(
        &mut self,
        _alloc: Global,
        _text: &mut Vec<u8>,
        _steps: &mut Steps<L>,
    ) -> Result<(), NoMemory> {
        Ok(())
    }
}
