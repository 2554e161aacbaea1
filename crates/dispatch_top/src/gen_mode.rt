ghost use Rattle.std.specs.Prelude.{◌≡◌, ◌≢◌, ◌≤◌, Err, IfOk, length, true};
ghost use Rattle.city_gen.specs.Cities.{AreInRange};
ghost use Rattle.city_gen.specs.declared.cities.City.{City};
ghost use Rattle.command_words.specs.Commands.{Gen as GenForm};
ghost use Rattle.ride_base.specs.Calls.{call_of};
ghost use Rattle.ride_base.specs.Outside.{ShelfState};
ghost use Rattle.ride_base.specs.Pieces.{largest_text};
ghost use Rattle.road_graph.specs.Faults.{fault_in};
ghost use Rattle.stop_schedule.specs.Bounds.{AreVehicles};
ghost use Rattle.stop_schedule.specs.Rates.{usual};
ghost use Rattle.dispatch_top.specs.Ends.{EndsForm};
ghost use Rattle.dispatch_top.specs.GenMode.{AreSumsOf, IsSummary, WritesSummary};
ghost use Rattle.dispatch_top.specs.GenMode.{lines_asked, roads_of};
ghost use Rattle.dispatch_top.specs.Moves.{Writes};

use crate::answerer::Answerer;
use crate::dispatcher::Dispatcher;
use crate::reading::Texts;
use crate::status::Status;
use crate::stops::OutputStop;
use crate::sums::Sums;
use city_gen::{City, make_city};
use contraction::contract;
use input_tables::StreamLine;
use ride_base::{NoMemory, Sink, write_whole};
use road_graph::{Graph, Steps};
use std::alloc::{AllocError, Global};
use std::fmt;
use stop_schedule::Params;

/// What came of a made city.
#[derive(Clone, Copy, Debug, PartialEq, Eq)]
pub(crate) struct Summary {
    /// Its number.
    pub(crate) city: u64,
    /// How many nodes, roads and vehicles it has.
    pub(crate) nodes: u32,
    pub(crate) roads: u32,
    pub(crate) vehicles: usize,
    /// What is counted of its history.
    pub(crate) sums: Sums,
    /// How many arcs, climbing and falling, a hierarchy of its roads has.
    pub(crate) shortcuts: u64,
}

/// Each number on a line, behind its name.
impl fmt::Display for Summary {
    ghost use Rattle.std.specs.Prelude.{Some};
    ghost use Rattle.dispatch_top.specs.GenMode.{summary_text};

    ghost output = { λ s. Some (summary_text s) };

    fn fmt<W: fmt::Write>(&self, f: &mut fmt::Formatter<W>) -> fmt::Result {
        writeln!(f, "city {}", self.city)?;
        writeln!(f, "nodes {}", self.nodes)?;
        writeln!(f, "roads {}", self.roads)?;
        writeln!(f, "vehicles {}", self.vehicles)?;
        write!(f, "{}", self.sums)?;
        writeln!(f, "shortcuts {}", self.shortcuts)
    }
}

/// Makes the city of a number, answers the lines of its stream, and writes what came of it.
pub(crate) fn print_summary<K: Sink, L>(
    alloc: Global,
    number: u64,
    sink: &mut K,
    steps: &mut Steps<L>,
) -> Status
    ensures ends { (shelf : ShelfState) → EndsForm true (GenForm number) result
        (call_of shelf (K.seen sink.old) shelf (K.seen sink.new)) }
    ensures unread { result ≢ Status.ReadFault }
    ensures sink { Writes (result ≡ Status.WriteFault) (K.seen sink.old) (K.seen sink.new) }
{
    match write_summary(alloc, number, sink, steps) {
        Ok(()) => Status::Done,
        Err(stop) => stop.status(),
    }
}

/// Writes the summary of the city of a number.
fn write_summary<K: Sink, L>(
    alloc: Global,
    number: u64,
    sink: &mut K,
    steps: &mut Steps<L>,
) -> Result<(), OutputStop>
    ensures summary { WritesSummary number result (K.seen sink.old).taken (K.seen sink.new).taken }
    ensures sink { Writes (result ≡ Err OutputStop.WriteFault) (K.seen sink.old) (K.seen sink.new) }
{
    let city = make_city(alloc, number)?;
    let summary = summarize(alloc, number, city, steps)?;
    let text = summary.to_string(alloc)?;
    write_whole(sink, text.as_bytes())?;
    Ok(())
}

/// What comes of a made city.
fn summarize<L>(
    alloc: Global,
    number: u64,
    city: City,
    steps: &mut Steps<L>,
) -> Result<Summary, NoMemory>
    requires graph { fault_in city.nodes city.roads ≡ None }
    requires vehicles { AreVehicles city.nodes city.fleet }
    requires ranges { AreInRange city.lines }
    requires lines { length city.lines ≤ largest_text }
    ensures { IfOk result (IsSummary number city) }
{
    let texts = Texts {
        graph: graph_of(alloc, &city)?,
        vehicles: city.fleet,
    };
    let sums = answer_lines(alloc, &texts, city.lines.as_slice(), steps)?;
    let hierarchy = contract(alloc, &texts.graph, steps)?;
    Ok(Summary {
        city: number,
        nodes: texts.graph.nodes(),
        roads: texts.graph.roads(),
        vehicles: texts.vehicles.len(),
        sums,
        shortcuts: hierarchy.arcs(),
    })
}

/// The graph of a made city.
fn graph_of(alloc: Global, city: &City) -> Result<Graph, NoMemory>
    requires { fault_in city.now.nodes city.now.roads ≡ None }
    ensures { IfOk result (λ g. g ≡ roads_of city.now) }
{
    match Graph::build(alloc, city.nodes, city.roads.as_slice()) {
        Ok(graph) => Ok(graph),
        Err(_) => Err(AllocError),
    }
}

/// Answers lines over a graph and a fleet by the usual rates, and counts the answers. Their text isn't kept.
fn answer_lines<L>(
    alloc: Global,
    texts: &Texts,
    lines: &[StreamLine],
    steps: &mut Steps<L>,
) -> Result<Sums, NoMemory>
    requires vehicles { AreVehicles texts.now.graph.nodes texts.now.vehicles }
    requires ranges { AreInRange lines.now }
    requires few { length lines.now ≤ largest_text }
    ensures { IfOk result
        (AreSumsOf texts.now.graph usual texts.now.vehicles (lines_asked lines.now)) }
{
    let mut dispatcher = Dispatcher::opening(alloc, texts, Params::usual())?;
    let mut text = Vec::new(alloc);
    for line in lines {
        text.clear();
        dispatcher.answer(alloc, line, &mut text, steps)?;
    }
    Ok(dispatcher.sums)
}
