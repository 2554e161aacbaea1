ghost use Rattle.std.specs.Prelude.{◌≡◌, ◌∷◌, [], IfOk, IfErr, IsOk, Err};
ghost use Rattle.ride_base.specs.Outside.{AddsName};
ghost use Rattle.dispatch_top.specs.Moves.{ReadsNames};
ghost use Rattle.dispatch_top.specs.Texts.{AreTexts, IsFleetOf, IsGraphOf};
ghost use Rattle.dispatch_top.specs.Texts.{StopsFleet, StopsGraph, StopsTexts, FailsTexts};

use crate::stops::{ReadingStop, TextStop};
use crate::words::RunNames;
use dimacs_reader::read_graph;
use input_tables::read_fleet;
use ride_base::{Items, Shelf};
use road_graph::Graph;
use std::alloc::Global;
use stop_schedule::Vehicle;

/// The texts that are read whole before a stream is answered.
#[derive(Drop)]
pub(crate) struct Texts {
    pub(crate) graph: Graph,
    pub(crate) vehicles: Items<Vehicle>,
}

/// Reads the graph and the fleet over it that are asked for.
pub(crate) fn read_texts<S: Shelf>(
    alloc: Global,
    asked: &RunNames<'_>,
    shelf: &mut S,
) -> Result<Texts, ReadingStop>
    ensures texts { IfOk result (λ texts. AreTexts asked.now.graph.now asked.now.fleet.now
        (S.seen shelf.old) (S.seen shelf.new) texts.graph texts.vehicles) }
    ensures stops { IfErr result (StopsTexts asked.now.graph.now asked.now.fleet.now
        (S.seen shelf.old) (S.seen shelf.new)) }
    ensures shelf { ReadsNames (asked.now.graph.now ∷ asked.now.fleet.now ∷ [])
        (FailsTexts result) (S.seen shelf.old) (S.seen shelf.new) }
{
    match read_graph_of(alloc, asked.graph, shelf) {
        Err(stop) => Err(ReadingStop::Graph(stop)),
        Ok(graph) => match read_fleet_of(alloc, asked.fleet, graph.nodes(), shelf) {
            Err(stop) => Err(ReadingStop::Fleet(stop)),
            Ok(vehicles) => Ok(Texts { graph, vehicles }),
        },
    }
}

/// Begins the text of a graph, and reads it.
pub(crate) fn read_graph_of<S: Shelf>(
    alloc: Global,
    name: &str,
    shelf: &mut S,
) -> Result<Graph, TextStop>
    ensures graph { IfOk result (IsGraphOf (S.seen shelf.old) name.now) }
    ensures named { IsOk result → AddsName (S.seen shelf.old) name.now (S.seen shelf.new) }
    ensures stops { IfErr result (StopsGraph name.now (S.seen shelf.old) (S.seen shelf.new)) }
    ensures shelf { ReadsNames (name.now ∷ []) (result ≡ Err TextStop.ReadFault)
        (S.seen shelf.old) (S.seen shelf.new) }
{
    shelf.begin(name)?;
    Ok(read_graph(alloc, shelf)?)
}

/// Begins the text of a fleet over a graph of so many nodes, and reads it.
fn read_fleet_of<S: Shelf>(
    alloc: Global,
    name: &str,
    nodes: u32,
    shelf: &mut S,
) -> Result<Items<Vehicle>, TextStop>
    ensures fleet { IfOk result (IsFleetOf (S.seen shelf.old) name.now nodes) }
    ensures named { IsOk result → AddsName (S.seen shelf.old) name.now (S.seen shelf.new) }
    ensures stops { IfErr result
        (StopsFleet nodes name.now (S.seen shelf.old) (S.seen shelf.new)) }
    ensures shelf { ReadsNames (name.now ∷ []) (result ≡ Err TextStop.ReadFault)
        (S.seen shelf.old) (S.seen shelf.new) }
{
    shelf.begin(name)?;
    Ok(read_fleet(alloc, shelf, nodes)?)
}
