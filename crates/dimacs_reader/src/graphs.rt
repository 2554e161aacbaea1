ghost use Rattle.std.specs.Prelude.{◌≡◌, ◌≢◌, ℕ, ◌<◌, ◌≤◌, ◌++◌, true, false, IfOk, IfErr, IfSome, IfNone, IsOk, Err, None, OnOk, OnErr};
ghost use Rattle.std.specs.Option.{option_to_list};
ghost use Rattle.ride_base.specs.Outside.{CountRose, CountStays, OnlyRead};
ghost use Rattle.road_graph.specs.Faults.{fault_in};
ghost use Rattle.road_graph.specs.Graphs.{IsGraph};
ghost use Rattle.road_graph.specs.Roads.{is_node, is_within, node as node_of};
ghost use Rattle.road_graph.specs.Limits.{most_nodes, most_roads};
ghost use Rattle.dimacs_reader.specs.Calls.{IsGraphSaid, IsProblemAhead, IsSaid, LeavesUndecided, LeavesUnfinished, RefusesSaid, RefusesNear, RefusesText, RefusesTextNear, SaysArc, SaysProblem, SaysRoad, StaysReadFrom, StaysUndecided, StaysUnfinished, said_roads};
ghost use Rattle.dimacs_reader.specs.Graphs.{graph_of};
ghost use Rattle.dimacs_reader.specs.Reading.{graph_ahead};
ghost use Rattle.dimacs_reader.specs.Refusals.{IsRefusalAt};

use crate::faults::GraphFault;
use crate::forms::{GraphLine, graph_line};
use crate::lines::CountedLines;
use ride_base::{Items, LARGEST_32, Line, NoMemory, Shelf};
use road_graph::{BuildFault, Graph, MOST_NODES, MOST_ROADS, NodeNo, Road};
use std::alloc::Global;

/// How many nodes and roads a problem line says.
#[derive(Clone, Copy, Debug)]
struct SaidCounts {
    nodes: u32,
    roads: u32,
}

/// Reads the graph of the text that is begun: `p sp N M`, and then M lines `a U V W`. Comments and blank lines may stand anywhere.
/// The first line that is bad is told. The roads keep the order of the text. A graph has at most 2,097,152 nodes and 8,388,608 roads,
/// each of a weight of at most 4,294,967,295. A line may have 65,536 bytes before its end, and the text 2^30. After an error the text
/// stays begun, and the shelf stands behind what was read of it, which may be more than the line that is told.
pub fn read_graph<S: Shelf>(alloc: Global, shelf: &mut S) -> Result<Graph, GraphFault>
    requires { (S.seen shelf.old).begun ≡ true }
    ensures graph { IfOk result (IsGraphSaid (S.seen shelf.old).left) }
    ensures refused { RefusesText graph_of (S.seen shelf.old).left result }
    ensures unread { result ≡ Err GraphFault.Fault
        → LeavesUndecided graph_of (S.seen shelf.old) (S.seen shelf.new) }
    ensures near { RefusesTextNear (S.seen shelf.old) result (S.seen shelf.new) }
    ensures wanted { result ≡ Err GraphFault.NoMemory
        → LeavesUnfinished graph_of (S.seen shelf.old) (S.seen shelf.new) }
    ensures is_graph { IfOk result IsGraph }
    ensures fault { result ≡ Err GraphFault.Fault
        → CountRose (S.seen shelf.old) (S.seen shelf.new) }
    ensures quiet { (S.seen shelf.old).quiet ≡ true → result ≢ Err GraphFault.Fault
        → CountStays (S.seen shelf.old) (S.seen shelf.new) }
    ensures surely { (S.seen shelf.old).sure ≡ true → result ≡ Err GraphFault.Fault → ⊥ }
    ensures shelf { OnlyRead (S.seen shelf.old) (S.seen shelf.new) }
{
    let mut lines = CountedLines::new(alloc);
    let mut line = Line::new(alloc);
    let said = read_problem(&mut lines, shelf, &mut line)?;
    let roads = read_roads(alloc, &mut lines, shelf, &mut line, said)?;
    match Graph::build(alloc, said.nodes, roads.as_slice()) {
        Ok(graph) => Ok(graph),
        Err(BuildFault::NoMemory) => Err(GraphFault::NoMemory),
        Err(BuildFault::Large | BuildFault::Node { .. }) => unreachable!(),
    }
}

/// Reads as far as the problem line, each line into `line`.
fn read_problem<S: Shelf>(
    lines: &mut CountedLines,
    shelf: &mut S,
    line: &mut Line,
) -> Result<SaidCounts, GraphFault>
    requires begun { (S.seen shelf.old).begun ≡ true }
    requires unstopped { lines.old.stopped ≡ None }
    ensures said { IfOk result
        (IsProblemAhead lines.old (S.seen shelf.old) lines.new (S.seen shelf.new)) }
    ensures few_nodes { IfOk result (λ said. said.nodes ≤ most_nodes) }
    ensures few_roads { IfOk result (λ said. said.roads ≤ most_roads) }
    ensures refused { RefusesSaid (graph_ahead lines.old (S.seen shelf.old).left) result }
    ensures goes { IsOk result
        → StaysReadFrom lines.old (S.seen shelf.old) lines.new (S.seen shelf.new) }
    ensures unread { result ≡ Err GraphFault.Fault
        → StaysUndecided graph_ahead lines.old (S.seen shelf.old) (S.seen shelf.new) }
    ensures near { RefusesNear lines.old (S.seen shelf.old) result (S.seen shelf.new) }
    ensures wanted { result ≡ Err GraphFault.NoMemory
        → StaysUnfinished graph_ahead lines.old (S.seen shelf.old) (S.seen shelf.new) }
    ensures unstopped { IsOk result → lines.new.stopped ≡ None }
    ensures fault { result ≡ Err GraphFault.Fault
        → CountRose (S.seen shelf.old) (S.seen shelf.new) }
    ensures quiet { (S.seen shelf.old).quiet ≡ true → result ≢ Err GraphFault.Fault
        → CountStays (S.seen shelf.old) (S.seen shelf.new) }
    ensures surely { (S.seen shelf.old).sure ≡ true → result ≡ Err GraphFault.Fault → ⊥ }
    ensures shelf { OnlyRead (S.seen shelf.old) (S.seen shelf.new) }
{
    while lines.read_line(shelf, line)? {
        if let Some(said) = problem_of(line)? {
            return Ok(said);
        }
    }
    Err(GraphFault::Form {
        line: lines.next_number(),
    })
}

/// What a line says where no problem line came before it. None is of a line that is skipped.
fn problem_of(line: &Line) -> Result<Option<SaidCounts>, GraphFault>
    ensures says { SaysProblem line.now result }
    ensures few_nodes { IfOk result (λ o. IfSome o (λ said. said.nodes ≤ most_nodes)) }
    ensures few_roads { IfOk result (λ o. IfSome o (λ said. said.roads ≤ most_roads)) }
    ensures refusal { IfErr result (IsRefusalAt line.now.number) }
{
    match graph_line(line.bytes.as_slice()) {
        GraphLine::Skipped => Ok(None),
        GraphLine::Problem { nodes, roads } => {
            if nodes > u64::from(MOST_NODES) || roads > MOST_ROADS as u64 {
                return Err(GraphFault::Limit { line: line.number });
            }
            Ok(Some(SaidCounts {
                nodes: nodes as u32,
                roads: roads as u32,
            }))
        }
        GraphLine::Arc { .. } | GraphLine::Formless => Err(GraphFault::Form { line: line.number }),
    }
}

/// Reads so many roads, to the end of the text, each line into `line`.
fn read_roads<S: Shelf>(
    alloc: Global,
    lines: &mut CountedLines,
    shelf: &mut S,
    line: &mut Line,
    said: SaidCounts,
) -> Result<Items<Road>, GraphFault>
    requires begun { (S.seen shelf.old).begun ≡ true }
    requires unstopped { lines.old.stopped ≡ None }
    requires few_nodes { said.nodes ≤ most_nodes }
    requires few_roads { said.roads ≤ most_roads }
    ensures roads { IfOk result (IsSaid (said_roads said lines.old (S.seen shelf.old).left)) }
    ensures sound { IfOk result (λ roads. fault_in said.nodes roads ≡ None) }
    ensures refused { RefusesSaid (said_roads said lines.old (S.seen shelf.old).left) result }
    ensures unread { result ≡ Err GraphFault.Fault
        → StaysUndecided (said_roads said) lines.old (S.seen shelf.old) (S.seen shelf.new) }
    ensures goes { IsOk result
        → StaysReadFrom lines.old (S.seen shelf.old) lines.new (S.seen shelf.new) }
    ensures near { RefusesNear lines.old (S.seen shelf.old) result (S.seen shelf.new) }
    ensures wanted { result ≡ Err GraphFault.NoMemory
        → StaysUnfinished (said_roads said) lines.old (S.seen shelf.old) (S.seen shelf.new) }
    ensures fault { result ≡ Err GraphFault.Fault
        → CountRose (S.seen shelf.old) (S.seen shelf.new) }
    ensures quiet { (S.seen shelf.old).quiet ≡ true → result ≢ Err GraphFault.Fault
        → CountStays (S.seen shelf.old) (S.seen shelf.new) }
    ensures surely { (S.seen shelf.old).sure ≡ true → result ≡ Err GraphFault.Fault → ⊥ }
    ensures shelf { OnlyRead (S.seen shelf.old) (S.seen shelf.new) }
{
    let mut roads = Items::new(alloc);
    while lines.read_line(shelf, line)? {
        let road = road_of(line, said, roads.len())?;
        push_some(&mut roads, road)?;
    }
    if roads.len() < said.roads as usize {
        return Err(GraphFault::Count {
            line: lines.next_number(),
            said: u64::from(said.roads),
            found: roads.len() as u64,
        });
    }
    Ok(roads)
}

/// Puts a road at the end, where there is one.
fn push_some(roads: &mut Items<Road>, road: Option<Road>) -> Result<(), NoMemory>
    ensures ok { OnOk result (roads.new ≡ roads.old ++ option_to_list road) }
    ensures err { OnErr result (roads.new ≡ roads.old) }
{
    match road {
        Some(road) => roads.push(road),
        None => Ok(()),
    }
}

/// What a line says behind the problem line, where so many roads were found before it. None is of a line that is skipped.
fn road_of(line: &Line, said: SaidCounts, found: usize) -> Result<Option<Road>, GraphFault>
    requires few { found ≤ said.roads }
    ensures says { SaysArc said found line.now result }
    ensures within { IfOk result (λ o. IfSome o (λ road. is_within said.nodes road ≡ true)) }
    ensures fewer { IfOk result (λ o. IfSome o (λ _. found < said.roads)) }
    ensures refusal { IfErr result (IsRefusalAt line.now.number) }
{
    match graph_line(line.bytes.as_slice()) {
        GraphLine::Skipped => Ok(None),
        GraphLine::Arc { from, to, weight } => {
            if found == said.roads as usize {
                return Err(GraphFault::Count {
                    line: line.number,
                    said: u64::from(said.roads),
                    found: u64::from(said.roads) + 1,
                });
            }
            Ok(Some(road(line.number, said.nodes, from, to, weight)?))
        }
        GraphLine::Problem { .. } | GraphLine::Formless => {
            Err(GraphFault::Form { line: line.number })
        }
    }
}

/// The road of a line, among so many nodes.
fn road(line: u64, nodes: u32, from: u64, to: u64, weight: u64) -> Result<Road, GraphFault>
    ensures says { SaysRoad nodes line from to weight result }
    ensures within { IfOk result (λ road. is_within nodes road ≡ true) }
    ensures refusal { IfErr result (IsRefusalAt line) }
{
    let (Some(from), Some(to)) = (node(nodes, from), node(nodes, to)) else {
        return Err(GraphFault::Node { line });
    };
    if weight > LARGEST_32 {
        return Err(GraphFault::Weight { line });
    }
    Ok(Road {
        from,
        to,
        weight: weight as u32,
    })
}

/// The node of that number, where it is one of so many.
fn node(nodes: u32, number: u64) -> Option<NodeNo>
    ensures some { IfSome result (λ n. (n ≡ node_of number) × (is_node nodes n ≡ true)) }
    ensures none { IfNone result (is_node nodes (node_of number) ≡ false) }
{
    if 1 <= number && number <= u64::from(nodes) {
        Some(NodeNo(number as u32))
    } else {
        None
    }
}
