ghost use Rattle.std.specs.Prelude.{◌≡◌, Err, IfOk, true};
ghost use Rattle.command_words.specs.Commands.{Walk as WalkForm};
ghost use Rattle.ride_base.specs.Calls.{call_of};
ghost use Rattle.dispatch_top.specs.Ends.{EndsForm};
ghost use Rattle.dispatch_top.specs.Forms.{names_of};
ghost use Rattle.dispatch_top.specs.Moves.{ReadsNames, Writes};
ghost use Rattle.dispatch_top.specs.WalkMode.{IsFound, WritesWalk, walk_text};

use crate::reading::read_graph_of;
use crate::status::Status;
use crate::stops::{OutputStop, ReadingStop};
use contraction::contract;
use journal_text::render_way;
use ride_base::{NoMemory, Shelf, Sink, write_whole};
use road_graph::{Graph, NodeNo, Steps, Walk};
use std::alloc::Global;

/// Reads a graph, and writes the least walk between two nodes, or that there is none.
pub(crate) fn print_walk<S: Shelf, K: Sink, L>(
    alloc: Global,
    name: &str,
    from: u32,
    to: u32,
    shelf: &mut S,
    sink: &mut K,
    steps: &mut Steps<L>,
) -> Status
    ensures ends { EndsForm true (WalkForm name.now from to) result
        (call_of (S.seen shelf.old) (K.seen sink.old) (S.seen shelf.new) (K.seen sink.new)) }
    ensures shelf { ReadsNames (names_of (WalkForm name.now from to)) (result ≡ Status.ReadFault)
        (S.seen shelf.old) (S.seen shelf.new) }
    ensures sink { Writes (result ≡ Status.WriteFault) (K.seen sink.old) (K.seen sink.new) }
{
    match read_graph_of(alloc, name, shelf) {
        Err(stop) => ReadingStop::Graph(stop).status(),
        Ok(graph) => match write_walk(alloc, &graph, NodeNo(from), NodeNo(to), sink, steps) {
            Ok(()) => Status::Done,
            Err(stop) => stop.status(),
        },
    }
}

/// Writes the least walk between two nodes of a graph, or that there is none.
fn write_walk<K: Sink, L>(
    alloc: Global,
    graph: &Graph,
    from: NodeNo,
    to: NodeNo,
    sink: &mut K,
    steps: &mut Steps<L>,
) -> Result<(), OutputStop>
    ensures walk { WritesWalk graph.now from to result
        (K.seen sink.old).taken (K.seen sink.new).taken }
    ensures sink { Writes (result ≡ Err OutputStop.WriteFault) (K.seen sink.old) (K.seen sink.new) }
{
    let walk = walk_between(alloc, graph, from, to, steps)?;
    let text = text_of(alloc, &walk)?;
    write_whole(sink, text.as_slice())?;
    Ok(())
}

/// A least walk between two nodes by a contraction hierarchy. None where there is no walk, as from or to a node that the graph hasn't.
fn walk_between<L>(
    alloc: Global,
    graph: &Graph,
    from: NodeNo,
    to: NodeNo,
    steps: &mut Steps<L>,
) -> Result<Option<Walk>, NoMemory>
    ensures found { IfOk result (IsFound graph.now from to) }
{
    if !graph.has(from) {
        return Ok(None);
    }
    if !graph.has(to) {
        return Ok(None);
    }
    let hierarchy = contract(alloc, graph, steps)?;
    hierarchy.walk(alloc, graph, from, to, steps)
}

/// The lines of a walk, or `none`.
fn text_of(alloc: Global, walk: &Option<Walk>) -> Result<Vec<u8>, NoMemory>
    ensures { IfOk result (λ text. text.items ≡ walk_text walk.now) }
{
    let mut text = Vec::new(alloc);
    match walk {
        Some(walk) => render_way(walk, &mut text)?,
        None => text.extend_from_slice(b"none\n")?,
    }
    Ok(text)
}
