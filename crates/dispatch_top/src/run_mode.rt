ghost use Rattle.std.specs.Prelude.{◌≡◌, ◌≢◌, ◌∷◌, [], true, Ok, Err};
ghost use Rattle.ride_base.specs.Calls.{call_of};
ghost use Rattle.ride_base.specs.Outside.{AddsName};
ghost use Rattle.stop_schedule.specs.Bounds.{AreVehicles};
ghost use Rattle.dispatch_top.specs.Asking.{run_form};
ghost use Rattle.dispatch_top.specs.Ends.{EndsForm};
ghost use Rattle.dispatch_top.specs.Forms.{names_of};
ghost use Rattle.dispatch_top.specs.Histories.{IsHistoryOf};
ghost use Rattle.dispatch_top.specs.Moves.{ReadsNames, Writes};
ghost use Rattle.dispatch_top.specs.Stops.{status_of_stream};
ghost use Rattle.dispatch_top.specs.Streaming.{EndsStream};

use crate::dispatcher::Dispatcher;
use crate::reading::{Texts, read_texts};
use crate::status::Status;
use crate::stops::{OutputStop, StreamExit};
use crate::stream::answer_text;
use crate::words::RunNames;
use ride_base::{Shelf, Sink};
use road_graph::Steps;
use std::alloc::Global;
use stop_schedule::Params;

/// Reads a graph and a fleet, and answers the lines of a stream over them.
pub(crate) fn answer_run<S: Shelf, K: Sink, L>(
    alloc: Global,
    asked: &RunNames<'_>,
    shelf: &mut S,
    sink: &mut K,
    steps: &mut Steps<L>,
) -> Status
    ensures ends { EndsForm true (run_form asked.now) result
        (call_of (S.seen shelf.old) (K.seen sink.old) (S.seen shelf.new) (K.seen sink.new)) }
    ensures shelf { ReadsNames (names_of (run_form asked.now)) (result ≡ Status.ReadFault)
        (S.seen shelf.old) (S.seen shelf.new) }
    ensures sink { Writes (result ≡ Status.WriteFault) (K.seen sink.old) (K.seen sink.new) }
{
    match read_texts(alloc, asked, shelf) {
        Err(stop) => stop.status(),
        Ok(texts) => {
            match answer_over(
                alloc,
                &texts,
                asked.params,
                asked.stream,
                shelf,
                sink,
                steps,
            ) {
                Ok(exit) => exit.status(),
                Err(stop) => stop.status(),
            }
        }
    }
}

/// Answers the lines of a stream over the texts that were read.
fn answer_over<S: Shelf, K: Sink, L>(
    alloc: Global,
    texts: &Texts,
    params: Params,
    stream: &str,
    shelf: &mut S,
    sink: &mut K,
    steps: &mut Steps<L>,
) -> Result<StreamExit, OutputStop>
    requires { AreVehicles texts.now.graph.nodes texts.now.vehicles }
    ensures ends { EndsStream (IsHistoryOf texts.now.graph params texts.now.vehicles) stream.now
        (status_of_stream result)
        (call_of (S.seen shelf.old) (K.seen sink.old) (S.seen shelf.new) (K.seen sink.new)) }
    ensures named { result ≢ Err OutputStop.NoMemory
        → AddsName (S.seen shelf.old) stream.now (S.seen shelf.new) }
    ensures shelf { ReadsNames (stream.now ∷ []) (result ≡ Ok StreamExit.AtFault)
        (S.seen shelf.old) (S.seen shelf.new) }
    ensures sink { Writes (result ≡ Err OutputStop.WriteFault) (K.seen sink.old) (K.seen sink.new) }
{
    let mut dispatcher = Dispatcher::opening(alloc, texts, params)?;
    answer_text(alloc, stream, &mut dispatcher, shelf, sink, steps)
}
