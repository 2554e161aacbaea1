ghost use Rattle.std.specs.Prelude.{◌≡◌, ◌≢◌, ◌∷◌, [], true, false, IfOk, Ok, Err, None};
ghost use Rattle.ride_base.specs.Calls.{call_of};
ghost use Rattle.ride_base.specs.Outside.{AddsName, OnlyRead};
ghost use Rattle.ride_base.specs.Told.{WhereTold};
ghost use Rattle.dispatch_top.specs.Answerers.{HasAsked, HasFew, HasGone, HoldsNothing, IsFresh};
ghost use Rattle.dispatch_top.specs.Moves.{ReadsNames, ReadsOn, Writes};
ghost use Rattle.dispatch_top.specs.Stops.{status_of_stream};
ghost use Rattle.dispatch_top.specs.Streaming.{EndsStream, GivesNext, Streamed};

use crate::answerer::Answerer;
use crate::stops::{OutputStop, StreamExit};
use input_tables::stream_line;
use ride_base::{
    BeginFault, LARGEST_TEXT, Line, LineFault, Lines, NoMemory, Shelf, Sink, write_whole,
};
use road_graph::Steps;
use std::alloc::{AllocError, Global};

/// Begins the text of a name, and answers its lines.
pub(crate) fn answer_text<A: Answerer, S: Shelf, K: Sink, L>(
    alloc: Global,
    name: &str,
    answerer: &mut A,
    shelf: &mut S,
    sink: &mut K,
    steps: &mut Steps<L>,
) -> Result<StreamExit, OutputStop>
    requires fresh { IsFresh A.Has A.held answerer.old }
    ensures ends { EndsStream (HasGone A.Has answerer.old) name.now (status_of_stream result)
        (call_of (S.seen shelf.old) (K.seen sink.old) (S.seen shelf.new) (K.seen sink.new)) }
    ensures named { result ≢ Err OutputStop.NoMemory
        → AddsName (S.seen shelf.old) name.now (S.seen shelf.new) }
    ensures shelf { HoldsNothing A.held → ReadsNames (name.now ∷ [])
        (result ≡ Ok StreamExit.AtFault) (S.seen shelf.old) (S.seen shelf.new) }
    ensures sink { Writes (result ≡ Err OutputStop.WriteFault) (K.seen sink.old) (K.seen sink.new) }
{
    match shelf.begin(name) {
        Ok(()) => answer_stream(alloc, answerer, shelf, sink, steps),
        Err(BeginFault::Failed) => Ok(StreamExit::AtFault),
        Err(BeginFault::NoMemory) => Err(OutputStop::NoMemory),
    }
}

/// Answers the lines of the text that is begun, one after another, and then what the answerer holds back. The lines of an answer are
/// written by one call, before the next line is read.
fn answer_stream<A: Answerer, S: Shelf, K: Sink, L>(
    alloc: Global,
    answerer: &mut A,
    shelf: &mut S,
    sink: &mut K,
    steps: &mut Steps<L>,
) -> Result<StreamExit, OutputStop>
    requires begun { (S.seen shelf.old).begun ≡ true }
    requires fresh { IsFresh A.Has A.held answerer.old }
    ensures streamed { Streamed (HasGone A.Has answerer.old) (HasGone A.Has answerer.old)
        (WhereTold (S.seen shelf.old).left) result (S.seen shelf.new).left
        (K.seen sink.old).taken (K.seen sink.new).taken }
    ensures read { OnlyRead (S.seen shelf.old) (S.seen shelf.new) }
    ensures shelf { HoldsNothing A.held
        → ReadsOn (result ≡ Ok StreamExit.AtFault) (S.seen shelf.old) (S.seen shelf.new) }
    ensures sink { Writes (result ≡ Err OutputStop.WriteFault) (K.seen sink.old) (K.seen sink.new) }
{
    let mut text = Vec::new(alloc);
    let exit = answer_lines(alloc, answerer, shelf, sink, &mut text, steps)?;
    text.clear();
    answerer.finish(alloc, &mut text, steps)?;
    let last = text.as_slice();
    if last.is_empty() {
        return Ok(exit);
    }
    write_whole(sink, last)?;
    Ok(exit)
}

/// Answers the lines of the text that is begun, one after another, as far as the answerer doesn't hold them back.
fn answer_lines<A: Answerer, S: Shelf, K: Sink, L>(
    alloc: Global,
    answerer: &mut A,
    shelf: &mut S,
    sink: &mut K,
    text: &mut Vec<u8>,
    steps: &mut Steps<L>,
) -> Result<StreamExit, OutputStop>
    requires begun { (S.seen shelf.old).begun ≡ true }
    requires fresh { IsFresh A.Has A.held answerer.old }
    ensures streamed { Streamed (HasAsked A.Has A.held answerer.old answerer.new)
        (HasGone A.Has answerer.old) (WhereTold (S.seen shelf.old).left) result
        (S.seen shelf.new).left (K.seen sink.old).taken (K.seen sink.new).taken }
    ensures few { IfOk result (λ exit. HasFew A.Has A.held answerer.new) }
    ensures shelf { ReadsOn (result ≡ Ok StreamExit.AtFault) (S.seen shelf.old) (S.seen shelf.new) }
    ensures sink { Writes (result ≡ Err OutputStop.WriteFault) (K.seen sink.old) (K.seen sink.new) }
{
    let mut lines = Lines::new(alloc, LARGEST_TEXT);
    'lines: loop {
        match next_line(alloc, &mut lines, shelf)? {
            Next::Exit(exit) => return Ok(exit),
            Next::Line(line) => {
                let Ok(said) = stream_line(&line) else {
                    return Ok(StreamExit::AtBad { line: line.number });
                };
                text.clear();
                answerer.answer(alloc, &said, text, steps)?;
                write_whole(sink, text.as_slice())?;
                if !line.ended {
                    return Ok(StreamExit::AtEnd);
                }
            }
        }
    }
}

/// A line of a stream, or how the lines end before it.
#[derive(Drop)]
enum Next {
    Line(Line),
    Exit(StreamExit),
}

/// The next line, or how the lines end before it.
fn next_line<S: Shelf>(alloc: Global, lines: &mut Lines, shelf: &mut S) -> Result<Next, NoMemory>
    requires begun { (S.seen shelf.old).begun ≡ true }
    requires unstopped { lines.old.stopped ≡ None }
    requires goes_on { lines.old.over ≡ false }
    ensures given { IfOk result (λ next. GivesNext lines.old (S.seen shelf.old) next
        lines.new (S.seen shelf.new)) }
    ensures shelf { ReadsOn (result ≡ Ok (Next.Exit StreamExit.AtFault))
        (S.seen shelf.old) (S.seen shelf.new) }
{
    let number = lines.given() + 1;
    match lines.next(alloc, shelf) {
        Ok(Some(line)) => Ok(Next::Line(line)),
        Ok(None) => Ok(Next::Exit(StreamExit::AtEnd)),
        Err(LineFault::Fault) => Ok(Next::Exit(StreamExit::AtFault)),
        Err(LineFault::Long | LineFault::Large) => {
            Ok(Next::Exit(StreamExit::AtBad { line: number }))
        }
        Err(LineFault::NoMemory) => Err(AllocError),
    }
}
