use dispatch_top::{Status, run};
use ride_base::{MemoryShelf, MemorySink, Shelf, Sink};
use road_graph::Steps;
use std::alloc::Global;
use std::process::Abort;
use std::test::Fail;
use std::thread::Threads;

/// Four nodes in a line, joined both ways by roads of 10.
pub const LINE: &[u8] = b"p sp 4 6\na 1 2 10\na 2 1 10\na 2 3 10\na 3 2 10\na 3 4 10\na 4 3 10\n";

/// One vehicle at node 1 with two seats.
pub const ONE: &[u8] = b"vehicle,start,seats,from,until\n1,1,2,0,1000\n";

/// What is printed of the first request on the line, from 2 to 4.
pub const FIRST: &[u8] = b"r 1 2 4 0 1\na 1 1 0 0 34 12 32\ng 0 1 2\ng 1 2 3 4\n";

/// Two rides, and the lines of both answers.
pub const TWO: &[u8] = b"r 1 2 4 0 1\nr 2 3 4 0 1\n";

pub const BOTH: &[u8] =
    b"r 1 2 4 0 1\na 1 1 0 0 34 12 32\ng 0 1 2\ng 1 2 3 4\nr 2 3 4 0 1\na 2 1 1 1 10 24 34\ng 1 2 3\ng 2 3 4\ng 3 4\n";

/// A run over these three texts.
pub const WORDS: &[&str] = &["run", "graph", "fleet", "stream"];

/// A shelf with a graph, a fleet and a stream.
pub fn shelf_of(alloc: Global, texts: [&[u8]; 3]) -> Result<MemoryShelf, Fail> {
    let [graph, fleet, stream] = texts;
    let mut shelf = MemoryShelf::new(alloc);
    shelf.put(alloc, "graph", graph)?;
    shelf.put(alloc, "fleet", fleet)?;
    shelf.put(alloc, "stream", stream)?;
    Ok(shelf)
}

/// The words of a command line.
pub fn words_of(alloc: Global, words: &[&str]) -> Result<Vec<String>, Fail> {
    let mut list = Vec::new(alloc);
    for word in words {
        list.push(String::from_str(alloc, word)?)?;
    }
    Ok(list)
}

/// Runs over a shelf and a sink, and gives the status.
pub fn status_of<R: Threads + Sync, S: Shelf, K: Sink>(
    rt: &R,
    alloc: Global,
    words: &[&str],
    shelf: &mut S,
    sink: &mut K,
) -> Result<Status, Fail> {
    let words = words_of(alloc, words)?;
    let mut steps = Steps::start(rt, ());
    Ok(run(rt, alloc, words.as_slice(), shelf, sink, &mut steps))
}

/// Compares the status of a run and what was written with what they should be.
pub fn ends<R: Threads + Sync + Abort>(
    rt: &R,
    alloc: Global,
    words: &[&str],
    texts: [&[u8]; 3],
    status: Status,
    output: &[u8],
) -> Result<(), Fail> {
    let mut shelf = shelf_of(alloc, texts)?;
    let mut sink = MemorySink::new(alloc, 1_000_000)?;
    let ended = status_of(rt, alloc, words, &mut shelf, &mut sink)?;
    assert_eq!(rt; ended, status);
    assert_eq!(rt; sink.taken(), output);
    Ok(())
}

/// The same of a run without options that is done.
pub fn answers<R: Threads + Sync + Abort>(
    rt: &R,
    alloc: Global,
    texts: [&[u8]; 3],
    output: &[u8],
) -> Result<(), Fail> {
    ends(rt, alloc, WORDS, texts, Status::Done, output)
}
