ghost use Rattle.std.specs.Prelude.{◌<◌};

use crate::runs::{BOTH, FIRST, LINE, ONE, TWO, WORDS, ends, shelf_of, status_of};
use dispatch_top::Status;
use ride_base::{MemoryShelf, MemorySink};
use std::alloc::Global;
use std::process::Abort;
use std::test::Fail;
use std::thread::Threads;

/// A shelf with the line, one vehicle and two rides, which moves at most so many bytes by a read.
fn shelf_in_pieces(alloc: Global, most: usize) -> Result<MemoryShelf, Fail>
    requires { 0 < most }
{
    let mut shelf = shelf_of(alloc, [LINE, ONE, TWO])?;
    shelf.pieces(most);
    Ok(shelf)
}

/// Runs over a shelf, and compares the status and what was written.
fn reads_to<R: Threads + Sync + Abort>(
    rt: &R,
    alloc: Global,
    mut shelf: MemoryShelf,
    status: Status,
    output: &[u8],
) -> Result<(), Fail> {
    let mut sink = MemorySink::new(alloc, 1000)?;
    let ended = status_of(rt, alloc, WORDS, &mut shelf, &mut sink)?;
    assert_eq!(rt; ended, status);
    assert_eq!(rt; sink.taken(), output);
    Ok(())
}

/// A call of the shelf fails: 0 is the begin of a name, and its reads count from 1.
fn fails_at<R: Threads + Sync + Abort>(
    rt: &R,
    alloc: Global,
    most: usize,
    name: &str,
    call: u64,
    output: &[u8],
) -> Result<(), Fail>
    requires { 0 < most }
{
    let mut shelf = shelf_in_pieces(alloc, most)?;
    shelf.fail(alloc, name, call)?;
    reads_to(rt, alloc, shelf, Status::ReadFault, output)
}

/// What is printed of the lines that are ended among the first bytes of the two rides.
fn answers_after(bytes: u64) -> &'static [u8] {
    if bytes < 12 {
        b""
    } else if bytes < 24 {
        FIRST
    } else {
        BOTH
    }
}

#[test]
fn each_begin_fails(rt: HostRuntime) -> Result<(), Fail> {
    fails_at(&rt, rt.alloc(), 100, "graph", 0, b"")?;
    fails_at(&rt, rt.alloc(), 100, "fleet", 0, b"")?;
    fails_at(&rt, rt.alloc(), 100, "stream", 0, b"")
}

#[test]
fn each_read_of_the_graph_fails(rt: HostRuntime) -> Result<(), Fail> {
    for call in 1..LINE.len() as u64 + 2 {
        fails_at(&rt, rt.alloc(), 1, "graph", call, b"")?;
    }
    Ok(())
}

#[test]
fn each_read_of_the_fleet_fails(rt: HostRuntime) -> Result<(), Fail> {
    for call in 1..ONE.len() as u64 + 2 {
        fails_at(&rt, rt.alloc(), 1, "fleet", call, b"")?;
    }
    Ok(())
}

#[test]
fn each_read_of_the_stream_fails(rt: HostRuntime) -> Result<(), Fail> {
    for call in 1..TWO.len() as u64 + 2 {
        let output = answers_after(call - 1);
        fails_at(&rt, rt.alloc(), 1, "stream", call, output)?;
    }
    Ok(())
}

#[test]
fn the_second_piece_fails(rt: HostRuntime) -> Result<(), Fail> {
    fails_at(&rt, rt.alloc(), 12, "stream", 2, FIRST)
}

#[test]
fn pieces_of_one_byte_are_enough(rt: HostRuntime) -> Result<(), Fail> {
    let shelf = shelf_in_pieces(rt.alloc(), 1)?;
    reads_to(&rt, rt.alloc(), shelf, Status::Done, BOTH)
}

#[test]
fn nothing_is_read_behind_the_end(rt: HostRuntime) -> Result<(), Fail> {
    let mut shelf = shelf_of(rt.alloc(), [LINE, ONE, b"r 1 2 4 0 1"])?;
    shelf.fail(rt.alloc(), "stream", 3)?;
    reads_to(&rt, rt.alloc(), shelf, Status::Done, FIRST)
}

#[test]
fn a_name_is_missing(rt: HostRuntime) -> Result<(), Fail> {
    let words = ["run", "graph", "fleet", "no"];
    ends(
        &rt,
        rt.alloc(),
        words.as_slice(),
        [LINE, ONE, TWO],
        Status::ReadFault,
        b"",
    )
}

/// The sink has room for so many bytes of the two answers.
fn writes_front<R: Threads + Sync + Abort>(rt: &R, alloc: Global, room: usize) -> Result<(), Fail>
    requires { room < 1000 }
{
    let mut shelf = shelf_in_pieces(alloc, 100)?;
    let mut sink = MemorySink::new(alloc, room)?;
    let ended = status_of(rt, alloc, WORDS, &mut shelf, &mut sink)?;
    assert_eq!(rt; ended, Status::WriteFault);
    assert_eq!(rt; Some(sink.taken()), BOTH.get(..room));
    Ok(())
}

#[test]
fn the_room_of_the_sink_ends_anywhere(rt: HostRuntime) -> Result<(), Fail> {
    for room in 0..BOTH.len() {
        writes_front(&rt, rt.alloc(), room)?;
    }
    Ok(())
}

/// A put of the sink fails, from 1.
fn put_fails<R: Threads + Sync + Abort>(
    rt: &R,
    alloc: Global,
    call: u64,
    output: &[u8],
) -> Result<(), Fail> {
    let mut shelf = shelf_in_pieces(alloc, 100)?;
    let mut sink = MemorySink::new(alloc, 1000)?;
    sink.fail(alloc, call)?;
    let ended = status_of(rt, alloc, WORDS, &mut shelf, &mut sink)?;
    assert_eq!(rt; ended, Status::WriteFault);
    assert_eq!(rt; sink.taken(), output);
    Ok(())
}

#[test]
fn each_put_fails(rt: HostRuntime) -> Result<(), Fail> {
    put_fails(&rt, rt.alloc(), 1, b"")?;
    put_fails(&rt, rt.alloc(), 2, FIRST)
}

/// A stream whose first line is answered, and whose end is this status.
fn stream_ends<R: Threads + Sync + Abort>(
    rt: &R,
    alloc: Global,
    stream: &[u8],
    status: Status,
) -> Result<(), Fail> {
    ends(rt, alloc, WORDS, [LINE, ONE, stream], status, FIRST)
}

#[test]
fn a_bad_line_ends_the_stream(rt: HostRuntime) -> Result<(), Fail> {
    stream_ends(
        &rt,
        rt.alloc(),
        b"r 1 2 4 0 1\nq\n",
        Status::StreamText { line: 2 },
    )?;
    stream_ends(
        &rt,
        rt.alloc(),
        b"c\nr 1 2 4 0 1\n\nt x",
        Status::StreamText { line: 4 },
    )?;
    stream_ends(
        &rt,
        rt.alloc(),
        b"r 1 2 4 0 1\nr 2 2 4 0 4294967296\n",
        Status::StreamText { line: 2 },
    )
}

/// A line of so many bytes, behind a first ride.
fn with_long_line(alloc: Global, bytes: usize) -> Result<Vec<u8>, Fail>
    requires { bytes < 100000 }
{
    let mut stream = Vec::from_slice(alloc, b"r 1 2 4 0 1\n")?;
    for _ in 0..bytes {
        stream.push(b'c')?;
    }
    Ok(stream)
}

#[test]
fn a_line_may_be_too_long(rt: HostRuntime) -> Result<(), Fail> {
    let stream = with_long_line(rt.alloc(), 65_537)?;
    stream_ends(
        &rt,
        rt.alloc(),
        stream.as_slice(),
        Status::StreamText { line: 2 },
    )
}

#[test]
fn the_longest_line_is_read(rt: HostRuntime) -> Result<(), Fail> {
    let stream = with_long_line(rt.alloc(), 65_536)?;
    stream_ends(&rt, rt.alloc(), stream.as_slice(), Status::Done)
}

#[test]
fn a_first_line_may_be_refused(rt: HostRuntime) -> Result<(), Fail> {
    let large = b"r 1099511627777 2 4 0 1\n";
    ends(
        &rt,
        rt.alloc(),
        WORDS,
        [LINE, ONE, large],
        Status::StreamText { line: 1 },
        b"",
    )
}

#[test]
fn a_bad_graph_ends_the_run(rt: HostRuntime) -> Result<(), Fail> {
    let graph = b"p sp 2 2\na 1 2 10\n";
    ends(
        &rt,
        rt.alloc(),
        WORDS,
        [graph, ONE, TWO],
        Status::GraphText { line: 3 },
        b"",
    )
}

/// A graph is refused at this line, from 1.
fn refuses_graph<R: Threads + Sync + Abort>(
    rt: &R,
    alloc: Global,
    graph: &[u8],
    line: u64,
) -> Result<(), Fail> {
    ends(
        rt,
        alloc,
        WORDS,
        [graph, ONE, TWO],
        Status::GraphText { line },
        b"",
    )
}

#[test]
fn a_graph_may_be_cut_short_or_too_large(rt: HostRuntime) -> Result<(), Fail> {
    refuses_graph(&rt, rt.alloc(), b"p sp 2 1\n", 2)?;
    refuses_graph(&rt, rt.alloc(), b"p sp 2 99999999999999999999\n", 1)
}

#[test]
fn a_bad_fleet_ends_the_run(rt: HostRuntime) -> Result<(), Fail> {
    let twice = b"vehicle,start,seats,from,until\n1,1,2,0,1000\n1,2,2,0,1000\n";
    ends(
        &rt,
        rt.alloc(),
        WORDS,
        [LINE, twice, TWO],
        Status::FleetText { row: 2 },
        b"",
    )?;
    ends(
        &rt,
        rt.alloc(),
        WORDS,
        [LINE, b"id\n", TWO],
        Status::FleetText { row: 0 },
        b"",
    )
}

#[test]
fn vehicles_may_stand_in_any_order(rt: HostRuntime) -> Result<(), Fail> {
    let fleet = b"vehicle,start,seats,from,until\n2,1,2,0,1000\n1,1,2,0,1000\n";
    ends(
        &rt,
        rt.alloc(),
        WORDS,
        [LINE, fleet, b"r 1 2 4 0 1\n"],
        Status::Done,
        FIRST,
    )
}

/// These words end a run with this status, and nothing is written.
fn words_end<R: Threads + Sync + Abort>(
    rt: &R,
    alloc: Global,
    words: &[&str],
    status: Status,
) -> Result<(), Fail> {
    ends(rt, alloc, words, [LINE, ONE, TWO], status, b"")
}

#[test]
fn other_words_are_no_run(rt: HostRuntime) -> Result<(), Fail> {
    words_end(&rt, rt.alloc(), &[], Status::Usage)?;
    words_end(&rt, rt.alloc(), &["run", "graph", "fleet"], Status::Usage)?;
    words_end(
        &rt,
        rt.alloc(),
        &["live", "graph", "fleet", "stream"],
        Status::Usage,
    )?;
    words_end(
        &rt,
        rt.alloc(),
        &["run", "graph", "fleet", "stream", "--stop"],
        Status::Usage,
    )?;
    words_end(&rt, rt.alloc(), &["walk", "graph", "1"], Status::Usage)?;
    words_end(&rt, rt.alloc(), &["walk", "graph", "1", "x"], Status::Usage)?;
    words_end(
        &rt,
        rt.alloc(),
        &["walk", "graph", "4294967296", "1"],
        Status::Usage,
    )
}

#[test]
fn other_forms_are_not_answered_yet(rt: HostRuntime) -> Result<(), Fail> {
    words_end(
        &rt,
        rt.alloc(),
        &["run", "graph", "fleet", "stream", "--proof"],
        Status::NotYet,
    )?;
    words_end(
        &rt,
        rt.alloc(),
        &["run", "--window=1", "graph", "fleet", "stream"],
        Status::NotYet,
    )?;
    words_end(
        &rt,
        rt.alloc(),
        &["audit", "graph", "fleet", "stream"],
        Status::NotYet,
    )
}

/// Runs, and asserts that the status is not want of memory.
fn wants_no_memory<R: Threads + Sync + Abort>(
    rt: &R,
    alloc: Global,
    words: &[&str],
    stream: &[u8],
) -> Result<(), Fail> {
    let mut shelf = shelf_of(alloc, [LINE, ONE, stream])?;
    let mut sink = MemorySink::new(alloc, 1000)?;
    let ended = status_of(rt, alloc, words, &mut shelf, &mut sink)?;
    assert_ne!(rt; ended, Status::NoMemory);
    Ok(())
}

#[test]
fn an_unknown_mode_is_no_want_of_memory(rt: HostRuntime) -> Result<(), Fail> {
    wants_no_memory(&rt, rt.alloc(), &[], TWO)?;
    wants_no_memory(&rt, rt.alloc(), &["drive", "graph"], TWO)?;
    wants_no_memory(&rt, rt.alloc(), &["", "graph", "fleet", "stream"], TWO)
}

#[test]
fn an_unreadable_word_is_no_want_of_memory(rt: HostRuntime) -> Result<(), Fail> {
    wants_no_memory(&rt, rt.alloc(), &["walk", "graph", "1", "x"], TWO)?;
    wants_no_memory(
        &rt,
        rt.alloc(),
        &["run", "graph", "fleet", "stream", "--stop=x"],
        TWO,
    )?;
    wants_no_memory(
        &rt,
        rt.alloc(),
        &["run", "graph", "fleet", "stream", "--stops=1"],
        TWO,
    )
}

#[test]
fn nobody_is_no_want_of_memory(rt: HostRuntime) -> Result<(), Fail> {
    wants_no_memory(&rt, rt.alloc(), WORDS, b"r 1 2 4 0 3\n")?;
    wants_no_memory(&rt, rt.alloc(), WORDS, b"r 1 2 4 0 1\nr 2 2 4 0 3\n")
}
