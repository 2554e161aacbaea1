ghost use Rattle.std.specs.Prelude.{◌<◌, ◌≤◌, IfOk, IsSome};

use dimacs_reader::GraphFault::{self, Form, Limit, Node, Weight};
use dimacs_reader::{read_graph, read_places};
use ride_base::{Items, MemoryShelf, Shelf};
use std::alloc::Global;
use std::process::Abort;
use std::test::Fail;

/// A text, and how many nodes and roads it gives.
type Graphic = (&'static [u8], (u32, u32));

/// A text that is no graph, and its fault.
type NoGraph = (&'static [u8], GraphFault);

/// A text, how many nodes there are, and the places that it gives.
type Placed = (&'static [u8], u32, &'static [(i64, i64)]);

/// A text that is no places of so many nodes, and its fault.
type NoPlaces = (&'static [u8], u32, GraphFault);

macro_rules! miscounted {
    ($line:literal, $said:literal, $found:literal) => {
        GraphFault::Count {
            line: $line,
            said: $said,
            found: $found,
        }
    };
}

// A shelf with the text begun, which moves at most so many bytes by a read.
fn begun(alloc: Global, text: &[u8], most: usize) -> Result<MemoryShelf, Fail>
    requires { 0 < most }
    ensures { IfOk result (λ shelf. IsSome shelf.begun) }
{
    let mut shelf = MemoryShelf::new(alloc);
    shelf.put(alloc, "text", text)?;
    shelf.pieces(most);
    shelf.begin("text")?;
    Ok(shelf)
}

/// How many nodes and roads the text that is begun gives.
fn sizes(alloc: Global, shelf: &mut MemoryShelf) -> Result<(u32, u32), GraphFault>
    requires { IsSome shelf.old.begun }
{
    let graph = read_graph(alloc, shelf)?;
    Ok((graph.nodes(), graph.roads()))
}

fn graph_is(
    rt: &impl Abort,
    alloc: Global,
    text: &[u8],
    most: usize,
    expected: Result<(u32, u32), GraphFault>,
) -> Result<(), Fail>
    requires { 0 < most }
{
    let mut shelf = begun(alloc, text, most)?;
    let found = sizes(alloc, &mut shelf);
    assert_eq!(rt; found, expected, "{}", text.escape_ascii());
    Ok(())
}

/// Each text is read so, byte by byte and at once.
fn are_graphs(rt: &impl Abort, alloc: Global, cases: &[Graphic]) -> Result<(), Fail> {
    for (text, sizes) in cases {
        graph_is(rt, alloc, text, 1, Ok(*sizes))?;
        graph_is(rt, alloc, text, 100, Ok(*sizes))?;
    }
    Ok(())
}

fn are_no_graphs(rt: &impl Abort, alloc: Global, cases: &[NoGraph]) -> Result<(), Fail> {
    for (text, fault) in cases {
        graph_is(rt, alloc, text, 100, Err(*fault))?;
    }
    Ok(())
}

/// Whether the text that is begun gives these places, or this fault.
fn has_places(
    alloc: Global,
    shelf: &mut MemoryShelf,
    nodes: u32,
    expected: Result<&[(i64, i64)], GraphFault>,
) -> bool
    requires { IsSome shelf.old.begun }
{
    match (read_places(alloc, shelf, nodes), expected) {
        (Ok(found), Ok(places)) => found.as_slice() == places,
        (Err(found), Err(fault)) => found == fault,
        _ => false,
    }
}

fn places_are(
    rt: &impl Abort,
    alloc: Global,
    text: &[u8],
    most: usize,
    nodes: u32,
    expected: Result<&[(i64, i64)], GraphFault>,
) -> Result<(), Fail>
    requires { 0 < most }
{
    let mut shelf = begun(alloc, text, most)?;
    let same = has_places(alloc, &mut shelf, nodes, expected);
    assert!(rt; same, "{}", text.escape_ascii());
    Ok(())
}

fn are_places(rt: &impl Abort, alloc: Global, cases: &[Placed]) -> Result<(), Fail> {
    for (text, nodes, places) in cases {
        places_are(rt, alloc, text, 1, *nodes, Ok(places))?;
    }
    Ok(())
}

fn are_no_places(rt: &impl Abort, alloc: Global, cases: &[NoPlaces]) -> Result<(), Fail> {
    for (text, nodes, fault) in cases {
        places_are(rt, alloc, text, 3, *nodes, Err(*fault))?;
    }
    Ok(())
}

/// A graph whose comment has so many bytes.
fn commented(alloc: Global, count: usize) -> Result<Items<u8>, Fail>
    requires some { 0 < count }
    requires few { count ≤ 100000 }
{
    let mut text = Vec::new(alloc);
    text.resize(count, b'\xff')?;
    text[0] = b'c';
    text.extend_from_slice(b"\np sp 0 0\n")?;
    Ok(Items::from_vec(text))
}

#[test]
fn lines_have_a_longest_length(rt: HostRuntime) -> Result<(), Fail> {
    let longest = commented(rt.alloc(), 65_536)?;
    graph_is(&rt, rt.alloc(), longest.as_slice(), 5000, Ok((0, 0)))?;
    let longer = commented(rt.alloc(), 65_537)?;
    let limit = Err(Limit { line: 1 });
    graph_is(&rt, rt.alloc(), longer.as_slice(), 100, limit)
}

// A shelf with the text begun, whose read of that number fails.
fn failing(alloc: Global, text: &[u8], most: usize, read: u64) -> Result<MemoryShelf, Fail>
    requires { 0 < most }
    ensures { IfOk result (λ shelf. IsSome shelf.begun) }
{
    let mut shelf = begun(alloc, text, most)?;
    shelf.fail(alloc, "text", read)?;
    Ok(shelf)
}

#[test]
fn a_failing_shelf_is_told(rt: HostRuntime) -> Result<(), Fail> {
    let mut shelf = failing(rt.alloc(), b"p sp 2 1\na 1 2 10\n", 5, 3)?;
    assert_eq!(rt; sizes(rt.alloc(), &mut shelf), Err(GraphFault::Fault));
    Ok(())
}

#[test]
fn a_shelf_failing_in_places_is_told(rt: HostRuntime) -> Result<(), Fail> {
    let mut shelf = failing(rt.alloc(), b"p aux sp co 1\nv 1 -5 7\n", 5, 4)?;
    assert!(rt; has_places(rt.alloc(), &mut shelf, 1, Err(GraphFault::Fault)));
    Ok(())
}

// The second read is at the end of the text, and a third would fail.
#[test]
fn a_graph_is_read_to_its_end_and_no_further(rt: HostRuntime) -> Result<(), Fail> {
    let mut shelf = failing(rt.alloc(), b"p sp 0 0", 100, 3)?;
    assert_eq!(rt; sizes(rt.alloc(), &mut shelf), Ok((0, 0)));
    Ok(())
}

#[test]
fn places_are_read_to_their_end_and_no_further(rt: HostRuntime) -> Result<(), Fail> {
    let mut shelf = failing(rt.alloc(), b"p aux sp co 0", 100, 3)?;
    let places = Items::new(rt.alloc());
    assert!(rt; has_places(rt.alloc(), &mut shelf, 0, Ok(places.as_slice())));
    Ok(())
}

const GRAPHS: &[Graphic] = &[
    (b"p sp 0 0", (0, 0)),
    (b"p sp 0 0\n", (0, 0)),
    (b"p sp 2 1\na 1 2 10\n", (2, 1)),
    (b"p sp 2 1\na 1 2 10", (2, 1)),
    (b"p sp 2 1\r\na 1 2 10\r\n", (2, 1)),
    (b"\tp \t sp\t2  1 \t\n \ta\t1  2 10\t\n", (2, 1)),
    (
        b"p sp 0002 01\na 01 002 0000000000000000000000000010\n",
        (2, 1),
    ),
    (
        b"c x\n\np  sp 2 3\r\na 1 2 7\nc mid\na 1 2 9\na 2 1 0",
        (2, 3),
    ),
    (
        b"c\ncc p\n  c \xc3\xa9\n\t\n \n\np sp 1 0\nc a 1 1 1\nca 1 1 1\n\tc\xc3\xbf\n",
        (1, 0),
    ),
    (b"p sp 1 1\na 1 1 4294967295\nc p sp 1 1\n", (1, 1)),
    (b"p sp 2097152 1\na 2097152 1 0\n", (2097152, 1)),
    (b"p sp 3 0\n\n\nc", (3, 0)),
    (b"p sp 1 0\nc\r", (1, 0)),
];

#[test]
fn accepted_graphs(rt: HostRuntime) -> Result<(), Fail> {
    are_graphs(&rt, rt.alloc(), GRAPHS)
}

const FORMS: &[NoGraph] = &[
    (b"", Form { line: 1 }),
    (b"\n", Form { line: 2 }),
    (b"c", Form { line: 2 }),
    (b"c\n\nc\n", Form { line: 4 }),
    (b"a 1 2 10\np sp 2 1\n", Form { line: 1 }),
    (b"c\na 1 2 10\n", Form { line: 2 }),
    (b"\xc3\xa9\np sp 1 0\n", Form { line: 1 }),
    (b"p sp 2\n", Form { line: 1 }),
    (b"p sp 2 1 0\n", Form { line: 1 }),
    (b"p sp 2 -1\n", Form { line: 1 }),
    (b"p sp +2 1\n", Form { line: 1 }),
    (b"p SP 2 1\n", Form { line: 1 }),
    (b"P sp 2 1\n", Form { line: 1 }),
    (b"p sp 2 1\r", Form { line: 1 }),
    (b"psp 2 1\n", Form { line: 1 }),
    (b"p\n", Form { line: 1 }),
    (b"\n\np sp 2 x", Form { line: 3 }),
    (
        b"p sp 1 99999999999999999999999999999999x\n",
        Form { line: 1 },
    ),
    (b"p sp 2 1\nx\na 1 2 10\n", Form { line: 2 }),
    (b"p sp 2 1\na 1 2 10\nx", Form { line: 3 }),
    (b"p sp 2 0\np sp 2 0\n", Form { line: 2 }),
    (b"p sp 2 1\na 1 2 10\np sp 2 1\n", Form { line: 3 }),
    (b"p sp 2 1\na 1 2\n", Form { line: 2 }),
    (b"p sp 2 1\na 1 2 3 4\n", Form { line: 2 }),
    (b"p sp 2 1\na 1 2 -3\n", Form { line: 2 }),
    (b"p sp 2 1\na 1 2 3.0\n", Form { line: 2 }),
    (b"p sp 2 1\na 1 2 10\r", Form { line: 2 }),
    (b"p sp 2 0\na 1 2\n", Form { line: 2 }),
];

#[test]
fn refused_forms(rt: HostRuntime) -> Result<(), Fail> {
    are_no_graphs(&rt, rt.alloc(), FORMS)
}

const SIZES: &[NoGraph] = &[
    (b"p sp 2097153 0\n", Limit { line: 1 }),
    (b"p sp 0 8388609\n", Limit { line: 1 }),
    (
        b"c\np sp 99999999999999999999999999999999999999999 0\nx",
        Limit { line: 2 },
    ),
    (b"p sp 0 18446744073709551616", Limit { line: 1 }),
];

#[test]
fn refused_sizes(rt: HostRuntime) -> Result<(), Fail> {
    are_no_graphs(&rt, rt.alloc(), SIZES)
}

const COUNTS: &[NoGraph] = &[
    (b"p sp 1 8388608\n", miscounted!(2, 8388608, 0)),
    (b"p sp 2 2\na 1 2 10\n", miscounted!(3, 2, 1)),
    (b"p sp 2 2\na 1 2 10", miscounted!(3, 2, 1)),
    (b"p sp 2 1", miscounted!(2, 1, 0)),
    (b"p sp 2 0\na 1 2 10\n", miscounted!(2, 0, 1)),
    (
        b"p sp 2 1\na 1 2 10\nc\na 9 9 4294967296",
        miscounted!(4, 1, 2),
    ),
    (b"p sp 2 1\na 1 2 10\na 1 2 10\nx\n", miscounted!(3, 1, 2)),
    (b"p sp 2 8388608\na 1 2 10\n", miscounted!(3, 8388608, 1)),
];

#[test]
fn refused_counts(rt: HostRuntime) -> Result<(), Fail> {
    are_no_graphs(&rt, rt.alloc(), COUNTS)
}

const NODES: &[NoGraph] = &[
    (b"p sp 2 1\na 0 2 10\n", Node { line: 2 }),
    (b"p sp 2 1\na 1 3 99999999999\n", Node { line: 2 }),
    (b"p sp 2 2\na 1 2 10\nc\na 3 1 10", Node { line: 4 }),
    (b"p sp 0 1\na 1 1 1\n", Node { line: 2 }),
    (b"p sp 2 1\na 18446744073709551617 2 1\n", Node { line: 2 }),
    (b"p sp 2 1\na 4294967297 2 1\n", Node { line: 2 }),
];

#[test]
fn refused_nodes(rt: HostRuntime) -> Result<(), Fail> {
    are_no_graphs(&rt, rt.alloc(), NODES)
}

const WEIGHTS: &[NoGraph] = &[
    (b"p sp 2 1\na 1 2 4294967296\n", Weight { line: 2 }),
    (
        b"p sp 2 2\na 1 2 1\n\na 2 1 99999999999999999999999999",
        Weight { line: 4 },
    ),
    (
        b"p sp 2 2\na 1 2 18446744073709551616\na 3 1 1\n",
        Weight { line: 2 },
    ),
];

#[test]
fn refused_weights(rt: HostRuntime) -> Result<(), Fail> {
    are_no_graphs(&rt, rt.alloc(), WEIGHTS)
}

const PLACES: &[Placed] = &[
    (b"p aux sp co 1\nv 1 -5 7\n", 1, &[(-5, 7)]),
    (b"p aux sp co 0", 0, &[]),
    (
        b"c\n\n p\taux sp  co 03\r\nv 3 2147483647 -2147483647\nc v\n\
          v 1 -0 00\n v 002 -007 0000000000000000000000008",
        3,
        &[(0, 0), (-7, 8), (2147483647, -2147483647)],
    ),
];

#[test]
fn accepted_places(rt: HostRuntime) -> Result<(), Fail> {
    are_places(&rt, rt.alloc(), PLACES)
}

const NO_PLACES: &[NoPlaces] = &[
    (b"", 1, Form { line: 1 }),
    (b"v 1 0 0\n", 1, Form { line: 1 }),
    (b"p sp 1 0\n", 1, Form { line: 1 }),
    (b"p aux sp co 1 1\n", 1, Form { line: 1 }),
    (b"p aux sp co -1\n", 1, Form { line: 1 }),
    (b"p aux sp co 2097153\n", 1, Limit { line: 1 }),
    (b"c\np aux sp co 2\n", 1, miscounted!(2, 2, 1)),
    (b"p aux sp co 1\np aux sp co 1\n", 1, Form { line: 2 }),
    (b"p aux sp co 1\n", 1, miscounted!(2, 1, 0)),
    (b"p aux sp co 1\nv 1 0 0\nv 9 0 0", 1, miscounted!(3, 1, 2)),
];

#[test]
fn refused_places(rt: HostRuntime) -> Result<(), Fail> {
    are_no_places(&rt, rt.alloc(), NO_PLACES)
}

const NO_COORDINATES: &[NoPlaces] = &[
    (b"p aux sp co 2\nv 1 0 0\nv 1 0 0\n", 2, Node { line: 3 }),
    (b"p aux sp co 2\nv 3 0 99999999999\n", 2, Node { line: 2 }),
    (b"p aux sp co 2\nv 0 0 0\n", 2, Node { line: 2 }),
    (b"p aux sp co 1\nv 1 2147483648 0\n", 1, Weight { line: 2 }),
    (b"p aux sp co 1\nv 1 0 -2147483648\n", 1, Weight { line: 2 }),
    (b"p aux sp co 1\nv 1 0 --1\n", 1, Form { line: 2 }),
    (b"p aux sp co 1\nv 1 0 -\n", 1, Form { line: 2 }),
    (b"p aux sp co 1\nv -1 0 0\n", 1, Form { line: 2 }),
    (b"p aux sp co 1\nv 1 0 +0\n", 1, Form { line: 2 }),
    (b"p aux sp co 1\nv 1 0 0\nv 1 0", 1, Form { line: 3 }),
];

#[test]
fn refused_coordinates(rt: HostRuntime) -> Result<(), Fail> {
    are_no_places(&rt, rt.alloc(), NO_COORDINATES)
}
