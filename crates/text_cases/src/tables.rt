ghost use Rattle.std.specs.Prelude.{IfOk, IsSome};

use input_tables::FleetFault::{self, Double, Form, Header, Large, Range};
use input_tables::StreamLine::{self, Cancel, Move, Nothing};
use input_tables::{StreamFault, read_fleet, stream_line};
use ride_base::{Items, Line, MemoryShelf, RequestNo, Shelf};
use road_graph::NodeNo;
use std::alloc::Global;
use std::process::Abort;
use std::test::Fail;
use stop_schedule::{Request, Vehicle};

const HEADER: &[u8] = b"vehicle,start,seats,from,until\n";

const SPACED_HEADER: &[u8] = b"vehicle,start,seats,from,until,spaces\n";

/// A vehicle by its number, its start, its seats, the beginning and end of its service, and its wheelchair spaces.
type Row = (u32, u32, u32, u64, u64, u32);

/// A text with its vehicles or the fault.
type TableCase = (&'static [u8], Result<&'static [Row], FleetFault>);

/// A request by its number, its pickup, its dropoff, its moment, and its riders on seats and in wheelchair spaces.
type Ride = (u64, u32, u32, u64, u32, u32);

/// The latest moment.
const LATEST: u64 = 1099511627776;

/// The largest number of 32 bits.
const LARGEST: u32 = 4294967295;

const ONE: Row = (1, 1, 2, 0, 1000, 0);

const TWO: Row = (2, 1, 2, 0, 1000, 0);

const THREE: Row = (3, 1, 2, 0, 1000, 0);

// A shelf with the text begun.
fn begun(alloc: Global, text: &[u8]) -> Result<MemoryShelf, Fail>
    ensures { IfOk result (λ shelf. IsSome shelf.begun) }
{
    let mut shelf = MemoryShelf::new(alloc);
    shelf.put(alloc, "table", text)?;
    shelf.begin("table")?;
    Ok(shelf)
}

fn are_rows(vehicles: &[Vehicle], rows: &[Row]) -> bool {
    if vehicles.len() != rows.len() {
        return false;
    }
    for k in 0..rows.len() {
        let v = vehicles[k];
        if (v.no.0, v.start.0, v.seats, v.from, v.until, v.spaces) != rows[k] {
            return false;
        }
    }
    true
}

/// Whether the text that is begun gives these vehicles over four nodes, or this fault.
fn has_rows(alloc: Global, shelf: &mut MemoryShelf, expected: &Result<&[Row], FleetFault>) -> bool
    requires { IsSome shelf.old.begun }
{
    match (read_fleet(alloc, shelf, 4), expected) {
        (Ok(vehicles), Ok(rows)) => are_rows(vehicles.as_slice(), rows),
        (Err(found), Err(fault)) => found == *fault,
        _ => false,
    }
}

/// A text comes in pieces of at most 7,000 bytes, and gives these vehicles or this fault.
fn table_is(
    rt: &impl Abort,
    alloc: Global,
    text: &[u8],
    expected: &Result<&[Row], FleetFault>,
) -> Result<(), Fail> {
    let mut shelf = begun(alloc, text)?;
    shelf.pieces(7000);
    let same = has_rows(alloc, &mut shelf, expected);
    assert!(rt; same, "{}", text.escape_ascii());
    Ok(())
}

/// Each text behind these bytes is read as is said beside it.
fn are_tables(
    rt: &impl Abort,
    alloc: Global,
    start: &[u8],
    cases: &[TableCase],
) -> Result<(), Fail> {
    for (rows, expected) in cases {
        let text = joined(alloc, start, rows)?;
        table_is(rt, alloc, text.as_slice(), expected)?;
    }
    Ok(())
}

fn joined(alloc: Global, start: &[u8], rows: &[u8]) -> Result<Items<u8>, Fail> {
    let mut text = Vec::new(alloc);
    text.extend_from_slice(start)?;
    text.extend_from_slice(rows)?;
    Ok(Items::from_vec(text))
}

const HEADERS: &[TableCase] = &[
    (b"", Err(Header)),
    (b"\n\r\n\r", Err(Header)),
    (b"id", Err(Header)),
    (b"vehicle,start,seats,from", Err(Header)),
    (b"vehicle,start,seats,from,until,more", Err(Header)),
    (b"vehicle,start,seats,from,until,", Err(Header)),
    (b"vehicle,start,seats,from,until,spaces", Ok(&[])),
    (b"vehicle,start,seats,from,until, \"spaces\" ", Err(Header)),
    (b"vehicle,start,seats,from,until,\t spaces ", Ok(&[])),
    (b"vehicle,start,seats,from,until,spaces,", Err(Header)),
    (b"vehicle,start,seats,from,until,spaces,more", Err(Header)),
    (b"vehicle,start,seats,spaces,from,until", Err(Header)),
    (b"vehicle,start,seats,from,until,Spaces", Err(Header)),
    (b"Vehicle,start,seats,from,until", Err(Header)),
    (b"vehicle,start,seats,from,until", Ok(&[])),
    (
        b"\n\n\xef\xbb\xbfvehicle,start,seats,from,until",
        Err(Header),
    ),
    (b"\xef\xbb\xbfvehicle,start,seats,from,until", Ok(&[])),
    (b"\r\n\nvehicle,start,seats,from,until", Ok(&[])),
    (b"\"vehicle\",start,\"seats\",from,\"until\"", Ok(&[])),
    (b" vehicle\t,start ,\tseats, from,until \r\n", Ok(&[])),
    (b"\"vehicle,start,seats,from,until\"", Err(Header)),
    (b"   \nvehicle,start,seats,from,until", Err(Header)),
    (b"\"vehicle\"\",start,seats,from,until", Err(Header)),
];

#[test]
fn headers(rt: HostRuntime) -> Result<(), Fail> {
    are_tables(&rt, rt.alloc(), b"", HEADERS)
}

const ROWS: &[TableCase] = &[
    (b"1,1,2,0,1000\n", Ok(&[ONE])),
    (b"", Ok(&[])),
    (b"\n\n1,1,2,0,1000\n\n\n2,1,2,0,1000", Ok(&[ONE, TWO])),
    (b"1,1,2,0,1000\r\n2,1,2,0,1000\r\n", Ok(&[ONE, TWO])),
    (b"1,1,2,0,1000\r2,1,2,0,1000\r", Ok(&[ONE, TWO])),
    (
        b"\n\n1,1,2,0,1000\n\n\n1,1,2,0,1000",
        Err(Double { row: 2 }),
    ),
    (b"1,1,2,0,1000\n  \t\n", Err(Form { row: 2 })),
    (b"1,1,2,0,1000\n1,1,2,0,1000\n", Err(Double { row: 2 })),
    (b"1,1,2,0,1000\n1,5,2,0,1000\n", Err(Range { row: 2 })),
    (
        b"1,1,2,0,1000\n2,1,2,0,1000\n01,1,2,0,1000\n",
        Err(Double { row: 3 }),
    ),
    (
        b"3,1,2,0,1000\n2,1,2,0,1000\n1,1,2,0,1000\n",
        Ok(&[ONE, TWO, THREE]),
    ),
    (
        b"10,1,2,0,1000\n9,1,2,0,1000\n11,1,2,0,1000\n",
        Ok(&[
            (9, 1, 2, 0, 1000, 0),
            (10, 1, 2, 0, 1000, 0),
            (11, 1, 2, 0, 1000, 0),
        ]),
    ),
];

#[test]
fn rows(rt: HostRuntime) -> Result<(), Fail> {
    are_tables(&rt, rt.alloc(), HEADER, ROWS)
}

const FIELDS: &[TableCase] = &[
    (b"\"1\",1,\" 2\t\",0,1000\n", Ok(&[ONE])),
    (b"\"\"\"1\"\"\",1,2,0,1000\n", Err(Form { row: 1 })),
    (b"\"1\n\",1,2,0,1000\n", Err(Form { row: 1 })),
    (b"\"1\"2,1,2,0,1000\n", Ok(&[(12, 1, 2, 0, 1000, 0)])),
    (b"1,1,2,0,\"1000", Ok(&[ONE])),
    (b"1,1,2,0,\"1000\n", Err(Form { row: 1 })),
    (b"\"1,1,2,0,1000\n", Err(Form { row: 1 })),
    (b" \"1\",1,2,0,1000\n", Err(Form { row: 1 })),
    (b"\"1,1\",1,2,0,1000\n", Err(Form { row: 1 })),
    (b"1,1,2,0\n", Err(Form { row: 1 })),
    (b"1,1,2,0,1000,\n", Err(Form { row: 1 })),
    (b"1,1,2,0,1000\n0,1,2,0,1000,1\n", Err(Form { row: 2 })),
    (b"1,,2,0,1000\n", Err(Form { row: 1 })),
    (b"1,1,+2,0,1000\n", Err(Form { row: 1 })),
    (b"1,1,2 2,0,1000\n", Err(Form { row: 1 })),
    (b"0,1,2,0,x\n", Err(Form { row: 1 })),
    (b"1,1,2,0,1000\xff\n", Err(Form { row: 1 })),
    (
        b" 0001\t,  1,2 ,00000000000000000000000000,1000\n",
        Ok(&[ONE]),
    ),
];

#[test]
fn fields(rt: HostRuntime) -> Result<(), Fail> {
    are_tables(&rt, rt.alloc(), HEADER, FIELDS)
}

const RANGES: &[TableCase] = &[
    (b"0,1,2,0,1000\n", Err(Range { row: 1 })),
    (
        b"4294967295,1,2,0,1000\n",
        Ok(&[(LARGEST, 1, 2, 0, 1000, 0)]),
    ),
    (b"4294967296,1,2,0,1000\n", Err(Range { row: 1 })),
    (b"18446744073709551617,1,2,0,1000\n", Err(Range { row: 1 })),
    (b"1,0,2,0,1000\n", Err(Range { row: 1 })),
    (b"1,4,2,0,1000\n", Ok(&[(1, 4, 2, 0, 1000, 0)])),
    (b"1,5,2,0,1000\n", Err(Range { row: 1 })),
    (b"1,4294967297,2,0,1000\n", Err(Range { row: 1 })),
    (b"1,1,0,0,1000\n", Err(Range { row: 1 })),
    (b"1,1,1,0,1000\n", Ok(&[(1, 1, 1, 0, 1000, 0)])),
    (b"1,1,16,0,1000\n", Ok(&[(1, 1, 16, 0, 1000, 0)])),
    (b"1,1,17,0,1000\n", Err(Range { row: 1 })),
    (b"1,1,2,7,7\n", Ok(&[(1, 1, 2, 7, 7, 0)])),
    (b"1,1,2,8,7\n", Err(Range { row: 1 })),
    (
        b"1,1,2,1099511627776,1099511627776\n",
        Ok(&[(1, 1, 2, LATEST, LATEST, 0)]),
    ),
    (b"1,1,2,0,1099511627777\n", Err(Range { row: 1 })),
    (
        b"1,1,2,99999999999999999999,99999999999999999999\n",
        Err(Range { row: 1 }),
    ),
];

#[test]
fn ranges(rt: HostRuntime) -> Result<(), Fail> {
    are_tables(&rt, rt.alloc(), HEADER, RANGES)
}

const SPACES: &[TableCase] = &[
    (b"", Ok(&[])),
    (b"1,1,2,0,1000,1\n", Ok(&[(1, 1, 2, 0, 1000, 1)])),
    (b"1,1,2,0,1000,0\n2,1,2,0,1000,00", Ok(&[ONE, TWO])),
    (b"1,1,16,0,1000,16\n", Ok(&[(1, 1, 16, 0, 1000, 16)])),
    (b"1,1,2,0,1000,17\n", Err(Range { row: 1 })),
    (b"1,1,2,0,1000,4294967297\n", Err(Range { row: 1 })),
    (b"1,1,2,0,1000\n", Err(Form { row: 1 })),
    (b"1,1,2,0,1000,1,1\n", Err(Form { row: 1 })),
    (b"1,1,2,0,1000,\n", Err(Form { row: 1 })),
    (b"1,1,2,0,1000,x\n", Err(Form { row: 1 })),
    (b"1,1,17,0,1000,x\n", Err(Form { row: 1 })),
    (b"1,1,2,0,1000,1\n1,1,2,0,1000,2\n", Err(Double { row: 2 })),
];

#[test]
fn wheelchair_spaces(rt: HostRuntime) -> Result<(), Fail> {
    are_tables(&rt, rt.alloc(), SPACED_HEADER, SPACES)
}

/// How many vehicles the text that is begun gives.
fn vehicle_count(alloc: Global, shelf: &mut MemoryShelf) -> Result<usize, FleetFault>
    requires { IsSome shelf.old.begun }
{
    let vehicles = read_fleet(alloc, shelf, 4)?;
    Ok(vehicles.len())
}

/// So many vehicles are read of as many rows, or the fault.
fn check_many(
    rt: &impl Abort,
    alloc: Global,
    count: u32,
    expected: Result<usize, FleetFault>,
) -> Result<(), Fail> {
    let mut text = Vec::new(alloc);
    text.extend_from_slice(HEADER)?;
    for before in 0..count {
        let no = 100_000_u32.saturating_sub(before);
        text.extend_from_slice(format!(in alloc; "{no},1,2,0,1000\n")?.as_bytes())?;
    }
    let mut shelf = begun(alloc, text.as_slice())?;
    let found = vehicle_count(alloc, &mut shelf);
    assert_eq!(rt; found, expected);
    Ok(())
}

#[test]
fn most_vehicles(rt: HostRuntime) -> Result<(), Fail> {
    check_many(&rt, rt.alloc(), 65536, Ok(65536))?;
    check_many(&rt, rt.alloc(), 65537, Err(Range { row: 65537 }))?;
    check_many(&rt, rt.alloc(), 70000, Err(Range { row: 65537 }))
}

/// A text of so many bytes, which begins so.
fn check_size(
    rt: &impl Abort,
    alloc: Global,
    start: &[u8],
    size: usize,
    expected: FleetFault,
) -> Result<(), Fail> {
    let mut text = Vec::new(alloc);
    text.extend_from_slice(start)?;
    text.resize(size, b'1')?;
    let mut shelf = begun(alloc, text.as_slice())?;
    shelf.pieces(7000);
    let found = vehicle_count(alloc, &mut shelf);
    assert_eq!(rt; found, Err(expected), "{size} bytes");
    Ok(())
}

#[test]
fn large_texts(rt: HostRuntime) -> Result<(), Fail> {
    check_size(&rt, rt.alloc(), HEADER, 16_777_216, Form { row: 1 })?;
    check_size(&rt, rt.alloc(), HEADER, 16_777_217, Large)?;
    check_size(&rt, rt.alloc(), b"id", 16_777_217, Large)
}

/// The read of that number fails, and this is told.
fn check_failing(rt: &impl Abort, alloc: Global, text: &[u8], read: u64) -> Result<(), Fail> {
    let mut shelf = begun(alloc, text)?;
    shelf.pieces(20);
    shelf.fail(alloc, "table", read)?;
    let found = vehicle_count(alloc, &mut shelf);
    assert_eq!(rt; found, Err(FleetFault::Fault));
    Ok(())
}

#[test]
fn failing_shelf(rt: HostRuntime) -> Result<(), Fail> {
    check_failing(&rt, rt.alloc(), HEADER, 1)?;
    let text = joined(rt.alloc(), HEADER, b"1,1,2,0,1000\n")?;
    check_failing(&rt, rt.alloc(), text.as_slice(), 3)
}

fn says(
    rt: &impl Abort,
    alloc: Global,
    bytes: &[u8],
    expected: Result<StreamLine, StreamFault>,
) -> Result<(), Fail> {
    let line = Line {
        number: 1,
        bytes: Items::from_slice(alloc, bytes)?,
        ended: true,
    };
    assert_eq!(rt; stream_line(&line), expected, "{}", bytes.escape_ascii());
    Ok(())
}

/// None of the lines says anything but this fault.
fn are_no_lines(
    rt: &impl Abort,
    alloc: Global,
    lines: &[&[u8]],
    fault: StreamFault,
) -> Result<(), Fail> {
    for bytes in lines {
        says(rt, alloc, bytes, Err(fault))?;
    }
    Ok(())
}

const LINES: &[(&[u8], StreamLine)] = &[
    (b"t 5", Move(5)),
    (b" \tt\t 005 ", Move(5)),
    (b"", Nothing),
    (b" \t ", Nothing),
    (b"c", Nothing),
    (b" \tcomment \xff r", Nothing),
    (b"t 1099511627776", Move(LATEST)),
    (b"y 7", Cancel(RequestNo(7))),
    (b" y\t007 ", Cancel(RequestNo(7))),
    (b"y 1099511627776", Cancel(RequestNo(LATEST))),
];

#[test]
fn lines(rt: HostRuntime) -> Result<(), Fail> {
    for (bytes, said) in LINES {
        says(&rt, rt.alloc(), bytes, Ok(*said))?;
    }
    Ok(())
}

const RIDES: &[(&[u8], Ride)] = &[
    (b"r 7 2 4 0 1", (7, 2, 4, 0, 1, 0)),
    (
        b"\t r  007\t2 4 00000000000000000000000000 1 ",
        (7, 2, 4, 0, 1, 0),
    ),
    (b"r 0 0 0 0 0", (0, 0, 0, 0, 0, 0)),
    (
        b"r 1099511627776 4294967295 4294967295 1099511627776 4294967295",
        (LATEST, LARGEST, LARGEST, LATEST, LARGEST, 0),
    ),
    (b"r 7 2 4 0 1 1", (7, 2, 4, 0, 1, 1)),
    (b"r 7 2 4 0 0 0", (7, 2, 4, 0, 0, 0)),
    (b"r 7 2 4 0 0 \t 4294967295 ", (7, 2, 4, 0, 0, LARGEST)),
];

fn ride((no, pickup, dropoff, moment, riders, spaces): Ride) -> StreamLine {
    StreamLine::Ride(Request {
        no: RequestNo(no),
        pickup: NodeNo(pickup),
        dropoff: NodeNo(dropoff),
        moment,
        riders,
        spaces,
    })
}

#[test]
fn rides(rt: HostRuntime) -> Result<(), Fail> {
    for (bytes, expected) in RIDES {
        says(&rt, rt.alloc(), bytes, Ok(ride(*expected)))?;
    }
    Ok(())
}

const NO_FORMS: &[&[u8]] = &[
    b"r 7 2 4 0",
    b"r 7 2 4 0 1 1 1",
    b"r 7 2 4 0 1 x",
    b"r",
    b"t",
    b"t 5 5",
    b"q",
    b"rr 7 2 4 0 1",
    b"R 7 2 4 0 1",
    b"t5",
    b"\xffc",
    b"t -5",
    b"t +5",
    b"t 5\r",
    b"t 5\xff",
    b"r 7 2 4 0 -1",
    b"r 1099511627777 2 4 0 x",
    b"r 7,2,4,0,1",
    b"y",
    b"y 7 7",
    b"y x",
    b"y -7",
    b"y7",
    b"Y 7",
];

#[test]
fn other_forms(rt: HostRuntime) -> Result<(), Fail> {
    are_no_lines(&rt, rt.alloc(), NO_FORMS, StreamFault::Form)
}

const PAST_RANGES: &[&[u8]] = &[
    b"t 1099511627777",
    b"t 18446744073709551616",
    b"r 1099511627777 2 4 0 1",
    b"r 7 4294967296 4 0 1",
    b"r 7 2 4294967296 0 1",
    b"r 7 2 4 1099511627777 1",
    b"r 7 2 4 0 4294967296",
    b"r 7 2 4 0 1 4294967296",
    b"y 1099511627777",
    b"y 18446744073709551623",
];

#[test]
fn numbers_past_their_ranges(rt: HostRuntime) -> Result<(), Fail> {
    are_no_lines(&rt, rt.alloc(), PAST_RANGES, StreamFault::Range)
}
