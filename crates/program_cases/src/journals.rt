ghost use Rattle.std.specs.Prelude.{IsSome};

use crate::runs::{WORDS, ends, shelf_of, status_of};
use board_core::{Advanced, Submitted};
use city_gen::{City, make_city};
use contraction::contract;
use dispatch_top::Status;
use input_tables::StreamLine;
use journal_text::{GroupFault, Groups, TextDecision, TextEntry};
use ride_base::{LARGEST_TEXT, Lines, MemoryShelf, MemorySink, Shelf};
use road_graph::{Graph, Steps};
use std::alloc::Global;
use std::process::Abort;
use std::test::Fail;
use std::thread::Threads;

/// The text of a city's roads.
fn graph_text(alloc: Global, city: &City) -> Result<String, Fail> {
    let mut text = String::new(alloc);
    writeln!(text, "p sp {} {}", city.nodes, city.roads.len())?;
    for road in city.roads.as_slice() {
        writeln!(text, "a {} {} {}", road.from.0, road.to.0, road.weight)?;
    }
    Ok(text)
}

/// The table of a city's vehicles.
fn fleet_text(alloc: Global, city: &City) -> Result<String, Fail> {
    let mut text = String::new(alloc);
    writeln!(text, "vehicle,start,seats,from,until")?;
    for car in city.fleet.as_slice() {
        let (no, start) = (car.no.0, car.start.0);
        writeln!(
            text,
            "{no},{start},{},{},{}",
            car.seats, car.from, car.until
        )?;
    }
    Ok(text)
}

/// Adds a line of a stream.
fn add_line(text: &mut String, line: &StreamLine) -> Result<(), Fail> {
    match line {
        StreamLine::Move(now) => writeln!(text, "t {now}")?,
        StreamLine::Ride(ride) => {
            let (no, pickup, dropoff) = (ride.no.0, ride.pickup.0, ride.dropoff.0);
            writeln!(
                text,
                "r {no} {pickup} {dropoff} {} {}",
                ride.moment, ride.riders
            )?;
        }
        StreamLine::Cancel(no) => writeln!(text, "y {}", no.0)?,
        StreamLine::Nothing => writeln!(text, "c")?,
    }
    Ok(())
}

/// The text of a city's stream.
fn stream_text(alloc: Global, city: &City) -> Result<String, Fail> {
    let mut text = String::new(alloc);
    for line in city.lines.as_slice() {
        add_line(&mut text, line)?;
    }
    Ok(text)
}

/// What the groups of a journal tell.
#[derive(Clone, Copy, Debug, PartialEq, Eq)]
struct Told {
    /// Groups of a request, and of a move of the clock.
    requests: u32,
    moves: u32,
    /// Requests that were accepted.
    accepted: u32,
    /// Answers, and what they cost.
    assigned: u32,
    nobody: u32,
    cost: u64,
    /// The accepted request that waits for its answer.
    waits: Option<u64>,
    /// Each answer stood behind its request, and no other group did.
    at_once: bool,
}

impl Told {
    fn new() -> Told {
        Told {
            requests: 0,
            moves: 0,
            accepted: 0,
            assigned: 0,
            nobody: 0,
            cost: 0,
            waits: None,
            at_once: true,
        }
    }

    fn count(&mut self, entry: &TextEntry) {
        let waits = self.waits;
        self.waits = None;
        match entry {
            TextEntry::Submit(request, submitted) => {
                self.at_once = self.at_once && waits.is_none();
                self.requests = self.requests.wrapping_add(1);
                if *submitted == Submitted::Accepted {
                    self.accepted = self.accepted.wrapping_add(1);
                    self.waits = Some(request.no.0);
                }
            }
            TextEntry::Commit(no, decision) => {
                self.at_once = self.at_once && waits == Some(no.0);
                self.count_answer(decision);
            }
            TextEntry::Advance(_now, Advanced::Moved(_served)) => {
                self.at_once = self.at_once && waits.is_none();
                self.moves = self.moves.wrapping_add(1);
            }
            _ => self.at_once = false,
        }
    }

    fn count_answer(&mut self, decision: &TextDecision) {
        match decision {
            TextDecision::Assigned(offer) => {
                self.assigned = self.assigned.wrapping_add(1);
                self.cost = self.cost.wrapping_add(offer.cost);
            }
            TextDecision::Nobody => self.nobody = self.nobody.wrapping_add(1),
        }
    }
}

/// Reads a journal that is begun to its end.
fn read_through(alloc: Global, shelf: &mut MemoryShelf) -> Result<Told, GroupFault>
    requires { IsSome shelf.old.begun }
{
    let mut groups = Groups::new(alloc);
    let mut lines = Lines::new(alloc, LARGEST_TEXT);
    let mut told = Told::new();
    'groups: for _ in 0..10_000_u32 {
        match groups.next(alloc, &mut lines, shelf)? {
            Some(group) => told.count(&group.entry),
            None => return Ok(told),
        }
    }
    Err(GroupFault::Fault)
}

/// What a journal tells, which is read in pieces.
fn told_by(alloc: Global, journal: &[u8]) -> Result<Told, Fail> {
    let mut shelf = MemoryShelf::new(alloc);
    shelf.put(alloc, "journal", journal)?;
    shelf.pieces(1000);
    shelf.begin("journal")?;
    Ok(read_through(alloc, &mut shelf)?)
}

/// The journal of a run over a city's texts.
fn journal_of<R: Threads + Sync + Abort>(
    rt: &R,
    alloc: Global,
    city: &City,
) -> Result<Vec<u8>, Fail> {
    let graph = graph_text(alloc, city)?;
    let fleet = fleet_text(alloc, city)?;
    let stream = stream_text(alloc, city)?;
    let texts = [graph.as_bytes(), fleet.as_bytes(), stream.as_bytes()];
    let mut shelf = shelf_of(alloc, texts)?;
    let mut sink = MemorySink::new(alloc, 10_000_000)?;
    let ended = status_of(rt, alloc, WORDS, &mut shelf, &mut sink)?;
    assert_eq!(rt; ended, Status::Done);
    Ok(Vec::from_slice(alloc, sink.taken())?)
}

/// How many arcs a hierarchy of a city's roads has.
fn arcs_of<R: Threads>(rt: &R, alloc: Global, city: &City) -> Result<u64, Fail> {
    let graph = Graph::build(alloc, city.nodes, city.roads.as_slice())?;
    let mut steps = Steps::start(rt, ());
    Ok(contract(alloc, &graph, &mut steps)?.arcs())
}

/// The summary of city 7, by what its journal tells.
fn summary(alloc: Global, told: &Told, arcs: u64) -> Result<String, Fail> {
    let Told {
        assigned,
        nobody,
        cost,
        ..
    } = *told;
    Ok(format!(in alloc;
        "city 7\nnodes 1600\nroads 6240\nvehicles 60\nrequests 500\nassigned {assigned}\nnobody {nobody}\ncost {cost}\nshortcuts {arcs}\n"
    )?)
}

#[test]
fn a_city_is_summed_up_as_its_journal_tells(rt: HostRuntime) -> Result<(), Fail> {
    let city = make_city(rt.alloc(), 7)?;
    let journal = journal_of(&rt, rt.alloc(), &city)?;
    let told = told_by(rt.alloc(), journal.as_slice())?;
    assert_eq!(&rt; (told.requests, told.moves), (500, 500));
    assert_eq!(&rt; (told.waits, told.at_once), (None, true));
    assert_eq!(&rt;
        (told.accepted, told.assigned.wrapping_add(told.nobody)),
        (500, 500)
    );
    let output = summary(rt.alloc(), &told, arcs_of(&rt, rt.alloc(), &city)?)?;
    ends(
        &rt,
        rt.alloc(),
        &["gen", "7"],
        [b"", b"", b""],
        Status::Done,
        output.as_bytes(),
    )
}
