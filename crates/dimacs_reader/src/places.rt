ghost use Rattle.std.specs.Prelude.{◌≡◌, ◌≢◌, ℕ, ◌<◌, ◌≤◌, ◌+◌, ◌-◌, ◌^◌, [], true, IfOk, IfErr, IfSome, IfNone, IsOk, Err, None, OnOk, length, set};
ghost use Rattle.std.specs.Option.{option_to_list};
ghost use Rattle.ride_base.specs.Outside.{CountRose, CountStays, OnlyRead};
ghost use Rattle.dimacs_reader.specs.Calls.{ArePlacesOf, AreSaidPlaces, HoldsMore, HoldsPlaces, IsFreeAt, IsHeaderAhead, IsNoneFree, LeavesUndecided, LeavesUnfinished, RefusesSaid, RefusesNear, RefusesText, RefusesTextNear, SaysHeader, SaysPlace, SaysPlacing, StaysReadFrom, StaysUndecided, StaysUnfinished};
ghost use Rattle.dimacs_reader.specs.Places.{places_of};
ghost use Rattle.dimacs_reader.specs.Reading.{places_ahead, placed_ahead};
ghost use Rattle.dimacs_reader.specs.Refusals.{IsRefusalAt};

use crate::faults::GraphFault;
use crate::forms::{Coordinate, PlaceLine, place_line};
use crate::lines::CountedLines;
use ride_base::{Line, NoMemory, Shelf};
use road_graph::MOST_NODES;
use std::alloc::Global;

/// A node, counted from 0, and where it lies.
#[derive(Clone, Copy, Debug)]
struct Placing {
    index: usize,
    x: i64,
    y: i64,
}

/// Where nodes lie, as far as it was read.
#[derive(Drop)]
struct Coordinates {
    held: Vec<(i64, i64)>,
    /// Which of them were placed.
    placed: Vec<bool>,
    /// How many were placed.
    count: u32,
}

/// Reads the places of so many nodes from the text that is begun: `p aux sp co N`, where N is that number, and then one line
/// `v ID X Y` for each node, in any order. Comments and blank lines may stand anywhere. The first line that is bad is told. The answer
/// has the place of node k + 1 at index k, X before Y, each at most 2,147,483,647 in size. After an error the text stays begun, and the
/// shelf stands behind what was read of it, which may be more than the line that is told.
pub fn read_places<S: Shelf>(
    alloc: Global,
    shelf: &mut S,
    nodes: u32,
) -> Result<Vec<(i64, i64)>, GraphFault>
    requires { (S.seen shelf.old).begun ≡ true }
    ensures places { IfOk result (λ v. ArePlacesOf nodes (S.seen shelf.old).left v.items) }
    ensures all { IfOk result (λ v. length v.items ≡ nodes) }
    ensures refused { RefusesText (places_of nodes) (S.seen shelf.old).left result }
    ensures unread { result ≡ Err GraphFault.Fault
        → LeavesUndecided (places_of nodes) (S.seen shelf.old) (S.seen shelf.new) }
    ensures near { RefusesTextNear (S.seen shelf.old) result (S.seen shelf.new) }
    ensures wanted { result ≡ Err GraphFault.NoMemory
        → LeavesUnfinished (places_of nodes) (S.seen shelf.old) (S.seen shelf.new) }
    ensures fault { result ≡ Err GraphFault.Fault
        → CountRose (S.seen shelf.old) (S.seen shelf.new) }
    ensures quiet { (S.seen shelf.old).quiet ≡ true → result ≢ Err GraphFault.Fault
        → CountStays (S.seen shelf.old) (S.seen shelf.new) }
    ensures surely { (S.seen shelf.old).sure ≡ true → result ≡ Err GraphFault.Fault → ⊥ }
    ensures shelf { OnlyRead (S.seen shelf.old) (S.seen shelf.new) }
{
    let mut lines = CountedLines::new(alloc);
    let mut line = Line::new(alloc);
    read_header(&mut lines, shelf, &mut line, nodes)?;
    read_each(alloc, &mut lines, shelf, &mut line, nodes)
}

/// Reads as far as the header, which must say so many nodes, each line into `line`.
fn read_header<S: Shelf>(
    lines: &mut CountedLines,
    shelf: &mut S,
    line: &mut Line,
    nodes: u32,
) -> Result<(), GraphFault>
    requires begun { (S.seen shelf.old).begun ≡ true }
    requires unstopped { lines.old.stopped ≡ None }
    ensures header { OnOk result
        (IsHeaderAhead nodes lines.old (S.seen shelf.old) lines.new (S.seen shelf.new)) }
    ensures refused { RefusesSaid (places_ahead nodes lines.old (S.seen shelf.old).left) result }
    ensures goes { IsOk result
        → StaysReadFrom lines.old (S.seen shelf.old) lines.new (S.seen shelf.new) }
    ensures unread { result ≡ Err GraphFault.Fault
        → StaysUndecided (places_ahead nodes) lines.old (S.seen shelf.old) (S.seen shelf.new) }
    ensures near { RefusesNear lines.old (S.seen shelf.old) result (S.seen shelf.new) }
    ensures wanted { result ≡ Err GraphFault.NoMemory
        → StaysUnfinished (places_ahead nodes) lines.old (S.seen shelf.old) (S.seen shelf.new) }
    ensures unstopped { IsOk result → lines.new.stopped ≡ None }
    ensures fault { result ≡ Err GraphFault.Fault
        → CountRose (S.seen shelf.old) (S.seen shelf.new) }
    ensures quiet { (S.seen shelf.old).quiet ≡ true → result ≢ Err GraphFault.Fault
        → CountStays (S.seen shelf.old) (S.seen shelf.new) }
    ensures surely { (S.seen shelf.old).sure ≡ true → result ≡ Err GraphFault.Fault → ⊥ }
    ensures shelf { OnlyRead (S.seen shelf.old) (S.seen shelf.new) }
{
    while lines.read_line(shelf, line)? {
        if is_header(line, nodes)? {
            return Ok(());
        }
    }
    Err(GraphFault::Form {
        line: lines.next_number(),
    })
}

/// Whether a line is the header, where none came before it.
fn is_header(line: &Line, nodes: u32) -> Result<bool, GraphFault>
    ensures says { SaysHeader nodes line.now result }
    ensures refusal { IfErr result (IsRefusalAt line.now.number) }
{
    match place_line(line.bytes.as_slice()) {
        PlaceLine::Skipped => Ok(false),
        PlaceLine::Header { nodes: said } => {
            if said > u64::from(MOST_NODES) {
                return Err(GraphFault::Limit { line: line.number });
            }
            if said != u64::from(nodes) {
                return Err(GraphFault::Count {
                    line: line.number,
                    said,
                    found: u64::from(nodes),
                });
            }
            Ok(true)
        }
        PlaceLine::Place { .. } | PlaceLine::Formless => {
            Err(GraphFault::Form { line: line.number })
        }
    }
}

/// Reads the place of each node, to the end of the text, each line into `line`.
fn read_each<S: Shelf>(
    alloc: Global,
    lines: &mut CountedLines,
    shelf: &mut S,
    line: &mut Line,
    nodes: u32,
) -> Result<Vec<(i64, i64)>, GraphFault>
    requires begun { (S.seen shelf.old).begun ≡ true }
    requires unstopped { lines.old.stopped ≡ None }
    ensures places { IfOk result
        (λ v. AreSaidPlaces nodes
        (placed_ahead nodes [] lines.old (S.seen shelf.old).left) v.items) }
    ensures all { IfOk result (λ v. length v.items ≡ nodes) }
    ensures refused { RefusesSaid (placed_ahead nodes [] lines.old (S.seen shelf.old).left) result }
    ensures unread { result ≡ Err GraphFault.Fault
        → StaysUndecided (placed_ahead nodes []) lines.old (S.seen shelf.old) (S.seen shelf.new) }
    ensures near { RefusesNear lines.old (S.seen shelf.old) result (S.seen shelf.new) }
    ensures wanted { result ≡ Err GraphFault.NoMemory
        → StaysUnfinished (placed_ahead nodes []) lines.old (S.seen shelf.old) (S.seen shelf.new) }
    ensures fault { result ≡ Err GraphFault.Fault
        → CountRose (S.seen shelf.old) (S.seen shelf.new) }
    ensures quiet { (S.seen shelf.old).quiet ≡ true → result ≢ Err GraphFault.Fault
        → CountStays (S.seen shelf.old) (S.seen shelf.new) }
    ensures surely { (S.seen shelf.old).sure ≡ true → result ≡ Err GraphFault.Fault → ⊥ }
    ensures shelf { OnlyRead (S.seen shelf.old) (S.seen shelf.new) }
{
    let mut coordinates = Coordinates::unplaced(alloc, nodes)?;
    while lines.read_line(shelf, line)? {
        let placing = coordinates.placing_of(line, nodes)?;
        coordinates.put_some(placing);
    }
    if coordinates.count < nodes {
        return Err(GraphFault::Count {
            line: lines.next_number(),
            said: u64::from(nodes),
            found: u64::from(coordinates.count),
        });
    }
    Ok(coordinates.held)
}

impl Coordinates {
    /// None of so many nodes is placed.
    fn unplaced(alloc: Global, nodes: u32) -> Result<Coordinates, NoMemory>
        ensures { IfOk result (HoldsPlaces nodes []) }
    {
        let mut held = Vec::new(alloc);
        held.resize(nodes as usize, (0, 0))?;
        let mut placed = Vec::new(alloc);
        placed.resize(nodes as usize, false)?;
        Ok(Coordinates {
            held,
            placed,
            count: 0,
        })
    }

    /// What a line says behind the header. None is of a line that is skipped.
    fn placing_of(&self, line: &Line, nodes: u32) -> Result<Option<Placing>, GraphFault>
        requires { self.now.count ≤ nodes }
        ensures says { SaysPlace nodes self.now line.now result }
        ensures free { IfOk result (λ o. IfSome o (λ placing. IsFreeAt self.now placing.index)) }
        ensures fewer { IfOk result (λ o. IfSome o (λ _. self.now.count < nodes)) }
        ensures refusal { IfErr result (IsRefusalAt line.now.number) }
    {
        match place_line(line.bytes.as_slice()) {
            PlaceLine::Skipped => Ok(None),
            PlaceLine::Place { node, x, y } => {
                if self.count == nodes {
                    return Err(GraphFault::Count {
                        line: line.number,
                        said: u64::from(nodes),
                        found: u64::from(nodes) + 1,
                    });
                }
                Ok(Some(self.placing(line.number, node, x, y)?))
            }
            PlaceLine::Header { .. } | PlaceLine::Formless => {
                Err(GraphFault::Form { line: line.number })
            }
        }
    }

    /// The place of a line, whose node must be one that has none.
    fn placing(
        &self,
        line: u64,
        node: u64,
        x: Coordinate,
        y: Coordinate,
    ) -> Result<Placing, GraphFault>
        ensures says { SaysPlacing self.now line node x y result }
        ensures free { IfOk result (λ placing. IsFreeAt self.now placing.index) }
        ensures refusal { IfErr result (IsRefusalAt line) }
    {
        let Some(index) = self.free(node) else {
            return Err(GraphFault::Node { line });
        };
        match (x, y) {
            (Coordinate::Within(x), Coordinate::Within(y)) => Ok(Placing { index, x, y }),
            _ => Err(GraphFault::Weight { line }),
        }
    }

    /// Where the node of that number stands, if it is one that has no place.
    fn free(&self, node: u64) -> Option<usize>
        ensures some { IfSome result (λ i. (node ≡ i + 1) × IsFreeAt self.now i) }
        ensures none { IfNone result (IsNoneFree self.now node) }
    {
        let index = node.checked_sub(1)? as usize;
        if index < self.placed.len() && !self.placed[index] {
            Some(index)
        } else {
            None
        }
    }

    /// Places a node that has no place, where there is one to be placed.
    fn put_some(&mut self, placing: Option<Placing>)
        requires same { length self.old.held.items ≡ length self.old.placed.items }
        requires free { IfSome placing (λ placing. IsFreeAt self.old placing.index) }
        requires few { IfSome placing (λ _. self.old.count < 2 ^ 32 - 1) }
        ensures holds { HoldsMore self.old placing self.new }
        ensures count { self.new.count ≡ self.old.count + length (option_to_list placing) }
    {
        if let Some(placing) = placing {
            self.put(placing);
        }
    }

    /// Places a node that has no place.
    fn put(&mut self, placing: Placing)
        requires held { placing.index < length self.old.held.items }
        requires placed { placing.index < length self.old.placed.items }
        requires few { self.old.count < 2 ^ 32 - 1 }
        ensures held { self.new.held.items
            ≡ set self.old.held.items placing.index (placing.x, placing.y) }
        ensures placed { self.new.placed.items ≡ set self.old.placed.items placing.index true }
        ensures count { self.new.count ≡ self.old.count + 1 }
    {
        self.held[placing.index] = (placing.x, placing.y);
        self.placed[placing.index] = true;
        self.count += 1;
    }
}
