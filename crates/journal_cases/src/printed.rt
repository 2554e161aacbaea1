ghost use Rattle.std.specs.Prelude.{◌≤◌, IsSome, length};
ghost use Rattle.journal_text.specs.Printable.{IsPrintable};

use crate::texts::{Journal, begun};
use board_core::{Entry, Submitted};
use insertion_cost::{Assigned, Decision, Offer};
use journal_text::{Group, TextDecision, TextEntry, render};
use ride_base::{MemoryShelf, RequestNo, VehicleNo};
use road_graph::{Graph, NodeNo, Road, Steps, Walk};
use std::alloc::Global;
use std::process::Abort;
use std::test::Fail;
use std::thread::Threads;
use stop_schedule::{Insertion, NewWalks, Request};

/// A request of one rider from node 2 to node 4.
fn request() -> Request {
    Request {
        no: RequestNo(1),
        pickup: NodeNo(2),
        dropoff: NodeNo(4),
        moment: 0,
        riders: 1,
        spaces: 0,
    }
}

/// The request is answered by vehicle 1, which has no other stops, over these two walks.
fn answer(alloc: Global, first: Walk, second: Walk) -> Entry
    ensures { IsPrintable result }
{
    let offer = Offer {
        cost: 34,
        no: VehicleNo(1),
        place: 0,
        at: Insertion { i: 0, j: 0 },
        leave: 12,
        arrive: 32,
    };
    let mut walks = NewWalks::new(alloc);
    walks.push(first);
    walks.push(second);
    Entry::Commit(RequestNo(1), Decision::Assigned(Assigned { offer, walks }))
}

/// The road of the nodes 1 to 4, 10 from one to the next.
const ROADS: &[Road] = &[
    Road {
        from: NodeNo(1),
        to: NodeNo(2),
        weight: 10,
    },
    Road {
        from: NodeNo(2),
        to: NodeNo(3),
        weight: 10,
    },
    Road {
        from: NodeNo(3),
        to: NodeNo(4),
        weight: 10,
    },
];

/// A walk along that road.
fn walk<R: Threads>(rt: &R, alloc: Global, nodes: &[NodeNo]) -> Result<Walk, Fail>
    requires { length nodes.now ≤ 4 }
{
    let graph = Graph::build(alloc, 4, ROADS)?;
    let mut steps = Steps::start(rt, ());
    Ok(Walk::made(alloc, &graph, nodes, &mut steps)?.ok_or("a walk")?)
}

fn print(alloc: Global, entry: Entry, text: &mut Vec<u8>) -> Result<(), Fail>
    requires { IsPrintable entry }
{
    Ok(render(alloc, &entry, text)?)
}

fn is_submit(group: &Group) -> bool {
    match &group.entry {
        TextEntry::Submit(read, Submitted::Accepted) => *read == request() && group.line == 1,
        _ => false,
    }
}

fn is_answer(group: &Group) -> bool {
    match &group.entry {
        TextEntry::Commit(no, TextDecision::Assigned(offer)) => {
            let walks = offer.walks.as_slice();
            *no == RequestNo(1)
                && offer.no == VehicleNo(1)
                && offer.at == Insertion { i: 0, j: 0 }
                && (offer.cost, offer.leave, offer.arrive, group.line) == (34, 12, 32, 2)
                && walks.len() == 2
                && walks[0].as_slice() == [NodeNo(1), NodeNo(2)].as_slice()
                && walks[1].as_slice() == [NodeNo(2), NodeNo(3), NodeNo(4)].as_slice()
        }
        _ => false,
    }
}

/// Whether the journal is the submit and its answer, and no more.
fn is_row(alloc: Global, shelf: &mut MemoryShelf) -> bool
    requires { IsSome shelf.old.begun }
{
    let mut journal = Journal::new(alloc);
    let first = match journal.next(alloc, shelf) {
        Ok(Some(group)) => is_submit(&group),
        _ => false,
    };
    let second = match journal.next(alloc, shelf) {
        Ok(Some(group)) => is_answer(&group),
        _ => false,
    };
    let third = matches!(journal.next(alloc, shelf), Ok(None));
    let fourth = matches!(journal.next(alloc, shelf), Ok(None));
    first && second && third && fourth
}

/// What is printed of both entries.
const ROW: &[u8] = b"r 1 2 4 0 1\na 1 1 0 0 34 12 32\ng 0 1 2\ng 1 2 3 4\n";

fn check(rt: &impl Abort, alloc: Global, text: Vec<u8>) -> Result<(), Fail> {
    assert_eq!(rt; text.as_slice(), ROW);
    let mut shelf = begun(alloc, text.as_slice(), 100)?;
    assert!(rt; is_row(alloc, &mut shelf));
    Ok(())
}

#[test]
fn what_was_printed_is_read_again(rt: HostRuntime) -> Result<(), Fail> {
    let alloc = rt.alloc();
    let first = walk(&rt, alloc, &[NodeNo(1), NodeNo(2)])?;
    let second = walk(&rt, alloc, &[NodeNo(2), NodeNo(3), NodeNo(4)])?;
    let mut text = Vec::new(alloc);
    print(
        alloc,
        Entry::Submit(request(), Submitted::Accepted),
        &mut text,
    )?;
    print(alloc, answer(alloc, first, second), &mut text)?;
    check(&rt, alloc, text)
}
