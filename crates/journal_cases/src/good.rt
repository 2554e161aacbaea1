ghost use Rattle.std.specs.Prelude.{◌<◌, IsSome};

use crate::texts::{Journal, begun, survey};
use journal_text::{Certificate, Group, TextCancelled, TextDecision, TextEntry};
use plain_search::Potential;
use ride_base::{Items, MemoryShelf};
use road_graph::NodeNo;
use std::alloc::Global;
use std::process::Abort;
use std::test::Fail;

/// What is read, a journal, how many groups it has, and the sum of the numbers of their first lines.
type Good = (&'static str, &'static [u8], u32, u64);

const FULL: &[u8] = b"a 1 1 0 0 9 1 3
g 0 9 9 9 9 9 9 9 9 9 9 9 9 9 9 9 9 9 9 9 9 9 9 9 9 9 9 9 9 9 9 9 9 9 9 9 9 9 9 9 9 9 9 9 9 9 9 9 9 9 9 9 9 9 9 9 9 9 9 9 9 9 9 9 9
h 0 8 7
g 1 9 9 9 9 9 9 9 9 9 9 9 9 9 9 9 9 9 9 9 9 9 9 9 9 9 9 9 9 9 9 9 9 9 9 9 9 9 9 9 9 9 9 9 9 9 9 9 9 9 9 9 9 9 9 9 9 9 9 9 9 9 9 9 9
g 2 8
z
";

const FULL_PAIRS: &[u8] = b"n 1
u 1 -
w 1 1 2 2 3 3 4 4 5 5 6 6 7 7 8 8 9 9 10 10 11 11 12 12 13 13 14 14 15 15 16 16 17 17 18 18 19 19 20 20 21 21 22 22 \
    23 23 24 24 25 25 26 26 27 27 28 28 29 29 30 30 31 31 32 32
w 33 0
u 2 5
w 1 1 2 2 3 3 4 4 5 5 6 6 7 7 8 8 9 9 10 10 11 11 12 12 13 13 14 14 15 15 16 16 17 17 18 18 19 19 20 20 21 21 22 22 \
    23 23 24 24 25 25 26 26 27 27 28 28 29 29 30 30 31 31 32 32
u 3 9007199254740991
u 4 -
e 9 9 9 9 9 9 9 9 9 9 9 9 9 9 9 9 9 9 9 9 9 9 9 9 9 9 9 9 9 9 9 9 9 9 9 9 9 9 9 9 9 9 9 9 9 9 9 9 9 9 9 9 9 9 9 9 9 9 9 9 9 9 9 9
f 1
z
";

const ROW: &[u8] = b"r 1 2 4 0 1
a 1 1 0 0 34 12 32
g 0 1 2
g 1 2 3 4
u 1 -
w 1 10 2 0 3 10 4 20
u 2 -
w 1 10 2 0 3 10 4 20
u 3 -
w 1 30 2 20 3 10 4 0
u 4 -
w 1 30 2 20 3 10 4 0
e 2 3 4
";

const KINDS: &[u8] = b"r 1 2 4 0 1
r 2 2 4 0 0
x 2 riders
k 1 1
b 1
n 1
t 12
s 1 1 p 2 10 12
t 3
x back 5
y 7
x 7 unknown
z
";

const LARGEST: &[u8] =
    b"r 4611686018427387904 4294967295 0 4611686018427387904 4294967295 4294967295
k 4611686018427387904 4611686018427387904
a 0 4294967295 64 64 4611686018427387904 4611686018427387904 4611686018427387904
g 64 4294967295
g 65 0
g 66 0
t 1099511627776
s 4294967295 4611686018427387904 d 4294967295 4611686018427387904 4611686018427387904
t 0
x back 1099511627776
y 4611686018427387904
o 4611686018427387904 4294967295 63 64
";

const CANCELLED: &[u8] = b"y 1
o 1 1 1 4
g 0 1 2
g 2 3
u 5 21
w 1 0 2 10 3 20
u 6 -
y 2
o 2 1 1 4
g 0 1 2
y 3
o 3 1 1 2
y 4
x 4 served
";

const GOOD: &[Good] = &[
    ("nothing", b"", 0, 0),
    ("each kind", KINDS, 9, 58),
    ("lines that end by CR and LF", b"z\r\nz\r\n", 2, 3),
    ("no LF at the end", b"z\nt 3\nx back 5", 2, 3),
    ("a wheelchair space", b"r 1 2 4 0 0 1\nr 1 2 4 0 1\n", 2, 3),
    (
        "an answer without a last walk",
        b"a 1 1 0 0 9 1 3\ng 0 1\ng 1 1\nz\n",
        2,
        5,
    ),
    (
        "an answer with it",
        b"a 1 1 0 0 9 1 3\ng 0 1\ng 1 1\ng 2 1\nz\n",
        2,
        6,
    ),
    (
        "j above i",
        b"a 1 1 0 2 9 1 3\ng 0 1\ng 1 1\ng 3 1\nz\n",
        2,
        6,
    ),
    (
        "the last leg then",
        b"a 1 1 0 2 9 1 3\ng 0 1\ng 1 1\ng 3 1\ng 4 1\nz\n",
        2,
        7,
    ),
    ("lines of 64 nodes", FULL, 2, 7),
    ("lines of 32 pairs", FULL_PAIRS, 2, 12),
    ("a row with its certificate", ROW, 2, 3),
    ("the largest numbers", LARGEST, 6, 33),
    ("cancellations", CANCELLED, 4, 33),
    (
        "nobody without a way",
        b"n 1\nu 1 -\nu 2 -\nu 3 0\nu 4 1\ne -\nz\n",
        2,
        8,
    ),
];

fn check(
    rt: &impl Abort,
    alloc: Global,
    name: &str,
    text: &[u8],
    most: usize,
    expected: (u32, u64),
) -> Result<(), Fail>
    requires { 0 < most }
{
    let mut shelf = begun(alloc, text, most)?;
    let found = survey(alloc, &mut shelf)?;
    assert_eq!(rt; found, (expected.0, expected.1, None), "{}", name);
    Ok(())
}

fn are_good(rt: &impl Abort, alloc: Global, cases: &[Good]) -> Result<(), Fail> {
    for (name, text, groups, sum) in cases {
        check(rt, alloc, name, text, 1, (*groups, *sum))?;
        check(rt, alloc, name, text, 1000, (*groups, *sum))?;
    }
    Ok(())
}

#[test]
fn groups_are_read(rt: HostRuntime) -> Result<(), Fail> {
    are_good(&rt, rt.alloc(), GOOD)
}

/// The next group of a journal, which has one.
fn next(alloc: Global, journal: &mut Journal, shelf: &mut MemoryShelf) -> Result<Group, Fail>
    requires { IsSome shelf.old.begun }
    ensures { IsSome shelf.new.begun }
{
    match journal.next(alloc, shelf) {
        Ok(group) => Ok(group.ok_or("a group")?),
        Err(_) => Err("a journal in form".into()),
    }
}

fn is_potential(potential: &Potential, listed: &[(NodeNo, u64)], rest: Option<u64>) -> bool {
    potential.listed.as_slice() == listed && potential.rest == rest
}

const TO: &[(NodeNo, u64)] = &[
    (NodeNo(1), 10),
    (NodeNo(2), 0),
    (NodeNo(3), 10),
    (NodeNo(4), 20),
];

const FROM: &[(NodeNo, u64)] = &[
    (NodeNo(1), 30),
    (NodeNo(2), 20),
    (NodeNo(3), 10),
    (NodeNo(4), 0),
];

fn is_certificate_of_row(proof: &Certificate) -> bool {
    is_potential(&proof.to_pickup, TO, None)
        && is_potential(&proof.from_pickup, TO, None)
        && is_potential(&proof.to_dropoff, FROM, None)
        && is_potential(&proof.from_dropoff, FROM, None)
        && is_walk(&proof.direct, &[NodeNo(2), NodeNo(3), NodeNo(4)])
}

fn is_walk(walk: &Option<Items<NodeNo>>, nodes: &[NodeNo]) -> bool {
    match walk {
        Some(walk) => walk.as_slice() == nodes,
        None => false,
    }
}

/// Whether these are the walks of the answer of the row.
fn are_walks_of_row(entry: &TextEntry) -> bool {
    match entry {
        TextEntry::Commit(_, TextDecision::Assigned(offer)) => {
            let walks = offer.walks.as_slice();
            walks.len() == 2
                && walks[0].as_slice() == [NodeNo(1), NodeNo(2)].as_slice()
                && walks[1].as_slice() == [NodeNo(2), NodeNo(3), NodeNo(4)].as_slice()
                && (offer.cost, offer.leave, offer.arrive) == (34, 12, 32)
        }
        _ => false,
    }
}

fn check_row(rt: &impl Abort, group: Group) {
    assert!(rt; group.line == 2 && group.joins.is_empty());
    assert!(rt; are_walks_of_row(&group.entry));
    match &group.proof {
        Some(proof) => assert!(rt; is_certificate_of_row(proof)),
        None => assert!(rt; false),
    }
}

#[test]
fn a_certificate_is_read(rt: HostRuntime) -> Result<(), Fail> {
    let mut shelf = begun(rt.alloc(), ROW, 7)?;
    let mut journal = Journal::new(rt.alloc());
    let _submit = next(rt.alloc(), &mut journal, &mut shelf)?;
    let group = next(rt.alloc(), &mut journal, &mut shelf)?;
    check_row(&rt, group);
    Ok(())
}

fn is_removal(entry: &TextEntry, joined: usize) -> bool {
    match entry {
        TextEntry::Cancel(_, TextCancelled::Removed(removal)) => {
            (removal.pickup, removal.dropoff, removal.walks.len()) == (1, 4, joined)
        }
        _ => false,
    }
}

fn check_joins(rt: &impl Abort, group: Group) {
    let joins = group.joins.as_slice();
    let listed = [(NodeNo(1), 0), (NodeNo(2), 10), (NodeNo(3), 20)];
    assert!(rt; is_removal(&group.entry, 2));
    assert!(rt; joins.len() == 2 && is_potential(&joins[0], &listed, Some(21)));
    assert!(rt; is_potential(&joins[1], &[], None));
}

#[test]
fn joined_potentials_are_read(rt: HostRuntime) -> Result<(), Fail> {
    let mut shelf = begun(rt.alloc(), CANCELLED, 7)?;
    let mut journal = Journal::new(rt.alloc());
    let group = next(rt.alloc(), &mut journal, &mut shelf)?;
    check_joins(&rt, group);
    Ok(())
}
