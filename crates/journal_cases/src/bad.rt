ghost use Rattle.std.specs.Prelude.{◌<◌};

use crate::texts::{begun, survey};
use std::alloc::Global;
use std::process::Abort;
use std::test::Fail;

/// What is bad, a journal, how many groups it has before that, and the bad line.
type Bad = (&'static str, &'static [u8], u32, u64);

const HEADS: &[Bad] = &[
    ("an empty line", b"\n", 0, 1),
    ("an empty line behind a group", b"z\n\nz\n", 1, 2),
    (
        "an empty line within a group",
        b"a 1 1 0 0 34 12 32\n\ng 0 1 2\n",
        0,
        2,
    ),
    ("a letter that begins nothing", b"q 1\n", 0, 1),
    ("a stop served without a clock", b"s 1 1 p 2 10 12\n", 0, 1),
    ("a refusal without a request", b"x 1 riders\n", 0, 1),
    ("a walk without an answer", b"g 0 1 2\n", 0, 1),
    ("more nodes without a walk", b"h 0 1 2\n", 0, 1),
    ("a potential without an answer", b"u 1 -\n", 0, 1),
    ("pairs without a potential", b"w 1 0\n", 0, 1),
    ("a direct walk without an answer", b"e 2 3\n", 0, 1),
    ("more of no direct walk", b"f 2 3\n", 0, 1),
    ("a removal without a cancellation", b"o 1 1 1 2\n", 0, 1),
    ("the letter alone", b"r\n", 0, 1),
    ("a field missing", b"r 1 2 4 0\n", 0, 1),
    ("a field too many", b"r 1 2 4 0 1 1 1\n", 0, 1),
    ("no wheelchair space told", b"r 1 2 4 0 1 0\n", 0, 1),
    ("a leading zero", b"r 01 2 4 0 1\n", 0, 1),
    ("a leading zero of zero", b"r 1 2 4 00 1\n", 0, 1),
    ("a space in front", b" r 1 2 4 0 1\n", 0, 1),
    ("two spaces behind the letter", b"r  1 2 4 0 1\n", 0, 1),
    ("two spaces between numbers", b"r 1  2 4 0 1\n", 0, 1),
    ("a space at the end", b"r 1 2 4 0 1 \n", 0, 1),
    ("a tab", b"r 1\t2 4 0 1\n", 0, 1),
    ("a sign", b"r 1 2 4 +0 1\n", 0, 1),
    ("a negative number", b"t -1\n", 0, 1),
    ("a letter in a number", b"k 1a 2\n", 0, 1),
    ("two CRs", b"z\r\r\n", 0, 1),
    ("a CR at the end of the text", b"z\r", 0, 1),
    ("a capital", b"Z\n", 0, 1),
    ("a number behind z", b"z 1\n", 0, 1),
    ("a comment", b"c this\nz\n", 0, 1),
    ("a claim without a desk", b"k 1\n", 0, 1),
    ("a return with a desk", b"b 1 2\n", 0, 1),
    ("a number past 64 bits", b"b 18446744073709551617\n", 0, 1),
    ("a request past 2^62", b"b 4611686018427387905\n", 0, 1),
    (
        "a moment past 2^62",
        b"r 1 2 4 4611686018427387905 1\n",
        0,
        1,
    ),
    ("a node past 32 bits", b"r 1 4294967296 4 0 1\n", 0, 1),
    ("riders past 32 bits", b"r 1 2 4 0 4294967296\n", 0, 1),
    ("spaces past 32 bits", b"r 1 2 4 0 1 4294967296\n", 0, 1),
    ("a desk past 2^62", b"k 1 4611686018427387905\n", 0, 1),
    ("a clock past 2^40", b"t 1099511627777\n", 0, 1),
    (
        "a clock at which it stayed past 2^40",
        b"t 3\nx back 1099511627777\n",
        0,
        2,
    ),
];

const REFUSALS: &[Bad] = &[
    ("an x of another number", b"r 1 2 4 0 0\nx 2 riders\n", 0, 2),
    ("another reason", b"r 1 2 4 0 0\nx 1 rider\n", 0, 2),
    ("no reason", b"r 1 2 4 0 0\nx 1\n", 0, 2),
    (
        "two spaces before the reason",
        b"r 1 2 4 0 0\nx 1  riders\n",
        0,
        2,
    ),
    (
        "the reason of a cancellation",
        b"r 1 2 4 0 0\nx 1 served\n",
        0,
        2,
    ),
    (
        "a second refusal",
        b"r 1 2 4 0 0\nx 1 riders\nx 1 riders\n",
        1,
        3,
    ),
    ("back without a clock", b"t 3\nx back\n", 0, 2),
    (
        "back behind a stop",
        b"t 3\ns 1 1 p 2 1 2\nx back 5\n",
        1,
        3,
    ),
    (
        "a stop behind back",
        b"t 3\nx back 5\ns 1 1 p 2 1 2\n",
        1,
        3,
    ),
    ("a stop of another kind", b"t 3\ns 1 1 q 2 1 2\n", 0, 2),
    ("a stop without a time", b"t 3\ns 1 1 p 2 1\n", 0, 2),
    (
        "a stop with a number past its limit",
        b"t 3\ns 4294967296 1 p 2 1 2\n",
        0,
        2,
    ),
    ("a cancellation that the end cuts short", b"y 1\n", 0, 2),
    (
        "a cancellation that the end cuts short, without LF",
        b"y 1",
        0,
        2,
    ),
    ("a cancellation of which nothing comes", b"y 1\nz\n", 0, 2),
    ("a removal of another request", b"y 1\no 2 1 1 2\n", 0, 2),
    (
        "a cancellation refused for another one",
        b"y 1\nx 2 unknown\n",
        0,
        2,
    ),
    ("the reason of a submit", b"y 1\nx 1 riders\n", 0, 2),
    ("a pickup at 0", b"y 1\no 1 1 0 2\n", 0, 2),
    ("a dropoff before its pickup", b"y 1\no 1 1 2 1\n", 0, 2),
    (
        "a pickup and a dropoff at one place",
        b"y 1\no 1 1 2 2\n",
        0,
        2,
    ),
    ("a dropoff past 64", b"y 1\no 1 1 2 65\n", 0, 2),
    ("two removals", b"y 1\no 1 1 1 2\no 1 1 1 2\n", 1, 3),
];

const WALKS: &[Bad] = &[
    ("an answer without walks", b"a 1 1 0 0 34 12 32\n", 0, 2),
    (
        "an answer with one walk",
        b"a 1 1 0 0 34 12 32\ng 0 1 2\n",
        0,
        3,
    ),
    (
        "a group cut short by the next",
        b"a 1 1 0 0 34 12 32\ng 0 1 2\nz\n",
        0,
        3,
    ),
    (
        "three walks missing one at j above i",
        b"a 1 1 0 1 34 12 32\ng 0 1\ng 1 1\n",
        0,
        4,
    ),
    (
        "a walk too many",
        b"a 1 1 0 0 9 1 3\ng 0 1\ng 1 1\ng 2 1\ng 3 1\n",
        0,
        5,
    ),
    (
        "the walk of another leg",
        b"a 1 1 0 0 34 12 32\ng 1 1 2\n",
        0,
        2,
    ),
    (
        "the walks in another order",
        b"a 1 1 0 0 9 1 3\ng 1 1\ng 0 1\n",
        0,
        2,
    ),
    (
        "a leg with a leading zero",
        b"a 1 1 0 0 34 12 32\ng 00 1 2\n",
        0,
        2,
    ),
    (
        "a leg of the old list",
        b"a 1 1 0 1 9 1 3\ng 0 1\ng 1 1\ng 1 1\n",
        0,
        4,
    ),
    ("a walk without nodes", b"a 1 1 0 0 34 12 32\ng 0\n", 0, 2),
    (
        "a walk that goes on after a short line",
        b"a 1 1 0 0 34 12 32\ng 0 1 2\nh 0 3\n",
        0,
        3,
    ),
    (
        "a whole group that goes on so",
        b"a 1 1 0 0 9 1 3\ng 0 1\ng 1 1\nh 1 3\n",
        1,
        4,
    ),
    ("j below i", b"a 1 1 1 0 34 12 32\n", 0, 1),
    ("i past 64", b"a 1 1 65 65 34 12 32\n", 0, 1),
    ("j past 64", b"a 1 1 0 65 34 12 32\n", 0, 1),
    (
        "a cost past 2^62",
        b"a 1 1 0 0 4611686018427387905 12 32\n",
        0,
        1,
    ),
    (
        "a time past 2^62",
        b"a 1 1 0 0 34 4611686018427387905 32\n",
        0,
        1,
    ),
    (
        "a vehicle past 32 bits",
        b"a 1 4294967296 0 0 34 12 32\n",
        0,
        1,
    ),
    (
        "a node of a walk past 32 bits",
        b"a 1 1 0 0 34 12 32\ng 0 4294967296\n",
        0,
        2,
    ),
    (
        "two removed walks at one leg",
        b"y 1\no 1 1 1 2\ng 0 1 2\ng 0 2 3\n",
        0,
        4,
    ),
    (
        "a removal with a walk missing",
        b"y 1\no 1 1 1 4\nz\n",
        0,
        3,
    ),
    (
        "a walk of another joined leg",
        b"y 1\no 1 1 1 4\ng 1 2 3\n",
        0,
        3,
    ),
    ("a walk behind nobody", b"n 1\ng 0 1 2\n", 1, 2),
    (
        "a walk behind a potential",
        b"a 1 1 0 0 9 1 3\ng 0 1\ng 1 1\nu 1 -\ng 2 1\n",
        0,
        5,
    ),
];

const PROOFS: &[Bad] = &[
    ("a certificate cut short", b"n 1\nu 1 -\n", 0, 3),
    ("three potentials", b"n 1\nu 1 -\nu 2 -\nu 3 -\ne -\n", 0, 5),
    (
        "no direct walk",
        b"n 1\nu 1 -\nu 2 -\nu 3 -\nu 4 -\nz\n",
        0,
        6,
    ),
    ("a potential of another number", b"n 1\nu 2 -\n", 0, 2),
    (
        "a fifth potential",
        b"n 1\nu 1 -\nu 2 -\nu 3 -\nu 4 -\nu 5 -\n",
        0,
        6,
    ),
    ("a potential without a value", b"n 1\nu 1\n", 0, 2),
    ("another sign for none", b"n 1\nu 1 *\n", 0, 2),
    ("a value behind none", b"n 1\nu 1 - 1\n", 0, 2),
    (
        "a value past 2^53 - 1",
        b"n 1\nu 1 9007199254740992\n",
        0,
        2,
    ),
    (
        "a value of a pair past 2^53 - 1",
        b"n 1\nu 1 -\nw 1 9007199254740992\n",
        0,
        3,
    ),
    ("pairs that don't rise", b"n 1\nu 1 -\nw 2 0 2 1\n", 0, 3),
    ("a node without a value", b"n 1\nu 1 -\nw 2 0 3\n", 0, 3),
    ("no pair", b"n 1\nu 1 -\nw\n", 0, 3),
    (
        "pairs behind a short line",
        b"n 1\nu 1 -\nw 1 0\nw 2 0\n",
        0,
        4,
    ),
    ("a direct walk before the potentials", b"n 1\ne -\n", 1, 2),
    (
        "two direct walks",
        b"n 1\nu 1 -\nu 2 -\nu 3 -\nu 4 -\ne -\ne -\n",
        1,
        7,
    ),
    (
        "more of none",
        b"n 1\nu 1 -\nu 2 -\nu 3 -\nu 4 -\ne -\nf 1\n",
        1,
        7,
    ),
    (
        "more of a short one",
        b"n 1\nu 1 -\nu 2 -\nu 3 -\nu 4 -\ne 1 2\nf 3\n",
        1,
        7,
    ),
    (
        "a potential behind it",
        b"n 1\nu 1 -\nu 2 -\nu 3 -\nu 4 -\ne 1\nu 5 -\n",
        0,
        7,
    ),
    (
        "a proof before the walks",
        b"a 1 1 0 0 34 12 32\nu 1 -\n",
        0,
        2,
    ),
    ("a proof of a submit", b"r 1 2 4 0 1\nu 1 -\n", 1, 2),
    (
        "a joined potential numbered from 1",
        b"y 1\no 1 1 1 4\ng 0 1 2\nu 1 -\n",
        0,
        4,
    ),
    (
        "more joined potentials than walks",
        b"y 1\no 1 1 1 4\ng 0 1\nu 5 -\nu 6 -\n",
        0,
        5,
    ),
    (
        "a direct walk of a removal",
        b"y 1\no 1 1 1 4\ng 0 1\nu 5 -\ne 1 2\n",
        1,
        5,
    ),
];

fn check(
    rt: &impl Abort,
    alloc: Global,
    name: &str,
    text: &[u8],
    most: usize,
    expected: (u32, u64),
) -> Result<(), Fail>
    requires { 0 < most }
{
    let mut shelf = begun(alloc, text, most)?;
    let (count, _, bad) = survey(alloc, &mut shelf)?;
    assert_eq!(rt; (count, bad), (expected.0, Some(expected.1)), "{}", name);
    Ok(())
}

/// Each journal has this first bad line, read byte by byte and at once.
fn are_bad(rt: &impl Abort, alloc: Global, cases: &[Bad]) -> Result<(), Fail> {
    for (name, text, groups, line) in cases {
        check(rt, alloc, name, text, 1, (*groups, *line))?;
        check(rt, alloc, name, text, 1000, (*groups, *line))?;
    }
    Ok(())
}

#[test]
fn first_lines_are_refused(rt: HostRuntime) -> Result<(), Fail> {
    are_bad(&rt, rt.alloc(), HEADS)
}

#[test]
fn refusals_and_stops_are_refused(rt: HostRuntime) -> Result<(), Fail> {
    are_bad(&rt, rt.alloc(), REFUSALS)
}

#[test]
fn walks_are_refused(rt: HostRuntime) -> Result<(), Fail> {
    are_bad(&rt, rt.alloc(), WALKS)
}

#[test]
fn proofs_are_refused(rt: HostRuntime) -> Result<(), Fail> {
    are_bad(&rt, rt.alloc(), PROOFS)
}
