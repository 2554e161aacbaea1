use crate::runs::{LINE, ONE, answers};
use std::test::Fail;

/// The clock serves stops as it moves, and stays where it is told an earlier moment.
#[test]
fn the_clock_moves_and_stays(rt: HostRuntime) -> Result<(), Fail> {
    answers(
        &rt,
        rt.alloc(),
        [
            LINE,
            ONE,
            b"r 1 2 4 0 1\nt 12\nr 2 3 4 12 1\nt 40\nt 12\nr 3 1 2 39 1\ny 1\n",
        ],
        b"r 1 2 4 0 1\na 1 1 0 0 34 12 32\ng 0 1 2\ng 1 2 3 4\nt 12\ns 1 1 p 2 10 12\nr 2 3 4 12 1\na 2 1 0 0 2 24 34\ng 0 2 3\ng 1 3 4\ng 2 4\nt 40\ns 1 2 p 3 22 24\ns 1 2 d 4 34 36\ns 1 1 d 4 36 36\nt 12\nx back 40\nr 3 1 2 39 1\nx 3 moment\ny 1\nx 1 served\n",
    )
}

/// Each reason but that of a closed board, which no stream makes.
#[test]
fn refused_rides_are_answered(rt: HostRuntime) -> Result<(), Fail> {
    answers(
        &rt,
        rt.alloc(),
        [
            LINE,
            ONE,
            b"r 1 2 5 0 1\nr 1 2 4 0 17\nr 1 2 4 0 0\nt 5\nr 1 2 4 4 1\nr 1 2 4 5 1\nr 1 3 4 5 1\n",
        ],
        b"r 1 2 5 0 1\nx 1 place\nr 1 2 4 0 17\nx 1 riders\nr 1 2 4 0 0\nx 1 riders\nt 5\nr 1 2 4 4 1\nx 1 moment\nr 1 2 4 5 1\na 1 1 0 0 34 17 37\ng 0 1 2\ng 1 2 3 4\nr 1 3 4 5 1\nx 1 repeated\n",
    )
}

/// Riders cancel once; and each reason for which they can't, but that their request waits, which none does between two lines.
#[test]
fn riders_cancel(rt: HostRuntime) -> Result<(), Fail> {
    answers(
        &rt,
        rt.alloc(),
        [
            LINE,
            ONE,
            b"y 1\nr 1 2 4 0 1\nr 2 3 4 0 1\ny 1\ny 1\nr 3 2 4 0 3\ny 3\nt 1000\ny 2\n",
        ],
        b"y 1\nx 1 unknown\nr 1 2 4 0 1\na 1 1 0 0 34 12 32\ng 0 1 2\ng 1 2 3 4\nr 2 3 4 0 1\na 2 1 1 1 10 24 34\ng 1 2 3\ng 2 3 4\ng 3 4\ny 1\no 1 1 1 4\ng 0 1 2 3\ny 1\nx 1 cancelled\nr 3 2 4 0 3\nn 3\ny 3\nx 3 nobody\nt 1000\ns 1 2 p 3 20 22\ns 1 2 d 4 32 34\ny 2\nx 2 served\n",
    )
}
