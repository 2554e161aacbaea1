use crate::runs::{LINE, ONE, answers};
use std::test::Fail;

/// One ride from node 2 to node 4, then a ride back from the middle of the line while the vehicle is on its way to the first pickup.
#[test]
fn a_ride_is_taken_up_under_way(rt: HostRuntime) -> Result<(), Fail> {
    answers(
        &rt,
        rt.alloc(),
        [LINE, ONE, b"r 1 2 4 0 1\nt 5\nr 2 2 1 5 1\n"],
        b"r 1 2 4 0 1\na 1 1 0 0 34 12 32\ng 0 1 2\ng 1 2 3 4\nt 5\nr 2 2 1 5 1\na 2 1 0 2 61 12 64\ng 0 2\ng 1 2\ng 3 4 3 2 1\n",
    )
}

#[test]
fn stops_are_served_as_the_clock_moves(rt: HostRuntime) -> Result<(), Fail> {
    answers(
        &rt,
        rt.alloc(),
        [LINE, ONE, b"r 1 2 4 0 1\nt 12\nt 40\n"],
        b"r 1 2 4 0 1\na 1 1 0 0 34 12 32\ng 0 1 2\ng 1 2 3 4\nt 12\ns 1 1 p 2 10 12\nt 40\ns 1 1 d 4 32 34\n",
    )
}

#[test]
fn a_ride_is_refused_by_the_first_reason(rt: HostRuntime) -> Result<(), Fail> {
    answers(
        &rt,
        rt.alloc(),
        [
            LINE,
            ONE,
            b"r 1 2 4 0 1\nr 1 2 3 0 1\nr 1 9 3 0 1\nr 2 2 3 0 0\nt 5\nr 3 2 3 4 1\n",
        ],
        b"r 1 2 4 0 1\na 1 1 0 0 34 12 32\ng 0 1 2\ng 1 2 3 4\nr 1 2 3 0 1\nx 1 repeated\nr 1 9 3 0 1\nx 1 place\nr 2 2 3 0 0\nx 2 riders\nt 5\nr 3 2 3 4 1\nx 3 moment\n",
    )
}

#[test]
fn the_clock_never_goes_back(rt: HostRuntime) -> Result<(), Fail> {
    answers(
        &rt,
        rt.alloc(),
        [LINE, ONE, b"t 5\nt 3\n"],
        b"t 5\nt 3\nx back 5\n",
    )
}

#[test]
fn a_ride_of_no_rider_is_refused(rt: HostRuntime) -> Result<(), Fail> {
    answers(
        &rt,
        rt.alloc(),
        [LINE, ONE, b"r 1 2 4 0 0 0\n"],
        b"r 1 2 4 0 0\nx 1 riders\n",
    )
}

/// The riders cancel while the vehicle drives to them: it turns at the node that it reaches next.
#[test]
fn riders_cancel_before_they_are_picked_up(rt: HostRuntime) -> Result<(), Fail> {
    answers(
        &rt,
        rt.alloc(),
        [
            LINE,
            ONE,
            b"r 1 2 4 0 1\nt 5\ny 1\nr 2 2 1 5 1\nr 1 2 4 5 1\n",
        ],
        b"r 1 2 4 0 1\na 1 1 0 0 34 12 32\ng 0 1 2\ng 1 2 3 4\nt 5\ny 1\no 1 1 1 2\nr 2 2 1 5 1\na 2 1 0 0 14 12 22\ng 0 2\ng 1 2 1\nr 1 2 4 5 1\nx 1 repeated\n",
    )
}

/// The legs round the stops of riders who cancel are joined.
#[test]
fn the_other_riders_stay(rt: HostRuntime) -> Result<(), Fail> {
    answers(
        &rt,
        rt.alloc(),
        [LINE, ONE, b"r 1 2 4 0 1\nr 2 3 4 0 1\ny 1\n"],
        b"r 1 2 4 0 1\na 1 1 0 0 34 12 32\ng 0 1 2\ng 1 2 3 4\nr 2 3 4 0 1\na 2 1 1 1 10 24 34\ng 1 2 3\ng 2 3 4\ng 3 4\ny 1\no 1 1 1 4\ng 0 1 2 3\n",
    )
}

#[test]
fn riders_cannot_cancel_once_they_are_picked_up(rt: HostRuntime) -> Result<(), Fail> {
    answers(
        &rt,
        rt.alloc(),
        [LINE, ONE, b"r 1 2 4 0 1\ny 7\nt 12\ny 1\n"],
        b"r 1 2 4 0 1\na 1 1 0 0 34 12 32\ng 0 1 2\ng 1 2 3 4\ny 7\nx 7 unknown\nt 12\ns 1 1 p 2 10 12\ny 1\nx 1 served\n",
    )
}
