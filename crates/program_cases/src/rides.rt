ghost use Rattle.std.specs.Prelude.{◌<◌, ◌≤◌};

use crate::runs::{BOTH, FIRST, LINE, ONE, TWO, answers, ends};
use dispatch_top::Status;
use std::alloc::Global;
use std::test::Fail;

/// One text behind another.
fn joined(alloc: Global, first: &[u8], second: &[u8]) -> Result<Vec<u8>, Fail> {
    let mut text = Vec::new(alloc);
    text.extend_from_slice(first)?;
    text.extend_from_slice(second)?;
    Ok(text)
}

/// A number, behind a space.
fn push_number(alloc: Global, text: &mut Vec<u8>, number: usize) -> Result<(), Fail> {
    text.extend_from_slice(format!(in alloc; " {number}")?.as_bytes())?;
    Ok(())
}

#[test]
fn one_request_is_answered(rt: HostRuntime) -> Result<(), Fail> {
    answers(&rt, rt.alloc(), [LINE, ONE, b"r 1 2 4 0 1\n"], FIRST)
}

#[test]
fn no_request_is_answered_by_nothing(rt: HostRuntime) -> Result<(), Fail> {
    answers(&rt, rt.alloc(), [LINE, ONE, b""], b"")
}

#[test]
fn a_second_rider_joins(rt: HostRuntime) -> Result<(), Fail> {
    answers(&rt, rt.alloc(), [LINE, ONE, TWO], BOTH)
}

#[test]
fn with_one_seat_the_second_rider_comes_later(rt: HostRuntime) -> Result<(), Fail> {
    let second = b"r 2 3 4 0 1\na 2 1 2 2 76 46 56\ng 2 4 3\ng 3 3 4\n";
    let output = joined(rt.alloc(), FIRST, second)?;
    let fleet = b"vehicle,start,seats,from,until\n1,1,1,0,1000\n";
    answers(&rt, rt.alloc(), [LINE, fleet, TWO], output.as_slice())
}

#[test]
fn too_many_riders_find_nobody(rt: HostRuntime) -> Result<(), Fail> {
    let stream = b"r 1 2 4 0 3\n";
    answers(&rt, rt.alloc(), [LINE, ONE, stream], b"r 1 2 4 0 3\nn 1\n")
}

/// One vehicle at node 1 with two seats and a wheelchair space.
const WITH_SPACE: &[u8] = b"vehicle,start,seats,from,until,spaces\n1,1,2,0,1000,1\n";

/// What is printed of the first request on the line with a second rider in a space.
const FIRST_WITH_SPACE: &[u8] = b"r 1 2 4 0 1 1\na 1 1 0 0 34 12 32\ng 0 1 2\ng 1 2 3 4\n";

#[test]
fn with_one_space_the_second_rider_comes_later(rt: HostRuntime) -> Result<(), Fail> {
    let second = b"r 2 3 4 0 1 1\na 2 1 2 2 76 46 56\ng 2 4 3\ng 3 3 4\n";
    let output = joined(rt.alloc(), FIRST_WITH_SPACE, second)?;
    let stream = b"r 1 2 4 0 1 1\nr 2 3 4 0 1 1\n";
    let texts = [LINE, WITH_SPACE, stream];
    answers(&rt, rt.alloc(), texts, output.as_slice())
}

#[test]
fn a_rider_on_a_seat_takes_no_space(rt: HostRuntime) -> Result<(), Fail> {
    let second = b"r 2 3 4 0 1\na 2 1 1 1 10 24 34\ng 1 2 3\ng 2 3 4\ng 3 4\n";
    let output = joined(rt.alloc(), FIRST_WITH_SPACE, second)?;
    let stream = b"r 1 2 4 0 1 1\nr 2 3 4 0 1\n";
    let texts = [LINE, WITH_SPACE, stream];
    answers(&rt, rt.alloc(), texts, output.as_slice())
}

#[test]
fn a_fleet_without_spaces_takes_no_wheelchair(rt: HostRuntime) -> Result<(), Fail> {
    let stream = b"r 1 2 4 0 0 1\n";
    answers(
        &rt,
        rt.alloc(),
        [LINE, ONE, stream],
        b"r 1 2 4 0 0 1\nn 1\n",
    )
}

/// A road of the greatest weight, and a vehicle that serves to the last moment.
const FAR: &[u8] = b"p sp 2 1\na 1 2 4294967295\n";

const LATE: &[u8] = b"vehicle,start,seats,from,until\n1,1,2,0,1099511627776\n";

#[test]
fn the_greatest_weight_is_driven(rt: HostRuntime) -> Result<(), Fail> {
    let output = b"r 1 1 2 0 1\na 1 1 0 0 4294967299 2 4294967297\ng 0 1\ng 1 1 2\n";
    answers(&rt, rt.alloc(), [FAR, LATE, b"r 1 1 2 0 1\n"], output)
}

#[test]
fn the_last_moment_is_too_late(rt: HostRuntime) -> Result<(), Fail> {
    let stream = b"r 1 1 2 1099511627776 1\n";
    let output = b"r 1 1 2 1099511627776 1\nn 1\n";
    answers(&rt, rt.alloc(), [FAR, LATE, stream], output)
}

#[test]
fn service_ends_with_the_last_stop(rt: HostRuntime) -> Result<(), Fail> {
    let fleet = b"vehicle,start,seats,from,until\n1,1,2,0,34\n";
    answers(&rt, rt.alloc(), [LINE, fleet, b"r 1 2 4 0 1\n"], FIRST)
}

#[test]
fn service_ends_before_the_last_stop(rt: HostRuntime) -> Result<(), Fail> {
    let fleet = b"vehicle,start,seats,from,until\n1,1,2,0,33\n";
    let stream = b"r 1 2 4 0 1\n";
    answers(
        &rt,
        rt.alloc(),
        [LINE, fleet, stream],
        b"r 1 2 4 0 1\nn 1\n",
    )
}

#[test]
fn a_one_way_road_leads_nowhere_back(rt: HostRuntime) -> Result<(), Fail> {
    let graph = b"p sp 2 1\na 1 2 10\n";
    let stream = b"r 1 2 1 0 1\n";
    answers(&rt, rt.alloc(), [graph, ONE, stream], b"r 1 2 1 0 1\nn 1\n")
}

#[test]
fn a_ride_may_end_where_it_begins(rt: HostRuntime) -> Result<(), Fail> {
    let output = b"r 1 2 2 0 1\na 1 1 0 0 14 12 12\ng 0 1 2\ng 1 2\n";
    answers(&rt, rt.alloc(), [LINE, ONE, b"r 1 2 2 0 1\n"], output)
}

#[test]
fn an_early_rider_goes_first(rt: HostRuntime) -> Result<(), Fail> {
    let output =
        b"r 1 2 4 100 1\na 1 1 0 0 34 100 120\ng 0 1 2\ng 1 2 3 4\nr 2 1 2 0 1\na 2 1 0 0 2 2 12\ng 0 1\ng 1 1 2\ng 2 2\n";
    let stream = b"r 1 2 4 100 1\nr 2 1 2 0 1\n";
    answers(&rt, rt.alloc(), [LINE, ONE, stream], output)
}

#[test]
fn service_begins_later(rt: HostRuntime) -> Result<(), Fail> {
    let fleet = b"vehicle,start,seats,from,until\n1,1,2,100,1000\n";
    let output = b"r 1 2 4 0 1\na 1 1 0 0 208 112 132\ng 0 1 2\ng 1 2 3 4\n";
    answers(&rt, rt.alloc(), [LINE, fleet, b"r 1 2 4 0 1\n"], output)
}

/// A line of so many nodes, joined one way by roads of 1.
fn long_line(alloc: Global, nodes: usize) -> Result<Vec<u8>, Fail>
    requires { nodes < 1000 }
{
    let mut text = Vec::new(alloc);
    text.extend_from_slice(b"p sp")?;
    push_number(alloc, &mut text, nodes)?;
    push_number(alloc, &mut text, nodes.saturating_sub(1))?;
    for node in 1..nodes {
        text.extend_from_slice(b"\na")?;
        push_number(alloc, &mut text, node)?;
        push_number(alloc, &mut text, node + 1)?;
        push_number(alloc, &mut text, 1)?;
    }
    Ok(text)
}

/// A line that begins so, with the numbers from one to another.
fn counted(alloc: Global, first: &[u8], from: usize, to: usize) -> Result<Vec<u8>, Fail>
    requires { to < 1000 }
{
    let mut text = Vec::new(alloc);
    text.extend_from_slice(first)?;
    for number in from..to + 1 {
        push_number(alloc, &mut text, number)?;
    }
    text.push(b'\n')?;
    Ok(text)
}

/// What is printed of a ride at the far end of a line of 130 nodes.
fn far_ride(alloc: Global) -> Result<Vec<u8>, Fail> {
    let head = b"r 1 130 130 0 1\na 1 1 0 0 363 131 131\n";
    let text = joined(alloc, head, counted(alloc, b"g 0", 1, 64)?.as_slice())?;
    let second = counted(alloc, b"h 0", 65, 128)?;
    let text = joined(alloc, text.as_slice(), second.as_slice())?;
    joined(alloc, text.as_slice(), b"h 0 129 130\ng 1 130\n")
}

#[test]
fn a_walk_of_130_nodes_takes_three_lines(rt: HostRuntime) -> Result<(), Fail> {
    let graph = long_line(rt.alloc(), 130)?;
    let output = far_ride(rt.alloc())?;
    let stream = b"r 1 130 130 0 1\n";
    answers(
        &rt,
        rt.alloc(),
        [graph.as_slice(), ONE, stream],
        output.as_slice(),
    )
}

/// The K-th of rides that begin a hundred units after each other, each from node 1 to node 1.
fn push_ride(alloc: Global, text: &mut Vec<u8>, k: usize) -> Result<(), Fail>
    requires { k < 1000 }
{
    text.push(b'r')?;
    push_number(alloc, text, k)?;
    text.extend_from_slice(b" 1 1")?;
    push_number(alloc, text, 100 * k)?;
    text.extend_from_slice(b" 1\n")?;
    Ok(())
}

/// Its answer: it goes behind the stops of the rides before it, and only the first stop of all takes time.
fn push_answer(alloc: Global, text: &mut Vec<u8>, k: usize) -> Result<(), Fail>
    requires some { 1 ≤ k }
    requires few { k < 1000 }
{
    let stops = 2 * (k - 1);
    text.push(b'a')?;
    push_number(alloc, text, k)?;
    push_number(alloc, text, 1)?;
    push_number(alloc, text, stops)?;
    push_number(alloc, text, stops)?;
    push_number(alloc, text, if k == 1 { 2 } else { 0 })?;
    push_number(alloc, text, 100 * k)?;
    push_number(alloc, text, 100 * k)?;
    for leg in stops..stops + 2 {
        text.extend_from_slice(b"\ng")?;
        push_number(alloc, text, leg)?;
        push_number(alloc, text, 1)?;
    }
    text.push(b'\n')?;
    Ok(())
}

fn rides(alloc: Global, count: usize) -> Result<Vec<u8>, Fail>
    requires { count < 1000 }
{
    let mut text = Vec::new(alloc);
    for k in 1..count + 1 {
        push_ride(alloc, &mut text, k)?;
    }
    Ok(text)
}

fn answered_rides(alloc: Global, count: usize) -> Result<Vec<u8>, Fail>
    requires { count < 1000 }
{
    let mut text = Vec::new(alloc);
    for k in 1..count + 1 {
        push_ride(alloc, &mut text, k)?;
        push_answer(alloc, &mut text, k)?;
    }
    Ok(text)
}

#[test]
fn a_full_list_has_64_stops(rt: HostRuntime) -> Result<(), Fail> {
    let stream = rides(rt.alloc(), 33)?;
    let answered = answered_rides(rt.alloc(), 32)?;
    let output = joined(rt.alloc(), answered.as_slice(), b"r 33 1 1 3300 1\nn 33\n")?;
    let fleet = b"vehicle,start,seats,from,until\n1,1,16,0,10000\n";
    answers(
        &rt,
        rt.alloc(),
        [LINE, fleet, stream.as_slice()],
        output.as_slice(),
    )
}

/// The K-th of rides from node 1 to node 1 at the moment 0.
fn push_idle_ride(alloc: Global, text: &mut Vec<u8>, k: usize) -> Result<(), Fail> {
    text.push(b'r')?;
    push_number(alloc, text, k)?;
    text.extend_from_slice(b" 1 1 0 1\n")?;
    Ok(())
}

/// Its answer where stops take no time: the second goes behind the first pickup, and so does each after it.
fn push_idle_answer(alloc: Global, text: &mut Vec<u8>, k: usize) -> Result<(), Fail> {
    text.push(b'a')?;
    push_number(alloc, text, k)?;
    if k == 1 {
        text.extend_from_slice(b" 1 0 0 0 0 0\ng 0 1\ng 1 1\n")?;
    } else {
        text.extend_from_slice(b" 1 0 0 0 0 0\ng 0 1\ng 1 1\ng 2 1\n")?;
    }
    Ok(())
}

fn idle_rides(alloc: Global, count: usize, answered: bool) -> Result<Vec<u8>, Fail>
    requires { count < 1000 }
{
    let mut text = Vec::new(alloc);
    for k in 1..count + 1 {
        push_idle_ride(alloc, &mut text, k)?;
        if answered {
            push_idle_answer(alloc, &mut text, k)?;
        }
    }
    Ok(text)
}

#[test]
fn stops_may_take_no_time(rt: HostRuntime) -> Result<(), Fail> {
    let stream = idle_rides(rt.alloc(), 33, false)?;
    let answered = idle_rides(rt.alloc(), 32, true)?;
    let output = joined(rt.alloc(), answered.as_slice(), b"r 33 1 1 0 1\nn 33\n")?;
    let fleet = b"vehicle,start,seats,from,until\n1,1,16,0,1000\n";
    let words = ["run", "--stop", "0", "graph", "fleet", "stream"];
    let texts = [LINE, fleet, stream.as_slice()];
    ends(
        &rt,
        rt.alloc(),
        words.as_slice(),
        texts,
        Status::Done,
        output.as_slice(),
    )
}
