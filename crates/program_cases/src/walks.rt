use crate::runs::{LINE, ONE, TWO, ends};
use dispatch_top::Status;
use std::alloc::Global;
use std::process::Abort;
use std::test::Fail;
use std::thread::Threads;

/// What is printed of the least walk between two nodes of a graph.
fn prints<R: Threads + Sync + Abort>(
    rt: &R,
    alloc: Global,
    graph: &[u8],
    from: &str,
    to: &str,
    output: &[u8],
) -> Result<(), Fail> {
    let words = ["walk", "graph", from, to];
    let texts = [graph, ONE, TWO];
    ends(rt, alloc, words.as_slice(), texts, Status::Done, output)
}

#[test]
fn the_least_walk_is_printed(rt: HostRuntime) -> Result<(), Fail> {
    prints(&rt, rt.alloc(), LINE, "4", "1", b"d 30\ng 0 4 3 2 1\n")?;
    prints(&rt, rt.alloc(), LINE, "1", "1", b"d 0\ng 0 1\n")
}

#[test]
fn no_walk_leads_to_another_node(rt: HostRuntime) -> Result<(), Fail> {
    prints(&rt, rt.alloc(), LINE, "1", "9", b"none\n")?;
    prints(&rt, rt.alloc(), LINE, "0", "1", b"none\n")?;
    prints(&rt, rt.alloc(), LINE, "4294967295", "1", b"none\n")
}

#[test]
fn a_one_way_road_has_no_walk_back(rt: HostRuntime) -> Result<(), Fail> {
    let graph = b"p sp 2 1\na 1 2 10\n";
    prints(&rt, rt.alloc(), graph, "2", "1", b"none\n")
}

#[test]
fn the_lightest_of_two_roads_is_taken(rt: HostRuntime) -> Result<(), Fail> {
    let graph = b"c x\n\np  sp 2 3\r\na 1 2 7\nc mid\na 1 2 9\na 2 1 0";
    prints(&rt, rt.alloc(), graph, "1", "2", b"d 7\ng 0 1 2\n")
}

#[test]
fn a_bad_graph_has_no_walk(rt: HostRuntime) -> Result<(), Fail> {
    let graph = b"p sp 2 2\na 1 2 10\n";
    let words = ["walk", "graph", "1", "2"];
    ends(
        &rt,
        rt.alloc(),
        words.as_slice(),
        [graph, ONE, TWO],
        Status::GraphText { line: 3 },
        b"",
    )
}
