ghost use Rattle.std.specs.Prelude.{◌≡◌, IfOk, IsTrue};
ghost use Rattle.plain_search.specs.Reaching.{IsReach};
ghost use Rattle.road_graph.specs.Roads.{IsNode};

use crate::cities::{FOUR, ONE, THREE, TWO, line, road};
use plain_search::{Potential, Reach, Reached, least_walk, reach_from, reach_to};
use ride_base::NoMemory;
use road_graph::{BuildFault, Graph, NodeNo, Steps};
use std::alloc::Global;
use std::process::Abort;
use std::test::Fail;

const FIVE: NodeNo = NodeNo(5);

/// Parallel roads, a road to itself, weights of 0 and the greatest, and a node that none reaches.
fn knot(alloc: Global) -> Result<Graph, BuildFault>
    ensures { IfOk result (λ g. g.nodes ≡ 5) }
{
    let roads = [
        road(1, 2, 7),
        road(2, 2, 0),
        road(1, 2, 5),
        road(2, 3, 0),
        road(3, 2, 0),
        road(1, 3, 6),
        road(3, 4, 4_294_967_295),
        road(5, 1, 1),
    ];
    Graph::build(alloc, 5, &roads)
}

fn start(node: NodeNo) -> Reached {
    Reached {
        node,
        distance: 0,
        parent: None,
    }
}

fn reached(node: NodeNo, distance: u64, parent: NodeNo) -> Reached {
    Reached {
        node,
        distance,
        parent: Some(parent),
    }
}

/// Whether these nodes have these values, and the others this.
fn has_potential(
    alloc: Global,
    reach: &Reach,
    nodes: &[NodeNo],
    values: &[u64],
    rest: Option<u64>,
) -> Result<bool, NoMemory> {
    let potential = reach.potential(alloc)?;
    Ok(has_values(&potential, nodes, values) && potential.rest == rest)
}

fn has_values(potential: &Potential, nodes: &[NodeNo], values: &[u64]) -> bool {
    let listed = potential.listed.as_slice();
    if listed.len() != nodes.len() || listed.len() != values.len() {
        return false;
    }
    for k in 0..listed.len() {
        if listed[k].0 != nodes[k] || listed[k].1 != values[k] {
            return false;
        }
    }
    true
}

fn check_from_one(rt: &impl Abort, alloc: Global, reach: &Reach) -> Result<(), Fail> {
    let wanted = [start(ONE), reached(TWO, 10, ONE), reached(THREE, 20, TWO)];
    assert_eq!(rt; reach.as_slice(), wanted.as_slice());
    assert_eq!(rt; reach.distance(THREE), Some(20));
    assert_eq!(rt; reach.distance(FOUR), None);
    assert!(rt; has_potential(alloc, reach, &[ONE, TWO, THREE], &[0, 10, 20], Some(21))?);
    Ok(())
}

fn check_within(
    rt: &impl Abort,
    alloc: Global,
    graph: &Graph,
    steps: &mut Steps<()>,
) -> Result<(), Fail>
    requires { graph.now.nodes ≡ 4 }
{
    let reach = reach_from(alloc, graph, ONE, Some(20), steps)?;
    check_from_one(rt, alloc, &reach)
}

#[test]
fn lists_within_a_radius(rt: HostRuntime) -> Result<(), Fail> {
    let graph = line(rt.alloc())?;
    check_within(&rt, rt.alloc(), &graph, &mut Steps::start(&rt, ()))
}

fn check_against(
    rt: &impl Abort,
    alloc: Global,
    graph: &Graph,
    steps: &mut Steps<()>,
) -> Result<(), Fail>
    requires { graph.now.nodes ≡ 4 }
{
    let reach = reach_to(alloc, graph, FOUR, Some(10), steps)?;
    let wanted = [start(FOUR), reached(THREE, 10, FOUR)];
    assert_eq!(rt; reach.as_slice(), wanted.as_slice());
    Ok(())
}

#[test]
fn lists_against_the_roads(rt: HostRuntime) -> Result<(), Fail> {
    let graph = line(rt.alloc())?;
    check_against(&rt, rt.alloc(), &graph, &mut Steps::start(&rt, ()))
}

fn check_to_three(rt: &impl Abort, alloc: Global, reach: &Reach) -> Result<(), Fail> {
    let wanted = [
        start(THREE),
        reached(TWO, 0, THREE),
        reached(ONE, 5, TWO),
        reached(FIVE, 6, ONE),
    ];
    assert_eq!(rt; reach.as_slice(), wanted.as_slice());
    assert!(rt; reach.potential(alloc)?.rest.is_none());
    Ok(())
}

fn check_all(
    rt: &impl Abort,
    alloc: Global,
    graph: &Graph,
    steps: &mut Steps<()>,
) -> Result<(), Fail>
    requires { graph.now.nodes ≡ 5 }
{
    let reach = reach_to(alloc, graph, THREE, None, steps)?;
    check_to_three(rt, alloc, &reach)
}

#[test]
fn lists_all_without_a_radius(rt: HostRuntime) -> Result<(), Fail> {
    let graph = knot(rt.alloc())?;
    check_all(&rt, rt.alloc(), &graph, &mut Steps::start(&rt, ()))
}

/// Whether a least walk between the start and a node has these nodes and this length.
fn leads_over(
    alloc: Global,
    graph: &Graph,
    reach: &Reach,
    node: NodeNo,
    nodes: &[NodeNo],
    length: u64,
    steps: &mut Steps<()>,
) -> Result<bool, NoMemory>
    requires { IsReach graph.now reach.now }
{
    match reach.walk(alloc, graph, node, steps)? {
        Some(walk) => Ok(walk.nodes() == nodes && walk.length() == length),
        None => Ok(false),
    }
}

fn check_there(
    rt: &impl Abort,
    alloc: Global,
    graph: &Graph,
    steps: &mut Steps<()>,
) -> Result<(), Fail>
    requires { graph.now.nodes ≡ 4 }
{
    let there = reach_from(alloc, graph, ONE, None, steps)?;
    let nodes = [ONE, TWO, THREE, FOUR];
    assert!(rt; leads_over(alloc, graph, &there, FOUR, &nodes, 30, steps)?);
    Ok(())
}

#[test]
fn walks_from_the_start(rt: HostRuntime) -> Result<(), Fail> {
    let graph = line(rt.alloc())?;
    check_there(&rt, rt.alloc(), &graph, &mut Steps::start(&rt, ()))
}

fn check_back(
    rt: &impl Abort,
    alloc: Global,
    graph: &Graph,
    back: &Reach,
    steps: &mut Steps<()>,
) -> Result<(), Fail>
    requires { IsReach graph.now back.now }
{
    assert!(rt; leads_over(alloc, graph, back, TWO, &[TWO, ONE], 10, steps)?);
    assert!(rt; back.walk(alloc, graph, THREE, steps)?.is_none());
    Ok(())
}

fn search_back(
    rt: &impl Abort,
    alloc: Global,
    graph: &Graph,
    steps: &mut Steps<()>,
) -> Result<(), Fail>
    requires { graph.now.nodes ≡ 4 }
{
    let back = reach_to(alloc, graph, ONE, Some(10), steps)?;
    check_back(rt, alloc, graph, &back, steps)
}

#[test]
fn walks_to_the_start(rt: HostRuntime) -> Result<(), Fail> {
    let graph = line(rt.alloc())?;
    search_back(&rt, rt.alloc(), &graph, &mut Steps::start(&rt, ()))
}

/// Whether a least walk from the first of these nodes to the last goes over them.
fn is_least(
    alloc: Global,
    graph: &Graph,
    nodes: &[NodeNo],
    steps: &mut Steps<()>,
) -> Result<bool, NoMemory> {
    let (Some(from), Some(to)) = (nodes.first(), nodes.last()) else {
        return Ok(false);
    };
    if !is_node(graph, *from) || !is_node(graph, *to) {
        return Ok(false);
    }
    match least_walk(alloc, graph, *from, *to, steps)? {
        Some(walk) => Ok(walk.nodes() == nodes),
        None => Ok(false),
    }
}

/// Whether a node is one of the graph's.
pub fn is_node(graph: &Graph, node: NodeNo) -> bool
    ensures { IsTrue result → IsNode graph.now node }
{
    1 <= node.0 && node.0 <= graph.nodes()
}

/// Whether no walk leads from one node to another.
fn is_apart(
    alloc: Global,
    graph: &Graph,
    from: NodeNo,
    to: NodeNo,
    steps: &mut Steps<()>,
) -> Result<bool, NoMemory>
    requires from { IsNode graph.now from }
    requires to { IsNode graph.now to }
{
    Ok(least_walk(alloc, graph, from, to, steps)?.is_none())
}

fn check_line(
    rt: &impl Abort,
    alloc: Global,
    graph: &Graph,
    steps: &mut Steps<()>,
) -> Result<(), Fail> {
    assert!(rt; is_least(alloc, graph, &[ONE, TWO, THREE, FOUR], steps)?);
    assert!(rt; is_least(alloc, graph, &[TWO], steps)?);
    Ok(())
}

#[test]
fn finds_least_walks(rt: HostRuntime) -> Result<(), Fail> {
    let graph = line(rt.alloc())?;
    check_line(&rt, rt.alloc(), &graph, &mut Steps::start(&rt, ()))
}

fn check_knot(
    rt: &impl Abort,
    alloc: Global,
    graph: &Graph,
    steps: &mut Steps<()>,
) -> Result<(), Fail>
    requires { graph.now.nodes ≡ 5 }
{
    assert!(rt; is_least(alloc, graph, &[ONE, TWO, THREE], steps)?);
    assert!(rt; is_least(alloc, graph, &[FIVE, ONE, TWO, THREE, FOUR], steps)?);
    assert!(rt; is_apart(alloc, graph, ONE, FIVE, steps)?);
    assert!(rt; is_apart(alloc, graph, FOUR, THREE, steps)?);
    Ok(())
}

#[test]
fn finds_least_walks_in_a_knot(rt: HostRuntime) -> Result<(), Fail> {
    let graph = knot(rt.alloc())?;
    check_knot(&rt, rt.alloc(), &graph, &mut Steps::start(&rt, ()))
}
