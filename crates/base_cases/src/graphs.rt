ghost use Rattle.std.specs.Prelude.{◌≡◌, ◌≤◌, length, IfOk};
ghost use Rattle.road_graph.specs.Roads.{IsNode};

use crate::cities::{FOUR, ONE, THREE, TWO, line, road};
use ride_base::NoMemory;
use road_graph::{BuildFault, Graph, NodeNo, Road, Steps, Walk};
use std::alloc::Global;
use std::process::Abort;
use std::test::Fail;

/// Parallel roads, roads to themselves, weights of 0 and the greatest, and a node that none reaches.
fn knot(alloc: Global) -> Result<Graph, BuildFault>
    ensures { IfOk result (λ g. g.nodes ≡ 4) }
{
    let roads = [
        road(1, 2, 7),
        road(2, 2, 0),
        road(1, 2, 5),
        road(3, 1, 0),
        road(1, 1, 4_294_967_295),
        road(2, 3, 0),
        road(1, 2, 5),
        road(1, 3, 6),
    ];
    Graph::build(alloc, 4, &roads)
}

/// The fault with which numbers are refused, where they are.
fn fault(alloc: Global, nodes: u32, roads: &[Road]) -> Option<BuildFault> {
    Graph::build(alloc, nodes, roads).err()
}

/// Whether the roads out of a node are these, in this order.
fn has_outs(graph: &Graph, node: NodeNo, roads: &[Road], steps: &mut Steps<()>) -> bool
    requires { IsNode graph.now node }
{
    let count = graph.out_count(node);
    if count as usize != roads.len() {
        return false;
    }
    for index in 0..count {
        let (to, weight) = graph.out_road(node, index, steps);
        let from = node;
        if roads[index as usize] != (Road { from, to, weight }) {
            return false;
        }
    }
    true
}

/// Whether the roads into a node are these, in this order.
fn has_ins(graph: &Graph, node: NodeNo, roads: &[Road], steps: &mut Steps<()>) -> bool
    requires { IsNode graph.now node }
{
    let count = graph.in_count(node);
    if count as usize != roads.len() {
        return false;
    }
    for index in 0..count {
        let (from, weight) = graph.in_road(node, index, steps);
        let to = node;
        if roads[index as usize] != (Road { from, to, weight }) {
            return false;
        }
    }
    true
}

/// Whether the nodes of a walk are so far from the first.
fn has_offsets(walk: &Walk, offsets: &[u64]) -> bool {
    let count = walk.nodes().len();
    if count != offsets.len() {
        return false;
    }
    for k in 0..count {
        if walk.offset(k) != offsets[k] {
            return false;
        }
    }
    true
}

/// Whether a walk and its equal have these nodes, this length and these offsets.
fn is_measured(
    alloc: Global,
    walk: &Walk,
    nodes: &[NodeNo],
    length: u64,
    offsets: &[u64],
) -> Result<bool, NoMemory> {
    let equal = walk.share(alloc)?;
    let same = walk.nodes() == nodes && walk.length() == length && has_offsets(walk, offsets);
    Ok(same && equal == *walk)
}

/// Whether neither call takes these nodes for a walk.
fn is_refused(
    alloc: Global,
    graph: &Graph,
    nodes: &[NodeNo],
    steps: &mut Steps<()>,
) -> Result<bool, NoMemory>
    requires { length nodes.now ≤ 5 }
{
    let made = Walk::made(alloc, graph, nodes, steps)?;
    Ok(made.is_none() && graph.walk_length(nodes, steps).is_none())
}

fn joined(graph: &Graph, from: u32, to: u32, steps: &mut Steps<()>) -> Option<u32> {
    graph.joined(NodeNo(from), NodeNo(to), steps)
}

/// The length of these nodes as a walk.
fn length_of(graph: &Graph, nodes: &[NodeNo], steps: &mut Steps<()>) -> Option<u64>
    requires { length nodes.now ≤ 5 }
{
    graph.walk_length(nodes, steps)
}

fn check_city(rt: &impl Abort, graph: &Graph) {
    assert_eq!(rt; graph.nodes(), 4);
    assert_eq!(rt; graph.roads(), 6);
    assert!(rt; graph.has(ONE) && graph.has(FOUR));
    assert!(rt; !graph.has(NodeNo(0)) && !graph.has(NodeNo(5)));
}

#[test]
fn a_city_is_built(rt: HostRuntime) -> Result<(), Fail> {
    check_city(&rt, &line(rt.alloc())?);
    Ok(())
}

#[test]
fn ends_outside_are_found(rt: HostRuntime) {
    let roads = [
        road(1, 2, 10),
        road(2, 1, 10),
        road(2, 5, 10),
        road(5, 6, 10),
    ];
    assert_eq!(rt;
        fault(rt.alloc(), 4, &roads),
        Some(BuildFault::Node { at: 2 })
    );
    assert_eq!(rt;
        fault(rt.alloc(), 5, &roads),
        Some(BuildFault::Node { at: 3 })
    );
    assert_eq!(rt; fault(rt.alloc(), 6, &roads), None);
    assert_eq!(rt;
        fault(rt.alloc(), 0, &roads),
        Some(BuildFault::Node { at: 0 })
    );
}

#[test]
fn nodes_are_limited(rt: HostRuntime) {
    assert_eq!(rt; fault(rt.alloc(), 0, &[]), None);
    assert_eq!(rt; fault(rt.alloc(), 2_097_152, &[]), None);
    assert_eq!(rt; fault(rt.alloc(), 2_097_153, &[]), Some(BuildFault::Large));
}

#[test]
fn roads_are_limited(rt: HostRuntime) -> Result<(), Fail> {
    let mut many = vec![in rt.alloc(); road(0, 1, 1); 8_388_609]?;
    assert_eq!(rt; fault(rt.alloc(), 4, &many), Some(BuildFault::Large));
    many.pop();
    assert_eq!(rt;
        fault(rt.alloc(), 4, &many),
        Some(BuildFault::Node { at: 0 })
    );
    Ok(())
}

#[test]
fn walks_are_measured(rt: HostRuntime) -> Result<(), Fail> {
    let nodes = [ONE, TWO, THREE];
    let walk = crate::cities::walk(&rt, rt.alloc(), &nodes)?;
    assert!(rt; is_measured(rt.alloc(), &walk, &nodes, 20, &[0, 10, 20])?);
    Ok(())
}

fn check_refusals(
    rt: &impl Abort,
    alloc: Global,
    graph: &Graph,
    steps: &mut Steps<()>,
) -> Result<(), Fail> {
    assert!(rt; is_refused(alloc, graph, &[ONE, THREE], steps)?);
    assert!(rt; is_refused(alloc, graph, &[], steps)?);
    assert!(rt; is_refused(alloc, graph, &[NodeNo(5)], steps)?);
    assert!(rt; is_refused(alloc, graph, &[NodeNo(0)], steps)?);
    assert!(rt; is_refused(alloc, graph, &[ONE, ONE], steps)?);
    assert!(rt; !is_refused(alloc, graph, &[FOUR], steps)?);
    Ok(())
}

#[test]
fn other_lists_are_no_walks(rt: HostRuntime) -> Result<(), Fail> {
    let graph = line(rt.alloc())?;
    check_refusals(&rt, rt.alloc(), &graph, &mut Steps::start(&rt, ()))
}

fn check_outs(rt: &impl Abort, graph: &Graph, steps: &mut Steps<()>)
    requires { graph.now.nodes ≡ 4 }
{
    let first = [
        road(1, 2, 7),
        road(1, 2, 5),
        road(1, 1, 4_294_967_295),
        road(1, 2, 5),
        road(1, 3, 6),
    ];
    assert!(rt; has_outs(graph, ONE, &first, steps));
    assert!(rt; has_outs(graph, TWO, &[road(2, 2, 0), road(2, 3, 0)], steps));
    assert!(rt; has_outs(graph, FOUR, &[], steps));
}

#[test]
fn roads_out_keep_their_order(rt: HostRuntime) -> Result<(), Fail> {
    check_outs(&rt, &knot(rt.alloc())?, &mut Steps::start(&rt, ()));
    Ok(())
}

fn check_ins(rt: &impl Abort, graph: &Graph, steps: &mut Steps<()>)
    requires { graph.now.nodes ≡ 4 }
{
    let second = [road(1, 2, 7), road(2, 2, 0), road(1, 2, 5), road(1, 2, 5)];
    assert!(rt;
        has_ins(
            graph,
            ONE,
            &[road(3, 1, 0), road(1, 1, 4_294_967_295)],
            steps
        )
    );
    assert!(rt; has_ins(graph, TWO, &second, steps));
    assert!(rt; has_ins(graph, THREE, &[road(2, 3, 0), road(1, 3, 6)], steps));
}

#[test]
fn roads_in_keep_their_order(rt: HostRuntime) -> Result<(), Fail> {
    check_ins(&rt, &knot(rt.alloc())?, &mut Steps::start(&rt, ()));
    Ok(())
}

fn check_joined(rt: &impl Abort, graph: &Graph, steps: &mut Steps<()>) {
    assert_eq!(rt; joined(graph, 1, 2, steps), Some(5));
    assert_eq!(rt; joined(graph, 2, 2, steps), Some(0));
    assert_eq!(rt; joined(graph, 2, 1, steps), None);
    assert_eq!(rt; joined(graph, 0, 1, steps), None);
    assert_eq!(rt; joined(graph, 1, 5, steps), None);
}

#[test]
fn the_least_of_parallel_roads_joins(rt: HostRuntime) -> Result<(), Fail> {
    check_joined(&rt, &knot(rt.alloc())?, &mut Steps::start(&rt, ()));
    Ok(())
}

fn crosses_threads<T: Send + Sync>(_value: &T) {}

fn check_round(rt: &impl Abort, graph: &Graph, steps: &mut Steps<()>) {
    assert_eq!(rt; length_of(graph, &[ONE, TWO, THREE], steps), Some(5));
    let nodes = [ONE, ONE, TWO, TWO, THREE];
    assert_eq!(rt; length_of(graph, &nodes, steps), Some(4_294_967_300));
    crosses_threads(graph);
}

#[test]
fn walks_go_round(rt: HostRuntime) -> Result<(), Fail> {
    check_round(&rt, &knot(rt.alloc())?, &mut Steps::start(&rt, ()));
    Ok(())
}
