ghost use Rattle.std.specs.Prelude.{◌≡◌, ◌<◌, ◌≤◌, ◌^◌, length, IfOk};
ghost use Rattle.road_graph.specs.Paths.{length_of};

use road_graph::{BuildFault, Graph, NodeNo, Road, Steps, Walk};
use std::alloc::Global;
use std::test::Fail;
use std::thread::Threads;

pub const ONE: NodeNo = NodeNo(1);

pub const TWO: NodeNo = NodeNo(2);

pub const THREE: NodeNo = NodeNo(3);

pub const FOUR: NodeNo = NodeNo(4);

pub fn road(from: u32, to: u32, weight: u32) -> Road {
    Road {
        from: NodeNo(from),
        to: NodeNo(to),
        weight,
    }
}

/// Four nodes in a line, joined both ways by roads of 10.
pub fn line(alloc: Global) -> Result<Graph, BuildFault>
    ensures { IfOk result (λ g. g.nodes ≡ 4) }
{
    let roads = [
        road(1, 2, 10),
        road(2, 1, 10),
        road(2, 3, 10),
        road(3, 2, 10),
        road(3, 4, 10),
        road(4, 3, 10),
    ];
    Graph::build(alloc, 4, &roads)
}

/// The walk over these nodes of the line.
pub fn walk<R: Threads>(rt: &R, alloc: Global, nodes: &[NodeNo]) -> Result<Walk, Fail>
    requires { length nodes.now ≤ 4 }
    ensures { IfOk result (λ w. length_of w < 2 ^ 53) }
{
    let graph = line(alloc)?;
    walk_in(alloc, &graph, nodes, &mut Steps::start(rt, ()))
}

fn walk_in(
    alloc: Global,
    graph: &Graph,
    nodes: &[NodeNo],
    steps: &mut Steps<()>,
) -> Result<Walk, Fail>
    requires { length nodes.now ≤ 4 }
    ensures { IfOk result (λ w. length_of w < 2 ^ 53) }
{
    match Walk::made(alloc, graph, nodes, steps)? {
        Some(walk) => short(walk),
        None => Err("no walk".into()),
    }
}

fn short(walk: Walk) -> Result<Walk, Fail>
    ensures { IfOk result (λ w. length_of w < 2 ^ 53) }
{
    if walk.length() < 1000 {
        Ok(walk)
    } else {
        Err("a long walk".into())
    }
}
