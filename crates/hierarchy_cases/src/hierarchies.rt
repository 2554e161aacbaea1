ghost use Rattle.std.specs.Prelude.{◌≡◌, ◌≤◌};
ghost use Rattle.road_graph.specs.Roads.{IsNode};
ghost use Rattle.upward_search.specs.Hierarchies.{Fits, HasRank};

use crate::graphs::{GRID, grid, line};
use contraction::contract;
use plain_search::least_walk;
use road_graph::{Graph, NodeNo, Steps, Walk};
use std::alloc::Global;
use std::process::Abort;
use std::test::Fail;
use upward_search::Hierarchy;

const ONE: NodeNo = NodeNo(1);

const FOUR: NodeNo = NodeNo(4);

/// The place of a node among those that are listed.
fn place_of(listed: &[(NodeNo, u64)], node: NodeNo) -> Option<usize> {
    for k in 0..listed.len() {
        if listed[k].0 == node {
            return Some(k);
        }
    }
    None
}

fn check_line(
    rt: &impl Abort,
    alloc: Global,
    graph: &Graph,
    hierarchy: &Hierarchy,
    steps: &mut Steps<()>,
) -> Result<(), Fail>
    requires fits { Fits graph.now hierarchy.now }
    requires first { HasRank hierarchy.now (record { 0 = 1 }) }
    requires last { HasRank hierarchy.now (record { 0 = 4 }) }
{
    assert_eq!(rt; hierarchy.distance(alloc, ONE, FOUR, steps)?, Some(30));
    match hierarchy.walk(alloc, graph, ONE, FOUR, steps)? {
        Some(walk) => {
            assert_eq!(rt; walk.nodes(), [ONE, NodeNo(2), NodeNo(3), FOUR].as_slice());
            assert_eq!(rt; walk.length(), 30);
            Ok(())
        }
        None => Err("no walk".into()),
    }
}

/// Contracts the line, and looks at it.
fn ranked_line(
    rt: &impl Abort,
    alloc: Global,
    graph: &Graph,
    steps: &mut Steps<()>,
) -> Result<(), Fail>
    requires { graph.now.nodes ≡ 4 }
{
    let hierarchy = contract(alloc, graph, steps)?;
    check_line(rt, alloc, graph, &hierarchy, steps)
}

#[test]
fn a_line_keeps_its_distances(rt: HostRuntime) -> Result<(), Fail> {
    let graph = line(rt.alloc())?;
    ranked_line(&rt, rt.alloc(), &graph, &mut Steps::start(&rt, ()))
}

/// Whether a walk leads from one node to another.
fn leads(walk: &Walk, from: NodeNo, to: NodeNo) -> bool {
    let nodes = walk.nodes();
    let count = nodes.len();
    if count == 0 {
        return false;
    }
    nodes[0] == from && nodes[count - 1] == to
}

/// Whether the hierarchy's walk and distance are as long as a walk of a plain search.
fn is_as_long(
    alloc: Global,
    graph: &Graph,
    hierarchy: &Hierarchy,
    from: NodeNo,
    to: NodeNo,
    steps: &mut Steps<()>,
) -> Result<bool, Fail>
    requires fits { Fits graph.now hierarchy.now }
    requires from { IsNode graph.now from }
    requires to { IsNode graph.now to }
    requires from_ranked { HasRank hierarchy.now from }
    requires to_ranked { HasRank hierarchy.now to }
{
    let plain = least_walk(alloc, graph, from, to, steps)?;
    let climbed = hierarchy.walk(alloc, graph, from, to, steps)?;
    let distance = hierarchy.distance(alloc, from, to, steps)?;
    match plain {
        Some(plain) => match climbed {
            Some(walk) => Ok(
                walk.length() == plain.length()
                    && distance == Some(plain.length())
                    && leads(&walk, from, to),
            ),
            None => Ok(false),
        },
        None => Ok(climbed.is_none() && distance.is_none()),
    }
}

/// The pair of this number, of the nodes 1 to 100.
fn pair(k: u32) -> (NodeNo, NodeNo)
    requires { k ≤ 199 }
    ensures { (1 ≤ result.0.0) × (result.0.0 ≤ 100) × (1 ≤ result.1.0) × (result.1.0 ≤ 100) }
{
    (NodeNo(k * 37 % GRID + 1), NodeNo((k * 61 + 13) % GRID + 1))
}

fn check_pairs(
    rt: &impl Abort,
    alloc: Global,
    graph: &Graph,
    hierarchy: &Hierarchy,
    steps: &mut Steps<()>,
) -> Result<(), Fail>
    requires fits { Fits graph.now hierarchy.now }
    requires nodes { graph.now.nodes ≡ 100 }
{
    for k in 0..200 {
        let (from, to) = pair(k);
        assert!(rt; is_as_long(alloc, graph, hierarchy, from, to, steps)?);
    }
    Ok(())
}

fn contracted(
    rt: &impl Abort,
    alloc: Global,
    graph: &Graph,
    steps: &mut Steps<()>,
) -> Result<(), Fail>
    requires { graph.now.nodes ≡ 100 }
{
    let hierarchy = contract(alloc, graph, steps)?;
    check_pairs(rt, alloc, graph, &hierarchy, steps)
}

#[test]
fn two_hundred_pairs_are_as_far_as_by_plain_searches(rt: HostRuntime) -> Result<(), Fail> {
    let graph = grid(rt.alloc())?;
    contracted(&rt, rt.alloc(), &graph, &mut Steps::start(&rt, ()))
}

fn check_spaces(
    rt: &impl Abort,
    alloc: Global,
    hierarchy: &Hierarchy,
    steps: &mut Steps<()>,
) -> Result<(), Fail>
    requires first { HasRank hierarchy.now (record { 0 = 1 }) }
    requires last { HasRank hierarchy.now (record { 0 = 4 }) }
{
    let space = hierarchy.forward_space(alloc, ONE, steps)?;
    let rests = hierarchy.rest_to(alloc, &space, FOUR, steps)?;
    let listed = space.as_slice();
    match place_of(listed, ONE) {
        Some(k) => {
            assert!(rt; k < listed.len() && k < rests.len());
            assert_eq!(rt; listed[k].1, 0);
            assert_eq!(rt; rests.as_slice()[k], Some(30));
        }
        None => return Err("no label".into()),
    }
    let back = hierarchy.backward_space(alloc, FOUR, steps)?;
    let rests = hierarchy.rest_from(alloc, &back, ONE, steps)?;
    let listed = back.as_slice();
    match place_of(listed, FOUR) {
        Some(k) => {
            assert!(rt; k < listed.len() && k < rests.len());
            assert_eq!(rt; listed[k].1, 0);
            assert_eq!(rt; rests.as_slice()[k], Some(30));
        }
        None => return Err("no label".into()),
    }
    Ok(())
}

fn spaces_of(
    rt: &impl Abort,
    alloc: Global,
    graph: &Graph,
    steps: &mut Steps<()>,
) -> Result<(), Fail>
    requires { graph.now.nodes ≡ 4 }
{
    let hierarchy = contract(alloc, graph, steps)?;
    check_spaces(rt, alloc, &hierarchy, steps)
}

#[test]
fn spaces_of_a_line_have_labels_and_rests(rt: HostRuntime) -> Result<(), Fail> {
    let graph = line(rt.alloc())?;
    spaces_of(&rt, rt.alloc(), &graph, &mut Steps::start(&rt, ()))
}
