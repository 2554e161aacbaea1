ghost use Rattle.std.specs.Prelude.{◌≡◌, ◌<◌, ◌≤◌, IfOk};

use ride_base::NoMemory;
use road_graph::{BuildFault, Graph, NodeNo, Road};
use std::alloc::Global;
use std::test::Fail;

/// How many nodes the grid has, in rows of ten.
pub const GRID: u32 = 100;

pub fn road(from: u32, to: u32, weight: u32) -> Road {
    Road {
        from: NodeNo(from),
        to: NodeNo(to),
        weight,
    }
}

/// Four nodes in a line, joined both ways by roads of 10.
pub fn line(alloc: Global) -> Result<Graph, BuildFault>
    ensures { IfOk result (λ g. g.nodes ≡ 4) }
{
    let roads = [
        road(1, 2, 10),
        road(2, 1, 10),
        road(2, 3, 10),
        road(3, 2, 10),
        road(3, 4, 10),
        road(4, 3, 10),
    ];
    Graph::build(alloc, 4, &roads)
}

/// Joins two neighbours of the grid, both ways but after each third node, with a weight of 0 to 3 that comes again and again.
fn join(roads: &mut Vec<Road>, k: u32, to: u32) -> Result<(), NoMemory>
    requires index { k < 100 }
    requires node { to ≤ 100 }
{
    let weight = (k * 7 + to) % 4;
    roads.push(road(k + 1, to, weight))?;
    if k % 3 != 0 {
        roads.push(road(to, k + 1, (weight + k) % 4))?;
    }
    Ok(())
}

/// The roads of ten rows of ten nodes, of which the last one is cut off from the others.
fn grid_roads(alloc: Global) -> Result<Vec<Road>, NoMemory> {
    let mut roads = Vec::new(alloc);
    for k in 0..GRID {
        if k % 10 != 9 {
            join(&mut roads, k, k + 2)?;
        }
        if k < 80 {
            join(&mut roads, k, k + 11)?;
        }
    }
    Ok(roads)
}

/// Weights of 0, walks of equal length, roads one way, and a part that none reaches.
pub fn grid(alloc: Global) -> Result<Graph, Fail>
    ensures { IfOk result (λ g. g.nodes ≡ 100) }
{
    let roads = grid_roads(alloc)?;
    let graph = Graph::build(alloc, GRID, roads.as_slice())?;
    Ok(graph)
}
