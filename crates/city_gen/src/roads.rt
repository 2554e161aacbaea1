ghost use Rattle.std.specs.Prelude.{◌≡◌, ◌≤◌, ◌++◌, IfOk, OnOk, length};
ghost use Rattle.city_gen.specs.Draws.{after};
ghost use Rattle.city_gen.specs.Roads.{below, neighbours, right_of, roads_along, roads_between};
ghost use Rattle.city_gen.specs.Roads.{node_count};

use crate::draws::Draws;
use ride_base::{Items, NoMemory};
use road_graph::{NodeNo, Road};
use std::alloc::Global;

/// How many nodes a row has, and how many rows there are.
const SIDE: u32 = 40;

/// The nodes of a city: they stand in rows, and are numbered row by row from 1.
pub(crate) const NODES: u32 = SIDE * SIDE;

/// How many roads a city has: two between each two neighbours.
const ROADS: usize = 6_240;

/// Makes the roads between neighbours. Node by node, a weight is drawn for the road to its right, and then one for the road down.
pub(crate) fn make_roads(alloc: Global, draws: &mut Draws) -> Result<Items<Road>, NoMemory>
    ensures roads { IfOk result (λ r. r ≡ roads_along draws.old.state neighbours) }
    ensures state { OnOk result (draws.new.state ≡ after (length neighbours) draws.old.state) }
{
    let mut roads = Vec::with_capacity(alloc, ROADS)?;
    for place in 0..NODES {
        go_right(&mut roads, place + 1, draws)?;
        go_down(&mut roads, place + 1, draws)?;
    }
    Ok(Items::from_vec(roads))
}

/// Puts in the roads between a node and the one to its right, where its row goes on.
#[tactic(auto, unfolding(crate::specs::Draws::after, crate::specs::Roads::roads_along))]
fn go_right(roads: &mut Vec<Road>, node: u32, draws: &mut Draws) -> Result<(), NoMemory>
    requires { node ≤ node_count }
    ensures roads { OnOk result
        (roads.new.items ≡ roads.old.items ++ roads_along draws.old.state (right_of node)) }
    ensures state { OnOk result
        (draws.new.state ≡ after (length (right_of node)) draws.old.state) }
{
    if node % SIDE == 0 {
        return Ok(());
    }
    join(roads, node, node + 1, draws)
}

/// Puts in the roads between a node and the one below it, where there is a next row.
#[tactic(auto, unfolding(crate::specs::Draws::after, crate::specs::Roads::roads_along))]
fn go_down(roads: &mut Vec<Road>, node: u32, draws: &mut Draws) -> Result<(), NoMemory>
    requires { node ≤ node_count }
    ensures roads { OnOk result
        (roads.new.items ≡ roads.old.items ++ roads_along draws.old.state (below node)) }
    ensures state { OnOk result (draws.new.state ≡ after (length (below node)) draws.old.state) }
{
    if node > NODES - SIDE {
        return Ok(());
    }
    join(roads, node, node + SIDE, draws)
}

/// Puts in a road from one node to another and the road back, of one drawn weight.
#[tactic(auto, unfolding(crate::specs::Draws::after))]
fn join(roads: &mut Vec<Road>, from: u32, to: u32, draws: &mut Draws) -> Result<(), NoMemory>
    ensures roads { OnOk result
        (roads.new.items ≡ roads.old.items ++ roads_between (from, to) draws.old.state) }
    ensures state { OnOk result (draws.new.state ≡ after 1 draws.old.state) }
{
    let (from, to) = (NodeNo(from), NodeNo(to));
    let weight = 5 + draws.below(16);
    roads.push(Road { from, to, weight })?;
    roads.push(Road {
        from: to,
        to: from,
        weight,
    })?;
    Ok(())
}
