ghost use Rattle.std.specs.Prelude.{◌≡◌, ◌^◌, ◌<◌, ◌++◌, length, IfOk, OnOk, MatchBool, option_to_list};
ghost use Rattle.road_graph.specs.Limits.{far};
ghost use Rattle.contraction.specs.declared.rows.End.TheVariants.{From};
ghost use Rattle.contraction.specs.Rows.{Stands, IsHere, AreHere, AreSound};
ghost use Rattle.contraction.specs.Searching.{IsMarked};
ghost use Rattle.contraction.specs.Bridging.{AreLight, BridgesBy, AreFrom, AreBridges, IsSpared, IsWanted};

use crate::search::Search;
use ride_base::{Items, NoMemory};
use road_graph::{FAR, NodeNo};
use std::alloc::Global;
use upward_search::RankArc;

/// How many candidates a search for ways round a node takes before the node is removed.
const MANY: u32 = 500;

/// How many candidates it takes where only the node's cost is asked.
const FEW: u32 = 50;

/// The length of the longest way over one arc and one of these that doesn't lead back; 0 where there is none.
fn longest(down: RankArc, ups: &[RankArc]) -> u64
    requires down { down.length < far }
    requires ups { AreLight far ups.now }
    ensures { result < 2 ^ 54 }
{
    let mut longest = 0;
    for up in ups {
        let length = down.length + up.length;
        if up.to != down.from && longest < length {
            longest = length;
        }
    }
    longest
}

/// Whether an arc is needed over a node in place of one into it and one out of it. The search began at the first node.
fn is_needed(down: RankArc, up: RankArc, search: &Search) -> bool
    requires down { IsHere (length search.now.marks.items) down }
    requires up { IsHere (length search.now.marks.items) up }
    ensures { MatchBool result (IsWanted down up) (IsSpared down up search.now) }
{
    let length = down.length + up.length;
    down.from != up.to && length < FAR && !search.is_reached(up.to, length)
}

/// An arc over a node in place of one into it and one out of it, where it is needed.
fn bridge(node: NodeNo, down: RankArc, up: RankArc, search: &Search) -> Option<RankArc>
    requires down { IsHere (length search.now.marks.items) down }
    requires up { IsHere (length search.now.marks.items) up }
    ensures { BridgesBy node down up search.now result }
{
    if !is_needed(down, up, search) {
        return None;
    }
    Some(RankArc {
        from: down.from,
        to: up.to,
        length: down.length + up.length,
        middle: Some(node),
    })
}

/// Puts an arc at the end, where there is one.
pub(crate) fn push_maybe(found: &mut Items<RankArc>, arc: Option<RankArc>) -> Result<(), NoMemory>
    ensures { OnOk result (found.new ≡ found.old ++ option_to_list arc) }
{
    if let Some(arc) = arc {
        found.push(arc)?;
    }
    Ok(())
}

/// Adds the arcs that are needed over a node for one arc into it and each of these out of it.
fn bridges_from(
    node: NodeNo,
    down: RankArc,
    ups: &[RankArc],
    rows: &[Items<RankArc>],
    search: &mut Search,
    found: &mut Items<RankArc>,
) -> Result<(), NoMemory>
    requires down { IsHere (length rows.now) down }
    requires ups { AreHere (length rows.now) ups.now }
    requires sound { AreSound From rows.now }
    requires marked { IsMarked (length rows.now) search.old }
    ensures found { OnOk result
        (AreFrom far node down ups.now (Stands rows.now) found.old found.new) }
    ensures marked { OnOk result (IsMarked (length rows.now) search.new) }
{
    search.run(rows, down.from, node, longest(down, ups), MANY)?;
    for up in ups {
        push_maybe(found, bridge(node, down, *up, search))?;
    }
    Ok(())
}

/// The arcs that are needed over a node, for each of these arcs into it and each of these out of it.
pub(crate) fn bridges(
    alloc: Global,
    node: NodeNo,
    ins: &[RankArc],
    outs: &[RankArc],
    rows: &[Items<RankArc>],
    search: &mut Search,
) -> Result<Items<RankArc>, NoMemory>
    requires ins { AreHere (length rows.now) ins.now }
    requires outs { AreHere (length rows.now) outs.now }
    requires sound { AreSound From rows.now }
    requires marked { IsMarked (length rows.now) search.old }
    ensures found { IfOk result
        (λ found. AreBridges far node ins.now outs.now (Stands rows.now) found) }
    ensures marked { IfOk result (λ _. IsMarked (length rows.now) search.new) }
{
    let mut found = Items::new(alloc);
    for down in ins {
        bridges_from(node, *down, outs, rows, search, &mut found)?;
    }
    Ok(found)
}

/// How many arcs seem to be needed over a node for one arc into it and each of these out of it.
pub(crate) fn count_from(
    node: NodeNo,
    down: RankArc,
    ups: &[RankArc],
    rows: &[Items<RankArc>],
    search: &mut Search,
) -> Result<usize, NoMemory>
    requires down { IsHere (length rows.now) down }
    requires ups { AreHere (length rows.now) ups.now }
    requires sound { AreSound From rows.now }
    requires marked { IsMarked (length rows.now) search.old }
    ensures { IfOk result (λ _. IsMarked (length rows.now) search.new) }
{
    search.run(rows, down.from, node, longest(down, ups), FEW)?;
    let mut count = 0;
    for up in ups {
        if is_needed(down, *up, search) {
            count += 1;
        }
    }
    Ok(count)
}
