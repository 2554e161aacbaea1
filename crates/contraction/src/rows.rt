ghost use Rattle.std.specs.Prelude.{◌≡◌, ◌<◌, OnOk, filter, length, [], slice_set};
ghost use Rattle.contraction.specs.Rows.{near_end, far_end, leads_elsewhere, is_beside, row_of, AreDetached, IsAttached, AreStanding, AreHere, ArePut};

use ride_base::{Items, NoMemory};
use road_graph::NodeNo;
use std::alloc::Global;
use std::mem;
use upward_search::RankArc;

/// The end of an arc at which it is listed.
#[derive(Clone, Copy, Debug, PartialEq, Eq)]
pub(crate) enum End {
    From,
    To,
}

/// The end at which an arc is listed.
fn near(end: End, arc: RankArc) -> NodeNo
    ensures { result ≡ near_end end arc }
{
    match end {
        End::From => arc.from,
        End::To => arc.to,
    }
}

/// The other end of an arc.
pub(crate) fn far(end: End, arc: RankArc) -> NodeNo
    ensures { result ≡ far_end end arc }
{
    match end {
        End::From => arc.to,
        End::To => arc.from,
    }
}

/// Takes the row of a node, which is empty then.
pub(crate) fn take_row(
    alloc: Global,
    rows: &mut Vec<Items<RankArc>>,
    node: NodeNo,
) -> Items<RankArc>
    requires { node.0 < length rows.old.items }
    ensures row { result ≡ row_of rows.old.items node }
    ensures rest { rows.new.items ≡ slice_set rows.old.items node.0 [] }
{
    mem::replace(&mut rows[node.0 as usize], Items::new(alloc))
}

/// Whether the other end of an arc isn't the node.
fn elsewhere(end: End, node: NodeNo, arc: RankArc) -> bool
    ensures { result ≡ leads_elsewhere end node arc }
{
    far(end, arc) != node
}

/// Whether an arc has other ends than a new one, or is shorter.
fn beside(new: RankArc, arc: RankArc) -> bool
    ensures { result ≡ is_beside new arc }
{
    !(arc.from == new.from && arc.to == new.to && new.length <= arc.length)
}

/// The arcs of a row whose other end isn't the node.
fn without(row: Items<RankArc>, end: End, node: NodeNo) -> Items<RankArc>
    ensures { result ≡ filter (leads_elsewhere end node) row }
{
    let mut held = row.into_vec();
    held.retain(
        |arc| -> bool
            ensures { result ≡ leads_elsewhere end node arc.now }
        { elsewhere(end, node, *arc) },
    );
    Items::from_vec(held)
}

/// The arcs of a row that don't give way to a new one.
fn kept_beside(row: Items<RankArc>, new: RankArc) -> Items<RankArc>
    ensures { result ≡ filter (is_beside new) row }
{
    let mut held = row.into_vec();
    held.retain(
        |arc| -> bool
            ensures { result ≡ is_beside new arc.now }
        { beside(new, *arc) },
    );
    Items::from_vec(held)
}

/// Takes the arcs to a node out of the rows of the nodes at which these arcs are listed.
pub(crate) fn detach(
    alloc: Global,
    rows: &mut Vec<Items<RankArc>>,
    arcs: &[RankArc],
    end: End,
    node: NodeNo,
)
    requires { AreHere (length rows.old.items) arcs.now }
    ensures { AreDetached end node arcs.now rows.old.items rows.new.items }
{
    for arc in arcs {
        let place = near(end, *arc);
        let row = take_row(alloc, rows, place);
        rows[place.0 as usize] = without(row, end, node);
    }
}

/// Puts an arc into the row of the node at which it is listed, in the place of those between the same nodes that are not shorter.
fn attach(
    alloc: Global,
    rows: &mut Vec<Items<RankArc>>,
    arc: RankArc,
    end: End,
) -> Result<(), NoMemory>
    requires { (near_end end arc).0 < length rows.old.items }
    ensures { OnOk result (IsAttached end arc rows.old.items rows.new.items) }
{
    let place = near(end, arc);
    let mut row = kept_beside(take_row(alloc, rows, place), arc);
    row.push(arc)?;
    rows[place.0 as usize] = row;
    Ok(())
}

/// Puts arcs into the rows of both their ends.
pub(crate) fn put(
    alloc: Global,
    outs: &mut Vec<Items<RankArc>>,
    ins: &mut Vec<Items<RankArc>>,
    arcs: &[RankArc],
) -> Result<(), NoMemory>
    requires standing { AreStanding outs.old.items ins.old.items }
    requires same { length ins.old.items ≡ length outs.old.items }
    requires here { AreHere (length outs.old.items) arcs.now }
    ensures { OnOk result
        (ArePut arcs.now outs.old.items ins.old.items outs.new.items ins.new.items) }
{
    for arc in arcs {
        attach(alloc, outs, *arc, End::From)?;
        attach(alloc, ins, *arc, End::To)?;
    }
    Ok(())
}
