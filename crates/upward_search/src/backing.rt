ghost use Rattle.std.specs.Prelude.{◌<◌, List, [], length, IfOk, MatchOption};
ghost use Rattle.upward_search.specs.Climbs.{IsRisingWithin};
ghost use Rattle.upward_search.specs.WaysBack.{LacksArc, IsArcBetween, IsWayBackFrom};

use crate::slope::{Arc, Label, Slopes};
use ride_base::NoMemory;
use std::alloc::Global;

/// An arc and the place that it leads up from.
#[derive(Clone, Copy)]
pub(crate) struct Rung {
    pub(crate) low: u32,
    pub(crate) arc: Arc,
}

/// The arcs of a least way up to a label of a space, the highest first.
pub(crate) fn climb_back(
    alloc: Global,
    slopes: &Slopes,
    space: &[Label],
    top: usize,
) -> Result<Vec<Rung>, NoMemory>
    requires rising { IsRisingWithin 0 (length slopes.now) space.now }
    requires top { top < length space.now }
    ensures { IfOk result (λ rungs. IsWayBackFrom slopes.now space.now top rungs.items) }
{
    let mut rungs = Vec::new(alloc);
    let mut at = space[top];
    for index in (0..top).rev() {
        let below = space[index];
        let Some(arc) = arc_between(slopes.row(below.place), below, at) else {
            continue;
        };
        rungs.push(Rung {
            low: below.place,
            arc,
        })?;
        at = below;
    }
    let _ = slopes.places();
    Ok(rungs)
}

/// An arc that makes up the rest of a label.
fn arc_between(arcs: &[Arc], below: Label, at: Label) -> Option<Arc>
    ensures { MatchOption result
        (LacksArc arcs.now below at (length arcs.now))
        (IsArcBetween arcs.now below at) }
{
    if below.length > at.length {
        return None;
    }
    for arc in arcs {
        if arc.to == at.place && arc.length == at.length - below.length {
            return Some(*arc);
        }
    }
    None
}
