ghost use Rattle.std.specs.Prelude.{◌≡◌, ℕ, ◌+◌, ◌<◌, ◌≤◌, ◌^◌, List, [], length, IfOk, MatchBool, sum_by};
ghost use Rattle.upward_search.specs.declared.slope.Label.{Label as LabelOf};
ghost use Rattle.upward_search.specs.Rows.{row as row_at};
ghost use Rattle.upward_search.specs.Ladders.{IsLadder};
ghost use Rattle.upward_search.specs.Parts.{IsRoad, HasMiddle, IsPart, HasArcTo, IsLeastArc, IsLeastArcBelow, IsArcSoFar, IsClimbPart, IsFallPart};

use crate::levels::Levels;
use crate::slope::{Arc, Label};
use crate::way::Way;
use ride_base::NoMemory;
use std::alloc::Global;

/// An arc between two places, either of which may be the higher.
#[derive(Clone, Copy)]
pub(crate) struct Part {
    pub(crate) from: u32,
    pub(crate) to: u32,
    /// The place that it leads over, where that is below both ends; it is a road where it isn't.
    pub(crate) middle: u32,
    pub(crate) length: u64,
}

impl Levels {
    /// The shortest climbing arc from one place to another.
    pub(crate) fn climb_part(&self, from: u32, to: u32) -> Part
        requires place { from < length self.now.nodes }
        requires there { HasArcTo (row_at self.now.climbs from) to }
        ensures part { IsClimbPart self.now from to result }
        ensures ladder { IsLadder self.now }
    {
        let arc = least_arc(self.row(Way::From, from), to);
        Part {
            from,
            to,
            length: arc.length,
            middle: arc.middle,
        }
    }

    /// The shortest falling arc from one place to another.
    pub(crate) fn fall_part(&self, from: u32, to: u32) -> Part
        requires place { to < length self.now.nodes }
        requires there { HasArcTo (row_at self.now.falls to) from }
        ensures part { IsFallPart self.now from to result }
        ensures ladder { IsLadder self.now }
    {
        let arc = least_arc(self.row(Way::To, to), from);
        Part {
            from,
            to,
            length: arc.length,
            middle: arc.middle,
        }
    }
}

/// Whether a part is a road.
pub(crate) fn is_road(part: Part) -> bool
    ensures { MatchBool result (IsRoad part) (HasMiddle part) }
{
    part.from <= part.middle || part.to <= part.middle
}

/// The shortest of the arcs that lead to a place.
fn least_arc(arcs: &[Arc], to: u32) -> Arc
    requires { HasArcTo arcs.now to }
    ensures { IsLeastArc arcs.now to result }
{
    let mut least = None;
    for arc in arcs {
        least = shorter(least, *arc, to);
    }
    match least {
        Some(arc) => arc,
        None => Arc {
            to,
            middle: 0,
            length: 0,
        },
    }
}

/// The shorter of two arcs, where the second leads to a place.
fn shorter(least: Option<Arc>, arc: Arc, to: u32) -> Option<Arc>
    ensures { IsArcSoFar least arc to result }
{
    if arc.to != to {
        return least;
    }
    match least {
        Some(other) if other.length <= arc.length => least,
        _ => Some(arc),
    }
}
