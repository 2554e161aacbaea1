ghost use Rattle.std.specs.Prelude.{◌≡◌, ◌+◌, ◌<◌, ◌≤◌, ◌^◌, length, IfOk, OnErr, MatchResult};
ghost use Rattle.upward_search.specs.Rows.{row, IsUpward};
ghost use Rattle.upward_search.specs.Climbs.{IsSpace, ReadsSpace, IsWithinSpace};
ghost use Rattle.upward_search.specs.Searches.{IsRowOffered, Offers};

use crate::slope::{Arc, Label, Slopes};
use crate::waiting::Waiting;
use ride_base::{Items, NoMemory};
use road_graph::{FAR, Steps};
use std::alloc::Global;

/// The places that arcs lead up to from a place, with the least lengths of the ways there, where these are below 2^53.
pub(crate) fn climb<L>(
    alloc: Global,
    slopes: &Slopes,
    start: u32,
    steps: &mut Steps<L>,
) -> Result<Items<Label>, NoMemory>
    requires { start < length slopes.now }
    ensures space { IfOk result (IsSpace slopes.now start) }
    ensures steps { IfOk result (ReadsSpace slopes.now steps.old.0 steps.new.0) }
    ensures spent { OnErr result (IsWithinSpace slopes.now start steps.old.0 steps.new.0) }
    ensures asks { steps.new.1 ≡ steps.old.1 }
{
    let mut space = Items::new(alloc);
    let mut waiting = Waiting::new(alloc);
    waiting.push(Label {
        place: start,
        length: 0,
    })?;
    let mut floor = 0;
    'climbing: while let Some(label) = waiting.next_from(floor) {
        space.push(label)?;
        offer_arcs(slopes, label, &mut waiting, steps)?;
        floor = label.place + 1;
    }
    Ok(space)
}

/// Lets the ends of the arcs from a place wait, where they are no farther than counts.
fn offer_arcs<L>(
    slopes: &Slopes,
    label: Label,
    waiting: &mut Waiting,
    steps: &mut Steps<L>,
) -> Result<(), NoMemory>
    requires place { label.place < length slopes.now }
    requires near { label.length < 2 ^ 53 }
    ensures offered { IfOk result (λ _. IsRowOffered slopes.now label waiting.old waiting.new) }
    ensures steps { MatchResult result
        (λ _. steps.new.0 ≡ steps.old.0 + length (row slopes.now label.place))
        (λ _. steps.new.0 ≤ steps.old.0 + length (row slopes.now label.place)) }
    ensures asks { steps.new.1 ≡ steps.old.1 }
    ensures upward { IsUpward slopes.now }
{
    for arc in slopes.row(label.place) {
        steps.tick();
        offer(label, *arc, waiting)?;
    }
    Ok(())
}

/// Lets the end of an arc wait, where it is no farther than counts.
fn offer(label: Label, arc: Arc, waiting: &mut Waiting) -> Result<(), NoMemory>
    requires { label.length < 2 ^ 53 }
    ensures { IfOk result (λ _. Offers label arc waiting.old waiting.new) }
{
    if arc.length >= FAR - label.length {
        return Ok(());
    }
    waiting.push(Label {
        place: arc.to,
        length: label.length + arc.length,
    })
}
