ghost use Rattle.std.specs.Prelude.{◌+◌, ◌≡◌, ◌<◌, ◌≤◌, ◌^◌, length, take, IfErr, OnOk};
ghost use Rattle.board_core.specs.BoardViews.{board_of};
ghost use Rattle.interleave_core.specs.Worlds.{AreEventsFor, HasPlayed, IsWorldOver};
ghost use Rattle.interleave_core.specs.Worlds.{KeepsSoundness, StaysLegal};

use crate::event::Event;
use crate::world::World;
use board_core::{Fleet, candidates_stay_sound, versions_rise};
use insertion_cost::Pricer;
use road_graph::Steps;
use std::alloc::{AllocError, Global};
use stop_schedule::FleetIndex;

/// Want of memory for an event. The events before it were played, and it changed nothing.
#[derive(Clone, Copy, Debug, PartialEq, Eq)]
pub struct Stopped {
    /// The event's index in the list, from 0.
    pub at: usize,
}

/// Plays events on a world, one after another. The journal grows by exactly the entries that they name, and stays legal over the
/// pricer's graph: whatever came since a request was priced, its answer is the best insertion of the fleet as it is at its commit, or
/// nobody exactly where none is feasible. Each actor that is named is there, and moments are at most 2^40, in the units of the roads'
/// weights. The board's version and the number of events add up to at most 2^62. The fleet is good over the pricer's graph, which has
/// the board's nodes, and each earlier call had a pricer of that graph.
pub fn run_events<I: FleetIndex + Drop, P: Pricer<Fleet<I>>, L>(
    alloc: Global,
    world: &mut World<I>,
    pricer: &P,
    events: &[Event],
    steps: &mut Steps<L>,
) -> Result<(), Stopped>
    requires events { AreEventsFor (length world.old.actors.items) events.now }
    requires room { (board_of world.old.board).fleet.version + length events.now ≤ 2 ^ 62 }
    requires over { IsWorldOver I.fits (P.graph pricer.now) world.old }
    ensures played { OnOk result
        (HasPlayed (P.graph pricer.now) world.old events.now world.new) }
    ensures stopped { IfErr result (λ stopped. (stopped.at < length events.now)
        × HasPlayed (P.graph pricer.now) world.old (take stopped.at events.now) world.new) }
    ensures legal { StaysLegal (P.graph pricer.now) world.old world.new }
    ensures sound { KeepsSoundness (P.graph pricer.now) world.old world.new }
    ensures over { IsWorldOver I.fits (P.graph pricer.now) world.new }
    ensures actors { length world.new.actors.items ≡ length world.old.actors.items }
    ensures steps { steps.old.0 ≤ steps.new.0 }
    ensures asks { steps.old.1 ≤ steps.new.1 }
{
    versions_rise();
    candidates_stay_sound();
    for (at, event) in events.iter().enumerate() {
        if let Err(AllocError) = world.act(alloc, event, pricer, steps) {
            return Err(Stopped { at });
        }
    }
    Ok(())
}
