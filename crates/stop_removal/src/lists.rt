ghost use Rattle.std.specs.Prelude.{◌≡◌, ◌+◌, ◌<◌, ◌≤◌, ◌++◌, length, IfOk};
ghost use Rattle.stop_removal.specs.Removals.{without_both, with_joined};

use ride_base::{Items, NoMemory};
use road_graph::Walk;
use std::alloc::Global;
use stop_schedule::{Stop, add_shares};

/// The stops without those at both positions.
pub fn stops_without(
    alloc: Global,
    stops: &[Stop],
    pickup: usize,
    dropoff: usize,
) -> Result<Items<Stop>, NoMemory>
    requires from_first { 1 ≤ pickup }
    requires order { pickup < dropoff }
    requires to_last { dropoff ≤ length stops.now }
    ensures { IfOk result (λ left. left ≡ without_both stops.now pickup dropoff) }
{
    let mut left = Vec::with_capacity(alloc, stops.len() - 2)?;
    left.extend_from_slice(&stops[..pickup - 1])?;
    left.extend_from_slice(&stops[pickup..dropoff - 1])?;
    left.extend_from_slice(&stops[dropoff..])?;
    Ok(Items::from_vec(left))
}

/// The legs with the joined ones in the place of those around both positions.
pub fn legs_joined(
    alloc: Global,
    legs: &[Walk],
    pickup: usize,
    dropoff: usize,
    joined: &[Walk],
) -> Result<Items<Walk>, NoMemory>
    requires from_first { 1 ≤ pickup }
    requires order { pickup < dropoff }
    requires to_last { dropoff ≤ length legs.now }
    requires few { length joined.now ≤ 2 }
    requires some { pickup + 1 < dropoff → 1 ≤ length joined.now }
    ensures { IfOk result (λ left. left ≡ with_joined legs.now pickup dropoff joined.now) }
{
    let mut left = Vec::with_capacity(alloc, legs.len() - 2)?;
    add_shares(alloc, &mut left, &legs[..pickup - 1])?;
    if dropoff == pickup + 1 {
        add_shares(alloc, &mut left, joined)?;
    } else {
        add_shares(alloc, &mut left, &joined[..1])?;
        add_shares(alloc, &mut left, &legs[pickup + 1..dropoff - 1])?;
        add_shares(alloc, &mut left, &joined[1..])?;
    }
    if dropoff < legs.len() {
        add_shares(alloc, &mut left, &legs[dropoff + 1..])?;
    }
    Ok(Items::from_vec(left))
}
