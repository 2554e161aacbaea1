ghost use Rattle.std.specs.Prelude.{◌≡◌, ◌≤◌, ◌++◌, length, IfOk, OnErr, OnOk};
ghost use Rattle.stop_schedule.specs.Limits.{most_stops};
ghost use Rattle.stop_schedule.specs.Lists.{HasPutSome, IsInsertionInto, node_at, pickup_of, dropoff_of, with_both, with_legs};

use crate::request::Request;
use crate::stop::{Front, Insertion, Promise, Stop, StopKind};
use ride_base::{Items, NoMemory};
use road_graph::{NodeNo, Walk};
use std::alloc::Global;

/// The node of stop k, counted from 1, and of the front for 0.
pub fn node_at(front: &Front, stops: &[Stop], k: usize) -> NodeNo
    requires { k ≤ length stops.now }
    ensures { result ≡ node_at front.now stops.now k }
{
    if k == 0 {
        front.node
    } else {
        stops[k - 1].node
    }
}

/// The stop at which the riders of a request get on.
pub fn pickup_stop(request: &Request, promise: &Promise) -> Stop
    ensures { result ≡ pickup_of request.now promise.now }
{
    Stop {
        node: request.pickup,
        kind: StopKind::Pickup,
        no: request.no,
        riders: request.riders,
        ready: request.moment,
        limit: promise.pickup,
        spaces: request.spaces,
    }
}

/// The stop at which they get off.
pub fn dropoff_stop(request: &Request, promise: &Promise) -> Stop
    ensures { result ≡ dropoff_of request.now promise.now }
{
    Stop {
        node: request.dropoff,
        kind: StopKind::Dropoff,
        no: request.no,
        riders: request.riders,
        ready: 0,
        limit: promise.arrival,
        spaces: request.spaces,
    }
}

/// The stops with a pickup after stop i and a dropoff after stop j. After an error nothing of them is left.
pub fn stops_with(
    alloc: Global,
    stops: &[Stop],
    at: Insertion,
    pickup: Stop,
    dropoff: Stop,
) -> Result<Items<Stop>, NoMemory>
    requires insertion { IsInsertionInto at (length stops.now) }
    requires few { length stops.now ≤ most_stops }
    ensures { IfOk result (λ all. all ≡ with_both stops.now at pickup dropoff) }
{
    let mut all = Vec::with_capacity(alloc, stops.len() + 2)?;
    all.extend_from_slice(&stops[..at.i])?;
    all.push(pickup)?;
    all.extend_from_slice(&stops[at.i..at.j])?;
    all.push(dropoff)?;
    all.extend_from_slice(&stops[at.j..])?;
    Ok(Items::from_vec(all))
}

/// Puts equal walks at the end. After an error some of the first of them may stand there.
pub fn add_shares(alloc: Global, all: &mut Vec<Walk>, walks: &[Walk]) -> Result<(), NoMemory>
    ensures ok { OnOk result (all.new.items ≡ all.old.items ++ walks.now) }
    ensures err { OnErr result (HasPutSome all.old.items walks.now all.new.items) }
{
    for walk in walks {
        all.push(walk.share(alloc)?)?;
    }
    Ok(())
}

/// Equal walks. After an error none of them is left.
pub fn shares(alloc: Global, walks: &[Walk]) -> Result<Items<Walk>, NoMemory>
    ensures { IfOk result (λ all. all ≡ walks.now) }
{
    let mut all = Vec::with_capacity(alloc, walks.len())?;
    add_shares(alloc, &mut all, walks)?;
    Ok(Items::from_vec(all))
}

/// The legs with the changed ones in their places, as equal walks. After an error none of them is left.
pub fn legs_with(
    alloc: Global,
    legs: &[Walk],
    at: Insertion,
    changed: &[Walk],
) -> Result<Items<Walk>, NoMemory>
    requires insertion { IsInsertionInto at (length legs.now) }
    requires few { length legs.now ≤ most_stops }
    requires some { 2 ≤ length changed.now }
    ensures { IfOk result (λ all. all ≡ with_legs legs.now at changed.now) }
{
    let mut all = Vec::with_capacity(alloc, legs.len() + 2)?;
    add_shares(alloc, &mut all, &legs[..at.i])?;
    if at.i == at.j {
        add_shares(alloc, &mut all, changed)?;
    } else {
        add_shares(alloc, &mut all, &changed[..2])?;
        add_shares(alloc, &mut all, &legs[at.i + 1..at.j])?;
        add_shares(alloc, &mut all, &changed[2..])?;
    }
    if at.j < legs.len() {
        add_shares(alloc, &mut all, &legs[at.j + 1..])?;
    }
    Ok(Items::from_vec(all))
}
