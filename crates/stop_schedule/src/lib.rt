//! Schedules of vehicles: their stops, their times, and the lists that take one more request.
//! The layers above use that `arr`, `dep`, `aboard` and `front` are the times, riders and fronts of the definitions, that `inserted`
//! gives the list of the definition and `from_parts` its parts, that `keeps` and `keeps_leaving` test what is promised from a stop on,
//! and what it is for a view to be good over a graph.
#![tactic(auto)]

mod ahead;
mod fronts;
mod insert;
mod limits;
mod params;
mod request;
mod schedule;
mod stop;
mod vehicle;
mod views;
mod walks;

pub use insert::{add_shares, dropoff_stop, node_at, pickup_stop};
pub use limits::{
    END_OF_TIME, LATEST_FRONT, LATEST_MOMENT, MOST_RIDERS, MOST_STOPS, MOST_VEHICLES,
};
pub use params::Params;
pub use request::Request;
pub use schedule::Schedule;
pub use stop::{Front, Insertion, Promise, SeatKind, Start, Stop, StopKind};
pub use vehicle::Vehicle;
pub use views::{FleetIndex, FleetView, NoIndex};
pub use walks::NewWalks;
