//! Tests of commits: what was priced earlier is settled, and worlds of actors play their events.
#![tactic(auto)]

#[cfg(test)]
mod cities;
#[cfg(test)]
mod distances;
#[cfg(test)]
mod fleets;
#[cfg(test)]
mod plays;
#[cfg(test)]
mod pricers;
#[cfg(test)]
mod settles;
#[cfg(test)]
mod worlds;
