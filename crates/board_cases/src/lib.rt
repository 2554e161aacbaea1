//! Tests of the board's layers: its calls, rides that cancel, candidates of before, looks at a fleet, and the lines of a journal.
#![tactic(auto)]

#[cfg(test)]
mod boards;
#[cfg(test)]
mod cancels;
#[cfg(test)]
mod cities;
#[cfg(test)]
mod distances;
#[cfg(test)]
mod fleets;
#[cfg(test)]
mod journal;
#[cfg(test)]
mod looks;
#[cfg(test)]
mod rides;
#[cfg(test)]
mod settles;
#[cfg(test)]
mod twins;
#[cfg(test)]
mod walkers;
