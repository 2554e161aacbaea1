//! Tests of the shared board: each call once, what a row of calls ends with, and threads that use one board.
#![tactic(auto)]

#[cfg(test)]
mod boards;
#[cfg(test)]
mod cities;
#[cfg(test)]
mod fleets;
#[cfg(test)]
mod reading;
#[cfg(test)]
mod rows;
#[cfg(test)]
mod threads;
#[cfg(test)]
mod walkers;
