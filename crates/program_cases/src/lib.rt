//! Tests of whole runs over memory: three texts on a shelf, the status, and the bytes that were taken.
#![tactic(auto)]

#[cfg(test)]
mod cities;
#[cfg(test)]
mod clock;
#[cfg(test)]
mod endings;
#[cfg(test)]
mod events;
#[cfg(test)]
mod journals;
#[cfg(test)]
mod lines;
#[cfg(test)]
mod rides;
#[cfg(test)]
mod runs;
#[cfg(test)]
mod walks;
#[cfg(test)]
mod watched;
