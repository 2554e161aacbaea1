//! Tests of the turn lock, round a list of numbers.
#![tactic(auto)]

#[cfg(test)]
mod notes;
#[cfg(test)]
mod tests;
