//! Tests of made cities.
#![tactic(auto)]

#[cfg(test)]
mod cities;
