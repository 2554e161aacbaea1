//! Tests of contraction hierarchies: distances, walks and spaces, beside plain searches.
#![tactic(auto)]

#[cfg(test)]
mod graphs;
#[cfg(test)]
mod hierarchies;
