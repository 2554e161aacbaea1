//! Tests of the readers of graphs, places, fleets and stream lines, and of the words of command lines.
#![tactic(auto)]

#[cfg(test)]
mod graphs;
#[cfg(test)]
mod lenient;
#[cfg(test)]
mod tables;
#[cfg(test)]
mod words;
