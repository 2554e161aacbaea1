//! Tests of the lower layers: texts, roads, searches, versions of lists, schedules, what is left of them, leeways, and prices.
#![tactic(auto)]

#[cfg(test)]
mod advances;
#[cfg(test)]
mod cities;
#[cfg(test)]
mod graphs;
#[cfg(test)]
mod leeways;
#[cfg(test)]
mod plans;
#[cfg(test)]
mod pricers;
#[cfg(test)]
mod prices;
#[cfg(test)]
mod reckonings;
#[cfg(test)]
mod removals;
#[cfg(test)]
mod schedules;
#[cfg(test)]
mod searches;
#[cfg(test)]
mod texts;
#[cfg(test)]
mod versions;
