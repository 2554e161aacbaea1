//! Versions of a list that share all that did not change, so that a reader keeps the version that it took while writers make new ones.
//! A version is seen as the list of its items, and callers go by exact clauses: `get` gives the item at a place, `with` the list with
//! another item at one place, `set` makes this version that list and leaves every other one, `share` gives the same list, `filled` one
//! item at each place. What a version costs in time and memory is told and not proved.
#![tactic(auto)]

mod chunk;
mod shared;
mod versions;

pub use shared::{NoMemory, Shared};
pub use versions::{MOST_PLACES, VersionArray};
