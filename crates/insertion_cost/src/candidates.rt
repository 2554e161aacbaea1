ghost use Rattle.std.specs.Prelude.{◌≡◌, ◌||◌, nat_lt};
ghost use Rattle.insertion_cost.specs.Candidates.{has_moved, is_decided as the_test, none_at, IsListed, IsBestWhereFresh};
ghost use Rattle.insertion_cost.specs.Offers.{IsFirst};

use crate::offer::{Offer, first_of_two};
use ride_base::Items;
use std::alloc::Global;
use stop_schedule::Front;

/// What is known of each vehicle that isn't listed.
#[derive(Clone, Copy, Debug, PartialEq, Eq)]
pub enum Floor {
    /// Nothing.
    Nothing,
    /// Each of its feasible insertions costs more than this.
    Above(u64),
    /// None of its insertions is feasible.
    All,
}

/// A vehicle that was priced for a request.
#[derive(Clone, Copy, Debug, PartialEq, Eq)]
pub struct Candidate {
    /// The vehicle's place in the fleet, from 0.
    pub place: usize,
    /// The front from which it was priced.
    pub front: Front,
    /// Its best offer from there, where there is one.
    pub best: Option<Offer>,
}

/// What was found out about the vehicles of a fleet for a request.
#[derive(Debug, PartialEq, Eq, Drop)]
pub struct Candidates {
    /// The version of the board at which it was found out.
    pub base: u64,
    /// The vehicles that were priced, each once.
    pub entries: Items<Candidate>,
    /// What is known of all others.
    pub floor: Floor,
}

impl Candidates {
    /// Candidates that say nothing. It takes no memory.
    pub fn none(alloc: Global, base: u64) -> Candidates
        ensures { result ≡ none_at base }
    {
        Candidates {
            base,
            entries: Items::new(alloc),
            floor: Floor::Nothing,
        }
    }
}

/// The first of the listed offers, in the order of offers. None where no vehicle is listed with one.
pub fn best_listed(candidates: &Candidates) -> Option<Offer>
    ensures listed { IsFirst (IsListed candidates.now.entries) result }
    ensures best { IsBestWhereFresh candidates.now result }
{
    let entries = candidates.entries.as_slice();
    let mut best = None;
    for entry in entries {
        best = first_of_two(best, entry.best);
    }
    best
}

/// Whether the best of some offers is the best of all, by what is known of the vehicles that aren't listed.
pub fn is_decided(floor: Floor, best: Option<Offer>) -> bool
    ensures { result ≡ the_test floor best }
{
    match (floor, best) {
        (Floor::All, _) => true,
        (Floor::Above(most), Some(offer)) => offer.cost <= most,
        _ => false,
    }
}

/// Whether a vehicle has to be priced anew: its schedule changed after the base, or it was priced from another front.
pub fn is_redone(base: u64, stamp: u64, front: Front, entry: Option<Candidate>) -> bool
    ensures { result ≡ (nat_lt base stamp || has_moved front entry) }
{
    let moved = match entry {
        None => false,
        Some(entry) => entry.front != front,
    };
    base < stamp || moved
}
