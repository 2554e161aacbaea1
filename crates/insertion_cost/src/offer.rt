ghost use Rattle.std.specs.Prelude.{◌≡◌, ℕ, ◌↔◌, IsTrue, Option};
ghost use Rattle.std.specs.declared.cmp.Ordering.TheVariants.{Less};
ghost use Rattle.insertion_cost.specs.Offers.{offer_cmp};
ghost use Rattle.insertion_cost.specs.OfferOrder.{IsFirstOfTwo};

use ride_base::VehicleNo;
use stop_schedule::Insertion;

/// What it comes to that a vehicle takes a request at some place of its list, in the units of the roads' weights.
#[derive(Clone, Copy, Debug, PartialEq, Eq)]
pub struct Offer {
    /// The cost: detour, and weighted waiting and delay. It is below 2^58.
    pub cost: u64,
    /// The vehicle's number.
    pub no: VehicleNo,
    /// The vehicle's place in the fleet, from 0, in rising order of number.
    pub place: usize,
    /// Where the two stops go.
    pub at: Insertion,
    /// When the pickup is left.
    pub leave: u64,
    /// When the dropoff is reached.
    pub arrive: u64,
}

/// Whether an offer goes before another: by cost, then by the vehicle's number, then by the places of pickup and dropoff.
pub fn is_before(a: &Offer, b: &Offer) -> bool
    ensures { IsTrue result ↔ (offer_cmp a.now b.now ≡ Less) }
{
    (a.cost, a.no, a.at.i, a.at.j) < (b.cost, b.no, b.at.i, b.at.j)
}

/// The one of two offers that goes first, where there is one; the former, where neither goes before the other.
pub fn first_of_two(a: Option<Offer>, b: Option<Offer>) -> Option<Offer>
    ensures { IsFirstOfTwo a b result }
{
    match (a, b) {
        (None, b) => b,
        (a, None) => a,
        (Some(a), Some(b)) => Some(if is_before(&b, &a) { b } else { a }),
    }
}
