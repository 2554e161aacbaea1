ghost use Rattle.std.specs.Prelude.{◌≡◌, IfOk};

use crate::offer::Offer;
use ride_base::NoMemory;
use std::alloc::Global;
use stop_schedule::NewWalks;

/// A request's vehicle, with the walks of the legs that change.
#[derive(Debug, PartialEq, Eq, Drop)]
pub struct Assigned {
    /// Which vehicle takes it, where in its list, at which cost and times.
    pub offer: Offer,
    /// The walks of the changed legs, in rising order of leg.
    pub walks: NewWalks,
}

/// The answer to a request.
#[derive(Debug, PartialEq, Eq, Drop)]
pub enum Decision {
    /// A vehicle takes it.
    Assigned(Assigned),
    /// No vehicle can take it.
    Nobody,
}

impl Decision {
    /// An equal decision.
    pub fn share(&self, alloc: Global) -> Result<Decision, NoMemory>
        ensures { IfOk result (λ d. d ≡ self.now) }
    {
        match self {
            Decision::Assigned(chosen) => Ok(Decision::Assigned(Assigned {
                offer: chosen.offer,
                walks: chosen.walks.share(alloc)?,
            })),
            Decision::Nobody => Ok(Decision::Nobody),
        }
    }
}
