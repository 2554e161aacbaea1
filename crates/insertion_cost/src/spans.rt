/// The lengths of the legs that an insertion changes, in the units of the roads' weights and each below 2^53.
#[derive(Clone, Copy, Debug, PartialEq, Eq)]
pub struct Spans {
    /// Into the pickup.
    pub before_pickup: u64,
    /// Out of the pickup: to the dropoff where no older stop is between them, and else to the next older stop.
    pub after_pickup: u64,
    /// Into the dropoff, where an older stop is between them.
    pub before_dropoff: Option<u64>,
    /// Out of the dropoff, where an older stop follows.
    pub after_dropoff: Option<u64>,
}
